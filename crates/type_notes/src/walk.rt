// The notes on all types that are compared between two libraries.
ghost use Rattle.std.specs.Prelude.{◌≡◌, ◌<◌, ◌+◌, ◌++◌, length, map, All, IfOk, IfSome, OnOk};
ghost use Rattle.pair_compare.specs.BoundPair.{IsBinding, sides_of};
ghost use Rattle.pair_compare.specs.Marking.{AreMarksOf};
ghost use Rattle.pair_explorer.specs.Visits.{AreEarlier};
ghost use Rattle.pair_rules.specs.Steps as steps_spec;
ghost use Rattle.cert_check.specs.Compatible.{task_of};
ghost use Rattle.type_notes.specs.DefinedElsewhere as elsewhere_spec;
ghost use Rattle.type_notes.specs.NotedPairs.{AreAlone, AreCompared, AreDefinedIn, AreNotes, ArePackedIn, AreReadable, IsReadable, Joins, change_behind, changes_at, changes_beside, defined_behind, difference_note, differences_of, new_core, noted_at, noted_pair, notes_at, notes_below, old_core};

use crate::between::{DwarfPair, push_differences};
use crate::chain::core_at;
use crate::definitions::{DefinitionPair, definitions_of, kin_of};
use crate::difference::{Difference, push_found};
use crate::elsewhere::{Kin, definitions_by, kin_change};
use crate::entries::EntryPair;
use crate::note::Note;
use crate::noted_pair::NotedPair;
use crate::packing::packed_nodes;
use crate::room::NoteRoom;
use crate::type_pair::{Packed, TypePair};
use abi_base::{List, NoMemory};
use abi_types::{Index, NewIx, OldIx, Way};
use dwarf_forms::DebugInfoOffset;
use dwarf_tree::EntryNumber;
use pair_compare::explore_types;
use pair_compare::reports::laws::paths_end_where_they_lead;
use pair_compare::reports::{label_at, steps_text};
use pair_explorer::laws::{parents_spell_paths, paths_by_representatives};
use pair_explorer::{Visit, Visits, route_to};
use pair_rules::Steps;
use std::alloc::Global;
use std::collections::HashSet;
use std::marker::Brand;
use std::sync::ledger::{Blank, Ledger};
use type_classes::{Classes, plain};

// Whether an old node is marked at a way.
fn is_marked(ground: &NotedPair, node: OldIx, way: Way) -> bool
    ensures { result ≡ steps_spec.is_marked (task_of (sides_of ground.now.pair)) node way }
{
    let flags = match way {
        Way::Direct => ground.pair.marks.direct.as_slice(),
        Way::Pointer => ground.pair.marks.pointer.as_slice(),
    };
    match flags.get(node.number()) {
        Some(mark) => *mark,
        None => false,
    }
}

// The note of a difference, with the printed forms of the export and of the path that lead to it.
fn note_of(alloc: Global, export: &str, path: &str, found: &Difference) -> Result<Note, NoMemory>
    ensures { IfOk result (λ note. note ≡ difference_note export.now path.now found.now) }
{
    Ok(Note {
        kind: found.kind,
        export: List::copy_of(alloc, export.as_bytes())?,
        path: List::copy_of(alloc, path.as_bytes())?,
        was: List::copy_of(alloc, found.was.as_slice())?,
        is: List::copy_of(alloc, found.is.as_slice())?,
    })
}

// Adds the notes on differences.
fn push_all(
    alloc: Global,
    notes: &mut List<Note>,
    export: &str,
    path: &str,
    found: &[Difference],
) -> Result<(), NoMemory>
    ensures { OnOk result (notes.new ≡ notes.old ++ map (difference_note export.now path.now) found.now) }
{
    for difference in found {
        let note = note_of(alloc, export, path, difference)?;
        notes.push(note)?;
    }
    Ok(())
}

// The debug entries of both libraries.
fn dwarfs_of<'x, 'd>(ground: &NotedPair<'x, '_, '_, 'd>) -> DwarfPair<'x, 'd>
    ensures old { result.old.now ≡ ground.now.old_dwarf.now }
    ensures new { result.new.now ≡ ground.now.new_dwarf.now }
{
    DwarfPair {
        old: ground.old_dwarf,
        new: ground.new_dwarf,
    }
}

// The types of a visit, with the lists of which nodes are packed.
fn types_at<'x, 'o, 'n>(
    ground: &NotedPair<'x, 'o, 'n, '_>,
    packed: Packed<'x>,
    visit: &Visit,
) -> TypePair<'x, 'o, 'n>
    ensures old_graph { result.old_graph.now ≡ ground.now.pair.old.now.graph }
    ensures new_graph { result.new_graph.now ≡ ground.now.pair.new.now.graph }
    ensures old { result.old ≡ visit.now.old }
    ensures new { result.new ≡ visit.now.new }
    ensures packed_old { result.packed.old.now ≡ packed.entry.old.now }
    ensures packed_new { result.packed.new.now ≡ packed.entry.new.now }
{
    TypePair {
        old_graph: ground.pair.old.graph(),
        new_graph: ground.pair.new.graph(),
        old: visit.old,
        new: visit.new,
        packed,
    }
}

// The differences between the types of a visit, by the lists of which nodes are packed.
fn differences_at<'x, 'o, 'n, 'd>(
    alloc: Global,
    ground: &'x NotedPair<'x, 'o, 'n, 'd>,
    packed: &'x Packed<'x>,
    visit: &Visit,
) -> Result<List<Difference>, NoMemory>
    requires packed { ArePackedIn ground.now packed.now }
    requires old { visit.now.old < length ground.now.pair.old.now.graph }
    requires new { visit.now.new < length ground.now.pair.new.now.graph }
    ensures { IfOk result (λ list. list ≡ differences_of (noted_pair ground.now) visit.now) }
{
    let dwarfs = dwarfs_of(ground);
    let types = types_at(ground, *packed, visit);
    let mut list = List::new(alloc);
    push_differences(alloc, &mut list, &dwarfs, &types)?;
    Ok(list)
}

// The entry behind the old type of a visit.
fn old_core_at(ground: &NotedPair, visit: &Visit) -> Option<EntryNumber>
    requires { visit.now.old < length ground.now.pair.old.now.graph }
    ensures found { result ≡ old_core (noted_pair ground.now) visit.now }
    ensures inside { IfSome result (λ e. e < length ground.now.old_dwarf.now.tree.entries) }
{
    let entry = ground.pair.old.graph().entry_of(visit.old);
    core_at(ground.old_dwarf, DebugInfoOffset::new(entry))
}

// The entry behind the new type of a visit.
fn new_core_at(ground: &NotedPair, visit: &Visit) -> Option<EntryNumber>
    requires { visit.now.new < length ground.now.pair.new.now.graph }
    ensures found { result ≡ new_core (noted_pair ground.now) visit.now }
    ensures inside { IfSome result (λ e. e < length ground.now.new_dwarf.now.tree.entries) }
{
    let entry = ground.pair.new.graph().entry_of(visit.new);
    core_at(ground.new_dwarf, DebugInfoOffset::new(entry))
}

// The definitions of the types of a visit, if at least one of them is only declared.
fn definitions_of_types<'x, 'o, 'n, 'd>(
    ground: &'x NotedPair<'x, 'o, 'n, 'd>,
    definitions: &'x DefinitionPair<'x, 'd>,
    visit: &Visit,
) -> Option<(EntryNumber, EntryNumber)>
    requires definitions { AreDefinedIn ground.now definitions.now }
    requires old { visit.now.old < length ground.now.pair.old.now.graph }
    requires new { visit.now.new < length ground.now.pair.new.now.graph }
    ensures found { result ≡ defined_behind (noted_pair ground.now) visit.now }
    ensures old { IfSome result (λ found. found.0 < length ground.now.old_dwarf.now.tree.entries) }
    ensures new { IfSome result (λ found. found.1 < length ground.now.new_dwarf.now.tree.entries) }
{
    let old = old_core_at(ground, visit);
    let new = new_core_at(ground, visit);
    match (old, new) {
        (Some(old), Some(new)) => {
            let pair = EntryPair {
                old_dwarf: ground.old_dwarf,
                new_dwarf: ground.new_dwarf,
                old,
                new,
            };
            definitions_by(&pair, definitions)
        }
        _ => None,
    }
}

// Adds the notes on differences at a visit, with the path to it.
fn push_under_path<'x, 'o, 'n, 'd>(
    notes: &mut List<Note>,
    ground: &'x NotedPair<'x, 'o, 'n, 'd>,
    place: (&'x Visits, usize),
    found: &[Difference],
    room: &mut NoteRoom,
) -> Result<(), NoMemory>
    requires readable { IsReadable (sides_of ground.now.pair) place.0.now place.1 }
    requires earlier { AreEarlier place.0.now }
    ensures { OnOk result (notes.new
        ≡ notes.old ++ map (noted_at (sides_of ground.now.pair) place.entry.0.now place.entry.1) found.now) }
{
    parents_spell_paths();
    let (visits, number) = place;
    let route = route_to(room.alloc, visits, number)?;
    let export = label_at(room.alloc, ground.pair.old, route.export)?;
    let path = steps_text(room.alloc, ground.pair.old, &route)?;
    room.take_notes(export.as_str(), path.as_str(), found)?;
    push_all(room.alloc, notes, export.as_str(), path.as_str(), found)
}

// The input of the walk: the libraries with their definitions and packed nodes, and what was explored.
#[derive(Drop)]
struct Walk<'w, 'o, 'n, 'd> {
    ground: &'w NotedPair<'w, 'o, 'n, 'd>,
    definitions: &'w DefinitionPair<'w, 'd>,
    packed: Packed<'w>,
    visits: &'w Visits,
}

// The difference between all definitions of a tag and a name in two libraries.
fn change_of_kin(kin: &Kin, room: &mut NoteRoom) -> Result<Option<Difference>, NoMemory>
    requires old { All (λ e. e < length kin.now.old_dwarf.now.tree.entries) kin.now.old.now }
    requires new { All (λ e. e < length kin.now.new_dwarf.now.tree.entries) kin.now.new.now }
    ensures { IfOk result (λ found. found
        ≡ elsewhere_spec.kin_change kin.now.old_dwarf.now kin.now.new_dwarf.now kin.now.old.now kin.now.new.now) }
{
    room.take_kin(kin)?;
    kin_change(room.alloc, kin)
}

// The difference between all definitions of the tags and names of two definitions.
fn change_of<'w, 'o, 'n, 'd>(
    walk: &'w Walk<'w, 'o, 'n, 'd>,
    found: (EntryNumber, EntryNumber),
    room: &mut NoteRoom,
) -> Result<Option<Difference>, NoMemory>
    requires definitions { AreDefinedIn walk.now.ground.now walk.now.definitions.now }
    requires old { found.0 < length walk.now.ground.now.old_dwarf.now.tree.entries }
    requires new { found.1 < length walk.now.ground.now.new_dwarf.now.tree.entries }
    ensures { IfOk result (λ change. change ≡ change_behind (noted_pair walk.now.ground.now) found.0 found.1) }
{
    let old_dwarf = walk.ground.old_dwarf;
    let new_dwarf = walk.ground.new_dwarf;
    let old = kin_of(room.alloc, old_dwarf, walk.definitions.old, found.0)?;
    let new = kin_of(room.alloc, new_dwarf, walk.definitions.new, found.1)?;
    let kin = Kin {
        old_dwarf,
        new_dwarf,
        old: old.as_slice(),
        new: new.as_slice(),
    };
    change_of_kin(&kin, room)
}

// Adds the difference between two definitions, unless the old one was compared before, and records it as compared.
fn push_definitions<'w, 'o, 'n, 'd>(
    list: &mut List<Difference>,
    compared: &mut HashSet<usize>,
    walk: &'w Walk<'w, 'o, 'n, 'd>,
    found: Option<(EntryNumber, EntryNumber)>,
    room: &mut NoteRoom,
) -> Result<(), NoMemory>
    requires definitions { AreDefinedIn walk.now.ground.now walk.now.definitions.now }
    requires old { IfSome found (λ found. found.0 < length walk.now.ground.now.old_dwarf.now.tree.entries) }
    requires new { IfSome found (λ found. found.1 < length walk.now.ground.now.new_dwarf.now.tree.entries) }
    ensures list { OnOk result (list.new
        ≡ list.old ++ changes_beside compared.old (noted_pair walk.now.ground.now) found) }
    ensures compared { OnOk result (Joins found compared.old compared.new) }
{
    let found = match found {
        Some(found) => found,
        None => return Ok(()),
    };
    if !compared.insert(found.0.index())? {
        return Ok(());
    }
    push_found(list, change_of(walk, found, room)?)
}

// Adds the difference between the definitions behind the types of a visit, unless the old one was compared before.
fn push_defined<'w, 'o, 'n, 'd>(
    list: &mut List<Difference>,
    compared: &mut HashSet<usize>,
    walk: &'w Walk<'w, 'o, 'n, 'd>,
    visit: &Visit,
    room: &mut NoteRoom,
) -> Result<(), NoMemory>
    requires definitions { AreDefinedIn walk.now.ground.now walk.now.definitions.now }
    requires old { visit.now.old < length walk.now.ground.now.pair.old.now.graph }
    requires new { visit.now.new < length walk.now.ground.now.pair.new.now.graph }
    ensures list { OnOk result (list.new
        ≡ list.old ++ changes_at compared.old (noted_pair walk.now.ground.now) visit.now) }
    ensures compared { OnOk result (Joins (defined_behind (noted_pair walk.now.ground.now) visit.now)
        compared.old compared.new) }
{
    let defined = definitions_of_types(walk.ground, walk.definitions, visit);
    push_definitions(list, compared, walk, defined, room)
}

// The differences at a visit: those of its types, and that of the definitions behind them, unless the old one was compared before. The
// room takes the types first.
fn found_at<'w, 'o, 'n, 'd>(
    compared: &mut HashSet<usize>,
    walk: &'w Walk<'w, 'o, 'n, 'd>,
    visit: &Visit,
    room: &mut NoteRoom,
) -> Result<List<Difference>, NoMemory>
    requires definitions { AreDefinedIn walk.now.ground.now walk.now.definitions.now }
    requires packed { ArePackedIn walk.now.ground.now walk.now.packed }
    requires old { visit.now.old < length walk.now.ground.now.pair.old.now.graph }
    requires new { visit.now.new < length walk.now.ground.now.pair.new.now.graph }
    ensures found { IfOk result (λ found. found
        ≡ differences_of (noted_pair walk.now.ground.now) visit.now ++ changes_at compared.old (noted_pair walk.now.ground.now) visit.now) }
    ensures compared { OnOk result (Joins (defined_behind (noted_pair walk.now.ground.now) visit.now)
        compared.old compared.new) }
{
    room.take_visit(walk.ground, visit)?;
    let mut found = differences_at(room.alloc, walk.ground, &walk.packed, visit)?;
    push_defined(&mut found, compared, walk, visit, room)?;
    Ok(found)
}

// Adds the notes of a visit.
#[tactic(auto, unfolding(crate::specs::NotedPairs::notes_at, crate::specs::NotedPairs::definitions_at))]
fn push_visit<'w, 'o, 'n, 'd>(
    notes: &mut List<Note>,
    compared: &mut HashSet<usize>,
    walk: &'w Walk<'w, 'o, 'n, 'd>,
    number: usize,
    room: &mut NoteRoom,
) -> Result<(), NoMemory>
    requires definitions { AreDefinedIn walk.now.ground.now walk.now.definitions.now }
    requires packed { ArePackedIn walk.now.ground.now walk.now.packed }
    requires readable { IsReadable (sides_of walk.now.ground.now.pair) walk.now.visits.now number }
    requires earlier { AreEarlier walk.now.visits.now }
    requires compared { AreCompared (noted_pair walk.now.ground.now) walk.now.visits.now number compared.old }
    ensures notes { OnOk result (notes.new
        ≡ notes.old ++ notes_at (noted_pair walk.now.ground.now) walk.now.visits.now number) }
    ensures compared { OnOk result (AreCompared (noted_pair walk.now.ground.now) walk.now.visits.now
        (number + 1) compared.new) }
{
    let visit = walk.visits.visit(number);
    if is_marked(walk.ground, visit.old, visit.way) {
        return Ok(());
    }
    let found = found_at(compared, walk, &visit, room)?;
    if found.as_slice().is_empty() {
        return Ok(());
    }
    push_under_path(
        notes,
        walk.ground,
        (walk.visits, number),
        found.as_slice(),
        room,
    )
}

// The notes of all visits, in order, in what is left of the room.
fn notes_along<'w, 'o, 'n, 'd>(
    walk: &'w Walk<'w, 'o, 'n, 'd>,
    room: &mut NoteRoom,
) -> Result<List<Note>, NoMemory>
    requires definitions { AreDefinedIn walk.now.ground.now walk.now.definitions.now }
    requires packed { ArePackedIn walk.now.ground.now walk.now.packed }
    requires readable { AreReadable (sides_of walk.now.ground.now.pair) walk.now.visits.now }
    ensures { IfOk result (λ notes. notes
        ≡ notes_below (noted_pair walk.now.ground.now) walk.now.visits.now (length walk.now.visits.now)) }
{
    let mut notes = List::new(room.alloc);
    let mut compared = HashSet::new(room.alloc);
    'visits: for number in 0..walk.visits.len() {
        push_visit(&mut notes, &mut compared, walk, number, room)?;
    }
    Ok(notes)
}

// The notes of all visits, in order, by the definitions and the packed nodes of both libraries.
fn notes_by_packed<'w, 'o, 'n, 'd>(
    ground: &'w NotedPair<'w, 'o, 'n, 'd>,
    definitions: &'w DefinitionPair<'w, 'd>,
    packed: Packed<'w>,
    visits: &'w Visits,
    room: &mut NoteRoom,
) -> Result<List<Note>, NoMemory>
    requires definitions { AreDefinedIn ground.now definitions.now }
    requires packed { ArePackedIn ground.now packed }
    requires readable { AreReadable (sides_of ground.now.pair) visits.now }
    ensures { IfOk result (λ notes. notes ≡ notes_below (noted_pair ground.now) visits.now (length visits.now)) }
{
    let walk = Walk {
        ground,
        definitions,
        packed,
        visits,
    };
    notes_along(&walk, room)
}

// The notes of all visits, in order, by the definitions of both libraries; it first collects the packed nodes.
fn notes_with_packed<'w, 'o, 'n, 'd>(
    ground: &'w NotedPair<'w, 'o, 'n, 'd>,
    definitions: &'w DefinitionPair<'w, 'd>,
    visits: &'w Visits,
    room: &mut NoteRoom,
) -> Result<List<Note>, NoMemory>
    requires definitions { AreDefinedIn ground.now definitions.now }
    requires readable { AreReadable (sides_of ground.now.pair) visits.now }
    ensures { IfOk result (λ notes. notes ≡ notes_below (noted_pair ground.now) visits.now (length visits.now)) }
{
    let old_packed = packed_nodes(room.alloc, ground.pair.old.graph())?;
    let new_packed = packed_nodes(room.alloc, ground.pair.new.graph())?;
    let packed = Packed {
        old: old_packed.as_slice(),
        new: new_packed.as_slice(),
    };
    notes_by_packed(ground, definitions, packed, visits, room)
}

// The notes of all visits, in order, in a room; it first collects the definitions and the packed nodes of both libraries.
fn notes_with_definitions<'x, 'o, 'n, 'd>(
    ground: &'x NotedPair<'x, 'o, 'n, 'd>,
    visits: &'x Visits,
    room: &mut NoteRoom,
) -> Result<List<Note>, NoMemory>
    requires { AreReadable (sides_of ground.now.pair) visits.now }
    ensures { IfOk result (λ notes. notes ≡ notes_below (noted_pair ground.now) visits.now (length visits.now)) }
{
    let old = definitions_of(ground.old_dwarf, room)?;
    let new = definitions_of(ground.new_dwarf, room)?;
    let definitions = DefinitionPair {
        old: &old,
        new: &new,
    };
    notes_with_packed(ground, &definitions, visits, room)
}

// The notes of all visits, in order.
fn notes_of_visits<'x, 'o, 'n, 'd>(
    alloc: Global,
    ground: &'x NotedPair<'x, 'o, 'n, 'd>,
    visits: &'x Visits,
) -> Result<List<Note>, NoMemory>
    requires { AreReadable (sides_of ground.now.pair) visits.now }
    ensures { IfOk result (λ notes. notes ≡ notes_below (noted_pair ground.now) visits.now (length visits.now)) }
{
    let mut room = NoteRoom::beside(alloc, ground);
    notes_with_definitions(ground, visits, &mut room)
}

// The notes on two libraries, by classes in which each type stands for itself.
fn notes_of_classes<'x, 'c, 'o, 'n, 'd, L: Ledger>(
    alloc: Global,
    ground: &'x NotedPair<'x, 'o, 'n, 'd>,
    old_classes: &'x Classes<'c, 'o, OldIx>,
    new_classes: &'x Classes<'c, 'n, NewIx>,
    steps: &mut Steps<L>,
) -> Result<List<Note>, NoMemory>
    requires bound { IsBinding ground.now.pair }
    requires marks { AreMarksOf ground.now.pair.old.now ground.now.pair.marks.now }
    requires old_nodes { old_classes.now.nodes ≡ ground.now.pair.old.now.graph }
    requires new_nodes { new_classes.now.nodes ≡ ground.now.pair.new.now.graph }
    requires old_alone { AreAlone old_classes.now }
    requires new_alone { AreAlone new_classes.now }
    ensures { IfOk result (AreNotes (noted_pair ground.now)) }
{
    paths_end_where_they_lead();
    paths_by_representatives();
    parents_spell_paths();
    let old_graph = ground.pair.old.graph();
    let new_graph = ground.pair.new.graph();
    old_graph.known();
    new_graph.known();
    let explored = explore_types(alloc, &ground.pair, old_classes, new_classes, steps)?;
    let notes = notes_of_visits(alloc, ground, &explored.visits)?;
    Ok(notes)
}

// The notes on two libraries, with a counter of steps.
fn counted_notes<L: Ledger>(
    alloc: Global,
    blank: Blank,
    ground: &NotedPair,
) -> Result<List<Note>, NoMemory>
    requires name { blank.name ≡ L.name }
    requires parts { blank.parts ≡ L.parts }
    requires some { 0 < blank.parts }
    requires bound { IsBinding ground.now.pair }
    requires marks { AreMarksOf ground.now.pair.old.now ground.now.pair.marks.now }
    ensures { IfOk result (AreNotes (noted_pair ground.now)) }
{
    let old_graph = ground.pair.old.graph();
    let new_graph = ground.pair.new.graph();
    let old_classes = plain(alloc, old_graph)?;
    let new_classes = plain(alloc, new_graph)?;
    let mut steps = Steps::<L>::new(blank);
    notes_of_classes(alloc, ground, &old_classes, &new_classes, &mut steps)
}

/// The notes on the types of two libraries: each difference between two compared types that no rule judges, with the first path to
/// them. Each type stands for itself, even if others are alike. Types that a rule file marks have no notes. Past the limit on notes
/// there are none at all.
pub fn type_notes(alloc: Global, ground: &NotedPair) -> Result<List<Note>, NoMemory>
    requires bound { IsBinding ground.now.pair }
    requires marks { AreMarksOf ground.now.pair.old.now ground.now.pair.marks.now }
    ensures { IfOk result (AreNotes (noted_pair ground.now)) }
{
    counted_notes::<Brand>(alloc, Blank::new(1), ground)
}
