// The exports that lead to two types that break a rule, without the export that the row of the break names.
ghost use Rattle.std.specs.Prelude.{◌≡◌, ◌<◌, ◌+◌, ◌++◌, length, codes, flat_map, string_bytes, sum_by, IfErr, IfOk, OnErr, OnOk};
ghost use Rattle.abi_base.specs.declared.fault.NoMemory.TheVariants.{Past};
ghost use Rattle.abi_base.specs.declared.limit.Limit.TheVariants.{AffectedExports};
ghost use Rattle.pair_explorer.specs.Explorations.{IsExploration};
ghost use Rattle.pair_explorer.specs.GraphPairs.{scope_of};
ghost use Rattle.pair_explorer.specs.Routes.{path_of};
ghost use Rattle.pair_explorer.specs.Scopes.{IsScope};
ghost use Rattle.leading_exports.specs.Drawing.{all_arrows};
ghost use Rattle.leading_exports.specs.Walks.{IsWalk};
ghost use Rattle.pair_compare.specs.Compared.{IsComparison, sides_in};
ghost use Rattle.pair_compare.specs.reports.PathTexts as path_texts;
ghost use Rattle.side_notes.specs.Affected.{AddsRow, AreAffected, AreRowNotes, AreSpelled, as_row, note_beside, note_size, row_notes};
ghost use Rattle.side_notes.specs.Affected as spec;
ghost use Rattle.side_notes.specs.NoteTexts.{behind};

use crate::making::bytes_of;
use abi_base::{Effort, Limit, List, NoMemory, taken};
use abi_types::{Index, Library, NewIx, OldIx};
use cert_check::library_exports::find_at;
use leading_exports::{Arrow, Walk, arrows_of, exports_to, numbers_of};
use pair_compare::Compared;
use pair_compare::reports::laws::paths_end_where_they_lead;
use pair_compare::reports::{label_at, steps_text};
use pair_explorer::laws::{parents_spell_paths, paths_by_representatives};
use pair_explorer::{Explored, GraphPair, Route, Visits, route_to};
use pair_rules::Steps;
use std::alloc::Global;
use std::collections::BTreeSet;
use std::marker::Brand;
use std::sync::ledger::{Blank, Ledger};
use type_notes::{Note, NoteKind};

// ---- two types that break a rule

// The types of the visit of a number.
fn pair_at(visits: &Visits, number: usize) -> (usize, usize)
    ensures { result ≡ spec.pair_at visits.now number }
{
    match visits.get(number) {
        None => (0, 0),
        Some(visit) => (visit.old.number(), visit.new.number()),
    }
}

// The numbers of the visits with breaks, of each two types the first.
fn first_visits(alloc: Global, explored: &Explored) -> Result<List<usize>, NoMemory>
    ensures { IfOk result (λ numbers. numbers ≡ spec.first_visits explored.now.visits explored.now.breaks) }
{
    let mut pairs = BTreeSet::new(alloc);
    let mut numbers = List::new(alloc);
    let breaks = explored.breaks.as_slice();
    for found in breaks {
        let is_new = pairs.insert(pair_at(&explored.visits, found.0))?;
        if is_new {
            numbers.push(found.0)?;
        }
    }
    Ok(numbers)
}

// ---- one row

// The old library, an exploration of its types beside those of a new one, and the arrows between its visits.
#[derive(Drop)]
struct Ground<'x, 'c, 'o, 'n> {
    library: &'x Library<'o, OldIx>,
    walk: &'x Walk<'x, 'o, 'n, 'c, 'o, 'c, 'n>,
    arrows: &'x [Arrow],
}

// Appends the steps of a path, with a space in front, if the path has steps.
fn push_steps(text: &mut String, steps: &str) -> Result<(), NoMemory>
    ensures { OnOk result (string_bytes text.new ≡ string_bytes text.old ++ behind (codes " ") steps.now) }
{
    if steps.as_bytes().is_empty() {
        return Ok(());
    }
    text.push_str(" ")?;
    text.push_str(steps)?;
    Ok(())
}

// Appends the reference to a row: the label of its export, and the steps of its path.
fn push_row_text(text: &mut String, label: &str, steps: &str) -> Result<(), NoMemory>
    ensures { OnOk result (string_bytes text.new ≡ string_bytes text.old ++ as_row label.now steps.now) }
{
    text.push_str("as ")?;
    text.push_str(label)?;
    push_steps(text, steps)
}

// The reference to the row of the types at the end of a path.
fn row_text(alloc: Global, library: &Library<OldIx>, route: &Route) -> Result<List<u8>, NoMemory>
    requires { path_texts.IsWalk library.now (path_of route.now.export route.now.parts) }
    ensures { IfOk result (λ text. text ≡ spec.row_text library.now (path_of route.now.export route.now.parts)) }
{
    let label = label_at(alloc, library, route.export)?;
    let steps = steps_text(alloc, library, route)?;
    let mut text = String::new(alloc);
    push_row_text(&mut text, label.as_str(), steps.as_str())?;
    Ok(bytes_of(text))
}

// A row on types, by the position of its export and its text.
#[derive(Drop)]
struct TypeRow<'x, 'o> {
    library: &'x Library<'o, OldIx>,
    export: u32,
    text: &'x [u8],
}

// Adds the note on an export that leads to the types of a row, unless it is the row's own.
fn push_beside(
    alloc: Global,
    notes: &mut List<Note>,
    row: &TypeRow,
    export: u32,
) -> Result<(), NoMemory>
    ensures { OnOk result (notes.new
        ≡ notes.old ++ note_beside row.now.library.now row.now.export row.now.text.now export) }
{
    if export == row.export {
        return Ok(());
    }
    let label = label_at(alloc, row.library, export)?;
    let path = List::copy_of(alloc, row.text)?;
    notes.push(Note {
        kind: NoteKind::AffectedExport,
        export: bytes_of(label),
        path,
        was: List::new(alloc),
        is: List::new(alloc),
    })
}

// The bytes of notes for each byte of the file, and how many more there may be.
const BYTES_A_BYTE: usize = 16;

const BYTES_AT_LEAST: usize = 33_554_432;

// How many bytes more count for the steps.
const STEP_BYTES_AT_LEAST: usize = 262_144;

// What a note takes besides its texts, in bytes.
const NOTE: usize = 128;

// The number of letters of the name of the old export at a position, 0 where there is none.
fn name_len_at(library: &Library<OldIx>, export: u32) -> usize
    ensures { result ≡ spec.name_len_at library.now export }
{
    match find_at(library, export as usize) {
        None => 0,
        Some(export) => export.name.len(),
    }
}

// The budget of the notes on exports: steps along the visits and arrows at each row, and bytes.
#[derive(Drop)]
struct NoteRoom {
    steps: Effort,
    bytes: usize,
}

impl NoteRoom {
    // The room beside an old library, by the size of its file.
    fn beside(library: &Library<OldIx>) -> NoteRoom {
        let bytes = library.file().len();
        NoteRoom {
            steps: Effort::for_bytes(
                Limit::AffectedExports,
                bytes.saturating_add(STEP_BYTES_AT_LEAST),
            ),
            bytes: bytes
                .saturating_mul(BYTES_A_BYTE)
                .saturating_add(BYTES_AT_LEAST),
        }
    }

    // Takes this many bytes. Fails exactly where there are fewer, and names the limit.
    fn take(&mut self, bytes: usize) -> Result<(), NoMemory>
        ensures ok { OnOk result (self.old.bytes ≡ self.new.bytes + bytes) }
        ensures err { OnErr result (self.old.bytes < bytes) }
        ensures named { IfErr result (λ e. e ≡ Past AffectedExports) }
        ensures steps { self.new.steps ≡ self.old.steps }
    {
        self.bytes = taken(Limit::AffectedExports, self.bytes, bytes)?;
        Ok(())
    }

    // Takes the note on an export at a row, by the letters of the export's name and of the row's text. Fails exactly where there are
    // fewer bytes, and names the limit.
    fn take_note(&mut self, row: &TypeRow, export: u32) -> Result<(), NoMemory>
        ensures ok { OnOk result (self.old.bytes
            ≡ self.new.bytes + note_size row.now.library.now row.now.text.now export) }
        ensures err { OnErr result (self.old.bytes < note_size row.now.library.now row.now.text.now export) }
        ensures named { IfErr result (λ e. e ≡ Past AffectedExports) }
        ensures steps { self.new.steps ≡ self.old.steps }
    {
        self.take(name_len_at(row.library, export))?;
        self.take(row.text.len())?;
        self.take(NOTE)
    }

    // Takes the notes on exports at a row, one for each export. Fails exactly where there are fewer bytes, and names the limit.
    fn take_notes(&mut self, row: &TypeRow, exports: &[u32]) -> Result<(), NoMemory>
        ensures ok { OnOk result (self.old.bytes
            ≡ self.new.bytes + sum_by (note_size row.now.library.now row.now.text.now) exports.now) }
        ensures err { OnErr result (self.old.bytes
            < sum_by (note_size row.now.library.now row.now.text.now) exports.now) }
        ensures named { IfErr result (λ e. e ≡ Past AffectedExports) }
        ensures steps { self.new.steps ≡ self.old.steps }
    {
        for export in exports {
            self.take_note(row, *export)?;
        }
        Ok(())
    }
}

// Adds the notes on the exports that lead to the types of a row.
fn push_others(
    alloc: Global,
    notes: &mut List<Note>,
    row: &TypeRow,
    exports: &[u32],
) -> Result<(), NoMemory>
    ensures { OnOk result (notes.new
        ≡ notes.old ++ flat_map (note_beside row.now.library.now row.now.export row.now.text.now) exports.now) }
{
    for export in exports {
        push_beside(alloc, notes, row, *export)?;
    }
    Ok(())
}

// The number of a visit, and the exports that lead to its types.
#[derive(Drop)]
struct LedVisit<'x> {
    number: usize,
    exports: &'x [u32],
}

// Adds the notes on exports at the row of a visit.
fn push_at<'x, 'c, 'o, 'n>(
    alloc: Global,
    notes: &mut List<Note>,
    ground: &'x Ground<'x, 'c, 'o, 'n>,
    led: &LedVisit,
    room: &mut NoteRoom,
) -> Result<(), NoMemory>
    requires { AreSpelled ground.now.library.now ground.now.walk.now.visits.now }
    ensures { OnOk result (notes.new
        ≡ notes.old ++ row_notes ground.now.library.now ground.now.walk.now.visits.now (led.now.number, led.now.exports.now)) }
{
    parents_spell_paths();
    let Some(_visit) = ground.walk.visits.get(led.number) else {
        return Ok(());
    };
    let route = route_to(alloc, ground.walk.visits, led.number)?;
    let text = row_text(alloc, ground.library, &route)?;
    let row = TypeRow {
        library: ground.library,
        export: route.export,
        text: text.as_slice(),
    };
    room.take_notes(&row, led.exports)?;
    push_others(alloc, notes, &row, led.exports)
}

// ---- all rows

// Adds the notes at the row of the visit of a number.
fn push_row<'x, 'c, 'o, 'n>(
    alloc: Global,
    notes: &mut List<Note>,
    ground: &'x Ground<'x, 'c, 'o, 'n>,
    number: usize,
    room: &mut NoteRoom,
) -> Result<(), NoMemory>
    requires spelled { AreSpelled ground.now.library.now ground.now.walk.now.visits.now }
    requires walk { IsWalk (scope_of ground.now.walk.now.ground.now) ground.now.walk.now.visits.now
        ground.now.walk.now.numbers.now }
    requires arrows { ground.now.arrows.now
        ≡ all_arrows (scope_of ground.now.walk.now.ground.now) ground.now.walk.now.visits.now ground.now.walk.now.numbers.now }
    ensures { OnOk result (AddsRow ground.now.library.now
        (scope_of ground.now.walk.now.ground.now) ground.now.walk.now.visits.now number notes.old notes.new) }
{
    let (old, new) = pair_at(ground.walk.visits, number);
    let pair = (OldIx::of(old), NewIx::of(new));
    let exports = exports_to(alloc, ground.walk, ground.arrows, pair, &mut room.steps)?;
    let led = LedVisit {
        number,
        exports: exports.as_slice(),
    };
    push_at(alloc, notes, ground, &led, room)
}

// The notes at the rows of the visits with these numbers. Where it takes too many steps, or the notes have too many bytes, memory
// counts as run out.
fn rows_of<'x, 'c, 'o, 'n>(
    alloc: Global,
    ground: &'x Ground<'x, 'c, 'o, 'n>,
    numbers: &[usize],
) -> Result<List<Note>, NoMemory>
    requires spelled { AreSpelled ground.now.library.now ground.now.walk.now.visits.now }
    requires walk { IsWalk (scope_of ground.now.walk.now.ground.now) ground.now.walk.now.visits.now
        ground.now.walk.now.numbers.now }
    requires arrows { ground.now.arrows.now
        ≡ all_arrows (scope_of ground.now.walk.now.ground.now) ground.now.walk.now.visits.now ground.now.walk.now.numbers.now }
    ensures { IfOk result (AreRowNotes ground.now.library.now
        (scope_of ground.now.walk.now.ground.now) ground.now.walk.now.visits.now numbers.now) }
{
    let mut room = NoteRoom::beside(ground.library);
    let mut notes = List::new(alloc);
    'rows: for k in 0..numbers.len() {
        push_row(alloc, &mut notes, ground, numbers[k], &mut room)?;
    }
    Ok(notes)
}

// ---- two libraries

// The notes at the rows of what was explored, by the arrows between its visits.
fn with_arrows<'x, 'c, 'o, 'n>(
    alloc: Global,
    library: &'x Library<'o, OldIx>,
    walk: &'x Walk<'x, 'o, 'n, 'c, 'o, 'c, 'n>,
    arrows: &'x [Arrow],
    explored: &'x Explored,
) -> Result<List<Note>, NoMemory>
    requires spelled { AreSpelled library.now walk.now.visits.now }
    requires walk { IsWalk (scope_of walk.now.ground.now) walk.now.visits.now walk.now.numbers.now }
    requires arrows { arrows.now ≡ all_arrows (scope_of walk.now.ground.now) walk.now.visits.now walk.now.numbers.now }
    ensures { IfOk result (AreRowNotes library.now (scope_of walk.now.ground.now) walk.now.visits.now
        (spec.first_visits explored.now.visits explored.now.breaks)) }
{
    let rows = first_visits(alloc, explored)?;
    let ground = Ground {
        library,
        walk,
        arrows,
    };
    rows_of(alloc, &ground, rows.as_slice())
}

// The notes at the rows of what was explored, with a counter of steps.
fn with_walk<'x, 'c, 'o, 'n, L: Ledger>(
    alloc: Global,
    library: &'x Library<'o, OldIx>,
    walk: &'x Walk<'x, 'o, 'n, 'c, 'o, 'c, 'n>,
    explored: &'x Explored,
    steps: &mut Steps<L>,
) -> Result<List<Note>, NoMemory>
    requires spelled { AreSpelled library.now walk.now.visits.now }
    requires walk { IsWalk (scope_of walk.now.ground.now) walk.now.visits.now walk.now.numbers.now }
    ensures { IfOk result (AreRowNotes library.now (scope_of walk.now.ground.now) walk.now.visits.now
        (spec.first_visits explored.now.visits explored.now.breaks)) }
{
    let arrows = arrows_of(alloc, walk, steps)?;
    with_arrows(alloc, library, walk, arrows.as_slice(), explored)
}

// The notes at the rows of what was explored, with a counter of steps. It first numbers the visits.
fn with_explored<'x, 'c, 'o, 'n, L: Ledger>(
    alloc: Global,
    library: &'x Library<'o, OldIx>,
    graphs: &'x GraphPair<'x, 'o, 'n, 'c, 'o, 'c, 'n>,
    explored: &'x Explored,
    steps: &mut Steps<L>,
) -> Result<List<Note>, NoMemory>
    requires spelled { AreSpelled library.now explored.now.visits }
    requires scope { IsScope (scope_of graphs.now) }
    requires explored { IsExploration (scope_of graphs.now) explored.now.visits explored.now.breaks }
    ensures { IfOk result (AreRowNotes library.now (scope_of graphs.now) explored.now.visits
        (spec.first_visits explored.now.visits explored.now.breaks)) }
{
    let numbers = numbers_of(alloc, &explored.visits)?;
    let walk = Walk {
        ground: graphs,
        visits: &explored.visits,
        numbers: &numbers,
    };
    with_walk(alloc, library, &walk, explored, steps)
}

// The notes on two libraries that were compared, with a counter of steps.
fn counted_notes<L: Ledger>(
    alloc: Global,
    blank: Blank,
    compared: &Compared,
) -> Result<List<Note>, NoMemory>
    requires name { blank.name ≡ L.name }
    requires parts { blank.parts ≡ L.parts }
    requires some { 0 < blank.parts }
    requires comparison { IsComparison compared.now }
    ensures { IfOk result (AreAffected (sides_in compared.now)) }
{
    paths_end_where_they_lead();
    paths_by_representatives();
    parents_spell_paths();
    let mut steps = Steps::<L>::new(blank);
    with_explored(
        alloc,
        compared.pair.old,
        compared.graphs,
        compared.explored,
        &mut steps,
    )
}

/// The notes on the exports that lead to types that break a rule, from a comparison of two libraries: for each two such types, a
/// note on each compared export that leads to them, except the export of the report's row. A note names the export, and the row by
/// its export and its path. For each two such types this takes the time of a pass over what was explored. Returns `NoMemory` if that
/// is too much, or if there are too many notes.
pub fn affected_exports(alloc: Global, compared: &Compared) -> Result<List<Note>, NoMemory>
    requires { IsComparison compared.now }
    ensures { IfOk result (AreAffected (sides_in compared.now)) }
{
    counted_notes::<Brand>(alloc, Blank::new(1), compared)
}
