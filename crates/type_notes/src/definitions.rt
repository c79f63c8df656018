// The definitions of types, by name.
ghost use Rattle.std.specs.Prelude.{◌≡◌, ◌<◌, ◌++◌, ◌∷◌, [], ℕ, List, filter, if◌then◌else◌, length, All, IfOk, IfSome, OnOk};
ghost use Rattle.std.specs.Option.{option_copied};
ghost use Rattle.std.specs.Str.{bytes_eq};
ghost use Rattle.type_notes.specs.DefinedElsewhere.{AreDefinitions, numbers_under};
ghost use Rattle.type_notes.specs.DefinedElsewhere as spec;

use crate::room::NoteRoom;
use abi_base::dwarf::{
    DW_TAG_compile_unit, DW_TAG_enumeration_type, DW_TAG_partial_unit, DW_TAG_structure_type,
    DW_TAG_type_unit, DW_TAG_union_type,
};
use abi_base::{List, NoMemory};
use dwarf_entries::Dwarf;
use dwarf_tree::EntryNumber;
use dwarf_tree::laws::children_stand_one_deeper;
use std::alloc::Global;
use std::collections::BTreeMap;

/// The numbers of the entries that define a library's types, by name.
#[derive(Drop)]
pub struct Definitions<'a> {
    /// The definitions of structures.
    pub structures: BTreeMap<&'a [u8], List<EntryNumber>>,
    /// The definitions of unions.
    pub unions: BTreeMap<&'a [u8], List<EntryNumber>>,
    /// The definitions of enumerations.
    pub enumerations: BTreeMap<&'a [u8], List<EntryNumber>>,
}

/// The definitions of two libraries.
#[derive(Drop)]
pub struct DefinitionPair<'x, 'd> {
    /// The definitions of the old library.
    pub old: &'x Definitions<'d>,
    /// The definitions of the new library.
    pub new: &'x Definitions<'d>,
}

// Removes the numbers under a name from the map, and returns them.
fn taken<'a>(
    alloc: Global,
    numbers: &mut BTreeMap<&'a [u8], List<EntryNumber>>,
    name: &'a [u8],
) -> List<EntryNumber>
    ensures list { result ≡ numbers_under numbers.old name.now }
    ensures others { (q : List ℕ) → numbers_under numbers.new q
        ≡ (if bytes_eq name.now q then [] else numbers_under numbers.old q) }
{
    match numbers.remove(name) {
        Some(list) => list,
        None => List::new(alloc),
    }
}

// Appends a number to those under a name.
fn keep<'a>(
    alloc: Global,
    numbers: &mut BTreeMap<&'a [u8], List<EntryNumber>>,
    name: &'a [u8],
    number: EntryNumber,
) -> Result<(), NoMemory>
    ensures { OnOk result ((q : List ℕ) → numbers_under numbers.new q
        ≡ numbers_under numbers.old q ++ (if bytes_eq name.now q then number ∷ [] else [])) }
{
    let mut list = taken(alloc, numbers, name);
    list.push(number)?;
    numbers.insert(name, list)?;
    Ok(())
}

// Adds an entry under its name, if it is a definition. The room takes the name before it is compared with others: in a small file many
// entries can share one long name.
#[tactic(auto, unfolding(crate::specs::DefinedElsewhere::defines))]
fn keep_definition<'a>(
    numbers: &mut BTreeMap<&'a [u8], List<EntryNumber>>,
    dwarf: &Dwarf<'a>,
    e: EntryNumber,
    room: &mut NoteRoom,
) -> Result<(), NoMemory>
    requires { e < length dwarf.now.tree.entries }
    ensures { OnOk result ((q : List ℕ) → numbers_under numbers.new q
        ≡ numbers_under numbers.old q ++ (if spec.defines dwarf.now q e then e ∷ [] else [])) }
{
    if dwarf.is_declaration(e) {
        return Ok(());
    }
    match dwarf.name_of(e) {
        Some(name) => {
            room.take_letters(name)?;
            keep(room.alloc, numbers, name, e)
        }
        None => Ok(()),
    }
}

// Adds those entries that are definitions, under their names.
fn keep_definitions<'a>(
    numbers: &mut BTreeMap<&'a [u8], List<EntryNumber>>,
    dwarf: &Dwarf<'a>,
    entries: &[EntryNumber],
    room: &mut NoteRoom,
) -> Result<(), NoMemory>
    requires { All (λ e. e < length dwarf.now.tree.entries) entries.now }
    ensures { OnOk result ((q : List ℕ) → numbers_under numbers.new q
        ≡ numbers_under numbers.old q ++ filter (spec.defines dwarf.now q) entries.now) }
{
    for k in 0..entries.len() {
        let entry = entries[k];
        keep_definition(numbers, dwarf, entry, room)?;
    }
    Ok(())
}

// Whether a tag is that of the root of a unit.
fn is_unit_tag(tag: u64) -> bool
    ensures { result ≡ spec.is_unit_tag tag }
{
    matches!(
        tag,
        DW_TAG_compile_unit | DW_TAG_partial_unit | DW_TAG_type_unit
    )
}

// The entries with a tag at the top of a unit, given the root of the unit.
#[tactic(auto, unfolding(crate::specs::DefinedElsewhere::at_top_of, type_reach::specs::References::tagged_children))]
fn at_top_of(
    alloc: Global,
    dwarf: &Dwarf,
    root: EntryNumber,
    tag: u64,
) -> Result<Vec<EntryNumber>, NoMemory>
    requires { root < length dwarf.now.tree.entries }
    ensures entries { IfOk result (λ list. list.items ≡ spec.at_top_of dwarf.now.tree tag root) }
    ensures inside { IfOk result (λ list. All (λ e. e < length dwarf.now.tree.entries) list.items) }
{
    if is_unit_tag(dwarf.tag(root)) {
        dwarf.tagged(alloc, root, tag)
    } else {
        Ok(Vec::new(alloc))
    }
}

// The definitions of all types with a tag, by name.
fn definitions_with<'a>(
    dwarf: &Dwarf<'a>,
    tag: u64,
    room: &mut NoteRoom,
) -> Result<BTreeMap<&'a [u8], List<EntryNumber>>, NoMemory>
    ensures { IfOk result (λ numbers. (q : List ℕ) → numbers_under numbers q ≡ spec.definitions_of dwarf.now tag q) }
{
    let mut numbers = BTreeMap::new(room.alloc);
    dwarf.known();
    for root in 0..dwarf.len() {
        let entry = EntryNumber::new(root as u32);
        let tops = at_top_of(room.alloc, dwarf, entry, tag)?;
        keep_definitions(&mut numbers, dwarf, tops.as_slice(), room)?;
    }
    Ok(numbers)
}

/// The definitions of a library's types: for each name, the entries at the top of a unit that are not declarations. The room takes
/// the names.
pub(crate) fn definitions_of<'a>(
    dwarf: &Dwarf<'a>,
    room: &mut NoteRoom,
) -> Result<Definitions<'a>, NoMemory>
    ensures { IfOk result (AreDefinitions dwarf.now) }
{
    let structures = definitions_with(dwarf, DW_TAG_structure_type, room)?;
    let unions = definitions_with(dwarf, DW_TAG_union_type, room)?;
    let enumerations = definitions_with(dwarf, DW_TAG_enumeration_type, room)?;
    Ok(Definitions {
        structures,
        unions,
        enumerations,
    })
}

// The numbers under a name.
fn listed<'x>(numbers: &'x BTreeMap<&[u8], List<EntryNumber>>, name: &'x [u8]) -> &'x [EntryNumber]
    ensures { result.now ≡ numbers_under numbers.now name.now }
{
    match numbers.get(name) {
        Some(list) => list.as_slice(),
        None => &[],
    }
}

// The definitions of a tag and a name.
fn definitions_named<'x>(
    dwarf: &Dwarf,
    definitions: &'x Definitions,
    tag: u64,
    name: Option<&'x [u8]>,
) -> &'x [EntryNumber]
    requires { AreDefinitions dwarf.now definitions.now }
    ensures { result.now ≡ spec.definitions_named dwarf.now tag (option_copied name.entry) }
{
    let name = match name {
        Some(name) => name,
        None => return &[],
    };
    match tag {
        DW_TAG_structure_type => listed(&definitions.structures, name),
        DW_TAG_union_type => listed(&definitions.unions, name),
        DW_TAG_enumeration_type => listed(&definitions.enumerations, name),
        _ => &[],
    }
}

// The definitions of an entry's tag and name.
#[tactic(auto, unfolding(crate::specs::DefinedElsewhere::definitions_like))]
fn definitions_like<'x>(
    dwarf: &'x Dwarf,
    definitions: &'x Definitions,
    e: EntryNumber,
) -> &'x [EntryNumber]
    requires inside { e < length dwarf.now.tree.entries }
    requires definitions { AreDefinitions dwarf.now definitions.now }
    ensures list { result.now ≡ spec.definitions_like dwarf.now e }
    ensures inside { All (λ found. found < length dwarf.now.tree.entries) result.now }
{
    children_stand_one_deeper();
    definitions_named(dwarf, definitions, dwarf.tag(e), dwarf.name_of(e))
}

// The first number of a list.
fn first_in(numbers: &[EntryNumber]) -> Option<EntryNumber>
    ensures { result ≡ spec.first_in numbers.now }
{
    numbers.first().copied()
}

/// The definition of an entry's type: the entry itself, or for a declaration the first definition of its tag and name.
#[tactic(auto, unfolding(crate::specs::DefinedElsewhere::defined_by))]
pub(crate) fn defined_by(
    dwarf: &Dwarf,
    definitions: &Definitions,
    e: EntryNumber,
) -> Option<EntryNumber>
    requires inside { e < length dwarf.now.tree.entries }
    requires definitions { AreDefinitions dwarf.now definitions.now }
    ensures found { result ≡ spec.defined_by dwarf.now e }
    ensures inside { IfSome result (λ found. found < length dwarf.now.tree.entries) }
{
    if !dwarf.is_declaration(e) {
        return Some(e);
    }
    first_in(definitions_like(dwarf, definitions, e))
}

/// All definitions of the tag and name of a definition, or only itself if it is not at the top of a unit.
#[tactic(auto, unfolding(crate::specs::DefinedElsewhere::kin_of))]
pub(crate) fn kin_of(
    alloc: Global,
    dwarf: &Dwarf,
    definitions: &Definitions,
    e: EntryNumber,
) -> Result<Vec<EntryNumber>, NoMemory>
    requires inside { e < length dwarf.now.tree.entries }
    requires definitions { AreDefinitions dwarf.now definitions.now }
    ensures list { IfOk result (λ list. list.items ≡ spec.kin_of dwarf.now e) }
    ensures inside { IfOk result (λ list. All (λ found. found < length dwarf.now.tree.entries) list.items) }
{
    let found = definitions_like(dwarf, definitions, e);
    if found.is_empty() {
        return Ok(Vec::from_slice(alloc, &[e])?);
    }
    Ok(Vec::from_slice(alloc, found)?)
}
