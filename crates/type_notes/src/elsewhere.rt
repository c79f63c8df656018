// Types that one unit only declares and another unit defines.
ghost use Rattle.std.specs.Prelude.{◌≡◌, ◌<◌, length, slice_get, All, IfOk, IfSome};
ghost use Rattle.type_notes.specs.DefinedElsewhere.{AreKin, AreOfBoth};
ghost use Rattle.type_notes.specs.DefinedElsewhere as spec;
ghost use Rattle.type_notes.specs.Entries.{AreThere, plain};

use crate::definition_texts::{definition_text, part_text, parts_of, size_text};
use crate::definitions::{DefinitionPair, defined_by};
use crate::difference::{Difference, differing};
use crate::entries::EntryPair;
use crate::lacking::first_lacking;
use crate::note::NoteKind;
use abi_base::{List, NoMemory};
use dwarf_entries::Dwarf;
use dwarf_tree::EntryNumber;
use std::alloc::Global;

// The text of the member or enumerator at a position of a list, or that there is none.
fn part_or_none(
    alloc: Global,
    dwarf: &Dwarf,
    parts: &[EntryNumber],
    place: usize,
) -> Result<Vec<u8>, NoMemory>
    requires { All (λ m. m < length dwarf.now.tree.entries) parts.now }
    ensures { IfOk result (λ text. text.items ≡ spec.part_or_none dwarf.now (slice_get parts.now place)) }
{
    if place < parts.len() {
        let part = parts[place];
        return part_text(alloc, dwarf, part);
    }
    Ok(Vec::from_slice(alloc, b"none")?)
}

// The difference between the members or enumerators at one position of two lists.
fn part_change(
    alloc: Global,
    pair: &EntryPair,
    old: &[EntryNumber],
    new: &[EntryNumber],
    place: usize,
) -> Result<Option<Difference>, NoMemory>
    requires old { All (λ m. m < length pair.now.old_dwarf.now.tree.entries) old.now }
    requires new { All (λ m. m < length pair.now.new_dwarf.now.tree.entries) new.now }
    ensures { IfOk result (λ found. found
        ≡ spec.part_change pair.now.old_dwarf.now pair.now.new_dwarf.now old.now new.now place) }
{
    let was = part_or_none(alloc, pair.old_dwarf, old, place)?;
    let is = part_or_none(alloc, pair.new_dwarf, new, place)?;
    Ok(differing(NoteKind::DefinedElsewhere, was, is))
}

// The difference between the first members or enumerators that differ.
fn first_part_change(
    alloc: Global,
    pair: &EntryPair,
    old: &[EntryNumber],
    new: &[EntryNumber],
) -> Result<Option<Difference>, NoMemory>
    requires old { All (λ m. m < length pair.now.old_dwarf.now.tree.entries) old.now }
    requires new { All (λ m. m < length pair.now.new_dwarf.now.tree.entries) new.now }
    ensures { IfOk result (λ found. found
        ≡ spec.first_part_change pair.now.old_dwarf.now pair.now.new_dwarf.now old.now new.now) }
{
    for place in 0..old.len().max(new.len()) {
        let found = part_change(alloc, pair, old, new, place)?;
        if found.is_some() {
            return Ok(found);
        }
    }
    Ok(None)
}

// The difference between the sizes of two definitions.
fn size_change(alloc: Global, pair: &EntryPair) -> Result<Option<Difference>, NoMemory>
    requires { AreThere (plain pair.now) }
    ensures { IfOk result (λ found. found
        ≡ spec.size_change pair.now.old_dwarf.now pair.now.new_dwarf.now pair.now.old pair.now.new) }
{
    let was = size_text(alloc, pair.old_dwarf, pair.old)?;
    let is = size_text(alloc, pair.new_dwarf, pair.new)?;
    Ok(differing(NoteKind::DefinedElsewhere, was, is))
}

// The difference between the first members or enumerators of two definitions that differ.
fn parts_change(alloc: Global, pair: &EntryPair) -> Result<Option<Difference>, NoMemory>
    requires { AreThere (plain pair.now) }
    ensures { IfOk result (λ found. found
        ≡ spec.parts_change pair.now.old_dwarf.now pair.now.new_dwarf.now pair.now.old pair.now.new) }
{
    let old = parts_of(alloc, pair.old_dwarf, pair.old)?;
    let new = parts_of(alloc, pair.new_dwarf, pair.new)?;
    first_part_change(alloc, pair, old.as_slice(), new.as_slice())
}

/// The difference between two definitions: that of their sizes, or else of the first members or enumerators that differ.
#[tactic(auto, unfolding(crate::specs::DefinedElsewhere::definition_change))]
pub(crate) fn definition_change(
    alloc: Global,
    pair: &EntryPair,
) -> Result<Option<Difference>, NoMemory>
    requires { AreThere (plain pair.now) }
    ensures { IfOk result (λ found. found
        ≡ spec.definition_change pair.now.old_dwarf.now pair.now.new_dwarf.now pair.now.old pair.now.new) }
{
    match size_change(alloc, pair)? {
        Some(found) => Ok(Some(found)),
        None => parts_change(alloc, pair),
    }
}

// The texts of definitions.
fn texts_of(
    alloc: Global,
    dwarf: &Dwarf,
    entries: &[EntryNumber],
) -> Result<List<List<u8>>, NoMemory>
    requires { All (λ e. e < length dwarf.now.tree.entries) entries.now }
    ensures { IfOk result (λ texts. texts ≡ spec.texts_of dwarf.now entries.now) }
{
    let mut texts = List::new(alloc);
    for k in 0..entries.len() {
        let entry = entries[k];
        let text = definition_text(alloc, dwarf, entry)?;
        texts.push(text)?;
    }
    Ok(texts)
}

// The entry at a position of a list.
fn entry_at(dwarf: &Dwarf, entries: &[EntryNumber], place: usize) -> Option<EntryNumber>
    requires { All (λ e. e < length dwarf.now.tree.entries) entries.now }
    ensures found { result ≡ slice_get entries.now place }
    ensures inside { IfSome result (λ e. e < length dwarf.now.tree.entries) }
{
    if place < entries.len() {
        let entry = entries[place];
        return Some(entry);
    }
    None
}

// The definitions of a tag and a name in two libraries.
#[derive(Drop)]
pub(crate) struct Kin<'x, 'd> {
    /// The debug entries of the old library.
    pub old_dwarf: &'x Dwarf<'d>,
    /// The debug entries of the new library.
    pub new_dwarf: &'x Dwarf<'d>,
    /// The numbers of the old definitions.
    pub old: &'x [EntryNumber],
    /// The numbers of the new definitions.
    pub new: &'x [EntryNumber],
}

// The difference between the definitions at two positions.
fn change_at(
    alloc: Global,
    kin: &Kin,
    old_place: usize,
    new_place: usize,
) -> Result<Option<Difference>, NoMemory>
    requires { AreKin kin.now }
    ensures { IfOk result (λ found. found
        ≡ spec.change_between kin.now.old_dwarf.now kin.now.new_dwarf.now (slice_get kin.now.old.now old_place) (slice_get kin.now.new.now new_place)) }
{
    let old = entry_at(kin.old_dwarf, kin.old, old_place);
    let new = entry_at(kin.new_dwarf, kin.new, new_place);
    match (old, new) {
        (Some(old), Some(new)) => {
            let pair = EntryPair {
                old_dwarf: kin.old_dwarf,
                new_dwarf: kin.new_dwarf,
                old,
                new,
            };
            definition_change(alloc, &pair)
        }
        _ => Ok(None),
    }
}

// The difference between all old definitions of a tag and a name and all new ones, by their texts.
fn change_by(
    alloc: Global,
    kin: &Kin,
    old: &[List<u8>],
    new: &[List<u8>],
) -> Result<Option<Difference>, NoMemory>
    requires { AreKin kin.now }
    ensures { IfOk result (λ found. found
        ≡ spec.change_from kin.now.old_dwarf.now kin.now.new_dwarf.now kin.now.old.now kin.now.new.now (spec.first_lacking old.now new.now) (spec.first_lacking new.now old.now)) }
{
    let Some(place) = first_lacking(alloc, old, new)? else {
        return Ok(None);
    };
    let other = first_lacking(alloc, new, old)?;
    change_at(alloc, kin, place, other.unwrap_or(0))
}

/// The difference between all old definitions of a tag and a name and all new ones: the first old one whose text no new one has,
/// beside the first new one whose text no old one has, or beside the first new one.
#[tactic(auto, unfolding(crate::specs::DefinedElsewhere::kin_change))]
pub(crate) fn kin_change(alloc: Global, kin: &Kin) -> Result<Option<Difference>, NoMemory>
    requires { AreKin kin.now }
    ensures { IfOk result (λ found. found
        ≡ spec.kin_change kin.now.old_dwarf.now kin.now.new_dwarf.now kin.now.old.now kin.now.new.now) }
{
    let old = texts_of(alloc, kin.old_dwarf, kin.old)?;
    let new = texts_of(alloc, kin.new_dwarf, kin.new)?;
    change_by(alloc, kin, old.as_slice(), new.as_slice())
}

/// The definitions of the types of two entries, if at least one of the entries is a declaration.
#[tactic(auto, unfolding(crate::specs::DefinedElsewhere::definitions_by))]
pub(crate) fn definitions_by(
    pair: &EntryPair,
    definitions: &DefinitionPair,
) -> Option<(EntryNumber, EntryNumber)>
    requires there { AreThere (plain pair.now) }
    requires definitions { AreOfBoth pair.now.old_dwarf.now pair.now.new_dwarf.now definitions.now }
    ensures found { result ≡ spec.definitions_by pair.now.old_dwarf.now pair.now.new_dwarf.now pair.now.old
        pair.now.new }
    ensures old { IfSome result (λ found. found.0 < length pair.now.old_dwarf.now.tree.entries) }
    ensures new { IfSome result (λ found. found.1 < length pair.now.new_dwarf.now.tree.entries) }
{
    let is_declared = pair.old_dwarf.is_declaration(pair.old)
        || pair.new_dwarf.is_declaration(pair.new);
    if !is_declared {
        return None;
    }
    let old = defined_by(pair.old_dwarf, definitions.old, pair.old);
    let new = defined_by(pair.new_dwarf, definitions.new, pair.new);
    match (old, new) {
        (Some(old), Some(new)) => Some((old, new)),
        _ => None,
    }
}
