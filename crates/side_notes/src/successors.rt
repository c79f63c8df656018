// Likely successors of exports that are gone.
ghost use Rattle.std.specs.Prelude.{◌≡◌, ◌++◌, position, slice_get, IfErr, IfOk, OnOk, MatchOption, None, Some, ℕ, List};
ghost use Rattle.std.specs.Str.{bytes_eq};
ghost use Rattle.abi_base.specs.declared.fault.NoMemory.TheVariants.{Allocation};
ghost use Rattle.abi_types.specs.Plain.{plain_export};
ghost use Rattle.elf_bind.specs.Binding.{is_named};
ghost use Rattle.side_notes.specs.Successors.{AreKin, KeepsFirst, is_kin, notes_with, successor_in, successor_notes, successor_place};

use crate::added::has_export;
use crate::making::{label_of, note_on};
use crate::stems::stem;
use abi_base::{List, NoMemory};
use abi_types::{Export, Library, NewIx, OldIx};
use cert_check::library_exports::find_at;
use std::alloc::Global;
use std::collections::BTreeMap;
use type_notes::{Note, NoteKind};

/// For each stem of the exports that only the new library has, the place of the first of them.
pub type Kin<'n> = BTreeMap<&'n [u8], usize>;

/// Two libraries, and the result of `kin_of` for them.
#[derive(Drop)]
pub struct Related<'x, 'o, 'n> {
    pub old: &'x Library<'o, OldIx>,
    pub new: &'x Library<'n, NewIx>,
    pub kin: &'x Kin<'n>,
}

// Keeps a place for a stem, where it has none.
fn put<'n>(kin: &mut Kin<'n>, stem: &'n [u8], place: usize) -> Result<(), NoMemory>
    ensures ok { OnOk result (KeepsFirst kin.old (bytes_eq stem.now) place kin.new) }
    ensures named { IfErr result (λ e. e ≡ Allocation) }
{
    if kin.contains_key(stem) {
        return Ok(());
    }
    kin.insert(stem, place)?;
    Ok(())
}

// Keeps the place of a new export for its stem, where the old library does not have the export and the stem has no place.
fn put_if_added<'n>(
    kin: &mut Kin<'n>,
    old: &Library<OldIx>,
    export: &Export<'n>,
    place: usize,
) -> Result<(), NoMemory>
    ensures ok { OnOk result (KeepsFirst kin.old
        (λ (s : List ℕ). is_kin old.now.exports s (plain_export export.now)) place kin.new) }
    ensures named { IfErr result (λ e. e ≡ Allocation) }
{
    if has_export(old, export) {
        return Ok(());
    }
    put(kin, stem(export.name), place)
}

/// For each stem of the exports that only the new library has, the place of the first of them.
pub fn kin_of<'n>(
    alloc: Global,
    old: &Library<OldIx>,
    new: &Library<'n, NewIx>,
) -> Result<Kin<'n>, NoMemory>
    ensures ok { IfOk result (λ kin. AreKin old.now.exports new.now.exports kin) }
    ensures named { IfErr result (λ e. e ≡ Allocation) }
{
    let mut kin = BTreeMap::new(alloc);
    let exports = new.exports();
    'list: for place in 0..exports.len() {
        put_if_added(&mut kin, old, &exports[place], place)?;
    }
    Ok(kin)
}

// The place of the first export of the new library that has a name. It takes the time of two binary searches.
fn first_named(new: &Library<NewIx>, name: &[u8]) -> Option<usize>
    ensures { result ≡ position (is_named name.now) new.now.exports }
{
    match new.exports_named(name).first() {
        None => None,
        Some(place) => Some(*place),
    }
}

// The place of the first export with a stem that only the new library has.
fn first_kin(related: &Related, name: &[u8]) -> Option<usize>
    requires { AreKin related.now.old.now.exports related.now.new.now.exports related.now.kin.now }
    ensures { result ≡ position (is_kin related.now.old.now.exports name.now) related.now.new.now.exports }
{
    match related.kin.get(name) {
        None => None,
        Some(place) => Some(*place),
    }
}

// The place of the likely successor of an old export that binds to none.
#[tactic(auto, unfolding(crate::specs::Successors::successor_place))]
fn place_of(related: &Related, export: &Export) -> Option<usize>
    requires { AreKin related.now.old.now.exports related.now.new.now.exports related.now.kin.now }
    ensures { result ≡ successor_place related.now.old.now.exports related.now.new.now.exports
        (plain_export export.now) }
{
    match first_named(related.new, export.name) {
        Some(place) => Some(place),
        None => first_kin(related, stem(export.name)),
    }
}

// The likely successor of an old export that binds to none.
fn successor_of<'x, 'n>(related: &Related<'x, '_, 'n>, export: &Export) -> Option<&'x Export<'n>>
    requires { AreKin related.now.old.now.exports related.now.new.now.exports related.now.kin.now }
    ensures { MatchOption result (successor_in related.now.old.now.exports related.now.new.now.exports
        (plain_export export.now) ≡ None) (λ found.
        successor_in related.now.old.now.exports related.now.new.now.exports (plain_export export.now)
        ≡ Some (plain_export found.now)) }
{
    match place_of(related, export) {
        None => None,
        Some(place) => find_at(related.new, place),
    }
}

/// Appends the note on an old export that binds to none and has a likely successor: the labels of both. The successor is the first
/// export of its name in the new library, with another version; or else, of the exports that only the new library has, the first
/// whose name differs only in digits and underscores at its end.
#[tactic(auto, unfolding(crate::specs::Successors::successor_notes))]
pub fn push_successor(
    alloc: Global,
    notes: &mut List<Note>,
    related: &Related,
    export: &Export,
) -> Result<(), NoMemory>
    requires { AreKin related.now.old.now.exports related.now.new.now.exports related.now.kin.now }
    ensures { OnOk result (notes.new
        ≡ notes.old ++ successor_notes related.now.old.now.exports related.now.new.now.exports (plain_export export.now)) }
{
    let Some(found) = successor_of(related, export) else {
        return Ok(());
    };
    let label = label_of(alloc, export)?;
    let was = label_of(alloc, export)?;
    let is = label_of(alloc, found)?;
    notes.push(note_on(alloc, NoteKind::Successor, label, was, is))
}
