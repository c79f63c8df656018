// The differences between two entries.
ghost use Rattle.std.specs.Prelude.{◌≡◌, ◌<◌, ◌++◌, IfOk, OnOk};
ghost use Rattle.type_notes.specs.Entries.{AreThere, changes, changes_in, object_changes, plain};
ghost use Rattle.type_notes.specs.Entries as spec;

use crate::aspect::{Aspect, aspects_between, kind_of, object_aspects};
use crate::difference::{Difference, differing, push_found};
use crate::said::said;
use abi_base::{List, NoMemory};
use dwarf_entries::Dwarf;
use dwarf_tree::EntryNumber;
use std::alloc::Global;
use type_reach::role_of;

/// An entry of an old library, and the entry of a new library that takes its place.
#[derive(Drop)]
pub struct EntryPair<'x, 'd> {
    /// The debug entries of the old library.
    pub old_dwarf: &'x Dwarf<'d>,
    /// The debug entries of the new library.
    pub new_dwarf: &'x Dwarf<'d>,
    /// The number of the old entry.
    pub old: EntryNumber,
    /// The number of the new entry.
    pub new: EntryNumber,
}

// The difference between two entries in an aspect.
#[tactic(auto, unfolding(crate::specs::Entries::change))]
fn change(alloc: Global, aspect: Aspect, pair: &EntryPair) -> Result<Option<Difference>, NoMemory>
    requires { AreThere (plain pair.now) }
    ensures { IfOk result (λ found. found ≡ spec.change (plain pair.now) aspect) }
{
    let was = said(alloc, aspect, pair.old_dwarf, pair.old)?;
    let is = said(alloc, aspect, pair.new_dwarf, pair.new)?;
    Ok(differing(kind_of(aspect), was, is))
}

// Adds the differences between two entries in these aspects, in order.
fn push_changes_in(
    alloc: Global,
    list: &mut List<Difference>,
    pair: &EntryPair,
    aspects: &[Aspect],
) -> Result<(), NoMemory>
    requires { AreThere (plain pair.now) }
    ensures { OnOk result (list.new ≡ list.old ++ changes_in (plain pair.now) aspects.now) }
{
    for aspect in aspects {
        push_found(list, change(alloc, *aspect, pair)?)?;
    }
    Ok(())
}

/// Adds the differences between two entries that stand for types, in order of aspects. Entries of different roles have none.
#[tactic(auto, unfolding(crate::specs::Entries::changes))]
pub fn push_changes(
    alloc: Global,
    list: &mut List<Difference>,
    pair: &EntryPair,
) -> Result<(), NoMemory>
    requires { AreThere (plain pair.now) }
    ensures { OnOk result (list.new ≡ list.old ++ changes (plain pair.now)) }
{
    let old = role_of(pair.old_dwarf, pair.old);
    let new = role_of(pair.new_dwarf, pair.new);
    push_changes_in(alloc, list, pair, aspects_between(old, new))
}

/// Adds the differences between two entries that stand for objects, in order of aspects: `const` or `volatile` on only one of them.
#[tactic(auto, unfolding(crate::specs::Entries::object_changes))]
pub(crate) fn push_object_changes(
    alloc: Global,
    list: &mut List<Difference>,
    pair: &EntryPair,
) -> Result<(), NoMemory>
    requires { AreThere (plain pair.now) }
    ensures { OnOk result (list.new ≡ list.old ++ object_changes (plain pair.now)) }
{
    let old = pair.old_dwarf.tag(pair.old);
    let new = pair.new_dwarf.tag(pair.new);
    push_changes_in(alloc, list, pair, object_aspects(old, new))
}
