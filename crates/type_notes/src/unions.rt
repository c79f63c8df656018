// Unions with a size and no members.
ghost use Rattle.std.specs.Prelude.{◌≡◌, IfOk, string_bytes};
ghost use Rattle.type_notes.specs.Unions as spec;

use crate::difference::{Difference, difference_of};
use crate::note::NoteKind;
use abi_base::NoMemory;
use abi_types::{Index, Kind, NewIx, OldIx, View};
use std::alloc::{AllocError, Global};

// Whether a type is a union with a size and no members.
fn is_hollow<Ix: Index>(view: &View<Ix>) -> bool
    ensures { result ≡ spec.is_hollow view.now }
{
    match view.kind {
        Kind::Union => view.size > 0 && view.parts.is_empty(),
        _ => false,
    }
}

// The text of a size and a number of members.
fn counted(alloc: Global, size: u64, members: usize) -> Result<String, AllocError>
    ensures { IfOk result (λ text. string_bytes text ≡ spec.counts_text size members) }
{
    format!(in alloc; "size {size}, members {members}")
}

// The text of a type's size and the number of its members.
fn union_text<Ix: Index>(alloc: Global, view: &View<Ix>) -> Result<String, AllocError>
    ensures { IfOk result (λ text. string_bytes text ≡ spec.union_text view.now) }
{
    counted(alloc, view.size, view.parts_len())
}

// The difference between two types, if at least one is such a union.
pub(crate) fn union_change(
    alloc: Global,
    old: &View<OldIx>,
    new: &View<NewIx>,
) -> Result<Option<Difference>, NoMemory>
    ensures { IfOk result (λ found. found ≡ spec.union_change old.now new.now) }
{
    if !is_hollow(old) && !is_hollow(new) {
        return Ok(None);
    }
    let was = union_text(alloc, old)?;
    let is = union_text(alloc, new)?;
    let was = was.into_bytes();
    let is = is.into_bytes();
    Ok(Some(difference_of(NoteKind::UnionWithoutMembers, was, is)))
}
