// A difference between two types.
ghost use Rattle.std.specs.Prelude.{◌≡◌, ◌++◌, option_to_list, OnOk};
ghost use Rattle.type_notes.specs.Differences as spec;

use crate::note::NoteKind;
use abi_base::{List, NoMemory};

/// One difference between two types: the old and the new state. The texts are in their printed form.
#[derive(Drop)]
pub struct Difference {
    /// The kind of note.
    pub kind: NoteKind,
    /// The old state.
    pub was: List<u8>,
    /// The new state.
    pub is: List<u8>,
}

// A difference with these two texts.
pub(crate) fn difference_of(kind: NoteKind, was: Vec<u8>, is: Vec<u8>) -> Difference
    ensures kind { result.kind ≡ kind }
    ensures was { result.was ≡ was.items }
    ensures is { result.is ≡ is.items }
{
    Difference {
        kind,
        was: List::of(was),
        is: List::of(is),
    }
}

// A difference with these two texts, if they differ.
pub(crate) fn differing(kind: NoteKind, was: Vec<u8>, is: Vec<u8>) -> Option<Difference>
    ensures { result ≡ spec.differing kind was.items is.items }
{
    if was.as_slice() == is.as_slice() {
        return None;
    }
    Some(difference_of(kind, was, is))
}

// Adds a difference, if there is one.
pub(crate) fn push_found(
    list: &mut List<Difference>,
    found: Option<Difference>,
) -> Result<(), NoMemory>
    ensures { OnOk result (list.new ≡ list.old ++ option_to_list found) }
{
    match found {
        Some(found) => list.push(found),
        None => Ok(()),
    }
}
