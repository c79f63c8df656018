// Of notes that say the same, only the first.
ghost use Rattle.std.specs.Prelude.{◌≡◌, ◌++◌, ◌∷◌, [], List, IsTrue, not, IfOk, OnOk};
ghost use Rattle.type_notes.specs.declared.note.Note.{Note};
ghost use Rattle.side_notes.specs.SaidOnce.{AreSaid, is_said, names_types};
ghost use Rattle.side_notes.specs.SaidOnce as spec;

use abi_base::{List, NoMemory};
use std::alloc::Global;
use std::collections::BTreeSet;
use type_notes::{Note, NoteKind};

// The names in the notes so far: the old names and the new ones.
type Said = BTreeSet<(Vec<u8>, Vec<u8>)>;

// Adds the names of a note to those of the notes before it, and returns whether they are new.
fn put_names(alloc: Global, said: &mut Said, note: &Note) -> Result<bool, NoMemory>
    requires { IsTrue (names_types note.now) }
    ensures new { IfOk result (λ new. (notes : List Note) → AreSaid notes said.old
        → new ≡ not (is_said notes note.now)) }
    ensures said { OnOk result ((notes : List Note) → AreSaid notes said.old
        → AreSaid (notes ++ note.now ∷ []) said.new) }
{
    let was = Vec::from_slice(alloc, note.was.as_slice())?;
    let is = Vec::from_slice(alloc, note.is.as_slice())?;
    let new = said.insert((was, is))?;
    Ok(new)
}

// Whether no earlier note says the same as this one. It keeps the names of a note on names.
fn is_new(alloc: Global, said: &mut Said, note: &Note) -> Result<bool, NoMemory>
    ensures new { IfOk result (λ new. (notes : List Note) → AreSaid notes said.old
        → new ≡ not (is_said notes note.now)) }
    ensures said { OnOk result ((notes : List Note) → AreSaid notes said.old
        → AreSaid (notes ++ note.now ∷ []) said.new) }
{
    if note.kind == NoteKind::TagOrName {
        return put_names(alloc, said, note);
    }
    Ok(true)
}

/// The notes that say the same as no earlier one, in their order. A note on the names of types says the same as another one that has
/// the same names.
pub(crate) fn said_once(alloc: Global, notes: List<Note>) -> Result<List<Note>, NoMemory>
    ensures { IfOk result (λ kept. kept ≡ spec.said_once notes) }
{
    let mut said = BTreeSet::new(alloc);
    let mut kept = List::new(alloc);
    for note in notes.into_vec() {
        if is_new(alloc, &mut said, &note)? {
            kept.push(note)?;
        }
    }
    Ok(kept)
}
