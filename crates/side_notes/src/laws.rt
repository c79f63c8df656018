//! What follows from the definition of all notes. Each law is the contract of a function that does nothing.
ghost use Rattle.std.specs.Prelude.{◌≡◌, ℕ, List, [], Some, false, filter, slice_get, take};
ghost use Rattle.type_notes.specs.declared.note.Note.{Note};
ghost use Rattle.side_notes.specs.AllNotes.{AreAllNotes};
ghost use Rattle.side_notes.specs.SaidOnce.{is_said, names_none, said_once};

/// A library against itself has no notes.
pub fn the_same_bytes_have_no_notes()
    ensures { (f rules : List ℕ) (notes : List Note) → AreAllNotes f f rules notes → notes ≡ [] }
{}

/// For each note of a list, some note that is kept says the same, and no note that is kept says the same as an earlier kept one.
/// Notes that do not name their types are all kept, in their order.
pub fn notes_are_said_once()
    ensures said { (notes : List Note) (note : Note) → is_said (said_once notes) note ≡ is_said notes note }
    ensures once { (notes : List Note) (n : ℕ) (note : Note) → slice_get (said_once notes) n ≡ Some note
        → is_said (take n (said_once notes)) note ≡ false }
    ensures others { (notes : List Note) → filter names_none (said_once notes) ≡ filter names_none notes }
{}
