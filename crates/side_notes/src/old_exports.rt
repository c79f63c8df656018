// The notes on the exports of an old library, by what they bind to.
ghost use Rattle.std.specs.Prelude.{◌≡◌, ◌++◌, not, false, slice_index_or, OnOk};
ghost use Rattle.abi_types.specs.Plain.{plain_export};
ghost use Rattle.side_notes.specs.Bound.{bound_in};
ghost use Rattle.side_notes.specs.OldExports.{notes_at, notes_to, old_export_notes};
ghost use Rattle.side_notes.specs.Successors.{AreKin};

use crate::successors::{Related, kin_of, push_successor};
use crate::threads::push_resized;
use abi_base::{List, NoMemory};
use abi_types::{Export, Library, Marks, NewIx, OldIx};
use cert_check::library_exports::{bound_to, find_at};
use std::alloc::Global;
use type_notes::Note;

/// Whether the old export at a position is compared: no rule drops it.
pub fn is_compared(marks: &Marks, k: usize) -> bool
    ensures { result ≡ not (slice_index_or marks.now.exports k false) }
{
    match marks.exports.as_slice().get(k) {
        Some(dropped) => !*dropped,
        None => true,
    }
}

// Appends the notes on an old export.
fn push_on(
    alloc: Global,
    notes: &mut List<Note>,
    related: &Related,
    export: &Export,
) -> Result<(), NoMemory>
    requires { AreKin related.now.old.now.exports related.now.new.now.exports related.now.kin.now }
    ensures { OnOk result (notes.new
        ≡ notes.old ++ notes_to related.now.old.now.exports related.now.new.now.exports (plain_export export.now) (bound_in related.now.new.now.exports (plain_export export.now))) }
{
    match bound_to(export, related.new) {
        None => push_successor(alloc, notes, related, export),
        Some(found) => push_resized(alloc, notes, export, found),
    }
}

// Appends the notes on the old export at a position, where it is compared.
fn push_at(
    alloc: Global,
    notes: &mut List<Note>,
    related: &Related,
    marks: &Marks,
    k: usize,
) -> Result<(), NoMemory>
    requires { AreKin related.now.old.now.exports related.now.new.now.exports related.now.kin.now }
    ensures { OnOk result (notes.new
        ≡ notes.old ++ notes_at marks.now.exports related.now.old.now.exports related.now.new.now.exports k) }
{
    if !is_compared(marks, k) {
        return Ok(());
    }
    match find_at(related.old, k) {
        None => Ok(()),
        Some(export) => push_on(alloc, notes, related, export),
    }
}

/// Appends the notes on each old export that is compared: on an object of threads that binds to one of another size, and on an
/// export that binds to none and has a likely successor.
pub fn push_old_exports(
    alloc: Global,
    notes: &mut List<Note>,
    old: &Library<OldIx>,
    new: &Library<NewIx>,
    marks: &Marks,
) -> Result<(), NoMemory>
    ensures { OnOk result (notes.new
        ≡ notes.old ++ old_export_notes marks.now.exports old.now.exports new.now.exports) }
{
    let kin = kin_of(alloc, old, new)?;
    let related = Related {
        old,
        new,
        kin: &kin,
    };
    let count = old.exports().len();
    'exports: for k in 0..count {
        push_at(alloc, notes, &related, marks, k)?;
    }
    Ok(())
}
