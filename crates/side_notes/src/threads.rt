// Objects of threads, whose sizes and types no rule compares.
ghost use Rattle.std.specs.Prelude.{◌≡◌, ◌++◌, OnOk};
ghost use Rattle.abi_types.specs.Plain.{plain_export};
ghost use Rattle.side_notes.specs.Threads.{thread_notes};
ghost use Rattle.side_notes.specs.Threads as spec;

use crate::making::{label_of, note_on, sized};
use abi_base::{List, NoMemory};
use abi_types::{Export, SymbolKind};
use std::alloc::Global;
use type_notes::{Note, NoteKind};

// Whether a symbol is an object of threads.
fn is_thread_object(kind: SymbolKind) -> bool
    ensures { result ≡ spec.is_thread_object kind }
{
    matches!(kind, SymbolKind::Tls)
}

/// Appends the note on a thread-local object that binds to one of another size: both sizes. Objects of equal sizes have none,
/// whatever their types: debug information has no address for such an object, so its type is not known.
pub fn push_resized(
    alloc: Global,
    notes: &mut List<Note>,
    old: &Export,
    new: &Export,
) -> Result<(), NoMemory>
    ensures { OnOk result (notes.new ≡ notes.old ++ thread_notes (plain_export old.now) (plain_export new.now)) }
{
    if !is_thread_object(old.kind) {
        return Ok(());
    }
    if !is_thread_object(new.kind) {
        return Ok(());
    }
    if old.size == new.size {
        return Ok(());
    }
    let label = label_of(alloc, old)?;
    let was = sized(alloc, old.size)?;
    let is = sized(alloc, new.size)?;
    notes.push(note_on(alloc, NoteKind::ThreadObject, label, was, is))
}
