// The texts of notes, and notes on one export.
ghost use Rattle.std.specs.Prelude.{◌≡◌, IfErr, IfOk, string_bytes};
ghost use Rattle.abi_base.specs.declared.fault.NoMemory.TheVariants.{Allocation};
ghost use Rattle.abi_types.specs.Plain.{plain_export};
ghost use Rattle.abi_types.specs.Shown.{label, shown};
ghost use Rattle.side_notes.specs.Made.{note_on_export};
ghost use Rattle.side_notes.specs.Made as spec;

use abi_base::{List, NoMemory};
use abi_types::{Export, push_label, push_shown};
use std::alloc::Global;
use type_notes::{Note, NoteKind};

/// The bytes of a text, in the same allocation.
pub fn bytes_of(text: String) -> List<u8>
    ensures { result ≡ string_bytes text }
{
    List::of(text.into_bytes())
}

/// The label of an export.
pub fn label_of(alloc: Global, export: &Export) -> Result<List<u8>, NoMemory>
    ensures ok { IfOk result (λ text. text ≡ label (plain_export export.now)) }
    ensures named { IfErr result (λ e. e ≡ Allocation) }
{
    let mut text = String::new(alloc);
    push_label(alloc, &mut text, export)?;
    Ok(bytes_of(text))
}

/// The printed form of a name.
pub fn shown_name(alloc: Global, name: &[u8]) -> Result<List<u8>, NoMemory>
    ensures ok { IfOk result (λ text. text ≡ shown name.now) }
    ensures named { IfErr result (λ e. e ≡ Allocation) }
{
    let mut text = String::new(alloc);
    push_shown(alloc, &mut text, name)?;
    Ok(bytes_of(text))
}

/// A note on an export itself, with what was there and what is there now.
pub fn note_on(alloc: Global, kind: NoteKind, export: List<u8>, was: List<u8>, is: List<u8>) -> Note
    ensures { result ≡ note_on_export kind export was is }
{
    Note {
        kind,
        export,
        path: List::new(alloc),
        was,
        is,
    }
}

/// A size in words.
pub fn sized(alloc: Global, size: u64) -> Result<List<u8>, NoMemory>
    ensures ok { IfOk result (λ text. text ≡ spec.sized size) }
    ensures named { IfErr result (λ e. e ≡ Allocation) }
{
    let text = format!(in alloc; "size {size}")?;
    Ok(bytes_of(text))
}
