// The document of a run.
ghost use Rattle.std.specs.Prelude.{◌≡◌, drop, IfOk};
ghost use Rattle.abi_json.specs.Documents.{IsDocument};
ghost use Rattle.abi_json.specs.Documents as spec;
ghost use Rattle.cli_args.specs.Words.{texts};

use crate::beside::SideNotes;
use abi_base::NoMemory;
use commands::{Outcome, Verdict};
use document_head::{Ending, head_of};
use json_report::with_member;
use std::alloc::Global;

// The line that begins a report.
const NO: &[u8] = b"no\n";

// The text after the line `no`.
fn behind_answer(text: &[u8]) -> &[u8]
    ensures { result.now ≡ drop 3 text.now }
{
    if text.len() < NO.len() {
        &[]
    } else {
        &text[NO.len()..]
    }
}

// The array of the breaks.
fn breaks_of<'t>(outcome: Outcome, text: &'t [u8]) -> &'t [u8]
    ensures { result.now ≡ spec.breaks_of outcome text.now }
{
    match outcome {
        Outcome::Judged(Verdict::No, _) => behind_answer(text),
        _ => b"[]",
    }
}

// The text of an object without its closing brace.
fn unclosed(object: &str) -> &[u8]
    ensures { result.now ≡ spec.unclosed object.now }
{
    let bytes = object.as_bytes();
    if bytes.is_empty() {
        bytes
    } else {
        &bytes[..bytes.len() - 1]
    }
}

/// The document of a run: its head, with the notes on differences that no rule judges, and the breaks at the end, as the listener
/// made them.
pub(crate) fn document_of(
    alloc: Global,
    ending: &Ending<'_>,
    side_notes: SideNotes,
) -> Result<Vec<u8>, NoMemory>
    ensures { IfOk result (λ document. IsDocument (texts ending.now.words.now)
        ending.now.outcome ending.now.text.now document.items) }
{
    let breaks = breaks_of(ending.outcome, ending.text);
    let SideNotes { notes, missing } = side_notes;
    let head = head_of(alloc, ending, breaks, notes, missing)?;
    let head_text = head.to_string(alloc)?;
    with_member(alloc, unclosed(head_text.as_str()), "breaks", breaks)
}
