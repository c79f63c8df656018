// The notes beside an answer.
ghost use Rattle.std.specs.Prelude.{◌≡◌, [], ◌∷◌, ◌++◌, All, IfNone, IfOk, IfSome, IsTrue, codes, map, string_bytes};
ghost use Rattle.abi_base.specs.declared.fault.Fault.{Fault as AnyFault};
ghost use Rattle.commands.specs.Commands.{plain_file};
ghost use Rattle.commands.specs.declared.outcome.Outcome.TheVariants as outcomes;
ghost use Rattle.explain.specs.Lines.{is_one_line};
ghost use Rattle.explain.specs.Notes.{IsReadUnder, IsUnnamed, Tells, TellsCompared, TellsJudged, TellsRefused, TellsUncomposed, both_untyped, compared_notes, lost_notes, sizeless_notes, untyped_notes};

use crate::{
    failure_sentence, fault_sentence, lost_sentence, memory_sentence, refused_sentence,
    sizeless_sentence, uncomposed_sentence, untyped_sentence,
};
use abi_base::{Fault, NoMemory, Remark, SizedExports};
use commands::{File, Input, Outcome, Verdict};
use std::alloc::Global;

/// The name under which an input was read, or `None` if it was not read under a name.
pub fn name_of<'a>(files: &[File<'a>], which: Input) -> Option<&'a str>
    ensures some { IfSome result (λ name. IsReadUnder (map plain_file files.now) which name.now) }
    ensures none { IfNone result (IsUnnamed (map plain_file files.now) which) }
{
    for file in files {
        if file.which == which {
            return Some(file.name);
        }
    }
    None
}

// A list of one note.
fn one(alloc: Global, note: String) -> Result<Vec<String>, NoMemory>
    ensures { IfOk result (λ notes. map string_bytes notes.items ≡ string_bytes note ∷ []) }
{
    let mut notes = Vec::new(alloc);
    notes.push(note)?;
    Ok(notes)
}

// The note on an input with these bytes that has this fault.
fn on_fault(
    alloc: Global,
    files: &[File<'_>],
    which: Input,
    fault: Fault,
    bytes: &[u8],
) -> Result<Vec<String>, NoMemory>
    ensures tells { IfOk result (λ notes. Tells (outcomes.Unreadable which fault) bytes.now []
        (map plain_file files.now) (map string_bytes notes.items)) }
    ensures lines { IfOk result (λ notes. All (λ note. IsTrue (is_one_line note)) (map string_bytes notes.items)) }
{
    match name_of(files, which) {
        Some(path) => one(alloc, fault_sentence(alloc, path, fault, bytes)?),
        None => Ok(Vec::new(alloc)),
    }
}

// The note on an input whose reading failed for this reason.
fn on_failure(
    alloc: Global,
    files: &[File<'_>],
    which: Input,
    reason: &str,
) -> Result<Vec<String>, NoMemory>
    ensures tells { IfOk result (λ notes. Tells (outcomes.ReadFault which) [] reason.now (map plain_file files.now)
        (map string_bytes notes.items)) }
    ensures lines { IfOk result (λ notes. All (λ note. IsTrue (is_one_line note)) (map string_bytes notes.items)) }
{
    match name_of(files, which) {
        Some(path) => one(alloc, failure_sentence(alloc, path, reason)?),
        None => Ok(Vec::new(alloc)),
    }
}

// Appends the note on a library, if some of its exports have no type.
fn push_untyped(
    alloc: Global,
    notes: &mut Vec<String>,
    path: &str,
    exports: SizedExports,
) -> Result<(), NoMemory>
    requires { All (λ note. IsTrue (is_one_line note)) (map string_bytes notes.old.items) }
    ensures notes { IfOk result (λ _. map string_bytes notes.new.items
        ≡ map string_bytes notes.old.items ++ untyped_notes path.now exports) }
    ensures lines { IfOk result (λ _. All (λ note. IsTrue (is_one_line note)) (map string_bytes notes.new.items)) }
{
    match untyped_sentence(alloc, path, exports)? {
        Some(note) => Ok(notes.push(note)?),
        None => Ok(()),
    }
}

// Appends the note on a new library, if it lost all types.
fn push_lost(
    alloc: Global,
    notes: &mut Vec<String>,
    old: &str,
    new: &str,
    remark: Remark,
) -> Result<(), NoMemory>
    requires { All (λ note. IsTrue (is_one_line note)) (map string_bytes notes.old.items) }
    ensures notes { IfOk result (λ _. map string_bytes notes.new.items
        ≡ map string_bytes notes.old.items ++ lost_notes remark old.now new.now) }
    ensures lines { IfOk result (λ _. All (λ note. IsTrue (is_one_line note)) (map string_bytes notes.new.items)) }
{
    match lost_sentence(alloc, new, old, remark)? {
        Some(note) => Ok(notes.push(note)?),
        None => Ok(()),
    }
}

// Appends the note on a library, if none of its exports has a size.
fn push_sizeless(
    alloc: Global,
    notes: &mut Vec<String>,
    path: &str,
    exports: SizedExports,
) -> Result<(), NoMemory>
    requires { All (λ note. IsTrue (is_one_line note)) (map string_bytes notes.old.items) }
    ensures notes { IfOk result (λ _. map string_bytes notes.new.items
        ≡ map string_bytes notes.old.items ++ sizeless_notes path.now exports) }
    ensures lines { IfOk result (λ _. All (λ note. IsTrue (is_one_line note)) (map string_bytes notes.new.items)) }
{
    match sizeless_sentence(alloc, path, exports)? {
        Some(note) => Ok(notes.push(note)?),
        None => Ok(()),
    }
}

// The notes on the exports of two libraries, if two were compared.
fn on_remark(
    alloc: Global,
    files: &[File<'_>],
    remark: Option<Remark>,
) -> Result<Vec<String>, NoMemory>
    ensures tells { IfOk result (λ notes. TellsCompared remark (map plain_file files.now)
        (map string_bytes notes.items)) }
    ensures lines { IfOk result (λ notes. All (λ note. IsTrue (is_one_line note)) (map string_bytes notes.items)) }
{
    match remark {
        Some(remark) => on_both(alloc, files, remark),
        None => Ok(Vec::new(alloc)),
    }
}

// The notes on two compared libraries.
fn on_both(alloc: Global, files: &[File<'_>], remark: Remark) -> Result<Vec<String>, NoMemory>
    ensures tells { IfOk result (λ notes. TellsCompared (Some remark) (map plain_file files.now)
        (map string_bytes notes.items)) }
    ensures lines { IfOk result (λ notes. All (λ note. IsTrue (is_one_line note)) (map string_bytes notes.items)) }
{
    let Some(old) = name_of(files, Input::Old) else {
        return Ok(Vec::new(alloc));
    };
    let Some(new) = name_of(files, Input::New) else {
        return Ok(Vec::new(alloc));
    };
    compared(alloc, old, new, remark)
}

// The notes on two libraries with these names.
fn compared(alloc: Global, old: &str, new: &str, remark: Remark) -> Result<Vec<String>, NoMemory>
    ensures notes { IfOk result (λ notes. map string_bytes notes.items ≡ compared_notes remark old.now new.now) }
    ensures lines { IfOk result (λ notes. All (λ note. IsTrue (is_one_line note)) (map string_bytes notes.items)) }
{
    let mut notes = untyped(alloc, old, new, remark)?;
    push_lost(alloc, &mut notes, old, new, remark)?;
    push_sizeless(alloc, &mut notes, old, remark.old)?;
    Ok(notes)
}

// The notes on exports without a type, for two libraries with these names.
fn untyped(alloc: Global, old: &str, new: &str, remark: Remark) -> Result<Vec<String>, NoMemory>
    ensures notes { IfOk result (λ notes. map string_bytes notes.items ≡ both_untyped remark old.now new.now) }
    ensures lines { IfOk result (λ notes. All (λ note. IsTrue (is_one_line note)) (map string_bytes notes.items)) }
{
    let mut notes = Vec::new(alloc);
    push_untyped(alloc, &mut notes, old, remark.old)?;
    if old != new {
        push_untyped(alloc, &mut notes, new, remark.new)?;
    }
    Ok(notes)
}

// The note on a refused certificate, or on two.
fn on_refusal(alloc: Global, files: &[File<'_>]) -> Result<Vec<String>, NoMemory>
    ensures tells { IfOk result (λ notes. TellsRefused (map plain_file files.now) (map string_bytes notes.items)) }
    ensures lines { IfOk result (λ notes. All (λ note. IsTrue (is_one_line note)) (map string_bytes notes.items)) }
{
    let Some(certificate) = name_of(files, Input::Certificate) else {
        return on_uncomposed(alloc, files);
    };
    let Some(old) = name_of(files, Input::Old) else {
        return Ok(Vec::new(alloc));
    };
    let Some(new) = name_of(files, Input::New) else {
        return Ok(Vec::new(alloc));
    };
    let note = refused_sentence(alloc, certificate, old, new)?;
    let notes = one(alloc, note)?;
    Ok(notes)
}

// The note on two certificates that do not compose.
fn on_uncomposed(alloc: Global, files: &[File<'_>]) -> Result<Vec<String>, NoMemory>
    ensures tells { IfOk result (λ notes. TellsUncomposed (map plain_file files.now) (map string_bytes notes.items)) }
    ensures lines { IfOk result (λ notes. All (λ note. IsTrue (is_one_line note)) (map string_bytes notes.items)) }
{
    let Some(path) = name_of(files, Input::Certificate1) else {
        return Ok(Vec::new(alloc));
    };
    let Some(second) = name_of(files, Input::Certificate2) else {
        return Ok(Vec::new(alloc));
    };
    let Some(first) = name_of(files, Input::First) else {
        return Ok(Vec::new(alloc));
    };
    let Some(last) = name_of(files, Input::Last) else {
        return Ok(Vec::new(alloc));
    };
    let note = uncomposed_sentence(alloc, path, second, first, last)?;
    let notes = one(alloc, note)?;
    Ok(notes)
}

// The notes on a verdict.
fn on_verdict(
    alloc: Global,
    verdict: Verdict,
    remark: Option<Remark>,
    files: &[File<'_>],
) -> Result<Vec<String>, NoMemory>
    ensures tells { IfOk result (λ notes. TellsJudged verdict remark (map plain_file files.now)
        (map string_bytes notes.items)) }
    ensures lines { IfOk result (λ notes. All (λ note. IsTrue (is_one_line note)) (map string_bytes notes.items)) }
{
    match verdict {
        Verdict::Refused => on_refusal(alloc, files),
        Verdict::Yes | Verdict::No | Verdict::Done => on_remark(alloc, files, remark),
    }
}

/// The notes on how a run ended, beside its text, one line each. `bytes` are those of the input that has a fault, or empty if they
/// cannot be read a second time, and `reason` is why reading an input failed.
pub fn notes_on(
    alloc: Global,
    outcome: Outcome,
    files: &[File<'_>],
    bytes: &[u8],
    reason: &str,
) -> Result<Vec<String>, NoMemory>
    ensures tells { IfOk result (λ notes. Tells outcome bytes.now reason.now (map plain_file files.now)
        (map string_bytes notes.items)) }
    ensures lines { IfOk result (λ notes. All (λ note. IsTrue (is_one_line note)) (map string_bytes notes.items)) }
{
    match outcome {
        Outcome::Judged(verdict, remark) => on_verdict(alloc, verdict, remark, files),
        Outcome::Unreadable(which, fault) => on_fault(alloc, files, which, fault, bytes),
        Outcome::ReadFault(which) => on_failure(alloc, files, which, reason),
        Outcome::NoMemory(cause) => one(alloc, memory_sentence(alloc, cause)?),
        Outcome::WriteFault => one(alloc, String::from_str(alloc, "writing failed")?),
        Outcome::Help | Outcome::Usage => Ok(Vec::new(alloc)),
    }
}
