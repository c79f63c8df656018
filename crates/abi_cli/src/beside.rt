// The notes on differences that no rule judges, printed on standard error beside the answer of `check`.
use crate::notes::bytes_of;
use abi_base::{NoMemory, Remark, SizedExports};
use abi_top::{Ended, Input, Outcome};
use cli_args::{ParsedArguments, Request, parse_arguments};
use side_notes::{Beside, Counts, all_beside, note_text};
use std::alloc::{AllocError, Global};
use std::env;
use std::env::VarError;
use std::rt::Env;

/// Whether such notes are wanted: standard error is a terminal, or the environment variable `ABI_NOTES` is 1. It fails only if
/// memory runs out.
pub(crate) fn are_wanted<R: Env + AllocGlobal>(
    rt: &R,
    is_terminal: bool,
) -> Result<bool, NoMemory> {
    if is_terminal {
        return Ok(true);
    }
    match env::var(rt, "ABI_NOTES") {
        Ok(value) => Ok(value.as_str() == "1"),
        Err(VarError::OutOfMemory) => Err(NoMemory::Allocation),
        Err(_) => Ok(false),
    }
}

// The notes beside a verdict, from the bytes that were judged.
fn beside_of_inputs(alloc: Global, ended: &Ended<'_>) -> Result<Beside, NoMemory> {
    let old = bytes_of(ended, Input::Old);
    let new = bytes_of(ended, Input::New);
    let rules = bytes_of(ended, Input::Rules);
    all_beside(alloc, old, new, rules)
}

// The number of exports with a nonzero size that have a type.
fn typed(exports: SizedExports) -> usize {
    exports.all.saturating_sub(exports.untyped)
}

// The line with the numbers of exports of the old library that are compared, that the rule file drops, and that are gone.
fn compared_line(alloc: Global, counts: &Counts) -> Result<String, AllocError> {
    let compared = counts.compared;
    let dropped = counts.dropped;
    let gone = counts.gone;
    format!(in alloc;
        "abi: note: exports of OLD: {compared} compared, {dropped} dropped by the rule file, {gone} gone\n"
    )
}

// The line about types: the number of exports with a nonzero size in each library, and the number of those with a type.
fn types_line(alloc: Global, remark: Remark) -> Result<String, AllocError> {
    let old_typed = typed(remark.old);
    let old_all = remark.old.all;
    let new_typed = typed(remark.new);
    let new_all = remark.new.all;
    format!(in alloc;
        "abi: note: exports with types: {old_typed} of {old_all} in OLD, {new_typed} of {new_all} in NEW\n"
    )
}

// Appends the line with the numbers of exports of the old library, if these were counted.
fn push_compared(
    alloc: Global,
    text: &mut Vec<u8>,
    counts: Option<&Counts>,
) -> Result<(), AllocError> {
    match counts {
        Some(counts) => text.extend_from_slice(compared_line(alloc, counts)?.as_bytes()),
        None => Ok(()),
    }
}

// Appends the line about types, if two libraries were compared.
fn push_types(alloc: Global, text: &mut Vec<u8>, remark: Option<Remark>) -> Result<(), AllocError> {
    match remark {
        Some(remark) => text.extend_from_slice(types_line(alloc, remark)?.as_bytes()),
        None => Ok(()),
    }
}

// The notes as lines, followed by two lines of counts.
fn lines_of(alloc: Global, beside: &Beside, remark: Option<Remark>) -> Result<Vec<u8>, NoMemory> {
    let mut text = note_text(alloc, beside.notes.as_slice())?;
    push_compared(alloc, &mut text, beside.counts.as_ref())?;
    push_types(alloc, &mut text, remark)?;
    Ok(text)
}

/// The notes as lines, followed by two lines of counts, if `check` judged two libraries; else nothing.
pub(crate) fn text_beside(
    alloc: Global,
    words: &[&str],
    ended: &Ended<'_>,
) -> Result<Vec<u8>, NoMemory> {
    let Outcome::Judged(_, remark) = ended.outcome else {
        return Ok(Vec::new(alloc));
    };
    match parse_arguments(alloc, words)? {
        ParsedArguments::Request(Request::Check(_)) => {
            let beside = beside_of_inputs(alloc, ended)?;
            lines_of(alloc, &beside, remark)
        }
        _ => Ok(Vec::new(alloc)),
    }
}
