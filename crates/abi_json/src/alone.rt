// The notes on differences that no rule judges, as a document of their own: `abi-json notes`. A program that wants them beside an
// answer can make both documents at the same time.
ghost use Rattle.std.specs.Prelude.{◌≤◌, length, IfOk};
ghost use Rattle.abi_base.specs.Limits.{input_limit};

use crate::beside::{SideNotes, notes_value};
use crate::document::document_of;
use crate::told::Told;
use abi_base::NoMemory;
use cli_args::{GivenLine, ParsedArguments, line_given, parse_arguments};
use commands::{File, Input, Outcome, ReadInputs, Stop, Verdict, stop_at};
use document_head::{Ending, Wanted, bytes_of};
use library_check::read_pair;
use std::alloc::Global;
use std::rt::Files;
use suppression_text::read_rules;

// The command for notes only.
const NOTES: &str = "notes";

const USAGE: &str = "usage: abi-json notes [--rules FILE] OLD NEW\n";

/// Whether the arguments request notes only: the word `notes` stands where a command does, or first.
pub(crate) fn are_for_notes(alloc: Global, words: &[&str]) -> Result<bool, NoMemory> {
    if words.first().is_some_and(|word| *word == NOTES) {
        return Ok(true);
    }
    match line_given(alloc, words)? {
        Some(line) => Ok(line.command == Some(NOTES)),
        None => Ok(false),
    }
}

// Two libraries and a rule file, if one is given.
fn files_of<'a>(
    alloc: Global,
    old: &'a str,
    new: &'a str,
    rules: Option<&'a str>,
) -> Result<Vec<File<'a>>, NoMemory> {
    let mut files = Vec::new(alloc);
    files.push(File {
        which: Input::Old,
        name: old,
    })?;
    files.push(File {
        which: Input::New,
        name: new,
    })?;
    if let Some(name) = rules {
        files.push(File {
            which: Input::Rules,
            name,
        })?;
    }
    Ok(files)
}

// The files that a line for notes names, or none if it has another form.
fn files_in<'a>(alloc: Global, line: &GivenLine<'a>) -> Result<Option<Vec<File<'a>>>, NoMemory> {
    if line.command != Some(NOTES) || line.report.is_some() {
        return Ok(None);
    }
    match line.files.as_slice() {
        [old, new] => Ok(Some(files_of(alloc, *old, *new, line.rules)?)),
        _ => Ok(None),
    }
}

// The outcome of arguments that name no files.
fn outcome_without_files(alloc: Global, words: &[&str]) -> Result<Outcome, NoMemory> {
    match parse_arguments(alloc, words)? {
        ParsedArguments::Help => Ok(Outcome::Help),
        _ => Ok(Outcome::Usage),
    }
}

// The bytes of an input; for a rule file that is not named, no bytes.
fn bytes_in<R: Files + AllocGlobal>(
    rt: &R,
    files: &[File<'_>],
    which: Input,
) -> Result<Vec<u8>, Stop>
    ensures { IfOk result (λ bytes. length bytes.items ≤ input_limit) }
{
    for file in files {
        if file.which == which {
            return match bytes_of(rt, file.name)? {
                Some(bytes) => Ok(bytes),
                None => Err(Stop::ReadFault(which)),
            };
        }
    }
    Ok(Vec::new(rt.alloc()))
}

// Reads the inputs of a `check`, or returns why one cannot be read.
fn inputs_in<R: Files + AllocGlobal>(rt: &R, files: &[File<'_>]) -> Result<ReadInputs, Stop> {
    let old = bytes_in(rt, files, Input::Old)?;
    let new = bytes_in(rt, files, Input::New)?;
    let rules = bytes_in(rt, files, Input::Rules)?;
    Ok(ReadInputs {
        roles: vec![in rt.alloc(); Input::Old, Input::New, Input::Rules]?,
        all: vec![in rt.alloc(); old, new, rules]?,
    })
}

// The bytes that were read of an input, or none.
fn bytes_read(read: &ReadInputs, which: Input) -> &[u8]
    ensures { length result.now ≤ input_limit }
{
    match read.bytes_of(which) {
        Some(bytes) => bytes,
        None => &[],
    }
}

// Whether there are no notes. Files with a fault have none, and neither have many good ones.
fn are_none(notes: &SideNotes) -> bool {
    match notes.notes.as_array() {
        Some(list) => list.is_empty(),
        None => false,
    }
}

// Reads two libraries and a rule file, or returns why one cannot be read.
fn read_all(alloc: Global, old: &[u8], new: &[u8], rules: &[u8]) -> Result<(), Stop>
    requires old_short { length old.now ≤ input_limit }
    requires new_short { length new.now ≤ input_limit }
{
    read_pair(alloc, old, new)?;
    match read_rules(alloc, rules) {
        Ok(_) => Ok(()),
        Err(refusal) => Err(stop_at(Input::Rules, refusal)),
    }
}

// The notes on files. Only if there are none, it reads the libraries for the fault that may be the cause.
fn notes_on_files(alloc: Global, read: &ReadInputs) -> Result<SideNotes, Stop> {
    let old = bytes_read(read, Input::Old);
    let new = bytes_read(read, Input::New);
    let rules = bytes_read(read, Input::Rules);
    let notes = notes_value(alloc, old, new, rules)?;
    if are_none(&notes) {
        read_all(alloc, old, new, rules)?;
    }
    Ok(notes)
}

// The text of a document: the usage, where the arguments are wrong or request the help.
fn text_of(outcome: Outcome) -> &'static [u8] {
    match outcome {
        Outcome::Help | Outcome::Usage => USAGE.as_bytes(),
        _ => b"",
    }
}

// How the making of notes ended, with these files.
fn ending_of<'e>(
    words: &'e [&'e str],
    outcome: Outcome,
    files: &'e [File<'e>],
    read: &'e ReadInputs,
) -> Ending<'e> {
    Ending {
        words,
        outcome,
        files,
        text: text_of(outcome),
        read,
        wanted: Wanted {
            notes: true,
            digests: false,
        },
    }
}

// The document of notes, or of the reason why there are none.
fn told_with(alloc: Global, ending: &Ending<'_>, notes: SideNotes) -> Result<Told, NoMemory> {
    let outcome = ending.outcome;
    let document = document_of(alloc, ending, notes)?;
    Ok(Told { outcome, document })
}

// The document of the notes on files that were read. It leaves out the files, which are in the document of the answer.
fn told_of_notes(alloc: Global, words: &[&str], notes: SideNotes) -> Result<Told, NoMemory> {
    let read = ReadInputs::none(alloc);
    let ending = ending_of(words, Outcome::Judged(Verdict::Done, None), &[], &read);
    told_with(alloc, &ending, notes)
}

// The document of the reason why there are no notes on files.
fn told_stopped(
    alloc: Global,
    words: &[&str],
    files: &[File<'_>],
    read: &ReadInputs,
    stop: Stop,
) -> Result<Told, NoMemory> {
    let outcome = match stop {
        Stop::NoMemory(cause) => return Err(cause),
        Stop::ReadFault(which) => Outcome::ReadFault(which),
        Stop::Unreadable(which, fault) => Outcome::Unreadable(which, fault),
    };
    let ending = ending_of(words, outcome, files, read);
    told_with(alloc, &ending, SideNotes::none())
}

// The document of the notes on files, or of the reason why they cannot be read.
fn told_on<R: Files + AllocGlobal>(
    rt: &R,
    words: &[&str],
    files: &[File<'_>],
) -> Result<Told, NoMemory> {
    let alloc = rt.alloc();
    let read = match inputs_in(rt, files) {
        Ok(read) => read,
        Err(stop) => return told_stopped(alloc, words, files, &ReadInputs::none(alloc), stop),
    };
    match notes_on_files(alloc, &read) {
        Ok(notes) => told_of_notes(alloc, words, notes),
        Err(stop) => told_stopped(alloc, words, files, &read, stop),
    }
}

// The document of arguments that name no files.
fn told_without_files(alloc: Global, words: &[&str]) -> Result<Told, NoMemory> {
    let read = ReadInputs::none(alloc);
    let outcome = outcome_without_files(alloc, words)?;
    let ending = ending_of(words, outcome, &[], &read);
    told_with(alloc, &ending, SideNotes::none())
}

/// The document of the notes on the libraries that the arguments name.
pub(crate) fn notes_told<R: Files + AllocGlobal>(rt: &R, words: &[&str]) -> Result<Told, NoMemory> {
    let files = match line_given(rt.alloc(), words)? {
        Some(line) => files_in(rt.alloc(), &line)?,
        None => None,
    };
    match files {
        Some(files) => told_on(rt, words, &files),
        None => told_without_files(rt.alloc(), words),
    }
}
