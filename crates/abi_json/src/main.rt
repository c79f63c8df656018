//! The program `abi-json`: it does the same as `abi`, with a JSON document on standard output in place of the text, and with the
//! same exit numbers.
#![tactic(auto)]

mod alone;
mod beside;
mod document;
mod told;
mod wanted;
mod words;

ghost use Rattle.std.specs.Prelude.{◌≡◌, codes, IfOk};
ghost use Rattle.cli_args.specs.Release.{version_text};

use crate::alone::{are_for_notes, notes_told};
use crate::told::{Told, told_of};
use crate::wanted::wanted_by;
use crate::words::words_of;
use abi_base::{FileInputs, NoMemory, StdSink, write_all};
use cli_args::{asks_for_version, version};
use commands::Outcome;
use document_head::Wanted;
use explain::{encoding_sentence, memory_sentence};
use std::alloc::Global;
use std::io::ErrorKind;
use std::process::ExitCode;
use std::rt::{Env, Files};
use std::{env, io};

fn main(rt: HostRuntime) -> ExitCode {
    ExitCode::from(outcome_of_process(&rt).number())
}

fn outcome_of_process<R: Files + Print + Eprint + Env + AllocGlobal>(rt: &R) -> Outcome {
    let arguments = match arguments_of(rt) {
        Ok(arguments) => arguments,
        Err(error) => {
            if error.kind() == ErrorKind::OutOfMemory {
                return Outcome::NoMemory(NoMemory::Allocation);
            }
            say_encoding(rt);
            Vec::new(rt.alloc())
        }
    };
    match outcome_of(rt, &arguments) {
        Ok(outcome) => outcome,
        Err(cause) => {
            say_cause(rt, cause);
            Outcome::NoMemory(cause)
        }
    }
}

// Says on standard error that an argument is not UTF-8. Such arguments are answered as if there were none, which is wrong.
fn say_encoding<R: Eprint + AllocGlobal>(rt: &R) {
    if let Ok(sentence) = encoding_sentence(rt.alloc()) {
        let _ = eprintln!(rt; "abi-json: {sentence}");
    }
}

// Says on standard error why there is no document, if there is memory for the sentence.
fn say_cause<R: Eprint + AllocGlobal>(rt: &R, cause: NoMemory) {
    if let Ok(sentence) = memory_sentence(rt.alloc(), cause) {
        let _ = eprintln!(rt; "abi-json: {sentence}");
    }
}

// The arguments after the program's name.
fn arguments_of<R: Env + AllocGlobal>(rt: &R) -> io::Result<Vec<String>> {
    let mut arguments = Vec::new(rt.alloc());
    for argument in env::args(rt)?.skip(1) {
        arguments.push(argument)?;
    }
    Ok(arguments)
}

// The version of this program, which is printed as a text and not as a document.
fn version_told(alloc: Global) -> Result<Told, NoMemory>
    ensures { IfOk result (λ told. told.document.items ≡ version_text (codes "abi-json")) }
{
    Ok(Told {
        outcome: Outcome::Help,
        document: version(alloc, "abi-json")?,
    })
}

// The outcome and the document of a run with these arguments.
fn told_by_words<R: Files + AllocGlobal>(
    rt: &R,
    words: &[&str],
    wanted: Wanted,
) -> Result<Told, NoMemory> {
    if asks_for_version(words) {
        return version_told(rt.alloc());
    }
    if are_for_notes(rt.alloc(), words)? {
        return notes_told(rt, words);
    }
    let mut inputs = FileInputs::new(rt);
    told_of(rt.alloc(), words, &mut inputs, wanted)
}

// Prints the document of a run with these arguments. The outcome is that of the run, unless the document cannot be made or printed.
fn outcome_of<R: Files + Print + Env + AllocGlobal>(
    rt: &R,
    arguments: &[String],
) -> Result<Outcome, NoMemory> {
    let words = words_of(rt.alloc(), arguments)?;
    let told = told_by_words(rt, &words, wanted_by(rt)?)?;
    let mut sink = StdSink::new(rt);
    match write_all(&mut sink, &told.document) {
        Ok(()) => Ok(told.outcome),
        Err(_) => Ok(Outcome::WriteFault),
    }
}
