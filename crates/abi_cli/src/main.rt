//! The program `abi`: it takes the arguments of the command line, files and standard output, and returns the exit number of the
//! outcome. Beside the answer, it prints on standard error what is wrong with an input.
#![tactic(auto)]

mod beside;
mod notes;
mod output;
mod styles;

use crate::beside::{are_wanted, text_beside};
use crate::notes::notes_of;
use crate::output::Output;
use crate::styles::run_in_styles;
use abi_base::{FileInputs, NoMemory};
use abi_top::{Ended, Outcome, run};
use explain::{encoding_sentence, memory_sentence};
use std::io::{ErrorKind, IsTerminal};
use std::process::ExitCode;
use std::rt::{Env, Files};
use std::{env, io};

fn main(rt: HostRuntime) -> ExitCode {
    let is_terminal = rt.stderr().is_terminal();
    ExitCode::from(outcome_of_process(&rt, is_terminal).number())
}

fn outcome_of_process<R: Files + Print + Eprint + Env + AllocGlobal>(
    rt: &R,
    is_terminal: bool,
) -> Outcome {
    let arguments = match arguments_of(rt) {
        Ok(arguments) => arguments,
        Err(error) => return outcome_without_arguments(rt, &error),
    };
    match outcome_of(rt, &arguments, is_terminal) {
        Ok(outcome) => outcome,
        Err(cause) => Outcome::NoMemory(cause),
    }
}

// The outcome where the arguments cannot be read: memory ran out, or one is not UTF-8.
fn outcome_without_arguments<R: Files + Print + Eprint + AllocGlobal>(
    rt: &R,
    error: &io::Error,
) -> Outcome {
    if error.kind() == ErrorKind::OutOfMemory {
        Outcome::NoMemory(NoMemory::Allocation)
    } else {
        outcome_of_other_bytes(rt)
    }
}

// Answers arguments that are not all UTF-8 as if there were none, which prints the usage, and tells why.
fn outcome_of_other_bytes<R: Files + Print + Eprint + AllocGlobal>(rt: &R) -> Outcome {
    let alloc = rt.alloc();
    let mut inputs = FileInputs::new(rt);
    let mut sink = Output::new(rt);
    let ended = run(alloc, &[], &mut inputs, &mut sink, Vec::new(alloc));
    if !sink.is_closed()
        && let Ok(sentence) = encoding_sentence(alloc)
    {
        let _ = eprintln!(rt; "abi: {sentence}");
    }
    ended.outcome
}

// The arguments after the program's name.
fn arguments_of<R: Env + AllocGlobal>(rt: &R) -> io::Result<Vec<String>> {
    let mut arguments = Vec::new(rt.alloc());
    for argument in env::args(rt)?.skip(1) {
        arguments.push(argument)?;
    }
    Ok(arguments)
}

// Runs the arguments.
fn outcome_of<R: Files + Print + Eprint + Env + AllocGlobal>(
    rt: &R,
    arguments: &[String],
    is_terminal: bool,
) -> Result<Outcome, NoMemory> {
    let with_notes = are_wanted(rt, is_terminal)?;
    let mut words = Vec::new(rt.alloc());
    for argument in arguments {
        words.push(argument.as_str())?;
    }
    run_words(rt, &words, with_notes)
}

// Runs the arguments, and prints what there is to tell beside the answer.
fn run_words<R: Files + Print + Eprint + AllocGlobal>(
    rt: &R,
    words: &[&str],
    with_notes: bool,
) -> Result<Outcome, NoMemory> {
    let mut inputs = FileInputs::new(rt);
    let mut sink = Output::new(rt);
    let ended = run_in_styles(rt.alloc(), words, &mut inputs, &mut sink)?;
    // Nothing is told if the reader closed the pipe.
    if !sink.is_closed() {
        tell(rt, words, &ended, sink.first());
    }
    if with_notes {
        tell_notes(rt, words, &ended);
    }
    Ok(ended.outcome)
}

// Prints the notes on standard error, given the first bytes of the answer. If that fails, the answer does not change.
fn tell<R: Files + Eprint + AllocGlobal>(rt: &R, words: &[&str], ended: &Ended<'_>, answer: &[u8]) {
    let Ok(notes) = notes_of(rt, words, ended, answer) else {
        return;
    };
    for note in &notes {
        let _ = eprintln!(rt; "abi: {note}");
    }
}

// Prints on standard error the differences that no rule judges, or why they are not known. If that fails, the answer does not change.
fn tell_notes<R: Eprint + AllocGlobal>(rt: &R, words: &[&str], ended: &Ended<'_>) {
    match text_beside(rt.alloc(), words, ended) {
        Ok(bytes) => {
            if let Ok(text) = str::from_utf8(&bytes) {
                let _ = eprint!(rt; "{text}");
            }
        }
        Err(cause) => {
            if let Ok(sentence) = memory_sentence(rt.alloc(), cause) {
                let _ = eprintln!(rt; "abi: there are no notes: {sentence}");
            }
        }
    }
}
