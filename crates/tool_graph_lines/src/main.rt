//! Prints the exports of a library and the graph of their types, so that `tests/typed_exports.sh` and `tests/typed_graphs.sh` can
//! compare them with the output of readelf and with what a compiler knows about the same types.
//!
//! The lines of an export and of a node are
//!
//!     export LABEL entry OFFSET named NAME
//!     node OFFSET KIND size BYTES align BYTES count N [group GROUP] [declared] [variadic] tag TAG labels [KIND:NAME ..]
//!
//! in order of symbols and of nodes. After the line of a node come those of its parts:
//!
//!     member NAME bit BIT width BITS to OFFSET
//!     enumerator NAME VALUE
//!     target OFFSET
//!     element OFFSET
//!     result OFFSET
//!     param OFFSET
//!
//! An offset is that of an entry, and 0 is void; for an export without an entry it is 0. The name of an export is that of its
//! entry, or of its symbol if it has none. A name is in its printed form, and `-` if it is empty.
//!
//! usage: graph_lines LIBRARY
#![tactic(auto)]

ghost use Rattle.std.specs.Prelude.{◌≤◌, length, IfOk};
ghost use Rattle.abi_base.specs.declared.TheConstants.{INPUT_LIMIT};

mod lines;
mod words;

use abi_base::{
    Fault, FileInputs, INPUT_LIMIT, Refusal, StdSink, Take, WriteFailed, read_whole, write_all,
};
use abi_types::{Library, OldIx};
use library_read::read_library;
use lines::{push_exports, push_graph};
use std::alloc::{AllocError, Global};
use std::process::ExitCode;
use std::rt::{Env, Files};
use std::{env, io};
use thiserror::Error;

// Why nothing is printed.
#[derive(Debug, Drop, Error)]
enum Stop {
    #[error("usage: graph_lines LIBRARY")]
    Words,
    #[error("the library could not be taken in")]
    Input,
    #[error("unreadable {} {}", .0.kind.number(), .0.at)]
    Fault(Fault),
    #[error("out of memory")]
    NoMemory,
    #[error("the output failed")]
    Output,
}

impl From<Refusal> for Stop {
    fn from(refusal: Refusal) -> Stop {
        match refusal {
            Refusal::Fault(fault) => Stop::Fault(fault),
            Refusal::NoMemory(_) => Stop::NoMemory,
        }
    }
}

impl From<AllocError> for Stop {
    fn from(_: AllocError) -> Stop {
        Stop::NoMemory
    }
}

// The lines of a library.
fn text_of(alloc: Global, library: &Library<'_, OldIx>) -> Result<String, AllocError> {
    let mut text = String::new(alloc);
    push_exports(alloc, &mut text, library.exports())?;
    push_graph(alloc, &mut text, library.graph())?;
    Ok(text)
}

// The lines of the library with these bytes.
fn library_text(alloc: Global, bytes: &[u8]) -> Result<String, Stop>
    requires { length bytes.now ≤ INPUT_LIMIT }
{
    match read_library(alloc, bytes) {
        Ok(library) => Ok(text_of(alloc, &library)?),
        Err(refusal) => Err(Stop::from(refusal)),
    }
}

// The bytes of a file.
fn bytes_of<R: Files + AllocGlobal>(rt: &R, path: &str) -> Result<Vec<u8>, Stop>
    ensures { IfOk result (λ bytes. length bytes.items ≤ INPUT_LIMIT) }
{
    let mut inputs = FileInputs::new(rt);
    match read_whole(rt.alloc(), &mut inputs, path, INPUT_LIMIT) {
        Ok(bytes) => Ok(bytes),
        Err(Take::NoMemory) => Err(Stop::NoMemory),
        Err(_) => Err(Stop::Input),
    }
}

// Prints a text.
fn print_text<R: Print>(rt: &R, text: &str) -> Result<(), Stop> {
    let mut sink = StdSink::new(rt);
    match write_all(&mut sink, text.as_bytes()) {
        Ok(()) => Ok(()),
        Err(WriteFailed) => Err(Stop::Output),
    }
}

// Prints the lines of the library at a path.
fn list_library<R: Files + Print + AllocGlobal>(rt: &R, path: &str) -> Result<(), Stop> {
    let bytes = bytes_of(rt, path)?;
    let text = library_text(rt.alloc(), &bytes)?;
    print_text(rt, text.as_str())
}

// Prints the lines of the library that the arguments name.
fn list<R: Files + Print + Env + AllocGlobal>(rt: &R) -> Result<(), Stop> {
    match library_word(rt) {
        Ok(Some(path)) => list_library(rt, path.as_str()),
        _ => Err(Stop::Words),
    }
}

// The single argument, if exactly one is given.
fn library_word<R: Env + AllocGlobal>(rt: &R) -> io::Result<Option<String>> {
    let mut words = env::args(rt)?.skip(1);
    let library = words.next();
    match words.next() {
        None => Ok(library),
        Some(_) => Ok(None),
    }
}

fn main(rt: HostRuntime) -> ExitCode {
    match list(&rt) {
        Ok(()) => ExitCode::SUCCESS,
        Err(stop) => {
            let _ = println!(rt; "{stop}");
            ExitCode::FAILURE
        }
    }
}
