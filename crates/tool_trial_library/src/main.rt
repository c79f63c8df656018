//! Writes one library of `abi trial` to standard output, so that `tests/trials.sh` can give it to `abi check` and to tools from
//! outside this repository.
//!
//! usage: trial_library FUNCTIONS old|new
#![tactic(auto)]

use abi_base::{StdSink, WriteFailed, write_all};
use std::process::ExitCode;
use std::rt::Env;
use std::{env, io};
use thiserror::Error;
use trial_libraries::{GenRefusal, Side, make};

// Why no library is written.
#[derive(Debug, Drop, Error)]
enum Stop {
    #[error("usage: trial_library FUNCTIONS old|new")]
    Words,
    #[error("out of memory")]
    NoMemory,
    #[error("the output failed")]
    Output,
}

// The number of functions and the side, if the arguments are those.
fn asked<R: Env + AllocGlobal>(rt: &R) -> io::Result<Option<(u32, Side)>> {
    let mut words = env::args(rt)?.skip(1);
    let count = words.next();
    let side = words.next();
    let (Some(count), Some(side), None) = (count, side, words.next()) else {
        return Ok(None);
    };
    let Ok(count) = count.parse() else {
        return Ok(None);
    };
    match side.as_str() {
        "old" => Ok(Some((count, Side::Old))),
        "new" => Ok(Some((count, Side::New))),
        _ => Ok(None),
    }
}

fn write_library<R: Print + Env + AllocGlobal>(rt: &R) -> Result<(), Stop> {
    let (count, side) = match asked(rt) {
        Ok(Some(asked)) => asked,
        Ok(None) => return Err(Stop::Words),
        Err(_) => return Err(Stop::Words),
    };
    let library = match make(rt.alloc(), count, side) {
        Ok(library) => library,
        Err(GenRefusal::Size) => return Err(Stop::Words),
        Err(GenRefusal::NoMemory) => return Err(Stop::NoMemory),
    };
    let mut sink = StdSink::new(rt);
    match write_all(&mut sink, &library) {
        Ok(()) => Ok(()),
        Err(WriteFailed) => Err(Stop::Output),
    }
}

fn main(rt: HostRuntime) -> ExitCode {
    match write_library(&rt) {
        Ok(()) => ExitCode::SUCCESS,
        Err(stop) => {
            let _ = println!(rt; "{stop}");
            ExitCode::FAILURE
        }
    }
}
