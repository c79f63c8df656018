// Real files and standard output. No contract of the runtime says which bytes a path has or what a terminal holds, so
// none here does. All that is known of the rest of a file is what its type says.
ghost use Rattle.std.specs.Prelude.{◌≡◌, ◌<◌, List, [], ℕ, length, Option, Some, None, OnErr, IfOk};
ghost use Rattle.std.specs.Option.{option_map_or};
ghost use Rattle.std.specs.Io.{ReadsAtMost, WritesAtMost};
ghost use Rattle.std.specs.Io.KnownBytes.{ReadConsumes};

use crate::inputs::given_after;
use crate::{Failed, Inputs, Sink};
use std::fs;
use std::io::{ErrorKind, Read};
use std::rt::Files;

// How often an interrupted call is made again.
const TRIES: u64 = u64::MAX;

// One read. A read that a signal interrupts gives nothing and is made again.
#[tactic(auto, using(crate::proofs::Loops::kept))]
fn read_some<F: Read>(file: &mut F, into: &mut [u8]) -> Result<usize, Failed>
    ensures bound { ReadsAtMost result into.new }
    ensures bytes { ReadConsumes (F.remaining file.old) (F.remaining file.new) result into.new }
{
    for _ in 0..TRIES {
        match file.read(into) {
            Ok(count) => return Ok(count),
            Err(e) if e.kind() == ErrorKind::Interrupted => {}
            Err(_) => return Err(Failed),
        }
    }
    Err(Failed)
}

// One write, which takes at least one byte where there are any. A write that a signal interrupts takes nothing and is made again.
fn write_some<P: Print>(rt: &P, bytes: &[u8]) -> Result<usize, Failed>
    ensures bound { WritesAtMost result bytes.now }
    ensures progress { IfOk result (λ count. 0 < length bytes.now → 0 < count) }
{
    for _ in 0..TRIES {
        match rt.write_some(bytes) {
            Ok(count) if count > 0 || bytes.is_empty() => return Ok(count),
            Err(e) if e.kind() == ErrorKind::Interrupted => {}
            _ => return Err(Failed),
        }
    }
    Err(Failed)
}

/// Files by path. All names share one fault count, which rises with each call that fails. The current input answers to
/// every name, since a file may have several. A read that a signal interrupts is made again.
#[derive(Drop)]
pub struct FileInputs<'a, R: Files> {
    rt: &'a R,
    current: Option<R::File>,
    given: u64,
    faults: u64,
    started: u64,
}

impl<'a, R: Files> FileInputs<'a, R> {
    /// Inputs over the runtime's files, none of them started. A name is a path.
    pub fn new(rt: &'a R) -> Self
        ensures faults { (name : List ℕ) → ⟦<FileInputs<'a, R> as Inputs>⟧.faults result name ≡ 0 }
        ensures given { ⟦<FileInputs<'a, R> as Inputs>⟧.given result ≡ 0 }
        ensures started { ⟦<FileInputs<'a, R> as Inputs>⟧.started result ≡ 0 }

        // Before the first start there is nothing to read.
        ensures left { ⟦<FileInputs<'a, R> as Inputs>⟧.left result ≡ Some [] }
    {
        FileInputs {
            rt,
            current: None,
            given: 0,
            faults: 0,
            started: 0,
        }
    }
}

impl<R: Files> Inputs for FileInputs<'_, R> {
    ghost faults = { λ s name. s.faults };

    ghost told = { λ s name. None };

    ghost answers_to = { λ s name. Unit {0} };

    ghost left = { λ s. option_map_or (λ file. R.File.remaining file) s.current (Some []) };

    ghost given = { λ s. s.given };

    ghost started = { λ s. s.started };

    fn start(&mut self, name: &str) -> Result<(), Failed> {
        self.given = 0;
        self.started = self.started.saturating_add(1);
        match fs::open(self.rt, name) {
            Ok(file) => {
                self.current = Some(file);
                Ok(())
            }
            Err(_) => {
                self.faults = self.faults.saturating_add(1);
                Err(Failed)
            }
        }
    }

    fn read(&mut self, into: &mut [u8]) -> Result<usize, Failed> {
        let read = match &mut self.current {
            None => Ok(0),
            Some(file) => read_some(file, into),
        };
        match read {
            Ok(count) => {
                self.given = given_after(self.given, count);
                Ok(count)
            }
            Err(failed) => {
                self.faults = self.faults.saturating_add(1);
                Err(failed)
            }
        }
    }
}

/// Standard output, unbuffered. The fault count rises with each call that fails. A call that takes none of a nonempty
/// piece counts as a failure. A write that a signal interrupts is made again.
#[derive(Drop)]
pub struct StdSink<'a, P: Print> {
    rt: &'a P,
    faults: u64,
}

impl<'a, P: Print> StdSink<'a, P> {
    /// The standard output of the runtime.
    pub fn new(rt: &'a P) -> Self
        ensures { ⟦<StdSink<'a, P> as Sink>⟧.faults result ≡ 0 }
    {
        StdSink { rt, faults: 0 }
    }
}

impl<P: Print> Sink for StdSink<'_, P> {
    ghost held = { λ s. None };

    ghost faults = { λ s. s.faults };

    fn write(&mut self, bytes: &[u8]) -> Result<usize, Failed> {
        match write_some(self.rt, bytes) {
            Ok(count) => Ok(count),
            Err(failed) => {
                self.faults = self.faults.saturating_add(1);
                Err(failed)
            }
        }
    }
}
