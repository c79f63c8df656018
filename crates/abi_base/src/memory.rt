// Inputs and a sink in memory. Chosen calls fail.
ghost use Rattle.std.specs.Prelude.{◌≡◌, ◌+◌, ◌-◌, ◌^◌, ◌≤◌, ◌<◌, ℕ, List, [], length, drop, Some, None, if◌then◌else◌, option_and_then, MatchOption, IfOk, is_some, vec_capacity, vec_len, string_bytes};
ghost use Rattle.abi_base.specs.Causes.{count_after, is_listed};
ghost use Rattle.abi_base.specs.Limits.{sink_room};
ghost use Rattle.abi_base.specs.Files.{file_of, IsFileAt, rest_at, name_at, CopiesFront};

use crate::inputs::given_after;
use crate::{Failed, Inputs, NoMemory, Sink};
use std::alloc::Global;

// The calls that are set up to fail, counted from 1, and the number of calls so far.
#[derive(Drop)]
struct Calls {
    failing: Vec<u64>,
    so_far: u64,
}

impl Calls {
    // Counts the next call, and answers whether it is set up to fail.
    #[tactic(auto, using(crate::proofs::Loops::listed_later))]
    fn next_fails(&mut self) -> bool
        ensures listed { result ≡ is_listed self.old.failing.items self.old.so_far 0 }
        ensures later { (k : ℕ) → is_listed self.new.failing.items self.new.so_far k
            ≡ is_listed self.old.failing.items self.old.so_far (k + 1) }
    {
        self.so_far = self.so_far.saturating_add(1);
        self.failing.contains(&self.so_far)
    }
}

/// Named files in memory, with chosen calls that fail. Of several files with one name the first counts.
///
/// A call that is set up to fail raises the fault count of every name. A start on an unknown name fails too, and raises
/// only the counts of unknown names. The current input answers only to its own name.
#[derive(Drop)]
pub struct MemInputs {
    files: Vec<(String, Vec<u8>)>,
    calls: Calls,
    failed: u64,
    missing: u64,
    current: Option<usize>,
    at: usize,
    given: u64,
    started: u64,
}

impl MemInputs {
    /// Makes inputs of these files, given as name and bytes, with no current input yet. `failing` lists the calls that fail,
    /// counted from 1 over `start` and `read` together.
    pub fn new(files: Vec<(String, Vec<u8>)>, failing: Vec<u64>) -> MemInputs
        ensures told { (name : List ℕ) → ⟦<MemInputs as Inputs>⟧.told result name ≡ file_of files.items name }
        ensures faults { (name : List ℕ) → ⟦<MemInputs as Inputs>⟧.faults result name ≡ 0 }

        // Before the first start there is nothing to read.
        ensures left { ⟦<MemInputs as Inputs>⟧.left result ≡ Some [] }
        ensures given { ⟦<MemInputs as Inputs>⟧.given result ≡ 0 }
        ensures started { ⟦<MemInputs as Inputs>⟧.started result ≡ 0 }

        ensures calls { (k : ℕ) → ⟦<MemInputs as Inputs>⟧.is_made_to_fail result k
            ≡ Some (is_listed failing.items 0 k) }
    {
        MemInputs {
            files,
            calls: Calls { failing, so_far: 0 },
            failed: 0,
            missing: 0,
            current: None,
            at: 0,
            given: 0,
            started: 0,
        }
    }
}

// The index of the first file of this name.
fn place_of(files: &[(String, Vec<u8>)], name: &str) -> Option<usize>
    ensures { MatchOption result (file_of files.now name.now ≡ None) (IsFileAt files.now name.now) }
{
    for (place, file) in files.iter().enumerate() {
        if file.0.as_str() == name {
            return Some(place);
        }
    }
    None
}

impl Inputs for MemInputs {
    ghost faults = { λ m name. if is_some (file_of m.files.items name) then m.failed else m.failed + m.missing };

    ghost told = { λ m name. file_of m.files.items name };

    ghost answers_to = { λ m name. option_and_then (name_at m.files.items) m.current ≡ Some name };

    ghost left = { λ m. Some (rest_at m.files.items m.current m.at) };

    ghost given = { λ m. m.given };

    ghost started = { λ m. m.started };

    ghost is_made_to_fail = { λ m k. Some (is_listed m.calls.failing.items m.calls.so_far k) };

    fn start(&mut self, name: &str) -> Result<(), Failed> {
        self.given = 0;
        self.started = self.started.saturating_add(1);
        if self.calls.next_fails() {
            self.failed = self.failed.saturating_add(1);
            return Err(Failed);
        }
        match place_of(&self.files, name) {
            Some(place) => {
                self.current = Some(place);
                self.at = 0;
                Ok(())
            }
            None => {
                self.missing = self.missing.saturating_add(1);
                Err(Failed)
            }
        }
    }

    fn read(&mut self, into: &mut [u8]) -> Result<usize, Failed> {
        if self.calls.next_fails() {
            self.failed = self.failed.saturating_add(1);
            return Err(Failed);
        }
        let count = copy_rest(&self.files, self.current, self.at, into);
        self.at += count;
        self.given = given_after(self.given, count);
        Ok(count)
    }
}

// Copies the rest of a file, up to the size of the buffer.
fn copy_rest(
    files: &[(String, Vec<u8>)],
    current: Option<usize>,
    at: usize,
    into: &mut [u8],
) -> usize
    ensures copied { CopiesFront (rest_at files.now current at) into.old into.new result }
    ensures fits { at + result < 2 ^ 64 }
{
    match current {
        None => 0,
        Some(place) => match files.get(place) {
            None => 0,
            Some(file) => copy_front(&file.1, at, into),
        },
    }
}

fn copy_front(bytes: &[u8], at: usize, into: &mut [u8]) -> usize
    ensures copied { CopiesFront (drop at bytes.now) into.old into.new result }
    ensures fits { at + result < 2 ^ 64 }
{
    if at >= bytes.len() {
        return 0;
    }
    let count = (bytes.len() - at).min(into.len());
    into[..count].copy_from_slice(&bytes[at..at + count]);
    count
}

// The capacity of a sink in memory, in bytes.
const ROOM: usize = 1_048_576;

/// A sink in memory, with chosen calls that fail. Its capacity of 1,048,576 bytes is allocated at creation, and nothing
/// later. Once it is full, each write of a nonempty piece fails.
#[derive(Drop)]
pub struct MemSink {
    bytes: Vec<u8>,
    take: usize,
    calls: Calls,
    failed: u64,
    ghost takes_some: { 0 < take },
    ghost room_taken: { sink_room ≤ vec_capacity bytes },
    ghost within: { vec_len bytes ≤ sink_room },
}

impl MemSink {
    /// An empty sink that accepts at most `take` bytes in one call, at least 1; `NoMemory` where its buffer cannot be
    /// allocated. `failing` lists the calls of `write` that fail, counted from 1.
    pub fn new(alloc: Global, take: usize, failing: Vec<u64>) -> Result<MemSink, NoMemory>
        requires { 0 < take }
        ensures held { IfOk result (λ sink. ⟦<MemSink as Sink>⟧.held sink ≡ Some []) }
        ensures faults { IfOk result (λ sink. ⟦<MemSink as Sink>⟧.faults sink ≡ 0) }
        ensures room { IfOk result (λ sink. ⟦<MemSink as Sink>⟧.room sink ≡ Some sink_room) }
        ensures takes { IfOk result (λ sink. ⟦<MemSink as Sink>⟧.takes sink ≡ Some take) }
        ensures calls { IfOk result (λ sink. (k : ℕ)
            → ⟦<MemSink as Sink>⟧.is_made_to_fail sink k ≡ Some (is_listed failing.items 0 k)) }
    {
        Ok(MemSink {
            bytes: Vec::with_capacity(alloc, ROOM)?,
            take,
            calls: Calls { failing, so_far: 0 },
            failed: 0,
        })
    }

    /// The bytes in the sink: all that were written, in order.
    pub fn held(&self) -> &[u8]
        ensures { ⟦<MemSink as Sink>⟧.held self.now ≡ Some result.now }
    {
        &self.bytes
    }
}

impl Sink for MemSink {
    ghost held = { λ s. Some s.bytes.items };

    ghost faults = { λ s. s.failed };

    ghost room = { λ s. Some (sink_room - vec_len s.bytes) };

    ghost takes = { λ s. Some s.take };

    ghost is_made_to_fail = { λ s k. Some (is_listed s.calls.failing.items s.calls.so_far k) };

    fn write(&mut self, bytes: &[u8]) -> Result<usize, Failed> {
        let fails = self.calls.next_fails();
        let room = ROOM - self.bytes.len();
        let count = bytes.len().min(self.take).min(room);
        if fails || (count == 0 && !bytes.is_empty()) {
            self.failed = self.failed.saturating_add(1);
            return Err(Failed);
        }
        self.bytes.extend_from_slice(&bytes[..count]).unwrap();
        Ok(count)
    }
}
