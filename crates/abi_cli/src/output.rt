// Standard output, whose reader may close it.
ghost use Rattle.std.specs.Prelude.{◌≡◌, ◌<◌, None, IfOk, length};
ghost use Rattle.std.specs.Io.{WritesAtMost};

use abi_base::{Failed, Sink};
use std::io::ErrorKind;

// How often an interrupted call is made again.
const TRIES: u64 = u64::MAX;

// How many bytes are kept. A line about a refused certificate is shorter.
const KEPT: usize = 64;

// Why a write failed.
#[derive(Clone, Copy)]
enum Why {
    // The reader of the pipe closed it.
    Closed,
    // Any other cause.
    Other,
}

// One write, which takes at least one byte where there are any. A write that a signal interrupts takes nothing and is made again.
fn write_some<P: Print>(rt: &P, bytes: &[u8]) -> Result<usize, Why>
    ensures bound { WritesAtMost result bytes.now }
    ensures progress { IfOk result (λ count. 0 < length bytes.now → 0 < count) }
{
    for _ in 0..TRIES {
        match rt.write_some(bytes) {
            Ok(count) if count > 0 || bytes.is_empty() => return Ok(count),
            Err(e) if e.kind() == ErrorKind::Interrupted => {}
            Err(e) if e.kind() == ErrorKind::BrokenPipe => return Err(Why::Closed),
            _ => return Err(Why::Other),
        }
    }
    Err(Why::Other)
}

// The first bytes of a text.
#[derive(Drop)]
struct First {
    bytes: [u8; KEPT],
    count: usize,
}

impl First {
    // Keeps more bytes of the text, as far as there is room.
    fn keep(&mut self, bytes: &[u8]) {
        for byte in bytes {
            if self.count >= KEPT {
                return;
            }
            self.bytes[self.count] = *byte;
            self.count += 1;
        }
    }
}

/// Standard output, unbuffered, as `StdSink` writes it. It knows whether its reader closed it, and how the text begins.
#[derive(Drop)]
pub(crate) struct Output<'a, P: Print> {
    rt: &'a P,
    faults: u64,
    is_closed: bool,
    first: First,
}

impl<'a, P: Print> Output<'a, P> {
    /// The standard output of the runtime.
    pub(crate) fn new(rt: &'a P) -> Self {
        Output {
            rt,
            faults: 0,
            is_closed: false,
            first: First {
                bytes: [0; KEPT],
                count: 0,
            },
        }
    }

    /// Whether the last write failed because the reader of the pipe closed it.
    pub(crate) fn is_closed(&self) -> bool {
        self.is_closed
    }

    /// The first bytes that were written: all of a text that has no more than 64.
    pub(crate) fn first(&self) -> &[u8] {
        self.first.bytes.get(..self.first.count).unwrap_or(&[])
    }
}

impl<P: Print> Sink for Output<'_, P> {
    ghost held = { λ s. None };

    ghost faults = { λ s. s.faults };

    fn write(&mut self, bytes: &[u8]) -> Result<usize, Failed> {
        match write_some(self.rt, bytes) {
            Ok(count) => {
                self.first.keep(&bytes[..count]);
                Ok(count)
            }
            Err(why) => {
                self.faults = self.faults.saturating_add(1);
                self.is_closed = matches!(why, Why::Closed);
                Err(Failed)
            }
        }
    }
}
