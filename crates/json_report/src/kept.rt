// A sink in memory.
ghost use Rattle.std.specs.Prelude.{◌≡◌, [], Some};

use abi_base::{Failed, Sink};
use std::alloc::Global;

/// A sink that keeps all bytes in memory. It fails only if memory runs out.
#[derive(Drop)]
pub struct TextSink {
    bytes: Vec<u8>,
    failed: u64,
}

impl TextSink {
    /// An empty sink.
    pub fn new(alloc: Global) -> TextSink
        ensures { ⟦<TextSink as Sink>⟧.held result ≡ Some [] }
    {
        TextSink {
            bytes: Vec::new(alloc),
            failed: 0,
        }
    }

    /// All bytes that it took, in order.
    pub fn held(&self) -> &[u8]
        ensures { ⟦<TextSink as Sink>⟧.held self.now ≡ Some result.now }
    {
        &self.bytes
    }
}

impl Sink for TextSink {
    ghost held = { λ s. Some s.bytes.items };

    ghost faults = { λ s. s.failed };

    fn write(&mut self, bytes: &[u8]) -> Result<usize, Failed> {
        match self.bytes.extend_from_slice(bytes) {
            Ok(()) => Ok(bytes.len()),
            Err(_) => {
                self.failed = self.failed.saturating_add(1);
                Err(Failed)
            }
        }
    }
}
