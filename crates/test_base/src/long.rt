// An input that is longer than what one call of `read` gives.
use abi_base::NoMemory;
use std::alloc::Global;

/// More bytes than one call of `read` gives.
pub(crate) const LONG: usize = 70_000;

// A prime, so that two pieces of a round size differ.
const PERIOD: usize = 251;

fn byte_at(i: usize) -> u8 {
    (i % PERIOD) as u8
}

pub(crate) fn long_bytes(alloc: Global) -> Result<Vec<u8>, NoMemory> {
    Ok((0..LONG).map(byte_at).collect(alloc)?)
}

/// Whether these are all of the long bytes.
pub(crate) fn are_long_bytes(bytes: &[u8]) -> bool {
    bytes.len() == LONG
        && bytes
            .iter()
            .enumerate()
            .all(|(i, byte)| *byte == byte_at(i))
}
