// Appends numbers, strings and padding to bytes. Each call fails only where memory runs out.
ghost use Rattle.std.specs.Prelude.{◌≡◌, ◌<◌, ◌++◌, OnOk};
ghost use Rattle.trial_libraries.specs.Bytes.{number_bytes, ended, filling, filled};

use crate::constants::ALIGNMENT;
use byteorder::{ByteOrder, LittleEndian};
use std::alloc::AllocError;

// Appends a little-endian number of two bytes.
#[tactic(auto, unfolding(crate::specs::Bytes::number_bytes))]
pub(crate) fn put_u16(bytes: &mut Vec<u8>, number: u16) -> Result<(), AllocError>
    ensures { OnOk result (bytes.new.items ≡ bytes.old.items ++ number_bytes 2 number) }
{
    let mut spelled = [0; 2];
    LittleEndian::write_u16(&mut spelled, number);
    bytes.extend_from_slice(&spelled)
}

// Appends a little-endian number of four bytes.
#[tactic(auto, unfolding(crate::specs::Bytes::number_bytes))]
pub(crate) fn put_u32(bytes: &mut Vec<u8>, number: u32) -> Result<(), AllocError>
    ensures { OnOk result (bytes.new.items ≡ bytes.old.items ++ number_bytes 4 number) }
{
    let mut spelled = [0; 4];
    LittleEndian::write_u32(&mut spelled, number);
    bytes.extend_from_slice(&spelled)
}

// Appends a little-endian number of eight bytes.
#[tactic(auto, unfolding(crate::specs::Bytes::number_bytes))]
pub(crate) fn put_u64(bytes: &mut Vec<u8>, number: u64) -> Result<(), AllocError>
    ensures { OnOk result (bytes.new.items ≡ bytes.old.items ++ number_bytes 8 number) }
{
    let mut spelled = [0; 8];
    LittleEndian::write_u64(&mut spelled, number);
    bytes.extend_from_slice(&spelled)
}

// Appends a string and its terminating 0 byte.
pub(crate) fn put_text(bytes: &mut Vec<u8>, text: &str) -> Result<(), AllocError>
    ensures { OnOk result (bytes.new.items ≡ bytes.old.items ++ ended text.now) }
{
    bytes.extend_from_slice(text.as_bytes())?;
    bytes.push(0)?;
    Ok(())
}

// The number of zeros from a length to the next multiple of the alignment.
#[tactic(auto, unfolding(crate::specs::Bytes::filling))]
fn filling(len: usize) -> usize
    ensures value { result ≡ filling len }
    ensures few { result < ALIGNMENT }
{
    (ALIGNMENT - len % ALIGNMENT) % ALIGNMENT
}

// Appends bytes, and zeros up to the next multiple of the alignment.
#[tactic(auto, unfolding(crate::specs::Bytes::filled))]
pub(crate) fn put_filled(bytes: &mut Vec<u8>, contents: &[u8]) -> Result<(), AllocError>
    ensures { OnOk result (bytes.new.items ≡ bytes.old.items ++ filled contents.now) }
{
    bytes.extend_from_slice(contents)?;
    bytes.resize(bytes.len() + filling(contents.len()), 0)
}
