// Little-endian numbers and zero-terminated strings in bytes.
ghost use Rattle.std.specs.Prelude.{◌≡◌, ◌+◌, ◌<◌, ◌≤◌, length, position, IfSome};
ghost use Rattle.std.specs.Option.{option_copied};
ghost use Rattle.abi_base.specs.Numbers.{number, number_at, is_zero};
ghost use Rattle.abi_base.specs.Numbers as spec;

use byteorder::{ByteOrder, LittleEndian};

/// The little-endian number in the two bytes at `at`, which lie in bounds (System V gABI, "Data Representation").
pub fn u16_in(bytes: &[u8], at: usize) -> u16
    requires { at + 2 ≤ length bytes.now }
    ensures { result ≡ number 2 bytes.now at }
{
    LittleEndian::read_u16(&bytes[at..])
}

/// The little-endian number in the two bytes at `at` (System V gABI, "Data Representation"). None exactly where they are
/// not all in bounds.
pub fn u16_at(bytes: &[u8], at: usize) -> Option<u16>
    ensures { result ≡ number_at 2 bytes.now at }
{
    if at <= bytes.len() && bytes.len() - at >= 2 {
        Some(u16_in(bytes, at))
    } else {
        None
    }
}

/// The little-endian number in the four bytes at `at`, which lie in bounds (System V gABI, "Data Representation").
pub fn u32_in(bytes: &[u8], at: usize) -> u32
    requires { at + 4 ≤ length bytes.now }
    ensures { result ≡ number 4 bytes.now at }
{
    LittleEndian::read_u32(&bytes[at..])
}

/// The little-endian number in the four bytes at `at` (System V gABI, "Data Representation"). None exactly where they are
/// not all in bounds.
pub fn u32_at(bytes: &[u8], at: usize) -> Option<u32>
    ensures { result ≡ number_at 4 bytes.now at }
{
    if at <= bytes.len() && bytes.len() - at >= 4 {
        Some(u32_in(bytes, at))
    } else {
        None
    }
}

/// The little-endian number in the eight bytes at `at`, which lie in bounds (System V gABI, "Data Representation").
pub fn u64_in(bytes: &[u8], at: usize) -> u64
    requires { at + 8 ≤ length bytes.now }
    ensures { result ≡ number 8 bytes.now at }
{
    LittleEndian::read_u64(&bytes[at..])
}

/// The little-endian number in the eight bytes at `at` (System V gABI, "Data Representation"). None exactly where they are
/// not all in bounds.
pub fn u64_at(bytes: &[u8], at: usize) -> Option<u64>
    ensures { result ≡ number_at 8 bytes.now at }
{
    if at <= bytes.len() && bytes.len() - at >= 8 {
        Some(u64_in(bytes, at))
    } else {
        None
    }
}

/// The little-endian number in the `size` bytes at `at`, one to eight (System V gABI, "Data Representation"). None exactly
/// where they are not all in bounds.
#[tactic(auto, using(crate::proofs::ReadNumbers::number_is))]
pub fn uint_at(bytes: &[u8], at: usize, size: usize) -> Option<u64>
    requires some { 0 < size }
    requires few { size ≤ 8 }
    ensures found { result ≡ number_at size bytes.now at }
    ensures inside { IfSome result (λ _. at + size ≤ length bytes.now) }
{
    if at <= bytes.len() && bytes.len() - at >= size {
        Some(LittleEndian::read_uint(&bytes[at..], size))
    } else {
        None
    }
}

// The index of the first zero byte.
fn first_zero(rest: &[u8]) -> Option<usize>
    ensures found { result ≡ position is_zero rest.now }
    ensures inside { IfSome result (λ k. k < length rest.now) }
{
    rest.iter().position(|b| *b == 0)
}

/// The string at an offset of a string table: the bytes up to the first zero byte, without it (System V gABI, "String
/// Table"). None exactly where no zero byte follows, as at an offset outside the table.
#[tactic(auto, using(crate::proofs::ReadNumbers::slices), unfolding(crate::specs::Numbers::text_at))]
pub fn text_at(table: &[u8], at: u64) -> Option<&[u8]>
    ensures found { option_copied result ≡ spec.text_at table.now at }
    ensures inside { IfSome result (λ t. at + length t.now < length table.now) }
{
    let at = at as usize;
    if at > table.len() {
        return None;
    }
    let rest = &table[at..];
    match first_zero(rest) {
        Some(len) => Some(&rest[..len]),
        None => None,
    }
}
