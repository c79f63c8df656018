// Programs that are given as libraries.
ghost use Rattle.std.specs.Prelude.{◌≡◌, ◌+◌, ◌*◌, ◌≤◌, [], find, IfOk, IfSome, IsTrue, length, string_bytes};
ghost use Rattle.std.specs.List.{cons_option};
ghost use Rattle.std.specs.Option.{option_copied};
ghost use Rattle.explain.specs.Lines.{is_one_line};
ghost use Rattle.explain.specs.Programs.{header_with, headers_in, flags_entry, flags_of, program_words};
ghost use Rattle.explain.specs.Programs as spec;
ghost use Rattle.explain.specs.Sentences.{said_of};

use crate::constants::{
    DF_1_PIE, DT_FLAGS_1, E_PHNUM, E_PHOFF, P_FILESZ, P_OFFSET, P_TYPE, PROGRAM_HEADER_SIZE,
    PT_DYNAMIC, PT_INTERP,
};
use crate::lines::said;
use abi_base::{NoMemory, u16_at, u32_in, u64_in};
use elf::constants::{DT_NULL, DYN_SIZE};
use elf::symbols::{tag_at, value_at};
use std::alloc::Global;

// The bytes of this size at an offset, if there are that many.
fn piece_at(bytes: &[u8], at: u64, size: u64) -> Option<&[u8]>
    ensures found { option_copied result ≡ spec.piece_at bytes.now at size }
    ensures long { IfSome result (λ piece. length piece.now ≡ size) }
{
    let at = at as usize;
    let size = size as usize;
    if at <= bytes.len() && size <= bytes.len() - at {
        Some(&bytes[at..at + size])
    } else {
        None
    }
}

// The program header with an index.
fn header_at(bytes: &[u8], table: u64, index: u16) -> Option<&[u8]>
    ensures found { option_copied result ≡ header_with bytes.now table index }
    ensures long { IfSome result (λ header. length header.now ≡ 56) }
{
    let at = table.checked_add(u64::from(index) * PROGRAM_HEADER_SIZE)?;
    piece_at(bytes, at, PROGRAM_HEADER_SIZE)
}

// Whether a header is that of a segment of a type.
fn is_of_type(header: &[u8], wanted: u32) -> bool
    requires { length header.now ≡ 56 }
    ensures { result ≡ spec.is_of_type wanted header.now }
{
    u32_in(header, P_TYPE) == wanted
}

// The program header with an index, if it is that of a segment of a type.
fn header_of_type(bytes: &[u8], table: u64, index: u16, wanted: u32) -> Option<&[u8]>
    ensures found { option_copied result
        ≡ find (spec.is_of_type wanted) (cons_option (header_with bytes.now table index) []) }
    ensures long { IfSome result (λ header. length header.now ≡ 56) }
{
    match header_at(bytes, table, index) {
        Some(header) => {
            if is_of_type(header, wanted) {
                Some(header)
            } else {
                None
            }
        }
        None => None,
    }
}

// The first header of a segment of a type, in a table of this many headers.
fn segment_among(bytes: &[u8], table: u64, count: u16, wanted: u32) -> Option<&[u8]>
    ensures found { option_copied result ≡ find (spec.is_of_type wanted) (headers_in bytes.now table count) }
    ensures long { IfSome result (λ header. length header.now ≡ 56) }
{
    for index in 0..count {
        if let Some(header) = header_of_type(bytes, table, index, wanted) {
            return Some(header);
        }
    }
    None
}

// The header of the first segment of a type.
#[tactic(auto, using(abi_base::proofs::lemmas::Numbers::number_inside), unfolding(crate::specs::Programs::segment_of))]
fn segment_of(bytes: &[u8], wanted: u32) -> Option<&[u8]>
    ensures found { option_copied result ≡ spec.segment_of bytes.now wanted }
    ensures long { IfSome result (λ header. length header.now ≡ 56) }
{
    match u16_at(bytes, E_PHNUM) {
        Some(count) => segment_among(bytes, u64_in(bytes, E_PHOFF), count, wanted),
        None => None,
    }
}

// What a segment with this header has in the file.
fn contents_of<'a>(bytes: &'a [u8], header: &[u8]) -> Option<&'a [u8]>
    requires { length header.now ≡ 56 }
    ensures { option_copied result ≡ spec.contents_of bytes.now header.now }
{
    piece_at(bytes, u64_in(header, P_OFFSET), u64_in(header, P_FILESZ))
}

// The dynamic table, by the program headers.
fn dynamic_table(bytes: &[u8]) -> Option<&[u8]>
    ensures { option_copied result ≡ spec.dynamic_table bytes.now }
{
    match segment_of(bytes, PT_DYNAMIC) {
        Some(header) => contents_of(bytes, header),
        None => None,
    }
}

// The number of the first entry with the tag DT_FLAGS_1 in a dynamic table.
fn flags_entry_in(table: &[u8]) -> Option<usize>
    ensures entry { result ≡ flags_entry table.now }
    ensures inside { IfSome result (λ i. 16 * (i + 1) ≤ length table.now) }
{
    for number in 0..table.len() / DYN_SIZE {
        let tag = tag_at(table, number);
        if tag == DT_NULL {
            return None;
        }
        if tag == DT_FLAGS_1 {
            return Some(number);
        }
    }
    None
}

// The value of the first entry with the tag DT_FLAGS_1 in a dynamic table.
fn flags_in(table: &[u8]) -> Option<u64>
    ensures { result ≡ flags_of table.now }
{
    match flags_entry_in(table) {
        Some(number) => Some(value_at(table, number)),
        None => None,
    }
}

// Whether flags have the bit DF_1_PIE.
fn says_pie(flags: u64) -> bool
    ensures { result ≡ spec.says_pie flags }
{
    (flags / DF_1_PIE) % 2 == 1
}

/// Whether a file with these bytes at its beginning names a program interpreter (gABI, "Program Header"), as all programs do and
/// hardly any library does. The bytes need not go beyond the program headers.
pub fn has_interpreter(bytes: &[u8]) -> bool
    ensures { result ≡ spec.has_interpreter bytes.now }
{
    segment_of(bytes, PT_INTERP).is_some()
}

/// Whether the file with these bytes is a position-independent executable, which has the type of shared objects, too: it names a
/// program interpreter, and the flag DF_1_PIE of its dynamic table is set.
pub fn is_program(bytes: &[u8]) -> bool
    ensures { result ≡ spec.is_program bytes.now }
{
    if !has_interpreter(bytes) {
        return false;
    }
    match dynamic_table(bytes) {
        Some(table) => match flags_in(table) {
            Some(flags) => says_pie(flags),
            None => false,
        },
        None => false,
    }
}

/// The sentence on a program at a path that is given as a library. It is one line, whatever characters the path has.
pub fn program_sentence(alloc: Global, path: &str) -> Result<String, NoMemory>
    ensures says { IfOk result (λ text. string_bytes text ≡ said_of path.now program_words) }
    ensures line { IfOk result (λ text. IsTrue (is_one_line (string_bytes text))) }
{
    Ok(said(
        alloc,
        path,
        "it is a program (a position-independent executable), not a library",
    )?)
}
