// The contents and names of sections, and the faults of each section.
ghost use Rattle.std.specs.Prelude.{◌≡◌, ◌<◌, ◌≤◌, IfNone, IfSome, Some, drop, false, length, map, slice_get, ◌+◌};
ghost use Rattle.std.specs.Option.{option_copied, option_map_or};
ghost use Rattle.std.specs.Str.{bytes_eq};
ghost use Rattle.abi_base.specs.Numbers.{is_zero};
ghost use Rattle.abi_base.specs.Outcome.{first};
ghost use Rattle.elf.specs.file.Elf.{table, contents, section_name, all_sections, has_name, range_fault, name_fault, compressed_fault, holds_bytes, HasTable, HasRanges};
ghost use Rattle.elf.specs.file.Elf as spec;

use crate::constants::{DEBUG_PREFIX, SHF_COMPRESSED, SHT_NOBITS, SHT_NULL, ZDEBUG_PREFIX};
use crate::file::header::section_in;
use crate::file::records::{SectionHeader, SectionTable};
use abi_base::{Fault, FaultKind, text_at};

// Whether a section has bytes in the file. Section 0 and those of type NULL and NOBITS have none.
fn has_bytes(number: u64, header: SectionHeader) -> bool
    ensures { result ≡ holds_bytes number header }
{
    !(number == 0 || header.kind == SHT_NULL || header.kind == SHT_NOBITS)
}

// The fault of a section that is not inside the file. Compares the size with the remaining room, since the sum of
// offset and size could overflow.
#[tactic(auto, unfolding(crate::specs::file::Elf::range_fault))]
fn range_fault_at(bytes: &[u8], sections: SectionTable, number: u64) -> Option<Fault>
    requires table { sections ≡ table bytes.now }
    requires has { HasTable bytes.now }
    requires number { number < sections.count }
    ensures { result ≡ range_fault bytes.now number }
{
    let header = section_in(bytes, sections, number);
    let len = bytes.len() as u64;
    if has_bytes(number, header) && (header.offset > len || header.size > len - header.offset) {
        Some(Fault {
            kind: FaultKind::SectionRange,
            at: number,
        })
    } else {
        None
    }
}

/// The fault of the first section that is not inside the file.
pub fn range_fault_in(bytes: &[u8], sections: SectionTable) -> Option<Fault>
    requires table { sections ≡ table bytes.now }
    requires has { HasTable bytes.now }
    ensures fault { result ≡ first (map (range_fault bytes.now) (all_sections bytes.now)) }
    ensures ranges { IfNone result (HasRanges bytes.now) }
{
    for number in 0..sections.count {
        match range_fault_at(bytes, sections, number) {
            Some(fault) => return Some(fault),
            None => {}
        }
    }
    None
}

/// The contents of the section with this number.
#[tactic(auto, unfolding(crate::specs::file::Elf::contents, crate::specs::file::Elf::range_fault))]
pub fn contents_in<'a>(bytes: &'a [u8], sections: SectionTable, number: u64) -> &'a [u8]
    requires table { sections ≡ table bytes.now }
    requires has { HasTable bytes.now }
    requires number { number < sections.count }
    requires inside { range_fault bytes.now number ≡ None }
    ensures held { result.now ≡ contents bytes.now number }
    ensures within { length result.now ≤ length bytes.now }
{
    let header = section_in(bytes, sections, number);
    if has_bytes(number, header) {
        let rest = &bytes[header.offset as usize..];
        &rest[..header.size as usize]
    } else {
        &[]
    }
}

/// The name of the section with this number, from the section name string table (gABI, "String Table").
#[tactic(auto, unfolding(crate::specs::file::Elf::section_name))]
pub fn name_in<'a>(
    bytes: &[u8],
    sections: SectionTable,
    names: &'a [u8],
    number: u64,
) -> Option<&'a [u8]>
    requires table { sections ≡ table bytes.now }
    requires has { HasTable bytes.now }
    requires number { number < sections.count }
    requires names { names.now ≡ contents bytes.now sections.names }
    ensures { option_copied result ≡ section_name bytes.now number }
{
    let header = section_in(bytes, sections, number);
    text_at(names, u64::from(header.name))
}

// Whether a name was found and is this one.
fn is_name(found: Option<&[u8]>, name: &[u8]) -> bool
    ensures { result ≡ option_map_or (λ n. bytes_eq n name.now) (option_copied found.entry) false }
{
    match found {
        Some(found) => found == name,
        None => false,
    }
}

// Whether the byte at an offset in the section of names is 0.
fn is_end(names: &[u8], place: usize) -> bool
    ensures { result ≡ option_map_or is_zero (slice_get names.now place) false }
{
    match names.get(place) {
        Some(byte) => *byte == 0,
        None => false,
    }
}

/// Whether the section has this name. Searches for the end of its name only where a 0 byte follows after as many bytes as this name
/// has: many sections may share one long name, and a search in each would take too long.
#[tactic(auto, using(crate::proofs::file_lemmas::NameLemmas::ends_behind), unfolding(crate::specs::file::Elf::section_name))]
pub fn has_name_in(
    bytes: &[u8],
    sections: SectionTable,
    names: &[u8],
    number: u64,
    name: &[u8],
) -> bool
    requires table { sections ≡ table bytes.now }
    requires has { HasTable bytes.now }
    requires number { number < sections.count }
    requires names { names.now ≡ contents bytes.now sections.names }
    ensures { result ≡ has_name bytes.now name.now number }
{
    let at = section_in(bytes, sections, number).name as usize;
    is_end(names, at + name.len()) && is_name(name_in(bytes, sections, names, number), name)
}

// The offset of the last 0 byte in a section of names. A name that begins there or before has its end there or before.
#[tactic(auto, using(crate::proofs::file_lemmas::NameLemmas::zero_at))]
fn last_zero(names: &[u8]) -> Option<usize>
    ensures { IfSome result (λ k. slice_get names.now k ≡ Some 0) }
{
    let mut end = names.len();
    'back: while end > 0 {
        end -= 1;
        if names[end] == 0 {
            return Some(end);
        }
    }
    None
}

// The fault of a section whose name has no end in the section of names. Searches only behind the last 0 byte: many
// sections may share one long name, and a search in each would take too long.
#[tactic(auto, using(crate::proofs::file_lemmas::NameLemmas::ends_before), unfolding(crate::specs::file::Elf::name_fault, crate::specs::file::Elf::section_name))]
fn name_fault_at(
    bytes: &[u8],
    sections: SectionTable,
    names: &[u8],
    last_zero: Option<usize>,
    number: u64,
) -> Option<Fault>
    requires table { sections ≡ table bytes.now }
    requires has { HasTable bytes.now }
    requires number { number < sections.count }
    requires names { names.now ≡ contents bytes.now sections.names }
    requires last_zero { IfSome last_zero (λ k. slice_get names.now k ≡ Some 0) }
    ensures { result ≡ name_fault bytes.now number }
{
    if let Some(end) = last_zero {
        if section_in(bytes, sections, number).name as usize <= end {
            return None;
        }
    }
    match name_in(bytes, sections, names, number) {
        Some(_) => None,
        None => Some(Fault {
            kind: FaultKind::SectionName,
            at: number,
        }),
    }
}

/// The fault of the first section whose name has no end in the section of names.
pub fn name_fault_in(bytes: &[u8], sections: SectionTable, names: &[u8]) -> Option<Fault>
    requires table { sections ≡ table bytes.now }
    requires has { HasTable bytes.now }
    requires names { names.now ≡ contents bytes.now sections.names }
    ensures { result ≡ first (map (name_fault bytes.now) (all_sections bytes.now)) }
{
    let last_zero = last_zero(names);
    for number in 0..sections.count {
        match name_fault_at(bytes, sections, names, last_zero, number) {
            Some(fault) => return Some(fault),
            None => {}
        }
    }
    None
}

// Whether a section with this name and these flags is a compressed debug section (gABI, "Section Compression"; names with a
// z are those of the older GNU style).
fn is_compressed(name: &[u8], flags: u64) -> bool
    ensures { result ≡ spec.is_compressed name.now flags }
{
    // Tests the flag, a single bit, without a bitwise operation: the quotient by its value is odd.
    let has_flag = (flags / SHF_COMPRESSED) % 2 == 1;
    (name.starts_with(&DEBUG_PREFIX) && has_flag) || name.starts_with(&ZDEBUG_PREFIX)
}

// The bytes of the section of names from an offset on.
fn names_from(names: &[u8], at: usize) -> &[u8]
    ensures { result.now ≡ drop at names.now }
{
    if at < names.len() { &names[at..] } else { &[] }
}

// The fault of a compressed debug section. A section without a name has another fault, not this one. Searches for the end of a name
// only where the name begins like that of a compressed section: many sections may share one long name.
#[tactic(auto, unfolding(crate::specs::file::Elf::compressed_fault, crate::specs::file::Elf::section_name))]
fn compressed_fault_at(
    bytes: &[u8],
    sections: SectionTable,
    names: &[u8],
    number: u64,
) -> Option<Fault>
    requires table { sections ≡ table bytes.now }
    requires has { HasTable bytes.now }
    requires number { number < sections.count }
    requires names { names.now ≡ contents bytes.now sections.names }
    ensures { result ≡ compressed_fault bytes.now number }
{
    let header = section_in(bytes, sections, number);
    if !is_compressed(names_from(names, header.name as usize), header.flags) {
        return None;
    }
    match name_in(bytes, sections, names, number) {
        Some(name) => {
            if is_compressed(name, header.flags) {
                Some(Fault {
                    kind: FaultKind::Compressed,
                    at: number,
                })
            } else {
                None
            }
        }
        None => None,
    }
}

/// The fault of the first compressed debug section.
pub fn compressed_fault_in(bytes: &[u8], sections: SectionTable, names: &[u8]) -> Option<Fault>
    requires table { sections ≡ table bytes.now }
    requires has { HasTable bytes.now }
    requires names { names.now ≡ contents bytes.now sections.names }
    ensures { result ≡ first (map (compressed_fault bytes.now) (all_sections bytes.now)) }
{
    for number in 0..sections.count {
        match compressed_fault_at(bytes, sections, names, number) {
            Some(fault) => return Some(fault),
            None => {}
        }
    }
    None
}
