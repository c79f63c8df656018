// The cells of the rows of tables, sections that a test gives as bytes, and faults as texts.
ghost use Rattle.std.specs.Prelude.{◌≤◌, length};
ghost use Rattle.abi_base.specs.Limits.{input_limit};

use abi_base::{Fault, INPUT_LIMIT, NoMemory};
use dwarf_forms::Sections;
use dwarf_tree::EntryNumber;
use std::alloc::Global;
use std::fmt::Write;
use std::process::Abort;

/// The text before the first bar, and the text after it.
pub(crate) fn cut(text: &str) -> (&str, &str) {
    text.split_once('|').unwrap_or((text, ""))
}

/// A decimal number, or 0 if the text is not one.
pub(crate) fn number(text: &str) -> u64 {
    text.parse().unwrap_or(0)
}

/// A hexadecimal number, or 0 if the text is not one.
pub(crate) fn hexadecimal(text: &str) -> u64 {
    u64::from_str_radix(text, 16).unwrap_or(0)
}

/// The entry with a decimal number.
pub(crate) fn entry(text: &str) -> EntryNumber {
    EntryNumber::new(text.parse().unwrap_or(0))
}

/// The byte with two hexadecimal digits, or 0 if the text is not one.
pub(crate) fn byte(text: &str) -> u8 {
    u8::from_str_radix(text, 16).unwrap_or(0)
}

/// Expects a text for a row.
pub(crate) fn expect(rt: &impl Abort, told: String, wanted: &str, row: &str) {
    assert_eq!(rt; told.as_str(), wanted, "{row}");
}

/// The bytes, each written as two hexadecimal digits.
pub(crate) fn bytes_of(alloc: Global, text: &str) -> Result<Vec<u8>, NoMemory> {
    let mut bytes = Vec::new(alloc);
    for word in text.split_whitespace() {
        bytes.push(byte(word))?;
    }
    Ok(bytes)
}

/// The bytes, or none if they exceed the limit of an input.
pub(crate) fn within_limit(bytes: &[u8]) -> &[u8]
    ensures { length result.now ≤ input_limit }
{
    if bytes.len() > INPUT_LIMIT {
        &[]
    } else {
        bytes
    }
}

/// Sections with these abbreviations and these units.
pub(crate) fn sections<'a>(abbrev: &'a [u8], info: &'a [u8]) -> Sections<'a> {
    Sections {
        info: within_limit(info),
        abbrev: within_limit(abbrev),
        str: b"",
        line_str: b"",
        str_offsets: b"",
        addr: b"",
        rnglists: b"",
        ranges: b"",
    }
}

/// The number of an entry.
pub(crate) fn index(e: Option<EntryNumber>) -> Option<usize> {
    match e {
        None => None,
        Some(e) => Some(e.index()),
    }
}

/// The name of a fault and its position.
pub(crate) fn fault_text(alloc: Global, fault: Fault) -> Result<String, NoMemory> {
    let (name, at) = (fault.kind.name(), fault.at);
    Ok(format!(in alloc; "{name} {at}")?)
}

/// The numbers of entries, each after a space.
pub(crate) fn numbers_text(alloc: Global, entries: &[EntryNumber]) -> Result<String, NoMemory> {
    let mut text = String::new(alloc);
    for entry in entries {
        let number = entry.index();
        write!(text, " {number}")?;
    }
    Ok(text)
}
