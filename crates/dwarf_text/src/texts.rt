// The strings that attribute values denote.
ghost use Rattle.std.specs.Prelude.{◌≡◌, ℕ, List};
ghost use Rattle.std.specs.Result.{result_map_both};
ghost use Rattle.abi_base.specs.declared.fault.FaultKind.TheVariants as kind;
ghost use Rattle.dwarf_forms.specs.Values.{fault};
ghost use Rattle.dwarf_text.specs.Texts.{TextsEnd, text_of};
ghost use Rattle.dwarf_text.specs.Texts as spec;

use crate::bases::Bases;
use abi_base::{Fault, FaultKind, table_offset, text_at};
use dwarf_forms::{DebugInfoOffset, Sections, Value};

fn no_text(entry: DebugInfoOffset) -> Fault
    ensures { result ≡ fault kind.Text entry }
{
    Fault {
        kind: FaultKind::Text,
        at: entry.get(),
    }
}

// The string at an offset in a section.
fn text_in(section: &[u8], place: u64, entry: DebugInfoOffset) -> Result<&[u8], Fault>
    ensures { result_map_both (λ t. t.now) (λ f. f) result ≡ spec.text_in section.now place entry }
{
    match text_at(section, place) {
        Some(text) => Ok(text),
        None => Err(no_text(entry)),
    }
}

/// The string of an attribute value, as bytes of the file without the 0 byte (DWARF 5, sections 7.5.5 "Classes and Forms" and
/// 7.26 "String Offsets Table"). The fault is `Index` where the value is an index for which the unit has no base, or which leads
/// outside `.debug_str_offsets`, and `Text` where the value is not of class string, or the string does not end inside its section.
/// Each is at the entry.
pub fn text<'a>(
    value: &Value,
    bases: &Bases,
    sections: &Sections<'a>,
    entry: DebugInfoOffset,
) -> Result<&'a [u8], Fault>
    ensures { result_map_both (λ t. t.now) (λ f. f) result
        ≡ text_of sections.now.info.now sections.now.str.now sections.now.line_str.now
        sections.now.str_offsets.now bases.now.str_offsets entry value.now }
{
    match *value {
        Value::Inline { from } => text_in(sections.info, from, entry),
        Value::StrOffset(place) => text_in(sections.str, place.get(), entry),
        Value::LineOffset(place) => text_in(sections.line_str, place.get(), entry),
        Value::StrIndex(index) => match table_offset(
            sections.str_offsets,
            bases.str_offsets,
            index,
        ) {
            Some(place) => text_in(sections.str, u64::from(place), entry),
            None => Err(Fault {
                kind: FaultKind::Index,
                at: entry.get(),
            }),
        },
        _ => Err(no_text(entry)),
    }
}

// The fault of the string at an offset in a section whose strings end at `end`.
fn fault_before(end: usize, place: u64, entry: DebugInfoOffset) -> Option<Fault>
    ensures { (section : List ℕ) → TextsEnd section end → result ≡ spec.fault_of (spec.text_in section place entry) }
{
    if place < end as u64 {
        None
    } else {
        Some(no_text(entry))
    }
}

// The fault of what was read, if any.
fn fault_of(read: Result<&[u8], Fault>) -> Option<Fault>
    ensures { result ≡ spec.fault_of (result_map_both (λ t. t.now) (λ f. f) read.entry) }
{
    match read {
        Ok(_) => None,
        Err(fault) => Some(fault),
    }
}

/// The fault of the string of a value, the same as that of `text`. `str_end` is where the strings of `.debug_str` end, and saves
/// the search for the end of a string there.
pub fn text_fault(
    value: &Value,
    bases: &Bases,
    sections: &Sections<'_>,
    str_end: usize,
    entry: DebugInfoOffset,
) -> Option<Fault>
    requires { TextsEnd sections.now.str.now str_end }
    ensures { result ≡ spec.fault_of (text_of sections.now.info.now sections.now.str.now
        sections.now.line_str.now sections.now.str_offsets.now bases.now.str_offsets entry value.now) }
{
    match *value {
        Value::StrOffset(place) => fault_before(str_end, place.get(), entry),
        Value::StrIndex(index) => match table_offset(
            sections.str_offsets,
            bases.str_offsets,
            index,
        ) {
            Some(place) => fault_before(str_end, u64::from(place), entry),
            None => Some(Fault {
                kind: FaultKind::Index,
                at: entry.get(),
            }),
        },
        _ => fault_of(text(value, bases, sections, entry)),
    }
}
