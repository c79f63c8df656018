// The header of a unit: its faults and its fields.
ghost use Rattle.std.specs.Prelude.{◌≡◌, ◌≤◌, ◌<◌, ◌+◌, ◌||◌, nat_lt, length, true, IfNone};
ghost use Rattle.dwarf_units.specs.HeaderLayout.{header_size_4, length_size};
ghost use Rattle.abi_base.specs.Outcome.{first};
ghost use Rattle.dwarf_units.specs.Sequence.{header_fault, header_size_at, is_type_at, kind_rows, length_rows, unit_abbrevs, unit_end, unit_version};
ghost use Rattle.dwarf_units.specs.Sequence as spec;

use crate::constants::{
    ADDRESS_SIZE, ADDRESS_SIZE_4, DEBUG_ABBREV_OFFSET, DEBUG_ABBREV_OFFSET_4, DWARF_4, DWARF_5,
    DWARF64_LENGTH, HEADER_SIZE, HEADER_SIZE_4, LENGTH_SIZE, RESERVED_LENGTH, TYPE_HEADER_SIZE,
    UNIT_TYPE, VERSION, X86_64_ADDRESS_SIZE,
};
use abi_base::dwarf::{DW_UT_compile, DW_UT_partial, DW_UT_type};
use abi_base::{Fault, FaultKind, u16_in, u32_in};
use dwarf_forms::DebugAbbrevOffset;

fn fault_at(kind: FaultKind, at: usize) -> Fault
    ensures { result ≡ record { kind = kind; at = at } }
{
    Fault {
        kind,
        at: at as u64,
    }
}

// The size of a unit's header, by version and unit type.
fn header_size_in(info: &[u8], at: usize) -> u64
    requires { at + header_size_4 ≤ length info.now }
    ensures { result ≡ header_size_at info.now at }
{
    let version = u16_in(info, at + VERSION);
    if version == DWARF_4 {
        return HEADER_SIZE_4;
    }
    if version == DWARF_5 && info[at + UNIT_TYPE] == DW_UT_type {
        TYPE_HEADER_SIZE
    } else {
        HEADER_SIZE
    }
}

// Whether a unit inside the section is too short for its header.
fn is_short(info: &[u8], at: usize, rest: u64) -> bool
    requires { at + length_size + rest ≤ length info.now }
    ensures { result ≡ (nat_lt (at + length_size + rest) (at + header_size_4)
        || nat_lt (at + length_size + rest) (at + header_size_at info.now at)) }
{
    if LENGTH_SIZE + rest < HEADER_SIZE_4 {
        return true;
    }
    LENGTH_SIZE + rest < header_size_in(info, at)
}

// The fault of a unit's length. The unit begins inside the section.
fn length_fault_in(info: &[u8], at: usize) -> Option<Fault>
    requires { at < length info.now }
    ensures fault { result ≡ first (length_rows info.now at) }
    ensures inside { IfNone result (unit_end info.now at ≤ length info.now) }
    ensures whole { IfNone result (at + header_size_at info.now at ≤ unit_end info.now at) }
    ensures least { IfNone result (at + header_size_4 ≤ unit_end info.now at) }
{
    let left = (info.len() - at) as u64;
    if left < LENGTH_SIZE {
        return Some(fault_at(FaultKind::UnitHeader, at));
    }
    let length = u32_in(info, at);
    if length == DWARF64_LENGTH {
        return Some(fault_at(FaultKind::Dwarf64, at));
    }
    if u64::from(length) > left - LENGTH_SIZE {
        return Some(fault_at(FaultKind::UnitHeader, at));
    }
    if length >= RESERVED_LENGTH {
        return Some(fault_at(FaultKind::UnitHeader, at));
    }
    if is_short(info, at, u64::from(length)) {
        return Some(fault_at(FaultKind::UnitHeader, at));
    }
    None
}

fn is_version(version: u16) -> bool
    ensures { result ≡ spec.is_version version }
{
    matches!(version, DWARF_4 | DWARF_5)
}

fn is_read_type(kind: u8) -> bool
    ensures { result ≡ spec.is_read_type kind }
{
    matches!(kind, DW_UT_compile | DW_UT_type | DW_UT_partial)
}

// The fault of a header's fields. The header is inside the section.
fn kind_fault_in(info: &[u8], at: usize) -> Option<Fault>
    requires header { at + header_size_at info.now at ≤ length info.now }
    requires least { at + header_size_4 ≤ length info.now }
    ensures fault { result ≡ first (kind_rows info.now at) }
    ensures version { IfNone result (spec.is_version (unit_version info.now at) ≡ true) }
{
    let version = u16_in(info, at + VERSION);
    if !is_version(version) {
        return Some(fault_at(FaultKind::DwarfVersion, at));
    }
    if version == DWARF_5 && !is_read_type(info[at + UNIT_TYPE]) {
        return Some(fault_at(FaultKind::UnitType, at));
    }
    let size = if version == DWARF_4 {
        info[at + ADDRESS_SIZE_4]
    } else {
        info[at + ADDRESS_SIZE]
    };
    if size != X86_64_ADDRESS_SIZE {
        return Some(fault_at(FaultKind::AddressSize, at));
    }
    None
}

/// The first fault of a unit's header. The unit begins inside the section.
#[tactic(auto, using(crate::proofs::UnitsLeft::header_fault_is))]
pub fn header_fault_in(info: &[u8], at: usize) -> Option<Fault>
    requires { at < length info.now }
    ensures fault { result ≡ header_fault info.now at }
    ensures inside { IfNone result (unit_end info.now at ≤ length info.now) }
    ensures whole { IfNone result (at + header_size_at info.now at ≤ unit_end info.now at) }
    ensures least { IfNone result (at + header_size_4 ≤ unit_end info.now at) }
{
    match length_fault_in(info, at) {
        Some(fault) => Some(fault),
        None => kind_fault_in(info, at),
    }
}

/// The offset of a unit's abbreviations in `.debug_abbrev`.
pub fn abbrevs_in(info: &[u8], at: usize) -> DebugAbbrevOffset
    requires { at + header_size_at info.now at ≤ length info.now }
    ensures { result ≡ unit_abbrevs info.now at }
{
    let place = if u16_in(info, at + VERSION) == DWARF_4 {
        at + DEBUG_ABBREV_OFFSET_4
    } else {
        at + DEBUG_ABBREV_OFFSET
    };
    DebugAbbrevOffset::new(u64::from(u32_in(info, place)))
}

/// Whether a unit is a type unit.
pub fn is_type_in(info: &[u8], at: usize) -> bool
    requires { at + header_size_4 ≤ length info.now }
    ensures { result ≡ is_type_at info.now at }
{
    u16_in(info, at + VERSION) == DWARF_5 && info[at + UNIT_TYPE] == DW_UT_type
}
