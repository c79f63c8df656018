// The first fields of a line program header.
ghost use Rattle.std.specs.Prelude.{◌≡◌, ◌+◌, ◌^◌, ◌<◌, ◌≤◌, length, IfSome};
ghost use Rattle.dwarf_files.specs.Heads.{length_place_of, unit_end_of, lengths_of, head_of};

use abi_base::{u32_at, uint_at};

// Lengths from this value on mark the 64-bit DWARF format, or are reserved.
const RESERVED_LENGTH: u64 = 0xffff_fff0;

// Offsets of fields. That of the version counts from the start of the unit, the others from `header_length`.
const VERSION: usize = 4;

const OPCODE_BASE: usize = 9;

// The first fields: the DWARF version, the offset of the tables, and the end of the header.
#[derive(Clone, Copy)]
pub(crate) struct Head {
    pub(crate) version: u64,
    pub(crate) tables: usize,
    pub(crate) end: usize,
}

// The end of a line program's unit.
fn unit_end(line: &[u8], at: usize) -> Option<usize>
    ensures read { result ≡ unit_end_of line.now at }
    ensures inside { IfSome result (λ end. end ≤ length line.now) }
{
    match uint_at(line, at, 4) {
        Some(size) if size < RESERVED_LENGTH && size <= (line.len() - at - 4) as u64 => {
            Some(at + 4 + size as usize)
        }
        _ => None,
    }
}

// The offset of `header_length`, by version.
fn length_place(version: u64, at: usize) -> Option<usize>
    requires { at < 2 ^ 63 }
    ensures read { result ≡ length_place_of version at }
    ensures near { IfSome result (λ place. place ≤ at + 8) }
{
    match version {
        4 => Some(at + 6),
        5 => Some(at + 8),
        _ => None,
    }
}

// The offset of the tables and the end of the header, from the offset of `header_length`.
fn lengths(line: &[u8], place: usize, unit_end: usize) -> Option<(usize, usize)>
    requires inside { unit_end ≤ length line.now }
    requires near { place < 2 ^ 63 + 8 }
    ensures read { result ≡ lengths_of line.now place unit_end }
    ensures inside { IfSome result (λ r. r.1 ≤ length line.now) }
{
    let Some(size) = u32_at(line, place) else {
        return None;
    };
    let Some(opcode_base) = line.get(place + OPCODE_BASE).copied() else {
        return None;
    };
    let tables = place + OPCODE_BASE + usize::from(opcode_base);
    let end = place + 4 + size as usize;
    if 0 < opcode_base && tables <= end && end <= unit_end {
        Some((tables, end))
    } else {
        None
    }
}

// The first fields of the header at an offset in `.debug_line`.
#[tactic(auto, unfolding(crate::specs::Heads::head_of))]
pub(crate) fn head_at(line: &[u8], at: usize) -> Option<Head>
    ensures read { result ≡ head_of line.now at }
    ensures inside { IfSome result (λ h. h.end ≤ length line.now) }
{
    let Some(unit_end) = unit_end(line, at) else {
        return None;
    };
    let Some(version) = uint_at(line, at + VERSION, 2) else {
        return None;
    };
    let Some(place) = length_place(version, at) else {
        return None;
    };
    let Some((tables, end)) = lengths(line, place, unit_end) else {
        return None;
    };
    Some(Head {
        version,
        tables,
        end,
    })
}
