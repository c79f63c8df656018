// The texts of the positions of members, in bytes or in bits.
ghost use Rattle.std.specs.Prelude.{◌≡◌, ◌<◌, ◌++◌, length, OnOk, string_bytes};
ghost use Rattle.type_reach.specs.Placement as placement;
ghost use Rattle.type_notes.specs.MemberPlaces as spec;

use crate::chain::core_of_type;
use abi_base::dwarf::{
    DW_AT_bit_offset, DW_AT_bit_size, DW_AT_byte_size, DW_AT_data_bit_offset,
    DW_AT_data_member_location,
};
use dwarf_entries::Dwarf;
use dwarf_tree::EntryNumber;
use std::alloc::AllocError;
use std::fmt::Write;
use type_reach::{is_there, number_at, place_of, width_of};

// The byte at which a member begins.
#[tactic(auto, unfolding(type_reach::specs::Placement::byte_of))]
fn byte_of(dwarf: &Dwarf, m: EntryNumber) -> u64
    requires { m < length dwarf.now.tree.entries }
    ensures { result ≡ placement.byte_of dwarf.now m }
{
    place_of(dwarf, dwarf.attr(m, DW_AT_data_member_location)).unwrap_or(0)
}

// The size of a member's type; 0 for void.
fn type_size(dwarf: &Dwarf, m: EntryNumber) -> u64
    requires { m < length dwarf.now.tree.entries }
    ensures { result ≡ spec.type_size dwarf.now.tree m }
{
    match core_of_type(dwarf, m) {
        Some(core) => number_at(dwarf, core, DW_AT_byte_size),
        None => 0,
    }
}

// The size of a bit field's storage unit.
#[tactic(auto, unfolding(type_reach::specs::Placement::storage_of))]
fn storage_of(dwarf: &Dwarf, m: EntryNumber) -> u64
    requires { m < length dwarf.now.tree.entries }
    ensures { result ≡ placement.storage_of dwarf.now m (spec.type_size dwarf.now.tree m) }
{
    if is_there(dwarf, m, DW_AT_byte_size) {
        number_at(dwarf, m, DW_AT_byte_size)
    } else {
        type_size(dwarf, m)
    }
}

// The bit at which a member begins, from the beginning of its aggregate.
#[tactic(auto, unfolding(type_reach::specs::Placement::bit_of))]
fn first_bit(dwarf: &Dwarf, m: EntryNumber) -> i128
    requires { m < length dwarf.now.tree.entries }
    ensures { result ≡ spec.first_bit dwarf.now m }
{
    if is_there(dwarf, m, DW_AT_data_bit_offset) {
        return i128::from(number_at(dwarf, m, DW_AT_data_bit_offset));
    }
    let bit = 8 * i128::from(byte_of(dwarf, m));
    if is_there(dwarf, m, DW_AT_bit_offset) {
        let end = bit + 8 * i128::from(storage_of(dwarf, m));
        let behind = i128::from(number_at(dwarf, m, DW_AT_bit_offset))
            + i128::from(width_of(dwarf, m));
        end - behind
    } else {
        bit
    }
}

// Whether an entry states the bits of a member.
fn has_bits(dwarf: &Dwarf, m: EntryNumber) -> bool
    requires { m < length dwarf.now.tree.entries }
    ensures { result ≡ spec.has_bits dwarf.now.tree m }
{
    is_there(dwarf, m, DW_AT_bit_size)
        || is_there(dwarf, m, DW_AT_data_bit_offset)
        || is_there(dwarf, m, DW_AT_bit_offset)
}

// Appends the byte at which a member begins.
fn push_byte(text: &mut String, byte: u64) -> Result<(), AllocError>
    ensures { OnOk result (string_bytes text.new ≡ string_bytes text.old ++ spec.byte_words byte) }
{
    write!(text, " at byte {byte}")
}

// Appends the bit at which a member begins.
fn push_bit(text: &mut String, bit: i128) -> Result<(), AllocError>
    ensures { OnOk result (string_bytes text.new ≡ string_bytes text.old ++ spec.bit_words bit) }
{
    write!(text, " at bit {bit}")
}

// Appends where a member begins.
fn push_begin(text: &mut String, dwarf: &Dwarf, m: EntryNumber) -> Result<(), AllocError>
    requires { m < length dwarf.now.tree.entries }
    ensures { OnOk result (string_bytes text.new ≡ string_bytes text.old ++ spec.begin_text dwarf.now m) }
{
    if has_bits(dwarf, m) {
        push_bit(text, first_bit(dwarf, m))
    } else {
        push_byte(text, byte_of(dwarf, m))
    }
}

/// Appends the position of a member, and the width of a bit field.
#[tactic(auto, unfolding(crate::specs::MemberPlaces::place_text))]
pub(crate) fn push_place(text: &mut String, dwarf: &Dwarf, m: EntryNumber) -> Result<(), AllocError>
    requires { m < length dwarf.now.tree.entries }
    ensures { OnOk result (string_bytes text.new ≡ string_bytes text.old ++ spec.place_text dwarf.now m) }
{
    push_begin(text, dwarf, m)?;
    let width = width_of(dwarf, m);
    if width == 0 {
        return Ok(());
    }
    write!(text, ", width {width}")
}
