// The offsets and widths of members in their aggregates.
ghost use Rattle.std.specs.Prelude.{◌≡◌, ◌<◌, length};
ghost use Rattle.type_reach.specs.Placement.{IsNear};
ghost use Rattle.type_reach.specs.Placement as spec;

use crate::constants::BIT_LIMIT;
use crate::values::{is_there, number_at, place_of};
use abi_base::dwarf::{
    DW_AT_bit_offset, DW_AT_bit_size, DW_AT_byte_size, DW_AT_data_bit_offset,
    DW_AT_data_member_location, DW_AT_name, DW_TAG_member,
};
use dwarf_entries::Dwarf;
use dwarf_entries::laws::types_and_names_are_there;
use dwarf_tree::EntryNumber;

// The offset of a member in bytes.
#[tactic(auto, unfolding(crate::specs::Placement::byte_of))]
fn byte_of(dwarf: &Dwarf, m: EntryNumber) -> u64
    requires { m < length dwarf.now.tree.entries }
    ensures { result ≡ spec.byte_of dwarf.now m }
{
    place_of(dwarf, dwarf.attr(m, DW_AT_data_member_location)).unwrap_or(0)
}

// The size of a bit field's storage, if its type has a size.
#[tactic(auto, unfolding(crate::specs::Placement::storage_of))]
fn storage_of(dwarf: &Dwarf, m: EntryNumber, size: u64) -> u64
    requires { m < length dwarf.now.tree.entries }
    ensures { result ≡ spec.storage_of dwarf.now m size }
{
    if is_there(dwarf, m, DW_AT_byte_size) {
        number_at(dwarf, m, DW_AT_byte_size)
    } else {
        size
    }
}

/// The width of a member in bits if it is a bit field, else 0.
#[tactic(auto, unfolding(crate::specs::Placement::width_of))]
pub fn width_of(dwarf: &Dwarf, m: EntryNumber) -> u64
    requires { m < length dwarf.now.tree.entries }
    ensures { result ≡ spec.width_of dwarf.now m }
{
    number_at(dwarf, m, DW_AT_bit_size)
}

// The offset of a member in bits, from the start of its aggregate, if its type has a size in bytes. It is near 0, so that sums of
// such offsets do not overflow.
#[tactic(auto, unfolding(crate::specs::Placement::bit_of))]
pub(crate) fn bit_of(dwarf: &Dwarf, m: EntryNumber, size: u64) -> i128
    requires { m < length dwarf.now.tree.entries }
    ensures is { result ≡ spec.bit_of dwarf.now m size }
    ensures near { IsNear 1 result }
{
    if is_there(dwarf, m, DW_AT_data_bit_offset) {
        return i128::from(number_at(dwarf, m, DW_AT_data_bit_offset));
    }
    let bit = 8 * i128::from(byte_of(dwarf, m));
    if is_there(dwarf, m, DW_AT_bit_offset) {
        let end = bit + 8 * i128::from(storage_of(dwarf, m, size));
        let behind = i128::from(number_at(dwarf, m, DW_AT_bit_offset))
            + i128::from(width_of(dwarf, m));
        end - behind
    } else {
        bit
    }
}

/// Whether a bit offset is not from 0 to 2^63 - 1.
pub fn is_out_of_range(bit: i128) -> bool
    ensures { result ≡ spec.is_out_of_range bit }
{
    bit < 0 || BIT_LIMIT <= bit
}

/// Whether a member has no name, its own or inherited. For an entry with the tag of a member, no letter of the name is read.
// Such an entry has no fault, so its name attribute, if there is one, leads to a string.
#[tactic(auto, unfolding(crate::specs::Placement::is_nameless))]
pub fn is_nameless(dwarf: &Dwarf, m: EntryNumber) -> bool
    requires { m < length dwarf.now.tree.entries }
    ensures { result ≡ spec.is_nameless dwarf.now m }
{
    types_and_names_are_there();
    dwarf.known();
    if dwarf.tag(m) == DW_TAG_member {
        return !is_there(dwarf, m, DW_AT_name);
    }
    dwarf.name_of(m).is_none()
}
