// The attributes that readers of entries use.
ghost use Rattle.std.specs.Prelude.{◌≡◌, ◌<◌, false, true};
ghost use Rattle.dwarf_tree.specs.Keeping.{IsAsked};
ghost use Rattle.dwarf_tree.specs.Keeping as spec;

use abi_base::dwarf::{
    DW_AT_GNU_vector, DW_AT_abstract_origin, DW_AT_addr_base, DW_AT_alignment, DW_AT_bit_offset,
    DW_AT_bit_size, DW_AT_byte_size, DW_AT_const_value, DW_AT_count, DW_AT_data_bit_offset,
    DW_AT_data_member_location, DW_AT_declaration, DW_AT_encoding, DW_AT_entry_pc, DW_AT_language,
    DW_AT_location, DW_AT_low_pc, DW_AT_name, DW_AT_ranges, DW_AT_rnglists_base, DW_AT_signature,
    DW_AT_specification, DW_AT_str_offsets_base, DW_AT_type, DW_AT_upper_bound,
};

// The bit that all attributes share that readers do not use.
const OTHER_NAMES: u32 = 63;

// The bit of an attribute. Each attribute that readers use has its own bit. All others share one, so that none of them sets the bit
// of a used attribute.
#[inline(always)]
#[tactic(auto, unfolding(crate::specs::Keeping::bit_of, crate::specs::Keeping::own_bits))]
pub(crate) fn bit_of(name: u64) -> u32
    ensures is { result ≡ spec.bit_of name }
    ensures small { result < 64 }
{
    match name {
        DW_AT_location => 0,
        DW_AT_name => 1,
        DW_AT_byte_size => 2,
        DW_AT_bit_offset => 3,
        DW_AT_bit_size => 4,
        DW_AT_low_pc => 5,
        DW_AT_language => 6,
        DW_AT_const_value => 7,
        DW_AT_upper_bound => 8,
        DW_AT_abstract_origin => 9,
        DW_AT_count => 10,
        DW_AT_data_member_location => 11,
        DW_AT_declaration => 12,
        DW_AT_encoding => 13,
        DW_AT_specification => 14,
        DW_AT_type => 15,
        DW_AT_entry_pc => 16,
        DW_AT_ranges => 17,
        DW_AT_signature => 18,
        DW_AT_data_bit_offset => 19,
        DW_AT_str_offsets_base => 20,
        DW_AT_addr_base => 21,
        DW_AT_rnglists_base => 22,
        DW_AT_alignment => 23,
        DW_AT_GNU_vector => 24,
        _ => OTHER_NAMES,
    }
}

// Whether readers of entries use an attribute.
#[inline(always)]
pub(crate) fn is_asked(name: u64) -> bool
    ensures asked { result ≡ true → IsAsked name }
    ensures other { result ≡ false → spec.bit_of name ≡ 63 }
{
    bit_of(name) != OTHER_NAMES
}
