// The tags of the entries that this crate supports.
ghost use Rattle.std.specs.Prelude.{◌≡◌};
ghost use Rattle.dwarf_entries.specs.Chains as spec;

use abi_base::dwarf::{
    DW_TAG_array_type, DW_TAG_atomic_type, DW_TAG_base_type, DW_TAG_compile_unit,
    DW_TAG_const_type, DW_TAG_enumeration_type, DW_TAG_enumerator, DW_TAG_formal_parameter,
    DW_TAG_member, DW_TAG_partial_unit, DW_TAG_pointer_type, DW_TAG_restrict_type,
    DW_TAG_structure_type, DW_TAG_subprogram, DW_TAG_subrange_type, DW_TAG_subroutine_type,
    DW_TAG_type_unit, DW_TAG_typedef, DW_TAG_union_type, DW_TAG_unspecified_parameters,
    DW_TAG_variable, DW_TAG_volatile_type,
};

// Whether this crate supports entries with a tag.
#[inline(always)]
#[tactic(auto, unfolding(crate::specs::Chains::is_read_tag))]
pub(crate) fn is_read_tag(tag: u64) -> bool
    ensures { result ≡ spec.is_read_tag tag }
{
    matches!(
        tag,
        DW_TAG_array_type
            | DW_TAG_enumeration_type
            | DW_TAG_formal_parameter
            | DW_TAG_member
            | DW_TAG_pointer_type
            | DW_TAG_compile_unit
            | DW_TAG_structure_type
            | DW_TAG_subroutine_type
            | DW_TAG_typedef
            | DW_TAG_union_type
            | DW_TAG_unspecified_parameters
            | DW_TAG_subrange_type
            | DW_TAG_base_type
            | DW_TAG_const_type
            | DW_TAG_enumerator
            | DW_TAG_subprogram
            | DW_TAG_variable
            | DW_TAG_volatile_type
            | DW_TAG_restrict_type
            | DW_TAG_partial_unit
            | DW_TAG_type_unit
            | DW_TAG_atomic_type
    )
}
