// Laws: the constants of the code are those of the standards, which the tables in `specs/` give.
ghost use Rattle.std.specs.Prelude.{◌≡◌};
ghost use Rattle.abi_base.specs.Dwarf.{dw_form_addr, dw_form_block2, dw_form_block4, dw_form_data2, dw_form_data4, dw_form_data8, dw_form_string, dw_form_block, dw_form_block1, dw_form_data1, dw_form_flag, dw_form_sdata, dw_form_strp, dw_form_udata, dw_form_ref_addr, dw_form_ref1, dw_form_ref2, dw_form_ref4, dw_form_ref8, dw_form_ref_udata, dw_form_indirect, dw_form_sec_offset, dw_form_exprloc, dw_form_flag_present, dw_form_strx, dw_form_addrx, dw_form_ref_sup4, dw_form_strp_sup, dw_form_data16, dw_form_line_strp, dw_form_ref_sig8, dw_form_implicit_const, dw_form_loclistx, dw_form_rnglistx, dw_form_ref_sup8, dw_form_strx1, dw_form_strx2, dw_form_strx3, dw_form_strx4, dw_form_addrx1, dw_form_addrx2, dw_form_addrx3, dw_form_addrx4, dw_form_gnu_ref_alt, dw_form_gnu_strp_alt, dw_tag_array_type, dw_tag_enumeration_type, dw_tag_formal_parameter, dw_tag_member, dw_tag_pointer_type, dw_tag_compile_unit, dw_tag_structure_type, dw_tag_subroutine_type, dw_tag_typedef, dw_tag_union_type, dw_tag_unspecified_parameters, dw_tag_subrange_type, dw_tag_base_type, dw_tag_const_type, dw_tag_enumerator, dw_tag_subprogram, dw_tag_variable, dw_tag_volatile_type, dw_tag_restrict_type, dw_tag_partial_unit, dw_tag_type_unit, dw_tag_atomic_type, dw_at_location, dw_at_name, dw_at_byte_size, dw_at_bit_offset, dw_at_bit_size, dw_at_low_pc, dw_at_language, dw_at_const_value, dw_at_upper_bound, dw_at_abstract_origin, dw_at_count, dw_at_data_member_location, dw_at_declaration, dw_at_encoding, dw_at_specification, dw_at_type, dw_at_entry_pc, dw_at_ranges, dw_at_signature, dw_at_data_bit_offset, dw_at_str_offsets_base, dw_at_addr_base, dw_at_rnglists_base, dw_at_alignment, dw_at_gnu_vector, dw_lang_c89, dw_lang_c, dw_lang_c99, dw_lang_c11, dw_lang_c17, dw_lang_mips_assembler, dw_ut_compile, dw_ut_type, dw_ut_partial, dw_children_no, dw_children_yes, dw_ate_boolean, dw_ate_complex_float, dw_ate_float, dw_ate_signed, dw_ate_signed_char, dw_ate_unsigned, dw_ate_unsigned_char, dw_ate_decimal_float, dw_ate_utf, dw_op_plus_uconst};
ghost use Rattle.abi_base.specs.Limits.{input_limit};

use crate::INPUT_LIMIT;
use crate::dwarf::*;

/// The limit on inputs is the one in the definitions.
pub fn the_limit_of_inputs_is_as_said()
    ensures { INPUT_LIMIT ≡ input_limit }
{}

/// Each form has its code of DWARF 5, section 7.5.6 "Form Encodings", and each GNU form that of GNU.
pub fn forms_have_their_numbers()
    ensures { (DW_FORM_addr ≡ dw_form_addr)
        × (DW_FORM_block2 ≡ dw_form_block2)
        × (DW_FORM_block4 ≡ dw_form_block4)
        × (DW_FORM_data2 ≡ dw_form_data2)
        × (DW_FORM_data4 ≡ dw_form_data4)
        × (DW_FORM_data8 ≡ dw_form_data8)
        × (DW_FORM_string ≡ dw_form_string)
        × (DW_FORM_block ≡ dw_form_block)
        × (DW_FORM_block1 ≡ dw_form_block1)
        × (DW_FORM_data1 ≡ dw_form_data1)
        × (DW_FORM_flag ≡ dw_form_flag)
        × (DW_FORM_sdata ≡ dw_form_sdata)
        × (DW_FORM_strp ≡ dw_form_strp)
        × (DW_FORM_udata ≡ dw_form_udata)
        × (DW_FORM_ref_addr ≡ dw_form_ref_addr)
        × (DW_FORM_ref1 ≡ dw_form_ref1)
        × (DW_FORM_ref2 ≡ dw_form_ref2)
        × (DW_FORM_ref4 ≡ dw_form_ref4)
        × (DW_FORM_ref8 ≡ dw_form_ref8)
        × (DW_FORM_ref_udata ≡ dw_form_ref_udata)
        × (DW_FORM_indirect ≡ dw_form_indirect)
        × (DW_FORM_sec_offset ≡ dw_form_sec_offset)
        × (DW_FORM_exprloc ≡ dw_form_exprloc)
        × (DW_FORM_flag_present ≡ dw_form_flag_present)
        × (DW_FORM_strx ≡ dw_form_strx)
        × (DW_FORM_addrx ≡ dw_form_addrx)
        × (DW_FORM_ref_sup4 ≡ dw_form_ref_sup4)
        × (DW_FORM_strp_sup ≡ dw_form_strp_sup)
        × (DW_FORM_data16 ≡ dw_form_data16)
        × (DW_FORM_line_strp ≡ dw_form_line_strp)
        × (DW_FORM_ref_sig8 ≡ dw_form_ref_sig8)
        × (DW_FORM_implicit_const ≡ dw_form_implicit_const)
        × (DW_FORM_loclistx ≡ dw_form_loclistx)
        × (DW_FORM_rnglistx ≡ dw_form_rnglistx)
        × (DW_FORM_ref_sup8 ≡ dw_form_ref_sup8)
        × (DW_FORM_strx1 ≡ dw_form_strx1)
        × (DW_FORM_strx2 ≡ dw_form_strx2)
        × (DW_FORM_strx3 ≡ dw_form_strx3)
        × (DW_FORM_strx4 ≡ dw_form_strx4)
        × (DW_FORM_addrx1 ≡ dw_form_addrx1)
        × (DW_FORM_addrx2 ≡ dw_form_addrx2)
        × (DW_FORM_addrx3 ≡ dw_form_addrx3)
        × (DW_FORM_addrx4 ≡ dw_form_addrx4)
        × (DW_FORM_GNU_ref_alt ≡ dw_form_gnu_ref_alt)
        × (DW_FORM_GNU_strp_alt ≡ dw_form_gnu_strp_alt) }
{}

/// Each tag has its code of DWARF 5, section 7.5.3 "Abbreviations Tables".
pub fn tags_have_their_numbers()
    ensures { (DW_TAG_array_type ≡ dw_tag_array_type)
        × (DW_TAG_enumeration_type ≡ dw_tag_enumeration_type)
        × (DW_TAG_formal_parameter ≡ dw_tag_formal_parameter)
        × (DW_TAG_member ≡ dw_tag_member)
        × (DW_TAG_pointer_type ≡ dw_tag_pointer_type)
        × (DW_TAG_compile_unit ≡ dw_tag_compile_unit)
        × (DW_TAG_structure_type ≡ dw_tag_structure_type)
        × (DW_TAG_subroutine_type ≡ dw_tag_subroutine_type)
        × (DW_TAG_typedef ≡ dw_tag_typedef)
        × (DW_TAG_union_type ≡ dw_tag_union_type)
        × (DW_TAG_unspecified_parameters ≡ dw_tag_unspecified_parameters)
        × (DW_TAG_subrange_type ≡ dw_tag_subrange_type)
        × (DW_TAG_base_type ≡ dw_tag_base_type)
        × (DW_TAG_const_type ≡ dw_tag_const_type)
        × (DW_TAG_enumerator ≡ dw_tag_enumerator)
        × (DW_TAG_subprogram ≡ dw_tag_subprogram)
        × (DW_TAG_variable ≡ dw_tag_variable)
        × (DW_TAG_volatile_type ≡ dw_tag_volatile_type)
        × (DW_TAG_restrict_type ≡ dw_tag_restrict_type)
        × (DW_TAG_partial_unit ≡ dw_tag_partial_unit)
        × (DW_TAG_type_unit ≡ dw_tag_type_unit)
        × (DW_TAG_atomic_type ≡ dw_tag_atomic_type) }
{}

/// Each attribute has its code of DWARF 5, section 7.5.4 "Attribute Encodings", and that of GNU its own.
pub fn attributes_have_their_numbers()
    ensures { (DW_AT_location ≡ dw_at_location)
        × (DW_AT_name ≡ dw_at_name)
        × (DW_AT_byte_size ≡ dw_at_byte_size)
        × (DW_AT_bit_offset ≡ dw_at_bit_offset)
        × (DW_AT_bit_size ≡ dw_at_bit_size)
        × (DW_AT_low_pc ≡ dw_at_low_pc)
        × (DW_AT_language ≡ dw_at_language)
        × (DW_AT_const_value ≡ dw_at_const_value)
        × (DW_AT_upper_bound ≡ dw_at_upper_bound)
        × (DW_AT_abstract_origin ≡ dw_at_abstract_origin)
        × (DW_AT_count ≡ dw_at_count)
        × (DW_AT_data_member_location ≡ dw_at_data_member_location)
        × (DW_AT_declaration ≡ dw_at_declaration)
        × (DW_AT_encoding ≡ dw_at_encoding)
        × (DW_AT_specification ≡ dw_at_specification)
        × (DW_AT_type ≡ dw_at_type)
        × (DW_AT_entry_pc ≡ dw_at_entry_pc)
        × (DW_AT_ranges ≡ dw_at_ranges)
        × (DW_AT_signature ≡ dw_at_signature)
        × (DW_AT_data_bit_offset ≡ dw_at_data_bit_offset)
        × (DW_AT_str_offsets_base ≡ dw_at_str_offsets_base)
        × (DW_AT_addr_base ≡ dw_at_addr_base)
        × (DW_AT_rnglists_base ≡ dw_at_rnglists_base)
        × (DW_AT_alignment ≡ dw_at_alignment)
        × (DW_AT_GNU_vector ≡ dw_at_gnu_vector) }
{}

/// Each language has its code of DWARF 5, section 7.12 "Source Languages", or of the later list of language codes.
pub fn languages_have_their_numbers()
    ensures { (DW_LANG_C89 ≡ dw_lang_c89)
        × (DW_LANG_C ≡ dw_lang_c)
        × (DW_LANG_C99 ≡ dw_lang_c99)
        × (DW_LANG_C11 ≡ dw_lang_c11)
        × (DW_LANG_C17 ≡ dw_lang_c17)
        × (DW_LANG_Mips_Assembler ≡ dw_lang_mips_assembler) }
{}

/// Each unit type has its code of DWARF 5, section 7.5.1 "Unit Headers".
pub fn unit_types_have_their_numbers()
    ensures { (DW_UT_compile ≡ dw_ut_compile)
        × (DW_UT_type ≡ dw_ut_type)
        × (DW_UT_partial ≡ dw_ut_partial) }
{}

/// The codes for entries with and without children are those of DWARF 5, section 7.5.3 "Abbreviations Tables".
pub fn children_have_their_numbers()
    ensures { (DW_CHILDREN_no ≡ dw_children_no)
        × (DW_CHILDREN_yes ≡ dw_children_yes) }
{}

/// Each encoding of a base type has its code of DWARF 5, section 7.8 "Base Type Attribute Encodings".
pub fn encodings_have_their_numbers()
    ensures { (DW_ATE_boolean ≡ dw_ate_boolean)
        × (DW_ATE_complex_float ≡ dw_ate_complex_float)
        × (DW_ATE_float ≡ dw_ate_float)
        × (DW_ATE_signed ≡ dw_ate_signed)
        × (DW_ATE_signed_char ≡ dw_ate_signed_char)
        × (DW_ATE_unsigned ≡ dw_ate_unsigned)
        × (DW_ATE_unsigned_char ≡ dw_ate_unsigned_char)
        × (DW_ATE_decimal_float ≡ dw_ate_decimal_float)
        × (DW_ATE_UTF ≡ dw_ate_utf) }
{}

/// `DW_OP_plus_uconst` has its code of DWARF 5, section 7.7.1 "DWARF Expressions".
pub fn operations_have_their_numbers()
    ensures { DW_OP_plus_uconst ≡ dw_op_plus_uconst }
{}
