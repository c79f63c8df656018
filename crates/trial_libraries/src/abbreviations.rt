// The abbreviation table of a generated library, which all its units share.
ghost use Rattle.std.specs.Prelude.{◌≡◌};
ghost use Rattle.trial_libraries.specs.Abbreviations.{abbreviations};

use abi_base::dwarf::{
    DW_AT_byte_size, DW_AT_data_member_location, DW_AT_encoding, DW_AT_language, DW_AT_low_pc,
    DW_AT_name, DW_AT_type, DW_CHILDREN_no, DW_CHILDREN_yes, DW_FORM_addr, DW_FORM_data1,
    DW_FORM_data2, DW_FORM_ref4, DW_FORM_string, DW_TAG_base_type, DW_TAG_compile_unit,
    DW_TAG_formal_parameter, DW_TAG_member, DW_TAG_pointer_type, DW_TAG_structure_type,
    DW_TAG_subprogram,
};

// The abbreviation codes.
pub(crate) const UNIT: u8 = 1;

pub(crate) const BASE: u8 = 2;

pub(crate) const POINTER: u8 = 3;

pub(crate) const STRUCTURE: u8 = 4;

pub(crate) const MEMBER: u8 = 5;

pub(crate) const FUNCTION: u8 = 6;

pub(crate) const PARAMETER: u8 = 7;

// Two zeros end the attribute specifications of an abbreviation, and another one ends the table.
const TABLE: [u8; 66] = [
    UNIT,
    DW_TAG_compile_unit as u8,
    DW_CHILDREN_yes,
    DW_AT_language as u8,
    DW_FORM_data2 as u8,
    0,
    0,
    //
    BASE,
    DW_TAG_base_type as u8,
    DW_CHILDREN_no,
    DW_AT_byte_size as u8,
    DW_FORM_data1 as u8,
    DW_AT_encoding as u8,
    DW_FORM_data1 as u8,
    DW_AT_name as u8,
    DW_FORM_string as u8,
    0,
    0,
    //
    POINTER,
    DW_TAG_pointer_type as u8,
    DW_CHILDREN_no,
    DW_AT_byte_size as u8,
    DW_FORM_data1 as u8,
    DW_AT_type as u8,
    DW_FORM_ref4 as u8,
    0,
    0,
    //
    STRUCTURE,
    DW_TAG_structure_type as u8,
    DW_CHILDREN_yes,
    DW_AT_name as u8,
    DW_FORM_string as u8,
    DW_AT_byte_size as u8,
    DW_FORM_data1 as u8,
    0,
    0,
    //
    MEMBER,
    DW_TAG_member as u8,
    DW_CHILDREN_no,
    DW_AT_name as u8,
    DW_FORM_string as u8,
    DW_AT_type as u8,
    DW_FORM_ref4 as u8,
    DW_AT_data_member_location as u8,
    DW_FORM_data1 as u8,
    0,
    0,
    //
    FUNCTION,
    DW_TAG_subprogram as u8,
    DW_CHILDREN_yes,
    DW_AT_name as u8,
    DW_FORM_string as u8,
    DW_AT_type as u8,
    DW_FORM_ref4 as u8,
    DW_AT_low_pc as u8,
    DW_FORM_addr as u8,
    0,
    0,
    //
    PARAMETER,
    DW_TAG_formal_parameter as u8,
    DW_CHILDREN_no,
    DW_AT_type as u8,
    DW_FORM_ref4 as u8,
    0,
    0,
    //
    0,
];

// The abbreviation table.
pub(crate) fn abbreviation_table() -> &'static [u8]
    ensures { result.now ≡ abbreviations }
{
    &TABLE
}
