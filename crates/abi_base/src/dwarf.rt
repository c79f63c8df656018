//! The constants of DWARF 5 that the readers use, under their standard names (section 7 "Data Representation"), with
//! some of DWARF 4, of the later list of language codes, and of GNU extensions.

// Forms of attribute values (section 7.5.6 "Form Encodings").

/// An address. The unit header gives its size.
pub const DW_FORM_addr: u64 = 0x01;

/// A block, after its length in two bytes.
pub const DW_FORM_block2: u64 = 0x03;

/// A block, after its length in four bytes.
pub const DW_FORM_block4: u64 = 0x04;

/// A number of two bytes.
pub const DW_FORM_data2: u64 = 0x05;

/// A number of four bytes.
pub const DW_FORM_data4: u64 = 0x06;

/// A number of eight bytes.
pub const DW_FORM_data8: u64 = 0x07;

/// A string in place, up to a zero byte.
pub const DW_FORM_string: u64 = 0x08;

/// A block, after its length as an unsigned LEB128.
pub const DW_FORM_block: u64 = 0x09;

/// A block, after its length in one byte.
pub const DW_FORM_block1: u64 = 0x0a;

/// A number of one byte.
pub const DW_FORM_data1: u64 = 0x0b;

/// A flag of one byte, where 0 means no.
pub const DW_FORM_flag: u64 = 0x0c;

/// A number as a signed LEB128.
pub const DW_FORM_sdata: u64 = 0x0d;

/// The offset of a string in `.debug_str`.
pub const DW_FORM_strp: u64 = 0x0e;

/// A number as an unsigned LEB128.
pub const DW_FORM_udata: u64 = 0x0f;

/// An entry of any unit, by its offset in `.debug_info`.
pub const DW_FORM_ref_addr: u64 = 0x10;

/// An entry of the same unit, by its one-byte offset from the unit's first byte.
pub const DW_FORM_ref1: u64 = 0x11;

/// An entry of the same unit, by its two-byte offset in the unit.
pub const DW_FORM_ref2: u64 = 0x12;

/// An entry of the same unit, by its four-byte offset in the unit.
pub const DW_FORM_ref4: u64 = 0x13;

/// An entry of the same unit, by its eight-byte offset in the unit.
pub const DW_FORM_ref8: u64 = 0x14;

/// An entry of the same unit, by its offset in the unit as an unsigned LEB128.
pub const DW_FORM_ref_udata: u64 = 0x15;

/// The form is an unsigned LEB128 before the value.
pub const DW_FORM_indirect: u64 = 0x16;

/// An offset into another section.
pub const DW_FORM_sec_offset: u64 = 0x17;

/// An expression, after its length as an unsigned LEB128.
pub const DW_FORM_exprloc: u64 = 0x18;

/// A flag that is set and takes no byte.
pub const DW_FORM_flag_present: u64 = 0x19;

/// A string, by its index in `.debug_str_offsets` as an unsigned LEB128.
pub const DW_FORM_strx: u64 = 0x1a;

/// An address, by its index in `.debug_addr` as an unsigned LEB128.
pub const DW_FORM_addrx: u64 = 0x1b;

/// An entry of the supplementary file, by its four-byte offset.
pub const DW_FORM_ref_sup4: u64 = 0x1c;

/// The offset of a string in the supplementary file's `.debug_str`.
pub const DW_FORM_strp_sup: u64 = 0x1d;

/// Sixteen bytes.
pub const DW_FORM_data16: u64 = 0x1e;

/// The offset of a string in `.debug_line_str`.
pub const DW_FORM_line_strp: u64 = 0x1f;

/// A type unit, by its eight-byte signature.
pub const DW_FORM_ref_sig8: u64 = 0x20;

/// A number in the abbreviation, which takes no byte of the entry.
pub const DW_FORM_implicit_const: u64 = 0x21;

/// A location list, by its index as an unsigned LEB128.
pub const DW_FORM_loclistx: u64 = 0x22;

/// A range list, by its index as an unsigned LEB128.
pub const DW_FORM_rnglistx: u64 = 0x23;

/// An entry of the supplementary file, by its eight-byte offset.
pub const DW_FORM_ref_sup8: u64 = 0x24;

/// A string, by its one-byte index in `.debug_str_offsets`.
pub const DW_FORM_strx1: u64 = 0x25;

/// A string, by its two-byte index in `.debug_str_offsets`.
pub const DW_FORM_strx2: u64 = 0x26;

/// A string, by its three-byte index in `.debug_str_offsets`.
pub const DW_FORM_strx3: u64 = 0x27;

/// A string, by its four-byte index in `.debug_str_offsets`.
pub const DW_FORM_strx4: u64 = 0x28;

/// An address, by its one-byte index in `.debug_addr`.
pub const DW_FORM_addrx1: u64 = 0x29;

/// An address, by its two-byte index in `.debug_addr`.
pub const DW_FORM_addrx2: u64 = 0x2a;

/// An address, by its three-byte index in `.debug_addr`.
pub const DW_FORM_addrx3: u64 = 0x2b;

/// An address, by its four-byte index in `.debug_addr`.
pub const DW_FORM_addrx4: u64 = 0x2c;

/// An entry of the supplementary file that `dwz` writes, by its offset there (GNU extension).
pub const DW_FORM_GNU_ref_alt: u64 = 0x1f20;

/// The offset of a string in `.debug_str` of the supplementary file that `dwz` writes (GNU extension).
pub const DW_FORM_GNU_strp_alt: u64 = 0x1f21;

// Tags of entries (section 7.5.3 "Abbreviations Tables").

/// An array, whose dimensions are its children.
pub const DW_TAG_array_type: u64 = 0x01;

/// An enumeration, whose enumerators are its children.
pub const DW_TAG_enumeration_type: u64 = 0x04;

/// A parameter of a function.
pub const DW_TAG_formal_parameter: u64 = 0x05;

/// A member of a structure or of a union.
pub const DW_TAG_member: u64 = 0x0d;

/// A pointer.
pub const DW_TAG_pointer_type: u64 = 0x0f;

/// The root of a compilation unit.
pub const DW_TAG_compile_unit: u64 = 0x11;

/// A structure, whose members are its children.
pub const DW_TAG_structure_type: u64 = 0x13;

/// The type of a function.
pub const DW_TAG_subroutine_type: u64 = 0x15;

/// A typedef.
pub const DW_TAG_typedef: u64 = 0x16;

/// A union, whose members are its children.
pub const DW_TAG_union_type: u64 = 0x17;

/// Variable arguments after the parameters, `...` in C.
pub const DW_TAG_unspecified_parameters: u64 = 0x18;

/// A dimension of an array.
pub const DW_TAG_subrange_type: u64 = 0x21;

/// A built-in type of the language.
pub const DW_TAG_base_type: u64 = 0x24;

/// A type qualified by `const`.
pub const DW_TAG_const_type: u64 = 0x26;

/// An enumerator.
pub const DW_TAG_enumerator: u64 = 0x28;

/// A function.
pub const DW_TAG_subprogram: u64 = 0x2e;

/// A variable.
pub const DW_TAG_variable: u64 = 0x34;

/// A type qualified by `volatile`.
pub const DW_TAG_volatile_type: u64 = 0x35;

/// A pointer qualified by `restrict`.
pub const DW_TAG_restrict_type: u64 = 0x37;

/// The root of a partial unit, which other units import.
pub const DW_TAG_partial_unit: u64 = 0x3c;

/// The root of a type unit.
pub const DW_TAG_type_unit: u64 = 0x41;

/// A type qualified by `_Atomic`.
pub const DW_TAG_atomic_type: u64 = 0x47;

// Attributes (section 7.5.4 "Attribute Encodings").

/// Where a variable or a parameter is.
pub const DW_AT_location: u64 = 0x02;

/// The name in the source.
pub const DW_AT_name: u64 = 0x03;

/// The size of a type in bytes.
pub const DW_AT_byte_size: u64 = 0x0b;

/// The offset of a bit field in bits, from the most significant bit of its storage (DWARF 3).
pub const DW_AT_bit_offset: u64 = 0x0c;

/// The size of a bit field or a type in bits.
pub const DW_AT_bit_size: u64 = 0x0d;

/// The first address of the code.
pub const DW_AT_low_pc: u64 = 0x11;

/// The language of the source.
pub const DW_AT_language: u64 = 0x13;

/// The value of an enumerator or of a constant.
pub const DW_AT_const_value: u64 = 0x1c;

/// The upper bound of a dimension.
pub const DW_AT_upper_bound: u64 = 0x2f;

/// The abstract entry of which an inlined or cloned entry is an instance.
pub const DW_AT_abstract_origin: u64 = 0x31;

/// The number of elements of a dimension.
pub const DW_AT_count: u64 = 0x37;

/// The offset of a member in bytes, from the start of the aggregate.
pub const DW_AT_data_member_location: u64 = 0x38;

/// Whether the entry is a declaration whose definition is elsewhere.
pub const DW_AT_declaration: u64 = 0x3c;

/// The encoding of a base type.
pub const DW_AT_encoding: u64 = 0x3e;

/// The declaration that an entry completes.
pub const DW_AT_specification: u64 = 0x47;

/// The type of the entity that the entry describes.
pub const DW_AT_type: u64 = 0x49;

/// The address at which a function is entered.
pub const DW_AT_entry_pc: u64 = 0x52;

/// The address ranges of the code.
pub const DW_AT_ranges: u64 = 0x55;

/// The signature of the type unit that describes the type.
pub const DW_AT_signature: u64 = 0x69;

/// The offset of a member in bits, from the start of the aggregate.
pub const DW_AT_data_bit_offset: u64 = 0x6b;

/// The offset of the unit's string offsets in `.debug_str_offsets`.
pub const DW_AT_str_offsets_base: u64 = 0x72;

/// The offset of the unit's addresses in `.debug_addr`.
pub const DW_AT_addr_base: u64 = 0x73;

/// The offset of the unit's range list offsets in `.debug_rnglists`.
pub const DW_AT_rnglists_base: u64 = 0x74;

/// The alignment that the declaration requests, in bytes.
pub const DW_AT_alignment: u64 = 0x88;

/// Whether an array is a vector type (GNU extension).
pub const DW_AT_GNU_vector: u64 = 0x2107;

// The supported languages (section 7.12 "Source Languages"): C, and assembler under the code that binutils writes.

/// C89.
pub const DW_LANG_C89: u64 = 0x0001;

/// C before the standard (K&R).
pub const DW_LANG_C: u64 = 0x0002;

/// C99.
pub const DW_LANG_C99: u64 = 0x000c;

/// C11.
pub const DW_LANG_C11: u64 = 0x001d;

/// C17 (from the list of language codes published after DWARF 5).
pub const DW_LANG_C17: u64 = 0x002c;

/// Assembler.
pub const DW_LANG_Mips_Assembler: u64 = 0x8001;

// The supported unit types (section 7.5.1 "Unit Headers").

/// A compilation unit.
pub const DW_UT_compile: u8 = 0x01;

/// A type unit.
pub const DW_UT_type: u8 = 0x02;

/// A partial unit.
pub const DW_UT_partial: u8 = 0x03;

// Whether entries of an abbreviation have children (section 7.5.3).

/// An entry without children.
pub const DW_CHILDREN_no: u8 = 0x00;

/// An entry with children.
pub const DW_CHILDREN_yes: u8 = 0x01;

// Encodings of base types (section 7.8 "Base Type Attribute Encodings").

/// A Boolean.
pub const DW_ATE_boolean: u64 = 0x02;

/// A complex number of binary floating-point numbers.
pub const DW_ATE_complex_float: u64 = 0x03;

/// A binary floating-point number.
pub const DW_ATE_float: u64 = 0x04;

/// A signed integer.
pub const DW_ATE_signed: u64 = 0x05;

/// A signed character.
pub const DW_ATE_signed_char: u64 = 0x06;

/// An unsigned integer.
pub const DW_ATE_unsigned: u64 = 0x07;

/// An unsigned character.
pub const DW_ATE_unsigned_char: u64 = 0x08;

/// A decimal floating-point number.
pub const DW_ATE_decimal_float: u64 = 0x0f;

/// A Unicode character.
pub const DW_ATE_UTF: u64 = 0x10;

// The operation of a member's location (section 7.7.1 "DWARF Expressions").

/// Adds its operand, an unsigned LEB128, to the address on the stack.
pub const DW_OP_plus_uconst: u8 = 0x23;
