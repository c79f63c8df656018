//! Attributes that no rule reads (DWARF 5, section 7.5.4 "Attribute Encodings").

/// Whether a function was declared with a prototype (section 3.3.1).
pub(crate) const DW_AT_prototyped: u64 = 0x27;

/// The address class of a pointer or a function (section 2.12).
pub(crate) const DW_AT_address_class: u64 = 0x33;

/// The calling convention of a function (section 3.3.1.1).
pub(crate) const DW_AT_calling_convention: u64 = 0x36;

/// The byte order of a base type (section 5.1).
pub(crate) const DW_AT_endianity: u64 = 0x65;

/// Whether a function never returns (section 3.3.1).
pub(crate) const DW_AT_noreturn: u64 = 0x87;
