// The values of attributes.
ghost use Rattle.std.specs.Prelude.{◌≡◌};
ghost use Rattle.dwarf_forms.specs.Constants.{number_of, word_of, count_up_to_of, flag_holds};

use crate::offsets::{DebugInfoOffset, DebugLineStrOffset, DebugStrOffset};

/// The value of an attribute, by class (DWARF 5, section 7.5.5 "Classes and Forms"). Offsets count from the start of
/// `.debug_info` unless another section is named.
#[derive(Clone, Copy, Debug, PartialEq, Eq)]
pub enum Value {
    /// An address.
    Address(u64),
    /// An index into the unit's part of `.debug_addr`.
    AddressIndex(u64),
    /// An unsigned constant.
    Unsigned(u64),
    /// A signed constant.
    Signed(i64),
    /// A constant of 16 bytes at this offset.
    Wide { from: u64 },
    /// A block or an expression: the bytes from `from` up to `to`.
    Block { from: u64, to: u64 },
    /// A string at this offset, up to a 0 byte.
    Inline { from: u64 },
    /// An offset into `.debug_str`.
    StrOffset(DebugStrOffset),
    /// An offset into `.debug_line_str`.
    LineOffset(DebugLineStrOffset),
    /// An index into the unit's part of `.debug_str_offsets`.
    StrIndex(u64),
    /// A flag.
    Flag(bool),
    /// The offset of another entry.
    Reference(DebugInfoOffset),
    /// The signature of a type unit.
    Signature(u64),
    /// An offset into another section. The attribute decides which.
    SectionOffset(u64),
    /// An index into the unit's part of `.debug_rnglists`.
    RangeIndex(u64),
    /// An index into the unit's part of `.debug_loclists`.
    LocationIndex(u64),
}

impl Value {
    /// The constant if it is at least 0, else None (DWARF 5, section 7.5.5 "Classes and Forms", class constant).
    pub fn number(&self) -> Option<u64>
        ensures { result ≡ number_of self.now }
    {
        match *self {
            Value::Unsigned(number) => Some(number),
            Value::Signed(number) => u64::try_from(number).ok(),
            _ => None,
        }
    }

    /// The constant modulo 2^64, signed or unsigned, or None where the value is not a constant.
    pub fn word(&self) -> Option<u64>
        ensures { result ≡ word_of self.now }
    {
        match *self {
            Value::Unsigned(number) => Some(number),
            Value::Signed(number) => Some(number.cast_unsigned()),
            _ => None,
        }
    }

    /// How many numbers there are from 0 through the constant, modulo 2^64, or None where the value is not a constant.
    pub fn count_up_to(&self) -> Option<u64>
        ensures { result ≡ count_up_to_of self.now }
    {
        match self.word() {
            Some(last) => Some(last.wrapping_add(1)),
            None => None,
        }
    }

    /// Whether the value is a flag that is set. False for a value of another class.
    pub fn holds(&self) -> bool
        ensures { result ≡ flag_holds self.now }
    {
        match *self {
            Value::Flag(holds) => holds,
            _ => false,
        }
    }
}
