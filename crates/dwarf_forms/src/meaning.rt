// The meanings of numbers in attribute values.

/// The meaning of the number that a form encodes.
#[derive(Clone, Copy, Debug, PartialEq, Eq)]
pub enum Meaning {
    Address,
    AddressIndex,
    Unsigned,
    StrOffset,
    LineOffset,
    StrIndex,
    Flag,
    /// A reference that counts from the start of its unit.
    LocalReference,
    /// A reference that counts from the start of `.debug_info`.
    Reference,
    Signature,
    SectionOffset,
    RangeIndex,
    LocationIndex,
}
