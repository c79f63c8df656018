// The rows of a layout.

/// A row of a layout. `part` and `with` are indexes of members. `bit` is an offset in the structure in bits, and `width` a number
/// of bits.
#[derive(Clone, Copy, Debug, PartialEq, Eq)]
pub enum LayoutRow {
    /// A member.
    Member { part: usize, bit: u64, width: u64 },
    /// Bits before a member that no member has.
    Hole { bit: u64, width: u64 },
    /// The bits after all members, up to the size of the structure.
    Padding { bit: u64, width: u64 },
    /// A member that shares bits with an earlier one: `with` is the first such member, and `bit` the first shared bit.
    Overlap { part: usize, with: usize, bit: u64 },
    /// A member that ends past the size of the structure.
    Outside { part: usize },
}
