// References to range lists.

/// The location of a range list.
#[derive(Clone, Copy, Debug, PartialEq, Eq)]
pub enum ListAt {
    /// An offset in `.debug_rnglists`.
    Offset(u64),
    /// An index into the offsets of the unit's part of `.debug_rnglists`.
    Index(u64),
    /// The offset in `.debug_ranges` of a list of address pairs (DWARF 4).
    Pairs(u64),
}
