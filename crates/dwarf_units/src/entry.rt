// A debugging information entry.
use abi_base::List;
use dwarf_forms::{DebugAbbrevOffset, DebugInfoOffset, Value};

/// A debugging information entry (DWARF 5, section 2.1 "The Debugging Information Entry").
#[derive(Drop)]
pub struct Entry {
    /// Its offset in `.debug_info`.
    pub offset: DebugInfoOffset,
    /// Its depth: the number of entries above it. The root of a unit has 0.
    pub depth: u32,
    /// Its tag, `DW_TAG_..`.
    pub tag: u64,
    /// The offset of its abbreviation's attribute specifications in `.debug_abbrev`.
    pub specs_from: DebugAbbrevOffset,
    /// The attributes, `DW_AT_..`, and their values, in order.
    pub attributes: List<(u64, Value)>,
}
