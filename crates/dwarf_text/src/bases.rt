// The bases of a unit's parts of other sections.

/// The bases of a unit's parts of other sections, from the attributes of its root (DWARF 5, section 3.1.1 "Full and Partial
/// Compilation Unit Entries"). Each is an offset in its section, or None where the root lacks the attribute.
#[derive(Clone, Copy, Debug, PartialEq, Eq)]
pub struct Bases {
    /// The unit's part of `.debug_str_offsets` (`DW_AT_str_offsets_base`).
    pub str_offsets: Option<u64>,
    /// The unit's part of `.debug_addr` (`DW_AT_addr_base`).
    pub addr: Option<u64>,
    /// The unit's part of `.debug_rnglists` (`DW_AT_rnglists_base`).
    pub rnglists: Option<u64>,
    /// The base address of the unit's ranges (`DW_AT_low_pc`), or 0.
    pub low: u64,
}
