// A unit of `.debug_info`.
ghost use Rattle.std.specs.Prelude.{◌+◌, ◌≤◌, is_some, length};
ghost use Rattle.abi_base.specs.Limits.{input_limit};
ghost use Rattle.dwarf_units.specs.Units.{header_size_of};

use crate::sizes::SizedTable;
use dwarf_forms::DebugInfoOffset;
use std::rc::Rc;

/// A unit of `.debug_info` (DWARF 5, section 7.5.1 "Unit Headers") whose header and abbreviations have no fault. Offsets
/// count from the start of `.debug_info`.
#[derive(Drop)]
pub struct Unit<'a> {
    /// The offset of its header.
    pub offset: DebugInfoOffset,
    /// The offset of the next unit.
    pub end: DebugInfoOffset,
    /// The DWARF version: 4 or 5.
    pub version: u16,
    /// Whether it is a partial unit. In version 4 the tag of its root decides, if the root has no fault.
    pub partial: bool,
    /// Its signature, if it is a type unit.
    pub signature: Option<u64>,
    /// The offset of its type's entry, or 0 where it is not a type unit.
    pub type_entry: DebugInfoOffset,
    /// Its abbreviations, shared among the units with the same table.
    pub table: Rc<SizedTable>,
    /// The whole of `.debug_info`.
    pub info: &'a [u8],
    pub ghost root_inside: { offset + header_size_of version (is_some signature) ≤ end },
    pub ghost inside: { end ≤ length info.now },
    pub ghost small: { length info.now ≤ input_limit },
}
