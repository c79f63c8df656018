// The layout of range list entries, by kind.
ghost use Rattle.std.specs.Prelude.{◌≡◌};
ghost use Rattle.dwarf_text.specs.ranges.RangeLists.{layout_of};

use crate::ranges::constants::{
    DW_RLE_base_address, DW_RLE_base_addressx, DW_RLE_offset_pair, DW_RLE_start_end,
    DW_RLE_start_length, DW_RLE_startx_endx, DW_RLE_startx_length,
};

// A field after an entry's kind.
#[derive(Clone, Copy)]
pub(crate) enum Field {
    // an index into the unit's part of `.debug_addr`, as an unsigned LEB128
    Index,
    // eight bytes
    Address,
    // a number, as an unsigned LEB128
    Number,
    // no bytes
    Absent,
}

// The role of an entry's first field.
#[derive(Clone, Copy)]
pub(crate) enum Role {
    // the base of the entries after it
    Base,
    // the start of a range, relative to the base
    Offset,
    // the start of a range
    Start,
}

#[derive(Clone, Copy)]
pub(crate) struct Layout {
    pub(crate) role: Role,
    pub(crate) first: Field,
    pub(crate) second: Field,
}

// The layout of an entry with this kind. The end of a list has none.
#[tactic(auto, unfolding(crate::specs::ranges::RangeLists::layout_of, crate::specs::ranges::RangeLists::kinds))]
pub(crate) fn layout_by_kind(kind: u64) -> Option<Layout>
    ensures { result ≡ layout_of kind }
{
    let (role, first, second) = match kind {
        DW_RLE_base_addressx => (Role::Base, Field::Index, Field::Absent),
        DW_RLE_startx_endx => (Role::Start, Field::Index, Field::Index),
        DW_RLE_startx_length => (Role::Start, Field::Index, Field::Number),
        DW_RLE_offset_pair => (Role::Offset, Field::Number, Field::Number),
        DW_RLE_base_address => (Role::Base, Field::Address, Field::Absent),
        DW_RLE_start_end => (Role::Start, Field::Address, Field::Address),
        DW_RLE_start_length => (Role::Start, Field::Address, Field::Number),
        _ => return None,
    };
    Some(Layout {
        role,
        first,
        second,
    })
}
