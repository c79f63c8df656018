// The offset of a member in the aggregates around it.
ghost use Rattle.std.specs.Prelude.{◌≡◌, ◌<◌, ◌+◌, ◌+ℤ◌, pos, length};
ghost use Rattle.abi_base.specs.Limits.{depth_limit};
ghost use Rattle.type_reach.specs.Placement.{IsNear};
ghost use Rattle.type_reach.specs.Placement as spec;

use crate::placement::bit_of;
use dwarf_entries::Dwarf;
use dwarf_tree::EntryNumber;

/// An offset in bits from the start of the outermost type, and the number of types around it.
#[derive(Clone, Copy, Debug)]
pub struct Start {
    /// The offset in bits.
    pub bit: i128,
    /// The number of nested types around it.
    pub depth: u32,
    // Rules out overflow of sums: each type around it moves the offset by a bounded number of bits.
    ghost near: { IsNear depth bit },
}

impl Start {
    /// The start of the outermost type.
    pub fn outermost() -> Start
        ensures bit { result.bit ≡ pos 0 }
        ensures depth { result.depth ≡ 0 }
    {
        Start { bit: 0, depth: 0 }
    }

    /// The offset of a member of the type that begins here. The member's type has a size in bytes.
    pub fn later(&self, dwarf: &Dwarf, m: EntryNumber, size: u64) -> Start
        requires inside { m < length dwarf.now.tree.entries }
        requires depth { self.now.depth < depth_limit }
        ensures bit { result.bit ≡ self.now.bit +ℤ spec.bit_of dwarf.now m size }
        ensures depth { result.depth ≡ self.now.depth + 1 }
    {
        Start {
            bit: self.bit + bit_of(dwarf, m, size),
            depth: self.depth + 1,
        }
    }
}
