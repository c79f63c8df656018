// Rows of members that do not overlap and end inside the structure: each bit is in one row.
ghost use Rattle.std.specs.Prelude.{◌≡◌, ◌<◌, ◌≤◌, ◌+◌, ◌^◌, ◌++◌, List, IfOk, IfErr, OnOk, length, drop, max};
ghost use Rattle.abi_base.specs.declared.fault.NoMemory.TheVariants.{Allocation};
ghost use Rattle.type_print.specs.declared.extent.Extent.{Extent as Stand};
ghost use Rattle.type_print.specs.Members.{member_at, AreInOrder};
ghost use Rattle.type_print.specs.Members as spec;
ghost use Rattle.type_print.specs.Rows.{AreExactly, Fits, IsFittingRow, key_of};
ghost use Rattle.type_print.specs.Sweeps.{gap_end, gap_row, next_bit, padding_rows, FitsFrom, IsSwept};

use crate::extent::Extent;
use crate::row::LayoutRow;
use abi_base::NoMemory;
use std::alloc::Global;

/// The row of a member.
pub fn row_of(member: &Extent) -> LayoutRow
    ensures { result ≡ spec.row_of member.now }
{
    LayoutRow::Member {
        part: member.part,
        bit: member.bit,
        width: member.width,
    }
}

// The first bit that a member has, of the ordered members from index `from` on.
fn next_held(members: &[Extent], from: usize) -> Option<u64>
    requires { from ≤ length members.now }
    ensures { result ≡ next_bit (drop from members.now) }
{
    for k in from..members.len() {
        if members[k].width > 0 {
            return Some(members[k].bit);
        }
    }
    None
}

// The row of the free bits from `held` on: a hole if a member's bit follows, else padding.
fn gap(held: u64, next: Option<u64>, bits: u64) -> LayoutRow
    requires { held ≤ gap_end next bits }
    ensures { result ≡ gap_row held next bits }
{
    match next {
        Some(bit) => LayoutRow::Hole {
            bit: held,
            width: bit - held,
        },
        None => LayoutRow::Padding {
            bit: held,
            width: bits - held,
        },
    }
}

// Adds a gap before member k if its first bit is after `held`, and answers where the rows now end.
fn push_gap(
    rows: &mut Vec<LayoutRow>,
    members: &[Extent],
    k: usize,
    held: u64,
    bits: u64,
) -> Result<u64, NoMemory>
    requires inside { k < length members.now }
    requires fits { FitsFrom held (drop k members.now) bits }
    ensures swept { IfOk result (λ up. (all whole : List Stand)
        → IsSwept all whole bits rows.old.items held (drop k members.now)
        → IsSwept all whole bits rows.new.items up (drop k members.now)) }
    ensures reached { IfOk result (λ up. (member_at members.now k).bit ≤ up) }
    ensures named { IfErr result (λ e. e ≡ Allocation) }
{
    if members[k].bit <= held {
        return Ok(held);
    }
    let next = next_held(members, k);
    rows.push(gap(held, next, bits))?;
    Ok(next.unwrap_or(bits))
}

// Where the rows end after a member.
fn end_after(held: u64, member: &Extent) -> u64
    requires { member.now.bit + member.now.width < 2 ^ 64 }
    ensures { result ≡ max held (member.now.bit + member.now.width) }
{
    held.max(member.bit + member.width)
}

// Adds the padding after all members, if there is any.
fn push_padding(rows: &mut Vec<LayoutRow>, held: u64, bits: u64) -> Result<(), NoMemory>
    ensures added { OnOk result (rows.new.items ≡ rows.old.items ++ padding_rows held bits) }
    ensures named { IfErr result (λ e. e ≡ Allocation) }
{
    if held < bits {
        rows.push(gap(held, None, bits))?;
    }
    Ok(())
}

/// The rows of ordered members that do not overlap and do not end past the size in bits, in one sweep.
pub fn fitting_rows(
    alloc: Global,
    members: &[Extent],
    bits: u64,
) -> Result<Vec<LayoutRow>, NoMemory>
    requires order { AreInOrder members.now }
    requires fits { Fits members.now bits }
    ensures exact { IfOk result (λ rows. (all : List Stand)
        → AreExactly (IsFittingRow members.now bits) (key_of all) rows.items) }
    ensures named { IfErr result (λ e. e ≡ Allocation) }
{
    let mut rows = Vec::new(alloc);
    let mut held = 0;
    'walk: for k in 0..members.len() {
        held = push_gap(&mut rows, members, k, held, bits)?;
        rows.push(row_of(&members[k]))?;
        held = end_after(held, &members[k]);
    }
    push_padding(&mut rows, held, bits)?;
    Ok(rows)
}
