// Members that share bits with earlier ones, and members that end past the size of the structure.
ghost use Rattle.std.specs.Prelude.{◌≡◌, ◌<◌, ◌≤◌, ◌++◌, ℕ, List, IfOk, IfErr, OnOk, length};
ghost use Rattle.abi_base.specs.declared.fault.NoMemory.TheVariants.{Allocation};
ghost use Rattle.type_print.specs.declared.extent.Extent.{Extent as Stand};
ghost use Rattle.type_print.specs.Members.{end_of, member_at, AreInOrder, NamesAll};
ghost use Rattle.type_print.specs.Rows.{AreExactly, IsOverlapRow, IsOutsideRow, key_of};
ghost use Rattle.type_print.specs.Sweeps.{overlap_rows, outside_rows};

use crate::extent::Extent;
use crate::row::LayoutRow;
use abi_base::NoMemory;
use std::alloc::Global;

// The first member, from one index up to another, that ends past the bit, or the latter index where none does.
fn first_past(members: &[Extent], from: usize, below: usize, bit: u64) -> usize
    requires from { from ≤ below }
    requires inside { below ≤ length members.now }
    ensures from { from ≤ result }
    ensures inside { result ≤ below }
    ensures before { (j : ℕ) → from ≤ j → j < result → end_of (member_at members.now j) ≤ bit }
    ensures past { result < below → bit < end_of (member_at members.now result) }
{
    for k in from..below {
        if members[k].end() > bit as u128 {
            return k;
        }
    }
    below
}

// Adds the overlap row of a member, if it has one, given the first member that ends past its first bit.
fn push_overlap(
    rows: &mut Vec<LayoutRow>,
    members: &[Extent],
    k: usize,
    first: usize,
) -> Result<(), NoMemory>
    requires inside { k < length members.now }
    requires first { first ≤ k }
    ensures added { OnOk result (rows.new.items ≡ rows.old.items ++ overlap_rows members.now k first) }
    ensures named { IfErr result (λ e. e ≡ Allocation) }
{
    let member = members[k];
    if first == k || member.width == 0 {
        return Ok(());
    }
    let with = members[first].part;
    rows.push(LayoutRow::Overlap {
        part: member.part,
        with,
        bit: member.bit,
    })?;
    Ok(())
}

/// A row for each of the ordered members that shares bits with an earlier one.
// The search never goes back: an extent that ends before a member ends before all later members too.
pub fn overlaps(alloc: Global, members: &[Extent]) -> Result<Vec<LayoutRow>, NoMemory>
    requires { AreInOrder members.now }
    ensures exact { IfOk result (λ rows. (all : List Stand) → NamesAll all members.now
        → AreExactly (IsOverlapRow members.now) (key_of all) rows.items) }
    ensures named { IfErr result (λ e. e ≡ Allocation) }
{
    let mut rows = Vec::new(alloc);
    let mut first = 0;
    'walk: for k in 0..members.len() {
        first = first_past(members, first, k, members[k].bit);
        push_overlap(&mut rows, members, k, first)?;
    }
    Ok(rows)
}

// Adds a row for a member if it ends past the size.
fn push_outside(rows: &mut Vec<LayoutRow>, member: &Extent, bits: u64) -> Result<(), NoMemory>
    ensures added { OnOk result (rows.new.items ≡ rows.old.items ++ outside_rows bits member.now) }
    ensures named { IfErr result (λ e. e ≡ Allocation) }
{
    if member.end() > bits as u128 {
        rows.push(LayoutRow::Outside { part: member.part })?;
    }
    Ok(())
}

/// A row for each of the ordered members that ends past the size in bits.
pub fn outsides(alloc: Global, members: &[Extent], bits: u64) -> Result<Vec<LayoutRow>, NoMemory>
    requires { AreInOrder members.now }
    ensures exact { IfOk result (λ rows. (all : List Stand) → NamesAll all members.now
        → AreExactly (IsOutsideRow members.now bits) (key_of all) rows.items) }
    ensures named { IfErr result (λ e. e ≡ Allocation) }
{
    let mut rows = Vec::new(alloc);
    for member in members {
        push_outside(&mut rows, member, bits)?;
    }
    Ok(rows)
}
