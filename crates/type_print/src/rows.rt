// The rows of the members of a structure.
ghost use Rattle.std.specs.Prelude.{◌≡◌, ◌==◌, ◌&&◌, ◌++◌, List, IfOk, IfErr, length, map};
ghost use Rattle.std.specs.List.Sorted.{IsPermutation, IsSorted};
ghost use Rattle.abi_base.specs.declared.fault.NoMemory.TheVariants.{Allocation};
ghost use Rattle.type_print.specs.declared.extent.Extent.{Extent as Stand};
ghost use Rattle.type_print.specs.Members.{extent_cmp, AreInOrder, AreNamed, AreNumbered};
ghost use Rattle.type_print.specs.Members as spec;
ghost use Rattle.type_print.specs.Rows.{AreRows};

use crate::extent::Extent;
use crate::fitting::{fitting_rows, row_of};
use crate::overlaps::{outsides, overlaps};
use crate::row::LayoutRow;
use abi_base::NoMemory;
use std::alloc::Global;

// Orders members by offset. At one offset, those of width 0 come first; then the index decides.
fn sort(members: &mut Vec<Extent>)
    ensures moved { IsPermutation members.old.items members.new.items }
    ensures sorted { IsSorted extent_cmp members.new.items }
{
    members.sort_unstable_by_key(|member| (member.bit, member.width > 0, member.part));
}

// The rows of the members, then these overlaps and these members that end outside.
fn clashing_rows(
    alloc: Global,
    members: &[Extent],
    overlaps: &[LayoutRow],
    outsides: &[LayoutRow],
) -> Result<Vec<LayoutRow>, NoMemory>
    ensures joined { IfOk result (λ rows. rows.items
        ≡ (map spec.row_of members.now ++ overlaps.now) ++ outsides.now) }
    ensures named { IfErr result (λ e. e ≡ Allocation) }
{
    let mut rows = Vec::new(alloc);
    for member in members {
        rows.push(row_of(member))?;
    }
    rows.extend_from_slice(overlaps)?;
    rows.extend_from_slice(outsides)?;
    Ok(rows)
}

// Whether there are no rows.
fn are_none(overlaps: &[LayoutRow], outsides: &[LayoutRow]) -> bool
    ensures { result ≡ ((length overlaps.now == 0) && (length outsides.now == 0)) }
{
    overlaps.is_empty() && outsides.is_empty()
}

// The rows of ordered members.
fn sorted_rows(alloc: Global, sorted: &[Extent], bits: u64) -> Result<Vec<LayoutRow>, NoMemory>
    requires order { AreInOrder sorted.now }
    requires named { AreNamed sorted.now }
    ensures rows { IfOk result (λ rows. (members : List Stand) → AreNumbered members
        → IsPermutation members sorted.now → AreRows members bits rows.items) }
    ensures named { IfErr result (λ e. e ≡ Allocation) }
{
    let overlaps = overlaps(alloc, sorted)?;
    let outsides = outsides(alloc, sorted, bits)?;
    if are_none(overlaps.as_slice(), outsides.as_slice()) {
        let rows = fitting_rows(alloc, sorted, bits)?;
        return Ok(rows);
    }
    let rows = clashing_rows(alloc, sorted, overlaps.as_slice(), outsides.as_slice())?;
    Ok(rows)
}

/// The rows of members, each of which has its own index as `part`, in a structure of this many bits.
pub fn rows_of(
    alloc: Global,
    mut members: Vec<Extent>,
    bits: u64,
) -> Result<Vec<LayoutRow>, NoMemory>
    requires { AreNumbered members.items }
    ensures rows { IfOk result (λ rows. AreRows members.items bits rows.items) }
    ensures named { IfErr result (λ e. e ≡ Allocation) }
{
    sort(&mut members);
    let rows = sorted_rows(alloc, members.as_slice(), bits)?;
    Ok(rows)
}
