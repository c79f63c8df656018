// The number of elements of an array.
ghost use Rattle.std.specs.Prelude.{◌≡◌, ◌<◌, length, map, All, IfErr, IfOk};
ghost use Rattle.abi_base.specs.declared.fault.NoMemory.TheVariants.{Allocation};
ghost use Rattle.type_reach.specs.Facts as spec;

use crate::values::{counted_to, natural_of};
use abi_base::NoMemory;
use abi_base::dwarf::{DW_AT_count, DW_AT_upper_bound, DW_TAG_subrange_type};
use dwarf_entries::Dwarf;
use dwarf_tree::EntryNumber;
use std::alloc::Global;

// The number of elements of a dimension.
#[tactic(auto, unfolding(crate::specs::Facts::subrange_count))]
fn subrange_count(dwarf: &Dwarf, subrange: EntryNumber) -> u64
    requires { subrange < length dwarf.now.tree.entries }
    ensures { result ≡ spec.subrange_count dwarf.now.tree subrange }
{
    match natural_of(dwarf.attr(subrange, DW_AT_count)) {
        Some(count) => count,
        None => counted_to(dwarf.attr(subrange, DW_AT_upper_bound)).unwrap_or(0),
    }
}

// The product of the dimensions' numbers of elements.
fn product(dwarf: &Dwarf, subranges: &[EntryNumber]) -> u64
    requires { All (λ s. s < length dwarf.now.tree.entries) subranges.now }
    ensures { result ≡ spec.product (map (spec.subrange_count dwarf.now.tree) subranges.now) }
{
    let mut all: u64 = 1;
    let mut k = subranges.len();
    'down: while k > 0 {
        k -= 1;
        let subrange = subranges[k];
        all = subrange_count(dwarf, subrange).saturating_mul(all);
    }
    all
}

/// The number of elements of an array, at most 2^64 - 1. An array without a dimension has none.
#[tactic(auto, unfolding(crate::specs::Facts::array_count, crate::specs::References::tagged_children))]
pub(crate) fn array_count(alloc: Global, dwarf: &Dwarf, e: EntryNumber) -> Result<u64, NoMemory>
    requires { e < length dwarf.now.tree.entries }
    ensures count { IfOk result (λ count. count ≡ spec.array_count dwarf.now.tree e) }
    ensures named { IfErr result (λ e. e ≡ Allocation) }
{
    let subranges = dwarf.tagged(alloc, e, DW_TAG_subrange_type)?;
    if subranges.is_empty() {
        return Ok(0);
    }
    Ok(product(dwarf, subranges.as_slice()))
}
