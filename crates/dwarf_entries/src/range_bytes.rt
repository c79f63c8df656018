// The bytes of range lists that are read. Functions can share a list or its entries, so the lists can be longer than their sections.
ghost use Rattle.std.specs.Prelude.{◌≡◌, ◌+◌, ◌<◌, ◌≤◌, IfErr, OnErr, OnOk, length};
ghost use Rattle.abi_base.specs.Budgets.{with_taken};
ghost use Rattle.abi_base.specs.declared.fault.NoMemory.TheVariants.{Past};
ghost use Rattle.abi_base.specs.declared.limit.Limit.TheVariants.{RangeLists};
ghost use Rattle.dwarf_entries.specs.Limits.{list_of_function, ranges_allowed, ranges_cost, ranges_count};

use crate::addresses::list_of;
use crate::source::Source;
use abi_base::dwarf::{DW_AT_ranges, DW_TAG_subprogram};
use abi_base::{Budget, Limit, NoMemory};
use dwarf_text::ranges::{ListAt, take_first};
use dwarf_tree::EntryNumber;

// The list of a function.
fn function_list(source: &Source, e: EntryNumber) -> Option<ListAt>
    requires { e < length source.now.tree.entries }
    ensures { result ≡ list_of_function source.now e }
{
    let tree = source.tree();
    if tree.tag(e) != DW_TAG_subprogram {
        return None;
    }
    list_of(source.version(e), tree.own(e, DW_AT_ranges))
}

// Takes the bytes of the list of a function, up to its first range.
#[tactic(auto, unfolding(crate::specs::Limits::ranges_cost, crate::specs::UnitContext::told_of))]
fn take_for_entry(source: &Source, e: EntryNumber, budget: &mut Budget) -> Result<(), NoMemory>
    requires inside { e < length source.now.tree.entries }
    requires sound { budget.old.taken ≤ budget.old.most }
    ensures taken { OnOk result (budget.new ≡ with_taken budget.old (ranges_cost source.now e)) }
    ensures within { OnOk result (budget.old.taken + ranges_cost source.now e ≤ budget.old.most) }
    ensures past { OnErr result (budget.old.most < budget.old.taken + ranges_cost source.now e) }
    ensures named { IfErr result (λ e. e ≡ Past budget.old.limit) }
{
    match function_list(source, e) {
        Some(list) => take_first(list, &source.told(e).bases, &source.sections(), budget),
        None => budget.take(0),
    }
}

// Takes the bytes of the lists of all functions. Fails exactly where they are more than the limit on range lists allows: each list
// counts up to its first range, once for each function that has it.
pub(crate) fn take_for_ranges(source: &Source) -> Result<(), NoMemory>
    ensures within { OnOk result (ranges_count source.now ≤ ranges_allowed source.now) }
    ensures past { OnErr result (ranges_allowed source.now < ranges_count source.now) }
    ensures named { IfErr result (λ e. e ≡ Past RangeLists) }
{
    let sections = source.sections();
    let units = sections.rnglists.len() + sections.ranges.len();
    let mut budget = Budget::of(Limit::RangeLists, units);
    source.tree().known();
    for e in 0..source.len() {
        let entry = EntryNumber::new(e as u32);
        take_for_entry(source, entry, &mut budget)?;
    }
    Ok(())
}
