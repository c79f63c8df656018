// Collects the needs of a table by version index.
ghost use Rattle.std.specs.Prelude.{◌≡◌, ◌<◌, ◌≤◌, ◌+◌, ℕ, nat_eq, Some, None, length, map, IfErr, IfOk, OnOk, if◌then◌else◌};
ghost use Rattle.std.specs.List.{range_with_len};
ghost use Rattle.std.specs.Option.{option_or};
ghost use Rattle.abi_base.specs.declared.fault.FaultKind.TheVariants as kind;
ghost use Rattle.abi_base.specs.Budgets.{with_taken};
ghost use Rattle.elf_needs.specs.GnuNeeds.{vernaux_size};
ghost use Rattle.abi_base.specs.Limits.{input_limit};
ghost use Rattle.abi_base.specs.Outcome.{Judges, OnLimit, OnPast, first, fault_if};
ghost use Rattle.elf_needs.specs.Needs.{has_bad_entry, need_fault, bad_need_at, entries_of_need, entries_of, need_among, entries_cost, entry_count, need_cost, AreFewNeedsIn, PassesNeedsIn};
ghost use Rattle.elf_needs.specs.Plain.{IsNeed, plain_need, need_under};

use crate::constants::{VERNAUX_SIZE, VERNEED_SIZE};
use crate::kept::Need;
use crate::records::{Record, entry_in, need_in};
use abi_base::{Budget, Fault, FaultKind, Limit, NoMemory, Refusal};
use std::alloc::Global;
use std::collections::HashMap;

/// The refusal of the need with this number.
pub fn bad_need(number: u32) -> Refusal
    ensures { result ≡ bad_need_at number }
{
    Refusal::Fault(Fault {
        kind: FaultKind::VersionNeed,
        at: u64::from(number),
    })
}

// Enters a need under an index, unless the index has one already.
fn keep_first<'a>(
    by_index: &mut HashMap<u16, Need<'a>>,
    index: u16,
    need: Need<'a>,
    budget: &mut Budget,
) -> Result<(), NoMemory>
    ensures kept { OnOk result ((q : ℕ) → need_under by_index.new q
        ≡ option_or (need_under by_index.old q) (if nat_eq index q then Some (plain_need need.entry) else None)) }
    ensures taken { OnOk result (budget.new ≡ with_taken budget.old (vernaux_size + length need.entry.version.now)) }
    ensures within { OnOk result (budget.old.taken + (vernaux_size + length need.entry.version.now) ≤ budget.old.most) }
    ensures past { IfErr result (λ e. OnLimit e (λ l. (l ≡ budget.old.limit)
        × (budget.old.most < budget.old.taken + (vernaux_size + length need.entry.version.now)))) }
{
    budget.take(VERNAUX_SIZE + need.version.len())?;
    if !by_index.contains_key(&index) {
        by_index.insert(index, need)?;
    }
    Ok(())
}

// Enters the auxiliary entries of a need. Err is the fault of the first bad one, with the need's number.
fn keep_each<'a>(
    by_index: &mut HashMap<u16, Need<'a>>,
    table: &[u8],
    strings: &'a [u8],
    need: &Record<'a>,
    budget: &mut Budget,
) -> Result<(), Refusal>
    requires of_need { IsNeed need.now table.now strings.now }
    requires small { length table.now ≤ input_limit }
    requires sound { budget.old.taken ≤ budget.old.most }
    ensures judged { Judges result (fault_if (has_bad_entry table.now strings.now need.now.number)
        kind.VersionNeed need.now.number) }
    ensures kept { OnOk result ((q : ℕ) → need_under by_index.new q
        ≡ option_or (need_under by_index.old q) (need_among (entries_of_need table.now strings.now need.now.number) q)) }
    ensures taken { OnOk result (budget.new
        ≡ with_taken budget.old (entries_cost table.now strings.now need.now.number (entry_count table.now need.now.number))) }
    ensures within { OnOk result (budget.old.taken
        + entries_cost table.now strings.now need.now.number (entry_count table.now need.now.number)
        ≤ budget.old.most) }
    ensures past { IfErr result (λ e. OnPast e (λ l. (l ≡ budget.old.limit)
        × (budget.old.most < budget.old.taken + entries_cost table.now strings.now need.now.number (entry_count table.now need.now.number)))) }
{
    let mut at = need.first;
    for entry in 0..need.entries {
        match entry_in(table, strings, need, entry, at) {
            None => return Err(bad_need(need.number)),
            Some(auxiliary) => {
                keep_first(by_index, auxiliary.index, auxiliary.need, budget)?;
                at = auxiliary.next;
            }
        }
    }
    Ok(())
}

// Keeps the entries of a need whose own bytes the budget covers.
fn keep_entries<'a>(
    by_index: &mut HashMap<u16, Need<'a>>,
    table: &[u8],
    strings: &'a [u8],
    need: &Record<'a>,
    budget: &mut Budget,
) -> Result<(), Refusal>
    requires of_need { IsNeed need.now table.now strings.now }
    requires small { length table.now ≤ input_limit }
    ensures judged { Judges result (fault_if (has_bad_entry table.now strings.now need.now.number)
        kind.VersionNeed need.now.number) }
    ensures kept { OnOk result ((q : ℕ) → need_under by_index.new q
        ≡ option_or (need_under by_index.old q) (need_among (entries_of_need table.now strings.now need.now.number) q)) }
    ensures taken { OnOk result (budget.new ≡ with_taken budget.old (need_cost table.now strings.now need.now.number)) }
    ensures within { OnOk result (budget.old.taken + need_cost table.now strings.now need.now.number
        ≤ budget.old.most) }
    ensures past { IfErr result (λ e. OnPast e (λ l. (l ≡ budget.old.limit)
        × (budget.old.most < budget.old.taken + need_cost table.now strings.now need.now.number))) }
{
    budget.take(VERNEED_SIZE + need.file.len())?;
    keep_each(by_index, table, strings, need, budget)?;
    Ok(())
}

/// The needs of a table by version index, or the fault of the first bad one. A table can claim any count, and lists of entries can
/// share bytes: where they count more than the limit on version needs allows, the answer is `Past`.
pub fn needs_in<'a>(
    alloc: Global,
    table: &[u8],
    strings: &'a [u8],
    count: u32,
) -> Result<HashMap<u16, Need<'a>>, Refusal>
    requires table { length table.now ≤ input_limit }
    requires strings { length strings.now ≤ input_limit }
    ensures judged { Judges result (first (map (need_fault table.now strings.now count) (range_with_len 0 count))) }
    ensures read { IfOk result (λ by_index. (q : ℕ) → need_under by_index q
        ≡ need_among (entries_of table.now strings.now count) q) }
    ensures few { OnOk result (AreFewNeedsIn table.now strings.now count) }
    ensures past { IfErr result (λ e. OnPast e (PassesNeedsIn table.now strings.now count)) }
{
    let mut by_index = HashMap::new(alloc);
    let mut budget = Budget::of(Limit::VersionNeeds, table.len() + strings.len());
    let mut at = 0;
    for number in 0..count {
        match need_in(table, strings, count, number, at) {
            None => return Err(bad_need(number)),
            Some(need) => {
                keep_entries(&mut by_index, table, strings, &need, &mut budget)?;
                at = need.next;
            }
        }
    }
    Ok(by_index)
}
