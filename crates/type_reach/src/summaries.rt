// The facts that remain in memory after all types are judged.
ghost use Rattle.std.specs.Prelude.{◌≡◌, Contains, Some, slice_get, IfErr, IfOk, IfSome};
ghost use Rattle.abi_base.specs.declared.fault.NoMemory.TheVariants.{Allocation};
ghost use Rattle.type_reach.specs.Facts.{AreAllFacts, facts_of};
ghost use Rattle.type_reach.specs.Summaries.{AreSummaries};
ghost use Rattle.type_reach.specs.Summaries as spec;

use crate::facts::{Facts, VOID};
use crate::reached_entries::ReachedEntries;
use abi_base::NoMemory;
use dwarf_entries::Dwarf;
use dwarf_tree::EntryNumber;
use std::alloc::Global;

/// The facts of a type that its view needs. They take less than half of the memory of all its facts.
#[derive(Clone, Copy, Debug, PartialEq, Eq)]
pub struct Summary {
    /// The length of the longest chain of steps by value from it.
    pub rank: u32,
    /// Its core is a structure or a union.
    pub aggregate: bool,
    /// Its size in bytes.
    pub size: u64,
    /// The number of elements of its core, if that is an array.
    pub count: u64,
    /// The explicit alignment in bytes, or 0.
    pub align: u64,
    /// The entry of its core, or None for void.
    pub core: Option<EntryNumber>,
}

// The summary of a type's facts.
fn summary_of(facts: &Facts) -> Summary
    ensures { result ≡ spec.summary_of facts.now }
{
    Summary {
        rank: facts.rank,
        aggregate: facts.aggregate,
        size: facts.size,
        count: facts.count,
        align: facts.align,
        core: facts.core,
    }
}

/// The summaries of all found entries, by number.
pub fn summaries_of(
    alloc: Global,
    dwarf: &Dwarf,
    found: &ReachedEntries,
    facts: &[Facts],
) -> Result<Vec<Summary>, NoMemory>
    requires { AreAllFacts dwarf.now found.now facts.now }
    ensures summaries { IfOk result (λ summaries. AreSummaries dwarf.now found.now summaries.items) }
    ensures named { IfErr result (λ e. e ≡ Allocation) }
{
    let mut summaries = Vec::with_capacity(alloc, facts.len())?;
    'facts: for k in 0..facts.len() {
        summaries.push(summary_of(&facts[k]))?;
    }
    Ok(summaries)
}

/// The summary of the found entry with this number.
pub fn summary_by_number(
    dwarf: &Dwarf,
    found: &ReachedEntries,
    summaries: &[Summary],
    number: usize,
    e: EntryNumber,
) -> Summary
    requires summaries { AreSummaries dwarf.now found.now summaries.now }
    requires at { slice_get found.now number ≡ Some e }
    ensures { result ≡ spec.summary_of (facts_of dwarf.now (Some e)) }
{
    summaries[number]
}

/// The summary of a found type.
pub fn summary_at(
    dwarf: &Dwarf,
    found: &ReachedEntries,
    summaries: &[Summary],
    ty: Option<EntryNumber>,
) -> Summary
    requires summaries { AreSummaries dwarf.now found.now summaries.now }
    requires there { IfSome ty (λ e. Contains found.now e) }
    ensures { result ≡ spec.summary_of (facts_of dwarf.now ty) }
{
    match ty {
        None => summary_of(&VOID),
        Some(e) => summary_by_number(dwarf, found, summaries, found.number_of(e), e),
    }
}
