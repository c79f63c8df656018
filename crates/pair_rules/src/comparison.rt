// The comparison of two types: the rules that they break, and the types to compare next.
ghost use Rattle.std.specs.Prelude.{◌≡◌, ◌<◌, ◌+◌, length, IfOk, IfErr, IfSome};
ghost use Rattle.abi_base.specs.declared.fault.NoMemory.TheVariants.{Allocation};
ghost use Rattle.pair_rules.specs.Comparisons.{compared_match};
ghost use Rattle.pair_rules.specs.Comparisons as comparisons;
ghost use Rattle.pair_rules.specs.Steps as steps_spec;
ghost use Rattle.pair_rules.specs.TypeRules as type_rules;

use crate::matching::{after, are_compared, match_of};
use crate::rules::{Broken, breaks_by};
use crate::steps::Steps;
use crate::triple::Triple;
use abi_base::{List, NoMemory};
use abi_types::{NewIx, OldIx, View, Way};
use std::alloc::Global;
use std::sync::ledger::Ledger;

/// The result of comparing two types, as plain data: each request compares them anew.
#[derive(Drop)]
pub struct Comparison {
    /// All broken rules, ordered by rule and then by old part.
    pub breaks: List<Broken>,
    /// For each old part the position of its match; empty where parts are not compared.
    pub matches: List<Option<usize>>,
}

// The match of each old part, if parts are compared.
fn matches_of(
    alloc: Global,
    old: &View<OldIx>,
    new: &View<NewIx>,
) -> Result<List<Option<usize>>, NoMemory>
    ensures matches { IfOk result (λ list. list ≡ comparisons.matches old.now new.now) }
    ensures named { IfErr result (λ e. e ≡ Allocation) }
{
    let mut list = List::new(alloc);
    if !are_compared(old, new) {
        return Ok(list);
    }
    'walk: for i in 0..old.parts_len() {
        list.push(match_of(old, new, i))?;
    }
    Ok(list)
}

// The match of an old part, if parts are compared.
fn match_in(
    old: &View<OldIx>,
    new: &View<NewIx>,
    matches: &[Option<usize>],
    i: usize,
) -> Option<usize>
    requires matches { matches.now ≡ comparisons.matches old.now new.now }
    requires inside { i < length old.now.parts }
    ensures place { result ≡ compared_match old.now new.now i }
    ensures inside { IfSome result (λ j. j < length new.now.parts) }
{
    match matches.get(i) {
        None => None,
        Some(found) => *found,
    }
}

// The triple of the nodes that two parts name, if both name one.
fn triple_of(old: Option<OldIx>, new: Option<NewIx>, way: Way) -> Option<Triple>
    ensures { result ≡ steps_spec.triple_of way old new }
{
    match (old, new) {
        (Some(old), Some(new)) => Some(Triple { old, new, way }),
        _ => None,
    }
}

/// The types to which the old part `i` and its partner lead, given the `way` in which the two types are reached. `None` where the
/// part names no node or has no partner. `matches` is that of the two types' comparison.
pub fn next_of(
    old: &View<OldIx>,
    new: &View<NewIx>,
    matches: &[Option<usize>],
    way: Way,
    i: usize,
) -> Option<Triple>
    requires matches { matches.now ≡ comparisons.matches old.now new.now }
    requires inside { i < length old.now.parts }
    ensures { result ≡ steps_spec.next_of old.now new.now way i }
{
    let part = old.part(i);
    match match_in(old, new, matches, i) {
        None => None,
        Some(j) => triple_of(part.to(), new.part(j).to(), after(way, part)),
    }
}

impl Comparison {
    /// Compares two types. Each call counts as one step, even where memory runs out.
    pub fn of<L: Ledger>(
        alloc: Global,
        old: &View<OldIx>,
        new: &View<NewIx>,
        steps: &mut Steps<L>,
    ) -> Result<Comparison, NoMemory>
        ensures breaks { IfOk result (λ c. c.breaks ≡ type_rules.breaks old.now new.now) }
        ensures matches { IfOk result (λ c. c.matches ≡ comparisons.matches old.now new.now) }
        ensures step { steps.new ≡ steps.old + 1 }
        ensures named { IfErr result (λ e. e ≡ Allocation) }
    {
        steps.tick();
        let matches = matches_of(alloc, old, new)?;
        let breaks = breaks_by(alloc, old, new, matches.as_slice())?;
        Ok(Comparison { breaks, matches })
    }
}

/// All rules that two types break, ordered by rule and then by old part. Each call counts as one step, even where memory runs out.
pub fn breaks<L: Ledger>(
    alloc: Global,
    old: &View<OldIx>,
    new: &View<NewIx>,
    steps: &mut Steps<L>,
) -> Result<List<Broken>, NoMemory>
    ensures breaks { IfOk result (λ list. list ≡ type_rules.breaks old.now new.now) }
    ensures step { steps.new ≡ steps.old + 1 }
    ensures named { IfErr result (λ e. e ≡ Allocation) }
{
    let comparison = Comparison::of(alloc, old, new, steps)?;
    Ok(comparison.breaks)
}
