// All triples to which the roots lead, breadth first.
ghost use Rattle.std.specs.Prelude.{◌≡◌, ◌≤◌, ◌<◌, ◌+◌, ◌++◌, [], if◌then◌else◌, map, false, length, IfOk, IfErr, OnOk};
ghost use Rattle.abi_base.specs.Budgets.{fresh};
ghost use Rattle.abi_base.specs.declared.fault.NoMemory.TheVariants.{Allocation};
ghost use Rattle.abi_base.specs.declared.limit.Limit.TheVariants.{Pairs, PairParts, Breaks};
ghost use Rattle.abi_base.specs.Outcome.{OnLimit};
ghost use Rattle.pair_rules.specs.Weights.{pair_weight, weight_units};
ghost use Rattle.pair_explorer.specs.Adding.{expanded};
ghost use Rattle.pair_explorer.specs.Explorations.{IsExploration, compared_count, is_compared, most_triples, visit_breaks};
ghost use Rattle.pair_explorer.specs.GraphPairs.{scope_of};
ghost use Rattle.pair_explorer.specs.Limits.{AreWithin, ExplorationPasses, break_count_at, types_of, weight_at};
ghost use Rattle.pair_explorer.specs.Scopes.{AreGraphs, HasNodes, IsScope};
ghost use Rattle.pair_explorer.specs.Spending.{IsCounted, IsOf, Takes, ExpansionPasses, WorkPasses};
ghost use Rattle.pair_explorer.specs.Visits.{seen};

use crate::graph_pair::{GraphPair, add_partners, add_roots, is_marked};
use crate::reached::Reached;
use crate::visits::{Visit, Visits};
use abi_base::{Budget, Limit, List, NoMemory};
use abi_types::{NewIx, OldIx, View};
use pair_rules::laws::steps_lead_to_nodes;
use pair_rules::{Broken, Comparison, Steps, part_budget, take_parts};
use std::alloc::Global;
use std::sync::ledger::Ledger;

/// The result of an exploration.
#[derive(Drop)]
pub struct Explored {
    /// The visits, each of a different triple.
    pub visits: Visits,
    /// The broken rules, each with the number of the visit where it is broken.
    pub breaks: List<(usize, Broken)>,
}

// The parts of the types that are compared, and the rules that these break. In libraries built from one source a type meets itself
// in two ways at most. But two rings of types whose lengths have no common factor meet in all pairs, so a small file can ask for very
// many comparisons.
#[derive(Drop)]
struct Work {
    parts: Budget,
    broken: Budget,
}

impl Work {
    // Takes the parts of two types that are compared, and the rules that they break.
    fn take(&mut self, old: &View<OldIx>, new: &View<NewIx>, breaks: usize) -> Result<(), NoMemory>
        requires parts { self.old.parts.limit ≡ PairParts }
        requires broken { self.old.broken.limit ≡ Breaks }
        ensures parts { OnOk result (Takes self.old.parts self.new.parts (pair_weight old.now new.now)) }
        ensures broken { OnOk result (Takes self.old.broken self.new.broken breaks) }
        ensures past { IfErr result (λ e. OnLimit e
            (WorkPasses self.old.parts self.old.broken (pair_weight old.now new.now) breaks)) }
    {
        take_parts(&mut self.parts, old, new)?;
        self.broken.take(breaks)?;
        Ok(())
    }
}

// What was explored so far, within the limits.
#[derive(Drop)]
struct Exploration {
    reached: Reached,
    breaks: List<(usize, Broken)>,
    work: Work,
}

impl Exploration {
    // Nothing yet.
    fn of(alloc: Global, ground: &GraphPair) -> Exploration
        ensures visits { result.reached.visits ≡ [] }
        ensures breaks { result.breaks ≡ [] }
        ensures pairs { result.reached.pairs ≡ fresh Pairs (types_of (scope_of ground.now)) }
        ensures parts { result.work.parts ≡ fresh PairParts (weight_units ground.now.old.now ground.now.new.now) }
        ensures broken { result.work.broken ≡ fresh Breaks (types_of (scope_of ground.now)) }
    {
        let types = ground.old.len().saturating_add(ground.new.len());
        Exploration {
            reached: Reached {
                visits: Visits::new(alloc),
                pairs: Budget::of_many(Limit::Pairs, types),
            },
            breaks: List::new(alloc),
            work: Work {
                parts: part_budget(ground.old, ground.new),
                broken: Budget::of_many(Limit::Breaks, types),
            },
        }
    }
}

// Adds the breaks of a visit, each with the visit's number.
fn add_breaks(
    list: &mut List<(usize, Broken)>,
    number: usize,
    found: &[Broken],
) -> Result<(), NoMemory>
    ensures added { OnOk result (list.new ≡ list.old ++ map (λ broken. (number, broken)) found.now) }
    ensures named { IfErr result (λ e. e ≡ Allocation) }
{
    for broken in found {
        list.push((number, *broken))?;
    }
    Ok(())
}

// Compares the types of a visit, and adds the visits to which it leads.
#[tactic(auto, unfolding(crate::specs::Adding::expanded, crate::specs::Explorations::visit_breaks))]
fn expand<L: Ledger>(
    alloc: Global,
    ground: &GraphPair,
    explored: &mut Exploration,
    number: usize,
    visit: &Visit,
    steps: &mut Steps<L>,
) -> Result<(), NoMemory>
    requires nodes { HasNodes (scope_of ground.now) }
    requires graphs { AreGraphs (scope_of ground.now) }
    requires old { visit.now.old < length ground.now.old.now }
    requires new { visit.now.new < length ground.now.new.now }
    requires counted { IsCounted (scope_of ground.now) explored.old.reached.visits explored.old.reached.pairs }
    requires parts { IsOf PairParts explored.old.work.parts }
    requires broken { IsOf Breaks explored.old.work.broken }
    ensures visits { OnOk result (explored.new.reached.visits
        ≡ expanded (scope_of ground.now) explored.old.reached.visits number visit.now) }
    ensures breaks { OnOk result (explored.new.breaks
        ≡ explored.old.breaks ++ visit_breaks (scope_of ground.now).task number visit.now) }
    ensures cost { steps.new ≡ steps.old + (if is_compared (scope_of ground.now).task visit.now then 1 else 0) }
    ensures counted { OnOk result (IsCounted (scope_of ground.now) explored.new.reached.visits
        explored.new.reached.pairs) }
    ensures parts { OnOk result (Takes explored.old.work.parts explored.new.work.parts
        (weight_at (scope_of ground.now).task (seen visit.now))) }
    ensures broken { OnOk result (Takes explored.old.work.broken explored.new.work.broken
        (break_count_at (scope_of ground.now).task (seen visit.now))) }
    ensures past { IfErr result (λ e. OnLimit e
        (ExpansionPasses (scope_of ground.now) explored.old.reached.visits number visit.now
        explored.old.work.parts explored.old.work.broken)) }
{
    if is_marked(ground, visit.old, visit.way) {
        return Ok(());
    }
    let old = ground.old.view(visit.old);
    let new = ground.new.view(visit.new);
    let found = Comparison::of(alloc, old, new, steps)?;
    explored.work.take(old, new, found.breaks.as_slice().len())?;
    add_breaks(&mut explored.breaks, number, found.breaks.as_slice())?;
    let matches = found.matches.as_slice();
    add_partners(ground, &mut explored.reached, number, visit, matches)?;
    Ok(())
}

/// Explores all triples to which the roots lead, over the representatives of classes. Returns them with the first path to each, and
/// the broken rules of those whose old node is unmarked at its way. The classes are those of the two graphs; `is_scope` says what
/// the roots and the marks must satisfy. It takes one step for each visit whose types are compared. It fails where an allocation does,
/// and where the visits, their parts or their breaks are more than the table of limits allows for the types of both libraries.
pub fn explore<L: Ledger>(
    alloc: Global,
    ground: &GraphPair,
    steps: &mut Steps<L>,
) -> Result<Explored, NoMemory>
    requires { IsScope (scope_of ground.now) }
    ensures exploration { IfOk result (λ e. IsExploration (scope_of ground.now) e.visits e.breaks) }
    ensures few { IfOk result (λ e. length e.visits ≤ most_triples (scope_of ground.now)) }
    ensures steps { IfOk result (λ e. steps.new ≡ steps.old + compared_count (scope_of ground.now).task e.visits) }
    ensures cost { IfOk result (λ e. steps.new ≤ steps.old + length e.visits) }
    ensures bound { steps.new ≤ steps.old + most_triples (scope_of ground.now) }
    ensures within { IfOk result (λ e. AreWithin (scope_of ground.now) (map seen e.visits)) }
    ensures past { IfErr result (λ e. OnLimit e (ExplorationPasses (scope_of ground.now))) }
{
    steps_lead_to_nodes();
    ground.old.known();
    ground.new.known();
    ground.old_classes.known();
    ground.new_classes.known();
    let mut explored = Exploration::of(alloc, ground);
    add_roots(ground, &mut explored.reached)?;
    let mut number = 0;
    'list: while number < explored.reached.visits.len() {
        let visit = explored.reached.visits.visit(number);
        expand(alloc, ground, &mut explored, number, &visit, steps)?;
        number += 1;
    }
    Ok(Explored {
        visits: explored.reached.visits,
        breaks: explored.breaks,
    })
}
