// The exploration of the types of two libraries.
ghost use Rattle.std.specs.Prelude.{◌≡◌, ◌≤◌, ◌+◌, length, map, IfOk, IfErr};
ghost use Rattle.abi_base.specs.Outcome.{OnLimit};
ghost use Rattle.pair_explorer.specs.Explorations.{IsExploration};
ghost use Rattle.pair_explorer.specs.ByClass.{IsSound};
ghost use Rattle.pair_explorer.specs.Limits.{AreWithin, ExplorationPasses};
ghost use Rattle.pair_explorer.specs.Visits.{seen};
ghost use Rattle.pair_compare.specs.BoundPair.{IsBinding, sides_of};
ghost use Rattle.pair_compare.specs.Explored.{most_steps, scope_of};
ghost use Rattle.pair_compare.specs.Marking.{AreMarksOf};

use crate::bound_pair::BoundPair;
use crate::laws::typed_pairs_can_be_explored;
use crate::typed::roots;
use abi_base::NoMemory;
use abi_types::{NewIx, OldIx};
use pair_explorer::{Explored, GraphPair, explore};
use pair_rules::Steps;
use std::alloc::Global;
use std::sync::ledger::Ledger;
use type_classes::Classes;

/// All pairs of types to which the compared exports lead, and the rules that they break. It takes at most one step for each pair.
pub fn explore_types<'x, 'c, 'o, 'n, L: Ledger>(
    alloc: Global,
    pair: &'x BoundPair<'x, 'o, 'n>,
    old_classes: &'x Classes<'c, 'o, OldIx>,
    new_classes: &'x Classes<'c, 'n, NewIx>,
    steps: &mut Steps<L>,
) -> Result<Explored, NoMemory>
    requires bound { IsBinding pair.now }
    requires marks { AreMarksOf pair.now.old.now pair.now.marks.now }
    requires old_nodes { old_classes.now.nodes ≡ pair.now.old.now.graph }
    requires new_nodes { new_classes.now.nodes ≡ pair.now.new.now.graph }
    ensures sound { IsSound (scope_of (sides_of pair.now) old_classes.now new_classes.now) }
    ensures explored { IfOk result (λ e. IsExploration
        (scope_of (sides_of pair.now) old_classes.now new_classes.now) e.visits e.breaks) }
    ensures cost { IfOk result (λ e. steps.new ≤ steps.old + length e.visits) }
    ensures bound { steps.new ≤ steps.old + most_steps (sides_of pair.now) }
    ensures within { IfOk result (λ e. AreWithin (scope_of (sides_of pair.now) old_classes.now new_classes.now)
        (map seen e.visits)) }
    ensures past { IfErr result (λ e. OnLimit e
        (ExplorationPasses (scope_of (sides_of pair.now) old_classes.now new_classes.now))) }
{
    typed_pairs_can_be_explored();
    old_classes.known();
    new_classes.known();
    let roots = roots(alloc, pair)?;
    let graphs = GraphPair {
        old: pair.old.graph(),
        new: pair.new.graph(),
        roots: roots.as_slice(),
        marks: pair.marks,
        old_classes,
        new_classes,
    };
    explore(alloc, &graphs, steps)
}
