// The arrows between visits.
ghost use Rattle.std.specs.Prelude.{◌≡◌, ◌<◌, ◌++◌, false, length, IfOk, OnOk};
ghost use Rattle.abi_types.specs.Graphs.{view_at};
ghost use Rattle.pair_rules.specs.Comparisons as comparisons;
ghost use Rattle.pair_rules.specs.Steps as steps_spec;
ghost use Rattle.pair_explorer.specs.GraphPairs.{scope_of};
ghost use Rattle.pair_explorer.specs.Scopes.{AreGraphs, HasNodes, rep_step};
ghost use Rattle.pair_explorer.specs.Visits.{seen};
ghost use Rattle.leading_exports.specs.Drawing.{all_arrows, arrow_to, arrows_along, arrows_from};
ghost use Rattle.leading_exports.specs.Walks.{IsWalk};

use crate::arrows::Arrow;
use crate::numbers::Numbers;
use crate::walk::{Walk, is_marked};
use abi_base::{List, NoMemory};
use pair_explorer::{GraphPair, Visit};
use pair_rules::laws::steps_lead_to_nodes;
use pair_rules::{Comparison, Steps, Triple, next_of};
use std::alloc::Global;
use std::sync::ledger::Ledger;

// The representatives to which the old part `i` leads from a visit, whose old node is unmarked at its way.
fn next_triple(
    ground: &GraphPair,
    visit: &Visit,
    matches: &[Option<usize>],
    i: usize,
) -> Option<Triple>
    requires nodes { HasNodes (scope_of ground.now) }
    requires graphs { AreGraphs (scope_of ground.now) }
    requires unmarked { steps_spec.is_marked (scope_of ground.now).task visit.now.old visit.now.way ≡ false }
    requires old { visit.now.old < length ground.now.old.now }
    requires new { visit.now.new < length ground.now.new.now }
    requires matches { matches.now
        ≡ comparisons.matches (view_at ground.now.old.now visit.now.old) (view_at ground.now.new.now visit.now.new) }
    requires inside { i < length (view_at ground.now.old.now visit.now.old).parts }
    ensures { result ≡ rep_step (scope_of ground.now) (seen visit.now) i }
{
    steps_lead_to_nodes();
    let old = ground.old.view(visit.old);
    let new = ground.new.view(visit.new);
    let next = next_of(old, new, matches, visit.way, i)?;
    Some(Triple {
        old: ground.old_classes.rep(next.old),
        new: ground.new_classes.rep(next.new),
        way: next.way,
    })
}

// Adds the arrow from a number to the number of a triple.
fn push_arrow(
    arrows: &mut List<Arrow>,
    numbers: &Numbers,
    from: usize,
    to: Option<Triple>,
) -> Result<(), NoMemory>
    ensures { OnOk result (arrows.new ≡ arrows.old ++ arrow_to numbers.now from to) }
{
    match to {
        None => Ok(()),
        Some(triple) => match numbers.get(&triple) {
            None => Ok(()),
            Some(number) => arrows.push((from, number)),
        },
    }
}

// The number of parts of a visit's old node.
fn parts_len(ground: &GraphPair, visit: &Visit) -> usize
    requires { visit.now.old < length ground.now.old.now }
    ensures { result ≡ length (view_at ground.now.old.now visit.now.old).parts }
{
    ground.old.view(visit.old).parts_len()
}

// Adds the arrows along the parts of a visit's old type; `matches` are the matching parts that its comparison found.
fn push_along(
    arrows: &mut List<Arrow>,
    walk: &Walk,
    number: usize,
    visit: &Visit,
    matches: &[Option<usize>],
) -> Result<(), NoMemory>
    requires nodes { HasNodes (scope_of walk.now.ground.now) }
    requires graphs { AreGraphs (scope_of walk.now.ground.now) }
    requires unmarked { steps_spec.is_marked (scope_of walk.now.ground.now).task visit.now.old visit.now.way ≡ false }
    requires old { visit.now.old < length walk.now.ground.now.old.now }
    requires new { visit.now.new < length walk.now.ground.now.new.now }
    requires matches { matches.now
        ≡ comparisons.matches (view_at walk.now.ground.now.old.now visit.now.old) (view_at walk.now.ground.now.new.now visit.now.new) }
    ensures { OnOk result (arrows.new
        ≡ arrows.old ++ arrows_along (scope_of walk.now.ground.now) walk.now.numbers.now number (seen visit.now) (length (view_at walk.now.ground.now.old.now visit.now.old).parts)) }
{
    'parts: for i in 0..parts_len(walk.ground, visit) {
        let next = next_triple(walk.ground, visit, matches, i);
        push_arrow(arrows, walk.numbers, number, next)?;
    }
    Ok(())
}

// Adds the arrows from a visit.
fn push_from<L: Ledger>(
    alloc: Global,
    arrows: &mut List<Arrow>,
    walk: &Walk,
    number: usize,
    steps: &mut Steps<L>,
) -> Result<(), NoMemory>
    requires walk { IsWalk (scope_of walk.now.ground.now) walk.now.visits.now walk.now.numbers.now }
    requires number { number < length walk.now.visits.now }
    ensures { OnOk result (arrows.new
        ≡ arrows.old ++ arrows_from (scope_of walk.now.ground.now) walk.now.visits.now walk.now.numbers.now number) }
{
    let visit = walk.visits.visit(number);
    if is_marked(walk.ground, visit.old, visit.way) {
        return Ok(());
    }
    walk.ground.old.known();
    walk.ground.new.known();
    let old = walk.ground.old.view(visit.old);
    let new = walk.ground.new.view(visit.new);
    let found = Comparison::of(alloc, old, new, steps)?;
    push_along(arrows, walk, number, &visit, found.matches.as_slice())
}

/// The arrows from each visit to the visits where its steps lead. It compares the types of each visit again.
pub fn arrows_of<L: Ledger>(
    alloc: Global,
    walk: &Walk,
    steps: &mut Steps<L>,
) -> Result<List<Arrow>, NoMemory>
    requires { IsWalk (scope_of walk.now.ground.now) walk.now.visits.now walk.now.numbers.now }
    ensures { IfOk result (λ arrows. arrows
        ≡ all_arrows (scope_of walk.now.ground.now) walk.now.visits.now walk.now.numbers.now) }
{
    let mut arrows = List::new(alloc);
    'visits: for number in 0..walk.visits.len() {
        push_from(alloc, &mut arrows, walk, number, steps)?;
    }
    Ok(arrows)
}
