// The exports that lead to two types.
ghost use Rattle.std.specs.Prelude.{◌≡◌, ◌<◌, ◌≤◌, ◌+◌, ◌⊎◌, length, filter, map, slice_get, Some, IfErr, IfOk, OnOk, ℕ, List};
ghost use Rattle.abi_base.specs.declared.fault.NoMemory.TheVariants.{Allocation, Past};
ghost use Rattle.pair_rules.specs.Steps.{PlainRoot};
ghost use Rattle.pair_explorer.specs.GraphPairs.{scope_of};
ghost use Rattle.pair_explorer.specs.Scopes.{HasNodes};
ghost use Rattle.leading_exports.specs.Drawing.{all_arrows};
ghost use Rattle.leading_exports.specs.Leading.{AreLeading, least_effort};
ghost use Rattle.leading_exports.specs.Leading as spec;
ghost use Rattle.leading_exports.specs.Walks.{IsWalk};

use crate::arrows::{Arrow, mark_leading};
use crate::walk::{Walk, is_marked};
use abi_base::{Effort, List, NoMemory};
use abi_types::{Index, NewIx, OldIx, Way};
use pair_explorer::laws::what_is_visited_has_a_visit;
use pair_explorer::{GraphPair, Root, Visit};
use pair_rules::Triple;
use pair_rules::laws::steps_lead_to_nodes;
use std::alloc::Global;

// The effort for a root: looking it up costs about as much as reading 16 marks.
const ROOT: usize = 16;

// Whether a visit is of two types, and its old node is unmarked at its way.
fn is_of_pair(ground: &GraphPair, old: OldIx, new: NewIx, visit: &Visit) -> bool
    ensures { result ≡ spec.is_of_pair (scope_of ground.now) old new visit.now }
{
    visit.old.number() == old.number()
        && visit.new.number() == new.number()
        && !is_marked(ground, visit.old, visit.way)
}

// A mark for each visit: whether it is of the two types, with an old node that is unmarked at its way.
fn marks_of(alloc: Global, walk: &Walk, old: OldIx, new: NewIx) -> Result<Vec<bool>, NoMemory>
    ensures ok { IfOk result (λ marks. marks.items
        ≡ map (spec.is_of_pair (scope_of walk.now.ground.now) old new) walk.now.visits.now) }
    ensures named { IfErr result (λ e. e ≡ Allocation) }
{
    let mut marks = Vec::new(alloc);
    'visits: for number in 0..walk.visits.len() {
        let visit = walk.visits.visit(number);
        marks.push(is_of_pair(walk.ground, old, new, &visit))?;
    }
    Ok(marks)
}

// Whether the triple to which a root leads is marked.
#[tactic(auto, unfolding(crate::specs::Leading::is_lead))]
fn is_lead(walk: &Walk, marks: &[bool], root: &Root) -> bool
    requires nodes { HasNodes (scope_of walk.now.ground.now) }
    requires old { root.now.old < length walk.now.ground.now.old.now }
    requires new { root.now.new < length walk.now.ground.now.new.now }
    ensures { result ≡ spec.is_lead (scope_of walk.now.ground.now) walk.now.numbers.now marks.now root.now }
{
    let triple = Triple {
        old: walk.ground.old_classes.rep(root.old),
        new: walk.ground.new_classes.rep(root.new),
        way: Way::Direct,
    };
    match walk.numbers.get(&triple) {
        None => false,
        Some(number) => match marks.get(number) {
            None => false,
            Some(mark) => *mark,
        },
    }
}

// The exports of the roots that lead to a marked triple.
fn leads_of(alloc: Global, walk: &Walk, marks: &[bool]) -> Result<List<u32>, NoMemory>
    requires { HasNodes (scope_of walk.now.ground.now) }
    ensures ok { IfOk result (λ exports. exports
        ≡ map (λ (root : PlainRoot). root.export) (filter (spec.is_lead (scope_of walk.now.ground.now) walk.now.numbers.now marks.now) walk.now.ground.now.roots.now)) }
    ensures named { IfErr result (λ e. e ≡ Allocation) }
{
    let mut exports = Vec::new(alloc);
    let roots = walk.ground.roots;
    'roots: for k in 0..roots.len() {
        let root = roots[k];
        if is_lead(walk, marks, &root) {
            exports.push(root.export)?;
        }
    }
    Ok(List::of(exports))
}

/// The exports that lead to two types, in ascending order; `arrows` are those that `arrows_of` returned. It takes one byte's effort
/// for each visit and each arrow, 16 for each root, and one for each arrow again in each pass except the last. If less is left, it
/// returns `NoMemory`.
pub fn exports_to(
    alloc: Global,
    walk: &Walk,
    arrows: &[Arrow],
    pair: (OldIx, NewIx),
    effort: &mut Effort,
) -> Result<List<u32>, NoMemory>
    requires walk { IsWalk (scope_of walk.now.ground.now) walk.now.visits.now walk.now.numbers.now }
    requires arrows { arrows.now ≡ all_arrows (scope_of walk.now.ground.now) walk.now.visits.now walk.now.numbers.now }
    ensures leading { IfOk result (AreLeading (scope_of walk.now.ground.now) pair.0 pair.1) }
    ensures least { OnOk result (effort.new.left
        + least_effort (length walk.now.visits.now) (length arrows.now) (length walk.now.ground.now.roots.now)
        ≤ effort.old.left) }
    ensures spent { effort.new.left ≤ effort.old.left }
    ensures named { IfErr result (λ e. (e ≡ Allocation) ⊎ (e ≡ Past effort.old.limit)) }
    ensures limit { effort.new.limit ≡ effort.old.limit }
{
    what_is_visited_has_a_visit();
    steps_lead_to_nodes();
    let (old, new) = pair;
    effort.spend(walk.visits.len())?;
    effort.spend(arrows.len())?;
    effort.spend(walk.ground.roots.len().saturating_mul(ROOT))?;
    let mut marks = marks_of(alloc, walk, old, new)?;
    mark_leading(arrows, marks.as_mut_slice(), effort)?;
    leads_of(alloc, walk, marks.as_slice())
}
