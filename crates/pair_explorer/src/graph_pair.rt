// The input of an exploration, and how one triple leads to others.
ghost use Rattle.std.specs.Prelude.{◌≡◌, ◌<◌, length, false, Some, OnOk, IfErr, IfSome};
ghost use Rattle.abi_base.specs.Outcome.{OnLimit};
ghost use Rattle.abi_types.specs.Graphs.{view_at};
ghost use Rattle.pair_rules.specs.Comparisons as comparisons;
ghost use Rattle.pair_rules.specs.Steps as steps;
ghost use Rattle.pair_explorer.specs.Visits.{seen};
ghost use Rattle.pair_explorer.specs.Adding.{entered};
ghost use Rattle.pair_explorer.specs.Adding as adding;
ghost use Rattle.pair_explorer.specs.GraphPairs.{scope_of};
ghost use Rattle.pair_explorer.specs.Scopes.{HasNodes, AreGraphs};
ghost use Rattle.pair_explorer.specs.Spending.{IsCounted, VisitsPass};

use crate::reached::Reached;
use crate::roots::Root;
use crate::visits::{Parent, Visit};
use abi_base::NoMemory;
use abi_types::{Graph, Index, Marks, NewIx, OldIx, Way};
use pair_rules::laws::steps_lead_to_nodes;
use pair_rules::next_of;
use type_classes::Classes;

/// Two graphs, the roots where an exploration begins, the marks where it stops, and the classes of the nodes. The lifetimes are
/// those of the caller's graphs and classes.
#[derive(Clone, Copy)]
pub struct GraphPair<'x, 'o, 'n, 'og, 'oc, 'ng, 'nc> {
    /// The graph of the old library's types.
    pub old: &'x Graph<'o, OldIx>,
    /// The graph of the new library's types.
    pub new: &'x Graph<'n, NewIx>,
    /// The pairs of types where the exploration begins.
    pub roots: &'x [Root],
    /// The marks of the old nodes.
    pub marks: &'x Marks,
    /// The classes of the old nodes.
    pub old_classes: &'x Classes<'og, 'oc, OldIx>,
    /// The classes of the new nodes.
    pub new_classes: &'x Classes<'ng, 'nc, NewIx>,
}

/// Whether an old node is marked at a way.
pub fn is_marked(ground: &GraphPair, node: OldIx, way: Way) -> bool
    ensures { result ≡ steps.is_marked (scope_of ground.now).task node way }
{
    let flags = match way {
        Way::Direct => ground.marks.direct.as_slice(),
        Way::Pointer => ground.marks.pointer.as_slice(),
    };
    match flags.get(node.number()) {
        Some(mark) => *mark,
        None => false,
    }
}

// The visit of a root.
#[tactic(auto, unfolding(crate::specs::Adding::root_visit))]
fn root_visit(ground: &GraphPair, k: usize) -> Visit
    requires inside { k < length ground.now.roots.now }
    requires nodes { HasNodes (scope_of ground.now) }
    ensures visit { Some result ≡ adding.root_visit (scope_of ground.now) k }
    ensures inside { (result.old < length ground.now.old.now) × (result.new < length ground.now.new.now) }
{
    let root = ground.roots[k];
    Visit {
        old: ground.old_classes.rep(root.old),
        new: ground.new_classes.rep(root.new),
        way: Way::Direct,
        parent: Parent::Root {
            export: root.export,
        },
    }
}

/// Adds the visits of the roots.
pub(crate) fn add_roots(ground: &GraphPair, reached: &mut Reached) -> Result<(), NoMemory>
    requires nodes { HasNodes (scope_of ground.now) }
    requires counted { IsCounted (scope_of ground.now) reached.old.visits reached.old.pairs }
    ensures visits { OnOk result (reached.new.visits
        ≡ entered (adding.root_visit (scope_of ground.now)) (length ground.now.roots.now) reached.old.visits) }
    ensures counted { OnOk result (IsCounted (scope_of ground.now) reached.new.visits reached.new.pairs) }
    ensures past { IfErr result (λ e. OnLimit e
        (VisitsPass (scope_of ground.now) (entered (adding.root_visit (scope_of ground.now))
        (length ground.now.roots.now) reached.old.visits))) }
{
    for k in 0..ground.roots.len() {
        let visit = root_visit(ground, k);
        reached.add(&visit)?;
    }
    Ok(())
}

// The visit to which the old part `i` leads from a visit, whose old node is unmarked at its way.
fn next_visit(
    ground: &GraphPair,
    number: usize,
    visit: &Visit,
    matches: &[Option<usize>],
    i: usize,
) -> Option<Visit>
    requires nodes { HasNodes (scope_of ground.now) }
    requires graphs { AreGraphs (scope_of ground.now) }
    requires unmarked { steps.is_marked (scope_of ground.now).task visit.now.old visit.now.way ≡ false }
    requires old { visit.now.old < length ground.now.old.now }
    requires new { visit.now.new < length ground.now.new.now }
    requires matches { matches.now
        ≡ comparisons.matches (view_at ground.now.old.now visit.now.old) (view_at ground.now.new.now visit.now.new) }
    requires inside { i < length (view_at ground.now.old.now visit.now.old).parts }
    ensures visit { result ≡ adding.next_visit (scope_of ground.now) number (seen visit.now) i }
    ensures inside { IfSome result (λ v. (v.old < length ground.now.old.now) × (v.new < length ground.now.new.now)) }
{
    steps_lead_to_nodes();
    let old = ground.old.view(visit.old);
    let new = ground.new.view(visit.new);
    let next = next_of(old, new, matches, visit.way, i)?;
    Some(Visit {
        old: ground.old_classes.rep(next.old),
        new: ground.new_classes.rep(next.new),
        way: next.way,
        parent: Parent::Step {
            visit: number,
            part: i,
        },
    })
}

// The number of parts of a visit's old node.
fn parts_len(ground: &GraphPair, visit: &Visit) -> usize
    requires { visit.now.old < length ground.now.old.now }
    ensures { result ≡ length (view_at ground.now.old.now visit.now.old).parts }
{
    ground.old.view(visit.old).parts_len()
}

/// Adds all visits to which a visit leads; `matches` are the matching parts that its comparison found. Its old node is unmarked at
/// its way.
pub(crate) fn add_partners(
    ground: &GraphPair,
    reached: &mut Reached,
    number: usize,
    visit: &Visit,
    matches: &[Option<usize>],
) -> Result<(), NoMemory>
    requires nodes { HasNodes (scope_of ground.now) }
    requires graphs { AreGraphs (scope_of ground.now) }
    requires unmarked { steps.is_marked (scope_of ground.now).task visit.now.old visit.now.way ≡ false }
    requires old { visit.now.old < length ground.now.old.now }
    requires new { visit.now.new < length ground.now.new.now }
    requires matches { matches.now
        ≡ comparisons.matches (view_at ground.now.old.now visit.now.old) (view_at ground.now.new.now visit.now.new) }
    requires counted { IsCounted (scope_of ground.now) reached.old.visits reached.old.pairs }
    ensures visits { OnOk result (reached.new.visits
        ≡ entered (adding.next_visit (scope_of ground.now) number (seen visit.now)) (length (view_at ground.now.old.now visit.now.old).parts) reached.old.visits) }
    ensures counted { OnOk result (IsCounted (scope_of ground.now) reached.new.visits reached.new.pairs) }
    ensures past { IfErr result (λ e. OnLimit e
        (VisitsPass (scope_of ground.now) (entered
        (adding.next_visit (scope_of ground.now) number (seen visit.now))
        (length (view_at ground.now.old.now visit.now.old).parts) reached.old.visits))) }
{
    for i in 0..parts_len(ground, visit) {
        if let Some(next) = next_visit(ground, number, visit, matches, i) {
            reached.add(&next)?;
        }
    }
    Ok(())
}
