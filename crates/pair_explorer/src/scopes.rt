// Whether a caller's input may be explored.
ghost use Rattle.std.specs.Prelude.{◌≡◌, ◌<◌, ◌↔◌, length, IsTrue};
ghost use Rattle.pair_explorer.specs.GraphPairs.{scope_of};
ghost use Rattle.pair_explorer.specs.Scopes.{IsScope, AreInside, AreAscending, AreEvenMarks};

use crate::graph_pair::GraphPair;
use crate::roots::Root;
use abi_types::{Graph, Index, NewIx, OldIx};
use type_classes::Classes;

// Whether a root names nodes of both graphs.
fn is_inside(old: &Graph<OldIx>, new: &Graph<NewIx>, root: &Root) -> bool
    ensures { IsTrue result ↔ ((root.now.old < length old.now) × (root.now.new < length new.now)) }
{
    if root.old.number() >= old.len() {
        return false;
    }
    root.new.number() < new.len()
}

// Whether all roots name nodes of both graphs.
fn are_inside(old: &Graph<OldIx>, new: &Graph<NewIx>, roots: &[Root]) -> bool
    ensures { IsTrue result ↔ AreInside old.now new.now roots.now }
{
    for k in 0..roots.len() {
        if !is_inside(old, new, &roots[k]) {
            return false;
        }
    }
    true
}

// Whether the roots are in strictly ascending order of their exports.
fn are_ascending(roots: &[Root]) -> bool
    ensures { IsTrue result ↔ AreAscending roots.now }
{
    for k in 1..roots.len() {
        let before = &roots[k - 1];
        let root = &roots[k];
        if before.export >= root.export {
            return false;
        }
    }
    true
}

// Whether each node has a mark, and nodes of one class have the same mark.
fn are_even(flags: &[bool], classes: &Classes<OldIx>, nodes: usize) -> bool
    requires { nodes ≡ length classes.now.nodes }
    ensures { IsTrue result ↔ AreEvenMarks classes.now flags.now }
{
    classes.known();
    if flags.len() != nodes {
        return false;
    }
    for i in 0..nodes {
        let rep = classes.rep(OldIx::of(i));
        if flags[i] != flags[rep.number()] {
            return false;
        }
    }
    true
}

/// Whether `explore` may be called: the roots name nodes of the graphs, in strictly ascending order of their exports, and each old
/// node has a mark at each way, which is the same within a class.
pub fn is_scope(ground: &GraphPair) -> bool
    requires old_nodes { ground.now.old_classes.now.nodes ≡ ground.now.old.now }
    requires new_nodes { ground.now.new_classes.now.nodes ≡ ground.now.new.now }
    ensures { IsTrue result ↔ IsScope (scope_of ground.now) }
{
    if !are_inside(ground.old, ground.new, ground.roots) {
        return false;
    }
    if !are_ascending(ground.roots) {
        return false;
    }
    let nodes = ground.old.len();
    if !are_even(ground.marks.direct.as_slice(), ground.old_classes, nodes) {
        return false;
    }
    are_even(ground.marks.pointer.as_slice(), ground.old_classes, nodes)
}
