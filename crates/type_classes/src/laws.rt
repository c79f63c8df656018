//! Laws about alike nodes and stable classes, as the contracts of functions with empty bodies.
ghost use Rattle.std.specs.Prelude.{◌≡◌, ◌<◌, ℕ, List, length};
ghost use Rattle.abi_types.specs.Types.{PlainNode, PlainView};
ghost use Rattle.abi_types.specs.Graphs.{IsGraph, node_at, view_at};
ghost use Rattle.pair_rules.specs.TypeRules.{breaks};
ghost use Rattle.pair_rules.specs.Partners.{partner_at};
ghost use Rattle.abi_types.specs.ClassLooks.{look_of};
ghost use Rattle.type_classes.specs.Alike.{AreAlike, KeepsAlike};
ghost use Rattle.pair_rules.specs.Stable.{IsStable};
ghost use Rattle.type_classes.specs.Classes.{PlainClasses, AreSound, AreCoarsest, IsLeastEntry, rep_of};

use pair_rules::laws::rules_see_no_nodes;

/// If the classes of a graph are stable, nodes of one class are alike.
pub fn what_is_stable_is_alike()
    ensures { (nodes : List PlainNode) (class : ℕ → ℕ) → IsGraph nodes → IsStable nodes class → (i j : ℕ)
        → i < length nodes → j < length nodes
        → class i ≡ class j → AreAlike nodes i j }
{}

/// Alikeness is reflexive, symmetric and, on the nodes of a graph, transitive.
pub fn alike_is_an_equivalence()
    ensures reflexive { (nodes : List PlainNode) (i : ℕ) → AreAlike nodes i i }
    ensures symmetric { (nodes : List PlainNode) (i j : ℕ) → AreAlike nodes i j → AreAlike nodes j i }
    ensures transitive { (nodes : List PlainNode) (i j k : ℕ) → IsGraph nodes → i < length nodes → j < length nodes
        → k < length nodes
        → AreAlike nodes i j → AreAlike nodes j k → AreAlike nodes i k }
{}

/// A type breaks the same rules against alike nodes, and its parts have partners at the same positions, whether the alike nodes are
/// the old ones or the new ones.
pub fn alike_nodes_break_the_same_rules()
    ensures old { (nodes : List PlainNode) (i j : ℕ) (w : PlainView) → AreAlike nodes i j
        → breaks (view_at nodes i) w ≡ breaks (view_at nodes j) w }
    ensures new { (nodes : List PlainNode) (i j : ℕ) (v : PlainView) → AreAlike nodes i j
        → breaks v (view_at nodes i) ≡ breaks v (view_at nodes j) }
    ensures old_partners { (nodes : List PlainNode) (i j : ℕ) (w : PlainView) (k : ℕ) → AreAlike nodes i j
        → partner_at (view_at nodes i) w k ≡ partner_at (view_at nodes j) w k }
    ensures new_partners { (nodes : List PlainNode) (i j : ℕ) (v : PlainView) (k : ℕ) → AreAlike nodes i j
        → partner_at v (view_at nodes i) k ≡ partner_at v (view_at nodes j) k }
{
    rules_see_no_nodes();
}

/// Given classes that alike nodes share, alike nodes look the same, with each node that a part names replaced by its class.
pub fn alike_nodes_look_the_same()
    ensures { (nodes : List PlainNode) (class : ℕ → ℕ) → IsGraph nodes → KeepsAlike nodes class → (i j : ℕ)
        → AreAlike nodes i j
        → look_of class (node_at nodes i) ≡ look_of class (node_at nodes j) }
{}

/// If nodes share a class exactly where they are alike, the entry of a class's representative is the least one among the nodes
/// alike to a member, and no other entry is.
pub fn classes_stand_by_their_least_entries()
    ensures stands { (c : PlainClasses) (a : ℕ) → AreSound c → AreCoarsest c → a < length c.nodes
        → IsLeastEntry c.nodes (node_at c.nodes (rep_of c a)).entry a }
    ensures alone { (c : PlainClasses) (entry a : ℕ) → AreSound c → AreCoarsest c → a < length c.nodes
        → IsLeastEntry c.nodes entry a → (node_at c.nodes (rep_of c a)).entry ≡ entry }
{}
