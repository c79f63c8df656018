//! Laws of the definitions. Each law is the contract of a function that does nothing.
ghost use Rattle.std.specs.Prelude.{◌≡◌, ◌<◌, ℕ, List, true, false, length, nat_eq, Contains, Some, None};
ghost use Rattle.std.specs.List.{IsDistinct};
ghost use Rattle.abi_types.specs.Graphs.{IsGraph};
ghost use Rattle.dwarf_tree.specs.Trees.{entry_at, IsOrdered};
ghost use Rattle.type_reach.specs.Shapes.{has_shape};
ghost use Rattle.type_reach.specs.Sizes.{is_too_large};
ghost use Rattle.dwarf_entries.specs.Debug.{PlainDwarf};
ghost use Rattle.type_reach.specs.Reached.{IsWalk};
ghost use Rattle.type_reach.specs.ByValue.{IsTooDeep, IsClosed};
ghost use Rattle.type_reach.specs.TypeLaws.{TypeLaws};
ghost use Rattle.type_reach.specs.Faults.{types_fault};
ghost use Rattle.type_graph.specs.Nodes.{AreNodesOf, made_nodes, nodes_of};

use type_reach::laws::{depth_is_a_chain, laws_of_types, the_list_holds_the_reached};

/// Nodes made of what a walk found stand for exactly the reached entries and void: their views, read as entries, are those of
/// the entries, and so are their labels.
pub fn made_nodes_stand_for_entries()
    ensures { (d : PlainDwarf) → TypeLaws d → (roots found : List ℕ) → IsWalk d.tree roots found
        → IsClosed d.tree found → ((e : ℕ) → Contains found e → IsTooDeep d.tree (Some e) → ⊥)
        → AreNodesOf d roots (made_nodes d found) }
{}

/// Nodes made of what a walk found are a graph, where all have the shape of types and none is too deep or too large.
pub fn made_nodes_are_a_graph()
    ensures { (d : PlainDwarf) → TypeLaws d → (found : List ℕ) → IsClosed d.tree found
        → ((e : ℕ) → Contains found e → IsTooDeep d.tree (Some e) → ⊥)
        → ((e : ℕ) → Contains found e → has_shape d e ≡ true)
        → ((e : ℕ) → Contains found e → is_too_large d e ≡ false) → IsOrdered d.tree
        → ((e : ℕ) → e < length d.tree.entries → 0 < (entry_at d.tree e).offset) → IsDistinct nat_eq found
        → IsGraph (made_nodes d found) }
{}

/// Where the types that are reached have no fault, the nodes of the definition stand for exactly the reached entries and void:
/// their views, read as entries, are those of the entries, and so are their labels.
pub fn the_nodes_stand_for_the_reached()
    ensures { (d : PlainDwarf) (roots : List ℕ) → ((e : ℕ) → Contains roots e → e < length d.tree.entries)
        → types_fault d roots ≡ None → AreNodesOf d roots (nodes_of d roots) }
{
    laws_of_types();
    depth_is_a_chain();
    the_list_holds_the_reached();
    made_nodes_stand_for_entries();
}

/// Where the types that are reached have no fault, the nodes of the definition are a graph.
pub fn the_nodes_are_a_graph()
    ensures { (d : PlainDwarf) (roots : List ℕ) → ((e : ℕ) → Contains roots e → e < length d.tree.entries)
        → types_fault d roots ≡ None → IsOrdered d.tree → IsGraph (nodes_of d roots) }
{
    laws_of_types();
    depth_is_a_chain();
    the_list_holds_the_reached();
    made_nodes_are_a_graph();
}
