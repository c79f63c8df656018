//! Laws about the definition of a library. Each law is the contract of a function that does nothing.
ghost use Rattle.std.specs.Prelude.{◌≡◌, ◌∷◌, ◌≤◌, ℕ, List, [], length, All, None};
ghost use Rattle.abi_base.specs.Limits.{input_limit};
ghost use Rattle.abi_types.specs.Calls.{IsSameButCall};
ghost use Rattle.abi_types.specs.Graphs.{IsGraph, node_at, view_at, void_node};
ghost use Rattle.abi_types.specs.Libraries.{IsLibrary};
ghost use Rattle.elf.specs.sections.DebugSections.{debug_info};
ghost use Rattle.psabi.specs.Calls.{call_of};
ghost use Rattle.type_graph.specs.Nodes.{AreNodesOf};
ghost use Rattle.library_read.specs.Debug.{debug_of};
ghost use Rattle.library_read.specs.Exports.{entry_for, roots_of, typed_exports_of, untyped_exports_of};
ghost use Rattle.library_read.specs.Faults.{debug_fault, library_fault};
ghost use Rattle.library_read.specs.Laws.{HasItsEntry};
ghost use Rattle.library_read.specs.Libraries.{graph_of, uncalled_graph_of};

use abi_types::laws::shapes_change_calls_alone;
use dwarf_entries::laws::the_first_entry_stands_for_an_address;
use dwarf_tree::laws::a_section_is_in_order;
use elf::symbols::laws::symbols_fill_their_table;
use psabi::laws::{given_calls_are_right, given_calls_have_places};
use type_graph::laws::{the_nodes_are_a_graph, the_nodes_stand_for_the_reached};
use type_reach::laws::laws_of_types;

/// In a file without a fault the entry of each export is that of a node, which is void if the export has none; the exports are
/// in order of their symbols; and the call of each function has a place for each of its parameters.
pub fn readable_files_are_libraries()
    ensures { (f : List ℕ) → length f ≤ input_limit → library_fault f ≡ None
        → IsLibrary (typed_exports_of f) (graph_of f) }
{
    a_section_is_in_order();
    symbols_fill_their_table();
    shapes_change_calls_alone();
    given_calls_have_places();
    the_nodes_stand_for_the_reached();
    the_nodes_are_a_graph();
}

/// In a file without a fault the types that its exports reach have nodes: one for each reached entry and one for void, and no
/// others. With the places of calls they differ in those places alone, which are the ones of each node's function.
pub fn nodes_stand_for_what_exports_reach()
    ensures nodes { (f : List ℕ) → library_fault f ≡ None → AreNodesOf (debug_of f) (roots_of f) (uncalled_graph_of f) }
    ensures graph { (f : List ℕ) → length f ≤ input_limit → library_fault f ≡ None → IsGraph (graph_of f) }
    ensures many { (f : List ℕ) → length (graph_of f) ≡ length (uncalled_graph_of f) }
    ensures same { (f : List ℕ) (i : ℕ) → IsSameButCall (node_at (uncalled_graph_of f) i) (node_at (graph_of f) i) }
    ensures calls { (f : List ℕ) → length f ≤ input_limit → library_fault f ≡ None → (i : ℕ)
        → (view_at (graph_of f) i).call ≡ call_of (graph_of f) i }
{
    a_section_is_in_order();
    shapes_change_calls_alone();
    given_calls_are_right();
    the_nodes_stand_for_the_reached();
    the_nodes_are_a_graph();
}

/// In a file without a fault each export has the first entry that stands for its address, and none where none does or where its
/// value is no address of its own.
pub fn exports_have_the_first_entry_at_their_address()
    ensures { (f : List ℕ) → length f ≤ input_limit → library_fault f ≡ None
        → All (λ e. HasItsEntry (debug_of f) e (entry_for (debug_of f) e)) (typed_exports_of f) }
{
    a_section_is_in_order();
    the_first_entry_stands_for_an_address();
}

/// A file without debug information has no fault in it, exports without types, and void as the only node.
pub fn files_without_debug_information_have_no_types()
    ensures fault { (f : List ℕ) → debug_info f ≡ [] → debug_fault f (untyped_exports_of f) ≡ None }
    ensures exports { (f : List ℕ) → debug_info f ≡ [] → typed_exports_of f ≡ untyped_exports_of f }
    ensures graph { (f : List ℕ) → debug_info f ≡ [] → graph_of f ≡ void_node ∷ [] }
{
    laws_of_types();
}
