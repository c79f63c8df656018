//! Laws about trees, as the contracts of functions with empty bodies.
ghost use Rattle.std.specs.Prelude.{◌≡◌, ◌↔◌, ◌<◌, ◌≤◌, ◌+◌, ◌^◌, ℕ, List, Option, None, Some, Contains, filter, length, slice_get};
ghost use Rattle.dwarf_units.specs.Sequence.{entries_fault};
ghost use Rattle.dwarf_tree.specs.Parents.{HasOneParent, StandsBelow};
ghost use Rattle.dwarf_tree.specs.Trees.{IsOrdered, PlainTree, children_of, depth_at, from_child, is_after, next_child_of, tree_of};

use dwarf_units::laws::{
    a_unit_is_one_tree, tokens_stand_one_after_another, units_stand_one_after_another,
};

/// The tree of a section without a fault is in order. No section has more entries than bytes.
pub fn a_section_is_in_order()
    ensures ordered { (info abbrevs : List ℕ) → length info < 2 ^ 32 → entries_fault info abbrevs ≡ None
        → IsOrdered (tree_of info abbrevs) }
    ensures few { (info abbrevs : List ℕ) → length (tree_of info abbrevs).entries ≤ length info }
{
    a_unit_is_one_tree();
    units_stand_one_after_another();
    tokens_stand_one_after_another();
}

/// The children of an entry are the later entries that are one deeper, where all entries between them and the parent are deeper
/// than the parent (DWARF 5, section 2.3 "Relationship of Debugging Information Entries").
pub fn children_stand_one_deeper()
    ensures { (t : PlainTree) (e i : ℕ) → e < length t.entries → Contains (children_of t e) i ↔ StandsBelow t e i }
{}

/// If a section has no fault, each entry of a depth above 0 is the child of exactly one entry.
pub fn each_has_one_parent()
    ensures { (info abbrevs : List ℕ) (i : ℕ) → entries_fault info abbrevs ≡ None
        → i < length (tree_of info abbrevs).entries → 0 < depth_at (tree_of info abbrevs) i
        → HasOneParent (tree_of info abbrevs) i }
{
    a_unit_is_one_tree();
    units_stand_one_after_another();
    tokens_stand_one_after_another();
}

/// `next_child`, from the first child on, lists the children of an entry in order: the children after a position are the next child
/// and the children after that.
pub fn children_follow_one_another()
    ensures first { (t : PlainTree) (e : ℕ) → next_child_of t e None ≡ slice_get (children_of t e) 0 }
    ensures next { (t : PlainTree) (e k child : ℕ) → slice_get (children_of t e) k ≡ Some child
        → next_child_of t e (Some child) ≡ slice_get (children_of t e) (k + 1) }
    ensures left { (t : PlainTree) (e : ℕ) (after : Option ℕ)
        → filter (is_after after) (children_of t e) ≡ from_child t e (next_child_of t e after) }
{}
