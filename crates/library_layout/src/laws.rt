//! Laws about layouts, as the contracts of functions that only cite the laws below them.
ghost use Rattle.std.specs.Prelude.{◌≡◌, ◌≤◌, ℕ, List, None, length};
ghost use Rattle.abi_base.specs.Limits.{input_limit};
ghost use Rattle.library_read.specs.Faults.{library_fault};
ghost use Rattle.library_layout.specs.Covers.{CoversEachBit};
ghost use Rattle.library_layout.specs.Layouts.{HasNoTag, IsLayoutText};

use library_read::laws::nodes_stand_for_what_exports_reach;
use type_print::laws::{clean_rows_cover_each_bit_once, rows_are_determined, rows_name_clashes};

/// A library and a tag have exactly one answer: one text, or that no structure has the tag.
pub fn a_layout_has_one_answer()
    ensures text { (library tag text other : List ℕ) → length library ≤ input_limit → library_fault library ≡ None
        → IsLayoutText library tag text → IsLayoutText library tag other → text ≡ other }
    ensures tag { (library tag text : List ℕ) → IsLayoutText library tag text → HasNoTag library tag → ⊥ }
{
    rows_are_determined();
    nodes_stand_for_what_exports_reach();
}

/// If the rows of a layout have no overlap and no member that ends outside, each bit below the size of the structure is in exactly
/// one member, hole or padding, and no row reaches past the size. If members overlap or one ends outside, the layout has a row for
/// it.
pub fn a_layout_covers_each_bit()
    ensures { (library tag text : List ℕ) → IsLayoutText library tag text → CoversEachBit library tag text }
{
    clean_rows_cover_each_bit_once();
    rows_name_clashes();
}
