//! Laws about layouts of any members, as the contracts of functions with empty bodies.
ghost use Rattle.type_print.specs.Laws.{CleanRowsCoverEachBitOnce, RowsAreDetermined, RowsNameClashes};

/// If no row is an overlap or a member that ends outside, each bit below the size of the structure is in exactly one row: a member,
/// a hole or padding. No row reaches past the size.
pub fn clean_rows_cover_each_bit_once()
    ensures { CleanRowsCoverEachBitOnce }
{}

/// A member that shares bits with an earlier one has an overlap row, and one that ends past the size has an outside row.
pub fn rows_name_clashes()
    ensures { RowsNameClashes }
{}

/// The definition of a layout is complete: all lists of rows for the same members are equal.
pub fn rows_are_determined()
    ensures { RowsAreDetermined }
{}
