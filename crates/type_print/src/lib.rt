//! The layout of a structure: the rows of its members, holes, padding and overlaps, and the text of these rows.
#![tactic(auto)]

mod extent;
mod find;
mod fitting;
pub mod laws;
mod lines;
mod overlaps;
mod row;
mod rows;
mod structure;

pub use extent::Extent;
pub use find::find_tag;
pub use lines::layout_lines;
pub use row::LayoutRow;
pub use rows::rows_of;
pub use structure::layout;
