//! The dynamic symbols of a shared object and its soname (System V gABI, "Symbol Table", "Dynamic Section").

mod dynamic;
pub mod laws;
mod strings;
mod symbol;
mod table;

pub use dynamic::{soname, tag_at, value_at};
pub use symbol::Symbol;
pub use table::symbols;
