//! The entries of all units of `.debug_info` as one compact tree.
#![tactic(auto)]

mod attribute_source;
mod ends;
mod entry_number;
mod entry_records;
mod head;
mod hints;
pub mod laws;
mod long_texts;
mod names;
mod reading;
mod roots;
mod searches;
mod shapes;
mod slots;
mod tagged;
mod tree;
mod tree_builder;

pub use entry_number::EntryNumber;
pub use head::Head;
pub use tree::{Tree, read_tree};
