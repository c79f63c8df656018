//! `abi entries`: each debugging information entry of a library with its offset, its depth and its tag.

mod command;
mod lines;

pub use command::Entries;
pub use lines::entry_lines;
