//! `abi exports`: each export of a library with its label, its kind, its size, and where a call of it passes its arguments and its
//! result.

mod command;
mod lines;

pub use command::Exports;
pub use lines::export_lines;
