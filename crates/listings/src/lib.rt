//! `abi entries` and `abi exports`: a line for each debugging information entry of a library, or for each export.
#![tactic(auto)]

pub mod entries;
pub mod exports;

pub use entries::Entries;
pub use exports::Exports;
