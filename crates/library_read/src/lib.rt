//! The whole reader of one library: from the bytes of a shared object to its exports and the types that they have.
#![tactic(auto)]

pub mod copy;
pub mod laws;
mod library;
mod listing;
mod room;
mod typing;

pub use library::{WithDebug, read_library, read_with_debug};
