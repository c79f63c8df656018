//! The meaning of debugging information entries: their names, the chains along which they inherit attributes, the addresses of
//! functions and variables, and look-ups by address and by signature.
#![tactic(auto)]

mod addresses;
mod attributes;
pub mod constants;
mod dwarf;
pub mod laws;
mod link;
mod links;
mod names;
mod pass;
mod places;
mod range_bytes;
mod source;
mod tags;
mod typed;
mod unit_context;

pub use dwarf::{Dwarf, tree};
