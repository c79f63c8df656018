//! The head of the JSON document of a run: all its members except the breaks. Inputs are read again for facts that the answer does
//! not have.
#![tactic(auto)]

mod ending;
mod files;
mod head;
mod libraries;
mod names;
mod outcomes;
mod places;

pub use ending::{Ending, Wanted, input_bytes};
pub use files::bytes_of;
pub use head::head_of;
