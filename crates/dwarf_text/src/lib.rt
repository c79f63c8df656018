//! The strings and addresses to which attribute values refer.
#![tactic(auto)]

mod addresses;
mod bases;
mod ends;
pub mod ranges;
mod texts;

pub use addresses::address;
pub use bases::Bases;
pub use ends::texts_end;
pub use texts::{text, text_fault};
