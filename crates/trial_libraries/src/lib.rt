//! Generated libraries with any number of functions, for trials of the checker: ELF-64 x86-64 shared objects with debug
//! units, written byte by byte. Each function takes a pointer into a ring of structures. The rings of an old library and of
//! its new one differ in length.
#![tactic(auto)]

mod abbreviations;
mod bytes;
mod constants;
mod file;
pub mod laws;
mod making;
mod symbols;
mod units;

pub use making::{GenRefusal, MOST_FUNCTIONS, Side, make};
