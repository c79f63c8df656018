//! The idle sections of a rule file: those that match nothing in the old library, so that a packager may delete them.
#![tactic(auto)]

mod idle;
mod names;

pub use idle::idle_sections;
