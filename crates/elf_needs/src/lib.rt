//! What a file needs of other files by GNU symbol versioning: the version index of each symbol, and for each index the
//! version and the file that must define it (Linux Standard Base, "Symbol Versioning").
#![tactic(auto)]

pub mod constants;
mod entries;
mod kept;
pub mod laws;
mod numbered;
mod reading;
mod records;
mod symbols;

pub use kept::{Need, Needs};
pub use numbered::Indexes;
pub use reading::needs;
pub use symbols::indexes;
