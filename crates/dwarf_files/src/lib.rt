//! Names of source files, from the headers of line programs in `.debug_line`.
#![tactic(auto)]

mod entries;
mod formats;
mod headers;
mod heads;
pub mod laws;
mod names;
mod sections;
mod tables;
mod texts;

pub use names::FileNames;
pub use sections::LineSections;
pub use texts::join;
