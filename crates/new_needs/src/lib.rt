//! What a new file needs of other files that an old one does not: files (System V gABI, "Dynamic Section"), versions of files (Linux
//! Standard Base, "Symbol Versioning") and symbols that must be defined (System V gABI, "Symbol Table").
#![tactic(auto)]

mod between;
mod differing;
mod dynamic;
mod kept;
mod reading;
mod versions;

pub use between::new_needs;
pub use differing::lacking;
pub use dynamic::needed_files;
pub use kept::{FileNeeds, Needed};
pub use reading::read_needs;
pub use versions::all_versions;
