//! Notes on exports: differences that no rule judges, in the exports of two libraries or in the types that exports lead to. Each
//! kind of note has a definition, and the list of a kind holds exactly the notes of that definition.
#![tactic(auto)]

pub mod added;
pub mod affected;
mod between;
mod counts;
pub mod idle;
pub mod laws;
mod lines;
pub mod making;
pub mod needs;
pub mod old_exports;
mod said_once;
pub mod stems;
pub mod successors;
pub mod threads;
mod types;
mod version_list;
pub mod versions;

pub use between::export_notes;
pub use counts::{Counts, Fate, counts_of};
pub use lines::note_text;
pub use types::{Beside, all_beside, all_notes};
