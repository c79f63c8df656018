//! Where debugging information entries are declared in the source: a file and a line, read on demand.
#![tactic(auto)]

mod coordinates;
mod known;
pub mod laws;
mod place;
mod places;
mod reader;
mod roots;
mod unit_files;
mod values;

pub use place::DeclarationPlace;
pub use places::EntryPlaces;
pub use reader::PlaceReader;
