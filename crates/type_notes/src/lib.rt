//! Notes on types: differences in the debug information of compared types that no rule judges. Each kind of note has a definition
//! over the pairs of types and their entries, and the notes of a kind are exactly those of its definition.
#![tactic(auto)]

mod aspect;
mod between;
mod chain;
mod constants;
mod definition_texts;
mod definitions;
mod difference;
mod dimensions;
mod elsewhere;
mod entries;
mod lacking;
pub mod laws;
mod member_places;
mod names;
mod note;
mod noted_pair;
mod packing;
mod padding;
mod rest;
mod room;
mod said;
mod sign;
mod type_names;
mod type_pair;
mod unions;
mod walk;

pub use aspect::Aspect;
pub use between::{DwarfPair, push_differences};
pub use definitions::{DefinitionPair, Definitions};
pub use difference::Difference;
pub use entries::{EntryPair, push_changes};
pub use note::{Note, NoteKind, NoteWeight};
pub use noted_pair::NotedPair;
pub use padding::Bits;
pub use type_pair::{Packed, TypePair};
pub use walk::type_notes;
