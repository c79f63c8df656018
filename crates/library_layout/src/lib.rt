//! `abi layout`: for the bytes of a library and a tag, the lines of the layout of the structure with this tag. What the command reads
//! and says is in `specs/Command.antt`, and what a layout is in `specs/Layouts.antt` and `specs/Covers.antt`. Where no structure has
//! the tag, `near_tags` answers whether a union or an enumeration has it, and which tags are similar.
#![tactic(auto)]

mod command;
pub mod laws;
mod layouts;
mod libraries;
mod near;
mod others;

pub use command::Layout;
pub use libraries::{NearTags, layout_of, near_tags};
pub use others::OtherTag;
