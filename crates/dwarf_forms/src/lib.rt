//! Attribute values: how each form encodes one in `.debug_info`, where it ends, and the sections to which values refer.
#![tactic(auto)]

pub mod abbreviations;
mod forms;
pub mod laws;
mod meaning;
mod offsets;
mod sections;
mod source;
mod values;

pub use forms::{UnitSpan, fixed_end, fixed_size, value, value_end};
pub use offsets::{DebugAbbrevOffset, DebugInfoOffset, DebugLineStrOffset, DebugStrOffset};
pub use sections::Sections;
pub use values::Value;
