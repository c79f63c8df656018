//! The breaks of a report as JSON (RFC 8259, "The JavaScript Object Notation Data Interchange Format"), and documents that contain
//! them.
#![tactic(auto)]

mod breaks;
mod document;
mod kept;
mod listener;
mod strings;
mod values;

pub use document::with_member;
pub use kept::TextSink;
pub use listener::JsonListener;
