//! The rows of a report on two libraries, made from the bindings of the old exports and from an exploration of the types.

mod exports;
pub mod laws;
mod lookups;
mod paths;
mod right_report;
mod rows;
mod type_findings;

pub use paths::{label_at, steps_text};
pub use right_report::report_rows;
