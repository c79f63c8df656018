//! Which report the caller wants, and the listeners that hear it. `specs/styles/Wanted.antt` has the definitions.

mod report_option;

pub use report_option::{ReportStyle, wanted_listeners};
