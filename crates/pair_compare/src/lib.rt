//! Whether a new library may replace an old one: the result is a certificate if it may, and the rows of a report if not.
#![tactic(auto)]

mod bound_pair;
pub mod certificates;
mod comparing;
mod empty;
mod exploring;
mod finished;
pub mod laws;
pub mod reports;
mod typed;

pub use bound_pair::BoundPair;
pub use comparing::{Comparison, Verdict, View, compare, compare_by, verdict_of};
pub use empty::unmarked;
pub use exploring::explore_types;
pub use finished::Compared;
pub use typed::roots;
