//! Which exports lead to two types: those from which a path of steps goes to the types, over the nodes that stand for classes.
#![tactic(auto)]

mod arrows;
mod drawing;
mod leading;
mod numbers;
mod walk;

pub use arrows::{Arrow, mark_leading};
pub use drawing::arrows_of;
pub use leading::exports_to;
pub use numbers::{Numbers, numbers_of};
pub use walk::Walk;
