//! The rules that a new library may break: those on an old export and the new one to which it binds, and those on two types. The
//! crate also defines which parts of two types are compared further, and which relations between the types of two libraries are
//! closed under the rules.
#![tactic(auto)]

mod comparison;
mod exports;
pub mod laws;
mod matching;
mod rules;
mod steps;
mod triple;
mod weights;

pub use comparison::{Comparison, breaks, next_of};
pub use exports::export_breaks;
pub use matching::{after, match_of, number_of, partner, partner_at};
pub use rules::{Broken, bit_at, holds, params_of, value_at, width_at};
pub use steps::Steps;
pub use triple::Triple;
pub use weights::{part_budget, take_parts, weight_between};
