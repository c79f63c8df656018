//! Classes of alike nodes. Each unit of a library repeats the types of its headers, and types that cannot be told apart need to be
//! compared only once.
#![tactic(auto)]

mod blocks;
mod classes;
mod edges;
pub mod laws;
mod refine;
mod reps;
mod same;
mod shapes;
mod spelling;
mod split;

pub use classes::{Classes, alike, alike_beside, plain};
