//! The graph of the types that functions and variables reach: a node for each reached entry, and one for void.
#![tactic(auto)]

mod counts;
mod enumerations;
mod flatten;
mod graph;
mod judged;
mod judging;
mod labels;
pub mod laws;
mod limits;
mod nodes;
mod parts;
mod shapes;
mod sharing;
mod views;

pub use graph::raw_graph;
