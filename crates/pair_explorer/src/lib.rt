//! All pairs of types to which the bound exports of two libraries lead, with the rules that they break and the first path to each
//! pair. Of types that cannot be told apart, only one is visited.
#![tactic(auto)]

mod exploring;
mod graph_pair;
pub mod laws;
mod reached;
mod roots;
mod routes;
mod scopes;
mod visits;

pub use exploring::{Explored, explore};
pub use graph_pair::GraphPair;
pub use roots::Root;
pub use routes::{Route, route_to};
pub use scopes::is_scope;
pub use visits::{Parent, Visit, Visits};
