//! Composition of certificates: from one that a middle library may replace the first, and one that the last library may replace the
//! middle one, it makes the certificate that the last may replace the first.
#![tactic(auto)]

mod binds;
mod certified_chain;
mod composing;
mod fitting;
mod joins;
mod judge;
pub mod laws;
mod lines;
mod links;
mod middles;
mod refusal;
mod types;

pub use certified_chain::Chain;
pub use composing::compose;
pub use refusal::ComposeRefusal;
