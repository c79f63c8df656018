//! The imports of an application, and the exports of a library that it uses.
#![tactic(auto)]

mod import;
mod linking;
mod narrowing;
mod needed;
mod offered;
mod reading;
mod using;

pub use import::Import;
pub use linking::{Links, links_between};
pub use narrowing::narrow;
pub use reading::read_app;
pub use using::used;
