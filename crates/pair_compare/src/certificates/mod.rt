//! The certificate that a new library may replace an old one, made from a search that found no break.

mod alike;
mod binds;
pub mod laws;
mod lists;
mod making;
mod pairs;

pub use making::make_cert;
