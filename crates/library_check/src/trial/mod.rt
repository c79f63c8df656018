//! What `abi trial` says: it checks two libraries that are made with this many functions, and summarizes the answer in two lines. Its
//! promises are in `specs/trial/Trials.antt`.

mod command;
pub mod laws;
mod summary;
mod trying;

pub use command::Trial;
pub use trying::try_libraries;
