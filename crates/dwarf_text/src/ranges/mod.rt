//! Range lists: the start of the first address range of a list.

mod constants;
mod entry;
mod first;
pub mod laws;
mod layout;
mod lists;

pub use first::{first_address, take_first};
pub use lists::ListAt;
