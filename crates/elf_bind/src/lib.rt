//! The exports of a library, with their versions, and which export of another library each of them binds to.
#![tactic(auto)]

mod binding;
mod codes;
mod duplicates;
mod exporting;
mod reading;

pub use binding::{bind_all, bind_in};
pub use exporting::same_name;
pub use reading::exports;
