//! Reports of breaks: rows, the texts of their parts, and listeners that make a text of rows in a style. A row is made from a break
//! and the two exports or types that it is about. Listeners hear the rows one by one, and close with a text.
#![tactic(auto)]

mod detail;
pub mod laws;
mod listener;
mod listeners;
mod place;
mod render;
mod row;
mod step;
mod style;
pub mod styles;
mod type_rows;
mod value;
mod values;
mod words;

pub use listener::{Listener, add_listener, tell_all};
pub use listeners::{CountsListener, FirstListener, TableListener, TextListener};
pub use place::push_place;
pub use row::{Row, Trail, export_row, soname_row, type_row};
pub use step::push_step;
pub use style::{More, Style};
pub use type_rows::type_detail;
pub use value::Value;
pub use words::kind_word;
