//! Where a call passes its result and its arguments, from the sizes, alignments and classes of objects, by the
//! System V psABI for x86-64, sections 3.1.2 "Data Representation" and 3.2.3 "Parameter Passing".
#![tactic(auto)]

mod alignment;
mod argument;
mod argument_registers;
mod calling;
mod class;
mod classification;
mod cleanup;
mod descent;
mod eightbytes;
mod found;
mod inside;
mod kinds;
pub mod laws;
mod outcome;
mod overlong_members;
mod registers;
mod rows;
mod sizes;
mod touching;
mod walks;

pub use alignment::{alignments, size};
pub use calling::{call_shape, call_shapes};
pub use class::Class;
pub use classification::classes;
