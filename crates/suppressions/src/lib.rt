//! What a packager's rule file suppresses in the old library: exports that are not compared, and types that are not compared if a
//! program reaches them by value, or through a pointer.
#![tactic(auto)]

mod accessed_through;
mod block;
pub mod boxed;
pub mod compiled;
mod handle;
mod handle_order;
pub mod laws;
mod limits;
mod marking;
pub mod ready_section;
pub mod subject;
mod weight;

pub use accessed_through::kind_number;
pub use marking::{drops_export, drops_labels, marks};
pub use suppression_text::{RuleRefusal, Rules, read_rules};
