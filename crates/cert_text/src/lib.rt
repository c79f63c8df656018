//! Certificates: how they are spelled as text, and how a text is read.
#![tactic(auto)]

mod cert;
mod draft;
mod first;
mod forms;
mod head;
pub mod laws;
mod line;
mod parts;
mod reading;
mod words;
mod writing;

pub use cert::Cert;
pub use first::{Cert1, migrate, read_cert_1};
pub use parts::{alike_new_of, alike_old_of, binds_of, pairs_of};
pub use reading::read_cert;
pub use writing::write_cert;
