//! The commands on the bytes of libraries, rule files and certificates. `abi check` says whether a new library may replace an old
//! one, and `abi app` whether it may for one application, each with the text that shows it. `abi verify` checks a certificate,
//! `abi migrate` converts one of version 1, and `abi compose` joins two certificates of a chain of three libraries. `abi trial` checks
//! two libraries that it generates. What each command reads and says is in a file of `specs/Rows`; when it says so is in
//! `specs/Checks.antt`, `specs/Applications.antt`, `specs/Verifications.antt`, `specs/Relations.antt`, `specs/Migrations.antt`,
//! `specs/Compositions.antt` and `specs/trial/Trials.antt`.
#![tactic(auto)]

mod app;
mod applying;
mod check;
mod checking;
mod compose;
mod composing;
mod judging;
pub mod laws;
mod migrate;
mod migrating;
mod remarks;
mod text;
pub mod trial;
mod verify;
mod verifying;

pub use app::App;
pub use check::Check;
pub use checking::{Pair, read_pair};
pub use compose::Compose;
pub use judging::judge;
pub use migrate::Migrate;
pub use trial::Trial;
pub use verify::Verify;
