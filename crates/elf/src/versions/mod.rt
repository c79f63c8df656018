//! The symbol versions of a shared object: its version definitions, and the version of each dynamic symbol (GNU symbol
//! versioning: Linux Standard Base, "Symbol Versioning").

mod definitions;
mod indexes;
mod kept;
pub mod laws;
mod reading;
mod version;

pub use indexes::{index_at, index_table};
pub use kept::Versions;
pub use reading::versions;
pub use version::Version;
