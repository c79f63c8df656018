//! Debugging information entries as types: which types functions and variables reach, and the properties that follow from the types
//! held by value. Contracts refer to entries by their positions in the plain tree, and do not mention graphs.
#![tactic(auto)]

mod arrays;
pub mod constants;
mod facts;
pub mod laws;
mod learning;
mod member_totals;
mod origins;
mod placement;
mod reached_entries;
mod references;
mod role;
mod rows;
mod searches;
mod start;
mod summaries;
mod type_references;
mod values;
mod visited_entries;
mod walking;

pub use facts::{Facts, Span, VOID};
pub use learning::{facts_at, facts_by_number, in_order, learn_all};
pub use placement::{is_nameless, is_out_of_range, width_of};
pub use reached_entries::ReachedEntries;
pub use references::{body_of, members_among, type_of};
pub use role::{Role, is_signed, role_of};
pub use start::Start;
pub use summaries::{Summary, summaries_of, summary_at, summary_by_number};
pub use type_references::{
    TypeReferences, member_type, own_type, part_type, parts_at, type_references_of, types_at,
    variadic_at,
};
pub use values::{counted_to, is_there, natural_of, number_at, place_of, wrapped_of};
pub use walking::reached;
