//! Abbreviation tables of `.debug_abbrev`: the tag and the attributes of a unit's entries, by code.

mod abbrev;
mod code;
mod kept;
mod laws;
mod reading;

pub use abbrev::{Abbrev, ShortPair, Spec};
pub use code::AbbreviationCode;
pub use kept::Table;
pub use laws::{
    a_fault_is_where_none_stands, a_table_stands_there, codes_are_apart, one_after_another,
    pairs_stand_where_told, what_stands_is_read,
};
pub use reading::{next_spec, short_pair, table};
