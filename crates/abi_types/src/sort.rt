// The sorts of parts.

/// The sort of a part.
#[derive(Clone, Copy, PartialEq, Eq, PartialOrd, Ord)]
pub enum Sort {
    Member,
    Enumerator,
    Target,
    Element,
    Outcome,
    Param,
}
