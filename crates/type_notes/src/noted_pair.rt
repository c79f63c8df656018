// Two libraries with their debug entries, on which notes are made.
use dwarf_entries::Dwarf;
use pair_compare::BoundPair;

/// Two libraries that are compared, with the entries of their debug information.
#[derive(Drop)]
pub struct NotedPair<'x, 'o, 'n, 'd> {
    /// The libraries, the marks and the bindings.
    pub pair: BoundPair<'x, 'o, 'n>,
    /// The debug entries of the old library.
    pub old_dwarf: &'x Dwarf<'d>,
    /// The debug entries of the new library.
    pub new_dwarf: &'x Dwarf<'d>,
}
