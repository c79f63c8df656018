// Two types that are compared.
use abi_types::{Graph, NewIx, OldIx};

/// Whether each node of an old and of a new library's graph is packed, by its number.
#[derive(Clone, Copy)]
pub struct Packed<'x> {
    /// Whether each node of the old graph is packed.
    pub old: &'x [bool],
    /// Whether each node of the new graph is packed.
    pub new: &'x [bool],
}

/// A type of an old library, and the type of a new library that takes its place.
#[derive(Drop)]
pub struct TypePair<'x, 'o, 'n> {
    /// The graph of the old library's types.
    pub old_graph: &'x Graph<'o, OldIx>,
    /// The graph of the new library's types.
    pub new_graph: &'x Graph<'n, NewIx>,
    /// The old type.
    pub old: OldIx,
    /// The new type.
    pub new: NewIx,
    /// Which nodes of both graphs are packed.
    pub packed: Packed<'x>,
}
