// One part of a type.
use crate::index::Index;

/// One part of a type. `Ix` numbers the nodes of one graph.
#[derive(Clone, Copy)]
pub enum Part<'a, Ix> {
    /// A member: its offset in the type in bits; its width in bits where it is a bit field, else 0; its type.
    Member {
        name: &'a [u8],
        bit: u64,
        width: u64,
        to: Ix,
    },
    /// An enumerator, with its value modulo 2^64.
    Enumerator {
        name: &'a [u8],
        value: u64,
    },
    /// The type that a pointer points to.
    Target {
        to: Ix,
    },
    /// The element type of an array or a vector.
    Element {
        to: Ix,
    },
    /// The type of a function's result.
    Outcome {
        to: Ix,
    },
    /// The type of a parameter.
    Param {
        to: Ix,
    },
}

impl<'a, Ix: Index> Part<'a, Ix> {
    ghost use Rattle.std.specs.Prelude.{◌≡◌};
    ghost use Rattle.std.specs.Option.{option_map};
    ghost use Rattle.abi_types.specs.Parts.{plain_part};
    ghost use Rattle.abi_types.specs.Graphs.{to_of, inner_of, param_of};

    /// The node that the part names. An enumerator has none.
    pub fn to(&self) -> Option<Ix>
        ensures { option_map Ix.number_of result ≡ to_of (plain_part Ix.number_of self.now) }
    {
        match self {
            Part::Member { to, .. } => Some(*to),
            Part::Enumerator { .. } => None,
            Part::Target { to } => Some(*to),
            Part::Element { to } => Some(*to),
            Part::Outcome { to } => Some(*to),
            Part::Param { to } => Some(*to),
        }
    }

    /// The node that the part names by value. The target of a pointer is not by value.
    pub fn inner(&self) -> Option<Ix>
        ensures { option_map Ix.number_of result ≡ inner_of (plain_part Ix.number_of self.now) }
    {
        match self {
            Part::Target { .. } => None,
            _ => self.to(),
        }
    }

    /// The type of a parameter, where the part is one.
    pub fn param(&self) -> Option<Ix>
        ensures { option_map Ix.number_of result ≡ param_of (plain_part Ix.number_of self.now) }
    {
        match self {
            Part::Param { to } => Some(*to),
            _ => None,
        }
    }
}
