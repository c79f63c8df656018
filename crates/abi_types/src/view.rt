// The views of nodes: what a type looks like.
ghost use Rattle.std.specs.Prelude.{◌≡◌, ◌<◌, length};

use crate::index::Index;
use crate::kind::{Group, Kind, LabelKind};
use crate::part::Part;
use crate::parts::Parts;
use crate::place::Call;
use abi_base::List;
use std::marker::Model;

/// The description of a type. Fields that a kind does not use are 0, `false`, `Group::Bool` or empty.
// One-byte fields are adjacent and so share eight bytes, since a library has a view for each of its types.
#[derive(Drop)]
pub struct View<'a, Ix: Index> {
    /// The kind of the type.
    pub kind: Kind,
    /// The interpretation of a scalar's bits.
    pub group: Group,
    /// Whether the type is only declared, with no definition in its unit.
    pub declared_only: bool,
    /// Whether a function takes variable arguments after its parameters.
    pub variadic: bool,
    /// The tag of a structure, a union or an enumeration, or empty.
    pub tag: &'a [u8],
    /// The size in bytes.
    pub size: u64,
    /// The explicit alignment of its declaration in bytes, or 0.
    pub align: u64,
    /// The number of elements of an array or a vector.
    pub count: u64,
    /// Its members, enumerators, target, element type, or result and parameters.
    pub parts: Parts<'a, Ix>,
    /// Where a function's result and arguments are passed.
    pub call: Call,
}

impl<'a, Ix: Index> Model for View<'a, Ix> {
    ghost use Rattle.abi_types.specs.Types.{PlainView};

    ghost Value = { PlainView };

    ghost view = { λ v. record {
      kind = v.kind;
      declared_only = v.declared_only;
      tag = v.tag.now;
      size = v.size;
      group = v.group;
      align = v.align;
      count = v.count;
      variadic = v.variadic;
      parts = v.parts;
      call = v.call;
    } };
}

impl<'a, Ix: Index> View<'a, Ix> {
    ghost use Rattle.std.specs.Prelude.{◌≡◌, ◌<◌, length};
    ghost use Rattle.abi_types.specs.Parts.{plain_part};
    ghost use Rattle.std.specs.Option.{option_map};
    ghost use Rattle.abi_types.specs.Graphs.{part_at, inner_of};

    /// The number of parts.
    pub fn parts_len(&self) -> usize
        ensures { result ≡ length self.now.parts }
    {
        self.parts.len()
    }

    /// The part at a position.
    pub fn part(&self, k: usize) -> &Part<'a, Ix>
        requires { k < length self.now.parts }
        ensures { plain_part Ix.number_of result.now ≡ part_at self.now k }
    {
        self.parts.at(k)
    }

    /// The element type of an array or a vector: the node that the first part names by value, if any.
    pub fn element(&self) -> Option<Ix>
        ensures { option_map Ix.number_of result ≡ inner_of (part_at self.now 0) }
    {
        if self.parts_len() == 0 {
            return None;
        }
        self.part(0).inner()
    }
}

/// A name under which rule files refer to a type.
#[derive(Clone, Copy, Debug)]
pub struct Label<'a> {
    /// The kind of the name.
    pub kind: LabelKind,
    /// The bytes of the name.
    pub name: &'a [u8],
}

/// A node of a graph.
#[derive(Drop)]
pub struct Node<'a, Ix: Index> {
    /// The offset of its debugging information entry. 0 is void.
    pub entry: u64,
    /// Falls from a node to each node that its parts name by value, and is at most 512.
    pub rank: u32,
    /// The view of the type.
    pub view: View<'a, Ix>,
    /// The names under which rule files refer to it.
    pub labels: List<Label<'a>>,
}

impl<'a, Ix: Index> Model for Node<'a, Ix> {
    ghost use Rattle.abi_types.specs.Types.{PlainNode};

    ghost Value = { PlainNode };

    ghost use Rattle.std.specs.Prelude.{map};
    ghost use Rattle.abi_types.specs.Plain.{plain_label};

    ghost view = { λ n. record { entry = n.entry; rank = n.rank; view = n.view; labels = map plain_label n.labels } };
}
