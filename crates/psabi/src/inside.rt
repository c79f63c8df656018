// The objects inside aggregates: the members of structures and unions, and the elements of arrays.
ghost use Rattle.std.specs.Prelude.{◌≡◌, ◌<◌, length};
ghost use Rattle.std.specs.Option.{option_map};
ghost use Rattle.abi_types.specs.Graphs.{view_at};
ghost use Rattle.abi_types.specs.Inside.{inside_at};
ghost use Rattle.abi_types.specs.Inside as spec;
ghost use Rattle.psabi.specs.InnerObject.{plain_inner};

use crate::sizes::BYTE_BITS;
use abi_types::{Graph, Index, Kind, Part, View};

/// An object inside an aggregate.
#[derive(Clone, Copy)]
pub struct InnerObject<Ix> {
    /// Its offset in the aggregate, in bits.
    pub bit: u64,
    /// Its width in bits if it is a bit field, else 0.
    pub width: u64,
    /// The node of its type.
    pub to: Ix,
}

/// The number of objects inside an aggregate.
pub fn count_inside<Ix: Index>(view: &View<Ix>) -> u64
    ensures { result ≡ spec.count_inside view.now }
{
    match view.kind {
        Kind::Array => view.count,
        _ => view.parts_len() as u64,
    }
}

/// Object `n` inside an aggregate, counted from 0.
pub fn inside_of<Ix: Index>(graph: &Graph<Ix>, ix: Ix, n: u64) -> Option<InnerObject<Ix>>
    requires inside { Ix.number_of ix < length graph.now }
    requires below { n < spec.count_inside (view_at graph.now (Ix.number_of ix)) }
    ensures { option_map (plain_inner Ix.number_of) result
        ≡ inside_at graph.now (view_at graph.now (Ix.number_of ix)) n }
{
    graph.known();
    let view = graph.view(ix);
    match view.kind {
        Kind::Array => match view.element() {
            None => None,
            Some(to) => {
                let held = graph.view(to);
                Some(InnerObject {
                    bit: BYTE_BITS * (n * held.size),
                    width: 0,
                    to,
                })
            }
        },
        _ => match view.part(n as usize) {
            Part::Member { bit, width, to, .. } => Some(InnerObject {
                bit: *bit,
                width: *width,
                to: *to,
            }),
            _ => None,
        },
    }
}
