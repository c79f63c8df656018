// The descent to the leaves of an object, which merges their classes.
ghost use Rattle.std.specs.Prelude.{◌≡◌, ◌<◌, ◌≤◌, ◌+◌, length, false};
ghost use Rattle.abi_types.specs.Leaves.{leaves_of};
ghost use Rattle.psabi.specs.Psabi.{object_bits};
ghost use Rattle.psabi.specs.Past.{extent, ends_past};
ghost use Rattle.psabi.specs.Merging.{MergesLeaves};

use crate::eightbytes::Eightbytes;
use crate::inside::{count_inside, inside_of};
use crate::kinds::{is_aggregate, is_leaf};
use abi_types::laws::{leaves_are_those_inside, parts_name_what_is_inside};
use abi_types::{Graph, Index, Leaf};

/// Merges the leaves of the node's object, at the offset `bit`; `width` is its width in bits where it is a bit field, else 0. The
/// whole object lies inside 64 bytes, and an array of size 0 has no leaves, so at most 64 elements of an array are visited. The
/// recursion is at most 513 deep, since no rank exceeds 512.
pub fn add_leaves<Ix: Index>(
    graph: &Graph<Ix>,
    ix: Ix,
    bit: u64,
    width: u64,
    eightbytes: &mut Eightbytes,
)
    requires inside { Ix.number_of ix < length graph.now }
    requires kept { ends_past graph.now (Ix.number_of ix) ≡ false }
    requires room { bit + extent graph.now width (Ix.number_of ix) ≤ object_bits }
    ensures { MergesLeaves (leaves_of graph.now (Ix.number_of ix) bit width) eightbytes.old eightbytes.new }
{
    graph.known();
    leaves_are_those_inside();
    parts_name_what_is_inside();
    let view = graph.view(ix);
    if view.size == 0 {
        return;
    }
    if is_leaf(view.kind) {
        eightbytes.add(Leaf {
            kind: view.kind,
            group: view.group,
            size: view.size,
            bit,
            width,
        });
        return;
    }
    if !is_aggregate(view.kind) {
        return;
    }
    for n in 0..count_inside(view) {
        if let Some(found) = inside_of(graph, ix, n) {
            add_leaves(graph, found.to, bit + found.bit, found.width, eightbytes);
        }
    }
}
