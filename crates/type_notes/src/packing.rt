// Packed structures: those in which a member is not at its natural alignment.
ghost use Rattle.std.specs.Prelude.{◌≡◌, ◌<◌, length, IfOk};
ghost use Rattle.abi_types.specs.Graphs.{part_at, view_at};
ghost use Rattle.psabi.specs.Alignment.{align_of, alignments as all_alignments};
ghost use Rattle.type_notes.specs.Packing as spec;
ghost use Rattle.type_notes.specs.TypePairs.{AreNodes, new_nodes, old_nodes};

use crate::difference::{Difference, differing};
use crate::note::NoteKind;
use crate::type_pair::TypePair;
use abi_base::{List, NoMemory};
use abi_types::{Graph, Index, Part};
use psabi::alignments;
use std::alloc::Global;

// Whether no object with an alignment may begin at a bit.
fn is_off(bit: u64, align: u64) -> bool
    ensures { result ≡ spec.is_off bit align }
{
    if align == 0 {
        return false;
    }
    bit as u128 % (8 * align as u128) != 0
}

// The alignment of a node's object, out of the alignments of all nodes.
fn align_at<Ix: Index>(graph: &Graph<Ix>, ix: Ix, aligns: &[u64]) -> u64
    requires node { Ix.number_of ix < length graph.now }
    requires aligns { aligns.now ≡ all_alignments graph.now }
    ensures { result ≡ align_of graph.now (Ix.number_of ix) }
{
    let number = ix.number();
    aligns[number]
}

// Whether the member at a position is not a bit field and not at its natural alignment, by the alignments of all nodes.
fn stands_off<Ix: Index>(graph: &Graph<Ix>, ix: Ix, k: usize, aligns: &[u64]) -> bool
    requires node { Ix.number_of ix < length graph.now }
    requires part { k < length (view_at graph.now (Ix.number_of ix)).parts }
    requires aligns { aligns.now ≡ all_alignments graph.now }
    ensures { result ≡ spec.stands_off graph.now (part_at (view_at graph.now (Ix.number_of ix)) k) }
{
    graph.known();
    let view = graph.view(ix);
    match view.part(k) {
        Part::Member { bit, width, to, .. } => {
            if *width > 0 {
                return false;
            }
            is_off(*bit, align_at(graph, *to, aligns))
        }
        _ => false,
    }
}

// Whether some member of a type is not at its natural alignment, by the alignments of all nodes.
fn is_packed<Ix: Index>(graph: &Graph<Ix>, ix: Ix, aligns: &[u64]) -> bool
    requires node { Ix.number_of ix < length graph.now }
    requires aligns { aligns.now ≡ all_alignments graph.now }
    ensures { result ≡ spec.is_packed graph.now (Ix.number_of ix) }
{
    for k in 0..graph.view(ix).parts_len() {
        if stands_off(graph, ix, k, aligns) {
            return true;
        }
    }
    false
}

/// Whether each node is packed, at its number. It is found once for all pairs of types, since a node can be in many of them. Each
/// alignment is found once too, since what a member holds by value can be far more than the graph has nodes.
pub(crate) fn packed_nodes<Ix: Index>(
    alloc: Global,
    graph: &Graph<Ix>,
) -> Result<List<bool>, NoMemory>
    ensures { IfOk result (λ packed. packed ≡ spec.packed_nodes graph.now) }
{
    let aligns = alignments(alloc, graph)?;
    let mut packed = List::new(alloc);
    for i in 0..graph.len() {
        let is = is_packed(graph, Ix::of(i), aligns.as_slice());
        packed.push(is)?;
    }
    Ok(packed)
}

// Whether a type is packed, by the list of which nodes are.
fn is_listed<Ix: Index>(graph: &Graph<Ix>, ix: Ix, packed: &[bool]) -> bool
    requires node { Ix.number_of ix < length graph.now }
    requires packed { packed.now ≡ spec.packed_nodes graph.now }
    ensures { result ≡ spec.is_packed graph.now (Ix.number_of ix) }
{
    let number = ix.number();
    packed[number]
}

// Whether a type is packed, as a text, by the list of which nodes are.
fn packing_text<Ix: Index>(
    alloc: Global,
    graph: &Graph<Ix>,
    ix: Ix,
    packed: &[bool],
) -> Result<Vec<u8>, NoMemory>
    requires node { Ix.number_of ix < length graph.now }
    requires packed { packed.now ≡ spec.packed_nodes graph.now }
    ensures { IfOk result (λ text. text.items ≡ spec.packing_text graph.now (Ix.number_of ix)) }
{
    let word = if is_listed(graph, ix, packed) {
        "packed"
    } else {
        "none"
    };
    Ok(Vec::from_slice(alloc, word.as_bytes())?)
}

// The difference between two types of which only one is packed.
#[tactic(auto, unfolding(crate::specs::Packing::packing_change))]
pub(crate) fn packing_change(alloc: Global, pair: &TypePair) -> Result<Option<Difference>, NoMemory>
    requires { AreNodes pair.now }
    ensures { IfOk result (λ found. found
        ≡ spec.packing_change (old_nodes pair.now) (new_nodes pair.now) pair.now.old pair.now.new) }
{
    let was = packing_text(alloc, pair.old_graph, pair.old, pair.packed.old)?;
    let is = packing_text(alloc, pair.new_graph, pair.new, pair.packed.new)?;
    Ok(differing(NoteKind::Packing, was, is))
}
