// Members that end past their aggregates.
ghost use Rattle.std.specs.Prelude.{◌≡◌, ◌<◌, length};
ghost use Rattle.std.specs.Option.{option_map};
ghost use Rattle.abi_types.specs.Graphs.{view_at, part_at};
ghost use Rattle.abi_types.specs.Parts.{plain_part};
ghost use Rattle.psabi.specs.Found.{IsRight};
ghost use Rattle.psabi.specs.Past as spec;

use crate::found::{Found, found_at, keep_past};
use crate::kinds::is_aggregate;
use crate::sizes::BYTE_BITS;
use abi_types::{Graph, Index, Part, View};

/// The extent in bits of an object in the aggregate that contains it; `width` is its width if it is a bit field, else 0.
pub fn extent<Ix: Index>(graph: &Graph<Ix>, width: u64, to: Ix) -> u64
    requires inside { Ix.number_of to < length graph.now }
    ensures { result ≡ spec.extent graph.now width (Ix.number_of to) }
{
    graph.known();
    let view = graph.view(to);
    if width == 0 || is_aggregate(view.kind) {
        BYTE_BITS * view.size
    } else {
        width
    }
}

// Whether the part is a member that ends past the aggregate.
fn own_past<Ix: Index>(graph: &Graph<Ix>, ix: Ix, k: usize) -> bool
    requires inside { Ix.number_of ix < length graph.now }
    requires k { k < length (view_at graph.now (Ix.number_of ix)).parts }
    ensures { result ≡ spec.own_past graph.now (view_at graph.now (Ix.number_of ix))
        (part_at (view_at graph.now (Ix.number_of ix)) k) }
{
    graph.known();
    let view = graph.view(ix);
    match view.part(k) {
        Part::Member { bit, width, to, .. } => {
            let taken = extent(graph, *width, *to);
            BYTE_BITS * view.size < *bit + taken
        }
        _ => false,
    }
}

// The type to check next for a part: that of a member, or of the elements of a nonempty array.
fn led_to<Ix: Index>(view: &View<Ix>, part: &Part<Ix>) -> Option<Ix>
    ensures { option_map Ix.number_of result ≡ spec.led_to view.now (plain_part Ix.number_of part.now) }
{
    match part {
        Part::Member { to, .. } => Some(*to),
        Part::Element { to } => { if view.count == 0 { None } else { Some(*to) } }
        _ => None,
    }
}

/// Whether a member of the node's object, or of an aggregate inside it, ends past the aggregate that contains it. Visits types, not
/// array elements, and each type once: takes results from `found`, and adds new ones to it. The recursion is at most 513 deep,
/// since no rank exceeds 512.
pub fn ends_past<Ix: Index>(graph: &Graph<Ix>, ix: Ix, found: &mut [Found]) -> bool
    requires inside { Ix.number_of ix < length graph.now }
    requires right { IsRight graph.now found.now }
    ensures past { result ≡ spec.ends_past graph.now (Ix.number_of ix) }
    ensures right { IsRight graph.now found.new }
{
    graph.known();
    let view = graph.view(ix);
    if !is_aggregate(view.kind) {
        return false;
    }
    if let Some(past) = found_at(ix, found).ends_past {
        return past;
    }
    for k in 0..view.parts_len() {
        if own_past(graph, ix, k) {
            return keep_past(graph, ix, true, found);
        }
        if let Some(to) = led_to(view, view.part(k)) {
            if ends_past(graph, to, found) {
                return keep_past(graph, ix, true, found);
            }
        }
    }
    keep_past(graph, ix, false, found)
}
