// The search for the structure with a tag.
ghost use Rattle.std.specs.Prelude.{◌≡◌, ◌<◌, ℕ, length, IfSome, IfNone};
ghost use Rattle.std.specs.Option.{option_map, ForSome};
ghost use Rattle.type_print.specs.Structures.{IsFirstTagged, IsUntagged};
ghost use Rattle.type_print.specs.Structures as spec;
ghost use Rattle.type_print.specs.Searches.{earlier_of, found_of};

use abi_types::{Graph, Index, Kind, View};

fn is_structure(kind: Kind) -> bool
    ensures { result ≡ spec.is_structure kind }
{
    match kind {
        Kind::Structure => true,
        _ => false,
    }
}

// Whether the type is a structure with a definition and this tag.
fn has_layout<Ix: Index>(view: &View<Ix>, tag: &[u8]) -> bool
    ensures { result ≡ spec.has_layout view.now tag.now }
{
    is_structure(view.kind) && !view.declared_only && view.tag == tag
}

// The node with the earlier entry, or `ix` where there is only one.
fn earlier<Ix: Index>(graph: &Graph<Ix>, found: Option<Ix>, ix: Ix) -> Ix
    requires found { ForSome found (λ other. Ix.number_of other < length graph.now) }
    requires inside { Ix.number_of ix < length graph.now }
    ensures { Ix.number_of result ≡ earlier_of graph.now (option_map Ix.number_of found) (Ix.number_of ix) }
{
    match found {
        Some(other) => {
            if graph.entry_of(other) < graph.entry_of(ix) {
                other
            } else {
                ix
            }
        }
        None => ix,
    }
}

// The better of the node found so far and another one.
fn found_with<Ix: Index>(
    graph: &Graph<Ix>,
    tag: &[u8],
    found: Option<Ix>,
    number: usize,
) -> Option<Ix>
    requires found { ForSome found (λ other. Ix.number_of other < length graph.now) }
    requires inside { number < length graph.now }
    ensures { option_map Ix.number_of result ≡ found_of graph.now tag.now (option_map Ix.number_of found) number }
{
    let ix = Ix::of(number);
    if has_layout(graph.view(ix), tag) {
        Some(earlier(graph, found, ix))
    } else {
        found
    }
}

/// The structure with a tag: the node with the earliest entry that is a structure with a definition and this tag. Typedefs,
/// qualified types and variables have the view of the structure for which they stand, so they count too. Allocates nothing.
pub fn find_tag<Ix: Index>(graph: &Graph<Ix>, tag: &[u8]) -> Option<Ix>
    ensures found { IfSome result (λ ix. IsFirstTagged graph.now tag.now (Ix.number_of ix)) }
    ensures none { IfNone result (IsUntagged graph.now tag.now) }
{
    let mut found = None;
    for number in 0..graph.len() {
        found = found_with(graph, tag, found, number);
    }
    found
}
