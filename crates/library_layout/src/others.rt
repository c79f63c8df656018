// The types beside structures that have a tag.
ghost use Rattle.std.specs.Prelude.{◌≡◌, ◌<◌, ◌↔◌, length, IsTrue};
ghost use Rattle.library_layout.specs.Structures.{HasOtherIn, IsOtherIn};
ghost use Rattle.library_layout.specs.Structures as structures;

use abi_types::{Graph, Index, Kind, View};

/// A type with a tag that is no structure, so that `layout` does not print it.
#[derive(Clone, Copy, Debug, PartialEq, Eq)]
pub enum OtherTag {
    /// A union.
    Union,
    /// An enumeration.
    Enumeration,
}

// Whether a type of this kind is such a type.
fn is_kind(other: OtherTag, kind: Kind) -> bool
    ensures { result ≡ structures.is_kind other kind }
{
    match (other, kind) {
        (OtherTag::Union, Kind::Union) | (OtherTag::Enumeration, Kind::Enumeration) => true,
        _ => false,
    }
}

// Whether the type is such a type, with this tag.
fn is_other<Ix: Index>(view: &View<Ix>, other: OtherTag, tag: &[u8]) -> bool
    ensures { result ≡ structures.is_other view.now other tag.now }
{
    is_kind(other, view.kind) && view.tag == tag
}

// Whether a graph has such a type with this tag.
fn has_other<Ix: Index>(graph: &Graph<Ix>, other: OtherTag, tag: &[u8]) -> bool
    ensures { IsTrue result ↔ HasOtherIn graph.now other tag.now }
{
    for number in 0..graph.len() {
        if is_other(graph.view(Ix::of(number)), other, tag) {
            return true;
        }
    }
    false
}

/// The type beside structures that has this tag in a graph: a union, or an enumeration if no union has it.
pub(crate) fn other_in<Ix: Index>(graph: &Graph<Ix>, tag: &[u8]) -> Option<OtherTag>
    ensures { IsOtherIn graph.now tag.now result }
{
    if has_other(graph, OtherTag::Union, tag) {
        Some(OtherTag::Union)
    } else if has_other(graph, OtherTag::Enumeration, tag) {
        Some(OtherTag::Enumeration)
    } else {
        None
    }
}
