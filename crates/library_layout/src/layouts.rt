// The layout of a structure in a graph.
ghost use Rattle.std.specs.Prelude.{◌≡◌, ◌<◌, ◌^◌, ◌↔◌, length, IfErr, IfNone, IfOk, IfSome, IsTrue};
ghost use Rattle.abi_base.specs.declared.fault.NoMemory.TheVariants.{Allocation};
ghost use Rattle.abi_base.specs.Outcome.{OnLimit};
ghost use Rattle.abi_types.specs.Parts.{plain_part};
ghost use Rattle.type_print.specs.Structures.{IsFirstTagged, IsUntagged};
ghost use Rattle.type_print.specs.Structures as structures_spec;
ghost use Rattle.library_layout.specs.Limits.{LettersPass, TagPasses, member_letters};
ghost use Rattle.library_layout.specs.Structures.{IsDeclaredIn, IsLayoutIn};
ghost use Rattle.library_layout.specs.Structures as structures;

use abi_base::{Budget, Limit, NoMemory};
use abi_types::{Graph, Index, Kind, Part, View};
use std::alloc::Global;
use type_print::{find_tag, layout, layout_lines};

// How many letters the name of a member has.
fn letters_of<Ix: Index>(part: &Part<Ix>) -> usize
    ensures { result ≡ member_letters (plain_part Ix.number_of part.now) }
{
    match part {
        Part::Member { name, .. } => name.len(),
        Part::Enumerator { .. }
        | Part::Target { .. }
        | Part::Element { .. }
        | Part::Outcome { .. }
        | Part::Param { .. } => 0,
    }
}

// Fails where the names of a structure's members have more letters than a layout of a file with this many bytes may print. Its text
// has at most twelve bytes for each letter: four for each one, in a line of a member, of an overlap and of what lies outside.
fn ask_letters<Ix: Index>(view: &View<Ix>, bytes: usize) -> Result<(), NoMemory>
    requires { bytes < 2 ^ 38 }
    ensures { IfErr result (λ e. OnLimit e (LettersPass view.now.parts bytes)) }
{
    let mut budget = Budget::of(Limit::LayoutNames, bytes);
    for k in 0..view.parts_len() {
        budget.take(letters_of(view.part(k)))?;
    }
    Ok(())
}

// The rows of a node's structure, and their lines. It fails only where an allocation fails.
fn text_at<Ix: Index>(
    alloc: Global,
    graph: &Graph<Ix>,
    tag: &[u8],
    ix: Ix,
) -> Result<Vec<u8>, NoMemory>
    requires { IsFirstTagged graph.now tag.now (Ix.number_of ix) }
    ensures laid { IfOk result (λ text. IsLayoutIn graph.now tag.now text.items) }
    ensures named { IfErr result (λ e. e ≡ Allocation) }
{
    let rows = layout(alloc, graph, ix)?;
    let text = layout_lines(alloc, graph.view(ix), rows.as_slice())?;
    Ok(text.into_bytes())
}

// The lines of the layout of a node's structure.
#[tactic(auto, using(crate::proofs::LimitLemmas::tag_passes))]
fn lines_at<Ix: Index>(
    alloc: Global,
    graph: &Graph<Ix>,
    tag: &[u8],
    ix: Ix,
    bytes: usize,
) -> Result<Vec<u8>, NoMemory>
    requires tagged { IsFirstTagged graph.now tag.now (Ix.number_of ix) }
    requires small { bytes < 2 ^ 38 }
    ensures laid { IfOk result (λ text. IsLayoutIn graph.now tag.now text.items) }
    ensures past { IfErr result (λ e. OnLimit e (TagPasses graph.now tag.now bytes)) }
{
    ask_letters(graph.view(ix), bytes)?;
    text_at(alloc, graph, tag, ix)
}

/// The lines of the layout of the structure with the tag in a graph, if there is one. It fails where the names of its members have
/// more letters than a layout of a file with this many bytes may print.
pub(crate) fn laid_in<Ix: Index>(
    alloc: Global,
    graph: &Graph<Ix>,
    tag: &[u8],
    bytes: usize,
) -> Result<Option<Vec<u8>>, NoMemory>
    requires { bytes < 2 ^ 38 }
    ensures laid { IfOk result (λ found. IfSome found (λ text. IsLayoutIn graph.now tag.now text.items)) }
    ensures none { IfOk result (λ found. IfNone found (IsUntagged graph.now tag.now)) }
    ensures past { IfErr result (λ e. OnLimit e (TagPasses graph.now tag.now bytes)) }
{
    match find_tag(graph, tag) {
        Some(ix) => {
            let text = lines_at(alloc, graph, tag, ix, bytes)?;
            Ok(Some(text))
        }
        None => Ok(None),
    }
}

/// Whether a kind is that of structures.
pub(crate) fn is_structure(kind: Kind) -> bool
    ensures { result ≡ structures_spec.is_structure kind }
{
    match kind {
        Kind::Structure => true,
        _ => false,
    }
}

// Whether the type is a structure with this tag and without a definition.
fn is_declaration<Ix: Index>(view: &View<Ix>, tag: &[u8]) -> bool
    ensures { result ≡ structures.is_declaration view.now tag.now }
{
    is_structure(view.kind) && view.declared_only && view.tag == tag
}

/// Whether a graph has a structure with this tag and without a definition.
pub(crate) fn is_declared<Ix: Index>(graph: &Graph<Ix>, tag: &[u8]) -> bool
    ensures { IsTrue result ↔ IsDeclaredIn graph.now tag.now }
{
    for number in 0..graph.len() {
        if is_declaration(graph.view(Ix::of(number)), tag) {
            return true;
        }
    }
    false
}
