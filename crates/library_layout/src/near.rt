// Tags in a graph that are similar to a given one.
ghost use Rattle.std.specs.Prelude.{◌≡◌, ◌≢◌, ◌<◌, ◌≤◌, ◌⊎◌, ◌&&◌, ◌==◌, [], true, false, length, map, not, take, IfErr, IfOk, IfSome, IsSomeAnd};
ghost use Rattle.std.specs.Option.{option_copied};
ghost use Rattle.std.specs.List.{list_any};
ghost use Rattle.std.specs.Str.{bytes_eq};
ghost use Rattle.abi_base.specs.declared.fault.NoMemory.TheVariants.{Allocation};
ghost use Rattle.type_print.specs.Structures.{has_layout};
ghost use Rattle.library_layout.specs.Structures.{AreNearestIn, AreTagsIn, IsLeftOut, IsNearestBeside, PassesType, distance};

use crate::layouts::is_structure;
use abi_base::NoMemory;
use abi_types::{Graph, Index, View};
use std::alloc::Global;
use strsim::generic_levenshtein;

// The most tags to suggest.
const MOST_TAGS: usize = 5;

// How many bytes of each tag are compared. The limit keeps long tags from taking long.
const COMPARED: usize = 64;

// A tag, with its edit distance from another one.
#[derive(Clone, Copy)]
struct Near<'a> {
    tag: &'a [u8],
    edits: usize,
}

// The first bytes of a tag.
fn start_of(tag: &[u8]) -> &[u8]
    ensures { result.now ≡ take 64 tag.now }
{
    &tag[..COMPARED.min(tag.len())]
}

// The edit distance between two tags, in bytes, over their first bytes.
fn edits_between(alloc: Global, from: &[u8], to: &[u8]) -> Result<usize, NoMemory>
    ensures measured { IfOk result (λ edits. edits ≡ distance from.now to.now) }
    ensures named { IfErr result (λ e. e ≡ Allocation) }
{
    let edits = generic_levenshtein(alloc, start_of(from), start_of(to))?;
    Ok(edits)
}

// Whether a tag is one of these.
fn is_among(tags: &[&[u8]], tag: &[u8]) -> bool
    ensures { result ≡ list_any (λ t. bytes_eq t.now tag.now) tags.now }
{
    tags.iter().any(|one| *one == tag)
}

// Whether the type is a structure with a definition and a tag.
fn is_tagged<Ix: Index>(view: &View<Ix>) -> bool
    ensures { result ≡ (has_layout view.now view.now.tag && not (length view.now.tag == 0)) }
{
    is_structure(view.kind) && !view.declared_only && !view.tag.is_empty()
}

// The tag of a type with its edit distance from another one, if the type is a structure with a definition and its tag is none of
// these.
fn near_of<'a, Ix: Index>(
    alloc: Global,
    view: &View<'a, Ix>,
    tag: &[u8],
    tags: &[&[u8]],
) -> Result<Option<Near<'a>>, NoMemory>
    ensures tagged { IfOk result (λ found. IfSome found (λ near. has_layout view.now near.tag.now ≡ true)) }
    ensures new { IfOk result (λ found. IfSome found (λ near. list_any (λ t. bytes_eq t.now near.tag.now) tags.now
        ≡ false)) }
    ensures some_tag { IfOk result (λ found. IfSome found (λ near. near.tag.now ≢ [])) }
    ensures measured { IfOk result (λ found. IfSome found (λ near. near.edits ≡ distance near.tag.now tag.now)) }
    ensures passed { IfOk result (PassesType view.now (map (λ t. t.now) tags.now)) }
    ensures named { IfErr result (λ e. e ≡ Allocation) }
{
    if !is_tagged(view) || is_among(tags, view.tag) {
        return Ok(None);
    }
    let edits = edits_between(alloc, view.tag, tag)?;
    Ok(Some(Near {
        tag: view.tag,
        edits,
    }))
}

// The nearer of two tags, or the first one where both are equally near.
fn nearer<'a>(first: Option<Near<'a>>, second: Option<Near<'a>>) -> Option<Near<'a>>
    ensures one { (result ≡ first.entry) ⊎ (result ≡ second.entry) }
    ensures first { IfSome first.entry (λ near. IsSomeAnd result (λ found. found.edits ≤ near.edits)) }
    ensures second { IfSome second.entry (λ near. IsSomeAnd result (λ found. found.edits ≤ near.edits)) }
{
    match (first, second) {
        (Some(one), Some(other)) => {
            if other.edits < one.edits {
                second
            } else {
                first
            }
        }
        (Some(_), None) => first,
        _ => second,
    }
}

// The nearest tag in a graph that is none of these.
fn nearest<'a, Ix: Index>(
    alloc: Global,
    graph: &Graph<'a, Ix>,
    tag: &[u8],
    tags: &[&[u8]],
) -> Result<Option<&'a [u8]>, NoMemory>
    ensures new { IfOk result (λ found. IfSome found
        (λ near. IsLeftOut graph.now (map (λ t. t.now) tags.now) near.now)) }
    ensures nearest { IfOk result (λ found. IsNearestBeside graph.now tag.now (map (λ t. t.now) tags.now)
        (option_copied found)) }
    ensures named { IfErr result (λ e. e ≡ Allocation) }
{
    let mut found = None;
    for number in 0..graph.len() {
        let near = near_of(alloc, graph.view(Ix::of(number)), tag, tags)?;
        found = nearer(found, near);
    }
    match found {
        Some(near) => Ok(Some(near.tag)),
        None => Ok(None),
    }
}

/// The nearest tags in a graph, the nearest one first: those of structures with a definition, each once.
pub(crate) fn near_in<'a, Ix: Index>(
    alloc: Global,
    graph: &Graph<'a, Ix>,
    tag: &[u8],
) -> Result<Vec<&'a [u8]>, NoMemory>
    ensures few { IfOk result (λ tags. length tags.items ≤ 5) }
    ensures tags { IfOk result (λ tags. AreTagsIn graph.now (map (λ t. t.now) tags.items)) }
    ensures nearest { IfOk result (λ tags. AreNearestIn graph.now tag.now (map (λ t. t.now) tags.items)) }
    ensures named { IfErr result (λ e. e ≡ Allocation) }
{
    let mut tags = Vec::new(alloc);
    'near: while tags.len() < MOST_TAGS {
        match nearest(alloc, graph, tag, tags.as_slice())? {
            Some(near) => tags.push(near)?,
            None => return Ok(tags),
        }
    }
    Ok(tags)
}
