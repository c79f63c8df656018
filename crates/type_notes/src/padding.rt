// New members in places where the old structure has no member.
ghost use Rattle.std.specs.Prelude.{◌≡◌, ◌<◌, ◌++◌, length, IfOk, OnOk, string_bytes};
ghost use Rattle.std.specs.List.{flat_map};
ghost use Rattle.abi_types.specs.Graphs.{part_at, view_at};
ghost use Rattle.abi_types.specs.Parts.{plain_part};
ghost use Rattle.type_notes.specs.Padding.{bits_in, bits_of, padding_changes};
ghost use Rattle.type_notes.specs.Padding as spec;
ghost use Rattle.type_notes.specs.TypePairs.{AreNodes, new_nodes, new_view, old_nodes, old_view};

use crate::difference::{Difference, difference_of};
use crate::note::NoteKind;
use crate::type_pair::TypePair;
use abi_base::{List, NoMemory};
use abi_types::{Graph, Index, Kind, Part, View, push_shown};
use std::alloc::{AllocError, Global};
use std::fmt::Write;

/// A range of bits, from `from` up to, but not including, `to`.
#[derive(Clone, Copy)]
pub struct Bits {
    /// The first bit.
    pub from: u128,
    /// The bit after the last one.
    pub to: u128,
}

// Whether two ranges have a bit in common.
fn share(one: Bits, other: Bits) -> bool
    ensures { result ≡ spec.share one other }
{
    one.from.max(other.from) < one.to.min(other.to)
}

// The number of bits in a member: the width of a bit field, or the size of its type.
fn width_of<Ix: Index>(graph: &Graph<Ix>, width: u64, to: Ix) -> u128
    requires { Ix.number_of to < length graph.now }
    ensures { result ≡ bits_in graph.now width (Ix.number_of to) }
{
    if width > 0 {
        return width as u128;
    }
    graph.view(to).size as u128 * 8
}

// The bits of the member at a position.
fn bits_at<Ix: Index>(graph: &Graph<Ix>, ix: Ix, k: usize) -> Bits
    requires node { Ix.number_of ix < length graph.now }
    requires part { k < length (view_at graph.now (Ix.number_of ix)).parts }
    ensures { result ≡ bits_of graph.now (part_at (view_at graph.now (Ix.number_of ix)) k) }
{
    graph.known();
    let view = graph.view(ix);
    match view.part(k) {
        Part::Member { bit, width, to, .. } => {
            let from = *bit as u128;
            Bits {
                from,
                to: from + width_of(graph, *width, *to),
            }
        }
        _ => Bits { from: 0, to: 0 },
    }
}

// Whether no member of a structure has one of the bits.
fn is_free<Ix: Index>(graph: &Graph<Ix>, ix: Ix, bits: Bits) -> bool
    requires { Ix.number_of ix < length graph.now }
    ensures { result ≡ spec.is_free graph.now (view_at graph.now (Ix.number_of ix)) bits }
{
    for k in 0..graph.view(ix).parts_len() {
        if share(bits, bits_at(graph, ix, k)) {
            return false;
        }
    }
    true
}

// Whether a range is not empty and ends within a size in bytes.
fn lies_inside(bits: Bits, size: u64) -> bool
    ensures { result ≡ spec.lies_inside bits size }
{
    bits.from < bits.to && bits.to <= size as u128 * 8
}

// Whether the old structure has no member with the name of the new member at a position, and none at the bits of that one.
#[tactic(auto, unfolding(crate::specs::Padding::fills))]
fn fills(pair: &TypePair, k: usize) -> bool
    requires nodes { AreNodes pair.now }
    requires part { k < length (new_view pair.now).parts }
    ensures { result ≡ spec.fills (old_nodes pair.now) (new_nodes pair.now) (old_view pair.now)
        (part_at (new_view pair.now) k) }
{
    let old = pair.old_graph.view(pair.old);
    let new = pair.new_graph.view(pair.new);
    if old.parts.nth_like(new.part(k), 0).is_some() {
        return false;
    }
    let bits = bits_at(pair.new_graph, pair.new, k);
    lies_inside(bits, old.size) && is_free(pair.old_graph, pair.old, bits)
}

// A member by its name and its first bit.
fn member_text<Ix: Index>(alloc: Global, part: &Part<Ix>) -> Result<String, AllocError>
    ensures { IfOk result (λ text. string_bytes text ≡ spec.member_text (plain_part Ix.number_of part.now)) }
{
    let mut text = String::new(alloc);
    match part {
        Part::Member { name, bit, .. } => {
            text.push_str("member ")?;
            push_shown(alloc, &mut text, name)?;
            write!(text, " at bit {bit}")?;
        }
        _ => {}
    }
    Ok(text)
}

// The difference for a new member in a place where no old one was.
fn member_change<Ix: Index>(alloc: Global, part: &Part<Ix>) -> Result<Difference, NoMemory>
    ensures { IfOk result (λ found. found ≡ spec.member_change (plain_part Ix.number_of part.now)) }
{
    let was = Vec::from_slice(alloc, b"none")?;
    let is = member_text(alloc, part)?;
    let is = is.into_bytes();
    Ok(difference_of(NoteKind::MemberInPadding, was, is))
}

// Adds the difference for the new member at a position, if it fills padding.
fn push_part_changes(
    alloc: Global,
    list: &mut List<Difference>,
    pair: &TypePair,
    k: usize,
) -> Result<(), NoMemory>
    requires nodes { AreNodes pair.now }
    requires part { k < length (new_view pair.now).parts }
    ensures { OnOk result (list.new
        ≡ list.old ++ spec.part_changes (old_nodes pair.now) (new_nodes pair.now) (old_view pair.now) (part_at (new_view pair.now) k)) }
{
    if !fills(pair, k) {
        return Ok(());
    }
    let found = member_change(alloc, pair.new_graph.view(pair.new).part(k))?;
    list.push(found)
}

// Adds the differences for all members of the new structure that fill padding.
fn push_member_changes(
    alloc: Global,
    list: &mut List<Difference>,
    pair: &TypePair,
) -> Result<(), NoMemory>
    requires { AreNodes pair.now }
    ensures { OnOk result (list.new
        ≡ list.old ++ flat_map (spec.part_changes (old_nodes pair.now) (new_nodes pair.now) (old_view pair.now)) (new_view pair.now).parts) }
{
    for k in 0..pair.new_graph.view(pair.new).parts_len() {
        push_part_changes(alloc, list, pair, k)?;
    }
    Ok(())
}

// Whether a type is a structure.
fn is_structure<Ix: Index>(view: &View<Ix>) -> bool
    ensures { result ≡ spec.is_structure view.now }
{
    matches!(view.kind, Kind::Structure)
}

/// Adds a difference for each new member of a structure at bits where the old structure has no member.
#[tactic(auto, unfolding(crate::specs::Padding::padding_changes))]
pub(crate) fn push_padding_changes(
    alloc: Global,
    list: &mut List<Difference>,
    pair: &TypePair,
) -> Result<(), NoMemory>
    requires { AreNodes pair.now }
    ensures { OnOk result (list.new
        ≡ list.old ++ padding_changes (old_nodes pair.now) (new_nodes pair.now) (old_view pair.now) (new_view pair.now)) }
{
    if !is_structure(pair.old_graph.view(pair.old)) {
        return Ok(());
    }
    if !is_structure(pair.new_graph.view(pair.new)) {
        return Ok(());
    }
    push_member_changes(alloc, list, pair)
}
