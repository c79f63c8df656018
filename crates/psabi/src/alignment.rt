// Sizes and alignments of objects (psABI, section 3.1.2 "Data Representation").
ghost use Rattle.std.specs.Prelude.{◌≡◌, ◌<◌, length, IfOk};
ghost use Rattle.abi_types.specs.Graphs.{view_at};
ghost use Rattle.psabi.specs.Found.{IsRight};
ghost use Rattle.psabi.specs.Alignment.{align_of};
ghost use Rattle.psabi.specs.Alignment as spec;

use crate::found::{Found, found_at, keep_align, room_for};
use crate::kinds::is_aggregate;
use crate::sizes::{
    CHAR, COMPLEX_DOUBLE, COMPLEX_FLOAT, COMPLEX_FLOAT16, COMPLEX_LONG_DOUBLE, EIGHTBYTE, INT,
    INT128, LONG, M64, M128, M256, M512, SHORT,
};
use abi_base::{List, NoMemory};
use abi_types::{Graph, Group, Index, Kind};
use std::alloc::Global;

// The alignment of an object whose size is not that of any psABI type.
fn other_align(size: u64) -> u64
    ensures { result ≡ spec.other_align size }
{
    if size > EIGHTBYTE { EIGHTBYTE } else { 1 }
}

fn scalar_align(size: u64) -> u64
    ensures { result ≡ spec.scalar_align size }
{
    match size {
        CHAR | SHORT | INT | LONG | INT128 => size,
        _ => other_align(size),
    }
}

fn complex_align(size: u64) -> u64
    ensures { result ≡ spec.complex_align size }
{
    match size {
        COMPLEX_FLOAT16 | COMPLEX_FLOAT | COMPLEX_DOUBLE | COMPLEX_LONG_DOUBLE => size / 2,
        _ => other_align(size),
    }
}

fn vector_align(size: u64) -> u64
    ensures { result ≡ spec.vector_align size }
{
    match size {
        M64 | M128 | M256 | M512 => size,
        _ => other_align(size),
    }
}

/// The natural alignment in bytes of an object that is not an aggregate.
pub fn natural_align(kind: Kind, group: Group, size: u64) -> u64
    ensures { result ≡ spec.natural_align kind group size }
{
    match kind {
        Kind::Scalar => match group {
            Group::Complex => complex_align(size),
            _ => scalar_align(size),
        },
        Kind::Enumeration | Kind::Pointer => scalar_align(size),
        Kind::Vector => vector_align(size),
        _ => other_align(size),
    }
}

/// The size of the node's object in bytes.
pub fn size<Ix: Index>(graph: &Graph<Ix>, ix: Ix) -> u64
    requires { Ix.number_of ix < length graph.now }
    ensures { result ≡ (view_at graph.now (Ix.number_of ix)).size }
{
    let view = graph.view(ix);
    view.size
}

/// The alignment of the node's object in bytes: its natural one, or for an aggregate the greatest of the objects inside it. An
/// explicit alignment raises it. Takes results from `found`, and adds new ones to it, so that each node is computed only once. Its
/// recursion is at most 513 deep, since no rank exceeds 512.
pub fn align_with<Ix: Index>(graph: &Graph<Ix>, ix: Ix, found: &mut [Found]) -> u64
    requires inside { Ix.number_of ix < length graph.now }
    requires right { IsRight graph.now found.now }
    ensures align { result ≡ align_of graph.now (Ix.number_of ix) }
    ensures right { IsRight graph.now found.new }
{
    graph.known();
    let view = graph.view(ix);
    if !is_aggregate(view.kind) {
        return natural_align(view.kind, view.group, view.size).max(view.align);
    }
    if let Some(align) = found_at(ix, found).align {
        return align;
    }
    let mut greatest = 1;
    for k in 0..view.parts_len() {
        if let Some(to) = view.part(k).inner() {
            let inner = align_with(graph, to, found);
            greatest = inner.max(greatest);
        }
    }
    keep_align(graph, ix, greatest.max(view.align), found)
}

/// The alignments of all nodes' objects in bytes, each at its node's number. Computes each only once, so that a type which many others
/// hold is not walked again for each of them.
pub fn alignments<Ix: Index>(alloc: Global, graph: &Graph<Ix>) -> Result<List<u64>, NoMemory>
    ensures { IfOk result (λ aligns. aligns ≡ spec.alignments graph.now) }
{
    let mut room = room_for(alloc, graph.len())?;
    let found = room.as_mut_slice();
    let mut aligns = List::new(alloc);
    for i in 0..graph.len() {
        let align = align_with(graph, Ix::of(i), found);
        aligns.push(align)?;
    }
    Ok(aligns)
}
