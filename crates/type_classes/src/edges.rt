// The edges of a graph: which parts name which nodes.
ghost use Rattle.std.specs.Prelude.{◌≡◌, ◌<◌, ◌↔◌, ◌⊎◌, ◌+◌, ℕ, [], length, Some, IfOk, OnOk, Contains, IfErr};
ghost use Rattle.std.specs.List.Sorted.{IsNonDecreasingBy};
ghost use Rattle.abi_base.specs.declared.fault.NoMemory.TheVariants.{Allocation};
ghost use Rattle.abi_types.specs.Graphs.{IsGraph, to_of};
ghost use Rattle.abi_types.specs.Parts.{plain_part};
ghost use Rattle.type_classes.specs.Blocks.{at};
ghost use Rattle.type_classes.specs.Splits.{key_of};
ghost use Rattle.type_classes.specs.Edges.{node_count, AreLinked, IsIncoming, IsAdded, Names, AreIncoming};

use abi_base::NoMemory;
use abi_types::{Graph, Index, Kind, Part};
use std::alloc::Global;

/// A part that names a node.
#[derive(Clone, Copy)]
pub struct Edge {
    /// The node that it names.
    pub to: usize,
    /// The position of the part, and its node.
    pub part: (usize, usize),
    /// One more than the index of the previous edge to the same node, or 0 where there is none.
    pub earlier: usize,
}

/// The parts that name nodes, in the order in which they were added. Those that name the same node are linked, from the last to the
/// first.
#[derive(Drop)]
pub struct Incoming {
    edges: Vec<Edge>,
    // For each node one more than the index of the last edge to it, or 0 where there is none.
    last: Vec<usize>,
}

impl Incoming {
    // A list for this many nodes without any edge yet, with capacity for edges.
    fn none(alloc: Global, count: usize, room: usize) -> Result<Incoming, NoMemory>
        ensures edges { IfOk result (λ i. i.edges.items ≡ []) }
        ensures count { IfOk result (λ i. node_count i ≡ count) }
        ensures last { IfOk result (λ i. (s : ℕ) → s < count → at i.last.items s ≡ 0) }
        ensures named { IfErr result (λ e. e ≡ Allocation) }
    {
        let edges = Vec::with_capacity(alloc, room)?;
        let mut last = Vec::with_capacity(alloc, count)?;
        last.resize(count, 0)?;
        Ok(Incoming { edges, last })
    }

    // Adds an edge to a node, from a part given by its position and its node.
    fn add(&mut self, to: usize, part: (usize, usize)) -> Result<(), NoMemory>
        requires linked { AreLinked self.old }
        requires inside { to < node_count self.old }
        ensures added { OnOk result (IsAdded self.old self.new to part) }
        ensures named { IfErr result (λ e. e ≡ Allocation) }
    {
        let edge = Edge {
            to,
            part,
            earlier: self.last[to],
        };
        self.edges.push(edge)?;
        self.last[to] = self.edges.len();
        Ok(())
    }

    // Appends the parts that name a node.
    fn push_parts(&self, into: &mut Vec<(usize, usize)>, node: usize) -> Result<(), NoMemory>
        requires linked { AreLinked self.now }
        requires inside { node < node_count self.now }
        ensures appended { OnOk result ((e : ℕ × ℕ) → Contains into.new.items e ↔ (Contains into.old.items e
            ⊎ IsIncoming self.now node e)) }
        ensures named { IfErr result (λ e. e ≡ Allocation) }
    {
        let mut link = self.last[node];
        'edges: while link > 0 {
            let edge = self.edges[link - 1];
            into.push(edge.part)?;
            link = edge.earlier;
        }
        Ok(())
    }
}

// Adds the edge of a part, given by its position and its node, if the part names a node.
fn add_part<Ix: Index>(
    incoming: &mut Incoming,
    part: &Part<Ix>,
    pair: (usize, usize),
) -> Result<(), NoMemory>
    requires linked { AreLinked incoming.old }
    requires inside { (s : ℕ) → to_of (plain_part Ix.number_of part.now) ≡ Some s → s < node_count incoming.old }
    ensures linked { OnOk result (AreLinked incoming.new) }
    ensures many { OnOk result (node_count incoming.new ≡ node_count incoming.old) }
    ensures pairs { OnOk result ((s : ℕ) (e : ℕ × ℕ) → IsIncoming incoming.new s e
        ↔ (IsIncoming incoming.old s e ⊎ ((to_of (plain_part Ix.number_of part.now) ≡ Some s) × (e ≡ pair)))) }
    ensures named { IfErr result (λ e. e ≡ Allocation) }
{
    match part.to() {
        Some(to) => incoming.add(to.number(), pair),
        None => Ok(()),
    }
}

// Adds the edges of a node's parts.
fn add_parts<Ix: Index>(
    incoming: &mut Incoming,
    graph: &Graph<Ix>,
    node: usize,
) -> Result<(), NoMemory>
    requires inside { node < length graph.now }
    requires before { AreIncoming graph.now node incoming.old }
    ensures added { OnOk result (AreIncoming graph.now (node + 1) incoming.new) }
    ensures named { IfErr result (λ e. e ≡ Allocation) }
{
    graph.known();
    let view = graph.view(Ix::of(node));
    'parts: for k in 0..view.parts_len() {
        add_part(incoming, view.part(k), (k, node))?;
    }
    Ok(())
}

// The number of parts that name a node. Enumerations have none.
fn edge_count<Ix: Index>(graph: &Graph<Ix>) -> usize {
    let mut count: usize = 0;
    for node in 0..graph.len() {
        let view = graph.view(Ix::of(node));
        match view.kind {
            Kind::Enumeration => {}
            _ => count = count.saturating_add(view.parts_len()),
        }
    }
    count
}

/// For each node of the graph the parts that name it, each by its position and its node.
pub fn incoming_of<Ix: Index>(alloc: Global, graph: &Graph<Ix>) -> Result<Incoming, NoMemory>
    ensures incoming { IfOk result (AreIncoming graph.now (length graph.now)) }
    ensures named { IfErr result (λ e. e ≡ Allocation) }
{
    let mut incoming = Incoming::none(alloc, graph.len(), edge_count(graph))?;
    'nodes: for node in 0..graph.len() {
        add_parts(&mut incoming, graph, node)?;
    }
    Ok(incoming)
}

// Replaces a list by the parts that name these nodes.
fn join(
    into: &mut Vec<(usize, usize)>,
    incoming: &Incoming,
    nodes: &[usize],
) -> Result<(), NoMemory>
    requires linked { AreLinked incoming.now }
    requires inside { (s : ℕ) → Contains nodes.now s → s < node_count incoming.now }
    ensures joined { OnOk result ((e : ℕ × ℕ) → Contains into.new.items e ↔ ((s : ℕ) × Contains nodes.now s
        × IsIncoming incoming.now s e)) }
    ensures named { IfErr result (λ e. e ≡ Allocation) }
{
    into.clear();
    'nodes: for i in 0..nodes.len() {
        incoming.push_parts(into, nodes[i])?;
    }
    Ok(())
}

/// Replaces a list by the parts that name one of these nodes, ordered by position.
pub fn join_incoming(
    into: &mut Vec<(usize, usize)>,
    incoming: &Incoming,
    nodes: &[usize],
) -> Result<(), NoMemory>
    requires linked { AreLinked incoming.now }
    requires inside { (s : ℕ) → Contains nodes.now s → s < node_count incoming.now }
    ensures rising { OnOk result (IsNonDecreasingBy key_of into.new.items) }
    ensures pairs { OnOk result ((e : ℕ × ℕ) → Contains into.new.items e ↔ ((s : ℕ) × Contains nodes.now s
        × IsIncoming incoming.now s e)) }
    ensures named { IfErr result (λ e. e ≡ Allocation) }
{
    join(into, incoming, nodes)?;
    into.sort_unstable_by_key(|pair| pair.0);
    Ok(())
}
