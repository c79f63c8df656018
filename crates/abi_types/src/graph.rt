// The types of a library as a graph.
ghost use Rattle.std.specs.Prelude.{◌≡◌, ◌<◌, length, map, IfErr, IfOk, IfSome};
ghost use Rattle.abi_base.specs.declared.fault.NoMemory.TheVariants.{Allocation};
ghost use Rattle.std.specs.Option.{option_map};
ghost use Rattle.abi_types.specs.Plain.{plain_label};
ghost use Rattle.abi_types.specs.Graphs.{IsGraph, node_at, node_of, shaped, view_at};
ghost use Rattle.abi_types.specs.Graphs as spec;

use crate::entries::{entry_order_of, number_for};
use crate::index::Index;
use crate::kind::Kind;
use crate::place::Call;
use crate::view::{Label, Node, View};
use abi_base::{List, NoMemory};
use std::alloc::Global;
use std::marker::Model;

/// The types of one library: a graph of nodes, whose edges are the parts of types. Contracts see it as the list of its nodes.
#[derive(Drop)]
pub struct Graph<'a, Ix: Index> {
    nodes: List<Node<'a, Ix>>,
    // The numbers of all nodes, ordered by entry.
    by_entry: Vec<usize>,
}

impl<'a, Ix: Index> Model for Graph<'a, Ix> {
    ghost use Rattle.std.specs.Prelude.{List};
    ghost use Rattle.abi_types.specs.Types.{PlainNode};

    ghost Value = { List PlainNode };

    ghost use Rattle.abi_types.specs.Graphs.{IsGraph};
    ghost use Rattle.abi_types.specs.Entries.{IsEntryOrder};

    ghost view = { λ g. g.nodes };

    ghost invariant = { λ g. IsGraph g.nodes × IsEntryOrder g.by_entry.items g.nodes };
}

// Sets the call of a node that is a function.
fn put_call<'a, Ix: Index>(node: &mut Node<'a, Ix>, call: Call)
    ensures { node.new ≡ spec.shaped_node node.old call }
{
    match node.view.kind {
        Kind::Function => node.view.call = call,
        _ => {}
    }
}

// The nodes with the call of each function set, from the last node to the first.
fn with_each_call<'a, Ix: Index>(
    mut nodes: Vec<Node<'a, Ix>>,
    mut calls: Vec<Call>,
) -> Vec<Node<'a, Ix>>
    requires { length calls.items ≡ length nodes.items }
    ensures { result.items ≡ shaped nodes.entry.items calls.items }
{
    while let Some(call) = calls.pop() {
        let last = calls.len();
        put_call(&mut nodes[last], call);
    }
    nodes
}

impl<'a, Ix: Index> Graph<'a, Ix> {
    /// The graph of these nodes. Each node's number is its position in the list.
    pub fn of_nodes(alloc: Global, nodes: List<Node<'a, Ix>>) -> Result<Graph<'a, Ix>, NoMemory>
        requires { IsGraph nodes }
        ensures graph { IfOk result (λ g. g ≡ nodes.entry) }
        ensures named { IfErr result (λ e. e ≡ Allocation) }
    {
        let by_entry = entry_order_of(alloc, nodes.as_slice())?;
        Ok(Graph { nodes, by_entry })
    }

    /// The same graph, where the call of each function is the one in `calls` at its number.
    pub fn with_calls(self, calls: List<Call>) -> Graph<'a, Ix>
        requires { length calls ≡ length self }
        ensures { result ≡ shaped self.entry calls }
    {
        let Graph { nodes, by_entry } = self;
        let nodes = with_each_call(nodes.into_vec(), calls.into_vec());
        Graph {
            nodes: List::of(nodes),
            by_entry,
        }
    }

    /// The number of nodes.
    pub fn len(&self) -> usize
        ensures { result ≡ length self.now }
    {
        self.nodes.as_slice().len()
    }

    /// The view of the node.
    pub fn view(&self, ix: Ix) -> &View<'a, Ix>
        requires { Ix.number_of ix < length self.now }
        ensures { result.now ≡ view_at self.now (Ix.number_of ix) }
    {
        let node = &self.nodes.as_slice()[ix.number()];
        &node.view
    }

    /// The names under which rule files refer to the node.
    pub fn labels(&self, ix: Ix) -> &[Label<'a>]
        requires { Ix.number_of ix < length self.now }
        ensures { map plain_label result.now ≡ (node_at self.now (Ix.number_of ix)).labels }
    {
        let node = &self.nodes.as_slice()[ix.number()];
        node.labels.as_slice()
    }

    /// The offset of the node's entry.
    pub fn entry_of(&self, ix: Ix) -> u64
        requires { Ix.number_of ix < length self.now }
        ensures { result ≡ (node_at self.now (Ix.number_of ix)).entry }
    {
        let node = &self.nodes.as_slice()[ix.number()];
        node.entry
    }

    /// The node's rank. It falls from a node to each node that its parts name by value.
    pub fn rank(&self, ix: Ix) -> u32
        requires { Ix.number_of ix < length self.now }
        ensures { result ≡ (node_at self.now (Ix.number_of ix)).rank }
    {
        let node = &self.nodes.as_slice()[ix.number()];
        node.rank
    }

    /// The node with this entry, or `None`.
    pub fn find(&self, entry: u64) -> Option<Ix>
        ensures node { option_map Ix.number_of result ≡ node_of self.now entry }
        ensures inside { IfSome result (λ ix. Ix.number_of ix < length self.now) }
    {
        match number_for(self.nodes.as_slice(), self.by_entry.as_slice(), entry) {
            Some(number) => Some(Ix::of(number)),
            None => None,
        }
    }

    /// The invariant of the type, stated as a contract. Does nothing.
    pub fn known(&self)
        ensures { IsGraph self.now }
    {
        let _ = &self.nodes;
    }
}
