// The graph of the reached types.
ghost use Rattle.std.specs.Prelude.{◌≡◌, ◌<◌, ◌^◌, length, All, IfErr, IfOk, OnOk};
ghost use Rattle.abi_base.specs.Outcome.{Judges, OnPast};
ghost use Rattle.type_reach.specs.Faults.{types_fault};
ghost use Rattle.type_reach.specs.ReachedList.{reached_of};
ghost use Rattle.type_graph.specs.Limits.{GraphPasses, KeepTypeLimits};
ghost use Rattle.type_graph.specs.Nodes.{made_nodes, nodes_of};

use crate::counts::{ask_enumerators, ask_parts, ask_types};
use crate::judged::JudgedTypes;
use crate::judging::{ask_shapes, ask_sizes};
use crate::laws::the_nodes_are_a_graph;
use crate::nodes::nodes;
use abi_base::{List, Refusal};
use abi_types::{Graph, Index, Node};
use dwarf_entries::Dwarf;
use dwarf_tree::EntryNumber;
use std::alloc::Global;
use type_reach::{learn_all, reached, summaries_of, type_references_of};

// The nodes of the types that the roots reach. The facts of the types live only as long as this call.
fn reached_nodes<'a, Ix: Index>(
    alloc: Global,
    dwarf: &Dwarf<'a>,
    roots: &[EntryNumber],
    bytes: usize,
) -> Result<List<Node<'a, Ix>>, Refusal>
    requires roots { All (λ root. root < length dwarf.now.tree.entries) roots.now }
    requires small { bytes < 2 ^ 38 }
    ensures judged { Judges result (types_fault dwarf.now roots.now) }
    ensures nodes { IfOk result (λ nodes. nodes ≡ nodes_of dwarf.now roots.now) }
    ensures within { OnOk result (KeepTypeLimits dwarf.now (reached_of dwarf.now.tree roots.now) bytes) }
    ensures past { IfErr result (λ e. OnPast e (GraphPasses dwarf.now roots.now bytes)) }
{
    let found = reached(alloc, dwarf, roots)?;
    ask_types(found.len(), bytes)?;
    ask_enumerators(alloc, dwarf, &found, bytes)?;
    let leads = type_references_of(alloc, dwarf, &found, bytes)?;
    match ask_shapes(alloc, dwarf, &found, &leads) {
        Ok(()) => {}
        Err(refused) => return Err(refused),
    }
    let facts = match learn_all(alloc, dwarf, &found, &leads) {
        Ok(facts) => facts,
        Err(refused) => return Err(refused),
    };
    match ask_sizes(dwarf, &found, facts.as_slice()) {
        Ok(()) => {}
        Err(fault) => return Err(Refusal::Fault(fault)),
    }
    let summaries = summaries_of(alloc, dwarf, &found, facts.as_slice())?;
    drop(facts);
    let types = JudgedTypes {
        dwarf,
        found: &found,
        leads: &leads,
        summaries: summaries.as_slice(),
    };
    ask_parts(&types, bytes)?;
    let nodes = nodes(alloc, &types, bytes)?;
    Ok(nodes)
}

/// The graph of the types that the roots reach: the node of void, then one for each reached entry in order of offset. Functions
/// have no call places yet. The fault is the first one of a shape in order of offset, else the first one of a depth, else the
/// first one of a size. The answer is `Past` only where a count is above what its limit allows for a file with this many bytes.
pub fn raw_graph<'a, Ix: Index>(
    alloc: Global,
    dwarf: &Dwarf<'a>,
    roots: &[EntryNumber],
    bytes: usize,
) -> Result<Graph<'a, Ix>, Refusal>
    requires roots { All (λ root. root < length dwarf.now.tree.entries) roots.now }
    requires small { bytes < 2 ^ 38 }
    ensures judged { Judges result (types_fault dwarf.now roots.now) }
    ensures nodes { IfOk result (λ graph. graph ≡ nodes_of dwarf.now roots.now) }
    ensures within { OnOk result (KeepTypeLimits dwarf.now (reached_of dwarf.now.tree roots.now) bytes) }
    ensures past { IfErr result (λ e. OnPast e (GraphPasses dwarf.now roots.now bytes)) }
{
    the_nodes_are_a_graph();
    dwarf.known();
    let nodes = match reached_nodes(alloc, dwarf, roots, bytes) {
        Ok(nodes) => nodes,
        Err(refused) => return Err(refused),
    };
    let graph = Graph::of_nodes(alloc, nodes)?;
    Ok(graph)
}
