// Nodes that share the parts of their cores.
ghost use Rattle.std.specs.Prelude.{◌≡◌, ◌<◌, ◌+◌, set, length, IfOk, OnOk, IfErr};
ghost use Rattle.abi_base.specs.declared.fault.NoMemory.TheVariants.{Allocation};
ghost use Rattle.type_reach.specs.ByValue.{IsClosed};
ghost use Rattle.type_reach.specs.Summaries.{AreSummaries};
ghost use Rattle.type_graph.specs.Nodes.{made_nodes};
ghost use Rattle.type_graph.specs.Sharing.{with_parts, AreShared};
ghost use Rattle.type_graph.specs.Sharing as spec;
ghost use Rattle.abi_types.specs.Graphs.{node_at};

use crate::judged::JudgedTypes;
use abi_base::NoMemory;
use abi_types::{Index, Node, Parts};
use type_reach::laws::laws_of_types;
use type_reach::summary_by_number;

// Gives a node these parts.
fn put_parts<'a, Ix: Index>(node: &mut Node<'a, Ix>, parts: Parts<'a, Ix>)
    ensures { node.new ≡ with_parts node.old parts.entry }
{
    node.view.parts = parts;
}

// Gives the node of one number the parts of the node of another.
fn share_from<'a, Ix: Index>(
    nodes: &mut Vec<Node<'a, Ix>>,
    from: usize,
    to: usize,
) -> Result<(), NoMemory>
    requires from { from < length nodes.old.items }
    requires to { to < length nodes.old.items }
    ensures nodes { OnOk result (nodes.new.items
        ≡ set nodes.old.items to (with_parts (node_at nodes.old.items to) (node_at nodes.old.items from).view.parts)) }
    ensures named { IfErr result (λ e. e ≡ Allocation) }
{
    let parts = nodes[from].view.parts.shared()?;
    put_parts(&mut nodes[to], parts);
    Ok(())
}

// Gives the entry of a number the parts of its core, where that is another entry. The core's own node has its parts from the
// start, so it may stand before or after.
fn share_at<'a, Ix: Index>(
    types: &JudgedTypes<'_, 'a>,
    nodes: &mut Vec<Node<'a, Ix>>,
    number: usize,
) -> Result<(), NoMemory>
    requires closed { IsClosed types.now.dwarf.now.tree types.now.found.now }
    requires summaries { AreSummaries types.now.dwarf.now types.now.found.now types.now.summaries.now }
    requires inside { number < length types.now.found.now }
    requires nodes { AreShared types.now.dwarf.now types.now.found.now number nodes.old.items }
    ensures nodes { OnOk result (AreShared types.now.dwarf.now types.now.found.now (number + 1) nodes.new.items) }
    ensures named { IfErr result (λ e. e ≡ Allocation) }
{
    laws_of_types();
    let e = types.found.at(number);
    let own = summary_by_number(types.dwarf, types.found, types.summaries, number, e);
    match own.core {
        None => Ok(()),
        Some(c) => {
            if c == e {
                return Ok(());
            }
            let _many = types.found.len();
            let core = types.found.number_of(c);
            share_from(nodes, core + 1, number + 1)?;
            Ok(())
        }
    }
}

/// Gives each node the parts of its core.
pub(crate) fn share_parts<'a, Ix: Index>(
    types: &JudgedTypes<'_, 'a>,
    mut nodes: Vec<Node<'a, Ix>>,
) -> Result<Vec<Node<'a, Ix>>, NoMemory>
    requires closed { IsClosed types.now.dwarf.now.tree types.now.found.now }
    requires summaries { AreSummaries types.now.dwarf.now types.now.found.now types.now.summaries.now }
    requires nodes { nodes.items ≡ spec.first_nodes types.now.dwarf.now types.now.found.now }
    ensures nodes { IfOk result (λ shared. shared.items ≡ made_nodes types.now.dwarf.now types.now.found.now) }
    ensures named { IfErr result (λ e. e ≡ Allocation) }
{
    'shared: for number in 0..types.found.len() {
        share_at(types, &mut nodes, number)?;
    }
    Ok(nodes)
}
