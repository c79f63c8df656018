// The representatives of classes.
ghost use Rattle.std.specs.Prelude.{◌≡◌, ◌<◌, ◌≤◌, ℕ, length, IfOk, IfErr};
ghost use Rattle.abi_base.specs.declared.fault.NoMemory.TheVariants.{Allocation};
ghost use Rattle.type_classes.specs.Blocks.{at, len_of, count_of, class_in, AreBlocks};
ghost use Rattle.type_classes.specs.Reps.{entry_at, AreOfClasses, IsLowered, AreReps};

use crate::blocks::Blocks;
use abi_base::NoMemory;
use abi_types::{Graph, Index};
use std::alloc::Global;

// For each class one of its nodes.
fn first_nodes(alloc: Global, blocks: &Blocks) -> Result<Vec<usize>, NoMemory>
    requires { AreBlocks blocks.now }
    ensures first { IfOk result (λ list. AreOfClasses (len_of blocks.now) (count_of blocks.now)
        (class_in blocks.now) list.items) }
    ensures named { IfErr result (λ e. e ≡ Allocation) }
{
    let mut list = Vec::with_capacity(alloc, blocks.count())?;
    'classes: for class in 0..blocks.count() {
        let members = blocks.members(class);
        list.push(members[0])?;
    }
    Ok(list)
}

// Makes a node the representative of its class if its entry comes before that of the current one.
fn lower<Ix: Index>(list: &mut Vec<usize>, graph: &Graph<Ix>, class: usize, node: usize)
    requires class { class < length list.old.items }
    requires node { node < length graph.now }
    requires inside { at list.old.items class < length graph.now }
    ensures { IsLowered graph.now list.old.items list.new.items class node }
{
    if graph.entry_of(Ix::of(node)) < graph.entry_of(Ix::of(list[class])) {
        list[class] = node;
    }
}

// For each class its node with the least entry offset.
fn least_nodes<Ix: Index>(
    alloc: Global,
    graph: &Graph<Ix>,
    blocks: &Blocks,
) -> Result<Vec<usize>, NoMemory>
    requires blocks { AreBlocks blocks.now }
    requires len { len_of blocks.now ≡ length graph.now }
    ensures nodes { IfOk result (λ list. AreOfClasses (length graph.now) (count_of blocks.now)
        (class_in blocks.now) list.items) }
    ensures least { IfOk result (λ list. (x : ℕ) → x < length graph.now
        → entry_at graph.now (at list.items (class_in blocks.now x)) ≤ entry_at graph.now x) }
    ensures named { IfErr result (λ e. e ≡ Allocation) }
{
    let mut list = first_nodes(alloc, blocks)?;
    'nodes: for node in 0..graph.len() {
        lower(&mut list, graph, blocks.class_of(node), node);
    }
    Ok(list)
}

/// For each node the node with the least entry offset in its class.
pub fn reps_of<Ix: Index>(
    alloc: Global,
    graph: &Graph<Ix>,
    blocks: &Blocks,
) -> Result<Vec<usize>, NoMemory>
    requires blocks { AreBlocks blocks.now }
    requires len { len_of blocks.now ≡ length graph.now }
    ensures reps { IfOk result (λ reps. AreReps graph.now (class_in blocks.now) reps.items) }
    ensures named { IfErr result (λ e. e ≡ Allocation) }
{
    let list = least_nodes(alloc, graph, blocks)?;
    let mut reps = Vec::with_capacity(alloc, graph.len())?;
    'nodes: for node in 0..graph.len() {
        reps.push(list[blocks.class_of(node)])?;
    }
    Ok(reps)
}
