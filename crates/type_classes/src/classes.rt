// Classes of the nodes of a graph.
ghost use Rattle.std.specs.Prelude.{◌≡◌, ◌<◌, ◌↔◌, ℕ, length, IfOk, IfErr};
ghost use Rattle.std.specs.List.{range_with_len};
ghost use Rattle.abi_base.specs.declared.fault.NoMemory.TheVariants.{Allocation};
ghost use Rattle.type_classes.specs.Classes.{rep_of, AreSound, AreCoarsest};

use crate::blocks::Blocks;
use crate::refine::refine;
use crate::reps::reps_of;
use crate::same::are_same;
use crate::shapes::shape_pairs;
use crate::split::split_by_keys;
use abi_base::NoMemory;
use abi_types::{Graph, Index};
use std::alloc::Global;
use std::marker::Model;

/// A partition of a graph's nodes into classes, each represented by its node with the least entry offset. Nodes of one class have
/// equal labels, and views that are equal except for the nodes that parts name. The nodes that their parts at one position name are
/// in one class.
#[derive(Drop)]
pub struct Classes<'g, 'a, Ix: Index> {
    graph: &'g Graph<'a, Ix>,
    // For each node the number of its class's representative.
    reps: Vec<usize>,
}

impl<'g, 'a, Ix: Index> Model for Classes<'g, 'a, Ix> {
    ghost use Rattle.type_classes.specs.Classes.{PlainClasses, AreSound};

    ghost Value = { PlainClasses };

    ghost view = { λ c. record { nodes = c.graph.now; reps = c.reps.items } };

    ghost invariant = { λ c. AreSound (record { nodes = c.graph.now; reps = c.reps.items }) };
}

impl<'g, 'a, Ix: Index> Classes<'g, 'a, Ix> {
    /// The invariants of the classes, as a contract. Does nothing.
    pub fn known(&self)
        ensures { AreSound self.now }
    {
        let _ = &self.reps;
    }

    /// The representative of a node's class: its node with the least entry offset.
    pub fn rep(&self, ix: Ix) -> Ix
        requires { Ix.number_of ix < length self.now.nodes }
        ensures rep { Ix.number_of result ≡ rep_of self.now (Ix.number_of ix) }
        ensures inside { Ix.number_of result < length self.now.nodes }
    {
        Ix::of(self.reps[ix.number()])
    }
}

/// The classes in which each node is alone.
pub fn plain<'g, 'a, Ix: Index>(
    alloc: Global,
    graph: &'g Graph<'a, Ix>,
) -> Result<Classes<'g, 'a, Ix>, NoMemory>
    ensures graph { IfOk result (λ c. c.nodes ≡ graph.now) }
    ensures alone { IfOk result (λ c. (i : ℕ) → rep_of c i ≡ i) }
    ensures named { IfErr result (λ e. e ≡ Allocation) }
{
    let mut reps = Vec::with_capacity(alloc, graph.len())?;
    for number in 0..graph.len() {
        reps.push(number)?;
    }
    Ok(Classes { graph, reps })
}

/// The classes of alike nodes, which are as few as possible.
pub fn alike<'g, 'a, Ix: Index>(
    alloc: Global,
    graph: &'g Graph<'a, Ix>,
) -> Result<Classes<'g, 'a, Ix>, NoMemory>
    ensures graph { IfOk result (λ c. c.nodes ≡ graph.now) }
    ensures coarsest { IfOk result AreCoarsest }
    ensures named { IfErr result (λ e. e ≡ Allocation) }
{
    graph.known();
    let mut blocks = Blocks::one(alloc, graph.len())?;
    let pairs = shape_pairs(alloc, graph)?;
    split_by_keys(&mut blocks, pairs.as_slice())?;
    refine(alloc, graph, &mut blocks)?;
    let reps = reps_of(alloc, graph, &blocks)?;
    Ok(Classes { graph, reps })
}

/// The classes of alike nodes, given those of another graph. Where the two graphs are the same, those are reused.
pub fn alike_beside<'g, 'a, Ix: Index, Jx: Index>(
    alloc: Global,
    graph: &'g Graph<'a, Ix>,
    known: &Classes<'_, '_, Jx>,
) -> Result<Classes<'g, 'a, Ix>, NoMemory>
    requires { AreCoarsest known.now }
    ensures graph { IfOk result (λ c. c.nodes ≡ graph.now) }
    ensures coarsest { IfOk result AreCoarsest }
    ensures named { IfErr result (λ e. e ≡ Allocation) }
{
    if !are_same(known.graph, graph) {
        return alike(alloc, graph);
    }
    let reps = Vec::from_slice(alloc, known.reps.as_slice())?;
    Ok(Classes { graph, reps })
}
