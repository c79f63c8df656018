// A budget for the walks to the leaves of objects. Types can contain one another many times over, so a few of them can have far
// more leaves than the file has bytes. Steps are therefore counted before they are taken.
ghost use Rattle.std.specs.Prelude.{◌≡◌, ◌<◌, length, IfErr, IfOk};
ghost use Rattle.abi_base.specs.Outcome.{OnLimit};
ghost use Rattle.abi_base.specs.declared.fault.NoMemory.TheVariants.{Allocation};
ghost use Rattle.abi_base.specs.declared.limit.Limit.TheVariants.{Leaves};
ghost use Rattle.psabi.specs.Found.{IsRight};

use crate::found::{Found, found_at};
use crate::kinds::is_aggregate;
use crate::overlong_members::ends_past;
use crate::sizes::OBJECT_LIMIT;
use abi_base::{Budget, Limit, NoMemory};
use abi_types::{Graph, Index, Kind, View};
use std::alloc::Global;

/// The steps that walks need, and what is taken of the limit on them.
#[derive(Drop)]
pub struct Walks {
    // For each node the number of steps of the walk over its object, or 0 where it is not known yet.
    steps: Vec<u64>,
    budget: Budget,
}

// The number of steps of the walk over the node's object, or 0 if it is not known yet.
fn steps_at<Ix: Index>(ix: Ix, steps: &[u64]) -> u64 {
    let number = ix.number();
    if number < steps.len() {
        return steps[number];
    }
    0
}

// Stores the number of steps of the walk over the node's object, and returns it.
fn keep_steps<Ix: Index>(ix: Ix, count: u64, steps: &mut [u64]) -> u64
    ensures { result ≡ count }
{
    let number = ix.number();
    if number < steps.len() {
        steps[number] = count;
    }
    count
}

// How often the walk over an aggregate visits each of its parts.
fn times_each<Ix: Index>(view: &View<Ix>) -> u64 {
    match view.kind {
        Kind::Array => view.count,
        _ => 1,
    }
}

// The number of steps of the walk over the node's object: one, and those of the objects inside it. Computes each type once. The
// recursion is at most 513 deep, since no rank exceeds 512.
fn steps_of<Ix: Index>(graph: &Graph<Ix>, ix: Ix, steps: &mut [u64]) -> u64
    requires { Ix.number_of ix < length graph.now }
{
    graph.known();
    let view = graph.view(ix);
    if view.size == 0 || !is_aggregate(view.kind) {
        return 1;
    }
    let counted = steps_at(ix, steps);
    if counted != 0 {
        return counted;
    }
    let mut inside: u64 = 0;
    for k in 0..view.parts_len() {
        if let Some(to) = view.part(k).inner() {
            let inner = steps_of(graph, to, steps);
            inside = inside.saturating_add(inner);
        }
    }
    let all = inside.saturating_mul(times_each(view));
    keep_steps(ix, all.saturating_add(1), steps)
}

impl Walks {
    /// The walks over the objects of a graph, before the first one.
    pub fn over<Ix: Index>(alloc: Global, graph: &Graph<Ix>) -> Result<Walks, NoMemory>
        ensures limit { IfOk result (λ walks. walks.budget.limit ≡ Leaves) }
        ensures named { IfErr result (λ e. e ≡ Allocation) }
    {
        let steps = Vec::from_elem(alloc, 0, graph.len())?;
        Ok(Walks {
            steps,
            budget: Budget::of_many(Limit::Leaves, graph.len()),
        })
    }

    // Takes the steps of the walk over the node's object, if its classes need one and are not known.
    fn take<Ix: Index>(
        &mut self,
        graph: &Graph<Ix>,
        ix: Ix,
        found: &mut [Found],
    ) -> Result<(), NoMemory>
        requires inside { Ix.number_of ix < length graph.now }
        requires right { IsRight graph.now found.now }
        ensures right { IsRight graph.now found.new }
        ensures limit { self.new.budget.limit ≡ self.old.budget.limit }
        ensures past { IfErr result (λ e. OnLimit e (λ l. l ≡ self.old.budget.limit)) }
    {
        let view = graph.view(ix);
        if view.size > OBJECT_LIMIT || !is_aggregate(view.kind) {
            return Ok(());
        }
        if found_at(ix, found).classes.is_some() {
            return Ok(());
        }
        if ends_past(graph, ix, found) {
            return Ok(());
        }
        let steps = steps_of(graph, ix, self.steps.as_mut_slice());
        self.budget.take(steps as usize)
    }

    /// Takes the steps of the walks over all objects that a call of the node's function passes.
    pub fn take_all<Ix: Index>(
        &mut self,
        graph: &Graph<Ix>,
        ix: Ix,
        found: &mut [Found],
    ) -> Result<(), NoMemory>
        requires inside { Ix.number_of ix < length graph.now }
        requires right { IsRight graph.now found.now }
        ensures right { IsRight graph.now found.new }
        ensures limit { self.new.budget.limit ≡ self.old.budget.limit }
        ensures past { IfErr result (λ e. OnLimit e (λ l. l ≡ self.old.budget.limit)) }
    {
        graph.known();
        let view = graph.view(ix);
        for k in 0..view.parts_len() {
            if let Some(to) = view.part(k).to() {
                self.take(graph, to, found)?;
            }
        }
        Ok(())
    }
}
