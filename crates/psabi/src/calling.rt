// Call shapes: where a call passes its result and its arguments.
ghost use Rattle.std.specs.Prelude.{◌≡◌, ◌<◌, length, IfErr, IfOk};
ghost use Rattle.abi_base.specs.Outcome.{OnLimit};
ghost use Rattle.abi_base.specs.declared.limit.Limit.TheVariants.{Leaves};
ghost use Rattle.psabi.specs.Calls.{call_of, calls_of};
ghost use Rattle.psabi.specs.Found.{IsRight};

use crate::argument::place_argument;
use crate::found::{Found, room_for};
use crate::kinds::is_function;
use crate::outcome::{outcome, registers_of_result};
use crate::walks::Walks;
use abi_base::{List, NoMemory};
use abi_types::{Call, CallShape, Graph, Index};
use std::alloc::Global;

// The call shape of the node's function, using the results in `found`.
fn shape_with<Ix: Index>(
    alloc: Global,
    graph: &Graph<Ix>,
    ix: Ix,
    found: &mut [Found],
    walks: &mut Walks,
) -> Result<Call, NoMemory>
    requires inside { Ix.number_of ix < length graph.now }
    requires right { IsRight graph.now found.now }
    requires limit { walks.old.budget.limit ≡ Leaves }
    ensures right { IsRight graph.now found.new }
    ensures limit { walks.new.budget.limit ≡ Leaves }
    ensures shape { IfOk result (λ shape. shape ≡ call_of graph.now (Ix.number_of ix)) }
    ensures past { IfErr result (λ e. OnLimit e (λ l. l ≡ Leaves)) }
{
    graph.known();
    let view = graph.view(ix);
    if !is_function(view.kind) {
        return Ok(Call::none());
    }
    walks.take_all(graph, ix, found)?;
    let mut params = List::new(alloc);
    let outcome = outcome(graph, ix, found);
    let mut taken = registers_of_result(&outcome);
    for k in 0..view.parts_len() {
        if let Some(to) = view.part(k).param() {
            let place = place_argument(graph, to, found, &mut taken);
            params.push(place)?;
        }
    }
    Call::of(alloc, CallShape { outcome, params })
}

/// Where a call of the node's function passes its result and its arguments; no places if the node is not a function. Fails only
/// where memory runs out, or where the walks to leaves would take more steps than the limit on leaves allows for the nodes.
pub fn call_shape<Ix: Index>(alloc: Global, graph: &Graph<Ix>, ix: Ix) -> Result<Call, NoMemory>
    requires { Ix.number_of ix < length graph.now }
    ensures shape { IfOk result (λ shape. shape ≡ call_of graph.now (Ix.number_of ix)) }
    ensures past { IfErr result (λ e. OnLimit e (λ l. l ≡ Leaves)) }
{
    let mut found = room_for(alloc, graph.len())?;
    let mut walks = Walks::over(alloc, graph)?;
    shape_with(alloc, graph, ix, found.as_mut_slice(), &mut walks)
}

/// The call shapes of all nodes, each at its node's number. Computes the alignment and the classes of each type once for all calls.
/// Fails only where memory runs out, or where the walks to leaves would take more steps than the limit on leaves allows for the nodes.
pub fn call_shapes<Ix: Index>(alloc: Global, graph: &Graph<Ix>) -> Result<List<Call>, NoMemory>
    ensures shapes { IfOk result (λ shapes. shapes ≡ calls_of graph.now) }
    ensures many { IfOk result (λ shapes. length shapes ≡ length graph.now) }
    ensures past { IfErr result (λ e. OnLimit e (λ l. l ≡ Leaves)) }
{
    let mut room = room_for(alloc, graph.len())?;
    let found = room.as_mut_slice();
    let mut walks = Walks::over(alloc, graph)?;
    let mut shapes = List::new(alloc);
    for i in 0..graph.len() {
        let shape = shape_with(alloc, graph, Ix::of(i), found, &mut walks)?;
        shapes.push(shape)?;
    }
    Ok(shapes)
}
