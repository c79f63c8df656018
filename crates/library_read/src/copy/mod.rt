//! A copy of a library whose types have indices of another kind. The old library and the new one have indices of different
//! types, so that they cannot be exchanged; where the two files hold the same bytes, the one library is a copy of the other, and
//! the file is read once.

ghost use Rattle.std.specs.Prelude.{◌≡◌, ◌<◌, length, map, IfErr, IfOk};
ghost use Rattle.abi_base.specs.declared.fault.NoMemory.TheVariants.{Allocation};
ghost use Rattle.abi_types.specs.Graphs.{node_at};
ghost use Rattle.abi_types.specs.Parts.{plain_part};
ghost use Rattle.abi_types.specs.Plain.{plain_label};

use abi_base::{List, NoMemory};
use abi_types::{Graph, Index, Label, Library, Node, Part, Parts, View};
use std::alloc::Global;

// The node of the same number in the copy.
fn copied_index<From: Index, To: Index>(ix: From) -> To
    ensures { To.number_of result ≡ From.number_of ix }
{
    To::of(ix.number())
}

// The same part of the copy.
fn copied_part<'a, From: Index, To: Index>(part: &Part<'a, From>) -> Part<'a, To>
    ensures { plain_part To.number_of result ≡ plain_part From.number_of part.now }
{
    match *part {
        Part::Member {
            name,
            bit,
            width,
            to,
        } => Part::Member {
            name,
            bit,
            width,
            to: copied_index(to),
        },
        Part::Enumerator { name, value } => Part::Enumerator { name, value },
        Part::Target { to } => Part::Target {
            to: copied_index(to),
        },
        Part::Element { to } => Part::Element {
            to: copied_index(to),
        },
        Part::Outcome { to } => Part::Outcome {
            to: copied_index(to),
        },
        Part::Param { to } => Part::Param {
            to: copied_index(to),
        },
    }
}

// The same parts of the copy, in their order.
fn copied_parts<'a, From: Index, To: Index>(
    alloc: Global,
    parts: &Parts<'a, From>,
) -> Result<Parts<'a, To>, NoMemory>
    ensures parts { IfOk result (λ copy. copy ≡ parts.now) }
    ensures named { IfErr result (λ e. e ≡ Allocation) }
{
    if parts.len() == 1 {
        return Ok(Parts::one(copied_part(parts.at(0))));
    }
    let mut items = Vec::with_capacity(alloc, parts.len())?;
    for part in parts.as_slice() {
        items.push(copied_part(part))?;
    }
    Parts::of(alloc, items)
}

// The same view of the copy.
fn copied_view<'a, From: Index, To: Index>(
    alloc: Global,
    view: &View<'a, From>,
) -> Result<View<'a, To>, NoMemory>
    ensures view { IfOk result (λ copy. copy ≡ view.now) }
    ensures named { IfErr result (λ e. e ≡ Allocation) }
{
    Ok(View {
        kind: view.kind,
        declared_only: view.declared_only,
        tag: view.tag,
        size: view.size,
        group: view.group,
        align: view.align,
        count: view.count,
        variadic: view.variadic,
        parts: copied_parts(alloc, &view.parts)?,
        call: view.call.copy(alloc)?,
    })
}

// The same labels in memory of their own.
fn copied_labels<'a>(alloc: Global, labels: &[Label<'a>]) -> Result<List<Label<'a>>, NoMemory>
    ensures labels { IfOk result (λ copy. map plain_label copy ≡ map plain_label labels.now) }
    ensures named { IfErr result (λ e. e ≡ Allocation) }
{
    List::copy_of(alloc, labels)
}

// The same node of the copy.
fn copied_node<'a, From: Index, To: Index>(
    alloc: Global,
    graph: &Graph<'a, From>,
    ix: From,
) -> Result<Node<'a, To>, NoMemory>
    requires { From.number_of ix < length graph.now }
    ensures node { IfOk result (λ copy. copy ≡ node_at graph.now (From.number_of ix)) }
    ensures named { IfErr result (λ e. e ≡ Allocation) }
{
    Ok(Node {
        entry: graph.entry_of(ix),
        rank: graph.rank(ix),
        view: copied_view(alloc, graph.view(ix))?,
        labels: copied_labels(alloc, graph.labels(ix))?,
    })
}

// The same nodes of the copy, in the order of their numbers.
fn copied_nodes<'a, From: Index, To: Index>(
    alloc: Global,
    graph: &Graph<'a, From>,
) -> Result<List<Node<'a, To>>, NoMemory>
    ensures graph { IfOk result (λ copy. copy ≡ graph.now) }
    ensures named { IfErr result (λ e. e ≡ Allocation) }
{
    let mut nodes = List::of(Vec::with_capacity(alloc, graph.len())?);
    'nodes: for number in 0..graph.len() {
        nodes.push(copied_node(alloc, graph, From::of(number))?)?;
    }
    Ok(nodes)
}

// The same types of the copy.
fn copied_graph<'a, From: Index, To: Index>(
    alloc: Global,
    graph: &Graph<'a, From>,
) -> Result<Graph<'a, To>, NoMemory>
    ensures graph { IfOk result (λ copy. copy ≡ graph.now) }
    ensures named { IfErr result (λ e. e ≡ Allocation) }
{
    let nodes = copied_nodes(alloc, graph)?;
    graph.known();
    Graph::of_nodes(alloc, nodes)
}

/// A copy of a library whose types have indices of another kind; nothing else differs. It fails only where memory runs out.
pub fn copied<'a, From: Index, To: Index>(
    alloc: Global,
    library: &Library<'a, From>,
) -> Result<Library<'a, To>, NoMemory>
    ensures library { IfOk result (λ copy. copy ≡ library.now) }
    ensures named { IfErr result (λ e. e ≡ Allocation) }
{
    let exports = List::copy_of(alloc, library.exports())?;
    let graph = copied_graph(alloc, library.graph())?;
    library.known();
    Library::new(alloc, library.file(), library.soname(), exports, graph)
}
