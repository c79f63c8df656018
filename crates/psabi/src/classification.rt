// The classes of objects (psABI, section 3.2.3 "Parameter Passing", "Classification").
ghost use Rattle.std.specs.Prelude.{◌≡◌, ◌<◌, length, true};
ghost use Rattle.abi_types.specs.Forms as spec;
ghost use Rattle.abi_types.specs.Graphs.{view_at};
ghost use Rattle.psabi.specs.Classes.{classes_of};
ghost use Rattle.psabi.specs.Found.{IsRight};

use crate::class::Class;
use crate::cleanup::cleaned_up;
use crate::descent::add_leaves;
use crate::eightbytes::Eightbytes;
use crate::found::{Found, found_at, keep_classes};
use crate::kinds::{is_aggregate, is_leaf};
use crate::overlong_members::ends_past;
use crate::rows::{all_memory_class, one, row};
use crate::sizes::OBJECT_LIMIT;
use abi_types::{Graph, Index};

// The classes of an aggregate.
fn classes_of_aggregate<Ix: Index>(graph: &Graph<Ix>, ix: Ix, found: &mut [Found]) -> [Class; 8]
    requires inside { Ix.number_of ix < length graph.now }
    requires aggregate { spec.is_aggregate (view_at graph.now (Ix.number_of ix)).kind ≡ true }
    requires right { IsRight graph.now found.now }
    ensures classes { result ≡ classes_of graph.now (Ix.number_of ix) }
    ensures right { IsRight graph.now found.new }
{
    graph.known();
    let view = graph.view(ix);
    if view.size > OBJECT_LIMIT {
        return all_memory_class();
    }
    if ends_past(graph, ix, found) {
        return all_memory_class();
    }
    let mut eightbytes = Eightbytes::new();
    add_leaves(graph, ix, 0, 0, &mut eightbytes);
    if !eightbytes.aligned {
        return all_memory_class();
    }
    cleaned_up(&eightbytes.classes, view.size)
}

/// The same as `classes`, but classifies each node only once: takes results from `found`, and adds new ones to it.
pub fn classes_with<Ix: Index>(graph: &Graph<Ix>, ix: Ix, found: &mut [Found]) -> [Class; 8]
    requires inside { Ix.number_of ix < length graph.now }
    requires right { IsRight graph.now found.now }
    ensures classes { result ≡ classes_of graph.now (Ix.number_of ix) }
    ensures right { IsRight graph.now found.new }
{
    graph.known();
    let view = graph.view(ix);
    if is_leaf(view.kind) {
        return row(view.kind, view.group, view.size);
    }
    if !is_aggregate(view.kind) {
        return one(Class::NoClass);
    }
    if let Some(classes) = found_at(ix, found).classes {
        return classes;
    }
    let classes = classes_of_aggregate(graph, ix, found);
    keep_classes(graph, ix, classes, found)
}

/// The classes of the eightbytes of the node's object, in order: `Memory` in all eight if the object is in memory, else `NoClass`
/// past its end. Allocates nothing.
pub fn classes<Ix: Index>(graph: &Graph<Ix>, ix: Ix) -> [Class; 8]
    requires { Ix.number_of ix < length graph.now }
    ensures { result ≡ classes_of graph.now (Ix.number_of ix) }
{
    classes_with(graph, ix, &mut [])
}
