// The places of a function's arguments.
ghost use Rattle.std.specs.Prelude.{◌≡◌, ◌<◌, ◌≤◌, ◌+◌, length};
ghost use Rattle.abi_types.specs.Graphs.{view_at};
ghost use Rattle.abi_types.specs.Limits.{align_room, room_limit};
ghost use Rattle.psabi.specs.Arguments.{place_of_node, taken_with_node};
ghost use Rattle.psabi.specs.Found.{IsRight};
ghost use Rattle.psabi.specs.Psabi.{general_registers, vector_registers};

use crate::alignment::align_with;
use crate::argument_registers::ArgumentRegisters;
use crate::classification::classes_with;
use crate::found::Found;
use abi_types::{Graph, Index, Place};

/// The place of an argument of the node's type. Its registers or stack space count as taken for later arguments.
pub fn place_argument<Ix: Index>(
    graph: &Graph<Ix>,
    to: Ix,
    found: &mut [Found],
    taken: &mut ArgumentRegisters,
) -> Place
    requires inside { Ix.number_of to < length graph.now }
    requires right { IsRight graph.now found.now }
    requires general { taken.now.general ≤ general_registers }
    requires vector { taken.now.vector ≤ vector_registers }
    requires stack { taken.now.stack ≤ room_limit }
    ensures right { IsRight graph.now found.new }
    ensures place { result ≡ place_of_node graph.now taken.old (Ix.number_of to) }
    ensures taken { taken.new ≡ taken_with_node graph.now taken.old (Ix.number_of to) }
    ensures general { taken.new.general ≤ general_registers }
    ensures vector { taken.new.vector ≤ vector_registers }
    ensures stack { taken.new.stack ≤ taken.old.stack + ((view_at graph.now (Ix.number_of to)).size + align_room) }
{
    graph.known();
    let view = graph.view(to);
    let align = align_with(graph, to, found);
    let classes = classes_with(graph, to, found);
    taken.place(view.size, align, &classes)
}
