// The members and the layout of a structure in a graph.
ghost use Rattle.std.specs.Prelude.{◌≡◌, ◌<◌, ◌≤◌, ◌^◌, ℕ, length, IfOk, IfErr, IfSome, Some};
ghost use Rattle.abi_base.specs.declared.fault.NoMemory.TheVariants.{Allocation};
ghost use Rattle.abi_types.specs.Graphs.{part_at, to_of, view_at};
ghost use Rattle.abi_types.specs.Parts.{plain_part};
ghost use Rattle.type_print.specs.Laws.{CoverEachBitOnce, IsClean, NameClashes};
ghost use Rattle.type_print.specs.Structures.{bits_at, extent_in, members_at, width_in, AreRowsAt};
ghost use Rattle.type_print.specs.Structures as spec;
ghost use Rattle.type_print.specs.Texts.{AreInside};

use crate::extent::Extent;
use crate::row::LayoutRow;
use crate::rows::rows_of;
use abi_base::NoMemory;
use abi_types::{Graph, Index, Part, View};
use std::alloc::Global;

// The size of a type in bits.
fn bits_of<Ix: Index>(view: &View<Ix>) -> u64
    requires { view.now.size ≤ 2 ^ 60 }
    ensures { result ≡ spec.bits_of view.now }
{
    8 * view.size
}

// The width of a member in bits: that of a bit field, else that of its type.
fn width_of<Ix: Index>(graph: &Graph<Ix>, width: u64, to: Ix) -> u64
    requires { Ix.number_of to < length graph.now }
    ensures { result ≡ width_in graph.now width (Ix.number_of to) }
{
    if width > 0 {
        return width;
    }
    graph.known();
    let view = graph.view(to);
    bits_of(view)
}

// The bits of a member.
fn extent_of<Ix: Index>(graph: &Graph<Ix>, position: usize, part: &Part<Ix>) -> Extent
    requires { IfSome (to_of (plain_part Ix.number_of part.now)) (λ to. to < length graph.now) }
    ensures { result ≡ extent_in graph.now position (plain_part Ix.number_of part.now) }
{
    match part {
        Part::Member { bit, width, to, .. } => Extent {
            part: position,
            bit: *bit,
            width: width_of(graph, *width, *to),
        },
        _ => Extent {
            part: position,
            bit: 0,
            width: 0,
        },
    }
}

// The bits of each member of a structure.
fn members_of<Ix: Index>(
    alloc: Global,
    graph: &Graph<Ix>,
    view: &View<Ix>,
) -> Result<Vec<Extent>, NoMemory>
    requires { (k to : ℕ) → to_of (part_at view.now k) ≡ Some to → to < length graph.now }
    ensures members { IfOk result (λ members. members.items ≡ spec.members_of graph.now view.now) }
    ensures named { IfErr result (λ e. e ≡ Allocation) }
{
    let mut members = Vec::new(alloc);
    for position in 0..view.parts_len() {
        members.push(extent_of(graph, position, view.part(position)))?;
    }
    Ok(members)
}

/// The layout of a structure with a definition: its members in order and, if none overlap and none ends outside, the holes between
/// them and the padding after them; otherwise the overlaps and the members that end outside, after the members. An index in a row
/// is that of a part of the structure's view, so `layout_lines` can print the rows. Fails only where memory runs out.
pub fn layout<Ix: Index>(
    alloc: Global,
    graph: &Graph<Ix>,
    ix: Ix,
) -> Result<Vec<LayoutRow>, NoMemory>
    requires { Ix.number_of ix < length graph.now }
    ensures rows { IfOk result (λ rows. AreRowsAt graph.now (Ix.number_of ix) rows.items) }
    ensures inside { IfOk result (λ rows. AreInside (view_at graph.now (Ix.number_of ix)) rows.items) }
    ensures covered { IfOk result (λ rows. IsClean rows.items
        → CoverEachBitOnce (bits_at graph.now (Ix.number_of ix)) rows.items) }
    ensures clashes { IfOk result (λ rows. NameClashes (members_at graph.now (Ix.number_of ix))
        (bits_at graph.now (Ix.number_of ix)) rows.items) }
    ensures named { IfErr result (λ e. e ≡ Allocation) }
{
    graph.known();
    let view = graph.view(ix);
    let bits = bits_of(view);
    let members = members_of(alloc, graph, view)?;
    let rows = rows_of(alloc, members, bits)?;
    Ok(rows)
}
