// Refinement to the coarsest stable classes.
ghost use Rattle.std.specs.Prelude.{◌≡◌, ◌<◌, ◌≤◌, length, OnOk, IfErr};
ghost use Rattle.abi_base.specs.declared.fault.NoMemory.TheVariants.{Allocation};
ghost use Rattle.type_classes.specs.Blocks.{len_of, class_in, AreBlocks, ListsMarks, HasNoMarks};
ghost use Rattle.type_classes.specs.Refined.{IsRefined};

use crate::blocks::Blocks;
use crate::edges::{incoming_of, join_incoming};
use crate::split::split_by_keys;
use abi_base::NoMemory;
use abi_types::{Graph, Index};
use std::alloc::Global;

/// Splits classes until the parts of two nodes of one class name nodes of one class at each position.
///
/// Each class serves once to split all classes by whether their parts name a node of it. If a class is split later, its smaller
/// half gets a new number and so serves too; the other half would split nothing more.
pub fn refine<Ix: Index>(
    alloc: Global,
    graph: &Graph<Ix>,
    blocks: &mut Blocks,
) -> Result<(), NoMemory>
    requires blocks { AreBlocks blocks.old }
    requires listed { ListsMarks blocks.old }
    requires unmarked { HasNoMarks blocks.old }
    requires len { len_of blocks.old ≡ length graph.now }
    requires refined { IsRefined graph.now (class_in blocks.old) (λ c. 0) }
    ensures blocks { OnOk result (AreBlocks blocks.new) }
    ensures len { OnOk result (len_of blocks.new ≡ length graph.now) }
    ensures refined { OnOk result (IsRefined graph.now (class_in blocks.new) (λ c. c)) }
    ensures named { IfErr result (λ e. e ≡ Allocation) }
{
    graph.known();
    let edges = incoming_of(alloc, graph)?;
    let mut pairs = Vec::new(alloc);
    let mut class = 0;
    'classes: while class < blocks.count() {
        join_incoming(&mut pairs, &edges, blocks.members(class))?;
        split_by_keys(blocks, pairs.as_slice())?;
        class += 1;
    }
    Ok(())
}
