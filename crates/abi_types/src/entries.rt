// The nodes of a graph, ordered by their entries.
ghost use Rattle.std.specs.Prelude.{◌≡◌, ◌≢◌, ◌<◌, All, IfErr, IfOk, IfSome, IfNone, length};
ghost use Rattle.abi_base.specs.declared.fault.NoMemory.TheVariants.{Allocation};
ghost use Rattle.abi_types.specs.Entries.{IsEntryOrder};
ghost use Rattle.abi_types.specs.Entries as spec;

use crate::index::Index;
use crate::numbers::numbers_below;
use crate::view::Node;
use abi_base::NoMemory;
use std::alloc::Global;

// The entry of the node with this number, 0 past the last node.
fn entry_at<Ix: Index>(nodes: &[Node<Ix>], number: usize) -> u64
    ensures { result ≡ spec.entry_at nodes.now number }
{
    if number < nodes.len() {
        let node = &nodes[number];
        node.entry
    } else {
        0
    }
}

/// The numbers of all nodes, ordered by entry.
// Most graphs have their nodes in that order already; one pass then suffices.
pub fn entry_order_of<Ix: Index>(alloc: Global, nodes: &[Node<Ix>]) -> Result<Vec<usize>, NoMemory>
    ensures order { IfOk result (λ order. IsEntryOrder order.items nodes.now) }
    ensures named { IfErr result (λ e. e ≡ Allocation) }
{
    let mut order = numbers_below(alloc, nodes.len())?;
    order.sort_unstable_by_key(|number| entry_at(nodes, *number));
    Ok(order)
}

/// The number of a node with this entry, found by binary search.
pub fn number_for<Ix: Index>(nodes: &[Node<Ix>], order: &[usize], entry: u64) -> Option<usize>
    requires { IsEntryOrder order.now nodes.now }
    ensures inside { IfSome result (λ number. number < length nodes.now) }
    ensures some { IfSome result (λ number. spec.entry_at nodes.now number ≡ entry) }
    ensures none { IfNone result (All (λ number. spec.entry_at nodes.now number ≢ entry) order.now) }
{
    match order.binary_search_by_key(&entry, |number| entry_at(nodes, *number)) {
        Ok(k) => Some(order[k]),
        Err(_) => None,
    }
}
