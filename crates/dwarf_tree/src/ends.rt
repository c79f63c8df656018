// Where the subtree of each entry ends.
ghost use Rattle.std.specs.Prelude.{◌≡◌, ◌<◌, ◌+◌, ◌≤◌, ◌^◌, length, IfErr, IfOk};
ghost use Rattle.abi_base.specs.declared.fault.NoMemory.TheVariants.{Allocation};
ghost use Rattle.dwarf_tree.specs.Keeping.{AreEnds, EndsFrom, end_below};

use crate::tree_builder::TreeBuilder;
use abi_base::NoMemory;
use std::alloc::Global;

// The position of the next entry that is no deeper than this one, given the ends of all later entries. Only the call for its parent
// steps over an entry, so all calls together take as many steps as there are entries.
fn end_in(growing: &TreeBuilder<'_>, ends: &[u32], e: usize) -> usize
    requires inside { e < length growing.now.tree.entries }
    requires count { length ends.now ≡ length growing.now.tree.entries }
    requires known { EndsFrom growing.now.tree ends.now (e + 1) }
    ensures end { result ≡ end_below growing.now.tree e }
    ensures inside { result ≤ length growing.now.tree.entries }
{
    let depth = growing.depth(e);
    let mut end = e + 1;
    'below: loop {
        if end >= ends.len() {
            return end;
        }
        if growing.depth(end) <= depth {
            return end;
        }
        end = ends[end] as usize;
    }
}

// The end of each entry's subtree.
pub(crate) fn ends_of(alloc: Global, growing: &TreeBuilder<'_>) -> Result<Vec<u32>, NoMemory>
    requires { length growing.now.tree.entries < 2 ^ 32 }
    ensures ends { IfOk result (λ ends. AreEnds growing.now.tree ends.items) }
    ensures named { IfErr result (λ e. e ≡ Allocation) }
{
    let mut ends = vec![in alloc; 0; growing.len()]?;
    let mut e = growing.len();
    while e > 0 {
        e -= 1;
        ends[e] = end_in(growing, &ends, e) as u32;
    }
    Ok(ends)
}
