// The root of each unit.
ghost use Rattle.std.specs.Prelude.{◌≡◌, IfErr, IfOk};
ghost use Rattle.abi_base.specs.declared.fault.NoMemory.TheVariants.{Allocation};
ghost use Rattle.dwarf_tree.specs.Keeping.{AreRoots};
ghost use Rattle.dwarf_tree.specs.Trees.{IsOrdered};

use crate::entry_number::EntryNumber;
use crate::tree_builder::TreeBuilder;
use abi_base::NoMemory;
use std::alloc::Global;

// The position of each unit's root.
pub(crate) fn roots_of(
    alloc: Global,
    growing: &TreeBuilder<'_>,
) -> Result<Vec<EntryNumber>, NoMemory>
    requires { IsOrdered growing.now.tree }
    ensures roots { IfOk result (λ roots. AreRoots growing.now.tree roots.items) }
    ensures named { IfErr result (λ e. e ≡ Allocation) }
{
    let mut roots = Vec::with_capacity(alloc, growing.units_len())?;
    for unit in 0..growing.units_len() {
        roots.push(EntryNumber::new(growing.root(unit) as u32))?;
    }
    Ok(roots)
}
