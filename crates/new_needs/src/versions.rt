// The versions of other files that a file needs.
ghost use Rattle.std.specs.Prelude.{◌≡◌, IfErr, IfOk};
ghost use Rattle.std.specs.List.{range_with_len};
ghost use Rattle.abi_base.specs.declared.fault.NoMemory.TheVariants.{Allocation};
ghost use Rattle.elf_needs.specs.Plain.{needed};
ghost use Rattle.new_needs.specs.Versions.{all_indexes, all_needed, plain_versions};

use abi_base::NoMemory;
use elf::constants::VERSYM_HIDDEN;
use elf_needs::{Need, Needs};
use std::alloc::Global;

// One more than the last version index.
#[tactic(auto, unfolding(crate::specs::Versions::all_indexes))]
fn index_count() -> u16
    ensures { range_with_len 0 result ≡ all_indexes }
{
    VERSYM_HIDDEN
}

/// The versions and the files for all version indexes that auxiliary entries have, in the order of the indexes. Fails only where
/// an allocation does.
pub fn all_versions<'a>(alloc: Global, needs: &Needs<'a>) -> Result<Vec<Need<'a>>, NoMemory>
    ensures ok { IfOk result (λ all. plain_versions all.items ≡ all_needed (needed needs.now)) }
    ensures named { IfErr result (λ e. e ≡ Allocation) }
{
    let count = index_count();
    let mut all = Vec::new(alloc);
    for index in 0..count {
        if let Some(need) = needs.need_of(index) {
            all.push(need)?;
        }
    }
    Ok(all)
}
