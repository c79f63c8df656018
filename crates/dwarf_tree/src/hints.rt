// Hints of where to search for the entry at an offset. Hints only save time: a search checks each one, and finds the same
// entry whatever they are.
ghost use Rattle.std.specs.Prelude.{◌≡◌, ◌<◌, ◌^◌, length, IfErr};
ghost use Rattle.abi_base.specs.declared.fault.NoMemory.TheVariants.{Allocation};

use crate::entry_records::EntryRecord;
use abi_base::NoMemory;
use std::alloc::Global;

// How many bytes of `.debug_info` share a hint.
const HINT_BYTES: u32 = 32;

// The most entries that begin in that many bytes: each has at least one byte.
pub(crate) const MOST_BETWEEN: usize = 32;

// For each block of that many bytes of `.debug_info` the position of the first entry that begins in it, or 0. The contract does not
// say this, since hints only save time.
pub(crate) fn hints_of(alloc: Global, entries: &[EntryRecord]) -> Result<Vec<u32>, NoMemory>
    requires { length entries.now < 2 ^ 32 }
    ensures { IfErr result (λ e. e ≡ Allocation) }
{
    let Some(last) = entries.last() else {
        return Ok(Vec::new(alloc));
    };
    let mut hints = vec![in alloc; 0; (last.offset / HINT_BYTES) as usize + 1]?;
    let mut place = entries.len();
    while place > 0 {
        place -= 1;
        let entry = entries[place];
        if let Some(hint) = hints.get_mut((entry.offset / HINT_BYTES) as usize) {
            *hint = place as u32;
        }
    }
    Ok(hints)
}

// The hint for an offset. It may be any number: the caller checks it.
pub(crate) fn hint_for(hints: &[u32], offset: u64) -> usize {
    let Ok(number) = usize::try_from(offset / u64::from(HINT_BYTES)) else {
        return 0;
    };
    match hints.get(number) {
        Some(hint) => *hint as usize,
        None => 0,
    }
}
