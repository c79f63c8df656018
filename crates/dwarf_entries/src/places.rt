// Maps from numbers to the first place of each.
ghost use Rattle.std.specs.Prelude.{◌≡◌, ℕ, if◌then◌else◌, Some, None, IfErr, OnOk};
ghost use Rattle.abi_base.specs.declared.fault.NoMemory.TheVariants.{Allocation};
ghost use Rattle.std.specs.Option.{option_or};
ghost use Rattle.dwarf_entries.specs.Addresses.{is_some_number};
ghost use Rattle.dwarf_entries.specs.Places.{place_under};

use abi_base::NoMemory;
use std::collections::BTreeMap;

// Enters a place under a number, if there is a number and it has no place yet. Usually there is none.
#[inline(always)]
pub(crate) fn keep_first<P: Drop>(
    places: &mut BTreeMap<u64, P>,
    number: Option<u64>,
    place: P,
) -> Result<(), NoMemory>
    ensures kept { OnOk result ((q : ℕ) → place_under places.new q
        ≡ option_or (place_under places.old q) (if is_some_number q number then Some place else None)) }
    ensures named { IfErr result (λ e. e ≡ Allocation) }
{
    match number {
        Some(number) => {
            if !places.contains_key(&number) {
                places.insert(number, place)?;
            }
            Ok(())
        }
        None => Ok(()),
    }
}

// The place under a number.
pub(crate) fn place_of<P: Copy>(places: &BTreeMap<u64, P>, number: u64) -> Option<P>
    ensures { result ≡ place_under places.now number }
{
    places.get(&number).copied()
}
