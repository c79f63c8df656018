// Entries by address.
ghost use Rattle.std.specs.Prelude.{◌≡◌, ◌<◌, ℕ, length, IfErr, IfOk};
ghost use Rattle.abi_base.specs.declared.fault.NoMemory.TheVariants.{Allocation};
ghost use Rattle.dwarf_tree.specs.Trees.{entry_at};
ghost use Rattle.dwarf_entries.specs.Debug.{is_assembler};
ghost use Rattle.dwarf_entries.specs.Addresses.{is_some_number, is_typed_at};
ghost use Rattle.dwarf_entries.specs.Places.{HoldEntries};

use crate::addresses::{entry_address, is_defined};
use crate::places::keep_first;
use crate::source::Source;
use abi_base::NoMemory;
use dwarf_tree::EntryNumber;
use std::alloc::Global;
use std::collections::BTreeMap;

// Whether an entry's unit is written in assembler.
#[tactic(auto, unfolding(crate::specs::UnitContext::told_of))]
fn is_of_assembler(source: &Source, e: EntryNumber) -> bool
    requires { e < length source.now.tree.entries }
    ensures { result ≡ is_assembler source.now.tree (entry_at source.now.tree e).unit }
{
    source.told(e).is_assembler
}

// The address of an entry.
#[tactic(auto, unfolding(crate::specs::Addresses::is_typed_at))]
fn typed_address(source: &Source, e: EntryNumber) -> Option<u64>
    requires { e < length source.now.tree.entries }
    ensures { (address : ℕ) → is_some_number address result ≡ is_typed_at source.now address e }
{
    if !is_defined(source.tree(), e) {
        return None;
    }
    if is_of_assembler(source, e) {
        return None;
    }
    entry_address(source, e)
}

// The first entry at each address.
pub(crate) fn entries_by_address(
    alloc: Global,
    source: &Source,
) -> Result<BTreeMap<u64, EntryNumber>, NoMemory>
    ensures entries { IfOk result (λ places. HoldEntries places source.now) }
    ensures named { IfErr result (λ e. e ≡ Allocation) }
{
    let mut places = BTreeMap::new(alloc);
    source.tree().known();
    for e in 0..source.len() {
        let entry = EntryNumber::new(e as u32);
        let address = typed_address(source, entry);
        keep_first(&mut places, address, entry)?;
    }
    Ok(places)
}
