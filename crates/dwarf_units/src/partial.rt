// Whether a unit is a partial unit.
ghost use Rattle.std.specs.Prelude.{◌≡◌, IfErr, IfOk};
ghost use Rattle.abi_base.specs.declared.fault.NoMemory.TheVariants.{Allocation};
ghost use Rattle.dwarf_units.specs.Plain.{plain_unit};
ghost use Rattle.dwarf_units.specs.Sequence.{begins_partial};
ghost use Rattle.dwarf_units.specs.Sequence as spec;
ghost use Rattle.dwarf_units.specs.Units.{entries_of};

use crate::constants::{DWARF_4, UNIT_TYPE};
use crate::start::entries;
use crate::unit::Unit;
use abi_base::dwarf::{DW_TAG_partial_unit, DW_UT_partial};
use abi_base::{NoMemory, Refusal};
use std::alloc::Global;

// Whether the root of a unit has no fault and the tag `DW_TAG_partial_unit`.
#[tactic(auto, using(crate::proofs::LimitLemmas::begins_given, crate::proofs::LimitLemmas::begins_ended))]
fn has_partial_root(alloc: Global, unit: &Unit<'_>) -> Result<bool, NoMemory>
    ensures read { IfOk result (λ is. is ≡ begins_partial (entries_of (plain_unit unit.now)).items) }
    ensures named { IfErr result (λ e. e ≡ Allocation) }
{
    let left = entries(unit);
    match left.first(alloc) {
        Ok(Some(root)) => Ok(root.tag() == DW_TAG_partial_unit),
        Ok(None) => Ok(false),
        Err(Refusal::Fault(_)) => Ok(false),
        Err(Refusal::NoMemory(cause)) => Err(cause),
    }
}

/// Whether a unit is a partial unit. In version 5 the unit type decides, in version 4 the tag of the root if that has no fault.
#[tactic(auto, unfolding(crate::specs::Sequence::is_partial))]
pub fn is_partial(alloc: Global, unit: &Unit<'_>) -> Result<bool, NoMemory>
    ensures read { IfOk result (λ is. is ≡ spec.is_partial (plain_unit unit.now)) }
    ensures named { IfErr result (λ e. e ≡ Allocation) }
{
    if unit.version == DWARF_4 {
        return has_partial_root(alloc, unit);
    }
    Ok(unit.info[unit.offset.get() as usize + UNIT_TYPE] == DW_UT_partial)
}
