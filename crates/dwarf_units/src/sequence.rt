// The units of `.debug_info`, one at a time.
ghost use Rattle.std.specs.Prelude.{◌≡◌, ◌≤◌, ◌<◌, IfErr, IfOk, MatchOption, length};
ghost use Rattle.abi_base.specs.Limits.{input_limit};
ghost use Rattle.abi_base.specs.Outcome.{OnPast};
ghost use Rattle.dwarf_units.specs.KeptTables.{IsKept, IsUnit, NextIsBy};
ghost use Rattle.dwarf_units.specs.Limits.{PassesLeft, TakesAtMost, UnitPasses, table_cost};
ghost use Rattle.dwarf_units.specs.Plain.{plain_unit};

use crate::constants::{LENGTH_SIZE, TYPE_OFFSET, TYPE_SIGNATURE, VERSION};
use crate::header::{abbrevs_in, header_fault_in, is_type_in};
use crate::partial::is_partial;
use crate::table::{Tables, table_in};
use crate::unit::Unit;
use abi_base::{Budget, Refusal, u16_in, u32_in, u64_in};
use dwarf_forms::DebugInfoOffset;
use std::alloc::Global;
use std::marker::Model;

/// The remaining units. Contracts see them as a list with the fault at its end, if there is one.
#[derive(Drop)]
pub struct Units<'a> {
    pub(crate) info: &'a [u8],
    pub(crate) abbrevs: &'a [u8],
    pub(crate) at: usize,
    // The abbreviation tables of earlier units.
    pub(crate) tables: Tables,
}

impl<'a> Model for Units<'a> {
    ghost use Rattle.std.specs.Prelude.{Option, ◌≤◌, length};
    ghost use Rattle.abi_base.specs.Limits.{input_limit};
    ghost use Rattle.abi_base.specs.declared.fault.Fault.{Fault};
    ghost use Rattle.abi_base.specs.Runs.{Run};
    ghost use Rattle.dwarf_units.specs.Units.{PlainUnit};
    ghost use Rattle.dwarf_units.specs.Sequence.{units_from};
    ghost use Rattle.dwarf_units.specs.KeptTables.{IsKept};

    ghost Value = { Run PlainUnit (Option Fault) };

    ghost view = { λ r. units_from r.info.now r.abbrevs.now r.at };

    ghost invariant = { λ r. (length r.info.now ≤ input_limit) × IsKept r.abbrevs.now r.tables };
}

// The unit at an offset inside the section.
#[tactic(auto, using(crate::proofs::LimitLemmas::unit_passes), unfolding(crate::specs::Sequence::unit_of, crate::specs::Sequence::unit_fault, crate::specs::Sequence::unit_step))]
fn unit_in<'a>(
    alloc: Global,
    info: &'a [u8],
    abbrevs: &[u8],
    at: usize,
    tables: &mut Tables,
    budget: &mut Budget,
) -> Result<Unit<'a>, Refusal>
    requires before { at < length info.now }
    requires small { length info.now ≤ input_limit }
    requires kept { IsKept abbrevs.now tables.old }
    ensures read { IsUnit info.now abbrevs.now at result }
    ensures keeps { IsKept abbrevs.now tables.new }
    ensures taken { IfOk result (λ u. TakesAtMost budget.old budget.new (table_cost (plain_unit u))) }
    ensures past { IfErr result (λ e. OnPast e (UnitPasses info.now abbrevs.now at budget.old)) }
{
    match header_fault_in(info, at) {
        Some(fault) => return Err(Refusal::Fault(fault)),
        None => {}
    }
    let end = at as u64 + LENGTH_SIZE + u64::from(u32_in(info, at));
    match table_in(alloc, abbrevs, abbrevs_in(info, at), tables, budget) {
        Ok(table) => {
            let is_type = is_type_in(info, at);
            let mut unit = Unit {
                offset: DebugInfoOffset::new(at as u64),
                end: DebugInfoOffset::new(end),
                version: u16_in(info, at + VERSION),
                partial: false,
                signature: if is_type {
                    Some(u64_in(info, at + TYPE_SIGNATURE))
                } else {
                    None
                },
                type_entry: DebugInfoOffset::new(if is_type {
                    at as u64 + u64::from(u32_in(info, at + TYPE_OFFSET))
                } else {
                    0
                }),
                table,
                info,
            };
            unit.partial = is_partial(alloc, &unit)?;
            Ok(unit)
        },
        Err(refused) => Err(refused),
    }
}

impl<'a> Units<'a> {
    /// The next unit, or None at the end of the section. The faults are `Dwarf64`, `UnitHeader`, `DwarfVersion`, `UnitType`
    /// and `AddressSize` at the unit, and `Abbrev` at the abbreviation. After a fault every later call returns the same fault.
    /// After `NoMemory` the reader is unchanged, and the caller may call again.
    ///
    /// The bytes of an abbreviation table that is read are taken of the budget (`tables_budget`). Where the budget has fewer, the
    /// answer is `Past`. A table that is still stored from an earlier unit takes nothing.
    #[tactic(auto, using(crate::proofs::LimitLemmas::units_pass, crate::proofs::UnitsLeft::units_give, crate::proofs::UnitsLeft::units_end, crate::proofs::UnitsLeft::units_done), unfolding(crate::specs::Sequence::unit_step))]
    pub fn next_unit(
        &mut self,
        alloc: Global,
        budget: &mut Budget,
    ) -> Result<Option<Unit<'a>>, Refusal>
        ensures next { NextIsBy plain_unit self.old result self.new }
        ensures taken { IfOk result (λ o. MatchOption o (budget.new
            ≡ budget.old) (λ u. TakesAtMost budget.old budget.new (table_cost (plain_unit u)))) }
        ensures past { IfErr result (λ e. OnPast e (PassesLeft table_cost self.old budget.old)) }
    {
        if self.at >= self.info.len() {
            return Ok(None);
        }
        match unit_in(
            alloc,
            self.info,
            self.abbrevs,
            self.at,
            &mut self.tables,
            budget,
        ) {
            Ok(unit) => {
                self.at = unit.end.get() as usize;
                Ok(Some(unit))
            }
            Err(refused) => Err(refused),
        }
    }
}
