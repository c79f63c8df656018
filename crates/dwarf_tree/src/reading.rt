// Reads the units of a section and their entries.
ghost use Rattle.std.specs.Prelude.{◌≡◌, ◌<◌, ◌≤◌, ◌+◌, ◌^◌, ◌++◌, All, length, IfErr, IfOk, OnOk};
ghost use Rattle.abi_base.specs.declared.limit.Limit.TheVariants.{Attributes};
ghost use Rattle.abi_base.specs.Outcome.{Judges, OnPast};
ghost use Rattle.dwarf_units.specs.Limits.{HaveFewAttributes, UnitsPass, attributes_allowed, attributes_count};
ghost use Rattle.dwarf_units.specs.Plain.{plain_unit};
ghost use Rattle.dwarf_units.specs.Sequence.{entries_fault};
ghost use Rattle.dwarf_units.specs.ValuePlaces.{IsTold};
ghost use Rattle.dwarf_units.specs.Units.{entries_of};
ghost use Rattle.dwarf_tree.specs.Keeping.{now_with, with_unit};
ghost use Rattle.dwarf_tree.specs.Trees.{head_at, head_of, placed_entries, tree_of};

use crate::head::Head;
use crate::laws::a_section_is_in_order;
use crate::tree_builder::TreeBuilder;
use abi_base::Refusal;
use dwarf_forms::Sections;
use dwarf_units::laws::values_stand_where_told;
use dwarf_units::{Unit, attributes_budget, entries, tables_budget, units};
use std::alloc::Global;

// Appends the entries of the unit with a number.
fn push_entries(
    alloc: Global,
    growing: &mut TreeBuilder<'_>,
    number: u32,
    unit: &Unit<'_>,
) -> Result<(), Refusal>
    requires inside { number < length growing.old.tree.units }
    requires head { head_at growing.old.tree number ≡ head_of (plain_unit unit.now) }
    requires same { unit.now.info.now ≡ growing.old.info }
    requires small { length growing.old.abbrevs < 2 ^ 32 }
    requires few { length growing.old.tree.entries + length (entries_of (plain_unit unit.now)).items < 2 ^ 32 }
    requires told { All (IsTold growing.old.abbrevs (plain_unit unit.now)) (entries_of (plain_unit unit.now)).items }
    ensures judged { Judges result (entries_of (plain_unit unit.now)).end }
    ensures grown { OnOk result (growing.new
        ≡ now_with growing.old growing.old.tree.units (growing.old.tree.entries ++ placed_entries (number, plain_unit unit.now))) }
    ensures within { OnOk result (attributes_count (plain_unit unit.now) ≤ attributes_allowed (plain_unit unit.now)) }
    ensures past { IfErr result (λ e. OnPast e (λ l. (l ≡ Attributes)
        × (attributes_allowed (plain_unit unit.now) < attributes_count (plain_unit unit.now)))) }
{
    let mut budget = attributes_budget(unit);
    let mut left = entries(unit);
    'list: loop {
        match left.next_outline(alloc, &mut budget) {
            Ok(Some(entry)) => growing.push_entry(number, &entry)?,
            Ok(None) => return Ok(()),
            Err(refused) => return Err(refused),
        }
    }
}

// Appends a unit and its entries.
fn push_unit(alloc: Global, growing: &mut TreeBuilder<'_>, unit: &Unit<'_>) -> Result<(), Refusal>
    requires few_units { length growing.old.tree.units < 2 ^ 32 }
    requires few { length growing.old.tree.entries + length (entries_of (plain_unit unit.now)).items < 2 ^ 32 }
    requires same { unit.now.info.now ≡ growing.old.info }
    requires small { length growing.old.abbrevs < 2 ^ 32 }
    requires told { All (IsTold growing.old.abbrevs (plain_unit unit.now)) (entries_of (plain_unit unit.now)).items }
    ensures judged { Judges result (entries_of (plain_unit unit.now)).end }
    ensures grown { OnOk result (growing.new
        ≡ now_with growing.old (with_unit growing.old.tree (plain_unit unit.now)).units (with_unit growing.old.tree (plain_unit unit.now)).entries) }
    ensures within { OnOk result (attributes_count (plain_unit unit.now) ≤ attributes_allowed (plain_unit unit.now)) }
    ensures past { IfErr result (λ e. OnPast e (λ l. (l ≡ Attributes)
        × (attributes_allowed (plain_unit unit.now) < attributes_count (plain_unit unit.now)))) }
{
    let number = growing.units_len() as u32;
    growing.push_head(Head {
        offset: unit.offset,
        end: unit.end,
        version: unit.version,
        signature: unit.signature,
        type_entry: unit.type_entry,
    })?;
    push_entries(alloc, growing, number, unit)
}

// Reads all units and their entries.
#[tactic(auto, using(crate::proofs::Growth::section_done, crate::proofs::Growth::section_read, crate::proofs::Growth::number_fits))]
pub(crate) fn read_all<'a>(
    alloc: Global,
    sections: &Sections<'a>,
) -> Result<TreeBuilder<'a>, Refusal>
    ensures judged { Judges result (entries_fault sections.now.info.now sections.now.abbrev.now) }
    ensures read { IfOk result (λ g. g.tree ≡ tree_of sections.now.info.now sections.now.abbrev.now) }
    ensures within { OnOk result (HaveFewAttributes sections.now.info.now sections.now.abbrev.now) }
    ensures past { IfErr result (λ e. OnPast e (UnitsPass sections.now.info.now sections.now.abbrev.now)) }
{
    values_stand_where_told();
    a_section_is_in_order();
    let mut growing = TreeBuilder::new(alloc, sections.info, sections.abbrev)?;
    let mut budget = tables_budget(sections);
    let mut left = units(sections);
    'list: loop {
        match left.next_unit(alloc, &mut budget) {
            Ok(Some(unit)) => match push_unit(alloc, &mut growing, &unit) {
                Ok(()) => {}
                Err(refused) => return Err(refused),
            },
            Ok(None) => return Ok(growing),
            Err(refused) => return Err(refused),
        }
    }
}
