// The readers of a section's units and of a unit's entries, at their start.
ghost use Rattle.std.specs.Prelude.{◌≡◌, ◌-◌, None, length};
ghost use Rattle.abi_base.specs.Budgets.{fresh};
ghost use Rattle.abi_base.specs.declared.limit.Limit.TheVariants as limit;
ghost use Rattle.dwarf_units.specs.Plain.{plain_unit};
ghost use Rattle.dwarf_units.specs.Sequence.{units_of};
ghost use Rattle.dwarf_units.specs.Units.{entries_of};

use crate::constants::{DWARF_4, HEADER_SIZE, HEADER_SIZE_4, TYPE_HEADER_SIZE};
use crate::reader::Entries;
use crate::sequence::Units;
use crate::table::Tables;
use crate::unit::Unit;
use abi_base::{Budget, Limit};
use dwarf_forms::Sections;

/// All units of `.debug_info`, in order, each with its abbreviations.
pub fn units<'a>(sections: &Sections<'a>) -> Units<'a>
    ensures { result ≡ units_of sections.now.info.now sections.now.abbrev.now }
{
    Units {
        info: sections.info,
        abbrevs: sections.abbrev,
        at: 0,
        tables: Tables::none(),
    }
}

/// All entries of a unit: the root first, and each entry before its children.
#[tactic(auto, unfolding(crate::specs::Units::entries_of))]
pub fn entries<'u, 'a>(unit: &'u Unit<'a>) -> Entries<'u, 'a>
    ensures { result ≡ entries_of (plain_unit unit.now) }
{
    let header = if unit.version == DWARF_4 {
        HEADER_SIZE_4
    } else if unit.signature.is_some() {
        TYPE_HEADER_SIZE
    } else {
        HEADER_SIZE
    };
    Entries {
        unit,
        at: (unit.offset.get() + header) as usize,
        lists: None,
        met: false,
    }
}

/// The budget for the abbreviation tables of units: 64 bytes of tables for each byte of their section, as units can share bytes of
/// tables.
pub fn tables_budget(sections: &Sections<'_>) -> Budget
    ensures { result ≡ fresh limit.Abbreviations (length sections.now.abbrev.now) }
{
    Budget::of(Limit::Abbreviations, sections.abbrev.len())
}

/// The budget for the attributes of a unit's entries: 64 for each byte of the unit, as attributes can have no bytes.
pub fn attributes_budget(unit: &Unit<'_>) -> Budget
    ensures { result ≡ fresh limit.Attributes (unit.now.end - unit.now.offset) }
{
    Budget::of(
        Limit::Attributes,
        unit.end.get().saturating_sub(unit.offset.get()) as usize,
    )
}
