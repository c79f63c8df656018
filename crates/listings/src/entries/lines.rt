// The lines of entries.
ghost use Rattle.std.specs.Prelude.{◌≡◌, ◌<◌, ◌≤◌, ◌++◌, flat_map, length, OnOk, IfErr, IfOk, string_bytes};
ghost use Rattle.abi_base.specs.Limits.{input_limit};
ghost use Rattle.abi_base.specs.Outcome.{Judges, OnPast};
ghost use Rattle.abi_base.specs.declared.limit.Limit.TheVariants.{Attributes};
ghost use Rattle.dwarf_units.specs.Limits.{HaveFewAttributes, UnitsPass, attributes_allowed, attributes_count};
ghost use Rattle.dwarf_units.specs.Plain.{plain_unit};
ghost use Rattle.dwarf_units.specs.Sequence.{all_entries, entries_fault};
ghost use Rattle.dwarf_units.specs.Units.{entries_of};
ghost use Rattle.elf.specs.sections.DebugSections.{debug_abbrev, debug_info};
ghost use Rattle.listings.specs.entries.EntryLines.{EntriesPass, entry_line, line_of, listing_fault, listing_of};

use abi_base::Refusal;
use dwarf_forms::Sections;
use dwarf_units::{Unit, attributes_budget, entries, tables_budget, units};
use elf::file::read_elf;
use elf::sections::debug_sections;
use std::alloc::{AllocError, Global};
use std::fmt::Write;

// Appends the line of an entry: its offset, its depth, and its tag in hexadecimal.
fn push_line(text: &mut String, offset: u64, depth: u32, tag: u64) -> Result<(), AllocError>
    ensures { OnOk result (string_bytes text.new ≡ string_bytes text.old ++ line_of offset depth tag) }
{
    writeln!(text, "{offset} {depth} {tag:x}")
}

// Appends a line for each entry of a unit.
fn push_unit(alloc: Global, text: &mut String, unit: &Unit<'_>) -> Result<(), Refusal>
    ensures judged { Judges result (entries_of (plain_unit unit.now)).end }
    ensures lines { OnOk result (string_bytes text.new
        ≡ string_bytes text.old ++ flat_map entry_line (entries_of (plain_unit unit.now)).items) }
    ensures within { OnOk result (attributes_count (plain_unit unit.now) ≤ attributes_allowed (plain_unit unit.now)) }
    ensures past { IfErr result (λ e. OnPast e (λ l. (l ≡ Attributes)
        × (attributes_allowed (plain_unit unit.now) < attributes_count (plain_unit unit.now)))) }
{
    let mut budget = attributes_budget(unit);
    let mut left = entries(unit);
    'list: loop {
        match left.next_outline(alloc, &mut budget) {
            Ok(Some(entry)) => push_line(text, entry.offset().get(), entry.depth(), entry.tag())?,
            Ok(None) => return Ok(()),
            Err(refused) => return Err(refused),
        }
    }
}

// A line for each entry of all units.
#[tactic(auto, using(crate::proofs::entries_lemmas::Listings::section_done, crate::proofs::entries_lemmas::Listings::section_lines))]
fn lines_of(alloc: Global, sections: &Sections<'_>) -> Result<String, Refusal>
    ensures judged { Judges result (entries_fault sections.now.info.now sections.now.abbrev.now) }
    ensures lines { IfOk result (λ text. string_bytes text
        ≡ flat_map entry_line (all_entries sections.now.info.now sections.now.abbrev.now)) }
    ensures within { OnOk result (HaveFewAttributes sections.now.info.now sections.now.abbrev.now) }
    ensures past { IfErr result (λ e. OnPast e (UnitsPass sections.now.info.now sections.now.abbrev.now)) }
{
    let mut text = String::new(alloc);
    let mut budget = tables_budget(sections);
    let mut left = units(sections);
    'list: loop {
        match left.next_unit(alloc, &mut budget) {
            Ok(Some(unit)) => match push_unit(alloc, &mut text, &unit) {
                Ok(()) => {}
                Err(refused) => return Err(refused),
            },
            Ok(None) => return Ok(text),
            Err(refused) => return Err(refused),
        }
    }
}

/// A line for each debugging information entry of a library, by offset: its offset, its depth, and its tag in hexadecimal. Err is
/// the first fault of the file header and the sections, or else of the units and entries. No other fault is checked. That a limit is
/// passed is answered only where the abbreviation tables of all units count more than allowed, or the attributes of one unit.
#[tactic(auto, unfolding(crate::specs::entries::EntryLines::listing_fault, crate::specs::entries::EntryLines::listing_of))]
pub fn entry_lines(alloc: Global, library: &[u8]) -> Result<String, Refusal>
    requires { length library.now ≤ input_limit }
    ensures judged { Judges result (listing_fault library.now) }
    ensures lines { IfOk result (λ text. string_bytes text ≡ listing_of library.now) }
    ensures within { OnOk result (HaveFewAttributes (debug_info library.now) (debug_abbrev library.now)) }
    ensures past { IfErr result (λ e. OnPast e (EntriesPass library.now)) }
{
    let file = read_elf(library)?;
    let sections = debug_sections(&file);
    lines_of(alloc, &sections)
}
