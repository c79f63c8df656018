// Abbreviation tables, which units share.
ghost use Rattle.std.specs.Prelude.{◌≡◌, ℕ, IfErr, IfOk, List};
ghost use Rattle.abi_base.specs.declared.fault.NoMemory.TheVariants.{Allocation};
ghost use Rattle.abi_base.specs.Outcome.{Judges, OnPast};
ghost use Rattle.dwarf_forms.specs.abbreviations.Abbrevs.{table_run};
ghost use Rattle.dwarf_forms.specs.abbreviations.LeastBytes.{least_bytes_of};
ghost use Rattle.dwarf_units.specs.KeptTables.{IsKept, IsTable};
ghost use Rattle.dwarf_units.specs.Limits.{TablePasses, TakesAtMost};

use crate::sizes::SizedTable;
use abi_base::{Budget, NoMemory, Refusal};
use dwarf_forms::DebugAbbrevOffset;
use dwarf_forms::abbreviations::table;
use std::alloc::Global;
use std::collections::HashMap;
use std::rc::Rc;

// Tables whose sizes add up to more bytes are not stored together. A table takes about 20 bytes of memory for each of its bytes.
// Compilers give each unit a table of its own, and units that share one mostly follow one another.
const MOST_KEPT_BYTES: usize = 0x2_0000;

/// The tables that were read.
#[derive(Drop)]
pub struct Tables {
    // The stored tables, by their offsets in `.debug_abbrev`. None before the first one.
    pub kept: Option<HashMap<u64, Rc<SizedTable>>>,
    // How many more bytes the stored tables may have in the section. More than one table is stored only while all have no more
    // bytes than the section and than `MOST_KEPT_BYTES`.
    pub room: usize,
}

impl Tables {
    /// No tables.
    pub fn none() -> Tables
        ensures { (abbrevs : List ℕ) → IsKept abbrevs result }
    {
        Tables {
            kept: None,
            room: 0,
        }
    }
}

// Stores a table with the others, or alone where there is no room for both.
#[tactic(auto, using(crate::proofs::TableLemmas::kept_none, crate::proofs::TableLemmas::kept_more))]
fn keep(
    alloc: Global,
    abbrevs: &[u8],
    at: DebugAbbrevOffset,
    table: Rc<SizedTable>,
    tables: &mut Tables,
) -> Result<(), NoMemory>
    requires kept { IsKept abbrevs.now tables.old }
    requires read { IsTable abbrevs.now at table.value }
    ensures kept { IsKept abbrevs.now tables.new }
    ensures named { IfErr result (λ e. e ≡ Allocation) }
{
    let size = table.least_bytes();
    if size > tables.room {
        tables.kept = None;
        tables.room = abbrevs.len().min(MOST_KEPT_BYTES);
    }
    tables.room = tables.room.saturating_sub(size);
    match &mut tables.kept {
        Some(kept) => {
            kept.insert(at.get(), table)?;
        }
        None => {
            let mut kept = HashMap::new(alloc);
            kept.insert(at.get(), table)?;
            tables.kept = Some(kept);
        }
    }
    Ok(())
}

// Reads the table at an offset, and stores it. Takes its bytes of the budget.
#[tactic(auto, using(crate::proofs::LimitLemmas::takes_all))]
fn read_table(
    alloc: Global,
    abbrevs: &[u8],
    at: DebugAbbrevOffset,
    tables: &mut Tables,
    budget: &mut Budget,
) -> Result<Rc<SizedTable>, Refusal>
    requires { IsKept abbrevs.now tables.old }
    ensures judged { Judges result (table_run abbrevs.now at).end }
    ensures read { IfOk result (λ t. t.value ≡ (table_run abbrevs.now at).items) }
    ensures kept { IsKept abbrevs.now tables.new }
    ensures taken { IfOk result (λ t. TakesAtMost budget.old budget.new (least_bytes_of t.value)) }
    ensures past { IfErr result (λ e. OnPast e (TablePasses abbrevs.now at budget.old)) }
{
    let read = table(alloc, abbrevs, at)?;
    budget.take(read.least_bytes())?;
    let table = Rc::new(alloc, SizedTable::of(alloc, read)?)?;
    keep(alloc, abbrevs, at, table.clone()?, tables)?;
    Ok(table)
}

/// The table at an offset: the stored one if there is one, else read and stored. Takes the bytes of a table that it reads of the
/// budget: where they would be more than it has, the answer is `Past`.
#[tactic(auto, using(crate::proofs::LimitLemmas::takes_none))]
pub fn table_in(
    alloc: Global,
    abbrevs: &[u8],
    at: DebugAbbrevOffset,
    tables: &mut Tables,
    budget: &mut Budget,
) -> Result<Rc<SizedTable>, Refusal>
    requires { IsKept abbrevs.now tables.old }
    ensures judged { Judges result (table_run abbrevs.now at).end }
    ensures read { IfOk result (λ t. t.value ≡ (table_run abbrevs.now at).items) }
    ensures kept { IsKept abbrevs.now tables.new }
    ensures taken { IfOk result (λ t. TakesAtMost budget.old budget.new (least_bytes_of t.value)) }
    ensures past { IfErr result (λ e. OnPast e (TablePasses abbrevs.now at budget.old)) }
{
    let found = match &tables.kept {
        Some(kept) => kept.get(&at.get()),
        None => None,
    };
    match found {
        Some(table) => Ok(table.clone()?),
        None => read_table(alloc, abbrevs, at, tables, budget),
    }
}
