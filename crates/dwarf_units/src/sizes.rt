// Abbreviations, with the size of their entries' values where it is fixed.
ghost use Rattle.std.specs.Prelude.{◌≡◌, IfErr, IfOk, IfSome};
ghost use Rattle.std.specs.Option.{option_copied};
ghost use Rattle.abi_base.specs.declared.fault.NoMemory.TheVariants.{Allocation};
ghost use Rattle.dwarf_forms.specs.abbreviations.Abbrevs.{abbrev_of};
ghost use Rattle.dwarf_forms.specs.abbreviations.LeastBytes.{least_bytes_of};
ghost use Rattle.dwarf_units.specs.Sizes.{AreSizes, EndBehind, IsSizeIn};

use abi_base::NoMemory;
use dwarf_forms::abbreviations::{Abbrev, AbbreviationCode, Spec, Table};
use dwarf_forms::fixed_size;
use dwarf_forms::laws::values_of_a_fixed_size_end_behind_it;
use std::alloc::Global;
use std::marker::Model;

// A capacity that suffices for most units.
const USUAL_CODES: usize = 64;

// Sizes are not stored from this code on.
const MOST_CODES: u64 = 0x10000;

/// An abbreviation table with, for each abbreviation whose forms all have fixed sizes, the size of its entries' values in bytes.
/// Contracts see it as the list of its abbreviations.
#[derive(Drop)]
pub struct SizedTable {
    table: Table,
    // The sizes by code, from code 1 up to the first gap. Producers number codes from 1.
    sizes: Vec<Option<u16>>,
}

impl Model for SizedTable {
    ghost use Rattle.std.specs.Prelude.{List};
    ghost use Rattle.dwarf_forms.specs.declared.abbreviations.abbrev.Abbrev.{Abbrev};
    ghost use Rattle.dwarf_units.specs.Sizes.{AreSizes};

    ghost Value = { List Abbrev };

    ghost view = { λ t. t.table };

    ghost invariant = { λ t. AreSizes t.table t.sizes.items };
}

// The total size of the values of these specifications, if each form has a fixed size and the total fits 16 bits.
fn whole_size(specs: &[Spec]) -> Option<u16>
    ensures { IfSome result (EndBehind specs.now) }
{
    values_of_a_fixed_size_end_behind_it();
    let mut size: u16 = 0;
    for spec in specs {
        let Some(more) = fixed_size(spec.form) else {
            return None;
        };
        let Some(sum) = size.checked_add(more) else {
            return None;
        };
        size = sum;
    }
    Some(size)
}

// The sizes for the codes of a table from 1 up to the first gap.
fn sizes_of(alloc: Global, table: &Table) -> Result<Vec<Option<u16>>, NoMemory>
    ensures sizes { IfOk result (λ sizes. AreSizes table.now sizes.items) }
    ensures named { IfErr result (λ e. e ≡ Allocation) }
{
    let mut sizes = Vec::with_capacity(alloc, USUAL_CODES)?;
    // No abbreviation has the code 0.
    sizes.push(None)?;
    for code in 1..MOST_CODES {
        let Some(abbrev) = table.find(AbbreviationCode::new(code)) else {
            return Ok(sizes);
        };
        sizes.push(whole_size(abbrev.specs.as_slice()))?;
    }
    Ok(sizes)
}

impl SizedTable {
    /// The table with its sizes. Fails only where an allocation does.
    pub fn of(alloc: Global, table: Table) -> Result<SizedTable, NoMemory>
        ensures sized { IfOk result (λ sized. sized ≡ table) }
        ensures named { IfErr result (λ e. e ≡ Allocation) }
    {
        let sizes = sizes_of(alloc, &table)?;
        Ok(SizedTable { table, sizes })
    }

    /// A lower bound of the table's size in `.debug_abbrev`, in bytes.
    pub fn least_bytes(&self) -> usize
        ensures { result ≡ least_bytes_of self.now }
    {
        self.table.least_bytes()
    }

    /// The abbreviation with a code, or None exactly where the table has none.
    #[inline]
    pub fn find(&self, code: AbbreviationCode) -> Option<&Abbrev>
        ensures { option_copied result ≡ abbrev_of self.now code }
    {
        self.table.find(code)
    }

    /// The size in bytes of the values of an entry with this code, if the forms of its abbreviation have fixed sizes. None does not
    /// rule that out.
    #[inline]
    pub fn size(&self, code: AbbreviationCode) -> Option<u16>
        ensures { IfSome result (IsSizeIn self.now code) }
    {
        match self.sizes.get(code.get() as usize) {
            Some(size) => *size,
            None => None,
        }
    }
}
