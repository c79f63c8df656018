// The abbreviations of a unit, by code.
ghost use Rattle.std.specs.Prelude.{◌≡◌, ◌-◌, ◌^◌, [], ◌∷◌, ◌++◌, min, None, IfErr, OnOk};
ghost use Rattle.std.specs.Option.{option_copied};
ghost use Rattle.abi_base.specs.declared.fault.NoMemory.TheVariants.{Allocation};
ghost use Rattle.dwarf_forms.specs.abbreviations.Abbrevs.{abbrev_of};
ghost use Rattle.dwarf_forms.specs.abbreviations.LeastBytes.{least_bytes_in, least_bytes_of};
ghost use Rattle.dwarf_forms.specs.abbreviations.Places.{Placed};
ghost use Rattle.dwarf_forms.specs.abbreviations.Places as spec;

use crate::abbreviations::{Abbrev, AbbreviationCode};
use abi_base::{List, NoMemory};
use std::alloc::Global;
use std::collections::BTreeMap;
use std::marker::Model;

/// An abbreviation table. Contracts see it as the list of its abbreviations, in section order.
#[derive(Drop)]
pub struct Table {
    abbrevs: List<Abbrev>,
    // The positions of the abbreviations whose code is not their position plus 1, by code. Producers number codes from 1, so it
    // usually stays empty and allocates nothing.
    elsewhere: BTreeMap<u64, usize>,
    // A lower bound of the size of the abbreviations in the section.
    bytes: usize,
}

// An abbreviation without attributes has at least a code, a tag, the byte for children, and two bytes that end its list.
const LEAST_BYTES: usize = 5;

// An attribute specification has at least one byte for each of its two numbers.
const PAIR_BYTES: usize = 2;

impl Model for Table {
    ghost use Rattle.std.specs.Prelude.{List};
    ghost use Rattle.dwarf_forms.specs.declared.abbreviations.abbrev.Abbrev.{Abbrev};
    ghost use Rattle.std.specs.Prelude.{◌≡◌};
    ghost use Rattle.dwarf_forms.specs.abbreviations.LeastBytes.{least_bytes_of};
    ghost use Rattle.dwarf_forms.specs.abbreviations.Places.{Placed};

    ghost Value = { List Abbrev };

    ghost view = { λ t. t.abbrevs };

    ghost invariant = { λ t. Placed t.abbrevs t.elsewhere × (t.bytes ≡ least_bytes_of t.abbrevs) };
}

// The position of a code in a table with the codes 1, 2, 3, ..
fn own_place(code: AbbreviationCode) -> usize
    ensures { result ≡ code - 1 }
{
    code.get().saturating_sub(1) as usize
}

// The abbreviation with a code, if it is at the position of the code.
fn at_own_place(abbrevs: &[Abbrev], code: AbbreviationCode) -> Option<&Abbrev>
    ensures { option_copied result ≡ spec.at_own_place abbrevs.now code }
{
    match abbrevs.get(own_place(code)) {
        Some(made) if made.code == code => Some(made),
        _ => None,
    }
}

// The abbreviation with a code, if it is at the position that the map has for it.
#[inline(never)]
fn at_kept_place<'a>(
    abbrevs: &'a [Abbrev],
    elsewhere: &BTreeMap<u64, usize>,
    code: AbbreviationCode,
) -> Option<&'a Abbrev>
    ensures { option_copied result ≡ spec.at_kept_place abbrevs.now elsewhere.now code }
{
    match elsewhere.get(&code.get()) {
        Some(place) => abbrevs.get(*place),
        None => None,
    }
}

// A lower bound of the size of an abbreviation in the section.
fn least_bytes(made: &Abbrev) -> usize
    ensures { result ≡ min (least_bytes_in made.now) (2 ^ 64 - 1) }
{
    let pairs = made.specs.as_slice().len().saturating_mul(PAIR_BYTES);
    pairs.saturating_add(LEAST_BYTES)
}

impl Table {
    /// A lower bound of the size of the abbreviations in `.debug_abbrev`: five bytes each, and two for each attribute
    /// specification. The memory that they take is proportional to it.
    pub fn least_bytes(&self) -> usize
        ensures { result ≡ least_bytes_of self.now }
    {
        self.bytes
    }

    // The empty table. Allocates nothing.
    pub(crate) fn new(alloc: Global) -> Table
        ensures { result ≡ [] }
    {
        Table {
            abbrevs: List::new(alloc),
            elsewhere: BTreeMap::new(alloc),
            bytes: 0,
        }
    }

    // Appends an abbreviation with a new code. After `NoMemory` the table is useless.
    pub(crate) fn push(&mut self, alloc: Global, made: Abbrev) -> Result<(), NoMemory>
        requires { abbrev_of self.old made.code ≡ None }
        ensures pushed { OnOk result (self.new ≡ self.old ++ made ∷ []) }
        ensures named { IfErr result (λ e. e ≡ Allocation) }
    {
        let place = self.abbrevs.as_slice().len();
        if own_place(made.code) != place {
            self.elsewhere.insert(made.code.get(), place)?;
        }
        let size = least_bytes(&made);
        match self.abbrevs.push(made) {
            Ok(()) => {
                self.bytes = self.bytes.saturating_add(size);
                Ok(())
            }
            Err(refused) => {
                // The map may refer to the abbreviation that could not be appended.
                *self = Table::new(alloc);
                Err(refused)
            }
        }
    }

    /// The abbreviation with a code, or None exactly where the table has none. Looks at two positions at most.
    #[inline]
    pub fn find(&self, code: AbbreviationCode) -> Option<&Abbrev>
        ensures { option_copied result ≡ abbrev_of self.now code }
    {
        let abbrevs = self.abbrevs.as_slice();
        match at_own_place(abbrevs, code) {
            Some(made) => Some(made),
            None => at_kept_place(abbrevs, &self.elsewhere, code),
        }
    }
}
