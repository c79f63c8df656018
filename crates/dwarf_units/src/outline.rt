// Entries without their attribute values.
ghost use Rattle.std.specs.Prelude.{◌≡◌, IfErr, IfOk, length, map};
ghost use Rattle.abi_base.specs.declared.fault.NoMemory.TheVariants.{Allocation};

use crate::entry::Entry;
use crate::unit::Unit;
use crate::values::values_in;
use abi_base::{NoMemory, Refusal};
use dwarf_forms::abbreviations::{Abbrev, Spec};
use dwarf_forms::{DebugAbbrevOffset, DebugInfoOffset};
use std::alloc::Global;
use std::marker::Model;

/// An entry of a unit whose values were skipped. `entry` reads them. Contracts see the entry with its values.
#[derive(Drop)]
pub struct Outline<'u, 'a> {
    pub(crate) unit: &'u Unit<'a>,
    // Its abbreviation.
    pub(crate) form: &'u Abbrev,
    pub(crate) offset: DebugInfoOffset,
    pub(crate) depth: u32,
    // The offset of its values, after the abbreviation code.
    pub(crate) values: usize,
}

impl<'u, 'a> Model for Outline<'u, 'a> {
    ghost use Rattle.dwarf_units.specs.declared.entry.Entry.{Entry};

    ghost Value = { Entry };

    ghost use Rattle.std.specs.Prelude.{IsOk};
    ghost use Rattle.dwarf_units.specs.Outlines.{outlined};
    ghost use Rattle.dwarf_units.specs.Plain.{plain_unit};
    ghost use Rattle.dwarf_units.specs.Units.{values_at};

    ghost view = { λ o. outlined (plain_unit o.unit.now) o.form.now o.offset o.depth o.values };

    ghost invariant = { λ o. IsOk (values_at (plain_unit o.unit.now) o.offset o.form.now.specs o.values) };
}

impl<'u, 'a> Outline<'u, 'a> {
    /// The offset of the entry in `.debug_info`.
    #[inline]
    pub fn offset(&self) -> DebugInfoOffset
        ensures { result ≡ self.now.offset }
    {
        self.offset
    }

    /// Its depth: the number of entries above it. The root of a unit has 0.
    #[inline]
    pub fn depth(&self) -> u32
        ensures { result ≡ self.now.depth }
    {
        self.depth
    }

    /// Its tag, `DW_TAG_..`.
    #[inline]
    pub fn tag(&self) -> u64
        ensures { result ≡ self.now.tag }
    {
        self.form.tag
    }

    /// The offset of its abbreviation's attribute specifications in `.debug_abbrev`.
    #[inline]
    pub fn specs_from(&self) -> DebugAbbrevOffset
        ensures { result ≡ self.now.specs_from }
    {
        self.form.specs_from
    }

    /// The attribute specifications of its abbreviation, in order.
    #[inline]
    pub fn specs(&self) -> &[Spec]
        ensures { map (λ s. s.attribute) result.now ≡ map (λ a. a.0) self.now.attributes }
    {
        self.form.specs.as_slice()
    }

    // How many attributes it has.
    #[inline]
    #[tactic(auto, using(crate::proofs::OutlineLemmas::as_many))]
    pub(crate) fn attributes_len(&self) -> usize
        ensures { result ≡ length self.now.attributes }
    {
        self.specs().len()
    }

    /// The entry with its attribute values. Fails only where an allocation does.
    #[tactic(auto, using(crate::proofs::OutlineLemmas::allocation_alone))]
    pub fn entry(&self, alloc: Global) -> Result<Entry, NoMemory>
        ensures read { IfOk result (λ e. e ≡ self.now) }
        ensures named { IfErr result (λ e. e ≡ Allocation) }
    {
        let specs = self.form.specs.as_slice();
        match values_in(alloc, self.unit, self.offset.get(), specs, self.values) {
            Ok((attributes, _)) => Ok(Entry {
                offset: self.offset,
                depth: self.depth,
                tag: self.form.tag,
                specs_from: self.form.specs_from,
                attributes,
            }),
            Err(Refusal::NoMemory(cause)) => Err(cause),
            Err(Refusal::Fault(_)) => unreachable!(),
        }
    }
}
