// The debug sections and the tree of their entries, with the context of each unit.
ghost use Rattle.std.specs.Prelude.{◌≡◌, ◌<◌, length, is_some, IfErr, IfOk};
ghost use Rattle.abi_base.specs.declared.fault.NoMemory.TheVariants.{Allocation};
ghost use Rattle.std.specs.Option.{option_copied};
ghost use Rattle.std.specs.Result.{result_map_both};
ghost use Rattle.abi_base.specs.Numbers as spec;
ghost use Rattle.dwarf_text.specs.Texts.{fault_of};
ghost use Rattle.dwarf_tree.specs.Trees.{entry_at, head_at, own_of};
ghost use Rattle.dwarf_entries.specs.Debug.{PlainDwarf, plain_sections, text_at_entry, address_at_entry};
ghost use Rattle.dwarf_entries.specs.UnitContext.{debug, told_of, all_told};

use crate::links::Links;
use crate::unit_context::{UnitContext, told_by_root};
use abi_base::{Fault, NoMemory, text_at};
use dwarf_forms::{Sections, Value};
use dwarf_text::{address, text, text_fault, texts_end};
use dwarf_tree::{EntryNumber, Tree};
use std::alloc::Global;
use std::marker::Model;

// Debug information, with the context of each unit. Contracts see it as a `PlainDwarf`.
#[derive(Drop)]
pub(crate) struct Source<'a> {
    sections: Sections<'a>,
    links: Links<'a>,
    units: Vec<UnitContext>,
    // the end of the last string in `.debug_str`
    str_end: usize,
}

impl<'a> Model for Source<'a> {
    ghost use Rattle.dwarf_entries.specs.Debug.{PlainDwarf, plain_sections};

    ghost Value = { PlainDwarf };

    ghost use Rattle.dwarf_entries.specs.UnitContext.{debug, IsSource};

    ghost view = { λ s. debug (plain_sections s.sections) s.links };

    ghost invariant = { λ s. IsSource s.units.items s.str_end (debug (plain_sections s.sections) s.links) };
}

// The context of each unit, from its root.
#[tactic(auto, using(crate::proofs::UnitLemmas::told_none, crate::proofs::UnitLemmas::told_more, crate::proofs::UnitLemmas::told_end))]
fn units_told(
    alloc: Global,
    sections: &Sections,
    tree: &Tree<'_>,
) -> Result<Vec<UnitContext>, NoMemory>
    ensures units { IfOk result (λ units. units.items ≡ all_told (debug (plain_sections sections.now) tree.now)) }
    ensures named { IfErr result (λ e. e ≡ Allocation) }
{
    let mut units = Vec::with_capacity(alloc, tree.units_len())?;
    for unit in 0..tree.units_len() {
        let said = told_by_root(sections, tree, unit);
        units.push(said)?;
    }
    Ok(units)
}

impl<'a> Source<'a> {
    // The sections, with the tree that was read from them.
    pub(crate) fn of(
        alloc: Global,
        sections: Sections<'a>,
        tree: Tree<'a>,
    ) -> Result<Source<'a>, NoMemory>
        ensures source { IfOk result (λ s. s ≡ debug (plain_sections sections.entry) tree.entry) }
        ensures named { IfErr result (λ e. e ≡ Allocation) }
    {
        let units = units_told(alloc, &sections, &tree)?;
        let links = Links::of(alloc, tree)?;
        Ok(Source {
            sections,
            links,
            units,
            str_end: texts_end(sections.str),
        })
    }

    // The number of entries.
    pub(crate) fn len(&self) -> usize
        ensures { result ≡ length self.now.tree.entries }
    {
        self.links.tree().len()
    }

    // The tree with its links.
    pub(crate) fn links(&self) -> &Links<'a>
        ensures { result.now ≡ self.now.tree }
    {
        &self.links
    }

    // The tree alone.
    pub(crate) fn tree(&self) -> &Tree<'a>
        ensures { result.now ≡ self.now.tree }
    {
        self.links.tree()
    }

    // The sections from which the tree was read.
    pub(crate) fn sections(&self) -> Sections<'a>
        ensures { plain_sections result ≡ self.now.sections }
    {
        self.sections
    }

    // The context of an entry's unit.
    pub(crate) fn told(&self, e: EntryNumber) -> &UnitContext
        requires { e < length self.now.tree.entries }
        ensures { result.now ≡ told_of self.now (entry_at self.now.tree e).unit }
    {
        let tree = self.links.tree();
        tree.known();
        let unit = tree.unit(e);
        &self.units[unit]
    }

    // The DWARF version of an entry's unit.
    pub(crate) fn version(&self, e: EntryNumber) -> u16
        requires { e < length self.now.tree.entries }
        ensures { result ≡ (head_at self.now.tree (entry_at self.now.tree e).unit).version }
    {
        let tree = self.links.tree();
        tree.known();
        tree.head(tree.unit(e)).version
    }

    // The string of a value of an entry.
    #[tactic(auto, unfolding(crate::specs::Debug::text_at_entry, crate::specs::UnitContext::told_of))]
    pub(crate) fn text(&self, e: EntryNumber, value: &Value) -> Result<&'a [u8], Fault>
        requires { e < length self.now.tree.entries }
        ensures { result_map_both (λ t. t.now) (λ f. f) result ≡ text_at_entry self.now e value.now }
    {
        let said = self.told(e);
        text(
            value,
            &said.bases,
            &self.sections,
            self.links.tree().offset(e),
        )
    }

    // The string at an offset in `.debug_str`.
    pub(crate) fn str_text(&self, place: u64) -> Option<&'a [u8]>
        ensures { option_copied result ≡ spec.text_at self.now.sections.str place }
    {
        text_at(self.sections.str, place)
    }

    // Whether a string begins at an offset in `.debug_str`, which is before the end of the last one. Reads no byte of it.
    #[inline(always)]
    pub(crate) fn has_str_text(&self, place: u64) -> bool
        ensures { result ≡ is_some (spec.text_at self.now.sections.str place) }
    {
        place < self.str_end as u64
    }

    // The fault of the string of a value of an entry. Reads no string of `.debug_str`.
    #[inline(never)]
    #[tactic(auto, unfolding(crate::specs::Debug::text_at_entry, crate::specs::UnitContext::told_of))]
    pub(crate) fn text_fault(&self, e: EntryNumber, value: &Value) -> Option<Fault>
        requires { e < length self.now.tree.entries }
        ensures { result ≡ fault_of (text_at_entry self.now e value.now) }
    {
        let said = self.told(e);
        text_fault(
            value,
            &said.bases,
            &self.sections,
            self.str_end,
            self.links.tree().offset(e),
        )
    }

    // The address of a value of an entry.
    #[tactic(auto, unfolding(crate::specs::Debug::address_at_entry, crate::specs::UnitContext::told_of))]
    pub(crate) fn address(&self, e: EntryNumber, value: &Value) -> Result<u64, Fault>
        requires { e < length self.now.tree.entries }
        ensures { result ≡ address_at_entry self.now e value.now }
    {
        let said = self.told(e);
        address(
            value,
            &said.bases,
            &self.sections,
            self.links.tree().offset(e),
        )
    }
}
