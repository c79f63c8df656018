// The shapes of the entries read so far.
ghost use Rattle.std.specs.Prelude.{◌≡◌, ◌<◌, ◌+◌, ◌≤◌, ◌^◌, [], All, length, IfErr, IfOk, IfSome, OnErr, OnOk};
ghost use Rattle.abi_base.specs.declared.fault.NoMemory.TheVariants.{Allocation};
ghost use Rattle.dwarf_tree.specs.Keeping.{AreSlots, Extends, IsNewLayout, IsLayout, shape_at};

use crate::attribute_source::names_of;
use crate::entry_records::{AbbreviationLayout, Slot};
use crate::slots::push_slots;
use abi_base::NoMemory;
use dwarf_units::Outline;
use std::alloc::Global;
use std::marker::Model;

/// The shapes of entries, in the order of their first entries. Contracts see them as a `LayoutTable`.
#[derive(Drop)]
pub(crate) struct AbbreviationLayouts {
    list: Vec<AbbreviationLayout>,
    slots: Vec<Slot>,
    // For each offset in `.debug_abbrev` the number of the last shape whose attribute specifications begin there, plus 1; 0 where
    // there is none. It is a hint: a caller checks the shape before it uses it.
    at: Vec<u32>,
}

impl Model for AbbreviationLayouts {
    ghost use Rattle.std.specs.Prelude.{◌<◌, ◌^◌, length};
    ghost use Rattle.dwarf_tree.specs.Keeping.{LayoutTable};

    ghost Value = { LayoutTable };

    ghost view = { λ s. record { shapes = s.list.items; slots = s.slots.items } };

    ghost invariant = { λ s. length s.slots.items < 2 ^ 32 };
}

impl AbbreviationLayouts {
    /// No shapes, and room for hints at all offsets in `.debug_abbrev`.
    pub fn new(alloc: Global, bytes: usize) -> Result<AbbreviationLayouts, NoMemory>
        ensures empty { IfOk result (λ shapes. shapes ≡ record { shapes = []; slots = [] }) }
        ensures named { IfErr result (λ e. e ≡ Allocation) }
    {
        Ok(AbbreviationLayouts {
            list: Vec::new(alloc),
            slots: Vec::new(alloc),
            at: vec![in alloc; 0; bytes]?,
        })
    }

    // The number of the last shape noted for the offset of its attribute specifications.
    fn noted(&self, specs_from: u64) -> Option<u32>
        ensures inside { IfSome result (λ number. number < length self.now.shapes) }
        ensures place { IfSome result (λ number. (shape_at self.now.shapes number).specs_from ≡ specs_from) }
    {
        let noted = self.at.get(specs_from as usize)?;
        let number = noted.checked_sub(1)?;
        let shape = self.list.get(number as usize)?;
        if u64::from(shape.specs_from) == specs_from {
            Some(number)
        } else {
            None
        }
    }

    /// The number of the shape of a unit and a tag whose attribute specifications are at an offset, if it is the last one noted
    /// there.
    pub fn find(&self, unit: u32, tag: u64, specs_from: u64) -> Option<u32>
        ensures inside { IfSome result (λ number. number < length self.now.shapes) }
        ensures unit { IfSome result (λ number. (shape_at self.now.shapes number).unit ≡ unit) }
        ensures tag { IfSome result (λ number. (shape_at self.now.shapes number).tag ≡ tag) }
        ensures place { IfSome result (λ number. (shape_at self.now.shapes number).specs_from ≡ specs_from) }
    {
        let number = self.noted(specs_from)?;
        let shape = self.list[number as usize];
        if shape.unit == unit && shape.tag == tag {
            Some(number)
        } else {
            None
        }
    }

    // The slots of attribute specifications: from the first number up to the second. A shape noted for the same specifications
    // shares its slots, so that units with shared abbreviations share slots too; otherwise they are new.
    fn slots_of(&mut self, abbrevs: &[u8], specs_from: u64) -> Result<(u32, u32), NoMemory>
        requires say { All (IsLayout abbrevs.now self.old.slots) self.old.shapes }
        ensures there { IfOk result (λ place. place.1 ≤ length self.new.slots) }
        ensures lead { IfOk result (λ place. AreSlots abbrevs.now specs_from self.new.slots place.0 place.1) }
        ensures extended { Extends self.old.slots self.new.slots }
        ensures same { self.new.shapes ≡ self.old.shapes }
        ensures named { IfErr result (λ e. e ≡ Allocation) }
    {
        if let Some(number) = self.noted(specs_from) {
            let shape = self.list[number as usize];
            return Ok((shape.slots_from, shape.slots_to));
        }
        let slots_from = self.slots.len() as u32;
        push_slots(abbrevs, specs_from as usize, &mut self.slots)?;
        Ok((slots_from, self.slots.len() as u32))
    }

    /// Appends the shape of an entry of a unit, and notes the offset of its attribute specifications. Returns the number of the
    /// shape.
    pub fn push(
        &mut self,
        abbrevs: &[u8],
        unit: u32,
        entry: &Outline<'_, '_>,
    ) -> Result<u32, NoMemory>
        requires few { length self.old.shapes + 1 < 2 ^ 32 }
        requires say { All (IsLayout abbrevs.now self.old.slots) self.old.shapes }
        requires specs { entry.now.specs_from < 2 ^ 32 }
        ensures number { IfOk result (λ number. number ≡ length self.old.shapes) }
        ensures pushed { OnOk result (IsNewLayout abbrevs.now self.old.shapes unit entry.now self.new) }
        ensures same { OnErr result (self.new.shapes ≡ self.old.shapes) }
        ensures extended { Extends self.old.slots self.new.slots }
        ensures named { IfErr result (λ e. e ≡ Allocation) }
    {
        let number = self.list.len() as u32;
        let specs_from = entry.specs_from().get();
        let (slots_from, slots_to) = self.slots_of(abbrevs, specs_from)?;
        self.list.push(AbbreviationLayout {
            tag: entry.tag(),
            names: names_of(entry.specs()),
            specs_from: specs_from as u32,
            slots_from,
            slots_to,
            unit,
        })?;
        if let Some(noted) = self.at.get_mut(specs_from as usize) {
            *noted = number + 1;
        }
        Ok(number)
    }

    /// The shapes without their slots.
    pub fn as_slice(&self) -> &[AbbreviationLayout]
        ensures { result.now ≡ self.now.shapes }
    {
        self.list.as_slice()
    }

    /// Frees unused capacity.
    pub fn shrink(&mut self)
        ensures { self.new ≡ self.old }
    {
        self.list.shrink_to_fit();
        self.slots.shrink_to_fit();
    }

    /// The shapes and their slots.
    pub fn into_lists(self) -> (Vec<AbbreviationLayout>, Vec<Slot>)
        ensures shapes { result.0.items ≡ self.shapes }
        ensures slots { result.1.items ≡ self.slots }
    {
        let AbbreviationLayouts { list, slots, at: _ } = self;
        (list, slots)
    }
}
