// A tree while it is read.
ghost use Rattle.std.specs.Prelude.{◌≡◌, ◌<◌, ◌≤◌, ◌+◌, ◌^◌, [], ◌∷◌, ◌++◌, All, length, IfErr, IfOk, OnErr, OnOk, Some};
ghost use Rattle.abi_base.specs.declared.fault.NoMemory.TheVariants.{Allocation};
ghost use Rattle.dwarf_tree.specs.Keeping.{Extends, IsLayout, IsStored, decoder, kept_of, names_in, now_with, pair_names, stored_of};
ghost use Rattle.dwarf_tree.specs.Trees.{IsOrdered, depth_at, placed, root_of};

use crate::entry_records::EntryRecord;
use crate::head::Head;
use crate::searches::root_in;
use crate::shapes::AbbreviationLayouts;
use abi_base::NoMemory;
use dwarf_units::Outline;
use std::alloc::Global;
use std::marker::Model;

// The record of an entry whose shape has this number.
fn entry_record_of(shape: u32, entry: &Outline<'_, '_>) -> EntryRecord
    requires { entry.now.offset < 2 ^ 32 }
    ensures { result ≡ stored_of shape entry.now }
{
    EntryRecord {
        offset: entry.offset().get() as u32,
        shape,
        depth: entry.depth(),
    }
}

// Stores an entry of a unit that is the first with its shape, and the shape.
fn store_first(
    abbrevs: &[u8],
    shapes: &mut AbbreviationLayouts,
    entries: &mut Vec<EntryRecord>,
    unit: u32,
    entry: &Outline<'_, '_>,
) -> Result<(), NoMemory>
    requires few { length shapes.old.shapes + 1 < 2 ^ 32 }
    requires say { All (IsLayout abbrevs.now shapes.old.slots) shapes.old.shapes }
    requires offset { entry.now.offset < 2 ^ 32 }
    requires specs { entry.now.specs_from < 2 ^ 32 }
    ensures stored { OnOk result (IsStored abbrevs.now unit entry.now shapes.old.shapes shapes.new
        entries.old.items entries.new.items) }
    ensures extended { Extends shapes.old.slots shapes.new.slots }
    ensures same_shapes { OnErr result (shapes.new.shapes ≡ shapes.old.shapes) }
    ensures same_entries { OnErr result (entries.new.items ≡ entries.old.items) }
    ensures named { IfErr result (λ e. e ≡ Allocation) }
{
    // Reserves first: nothing may fail after the shape is stored.
    entries.reserve(1)?;
    let shape = shapes.push(abbrevs, unit, entry)?;
    entries.push(entry_record_of(shape, entry))?;
    Ok(())
}

// Stores an entry of a unit, and its shape if it is new.
fn store(
    abbrevs: &[u8],
    shapes: &mut AbbreviationLayouts,
    entries: &mut Vec<EntryRecord>,
    unit: u32,
    entry: &Outline<'_, '_>,
) -> Result<(), NoMemory>
    requires few { length shapes.old.shapes + 1 < 2 ^ 32 }
    requires say { All (IsLayout abbrevs.now shapes.old.slots) shapes.old.shapes }
    requires offset { entry.now.offset < 2 ^ 32 }
    requires specs { entry.now.specs_from < 2 ^ 32 }
    ensures stored { OnOk result (IsStored abbrevs.now unit entry.now shapes.old.shapes shapes.new
        entries.old.items entries.new.items) }
    ensures extended { Extends shapes.old.slots shapes.new.slots }
    ensures same_shapes { OnErr result (shapes.new.shapes ≡ shapes.old.shapes) }
    ensures same_entries { OnErr result (entries.new.items ≡ entries.old.items) }
    ensures named { IfErr result (λ e. e ≡ Allocation) }
{
    let Some(shape) = shapes.find(unit, entry.tag(), entry.specs_from().get()) else {
        return store_first(abbrevs, shapes, entries, unit, entry);
    };
    entries.push(entry_record_of(shape, entry))?;
    Ok(())
}

// The units and entries read so far, and the bytes from which they are read. Contracts see them as a tree.
#[derive(Drop)]
pub(crate) struct TreeBuilder<'a> {
    pub info: &'a [u8],
    pub abbrevs: &'a [u8],
    pub units: Vec<Head>,
    pub shapes: AbbreviationLayouts,
    pub entries: Vec<EntryRecord>,
}

impl<'a> Model for TreeBuilder<'a> {
    ghost use Rattle.dwarf_tree.specs.Keeping.{PartialTree, partial_tree, LieInside};

    ghost Value = { PartialTree };

    ghost view = { λ g. partial_tree g.info.now g.abbrevs.now g.units.items g.shapes.shapes g.entries.items };

    ghost invariant = { λ g. LieInside g.info.now g.abbrevs.now g.units.items g.shapes.shapes g.shapes.slots g.entries.items };
}

impl<'a> TreeBuilder<'a> {
    /// A builder that has read nothing yet.
    pub fn new(
        alloc: Global,
        info: &'a [u8],
        abbrevs: &'a [u8],
    ) -> Result<TreeBuilder<'a>, NoMemory>
        ensures empty { IfOk result (λ g. g
            ≡ record { info = info.now; abbrevs = abbrevs.now; tree = record { units = []; entries = [] } }) }
        ensures named { IfErr result (λ e. e ≡ Allocation) }
    {
        Ok(TreeBuilder {
            info,
            abbrevs,
            units: Vec::new(alloc),
            shapes: AbbreviationLayouts::new(alloc, abbrevs.len())?,
            entries: Vec::new(alloc),
        })
    }

    /// The number of units read.
    pub fn units_len(&self) -> usize
        ensures { result ≡ length self.now.tree.units }
    {
        self.units.len()
    }

    /// The number of entries read.
    pub fn len(&self) -> usize
        ensures { result ≡ length self.now.tree.entries }
    {
        self.entries.len()
    }

    /// The depth of an entry: the number of entries above it.
    pub fn depth(&self, e: usize) -> u32
        requires { e < length self.now.tree.entries }
        ensures { result ≡ depth_at self.now.tree e }
    {
        let stored = self.entries[e];
        stored.depth
    }

    /// The position of the root of a unit, by binary search.
    pub fn root(&self, unit: usize) -> usize
        requires ordered { IsOrdered self.now.tree }
        requires inside { unit < length self.now.tree.units }
        ensures root { root_of self.now.tree unit ≡ Some result }
        ensures inside { result < length self.now.tree.entries }
    {
        root_in(self.shapes.as_slice(), self.entries.as_slice(), unit)
    }

    /// Frees unused capacity.
    pub fn shrink(&mut self)
        ensures { self.new ≡ self.old }
    {
        self.units.shrink_to_fit();
        self.shapes.shrink();
        self.entries.shrink_to_fit();
    }

    /// Appends the header of a unit.
    pub fn push_head(&mut self, head: Head) -> Result<(), NoMemory>
        requires { head.end ≤ length self.old.info }
        ensures pushed { OnOk result (self.new
            ≡ now_with self.old (self.old.tree.units ++ head ∷ []) self.old.tree.entries) }
        ensures named { IfErr result (λ e. e ≡ Allocation) }
    {
        self.units.push(head)?;
        Ok(())
    }

    /// Appends an entry of the unit with a number. Its values remain in the bytes.
    pub fn push_entry(&mut self, unit: u32, entry: &Outline<'_, '_>) -> Result<(), NoMemory>
        requires inside { unit < length self.old.tree.units }
        requires offset { entry.now.offset < 2 ^ 32 }
        requires specs { entry.now.specs_from < 2 ^ 32 }
        requires few { length self.old.tree.entries + 1 < 2 ^ 32 }
        requires names { pair_names self.old.abbrevs entry.now.specs_from ≡ names_in entry.now.attributes }
        requires values { decoder self.old.info self.old.abbrevs self.old.tree.units (kept_of 0 unit entry.now)
            ≡ entry.now.attributes }
        ensures pushed { OnOk result (self.new
            ≡ now_with self.old self.old.tree.units (self.old.tree.entries ++ placed unit entry.now ∷ [])) }
        ensures named { IfErr result (λ e. e ≡ Allocation) }
    {
        store(
            self.abbrevs,
            &mut self.shapes,
            &mut self.entries,
            unit,
            entry,
        )
    }
}
