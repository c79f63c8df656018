// The entries that a walk has met.
ghost use Rattle.std.specs.Prelude.{◌≡◌, ◌<◌, ◌^◌, [], length, nat_eq, slice_get, Some, IfErr, IfOk, IfSome, OnOk};
ghost use Rattle.std.specs.List.{IsDistinct};
ghost use Rattle.abi_base.specs.declared.fault.NoMemory.TheVariants.{Allocation};
ghost use Rattle.type_reach.specs.Reached.{with_entry, with_type};
ghost use Rattle.type_reach.specs.VisitedEntries.{by_offset};

use crate::reached_entries::ReachedEntries;
use abi_base::NoMemory;
use dwarf_tree::EntryNumber;
use std::alloc::Global;
use std::marker::Model;

/// The entries that a walk has met, each once. Contracts see them in order of discovery, with the number of entries of the tree.
#[derive(Drop)]
pub(crate) struct VisitedEntries {
    // For each entry of the tree, whether it was met.
    marks: Vec<bool>,
    entries: Vec<EntryNumber>,
}

impl Model for VisitedEntries {
    ghost use Rattle.std.specs.Prelude.{◌<◌, ◌^◌, length};
    ghost use Rattle.type_reach.specs.VisitedEntries.{PlainVisited, AreMarked};

    ghost Value = { PlainVisited };

    ghost view = { λ met. record { entries = met.entries.items; room = length met.marks.items } };

    ghost invariant = { λ met. AreMarked met.marks.items met.entries.items × (length met.marks.items < 2 ^ 32) };
}

impl VisitedEntries {
    /// No entries yet, of a tree with this many.
    pub fn new(alloc: Global, count: usize) -> Result<VisitedEntries, NoMemory>
        requires { count < 2 ^ 32 }
        ensures none { IfOk result (λ met. met ≡ record { entries = []; room = count }) }
        ensures named { IfErr result (λ e. e ≡ Allocation) }
    {
        let marks = vec![in alloc; false; count]?;
        Ok(VisitedEntries {
            marks,
            entries: Vec::new(alloc),
        })
    }

    /// The number of entries met.
    pub fn len(&self) -> usize
        ensures { result ≡ length self.now.entries }
    {
        self.entries.len()
    }

    /// The entry with this number in order of discovery.
    pub fn at(&self, number: usize) -> EntryNumber
        requires { number < length self.now.entries }
        ensures { slice_get self.now.entries number ≡ Some result }
    {
        self.entries[number]
    }

    /// The list has no duplicates. Does nothing.
    pub fn known(&self)
        ensures { IsDistinct nat_eq self.now.entries }
    {
        let _ = &self.entries;
    }

    /// Adds an entry if it is new.
    pub fn add(&mut self, e: EntryNumber) -> Result<(), NoMemory>
        requires { e < self.old.room }
        ensures entries { OnOk result (self.new.entries ≡ with_entry self.old.entries e) }
        ensures room { OnOk result (self.new.room ≡ self.old.room) }
        ensures named { IfErr result (λ e. e ≡ Allocation) }
    {
        let place = e.index();
        if !self.marks[place] {
            self.entries.push(e)?;
            self.marks[place] = true;
        }
        Ok(())
    }

    /// Adds the entry of a type, if there is one and it is new.
    pub fn add_type(&mut self, ty: Option<EntryNumber>) -> Result<(), NoMemory>
        requires { IfSome ty (λ e. e < self.old.room) }
        ensures entries { OnOk result (self.new.entries ≡ with_type self.old.entries ty) }
        ensures room { OnOk result (self.new.room ≡ self.old.room) }
        ensures named { IfErr result (λ e. e ≡ Allocation) }
    {
        match ty {
            Some(e) => self.add(e),
            None => Ok(()),
        }
    }

    /// The entries met, by offset.
    pub fn by_offset(&self, alloc: Global) -> Result<ReachedEntries, NoMemory>
        ensures found { IfOk result (λ found. found ≡ by_offset self.now.entries self.now.room) }
        ensures named { IfErr result (λ e. e ≡ Allocation) }
    {
        ReachedEntries::marked(alloc, self.marks.as_slice(), self.entries.len())
    }
}
