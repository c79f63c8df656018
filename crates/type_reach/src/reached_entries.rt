// Found entries, numbered by offset.
ghost use Rattle.std.specs.Prelude.{◌≡◌, ◌<◌, ◌^◌, length, nat_eq, position, slice_get, Contains, Some, IfErr, IfOk, IfSome, IfNone};
ghost use Rattle.std.specs.List.{IsDistinct};
ghost use Rattle.std.specs.List.Sorted.{IsNonDecreasing};
ghost use Rattle.abi_base.specs.declared.fault.NoMemory.TheVariants.{Allocation};
ghost use Rattle.type_reach.specs.VisitedEntries.{marked_places};

use crate::searches::{BETWEEN_HINTS, hint_for, place_near};
use abi_base::NoMemory;
use dwarf_tree::EntryNumber;
use std::alloc::Global;
use std::marker::Model;

/// Entries, each once, by offset. Contracts see the list of their positions.
#[derive(Drop)]
pub struct ReachedEntries {
    entries: Vec<EntryNumber>,
    // For each block of entries of the tree, the number of found entries before it. Hints only save time: the result is the same
    // whatever they are.
    hints: Vec<u32>,
}

impl Model for ReachedEntries {
    ghost use Rattle.std.specs.Prelude.{List, ℕ};
    ghost use Rattle.std.specs.List.Sorted.{IsStrictlyIncreasing};

    ghost Value = { List ℕ };

    ghost view = { λ found. found.entries.items };

    ghost invariant = { λ found. IsStrictlyIncreasing found.entries.items };
}

impl ReachedEntries {
    // The marked entries. The capacity only saves time: more or fewer may be marked.
    pub(crate) fn marked(
        alloc: Global,
        marks: &[bool],
        room: usize,
    ) -> Result<ReachedEntries, NoMemory>
        requires { length marks.now < 2 ^ 32 }
        ensures found { IfOk result (λ found. found ≡ marked_places marks.now) }
        ensures named { IfErr result (λ e. e ≡ Allocation) }
    {
        let mut entries = Vec::with_capacity(alloc, room)?;
        let mut hints = Vec::with_capacity(alloc, marks.len() / BETWEEN_HINTS + 1)?;
        'marks: for e in 0..marks.len() {
            if e % BETWEEN_HINTS == 0 {
                hints.push(entries.len() as u32)?;
            }
            if marks[e] {
                entries.push(EntryNumber::new(e as u32))?;
            }
        }
        Ok(ReachedEntries { entries, hints })
    }

    /// The number of entries.
    pub fn len(&self) -> usize
        ensures { result ≡ length self.now }
    {
        self.entries.len()
    }

    /// The entry with this number.
    pub fn at(&self, number: usize) -> EntryNumber
        requires { number < length self.now }
        ensures { slice_get self.now number ≡ Some result }
    {
        self.entries[number]
    }

    // The number of an entry.
    fn place(&self, e: EntryNumber) -> Option<usize>
        ensures place { result ≡ position (nat_eq e) self.now }
        ensures inside { IfSome result (λ i. i < length self.now) }
    {
        let hint = hint_for(self.hints.as_slice(), e);
        place_near(self.entries.as_slice(), e, hint)
    }

    /// The number of an entry. None exactly where it was not found.
    pub fn number(&self, e: EntryNumber) -> Option<usize>
        ensures number { result ≡ position (nat_eq e) self.now }
        ensures inside { IfSome result (λ i. i < length self.now) }
        ensures at { IfSome result (λ i. slice_get self.now i ≡ Some e) }
        ensures none { IfNone result (Contains self.now e → ⊥) }
    {
        self.place(e)
    }

    /// The number of a found entry.
    pub fn number_of(&self, e: EntryNumber) -> usize
        requires { Contains self.now e }
        ensures { slice_get self.now result ≡ Some e }
    {
        match self.number(e) {
            Some(number) => number,
            None => unreachable!(),
        }
    }

    /// The list has no duplicates. Does nothing.
    pub fn known(&self)
        ensures { IsDistinct nat_eq self.now }
    {
        let _ = &self.entries;
    }

    /// The list is in order. Does nothing.
    pub fn in_order(&self)
        ensures { IsNonDecreasing self.now }
    {
        let _ = &self.entries;
    }
}
