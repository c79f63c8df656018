// Rows of items, stored one after the other in one list.
ghost use Rattle.std.specs.Prelude.{◌≡◌, ◌<◌, ◌≤◌, [], ◌∷◌, ◌++◌, length, slice_get, slice_index_or, Some, IfErr, IfOk, OnOk};
ghost use Rattle.abi_base.specs.declared.fault.NoMemory.TheVariants.{Allocation};

use abi_base::NoMemory;
use std::alloc::Global;
use std::marker::Model;

/// Rows of items. Contracts see them as a list of rows.
#[derive(Drop)]
pub(crate) struct Rows<T> {
    items: Vec<T>,
    // The end of each row, where the next one begins.
    ends: Vec<usize>,
}

impl<T> Model for Rows<T> {
    ghost use Rattle.std.specs.Prelude.{List as Sequence, length};
    ghost use Rattle.type_reach.specs.Rows.{rows_from, EndInOrder};

    ghost Value = { Sequence (Sequence T) };

    ghost view = { λ rows. rows_from rows.items.items 0 rows.ends.items };

    ghost invariant = { λ rows. EndInOrder 0 rows.ends.items (length rows.items.items) };
}

// The start of a row.
fn begin(ends: &[usize], number: usize) -> usize
    requires { number ≤ length ends.now }
    ensures { result ≡ slice_index_or (0 ∷ ends.now) number 0 }
{
    if number == 0 { 0 } else { ends[number - 1] }
}

impl<T> Rows<T> {
    /// No rows. The capacity for this many ends only saves time.
    pub fn with_capacity(alloc: Global, rows: usize) -> Result<Rows<T>, NoMemory>
        ensures rows { IfOk result (λ rows. rows ≡ []) }
        ensures named { IfErr result (λ e. e ≡ Allocation) }
    {
        let ends = Vec::with_capacity(alloc, rows)?;
        Ok(Rows {
            items: Vec::new(alloc),
            ends,
        })
    }

    /// Appends a row.
    pub fn push(&mut self, row: &[T]) -> Result<(), NoMemory>
    where
        T: Copy,
        ensures row { OnOk result (self.new ≡ self.old ++ row.now ∷ []) }
        ensures named { IfErr result (λ e. e ≡ Allocation) }
    {
        let before = self.items.len();
        self.items.extend_from_slice(row)?;
        match self.ends.push(self.items.len()) {
            Ok(()) => Ok(()),
            Err(_) => {
                self.items.truncate(before);
                Err(NoMemory::Allocation)
            }
        }
    }

    /// The row with this number.
    pub fn row(&self, number: usize) -> &[T]
        requires { number < length self.now }
        ensures { slice_get self.now number ≡ Some result.now }
    {
        let from = begin(self.ends.as_slice(), number);
        let to = self.ends[number];
        match self.items.get(from..to) {
            Some(row) => row,
            None => unreachable!(),
        }
    }

    /// Frees unused capacity. The rows are unchanged.
    pub fn shrink_to_fit(&mut self)
        ensures { self.new ≡ self.old }
    {
        self.items.shrink_to_fit();
        self.ends.shrink_to_fit();
    }
}
