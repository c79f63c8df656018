// The rows of a report while they are made, within a limit on their bytes. A path is as long as the chain of types along which it
// goes, and each row holds the names of its export and of its parts, so the rows of a small file can have very many bytes in all.
ghost use Rattle.std.specs.Prelude.{◌≡◌, ◌≤◌, ◌+◌, ◌-◌, ◌^◌, ◌++◌, ◌∷◌, [], length, min, take, IfErr, OnOk};
ghost use Rattle.abi_base.specs.Outcome.{OnLimit};
ghost use Rattle.pair_compare.specs.BoundPair.{sides_of};
ghost use Rattle.pair_compare.specs.Limits.{IsRoom, row_size};
ghost use Rattle.pair_compare.specs.reports.Rooms.{IsTaken, RowsPass};

use crate::bound_pair::BoundPair;
use abi_base::{Budget, Limit, List, NoMemory};
use report::Row;
use std::alloc::Global;

// What a row takes besides its texts, in bytes.
const ROW: usize = 128;

/// The bytes that a row with texts of this many bytes takes.
pub(crate) fn bytes_with(letters: usize) -> usize
    ensures { result ≡ min (letters + 128) (2 ^ 64 - 1) }
{
    letters.saturating_add(ROW)
}

/// The budget for the bytes of the rows of two libraries, by the sizes of their files.
pub(crate) fn room_for(pair: &BoundPair) -> Budget
    ensures { IsRoom (sides_of pair.now) result }
{
    let bytes = pair.old.file().len().saturating_add(pair.new.file().len());
    Budget::of_many(Limit::Report, bytes)
}

// The bytes that a row takes.
fn size_of(row: &Row) -> usize
    ensures { result ≡ row_size row.now }
{
    let named = row
        .export
        .as_slice()
        .len()
        .saturating_add(row.path.as_slice().len());
    let detailed = row
        .detail
        .as_slice()
        .len()
        .saturating_add(row.part.as_slice().len());
    let values = row.was.text().len().saturating_add(row.is.text().len());
    bytes_with(named.saturating_add(detailed).saturating_add(values))
}

/// Takes the bytes of the rows from a position on.
pub(crate) fn take_rows(room: &mut Budget, rows: &[Row], first: usize) -> Result<(), NoMemory>
    requires inside { first ≤ length rows.now }
    requires counted { IsTaken room.old.most row_size (take first rows.now) room.old }
    ensures counted { OnOk result (IsTaken room.old.most row_size rows.now room.new) }
    ensures past { IfErr result (λ e. OnLimit e (RowsPass room.old.most rows.now)) }
{
    for k in first..rows.len() {
        room.take(size_of(&rows[k]))?;
    }
    Ok(())
}

/// The rows of a report so far, and the budget of their bytes.
#[derive(Drop)]
pub(crate) struct Rows {
    pub(crate) list: List<Row>,
    pub(crate) room: Budget,
}

impl Rows {
    /// No rows yet, on two libraries.
    pub(crate) fn new(alloc: Global, pair: &BoundPair) -> Rows
        ensures list { result.list ≡ [] }
        ensures room { IsRoom (sides_of pair.now) result.room }
    {
        Rows {
            list: List::new(alloc),
            room: room_for(pair),
        }
    }

    /// Appends a row.
    pub(crate) fn push(&mut self, row: Row) -> Result<(), NoMemory>
        requires { IsTaken self.old.room.most row_size self.old.list self.old.room }
        ensures list { OnOk result (self.new.list ≡ self.old.list ++ row ∷ []) }
        ensures counted { OnOk result (IsTaken self.old.room.most row_size self.new.list self.new.room) }
        ensures past { IfErr result (λ e. OnLimit e (RowsPass self.old.room.most (self.old.list ++ row ∷ []))) }
    {
        self.room.take(size_of(&row))?;
        self.list.push(row)?;
        Ok(())
    }
}
