// The tables of directories and of files.
ghost use Rattle.std.specs.Prelude.{◌≡◌, IfOk};
ghost use Rattle.dwarf_files.specs.Lists.{list_of};
ghost use Rattle.dwarf_files.specs.Tables.{items, entry_of, table_of};

use crate::entries::{Entry, entry_in, item_in};
use crate::formats::{Pair, format_at};
use abi_base::{List, NoMemory, uleb};
use std::alloc::Global;

// This many entries with a format, and the offset after all of them.
#[tactic(auto, using(crate::proofs::ItemLemmas::entries_more, crate::proofs::ItemLemmas::entries_cut, crate::proofs::ItemLemmas::entries_done))]
fn entries_by_format(
    alloc: Global,
    bytes: &[u8],
    format: &[Pair],
    count: u64,
    at: usize,
) -> Result<Option<(List<Entry>, usize)>, NoMemory>
    ensures { IfOk result (λ r. r ≡ items (entry_of bytes.now format.now) count at) }
{
    let mut entries = List::new(alloc);
    let mut place = at;
    let mut left = count;
    'entries: while left > 0 {
        match entry_in(bytes, format, place) {
            Some((entry, after)) => {
                entries.push(entry)?;
                place = after;
            }
            None => return Ok(None),
        }
        left -= 1;
    }
    Ok(Some((entries, place)))
}

// The entries of a table of version 5, and the offset after the table.
#[tactic(auto, unfolding(crate::specs::Tables::table_of))]
pub(crate) fn table_in(
    alloc: Global,
    bytes: &[u8],
    at: usize,
) -> Result<Option<(List<Entry>, usize)>, NoMemory>
    ensures { IfOk result (λ r. r ≡ table_of bytes.now at) }
{
    match format_at(alloc, bytes, at)? {
        Some((format, after)) => match uleb(bytes, after) {
            Some((count, after)) => {
                entries_by_format(alloc, bytes, format.as_slice(), count, after)
            }
            None => Ok(None),
        },
        None => Ok(None),
    }
}

// The items of a list of version 4, and the offset after the list.
#[tactic(auto, using(crate::proofs::ListLemmas::list_more))]
pub(crate) fn list_in(
    alloc: Global,
    bytes: &[u8],
    files: bool,
    at: usize,
) -> Result<Option<(List<Entry>, usize)>, NoMemory>
    ensures { IfOk result (λ r. r ≡ list_of files bytes.now at) }
{
    let mut entries = List::new(alloc);
    let mut place = at;
    'items: loop {
        match item_in(bytes, files, place) {
            Ok((entry, after)) => {
                entries.push(entry)?;
                place = after;
            }
            Err(Some(after)) => return Ok(Some((entries, after))),
            Err(None) => return Ok(None),
        }
    }
}
