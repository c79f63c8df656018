// Searches in the lists of a tree.
ghost use Rattle.std.specs.Prelude.{◌≡◌, ◌≤◌, ◌==◌, true, IsSome, Some, length, position};
ghost use Rattle.dwarf_tree.specs.Keeping.{Ascend, BeginBefore, StandsBetween, UnitsRise};
ghost use Rattle.dwarf_tree.specs.Keeping as spec;

use crate::entry_records::{AbbreviationLayout, EntryRecord, unit_in};
use crate::hints::MOST_BETWEEN;

// The position of the entry at an offset, by binary search between two positions.
fn place_between(entries: &[EntryRecord], offset: u64, from: usize, to: usize) -> Option<usize>
    requires ascend { Ascend entries.now }
    requires inside { to ≤ length entries.now }
    requires between { StandsBetween entries.now offset from to }
    ensures { result ≡ position (λ stored. stored.offset == offset) entries.now }
{
    let mut low = from;
    let mut high = to;
    'halves: while low < high {
        let middle = low + (high - low) / 2;
        let begins = u64::from(entries[middle].offset);
        if begins == offset {
            return Some(middle);
        }
        if begins < offset {
            low = middle + 1;
        } else {
            high = middle;
        }
    }
    None
}

// Whether all entries before a position have smaller offsets.
fn are_before(entries: &[EntryRecord], place: usize, offset: u64) -> bool
    requires { Ascend entries.now }
    ensures { result ≡ true → BeginBefore entries.now offset place }
{
    if place == 0 {
        return true;
    }
    match entries.get(place - 1) {
        Some(stored) => u64::from(stored.offset) < offset,
        None => false,
    }
}

// The position of the entry at an offset. The entry may be at the hint or a few positions after it, as most are, so the search
// tries these one by one. A wrong hint only costs time.
pub(crate) fn place_near(entries: &[EntryRecord], offset: u64, hint: usize) -> Option<usize>
    requires { Ascend entries.now }
    ensures { result ≡ position (λ stored. stored.offset == offset) entries.now }
{
    if !are_before(entries, hint, offset) {
        return place_between(entries, offset, 0, entries.len());
    }
    let mut place = hint;
    'near: for passed in 0..MOST_BETWEEN {
        let Some(stored) = entries.get(place) else {
            return None;
        };
        let begins = u64::from(stored.offset);
        if begins == offset {
            return Some(place);
        }
        if begins > offset {
            return None;
        }
        place += 1;
    }
    place_between(entries, offset, place, entries.len())
}

// The position of the first entry of a unit that has entries, by binary search.
pub(crate) fn root_in(shapes: &[AbbreviationLayout], entries: &[EntryRecord], unit: usize) -> usize
    requires rise { UnitsRise shapes.now entries.now }
    requires there { IsSome (position (λ stored. spec.unit_in shapes.now stored == unit) entries.now) }
    ensures { position (λ stored. spec.unit_in shapes.now stored == unit) entries.now ≡ Some result }
{
    entries.partition_point(|stored| (unit_in(shapes, *stored) as usize) < unit)
}
