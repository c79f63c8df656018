// Searches for an entry in an ordered list. Hints only save time: the result does not depend on them, so no clause mentions them.
ghost use Rattle.std.specs.Prelude.{◌≡◌, ◌<◌, length, nat_eq, position, Some, IfSome};
ghost use Rattle.std.specs.List.Sorted.{IsStrictlyIncreasing};

use dwarf_tree::EntryNumber;

// How many entries of the tree share a hint. The number affects only the time of a search.
pub(crate) const BETWEEN_HINTS: usize = 16;

// The hint for an entry: its position, or up to that many before. It promises nothing, and only saves time.
#[inline]
pub(crate) fn hint_for(hints: &[u32], e: EntryNumber) -> usize {
    match hints.get(e.index() / BETWEEN_HINTS) {
        Some(hint) => *hint as usize,
        None => 0,
    }
}

// The position of an entry, by binary search.
fn searched(entries: &[EntryNumber], e: EntryNumber) -> Option<usize>
    requires { IsStrictlyIncreasing entries.now }
    ensures { result ≡ position (nat_eq e) entries.now }
{
    match entries.binary_search(&e) {
        Ok(place) => Some(place),
        Err(_) => None,
    }
}

// The position of an entry, if it is a little after the hint. None means nothing.
fn hinted(entries: &[EntryNumber], e: EntryNumber, hint: usize) -> Option<usize>
    requires { IsStrictlyIncreasing entries.now }
    ensures { IfSome result (λ place. position (nat_eq e) entries.now ≡ Some place) }
{
    let mut place = hint;
    'near: for passed in 0..BETWEEN_HINTS {
        let Some(entry) = entries.get(place) else {
            return None;
        };
        if *entry == e {
            return Some(place);
        }
        place += 1;
    }
    None
}

// The position of an entry.
pub(crate) fn place_near(entries: &[EntryNumber], e: EntryNumber, hint: usize) -> Option<usize>
    requires { IsStrictlyIncreasing entries.now }
    ensures place { result ≡ position (nat_eq e) entries.now }
    ensures inside { IfSome result (λ place. place < length entries.now) }
{
    match hinted(entries, e, hint) {
        Some(place) => Some(place),
        None => searched(entries, e),
    }
}
