// Entry formats: the content types and forms of an entry's values, in order.
ghost use Rattle.std.specs.Prelude.{◌≡◌, IfOk};
ghost use Rattle.dwarf_files.specs.Tables.{items, pair_of, format_of};

use abi_base::{List, NoMemory, uint_at, uleb};
use std::alloc::Global;

// The content type and the form of one value of an entry.
#[derive(Clone, Copy)]
pub(crate) struct Pair {
    pub(crate) content: u64,
    pub(crate) form: u64,
}

fn pair_at(bytes: &[u8], at: usize) -> Option<(Pair, usize)>
    ensures { result ≡ pair_of bytes.now at }
{
    let Some((content, after)) = uleb(bytes, at) else {
        return None;
    };
    let Some((form, after)) = uleb(bytes, after) else {
        return None;
    };
    Some((Pair { content, form }, after))
}

// This many pairs, and the offset after them.
#[tactic(auto, using(crate::proofs::ItemLemmas::pairs_more, crate::proofs::ItemLemmas::pairs_cut, crate::proofs::ItemLemmas::pairs_done))]
fn pairs_at(
    alloc: Global,
    bytes: &[u8],
    count: u64,
    at: usize,
) -> Result<Option<(List<Pair>, usize)>, NoMemory>
    ensures { IfOk result (λ r. r ≡ items (pair_of bytes.now) count at) }
{
    let mut pairs = List::new(alloc);
    let mut place = at;
    let mut left = count;
    'pairs: while left > 0 {
        match pair_at(bytes, place) {
            Some((pair, after)) => {
                pairs.push(pair)?;
                place = after;
            }
            None => return Ok(None),
        }
        left -= 1;
    }
    Ok(Some((pairs, place)))
}

// The entry format at an offset in a header, and the offset after it.
#[tactic(auto, unfolding(crate::specs::Tables::format_of))]
pub(crate) fn format_at(
    alloc: Global,
    bytes: &[u8],
    at: usize,
) -> Result<Option<(List<Pair>, usize)>, NoMemory>
    ensures { IfOk result (λ r. r ≡ format_of bytes.now at) }
{
    match uint_at(bytes, at, 1) {
        Some(count) => pairs_at(alloc, bytes, count, at + 1),
        None => Ok(None),
    }
}
