// Which parts are alike: those of the same sort and, where the sort has names, of the same name.
ghost use Rattle.std.specs.Prelude.{◌≡◌, map, count_by};
ghost use Rattle.abi_types.specs.Parts.{plain_part, like};
ghost use Rattle.abi_types.specs.Parts as parts_spec;
ghost use Rattle.abi_types.specs.Sorts as sorts;

use crate::index::Index;
use crate::part::Part;
use crate::sort::Sort;

/// The sort of a part.
pub fn sort_of<Ix: Index>(part: &Part<Ix>) -> Sort
    ensures { result ≡ sorts.sort_of (plain_part Ix.number_of part.now) }
{
    match part {
        Part::Member { .. } => Sort::Member,
        Part::Enumerator { .. } => Sort::Enumerator,
        Part::Target { .. } => Sort::Target,
        Part::Element { .. } => Sort::Element,
        Part::Outcome { .. } => Sort::Outcome,
        Part::Param { .. } => Sort::Param,
    }
}

/// The name of a part, empty where its sort has none.
pub fn name_of<'a, Ix: Index>(part: &Part<'a, Ix>) -> &'a [u8]
    ensures { result.now ≡ sorts.name_of (plain_part Ix.number_of part.now) }
{
    match part {
        Part::Member { name, .. } => *name,
        Part::Enumerator { name, .. } => *name,
        _ => &[],
    }
}

/// Whether two parts have the same sort and, where that sort has names, the same name.
pub fn are_like<Ix: Index, Jx: Index>(one: &Part<Ix>, other: &Part<Jx>) -> bool
    ensures { result ≡ like (plain_part Ix.number_of one.now) (plain_part Jx.number_of other.now) }
{
    match (one, other) {
        (Part::Member { name, .. }, Part::Member { name: other, .. }) => *name == *other,
        (Part::Enumerator { name, .. }, Part::Enumerator { name: other, .. }) => *name == *other,
        (Part::Target { .. }, Part::Target { .. }) => true,
        (Part::Element { .. }, Part::Element { .. }) => true,
        (Part::Outcome { .. }, Part::Outcome { .. }) => true,
        (Part::Param { .. }, Part::Param { .. }) => true,
        _ => false,
    }
}

/// How many of the parts are like `part`.
pub fn count_like<Ix: Index, Jx: Index>(items: &[Part<Ix>], part: &Part<Jx>) -> usize
    ensures { result ≡ count_by (like (plain_part Jx.number_of part.now)) (map (plain_part Ix.number_of) items.now) }
{
    let mut count = 0;
    for i in 0..items.len() {
        if are_like(part, &items[i]) {
            count += 1;
        }
    }
    count
}

/// The position of the k-th part like `part`, counted from 0.
pub fn place_of<Ix: Index, Jx: Index>(
    items: &[Part<Ix>],
    part: &Part<Jx>,
    k: usize,
) -> Option<usize>
    ensures { result ≡ parts_spec.place_of (like (plain_part Jx.number_of part.now)) k
        (map (plain_part Ix.number_of) items.now) }
{
    let mut left = k;
    for i in 0..items.len() {
        if are_like(part, &items[i]) {
            if left == 0 {
                return Some(i);
            }
            left -= 1;
        }
    }
    None
}
