// An index of parts by sort and name, which saves a linear search for each. A file chooses the names, so the places are sorted and
// searched by halves: in a table of hash codes a file could make names collide.
ghost use Rattle.std.specs.Prelude.{◌≡◌, ◌+◌, ◌<◌, ◌^◌, ℕ, map, if◌then◌else◌, IfErr, IfOk, OnOk, IsPermutation};
ghost use Rattle.abi_base.specs.declared.fault.NoMemory.TheVariants.{Allocation};
ghost use Rattle.abi_types.specs.Types.{PlainPart};
ghost use Rattle.abi_types.specs.Parts.{plain_part, like};
ghost use Rattle.abi_types.specs.Lookups.{count_under, number_cmp, IsNamedPlace, IsInOrder, IsFound, IsLookup};

use crate::alike::{name_of, sort_of};
use crate::index::Index;
use crate::part::Part;
use crate::sort::Sort;
use abi_base::NoMemory;
use std::alloc::Global;
use std::cmp::Ordering;
use std::collections::BTreeMap;

/// The position of a part, with its sort, its name, and how many parts before it have both.
#[derive(Clone, Copy)]
pub struct NamedPlace<'a> {
    pub sort: Sort,
    pub name: &'a [u8],
    pub number: usize,
    pub place: usize,
}

/// An index of parts by sort and name.
#[derive(Drop)]
pub struct Lookup<'a> {
    /// For each part, how many before it have the same sort and name.
    pub numbers: Vec<usize>,
    /// The positions of all parts, ordered by sort, name and number.
    pub places: Vec<NamedPlace<'a>>,
}

// Counts one more part of the sort and name, and answers how many there were before.
fn count_up<'a, Ix: Index>(
    counts: &mut BTreeMap<(Sort, &'a [u8]), usize>,
    part: &Part<'a, Ix>,
) -> Result<usize, NoMemory>
    requires { count_under counts.old (plain_part Ix.number_of part.now) + 1 < 2 ^ 64 }
    ensures number { IfOk result (λ n. n ≡ count_under counts.old (plain_part Ix.number_of part.now)) }
    ensures counts { OnOk result ((q : PlainPart)
        → count_under counts.new q ≡ count_under counts.old q
        + (if like q (plain_part Ix.number_of part.now) then 1 else 0)) }
    ensures named { IfErr result (λ e. e ≡ Allocation) }
{
    let key = (sort_of(part), name_of(part));
    let number = counts.get(&key).copied().unwrap_or(0);
    counts.insert(key, number + 1)?;
    Ok(number)
}

// The position of a part, under its sort, name and number.
fn named_place<'a, Ix: Index>(part: &Part<'a, Ix>, number: usize, place: usize) -> NamedPlace<'a>
    ensures { IsNamedPlace (plain_part Ix.number_of part.now) number place result }
{
    NamedPlace {
        sort: sort_of(part),
        name: name_of(part),
        number,
        place,
    }
}

// The order of a position relative to a sort, a name and a number.
fn order_of(at: &NamedPlace, sort: Sort, name: &[u8], number: usize) -> Ordering
    ensures { result ≡ number_cmp at.now.sort at.now.name.now at.now.number sort name.now number }
{
    at.sort
        .cmp(&sort)
        .then(at.name.cmp(name))
        .then(at.number.cmp(&number))
}

// These positions, ordered by sort, name and number.
fn in_order<'a>(mut places: Vec<NamedPlace<'a>>) -> Vec<NamedPlace<'a>>
    ensures all { IsPermutation places.entry.items result.items }
    ensures order { IsInOrder result.items }
{
    places.sort_unstable_by(|a, b| order_of(a, b.sort, b.name, b.number));
    places
}

/// The index of these parts.
pub fn lookup_of<'a, Ix: Index>(
    alloc: Global,
    items: &[Part<'a, Ix>],
) -> Result<Lookup<'a>, NoMemory>
    ensures lookup { IfOk result (λ lookup. IsLookup lookup (map (plain_part Ix.number_of) items.now)) }
    ensures named { IfErr result (λ e. e ≡ Allocation) }
{
    let mut counts = BTreeMap::new(alloc);
    let mut numbers = Vec::new(alloc);
    let mut places = Vec::new(alloc);
    for i in 0..items.len() {
        let item = &items[i];
        let number = count_up(&mut counts, item)?;
        numbers.push(number)?;
        places.push(named_place(item, number, i))?;
    }
    let places = in_order(places);
    Ok(Lookup { numbers, places })
}

/// The position of the k-th part with the sort and name of `part`, counted from 0.
pub fn place_in<Jx: Index>(lookup: &Lookup, part: &Part<Jx>, k: usize) -> Option<usize>
    requires { IsInOrder lookup.now.places.items }
    ensures { IsFound lookup.now.places.items (plain_part Jx.number_of part.now) k result }
{
    let sort = sort_of(part);
    let name = name_of(part);
    let found = lookup
        .places
        .binary_search_by(|at| order_of(at, sort, name, k));
    match found {
        Ok(i) => Some(lookup.places[i].place),
        Err(_) => None,
    }
}
