// How many exports of an old library are compared, and how many are not.
ghost use Rattle.std.specs.Prelude.{◌≡◌, map, count_by, is_some, not, false, None, slice_index_or, IfErr, IfOk};
ghost use Rattle.std.specs.List.{range_with_len};
ghost use Rattle.abi_base.specs.declared.fault.NoMemory.TheVariants.{Allocation};
ghost use Rattle.side_notes.specs.Counts.{fate_at, fate_by, fates, is_in};
ghost use Rattle.side_notes.specs.Counts as spec;

use crate::old_exports::is_compared;
use abi_base::NoMemory;
use abi_types::Marks;
use std::alloc::Global;

/// What becomes of an old export where two libraries are compared.
#[derive(Clone, Copy, PartialEq)]
pub enum Fate {
    /// A rule drops it.
    Dropped,
    /// It is compared with the new export that it binds to.
    Compared,
    /// It binds to no new export.
    Gone,
}

/// How many old exports have each fate.
#[derive(Drop)]
pub struct Counts {
    /// How many are compared with a new one.
    pub compared: usize,
    /// How many a rule file drops.
    pub dropped: usize,
    /// How many bind to no new one.
    pub gone: usize,
}

// The fate of an export, by whether a rule drops it and whether it binds.
fn fate_of(is_dropped: bool, is_bound: bool) -> Fate
    ensures { result ≡ fate_by is_dropped is_bound }
{
    if is_dropped {
        return Fate::Dropped;
    }
    if is_bound { Fate::Compared } else { Fate::Gone }
}

// Whether the export at a position binds to a new one.
fn is_bound(bound: &[Option<usize>], k: usize) -> bool
    ensures { result ≡ is_some (slice_index_or bound.now k None) }
{
    match bound.get(k) {
        Some(place) => place.is_some(),
        None => false,
    }
}

// The fate of the export at a position.
fn fate_of_export(marks: &Marks, bound: &[Option<usize>], k: usize) -> Fate
    ensures { result ≡ fate_at marks.now.exports bound.now k }
{
    fate_of(!is_compared(marks, k), is_bound(bound, k))
}

// The fates of all exports, in their order.
#[tactic(auto, using(crate::proofs::CountLemmas::fates_more))]
fn fates_of(alloc: Global, marks: &Marks, bound: &[Option<usize>]) -> Result<Vec<Fate>, NoMemory>
    ensures ok { IfOk result (λ list. list.items ≡ fates marks.now.exports bound.now) }
    ensures named { IfErr result (λ e. e ≡ Allocation) }
{
    let mut list = Vec::new(alloc);
    for k in 0..bound.len() {
        list.push(fate_of_export(marks, bound, k))?;
    }
    Ok(list)
}

// How many exports have a fate.
fn count_of(fates: &[Fate], fate: Fate) -> usize
    ensures { result ≡ count_by (is_in fate) fates.now }
{
    fates.iter().filter(|other| **other == fate).count()
}

/// How many old exports have each fate, by what a rule file leaves out and by what each of them binds to.
pub fn counts_of(alloc: Global, marks: &Marks, bound: &[Option<usize>]) -> Result<Counts, NoMemory>
    ensures ok { IfOk result (λ counts. counts ≡ spec.counts_of marks.now.exports bound.now) }
    ensures named { IfErr result (λ e. e ≡ Allocation) }
{
    let fates = fates_of(alloc, marks, bound)?;
    Ok(Counts {
        compared: count_of(fates.as_slice(), Fate::Compared),
        dropped: count_of(fates.as_slice(), Fate::Dropped),
        gone: count_of(fates.as_slice(), Fate::Gone),
    })
}
