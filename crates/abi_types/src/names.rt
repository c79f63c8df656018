// The exports of a library, ordered by name.
ghost use Rattle.std.specs.Prelude.{◌≡◌, ◌≤◌, ◌-◌, false, true, length, take, drop, IfErr, IfOk};
ghost use Rattle.abi_base.specs.declared.fault.NoMemory.TheVariants.{Allocation};
ghost use Rattle.std.specs.List.Sorted.{IsPartitionPoint};
ghost use Rattle.std.specs.Ordering.{is_lt, is_le};
ghost use Rattle.abi_types.specs.Plain.{plain_exports};
ghost use Rattle.abi_types.specs.Names.{named_cmp, place_cmp, IsNameOrder, AreNamed};
ghost use Rattle.abi_types.specs.Names as spec;

use crate::export::Export;
use crate::numbers::numbers_below;
use abi_base::NoMemory;
use std::alloc::Global;
use std::cmp::Ordering;

/// The name of the export at a position, empty past the last export.
pub fn name_at<'a>(exports: &[Export<'a>], k: usize) -> &'a [u8]
    ensures { result.now ≡ spec.name_at (plain_exports exports.now) k }
{
    if k < exports.len() {
        exports[k].name
    } else {
        &[]
    }
}

/// The order of the name of the export at a position relative to `name`.
pub fn name_order(exports: &[Export], k: usize, name: &[u8]) -> Ordering
    ensures { result ≡ named_cmp (plain_exports exports.now) name.now k }
{
    name_at(exports, k).cmp(name)
}

// Whether the name of the export at a position precedes `name`.
fn stands_before(exports: &[Export], k: usize, name: &[u8]) -> bool
    ensures { result ≡ is_lt (named_cmp (plain_exports exports.now) name.now k) }
{
    name_order(exports, k, name).is_lt()
}

// Whether the name of the export at a position precedes `name` or equals it.
fn stands_upto(exports: &[Export], k: usize, name: &[u8]) -> bool
    ensures { result ≡ is_le (named_cmp (plain_exports exports.now) name.now k) }
{
    name_order(exports, k, name).is_le()
}

// The order of two positions: by name, then by position.
fn place_order(exports: &[Export], a: usize, b: usize) -> Ordering
    ensures { result ≡ place_cmp (plain_exports exports.now) a b }
{
    name_order(exports, a, name_at(exports, b)).then(a.cmp(&b))
}

/// The positions of all exports, ordered by name.
pub fn name_order_of(alloc: Global, exports: &[Export]) -> Result<Vec<usize>, NoMemory>
    ensures order { IfOk result (λ places. IsNameOrder places.items (plain_exports exports.now)) }
    ensures named { IfErr result (λ e. e ≡ Allocation) }
{
    let mut places = numbers_below(alloc, exports.len())?;
    places.sort_unstable_by(|a, b| place_order(exports, *a, *b));
    Ok(places)
}

// How many positions have names before this one.
fn count_before(exports: &[Export], places: &[usize], name: &[u8]) -> usize
    requires { IsNameOrder places.now (plain_exports exports.now) }
    ensures inside { result ≤ length places.now }
    ensures parts { IsPartitionPoint (λ k. is_lt (named_cmp (plain_exports exports.now) name.now k) ≡ true)
        (λ k. is_lt (named_cmp (plain_exports exports.now) name.now k) ≡ false) places.now result }
{
    places.partition_point(|k| stands_before(exports, *k, name))
}

// How many positions have this name or names before it.
fn count_upto(exports: &[Export], places: &[usize], name: &[u8]) -> usize
    requires { IsNameOrder places.now (plain_exports exports.now) }
    ensures inside { result ≤ length places.now }
    ensures parts { IsPartitionPoint (λ k. is_le (named_cmp (plain_exports exports.now) name.now k) ≡ true)
        (λ k. is_le (named_cmp (plain_exports exports.now) name.now k) ≡ false) places.now result }
{
    places.partition_point(|k| stands_upto(exports, *k, name))
}

/// The positions from `start` up to `end`.
pub fn between(places: &[usize], start: usize, end: usize) -> &[usize]
    requires rises { start ≤ end }
    requires inside { end ≤ length places.now }
    ensures { result.now ≡ take (end - start) (drop start places.now) }
{
    &places[start..end]
}

/// The positions of the exports with this name in ascending order, found by two binary searches.
pub fn named_in<'a>(exports: &[Export], places: &'a [usize], name: &[u8]) -> &'a [usize]
    requires { IsNameOrder places.now (plain_exports exports.now) }
    ensures { AreNamed (plain_exports exports.now) name.now result.now }
{
    let start = count_before(exports, places, name);
    let end = count_upto(exports, places, name);
    between(places, start, end)
}
