// The exports of a library, ordered by name and version.
ghost use Rattle.std.specs.Prelude.{◌≡◌, ◌≤◌, false, true, length, IfErr, IfOk};
ghost use Rattle.abi_base.specs.declared.fault.NoMemory.TheVariants.{Allocation};
ghost use Rattle.std.specs.List.Sorted.{IsPartitionPoint};
ghost use Rattle.std.specs.Option.{option_copied};
ghost use Rattle.std.specs.Ordering.{is_lt, is_le};
ghost use Rattle.abi_types.specs.Plain.{plain_exports};
ghost use Rattle.abi_types.specs.Versions.{version_cmp, versioned_cmp, versioned_place_cmp, IsVersionOrder, AreVersioned};
ghost use Rattle.abi_types.specs.Versions as spec;

use crate::export::Export;
use crate::names::{between, name_at, name_order};
use crate::numbers::numbers_below;
use abi_base::NoMemory;
use std::alloc::Global;
use std::cmp::Ordering;

// The version of the export at a position, none past the last export.
fn version_at<'a>(exports: &[Export<'a>], k: usize) -> Option<&'a [u8]>
    ensures { option_copied result ≡ spec.version_at (plain_exports exports.now) k }
{
    if k < exports.len() {
        exports[k].version
    } else {
        None
    }
}

// The order of two versions: no version comes first.
#[tactic(auto, using(crate::proofs::VersionLemmas::copied_cmp))]
fn version_order(one: Option<&[u8]>, other: Option<&[u8]>) -> Ordering
    ensures { result ≡ version_cmp (option_copied one.entry) (option_copied other.entry) }
{
    one.cmp(&other)
}

// The order of the name and the version of the export at a position relative to `name` and `version`.
fn versioned_order(exports: &[Export], k: usize, name: &[u8], version: Option<&[u8]>) -> Ordering
    ensures { result ≡ versioned_cmp (plain_exports exports.now) name.now (option_copied version.entry) k }
{
    let by_version = version_order(version_at(exports, k), version);
    name_order(exports, k, name).then(by_version)
}

// Whether the name and the version of the export at a position precede `name` and `version`.
fn stands_before(exports: &[Export], k: usize, name: &[u8], version: Option<&[u8]>) -> bool
    ensures { result ≡ is_lt (versioned_cmp (plain_exports exports.now) name.now (option_copied version.entry) k) }
{
    versioned_order(exports, k, name, version).is_lt()
}

// Whether the name and the version of the export at a position precede `name` and `version` or equal them.
fn stands_upto(exports: &[Export], k: usize, name: &[u8], version: Option<&[u8]>) -> bool
    ensures { result ≡ is_le (versioned_cmp (plain_exports exports.now) name.now (option_copied version.entry) k) }
{
    versioned_order(exports, k, name, version).is_le()
}

// The order of two positions: by name and version, then by position.
fn place_order(exports: &[Export], a: usize, b: usize) -> Ordering
    ensures { result ≡ versioned_place_cmp (plain_exports exports.now) a b }
{
    versioned_order(exports, a, name_at(exports, b), version_at(exports, b)).then(a.cmp(&b))
}

/// The positions of all exports, ordered by name and version.
pub fn version_order_of(alloc: Global, exports: &[Export]) -> Result<Vec<usize>, NoMemory>
    ensures order { IfOk result (λ places. IsVersionOrder places.items (plain_exports exports.now)) }
    ensures named { IfErr result (λ e. e ≡ Allocation) }
{
    let mut places = numbers_below(alloc, exports.len())?;
    places.sort_unstable_by(|a, b| place_order(exports, *a, *b));
    Ok(places)
}

// How many positions have names and versions before these.
fn count_before(exports: &[Export], places: &[usize], name: &[u8], version: Option<&[u8]>) -> usize
    requires { IsVersionOrder places.now (plain_exports exports.now) }
    ensures inside { result ≤ length places.now }
    ensures parts { IsPartitionPoint (λ k. is_lt
        (versioned_cmp (plain_exports exports.now) name.now (option_copied version.entry) k) ≡ true)
        (λ k. is_lt (versioned_cmp (plain_exports exports.now) name.now (option_copied version.entry) k) ≡ false) places.now result }
{
    places.partition_point(|k| stands_before(exports, *k, name, version))
}

// How many positions have this name and this version, or names and versions before them.
fn count_upto(exports: &[Export], places: &[usize], name: &[u8], version: Option<&[u8]>) -> usize
    requires { IsVersionOrder places.now (plain_exports exports.now) }
    ensures inside { result ≤ length places.now }
    ensures parts { IsPartitionPoint (λ k. is_le
        (versioned_cmp (plain_exports exports.now) name.now (option_copied version.entry) k) ≡ true)
        (λ k. is_le (versioned_cmp (plain_exports exports.now) name.now (option_copied version.entry) k) ≡ false) places.now result }
{
    places.partition_point(|k| stands_upto(exports, *k, name, version))
}

/// The positions of the exports with this name and this version in ascending order, found by two binary searches.
pub fn versioned_in<'a>(
    exports: &[Export],
    places: &'a [usize],
    name: &[u8],
    version: Option<&[u8]>,
) -> &'a [usize]
    requires { IsVersionOrder places.now (plain_exports exports.now) }
    ensures { AreVersioned (plain_exports exports.now) name.now (option_copied version.entry) result.now }
{
    let start = count_before(exports, places, name, version);
    let end = count_upto(exports, places, name, version);
    between(places, start, end)
}
