// Where the comparison of the types of two libraries begins.
ghost use Rattle.std.specs.Prelude.{◌≡◌, ◌<◌, length, false, Some, None, IfOk, MatchOption, slice_index_or, IfErr};
ghost use Rattle.abi_base.specs.declared.fault.NoMemory.TheVariants.{Allocation};
ghost use Rattle.abi_types.specs.Plain.{plain_export};
ghost use Rattle.cert_check.specs.Compatible.{root_to, typed_root, typed_roots};
ghost use Rattle.pair_compare.specs.BoundPair.{IsBinding, partner, sides_of};

use crate::bound_pair::BoundPair;
use abi_base::NoMemory;
use abi_types::Export;
use cert_check::library_exports::{export_at, find_at, is_typed};
use pair_explorer::Root;
use std::alloc::Global;

// Whether a suppression drops the old export at a position.
fn is_dropped(ground: &BoundPair, k: usize) -> bool
    ensures { result ≡ slice_index_or ground.now.marks.now.exports k false }
{
    match ground.marks.exports.as_slice().get(k) {
        Some(dropped) => *dropped,
        None => false,
    }
}

// The position of the new export that the old one at a position binds to.
fn place_at(ground: &BoundPair, k: usize) -> Option<usize>
    ensures { result ≡ slice_index_or ground.now.bound.now k None }
{
    match ground.bound.get(k) {
        Some(place) => *place,
        None => None,
    }
}

// The new export that the old one at a position binds to.
fn partner_at<'x, 'n>(ground: &BoundPair<'x, '_, 'n>, k: usize) -> Option<&'x Export<'n>>
    ensures { MatchOption result (partner ground.now k ≡ None) (λ export. partner ground.now k
        ≡ Some (plain_export export.now)) }
{
    match place_at(ground, k) {
        None => None,
        Some(place) => find_at(ground.new, place),
    }
}

// The types of two exports, if both have one.
fn root_between(ground: &BoundPair, export: u32, old: &Export, new: &Export) -> Option<Root>
    ensures { result ≡ root_to (sides_of ground.now) export (plain_export old.now) (Some (plain_export new.now)) }
{
    if !is_typed(old) {
        return None;
    }
    if !is_typed(new) {
        return None;
    }
    match (
        ground.old.graph().find(old.entry),
        ground.new.graph().find(new.entry),
    ) {
        (Some(old), Some(new)) => Some(Root { export, old, new }),
        _ => None,
    }
}

// The types of the old export at a position and of the new one to which it binds, if it is compared and both have a type.
#[tactic(auto, unfolding(cert_check::specs::Compatible::typed_root))]
fn root_at(ground: &BoundPair, k: usize) -> Option<Root>
    requires inside { k < length ground.now.old.now.exports }
    requires bound { IsBinding ground.now }
    ensures { result ≡ typed_root (sides_of ground.now) k }
{
    if is_dropped(ground, k) {
        return None;
    }
    let old = export_at(ground.old, k);
    ground.old.known();
    match partner_at(ground, k) {
        None => None,
        Some(new) => root_between(ground, k as u32, old, new),
    }
}

/// The types of each compared old export and of the new one to which it binds, where both have a type, in order of the old exports.
pub fn roots(alloc: Global, pair: &BoundPair) -> Result<Vec<Root>, NoMemory>
    requires { IsBinding pair.now }
    ensures roots { IfOk result (λ roots. roots.items ≡ typed_roots (sides_of pair.now)) }
    ensures named { IfErr result (λ e. e ≡ Allocation) }
{
    let count = pair.old.exports().len();
    let mut roots = Vec::new(alloc);
    'exports: for k in 0..count {
        if let Some(root) = root_at(pair, k) {
            roots.push(root)?;
        }
    }
    Ok(roots)
}
