// What the exports of the first library bind to, through the middle library and directly in the last.
ghost use Rattle.std.specs.Prelude.{◌≡◌, ◌<◌, ◌↔◌, ◌||◌, not, IsTrue, length, MatchOption, slice_get};
ghost use Rattle.abi_types.specs.Plain.{plain_export};
ghost use Rattle.cert_check.specs.Accepted.{symbol_of};
ghost use Rattle.cert_check.specs.Compatible as spec;
ghost use Rattle.cert_check.specs.Finds.{FindsFirst};
ghost use Rattle.cert_compose.specs.Between.{BindsThrough, IsLink, KeepsBinding, KeepsRules, KeepsTyped};
ghost use Rattle.cert_compose.specs.CertifiedChain.{chain_of};

use crate::certified_chain::CertifiedChain;
use abi_types::Export;
use cert_check::library_exports::{
    bound_to, export_at, export_count, find_at, is_typed, keeps_export,
};
use elf_bind::bind_in;

/// The symbol number of the first library's export at a position.
pub fn symbol_at(ground: &CertifiedChain, k: usize) -> u64
    requires { k < length ground.now.first.now.exports }
    ensures { result ≡ symbol_of (slice_get ground.now.first.now.exports k) }
{
    u64::from(export_at(ground.first, k).symbol)
}

/// The exports to which an export binds in the middle library and in the last one.
#[derive(Clone, Copy)]
struct Link<'x, 'b, 'c> {
    between: &'x Export<'b>,
    partner: &'x Export<'c>,
}

// The link of an export, if it binds in the last library to the same export as through the middle one.
fn link_of<'x, 'b, 'c>(
    ground: &CertifiedChain<'x, '_, 'b, 'c>,
    export: &Export,
) -> Option<Link<'x, 'b, 'c>>
    ensures { MatchOption result (BindsThrough (chain_of ground.now) (plain_export export.now)
        → ⊥) (λ link. IsLink (chain_of ground.now) (plain_export export.now) (plain_export link.between.now) (plain_export link.partner.now)) }
{
    let between = match bound_to(export, ground.middle) {
        None => return None,
        Some(between) => between,
    };
    let straight = match bind_in(export, ground.last) {
        None => return None,
        Some(straight) => straight,
    };
    let place = match bind_in(between, ground.last) {
        None => return None,
        Some(place) => place,
    };
    if straight != place {
        return None;
    }
    match find_at(ground.last, place) {
        None => None,
        Some(partner) => Some(Link { between, partner }),
    }
}

// Whether the export at a position binds in the last library to the same export as through the middle one.
fn keeps_binding(ground: &CertifiedChain, k: usize) -> bool
    requires { k < length ground.now.first.now.exports }
    ensures { IsTrue result ↔ KeepsBinding (chain_of ground.now) k }
{
    let export = export_at(ground.first, k);
    match link_of(ground, export) {
        None => false,
        Some(_) => true,
    }
}

// Whether the export at a position keeps the rules against the one to which it binds in the last library.
fn keeps_rules(ground: &CertifiedChain, k: usize) -> bool
    requires { k < length ground.now.first.now.exports }
    ensures { IsTrue result ↔ KeepsRules (chain_of ground.now) k }
{
    let export = export_at(ground.first, k);
    match link_of(ground, export) {
        None => true,
        Some(link) => keeps_export(export, link.partner),
    }
}

// Whether the export between two has a type, if those two have types.
fn keeps_type(export: &Export, between: &Export, partner: &Export) -> bool
    ensures { result ≡ (not (spec.is_typed (plain_export export.now))
        || not (spec.is_typed (plain_export partner.now)) || spec.is_typed (plain_export between.now)) }
{
    !is_typed(export) || !is_typed(partner) || is_typed(between)
}

// Whether the export between the one at a position and its partner has a type, if those two have types.
fn keeps_typed(ground: &CertifiedChain, k: usize) -> bool
    requires { k < length ground.now.first.now.exports }
    ensures { IsTrue result ↔ KeepsTyped (chain_of ground.now) k }
{
    let export = export_at(ground.first, k);
    match link_of(ground, export) {
        None => true,
        Some(link) => keeps_type(export, link.between, link.partner),
    }
}

/// The first position of an export that binds to nothing, or to a different export than through the middle library.
pub fn first_unbound(ground: &CertifiedChain) -> Option<usize>
    ensures { FindsFirst (KeepsBinding (chain_of ground.now)) (length ground.now.first.now.exports) result }
{
    for k in 0..export_count(ground.first) {
        if !keeps_binding(ground, k) {
            return Some(k);
        }
    }
    None
}

/// The first position of an export that breaks a rule against the one to which it binds in the last library.
pub fn first_broken(ground: &CertifiedChain) -> Option<usize>
    ensures { FindsFirst (KeepsRules (chain_of ground.now)) (length ground.now.first.now.exports) result }
{
    for k in 0..export_count(ground.first) {
        if !keeps_rules(ground, k) {
            return Some(k);
        }
    }
    None
}

/// The first position of an export with a type that binds to one with a type through one without.
pub fn first_untyped(ground: &CertifiedChain) -> Option<usize>
    ensures { FindsFirst (KeepsTyped (chain_of ground.now)) (length ground.now.first.now.exports) result }
{
    for k in 0..export_count(ground.first) {
        if !keeps_typed(ground, k) {
            return Some(k);
        }
    }
    None
}
