// The bind lines.
ghost use Rattle.std.specs.Prelude.{◌≡◌, ◌==◌, ◌↔◌, IsTrue};
ghost use Rattle.abi_types.specs.Plain.{plain_export};
ghost use Rattle.cert_text.specs.Certs.{Ascend, first_cmp};
ghost use Rattle.cert_check.specs.Accepted.{Settles, HasBinding, binding_places};
ghost use Rattle.cert_check.specs.Accepted as accepted;
ghost use Rattle.cert_check.specs.Bindings.{IsOwned, FindsUnbound, FindsUnowned};
ghost use Rattle.cert_check.specs.Bindings as bindings;
ghost use Rattle.cert_check.specs.CertifiedPair.{case_of};

use crate::certified_pair::{CertifiedPair, is_compared};
use crate::library_exports::{bound_to, export_at, export_count};
use crate::refused::{Refused, RefusedKind};
use abi_types::Export;
use cert_text::binds_of;

/// The second symbol on the bind line that begins with a symbol, by binary search; `None` if no line does.
pub fn line_of(lines: &[(u32, u32)], symbol: u32) -> Option<u32>
    requires { Ascend first_cmp lines.now }
    ensures { result ≡ accepted.line_of lines.now symbol }
{
    match lines.binary_search_by_key(&symbol, |line| line.0) {
        Ok(k) => Some(lines[k].1),
        Err(_) => None,
    }
}

fn same_symbol(one: u32, other: u32) -> bool
    ensures { result ≡ (one == other) }
{
    one == other
}

// Whether an old export binds, and its line names the symbol to which it binds.
fn has_binding(ground: &CertifiedPair, export: &Export) -> bool
    ensures { IsTrue result ↔ HasBinding (case_of ground.now) export.now.symbol (plain_export export.now) }
{
    let said = match line_of(binds_of(ground.cert), export.symbol) {
        None => return false,
        Some(said) => said,
    };
    match bound_to(export, ground.new) {
        None => false,
        Some(partner) => same_symbol(said, partner.symbol),
    }
}

// The least symbol of a compared old export that lacks its line.
fn first_unbound(ground: &CertifiedPair) -> Option<u32>
    ensures { FindsUnbound (case_of ground.now) result }
{
    ground.old.known();
    for k in 0..export_count(ground.old) {
        let export = export_at(ground.old, k);
        if is_compared(ground, k) && !has_binding(ground, export) {
            return Some(export.symbol);
        }
    }
    None
}

// Whether a number is the symbol of a compared old export, by binary search.
fn is_owned(ground: &CertifiedPair, symbol: u32) -> bool
    ensures { IsTrue result ↔ IsOwned (case_of ground.now) symbol }
{
    ground.old.known();
    match ground
        .old
        .exports()
        .binary_search_by_key(&symbol, |export| export.symbol)
    {
        Ok(k) => is_compared(ground, k),
        Err(_) => false,
    }
}

// The least number of a bind line that belongs to no compared export.
fn first_unowned(ground: &CertifiedPair) -> Option<u32>
    ensures { FindsUnowned (case_of ground.now) result }
{
    let lines = binds_of(ground.cert);
    for k in 0..lines.len() {
        let (symbol, _) = lines[k];
        if !is_owned(ground, symbol) {
            return Some(symbol);
        }
    }
    None
}

// The lesser of two numbers, if there are any.
fn least(one: Option<u32>, other: Option<u32>) -> Option<u32>
    ensures { result ≡ bindings.least one other }
{
    match (one, other) {
        (Some(one), Some(other)) => { if one < other { Some(one) } else { Some(other) } }
        (Some(one), None) => Some(one),
        (None, other) => other,
    }
}

/// Checks the bind lines, in order of symbols.
pub fn check_bindings(ground: &CertifiedPair) -> Result<(), Refused>
    ensures { Settles (case_of ground.now) binding_places result }
{
    let unbound = first_unbound(ground);
    let unowned = first_unowned(ground);
    match least(unbound, unowned) {
        None => Ok(()),
        Some(symbol) => Err(Refused {
            kind: RefusedKind::Bindings,
            at: u64::from(symbol),
        }),
    }
}
