// The rules of exports, and the pair lines of their types.
ghost use Rattle.std.specs.Prelude.{◌≡◌, ◌<◌, ◌↔◌, IsTrue, length};
ghost use Rattle.abi_types.specs.Plain.{plain_export};
ghost use Rattle.cert_check.specs.Accepted.{Settles, Rules, Root, KeepsRules, KeepsRoot, each};
ghost use Rattle.cert_check.specs.Finds.{FindsFirst};
ghost use Rattle.cert_check.specs.CertifiedPair.{case_of};
ghost use Rattle.cert_check.specs.CertifiedPair as certified_pair_spec;

use crate::certified_pair::{CertifiedPair, is_compared, symbol_at};
use crate::library_exports::{bound_to, export_at, export_count, is_typed, keeps_export};
use crate::lookups::{is_line, rep};
use crate::refused::{Refused, RefusedKind};
use abi_types::{Export, Way};

// Whether the old export at a position keeps the rules, if it is compared and binds.
fn keeps_rules(ground: &CertifiedPair, k: usize) -> bool
    requires { k < length ground.now.old.now.exports }
    ensures { IsTrue result ↔ KeepsRules (case_of ground.now) k }
{
    if !is_compared(ground, k) {
        return true;
    }
    let export = export_at(ground.old, k);
    match bound_to(export, ground.new) {
        None => true,
        Some(partner) => keeps_export(export, partner),
    }
}

// The first position of an old export that breaks a rule.
fn first_broken(ground: &CertifiedPair) -> Option<usize>
    ensures { FindsFirst (KeepsRules (case_of ground.now)) (length ground.now.old.now.exports) result }
{
    for k in 0..export_count(ground.old) {
        if !keeps_rules(ground, k) {
            return Some(k);
        }
    }
    None
}

/// Checks the rules of exports, export by export.
pub fn check_rules(ground: &CertifiedPair) -> Result<(), Refused>
    ensures { Settles (case_of ground.now) (each Rules (length ground.now.old.now.exports)) result }
{
    match first_broken(ground) {
        None => Ok(()),
        Some(k) => Err(Refused {
            kind: RefusedKind::ExportRule,
            at: symbol_at(ground, k),
        }),
    }
}

// Whether the types of two exports have a pair line by their representatives, by value.
fn has_root_line(ground: &CertifiedPair, old: &Export, new: &Export) -> bool
    ensures { result ≡ certified_pair_spec.has_root_line (case_of ground.now) (plain_export old.now)
        (plain_export new.now) }
{
    let cert = ground.cert;
    cert.known();
    let old_rep = rep(cert.alike_old.as_slice(), old.entry);
    let new_rep = rep(cert.alike_new.as_slice(), new.entry);
    is_line(cert.pairs.as_slice(), (old_rep, new_rep, Way::Direct))
}

// Whether the types of the old export at a position and of the one to which it binds have a pair line, if both have a type.
fn keeps_root(ground: &CertifiedPair, k: usize) -> bool
    requires { k < length ground.now.old.now.exports }
    ensures { IsTrue result ↔ KeepsRoot (case_of ground.now) k }
{
    if !is_compared(ground, k) {
        return true;
    }
    let export = export_at(ground.old, k);
    let partner = match bound_to(export, ground.new) {
        None => return true,
        Some(partner) => partner,
    };
    if !is_typed(export) {
        return true;
    }
    if !is_typed(partner) {
        return true;
    }
    has_root_line(ground, export, partner)
}

// The first position of an old export whose types have no pair line.
fn first_rootless(ground: &CertifiedPair) -> Option<usize>
    ensures { FindsFirst (KeepsRoot (case_of ground.now)) (length ground.now.old.now.exports) result }
{
    for k in 0..export_count(ground.old) {
        if !keeps_root(ground, k) {
            return Some(k);
        }
    }
    None
}

/// Checks the pair lines of the types of exports, export by export.
pub fn check_roots(ground: &CertifiedPair) -> Result<(), Refused>
    ensures { Settles (case_of ground.now) (each Root (length ground.now.old.now.exports)) result }
{
    match first_rootless(ground) {
        None => Ok(()),
        Some(k) => Err(Refused {
            kind: RefusedKind::Root,
            at: symbol_at(ground, k),
        }),
    }
}
