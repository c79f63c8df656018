// Whether something is lost if the middle library is skipped.
ghost use Rattle.std.specs.Prelude.{◌≡◌, ◌↔◌, ℕ, Contains, OnOk, IfErr};
ghost use Rattle.cert_compose.specs.declared.refusal.ComposeRefusal.TheVariants.{Between};
ghost use Rattle.std.specs.List.Sorted.{IsNonDecreasingBy};
ghost use Rattle.cert_compose.specs.Between.{NothingBetween};
ghost use Rattle.cert_compose.specs.Chains.{IsChain};
ghost use Rattle.cert_compose.specs.CertifiedChain.{chain_of};
ghost use Rattle.cert_compose.specs.Joins.{first_of};
ghost use Rattle.cert_compose.specs.Limits.{OnRefusal};
ghost use Rattle.cert_compose.specs.Middles.{IsMiddle};
ghost use Rattle.cert_compose.specs.Refusals.{IsRefusal};

use crate::certified_chain::CertifiedChain;
use crate::links::{first_broken, first_unbound, first_untyped, symbol_at};
use crate::refusal::ComposeRefusal;
use crate::types::least_entry;
use cert_check::laws::{lines_are_found_where_they_stand, what_is_accepted_keeps_all};
use cert_check::{Refused, RefusedKind};
use pair_rules::laws::rules_see_no_nodes;
use std::alloc::Global;

fn lost(kind: RefusedKind, at: u64) -> ComposeRefusal
    ensures { result ≡ Between (record { kind = kind; at = at }) }
{
    ComposeRefusal::Between(Refused { kind, at })
}

/// Returns Ok if nothing is lost, else the first loss. Memory runs out only where an allocation fails.
#[tactic(auto, using(crate::proofs::LimitLemmas::loss_passes, crate::proofs::LimitLemmas::allocation_passes))]
pub fn judge(
    alloc: Global,
    ground: &CertifiedChain,
    middles: &[(u64, u64)],
) -> Result<(), ComposeRefusal>
    requires chain { IsChain (chain_of ground.now) }
    requires rises { IsNonDecreasingBy first_of middles.now }
    requires exact { (m : ℕ × ℕ) → Contains middles.now m ↔ IsMiddle (chain_of ground.now) m }
    ensures nothing { OnOk result (NothingBetween (chain_of ground.now)) }
    ensures refused { IfErr result (IsRefusal (chain_of ground.now)) }
    ensures named { IfErr result (λ e. OnRefusal e (λ l. ⊥)) }
{
    what_is_accepted_keeps_all();
    lines_are_found_where_they_stand();
    rules_see_no_nodes();
    match first_unbound(ground) {
        None => {}
        Some(k) => return Err(lost(RefusedKind::BindingBetween, symbol_at(ground, k))),
    }
    match first_broken(ground) {
        None => {}
        Some(k) => return Err(lost(RefusedKind::ExportBetween, symbol_at(ground, k))),
    }
    match first_untyped(ground) {
        None => {}
        Some(k) => return Err(lost(RefusedKind::TypeBetween, symbol_at(ground, k))),
    }
    match least_entry(alloc, ground, middles)? {
        None => Ok(()),
        Some(at) => Err(lost(RefusedKind::Declaration, at)),
    }
}
