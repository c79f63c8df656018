// The certificate that two certificates compose.
ghost use Rattle.std.specs.Prelude.{◌≡◌, ◌<◌, ◌+◌, ◌^◌, ◌↔◌, ℕ, Contains, length, IfOk, OnOk, IfErr};
ghost use Rattle.abi_base.specs.declared.fault.NoMemory.TheVariants.{Allocation};
ghost use Rattle.std.specs.List.Sorted.{IsNonDecreasingBy};
ghost use Rattle.cert_text.specs.Certs.{Ascend, PairLine, first_cmp, pair_cmp};
ghost use Rattle.cert_check.specs.Accepted.{IsAccepted};
ghost use Rattle.cert_compose.specs.Between.{NothingBetween};
ghost use Rattle.cert_compose.specs.Chains.{IsChain, far_case, joint};
ghost use Rattle.cert_compose.specs.Composed.{IsComposed};
ghost use Rattle.cert_compose.specs.CertifiedChain.{chain_of};
ghost use Rattle.cert_compose.specs.Joins.{first_of, joins};
ghost use Rattle.cert_compose.specs.Limits.{CompositionPasses, OnRefusal};
ghost use Rattle.cert_compose.specs.Middles.{IsMiddle};
ghost use Rattle.cert_compose.specs.Refusals.{IsRefusal};

use crate::binds::bind_lines;
use crate::certified_chain::{CertifiedChain, Chain};
use crate::fitting::ask_joins;
use crate::joins::{Lines, join};
use crate::judge::judge;
use crate::laws::what_is_composed_is_accepted;
use crate::lines::{dedup_lines, sort_lines};
use crate::middles::middles;
use crate::refusal::ComposeRefusal;
use abi_base::{List, NoMemory};
use abi_types::Way;
use cert_check::laws::{
    lines_are_found_where_they_stand, lines_stand_in_the_order_of_their_numbers,
    what_is_accepted_keeps_all,
};
use cert_text::{Cert, alike_new_of, alike_old_of, binds_of, pairs_of};
use std::alloc::Global;

// The pair lines that the pair lines of two certificates join, in the order that a certificate requires.
fn pair_lines(
    alloc: Global,
    ones: &Lines,
    others: &Lines,
    middles: &[(u64, u64)],
) -> Result<List<(u64, u64, Way)>, NoMemory>
    requires olds { Ascend first_cmp ones.now.alike.now }
    requires news { Ascend first_cmp others.now.alike.now }
    requires seconds { Ascend pair_cmp others.now.pairs.now }
    requires middles { IsNonDecreasingBy first_of middles.now }
    ensures ascend { IfOk result (Ascend pair_cmp) }
    ensures exact { IfOk result (λ lines. (line : PairLine)
        → Contains lines line ↔ Contains (joins ones.now.alike.now others.now.alike.now others.now.pairs.now middles.now ones.now.pairs.now) line) }
    ensures named { IfErr result (λ e. e ≡ Allocation) }
{
    let mut lines = join(alloc, ones, others, middles)?.into_vec();
    sort_lines(&mut lines);
    dedup_lines(&mut lines);
    Ok(List::of(lines))
}

// Lines that fit in memory are few enough for a certificate to number them. The function does nothing.
fn lines_have_numbers(
    binds: &[(u32, u32)],
    alike_old: &[(u64, u64)],
    alike_new: &[(u64, u64)],
    pairs: &[(u64, u64, Way)],
)
    ensures { 5 + length binds.now + length alike_old.now + length alike_new.now + length pairs.now < 2 ^ 64 }
{
    let _ = binds;
    let _ = alike_old;
    let _ = alike_new;
    let _ = pairs;
}

// The certificate that two certificates compose, given the representatives of the middle library's entries.
fn composed(
    alloc: Global,
    ground: &CertifiedChain,
    middles: &[(u64, u64)],
) -> Result<Cert, NoMemory>
    requires chain { IsChain (chain_of ground.now) }
    requires rises { IsNonDecreasingBy first_of middles.now }
    requires exact { (m : ℕ × ℕ) → Contains middles.now m ↔ IsMiddle (chain_of ground.now) m }
    ensures composed { IfOk result (IsComposed (chain_of ground.now)) }
    ensures named { IfErr result (λ e. e ≡ Allocation) }
{
    what_is_accepted_keeps_all();
    lines_are_found_where_they_stand();
    lines_stand_in_the_order_of_their_numbers();
    let one = ground.one;
    let other = ground.other;
    one.known();
    other.known();
    let old_digest = one.old_digest;
    let new_digest = other.new_digest;
    let rules_digest = one.rules_digest;
    let binds = bind_lines(alloc, binds_of(one), binds_of(other))?;
    let alike_old = List::copy_of(alloc, alike_old_of(one))?;
    let alike_new = List::copy_of(alloc, alike_new_of(other))?;
    let ones = Lines {
        alike: alike_old_of(one),
        pairs: pairs_of(one),
    };
    let others = Lines {
        alike: alike_new_of(other),
        pairs: pairs_of(other),
    };
    let pairs = pair_lines(alloc, &ones, &others, middles)?;
    lines_have_numbers(
        binds.as_slice(),
        alike_old.as_slice(),
        alike_new.as_slice(),
        pairs.as_slice(),
    );
    Ok(Cert {
        old_digest,
        new_digest,
        rules_digest,
        binds,
        alike_old,
        alike_new,
        pairs,
    })
}

/// Composes the certificate that the last library of a chain may replace the first, from the certificates `one`, that the middle
/// library may replace the first, and `other`, that the last may replace the middle one. The checker accepts it, without
/// suppressions. If something is lost between the first and the last library, the refusal names the first loss. A limit is named only if the
/// certificates pass it.
#[tactic(auto, using(crate::proofs::LimitLemmas::allocation_passes))]
pub fn compose(
    alloc: Global,
    chain: &Chain,
    one: &Cert,
    other: &Cert,
) -> Result<Cert, ComposeRefusal>
    requires same { chain.now.middle_old.now ≡ chain.now.middle_new.now }
    requires chain { IsChain (joint chain.now.first.now chain.now.middle_new.now chain.now.last.now one.now other.now) }
    ensures composed { IfOk result (IsComposed
        (joint chain.now.first.now chain.now.middle_new.now chain.now.last.now one.now other.now)) }
    ensures nothing { OnOk result (NothingBetween
        (joint chain.now.first.now chain.now.middle_new.now chain.now.last.now one.now other.now)) }
    ensures accepted { IfOk result (λ cert. IsAccepted
        (far_case (joint chain.now.first.now chain.now.middle_new.now chain.now.last.now one.now other.now)
        cert)) }
    ensures refused { IfErr result (IsRefusal
        (joint chain.now.first.now chain.now.middle_new.now chain.now.last.now one.now other.now)) }
    ensures past { IfErr result (λ e. OnRefusal e
        (CompositionPasses (joint chain.now.first.now chain.now.middle_new.now chain.now.last.now one.now
        other.now))) }
{
    what_is_composed_is_accepted();
    let ground = CertifiedChain {
        first: chain.first,
        middle: chain.middle_new,
        last: chain.last,
        one,
        other,
    };
    let middles = middles(
        alloc,
        chain.middle_old.graph(),
        alike_new_of(one),
        alike_old_of(other),
    )?;
    ask_joins(&ground, &middles)?;
    match judge(alloc, &ground, &middles) {
        Ok(()) => {}
        Err(refusal) => return Err(refusal),
    }
    Ok(composed(alloc, &ground, &middles)?)
}
