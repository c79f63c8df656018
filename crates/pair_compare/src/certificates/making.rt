// The certificate of two libraries.
ghost use Rattle.std.specs.Prelude.{◌≡◌, ◌<◌, ◌+◌, ◌^◌, length, map, IfOk, IfErr};
ghost use Rattle.abi_base.specs.declared.fault.NoMemory.TheVariants.{Allocation};
ghost use Rattle.std.specs.List.{sum_by};
ghost use Rattle.pair_explorer.specs.Limits.{weight_at};
ghost use Rattle.pair_explorer.specs.Visits.{seen};
ghost use Rattle.cert_text.specs.Certs.{IsDigest};
ghost use Rattle.cert_check.specs.Accepted.{asked, IsAccepted};
ghost use Rattle.cert_check.specs.Compatible.{task_of};
ghost use Rattle.cert_check.specs.Fitting.{lines_weight};
ghost use Rattle.pair_compare.specs.BoundPair.{sides_of};
ghost use Rattle.pair_compare.specs.certificates.Certificates.{IsCertificateOf};
ghost use Rattle.pair_compare.specs.certificates.Searches.{AreBound, IsUnbroken};

use crate::bound_pair::BoundPair;
use crate::certificates::alike::alike_lines;
use crate::certificates::binds::bind_lines;
use crate::certificates::laws::the_certificate_of_the_compatible_is_accepted;
use crate::certificates::pairs::{pair_lines, visits_are_pair_lines};
use abi_base::NoMemory;
use abi_types::{NewIx, OldIx, Way};
use cert_check::digest_beside;
use cert_check::laws::lines_stand_in_the_order_of_their_numbers;
use cert_text::Cert;
use pair_explorer::Visits;
use pair_explorer::laws::no_break_is_compatible;
use std::alloc::Global;
use type_classes::Classes;

// Returns its argument. The contract adds that a SHA-256 is a digest of a certificate.
fn is_digest(digest: [u8; 32]) -> [u8; 32]
    ensures value { result ≡ digest }
    ensures is { IsDigest digest }
{
    digest
}

// Lines that fit in memory are few enough for a certificate to number them. The function does nothing.
fn lines_have_numbers(
    binds: &[(u32, u32)],
    alike_old: &[(u64, u64)],
    alike_new: &[(u64, u64)],
    pairs: &[(u64, u64, Way)],
)
    ensures { 5 + length binds.now + length alike_old.now + length alike_new.now + length pairs.now < 2 ^ 64 }
{
    let _ = binds;
    let _ = alike_old;
    let _ = alike_new;
    let _ = pairs;
}

/// The certificate of two libraries, from a search that found no break. The checker accepts it.
pub fn make_cert<'x, 'c, 'o, 'n>(
    alloc: Global,
    pair: &'x BoundPair<'x, 'o, 'n>,
    old_classes: &'x Classes<'c, 'o, OldIx>,
    new_classes: &'x Classes<'c, 'n, NewIx>,
    visits: &'x Visits,
) -> Result<Cert, NoMemory>
    requires exports { AreBound (sides_of pair.now) }
    requires types { IsUnbroken (sides_of pair.now) old_classes.now new_classes.now visits.now }
    ensures certificate { IfOk result (IsCertificateOf (sides_of pair.now)) }
    ensures accepted { IfOk result (λ cert. IsAccepted
        (asked pair.now.old.now pair.now.new.now pair.now.marks.now cert)) }
    ensures count { IfOk result (λ cert. lines_weight (sides_of pair.now) cert.pairs
        ≡ sum_by (weight_at (task_of (sides_of pair.now))) (map seen visits.now)) }
    ensures named { IfErr result (λ e. e ≡ Allocation) }
{
    the_certificate_of_the_compatible_is_accepted();
    visits_are_pair_lines();
    lines_stand_in_the_order_of_their_numbers();
    no_break_is_compatible();
    pair.old.known();
    pair.new.known();
    let old_graph = pair.old.graph();
    let new_graph = pair.new.graph();
    old_graph.known();
    new_graph.known();
    old_classes.known();
    new_classes.known();
    let old_digest = is_digest(pair.old.digest());
    let new_digest = is_digest(digest_beside(pair.old, old_digest, pair.new));
    let rules_digest = is_digest(pair.marks.digest);
    let binds = bind_lines(alloc, pair.old, pair.new, pair.marks)?;
    let alike_old = alike_lines(alloc, old_graph, old_classes)?;
    let alike_new = alike_lines(alloc, new_graph, new_classes)?;
    let pairs = pair_lines(alloc, old_graph, new_graph, visits)?;
    lines_have_numbers(
        binds.as_slice(),
        alike_old.as_slice(),
        alike_new.as_slice(),
        pairs.as_slice(),
    );
    Ok(Cert {
        old_digest,
        new_digest,
        rules_digest,
        binds,
        alike_old,
        alike_new,
        pairs,
    })
}
