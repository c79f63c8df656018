// Whether a certificate proves that a new library may replace an old one, given their bytes and those of a rule file.
ghost use Rattle.std.specs.Prelude.{◌≡◌, ◌≤◌, [], ◌∷◌, None, length, OnOk, IfOk, IfErr};
ghost use Rattle.abi_base.specs.Limits.{input_limit};
ghost use Rattle.abi_base.specs.Outcome.{OnLimit};
ghost use Rattle.cert_text.specs.Grammar.{IsSpelled};
ghost use Rattle.commands.specs.Faults.{AreReadable, StopsAt, StopsOn};
ghost use Rattle.library_check.specs.Judgements.{ruled};
ghost use Rattle.library_check.specs.Limits.{SettlementPasses};
ghost use Rattle.library_check.specs.Relations.{AcceptsSuchRelation};
ghost use Rattle.library_check.specs.Rows.Verify.{verify_asks, verify_passes};
ghost use Rattle.library_check.specs.Verifications.{IsSettled, IsVerified, case_for, certificate_fault};

use crate::checking::read_inputs;
use crate::judging::marks_by;
use crate::laws::an_accepted_certificate_tells_such_a_relation;
use abi_base::NoMemory;
use abi_types::{Library, NewIx, OldIx};
use cert_check::laws::an_accepted_certificate_is_a_proof;
use cert_check::{Refused, check_cert, pairs_fit};
use cert_text::{Cert, read_cert};
use commands::{Input, Stop, stop_at};
use std::alloc::Global;
use suppression_text::Rules;

/// Reads the certificate of an input. It passes no limit: memory runs out only where an allocation fails.
pub(crate) fn read_certificate(alloc: Global, which: Input, bytes: &[u8]) -> Result<Cert, Stop>
    ensures readable { OnOk result (certificate_fault bytes.now ≡ None) }
    ensures spelled { IfOk result (λ cert. IsSpelled bytes.now cert) }
    ensures stops { IfErr result (StopsOn which (certificate_fault bytes.now) (λ l. ⊥)) }
{
    match read_cert(alloc, bytes) {
        Ok(cert) => Ok(cert),
        Err(refusal) => Err(stop_at(which, refusal)),
    }
}

/// The first condition that a certificate for two libraries and a rule file does not meet after they are read. If there is none, the
/// certificate is accepted.
#[tactic(auto, using(crate::proofs::LimitLemmas::marks_settle, crate::proofs::LimitLemmas::lines_settle))]
pub(crate) fn settle(
    alloc: Global,
    old: &Library<OldIx>,
    new: &Library<NewIx>,
    rules: &Rules,
    cert: &Cert,
) -> Result<Option<Refused>, NoMemory>
    ensures settled { IfOk result (IsSettled (case_for (ruled old.now new.now rules.now) cert.now)) }
    ensures past { IfErr result (λ e. OnLimit e (SettlementPasses old.now new.now rules.now cert.now)) }
{
    an_accepted_certificate_is_a_proof();
    old.known();
    old.graph().known();
    new.graph().known();
    let marks = marks_by(alloc, rules, old)?;
    pairs_fit(old, new, &marks, cert)?;
    match check_cert(old, new, &marks, cert) {
        Ok(()) => Ok(None),
        Err(refused) => Ok(Some(refused)),
    }
}

/// The first condition that a certificate does not meet. If there is none, it proves that a new library may replace an old one in all
/// that a rule file does not suppress, given their bytes. A fault is that of the first input that has one, in the order old, new,
/// rules, certificate.
#[tactic(auto, using(crate::proofs::StopLemmas::inputs_stop_verify, crate::proofs::StopLemmas::certificate_stops_verify, crate::proofs::StopLemmas::settlement_stops_verify))]
pub(crate) fn verify(
    alloc: Global,
    old: &[u8],
    new: &[u8],
    rules: &[u8],
    certificate: &[u8],
) -> Result<Option<Refused>, Stop>
    requires old_short { length old.now ≤ input_limit }
    requires new_short { length new.now ≤ input_limit }
    ensures readable { OnOk result (AreReadable verify_asks
        (old.now ∷ new.now ∷ rules.now ∷ certificate.now ∷ [])) }
    ensures verified { IfOk result (IsVerified old.now new.now rules.now certificate.now) }
    ensures relation { IfOk result (AcceptsSuchRelation old.now new.now rules.now certificate.now) }
    ensures stops { IfErr result (StopsAt verify_asks verify_passes
        (old.now ∷ new.now ∷ rules.now ∷ certificate.now ∷ [])) }
{
    an_accepted_certificate_tells_such_a_relation();
    let inputs = read_inputs(alloc, old, new, rules)?;
    let cert = read_certificate(alloc, Input::Certificate, certificate)?;
    let verified = settle(
        alloc,
        &inputs.pair.old,
        &inputs.pair.new,
        &inputs.rules,
        &cert,
    )?;
    Ok(verified)
}
