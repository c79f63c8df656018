// Migrates a certificate of version 1 to version 2, if the migrated one proves that a new library may replace an old one, given
// their bytes and those of a rule file.
ghost use Rattle.std.specs.Prelude.{◌≡◌, ◌≤◌, [], ◌∷◌, None, length, OnOk, IfOk, IfErr};
ghost use Rattle.abi_base.specs.Limits.{input_limit};
ghost use Rattle.abi_base.specs.Outcome.{OnLimit};
ghost use Rattle.abi_base.specs.declared.fault.NoMemory.TheVariants.{Allocation};
ghost use Rattle.cert_text.specs.Certs as certs;
ghost use Rattle.cert_text.specs.Grammar.{IsSpelled1};
ghost use Rattle.commands.specs.Faults.{AreReadable, StopsAt, StopsOn};
ghost use Rattle.commands.specs.declared.input.Input.TheVariants as input;
ghost use Rattle.library_check.specs.Judgements.{ruled};
ghost use Rattle.library_check.specs.Limits.{SettlementPasses};
ghost use Rattle.library_check.specs.Migrations.{IsMigration, old_certificate_fault};
ghost use Rattle.library_check.specs.Rows.Migrate.{migrate_asks, migrate_passes, migrate_says};

use crate::checking::read_inputs;
use crate::judging::certificate_text;
use crate::text;
use crate::verifying::settle;
use abi_base::NoMemory;
use abi_types::{Library, NewIx, OldIx};
use cert_text::{Cert, Cert1, read_cert_1};
use commands::{Input, Judgement, Stop, Verdict, stop_at};
use std::alloc::Global;
use suppression_text::Rules;

// Reads the certificate of version 1. It passes no limit: memory runs out only where an allocation fails.
fn read_old_certificate(alloc: Global, bytes: &[u8]) -> Result<Cert1, Stop>
    ensures readable { OnOk result (old_certificate_fault bytes.now ≡ None) }
    ensures spelled { IfOk result (λ cert. IsSpelled1 bytes.now cert) }
    ensures stops { IfErr result (StopsOn input.Certificate (old_certificate_fault bytes.now) (λ l. ⊥)) }
{
    match read_cert_1(alloc, bytes) {
        Ok(cert) => Ok(cert),
        Err(refusal) => Err(stop_at(Input::Certificate, refusal)),
    }
}

// The certificate of version 2 with the meaning of one of version 1. It fails only where an allocation fails, as copying lines does.
fn second_version(alloc: Global, cert: &Cert1) -> Result<Cert, NoMemory>
    ensures made { IfOk result (λ new. new ≡ certs.migrated cert.now) }
    ensures named { IfErr result (λ e. e ≡ Allocation) }
{
    cert_text::migrate(alloc, cert)
}

// What is said about a certificate of version 1 for two libraries and a rule file after they are read.
#[tactic(auto, using(crate::proofs::LimitLemmas::settlement_of))]
fn settle_migrated(
    alloc: Global,
    old: &Library<OldIx>,
    new: &Library<NewIx>,
    rules: &Rules,
    cert: &Cert1,
) -> Result<Judgement, NoMemory>
    ensures settled { IfOk result (λ j. IsMigration (ruled old.now new.now rules.now) cert.now
        j.verdict j.text.items) }
    ensures unremarked { IfOk result (λ j. j.untyped ≡ None) }
    ensures past { IfErr result (λ e. OnLimit e
        (SettlementPasses old.now new.now rules.now (certs.migrated cert.now))) }
{
    let migrated = second_version(alloc, cert)?;
    match settle(alloc, old, new, rules, &migrated)? {
        None => Ok(Judgement {
            verdict: Verdict::Done,
            untyped: None,
            text: certificate_text(alloc, &migrated)?,
        }),
        Some(refused) => Ok(Judgement {
            verdict: Verdict::Refused,
            untyped: None,
            text: text::refused(alloc, refused)?,
        }),
    }
}

/// Migrates a certificate of version 1: done with the text of the certificate of version 2 with the same meaning, if that proves that
/// a new library may replace an old one in all that a rule file does not suppress, given their bytes; else refused with the first
/// condition that it does not meet. A fault is that of the first input that has one, in the order old, new, rules, certificate.
#[tactic(auto, using(crate::proofs::StopLemmas::inputs_stop_migrate, crate::proofs::StopLemmas::certificate_stops_migrate, crate::proofs::StopLemmas::settlement_stops_migrate))]
pub(crate) fn migrate(
    alloc: Global,
    old: &[u8],
    new: &[u8],
    rules: &[u8],
    certificate: &[u8],
) -> Result<Judgement, Stop>
    requires old_short { length old.now ≤ input_limit }
    requires new_short { length new.now ≤ input_limit }
    ensures readable { OnOk result (AreReadable migrate_asks
        (old.now ∷ new.now ∷ rules.now ∷ certificate.now ∷ [])) }
    ensures said { IfOk result (λ j. migrate_says
        (old.now ∷ new.now ∷ rules.now ∷ certificate.now ∷ []) j.verdict j.untyped j.text.items) }
    ensures stops { IfErr result (StopsAt migrate_asks migrate_passes
        (old.now ∷ new.now ∷ rules.now ∷ certificate.now ∷ [])) }
{
    let inputs = read_inputs(alloc, old, new, rules)?;
    let cert = read_old_certificate(alloc, certificate)?;
    let judgement = settle_migrated(
        alloc,
        &inputs.pair.old,
        &inputs.pair.new,
        &inputs.rules,
        &cert,
    )?;
    Ok(judgement)
}
