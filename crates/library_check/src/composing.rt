// The certificate that two certificates for a chain of three libraries compose, given their bytes.
ghost use Rattle.std.specs.Prelude.{◌≡◌, ◌≤◌, [], ◌∷◌, None, length, OnOk, IfOk, IfErr};
ghost use Rattle.abi_base.specs.Limits.{input_limit};
ghost use Rattle.abi_base.specs.Outcome.{OnLimit};
ghost use Rattle.cert_check.specs.Accepted.{IsAccepted};
ghost use Rattle.cert_compose.specs.Chains.{IsChain, joint};
ghost use Rattle.cert_text.specs.Grammar.{IsSpelled};
ghost use Rattle.commands.specs.Faults.{AreReadable, StopsAt};
ghost use Rattle.library_read.specs.Faults.{library_fault};
ghost use Rattle.library_read.specs.Libraries.{library_of};
ghost use Rattle.library_read.specs.Limits.{LibraryPasses};
ghost use Rattle.suppression_text.specs.Rules.{rules_of};
ghost use Rattle.library_check.specs.Compositions.{AreAccepted, IsJoined, bytes_in_order, first_case, plain_files};
ghost use Rattle.library_check.specs.Judgements.{ruled};
ghost use Rattle.library_check.specs.Limits.{ChainPasses, JoinPasses, SecondPasses, SettlementPasses, WritingPasses};
ghost use Rattle.library_check.specs.Rows.Compose.{chain_asks, chain_passes, compose_asks, compose_passes, compose_says};
ghost use Rattle.library_check.specs.Verifications.{IsSettled, case_for};

use crate::checking::{is_copied, no_rules, read_at};
use crate::judging::certificate_text;
use crate::text;
use crate::verifying::{read_certificate, settle};
use abi_base::{INPUT_LIMIT, Limit, NoMemory, Refusal};
use abi_types::{Library, NewIx, OldIx};
use cert_check::Refused;
use cert_check::laws::{
    an_accepted_certificate_is_a_proof, marks_of_nothing_are_alike, what_is_accepted_keeps_all,
};
use cert_compose::{Chain, ComposeRefusal};
use cert_text::{Cert, pairs_of};
use commands::{Input, Judgement, Stop, Verdict};
use library_read::copy::copied;
use library_read::read_library;
use std::alloc::Global;

// The fewest bytes in a pair line, as in `pair 1 1 direct` with its line feed.
const PAIR_ROOM: usize = 16;

/// The bytes of three libraries and two certificates.
#[derive(Clone, Copy)]
pub(crate) struct ChainFiles<'x> {
    /// The first library.
    pub(crate) first: &'x [u8],
    /// The library that may replace the first one.
    pub(crate) middle: &'x [u8],
    /// The library that may replace the middle one.
    pub(crate) last: &'x [u8],
    /// The certificate for the first library and the middle one.
    pub(crate) certificate1: &'x [u8],
    /// The certificate for the middle library and the last one.
    pub(crate) certificate2: &'x [u8],
}

/// Three libraries of a chain. Their types borrow names from the files' bytes. The middle one is held twice, once for each side.
#[derive(Drop)]
struct Libraries<'a> {
    first: Library<'a, OldIx>,
    middle_new: Library<'a, NewIx>,
    middle_old: Library<'a, OldIx>,
    last: Library<'a, NewIx>,
}

/// The two certificates of a chain.
#[derive(Drop)]
struct Certificates {
    one: Cert,
    other: Cert,
}

// The middle library for its other side: a copy, unless that would take too much memory.
fn read_middle_again<'a>(
    alloc: Global,
    bytes: &'a [u8],
    library: &Library<'a, NewIx>,
) -> Result<Library<'a, OldIx>, NoMemory>
    requires short { length bytes.now ≤ input_limit }
    requires readable { library_fault bytes.now ≡ None }
    requires library { library.now ≡ library_of bytes.now }
    ensures library { IfOk result (λ library. library ≡ library_of bytes.now) }
    ensures past { IfErr result (λ e. OnLimit e (LibraryPasses bytes.now)) }
{
    if is_copied(library) {
        return Ok(copied(alloc, library)?);
    }
    match read_library(alloc, bytes) {
        Ok(library) => Ok(library),
        Err(Refusal::NoMemory(cause)) => Err(cause),
        Err(Refusal::Fault(_)) => unreachable!(),
    }
}

// Reads the libraries, in order. The middle one is read once, and copied for its other side.
#[tactic(auto, using(crate::proofs::StopLemmas::first_stops, crate::proofs::StopLemmas::middle_stops, crate::proofs::StopLemmas::last_stops, crate::proofs::StopLemmas::copy_stops))]
fn read_libraries<'a>(alloc: Global, files: &ChainFiles<'a>) -> Result<Libraries<'a>, Stop>
    requires first_short { length files.now.first.now ≤ input_limit }
    requires middle_short { length files.now.middle.now ≤ input_limit }
    requires last_short { length files.now.last.now ≤ input_limit }
    ensures readable { OnOk result (AreReadable chain_asks
        (files.now.first.now ∷ files.now.middle.now ∷ files.now.last.now ∷ [])) }
    ensures first { IfOk result (λ libraries. libraries.first ≡ library_of files.now.first.now) }
    ensures middle_new { IfOk result (λ libraries. libraries.middle_new ≡ library_of files.now.middle.now) }
    ensures middle_old { IfOk result (λ libraries. libraries.middle_old ≡ library_of files.now.middle.now) }
    ensures last { IfOk result (λ libraries. libraries.last ≡ library_of files.now.last.now) }
    ensures stops { IfErr result (StopsAt chain_asks chain_passes
        (files.now.first.now ∷ files.now.middle.now ∷ files.now.last.now ∷ [])) }
{
    let first = read_at(alloc, Input::First, files.first)?;
    let middle_new = read_at(alloc, Input::Middle, files.middle)?;
    let last = read_at(alloc, Input::Last, files.last)?;
    let middle_old = read_middle_again(alloc, files.middle, &middle_new)?;
    Ok(Libraries {
        first,
        middle_new,
        middle_old,
        last,
    })
}

// The text of a certificate, or `NoMemory` if it is longer than an input may be. A certificate with too many pair lines is not even
// written.
#[tactic(auto, using(crate::proofs::LimitLemmas::many_lines, crate::proofs::LimitLemmas::many_bytes))]
fn written(alloc: Global, cert: &Cert) -> Result<Vec<u8>, NoMemory>
    ensures spelled { IfOk result (λ text. IsSpelled text.items cert.now) }
    ensures short { IfOk result (λ text. length text.items ≤ input_limit) }
    ensures past { IfErr result (λ e. OnLimit e (WritingPasses cert.now)) }
{
    if pairs_of(cert).len() > INPUT_LIMIT / PAIR_ROOM {
        return Err(NoMemory::Past(Limit::ComposedLines));
    }
    let text = certificate_text(alloc, cert)?;
    if text.len() > INPUT_LIMIT {
        return Err(NoMemory::Past(Limit::Certificate));
    }
    Ok(text)
}

// The first condition that a certificate for two libraries does not meet, with an empty rule file.
#[tactic(auto, using(crate::proofs::LimitLemmas::settlement_by))]
fn settle_unmarked(
    alloc: Global,
    old: &Library<OldIx>,
    new: &Library<NewIx>,
    cert: &Cert,
) -> Result<Option<Refused>, NoMemory>
    ensures settled { IfOk result (IsSettled (case_for (ruled old.now new.now (rules_of [])) cert.now)) }
    ensures past { IfErr result (λ e. OnLimit e (SettlementPasses old.now new.now (rules_of []) cert.now)) }
{
    let rules = no_rules(alloc)?;
    settle(alloc, old, new, &rules, cert)
}

// States that accepted certificates make a chain of the libraries. The function does nothing.
fn make_a_chain(libraries: &Libraries, certificates: &Certificates)
    requires { AreAccepted (joint libraries.now.first libraries.now.middle_new libraries.now.last
        certificates.now.one certificates.now.other) }
    ensures { IsChain (joint libraries.now.first libraries.now.middle_new libraries.now.last
        certificates.now.one certificates.now.other) }
{
    marks_of_nothing_are_alike();
    what_is_accepted_keeps_all();
    libraries.first.known();
    libraries.middle_new.known();
    libraries.first.graph().known();
    libraries.middle_new.graph().known();
    libraries.last.graph().known();
    certificates.one.known();
    certificates.other.known();
}

// What is said about two accepted certificates.
#[tactic(auto, using(crate::proofs::LimitLemmas::composition_joins, crate::proofs::LimitLemmas::refusal_joins, crate::proofs::LimitLemmas::writing_joins))]
fn join_accepted(
    alloc: Global,
    libraries: &Libraries,
    certificates: &Certificates,
) -> Result<Judgement, NoMemory>
    requires copied { libraries.now.middle_old ≡ libraries.now.middle_new }
    requires accepted { AreAccepted (joint libraries.now.first libraries.now.middle_new libraries.now.last
        certificates.now.one certificates.now.other) }
    ensures joined { IfOk result (λ j. IsJoined (joint libraries.now.first libraries.now.middle_new
        libraries.now.last certificates.now.one certificates.now.other) j.verdict j.text.items) }
    ensures unremarked { IfOk result (λ j. j.untyped ≡ None) }
    ensures past { IfErr result (λ e. OnLimit e
        (JoinPasses (joint libraries.now.first libraries.now.middle_new libraries.now.last certificates.now.one
        certificates.now.other))) }
{
    marks_of_nothing_are_alike();
    what_is_accepted_keeps_all();
    an_accepted_certificate_is_a_proof();
    make_a_chain(libraries, certificates);
    let chain = Chain {
        first: &libraries.first,
        middle_new: &libraries.middle_new,
        middle_old: &libraries.middle_old,
        last: &libraries.last,
    };
    match cert_compose::compose(alloc, &chain, &certificates.one, &certificates.other) {
        Ok(cert) => Ok(Judgement {
            verdict: Verdict::Yes,
            untyped: None,
            text: written(alloc, &cert)?,
        }),
        Err(ComposeRefusal::Between(refused)) => Ok(Judgement {
            verdict: Verdict::Refused,
            untyped: None,
            text: text::refused(alloc, refused)?,
        }),
        Err(ComposeRefusal::NoMemory(cause)) => Err(cause),
    }
}

// What is said about two certificates, if the first is accepted.
#[tactic(auto, using(crate::proofs::LimitLemmas::settlement_is_second, crate::proofs::LimitLemmas::join_is_second))]
fn join_second(
    alloc: Global,
    libraries: &Libraries,
    certificates: &Certificates,
) -> Result<Judgement, NoMemory>
    requires copied { libraries.now.middle_old ≡ libraries.now.middle_new }
    requires accepted { IsAccepted (first_case
        (joint libraries.now.first libraries.now.middle_new libraries.now.last certificates.now.one
        certificates.now.other)) }
    ensures joined { IfOk result (λ j. IsJoined (joint libraries.now.first libraries.now.middle_new
        libraries.now.last certificates.now.one certificates.now.other) j.verdict j.text.items) }
    ensures unremarked { IfOk result (λ j. j.untyped ≡ None) }
    ensures past { IfErr result (λ e. OnLimit e
        (SecondPasses (joint libraries.now.first libraries.now.middle_new libraries.now.last
        certificates.now.one certificates.now.other))) }
{
    match settle_unmarked(
        alloc,
        &libraries.middle_old,
        &libraries.last,
        &certificates.other,
    )? {
        None => Ok(join_accepted(alloc, libraries, certificates)?),
        Some(refused) => Ok(Judgement {
            verdict: Verdict::Refused,
            untyped: None,
            text: text::refused_second(alloc, refused)?,
        }),
    }
}

// What is said about two certificates for libraries after they are read. A refusal of the first one comes first.
#[tactic(auto, using(crate::proofs::LimitLemmas::settlement_is_first, crate::proofs::LimitLemmas::second_is_after))]
fn join(
    alloc: Global,
    libraries: &Libraries,
    certificates: &Certificates,
) -> Result<Judgement, NoMemory>
    requires { libraries.now.middle_old ≡ libraries.now.middle_new }
    ensures joined { IfOk result (λ j. IsJoined (joint libraries.now.first libraries.now.middle_new
        libraries.now.last certificates.now.one certificates.now.other) j.verdict j.text.items) }
    ensures unremarked { IfOk result (λ j. j.untyped ≡ None) }
    ensures past { IfErr result (λ e. OnLimit e
        (ChainPasses (joint libraries.now.first libraries.now.middle_new libraries.now.last certificates.now.one
        certificates.now.other))) }
{
    match settle_unmarked(
        alloc,
        &libraries.first,
        &libraries.middle_new,
        &certificates.one,
    )? {
        None => Ok(join_second(alloc, libraries, certificates)?),
        Some(refused) => Ok(Judgement {
            verdict: Verdict::Refused,
            untyped: None,
            text: text::refused_first(alloc, refused)?,
        }),
    }
}

/// Composes the certificate that the last library of a chain may replace the first, from one certificate that the middle library
/// may replace the first, and one that the last may replace the middle one. Else it is refused, with the first refusal: of the first
/// certificate, of the second one, or for what is lost between them. There are no suppressions. A fault is that of the first input
/// that has one.
#[tactic(auto, using(crate::proofs::StopLemmas::libraries_stop_compose, crate::proofs::StopLemmas::one_stops_compose, crate::proofs::StopLemmas::other_stops_compose))]
pub(crate) fn compose(alloc: Global, files: &ChainFiles) -> Result<Judgement, Stop>
    requires first_short { length files.now.first.now ≤ input_limit }
    requires middle_short { length files.now.middle.now ≤ input_limit }
    requires last_short { length files.now.last.now ≤ input_limit }
    ensures readable { OnOk result (AreReadable compose_asks (bytes_in_order (plain_files files.now))) }
    ensures said { IfOk result (λ j. compose_says (bytes_in_order (plain_files files.now))
        j.verdict j.untyped j.text.items) }
    ensures stops { IfErr result (StopsAt compose_asks compose_passes (bytes_in_order (plain_files files.now))) }
{
    let libraries = read_libraries(alloc, files)?;
    let one = read_certificate(alloc, Input::Certificate1, files.certificate1)?;
    let other = match read_certificate(alloc, Input::Certificate2, files.certificate2) {
        Ok(other) => other,
        Err(stop) => return Err(stop),
    };
    match join(alloc, &libraries, &Certificates { one, other }) {
        Ok(judgement) => Ok(judgement),
        Err(cause) => Err(Stop::NoMemory(cause)),
    }
}
