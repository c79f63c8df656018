// Reading the text of a certificate.
ghost use Rattle.std.specs.Prelude.{◌≡◌, ◌≤◌, length, MatchResult, IfOk, IfErr};
ghost use Rattle.cert_text.specs.Certs.{line_count};
ghost use Rattle.abi_base.specs.Outcome.{Judges, OnPast};
ghost use Rattle.cert_text.specs.Faults.{fault_of};
ghost use Rattle.cert_text.specs.Faults as spec;
ghost use Rattle.cert_text.specs.Grammar.{IsSpelled, IsSpelledIn};
ghost use Rattle.cert_text.specs.Steps.{Accepts, LineFails};

use crate::cert::Cert;
use crate::draft::Draft;
use crate::forms::form_of;
use crate::head::{end_fault, line_at, line_end, line_fault, order_fault, read_head};
use crate::line::{Line, Version, is_end, may_follow};
use crate::words::from;
use abi_base::{Fault, Refusal};
use std::alloc::Global;

// Whether the line before is the last one.
fn is_over(before: Option<Line>) -> bool
    ensures { result ≡ spec.is_end before }
{
    match before {
        None => false,
        Some(line) => is_end(line),
    }
}

// Reads a line after another one.
fn read_line(
    version: Version,
    number: u64,
    before: Option<Line>,
    text: &[u8],
) -> Result<Line, Fault>
    ensures { MatchResult result (λ line. Accepts version number before text.now line)
        (λ fault. LineFails version number before text.now fault) }
{
    if is_over(before) {
        return Err(end_fault(number));
    }
    let line = match form_of(version, text) {
        None => return Err(line_fault(number)),
        Some(line) => line,
    };
    match before {
        None => Ok(line),
        Some(earlier) => {
            if may_follow(earlier, line) {
                Ok(line)
            } else {
                Err(order_fault(number))
            }
        }
    }
}

// The fault where the lines end, given the bytes after the last line feed.
fn fault_at_end(number: u64, before: Option<Line>, rest: &[u8]) -> Option<Fault>
    ensures { result ≡ spec.end_fault number before rest.now }
{
    if is_over(before) && rest.is_empty() {
        None
    } else {
        Some(end_fault(number))
    }
}

/// Reads a certificate of a version. Pair lines of version 1 become pair lines by value. A refusal names the first fault of the
/// text, and its place is the number of the line.
pub fn read_text(alloc: Global, version: Version, bytes: &[u8]) -> Result<Cert, Refusal>
    ensures spelled { IfOk result (λ cert. IsSpelledIn version bytes.now cert) }
    ensures room { IfOk result (λ cert. line_count cert ≤ length bytes.now) }
    ensures fault { Judges result (fault_of version bytes.now) }
    ensures past { IfErr result (λ e. OnPast e (λ l. ⊥)) }
{
    let head = read_head(version, bytes)?;
    let old_digest = head.old_digest;
    let new_digest = head.new_digest;
    let rules_digest = head.rules_digest;
    let mut draft = Draft::new(alloc, old_digest, new_digest, rules_digest);
    let mut at = head.next;
    let mut number = 5u64;
    let mut before: Option<Line> = None;
    'lines: while let Some(end) = line_end(bytes, at) {
        let line = read_line(version, number, before, line_at(bytes, at, end))?;
        draft.put(line)?;
        before = Some(line);
        number += 1;
        at = end + 1;
    }
    match fault_at_end(number, before, from(bytes, at)) {
        Some(fault) => Err(Refusal::Fault(fault)),
        None => Ok(draft.finish()),
    }
}

/// Reads a certificate. A refusal names the first fault of the text, and its place is the number of the line.
pub fn read_cert(alloc: Global, bytes: &[u8]) -> Result<Cert, Refusal>
    ensures spelled { IfOk result (λ cert. IsSpelled bytes.now cert) }
    ensures fault { Judges result (fault_of Version.Two bytes.now) }
    ensures past { IfErr result (λ e. OnPast e (λ l. ⊥)) }
{
    read_text(alloc, Version::Two, bytes)
}
