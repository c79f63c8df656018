// The first four lines of a certificate: its version and the digests.
ghost use Rattle.std.specs.Prelude.{◌≡◌, ◌≤◌, ◌<◌, ◌+◌, ◌-◌, length, take, drop, position, Some, None, MatchOption, MatchResult};
ghost use Rattle.cert_text.specs.Forms.{is_feed};
ghost use Rattle.cert_text.specs.Faults.{answer_test, digest_test, fault_of};
ghost use Rattle.cert_text.specs.Grammar as spec;
ghost use Rattle.cert_text.specs.Steps.{IsRest, StandsAt, Passes, Fails, HasDigest, HasHead, text_at};

use crate::line::Version;
use crate::words::{digest_behind, from, is_same};
use abi_base::{Fault, FaultKind};

// The first line feed from a position on, counted from there.
fn feed_from(bytes: &[u8], at: usize) -> Option<usize>
    requires { at ≤ length bytes.now }
    ensures { result ≡ position is_feed (drop at bytes.now) }
{
    from(bytes, at).iter().position(|byte| *byte == b'\n')
}

/// The position of the line feed that ends the line at a position, or `None` if the text ends first.
pub fn line_end(bytes: &[u8], at: usize) -> Option<usize>
    requires { at ≤ length bytes.now }
    ensures { MatchOption result (IsRest bytes.now at) (λ end. (at ≤ end)
        × StandsAt bytes.now at (end + 1) (text_at bytes.now at end)) }
{
    match feed_from(bytes, at) {
        None => None,
        Some(length) => Some(at + length),
    }
}

/// The bytes from one position to another.
pub fn line_at(bytes: &[u8], at: usize, end: usize) -> &[u8]
    requires order { at ≤ end }
    requires inside { end ≤ length bytes.now }
    ensures { result.now ≡ text_at bytes.now at end }
{
    &bytes[at..end]
}

/// The fault of a line that does not have the form that its position requires.
pub fn line_fault(number: u64) -> Fault
    ensures { result ≡ record { kind = FaultKind.CertLine; at = number } }
{
    Fault {
        kind: FaultKind::CertLine,
        at: number,
    }
}

/// The fault of a text that ends before its last line, or continues after it.
pub fn end_fault(number: u64) -> Fault
    ensures { result ≡ record { kind = FaultKind.End; at = number } }
{
    Fault {
        kind: FaultKind::End,
        at: number,
    }
}

/// The fault of a line that is out of order.
pub fn order_fault(number: u64) -> Fault
    ensures { result ≡ record { kind = FaultKind.Order; at = number } }
{
    Fault {
        kind: FaultKind::Order,
        at: number,
    }
}

// The text of the first line.
fn answer(version: Version) -> &'static [u8]
    ensures { result.now ≡ spec.answer version }
{
    match version {
        Version::One => b"yes 1",
        Version::Two => b"yes 2",
    }
}

// The position of the second line, after the answer.
fn read_answer(version: Version, bytes: &[u8]) -> Result<usize, Fault>
    ensures { MatchResult result (λ next. Passes version 1 (answer_test version) bytes.now 0 next
        (spec.answer version)) (λ fault. Fails 1 (answer_test version) bytes.now 0 fault) }
{
    match line_end(bytes, 0) {
        None => Err(end_fault(1)),
        Some(end) => {
            if is_same(line_at(bytes, 0, end), answer(version)) {
                Ok(end + 1)
            } else {
                Err(line_fault(1))
            }
        }
    }
}

/// The digest in a line, and the position of the next line.
#[derive(Clone, Copy)]
struct DigestLine {
    digest: [u8; 32],
    next: usize,
}

// The digest after a word in the line at a position.
fn read_digest(bytes: &[u8], at: usize, number: u64, word: &[u8]) -> Result<DigestLine, Fault>
    requires { at ≤ length bytes.now }
    ensures { MatchResult result (λ line. HasDigest number word.now bytes.now at line.digest line.next)
        (λ fault. Fails number (digest_test word.now) bytes.now at fault) }
{
    match line_end(bytes, at) {
        None => Err(end_fault(number)),
        Some(end) => match digest_behind(line_at(bytes, at, end), word) {
            None => Err(line_fault(number)),
            Some(digest) => Ok(DigestLine {
                digest,
                next: end + 1,
            }),
        },
    }
}

/// The digests of the three inputs, and the position of the fifth line.
#[derive(Clone, Copy)]
pub struct Head {
    /// The SHA-256 of the old library.
    pub old_digest: [u8; 32],
    /// The SHA-256 of the new library.
    pub new_digest: [u8; 32],
    /// The SHA-256 of the rule text.
    pub rules_digest: [u8; 32],
    /// The position of the fifth line.
    pub next: usize,
}

/// The digests in the first four lines of a text, or the fault of the first of these lines that has one.
pub fn read_head(version: Version, bytes: &[u8]) -> Result<Head, Fault>
    ensures { MatchResult result (λ head. HasHead version bytes.now head.old_digest head.new_digest
        head.rules_digest head.next) (λ fault. fault_of version bytes.now ≡ Some fault) }
{
    let second = read_answer(version, bytes)?;
    let old = read_digest(bytes, second, 2, b"old ")?;
    let new = read_digest(bytes, old.next, 3, b"new ")?;
    let rules = read_digest(bytes, new.next, 4, b"rules ")?;
    let old_digest = old.digest;
    let new_digest = new.digest;
    let rules_digest = rules.digest;
    Ok(Head {
        old_digest,
        new_digest,
        rules_digest,
        next: rules.next,
    })
}
