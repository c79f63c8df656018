// The alike lines.
ghost use Rattle.std.specs.Prelude.{◌≡◌, ◌<◌, ◌↔◌, ◌+◌, IsTrue, is_none, length};
ghost use Rattle.cert_text.specs.Certs.{Ascend, first_cmp};
ghost use Rattle.cert_check.specs.Accepted.{Settles, AlikeOld, AlikeNew, KeepsAlike, each};
ghost use Rattle.cert_check.specs.Accepted as spec;
ghost use Rattle.cert_check.specs.Finds.{FindsFirst};
ghost use Rattle.cert_check.specs.CertifiedPair.{case_of};

use crate::certified_pair::{CertifiedPair, find};
use crate::lookups::line_of;
use crate::refused::{Refused, RefusedKind};
use crate::same_looks::look_alike;
use abi_types::{Index, Library};
use cert_text::{Cert, alike_new_of, alike_old_of};

// Whether an entry has no alike line.
fn is_own(lines: &[(u64, u64)], entry: u64) -> bool
    requires { Ascend first_cmp lines.now }
    ensures { result ≡ is_none (spec.line_of lines.now entry) }
{
    line_of(lines, entry).is_none()
}

// Whether the alike line at a position meets its condition.
fn keeps_alike_line<Ix: Index>(library: &Library<Ix>, lines: &[(u64, u64)], k: usize) -> bool
    requires inside { k < length lines.now }
    requires ascend { Ascend first_cmp lines.now }
    ensures { IsTrue result ↔ KeepsAlike library.now.graph lines.now k }
{
    let (entry, rep) = lines[k];
    let one = match find(library, entry) {
        None => return false,
        Some(one) => one,
    };
    let other = match find(library, rep) {
        None => return false,
        Some(other) => other,
    };
    if !is_own(lines, rep) {
        return false;
    }
    look_alike(library.graph(), lines, one, other)
}

// The first alike line that fails.
fn first_unlike<Ix: Index>(library: &Library<Ix>, lines: &[(u64, u64)]) -> Option<usize>
    requires { Ascend first_cmp lines.now }
    ensures { FindsFirst (KeepsAlike library.now.graph lines.now) (length lines.now) result }
{
    for k in 0..lines.len() {
        if !keeps_alike_line(library, lines, k) {
            return Some(k);
        }
    }
    None
}

// The number of the certificate's line that is the alike line at a position, for the old library.
fn old_line(cert: &Cert, k: usize) -> u64
    requires { k < length cert.now.alike_old }
    ensures { result ≡ 5 + length cert.now.binds + k }
{
    cert.known();
    let at = 5 + cert.binds.as_slice().len() + k;
    at as u64
}

// The number of the certificate's line that is the alike line at a position, for the new library.
fn new_line(cert: &Cert, k: usize) -> u64
    requires { k < length cert.now.alike_new }
    ensures { result ≡ 5 + length cert.now.binds + length cert.now.alike_old + k }
{
    cert.known();
    let at = 5 + cert.binds.as_slice().len() + cert.alike_old.as_slice().len() + k;
    at as u64
}

/// Checks the alike lines of the old library, in order.
pub fn check_alike_lines_of_old(ground: &CertifiedPair) -> Result<(), Refused>
    ensures { Settles (case_of ground.now) (each AlikeOld (length ground.now.cert.now.alike_old)) result }
{
    match first_unlike(ground.old, alike_old_of(ground.cert)) {
        None => Ok(()),
        Some(k) => Err(Refused {
            kind: RefusedKind::Alike,
            at: old_line(ground.cert, k),
        }),
    }
}

/// Checks the alike lines of the new library, in order.
pub fn check_alike_lines_of_new(ground: &CertifiedPair) -> Result<(), Refused>
    ensures { Settles (case_of ground.now) (each AlikeNew (length ground.now.cert.now.alike_new)) result }
{
    match first_unlike(ground.new, alike_new_of(ground.cert)) {
        None => Ok(()),
        Some(k) => Err(Refused {
            kind: RefusedKind::Alike,
            at: new_line(ground.cert, k),
        }),
    }
}
