// Certificates that do not prove what they should.
ghost use Rattle.std.specs.Prelude.{◌≡◌, IfOk, IsTrue, string_bytes};
ghost use Rattle.explain.specs.Lines.{is_one_line};
ghost use Rattle.explain.specs.Sentences as spec;
ghost use Rattle.explain.specs.Sentences.{said_of};

use crate::lines::said;
use abi_base::NoMemory;
use std::alloc::{AllocError, Global};

// The words about such a certificate.
fn refused_words(alloc: Global, old: &str, new: &str) -> Result<String, AllocError>
    ensures { IfOk result (λ words. string_bytes words ≡ spec.refused_words old.now new.now) }
{
    format!(in alloc; "the certificate does not prove that {new} may replace {old}")
}

/// The sentence on a certificate at a path that does not prove that the library at the path `new` may replace the one at `old`. It
/// is one line, whatever characters the paths have.
pub fn refused_sentence(alloc: Global, path: &str, old: &str, new: &str) -> Result<String, NoMemory>
    ensures says { IfOk result (λ text. string_bytes text ≡ said_of path.now (spec.refused_words old.now new.now)) }
    ensures line { IfOk result (λ text. IsTrue (is_one_line (string_bytes text))) }
{
    let words = refused_words(alloc, old, new)?;
    Ok(said(alloc, path, words.as_str())?)
}

// The words about two certificates that do not compose.
fn uncomposed_words(
    alloc: Global,
    second: &str,
    first: &str,
    last: &str,
) -> Result<String, AllocError>
    ensures { IfOk result (λ words. string_bytes words ≡ spec.uncomposed_words second.now first.now last.now) }
{
    format!(in alloc; "with {second} it does not prove that {last} may replace {first}")
}

/// The sentence on a certificate at a path that does not compose with the one at `second`, so that they do not prove that the
/// library at `last` may replace the one at `first`. It is one line, whatever characters the paths have.
pub fn uncomposed_sentence(
    alloc: Global,
    path: &str,
    second: &str,
    first: &str,
    last: &str,
) -> Result<String, NoMemory>
    ensures says { IfOk result (λ text. string_bytes text
        ≡ said_of path.now (spec.uncomposed_words second.now first.now last.now)) }
    ensures line { IfOk result (λ text. IsTrue (is_one_line (string_bytes text))) }
{
    let words = uncomposed_words(alloc, second, first, last)?;
    Ok(said(alloc, path, words.as_str())?)
}
