// Texts that fit in one line.
ghost use Rattle.std.specs.Prelude.{◌≡◌, ◌==◌, ◌++◌, IfOk, IsTrue, OnOk, string_bytes};
ghost use Rattle.explain.specs.Lines as spec;
ghost use Rattle.explain.specs.Lines.{in_line, is_one_line, shown_char};
ghost use Rattle.explain.specs.Sentences.{said_of};

use std::alloc::{AllocError, Global};

/// Whether a sentence speaks of one thing, so that its noun is singular.
pub(crate) fn is_one(count: usize) -> bool
    ensures { result ≡ (count == 1) }
{
    count == 1
}

// Whether a character is a control character or the backslash.
fn is_escaped(c: char) -> bool
    ensures { result ≡ spec.is_escaped c }
{
    let code = c as u32;
    code < 0x20 || 0x7f <= code && code < 0xa0 || code == 0x5c
}

// Appends a character as itself, or escaped as `\x` and two hexadecimal digits.
fn push_char(alloc: Global, text: &mut String, c: char) -> Result<(), AllocError>
    ensures { OnOk result (string_bytes text.new ≡ string_bytes text.old ++ shown_char c) }
{
    if !is_escaped(c) {
        return text.push(c);
    }
    let digits = hex::encode(alloc, [c as u32 as u8].as_slice())?;
    text.push_str("\\x")?;
    text.push_str(digits.as_str())
}

/// Appends the characters of a text in one line: each control character and the backslash escaped as `\x` and two hexadecimal
/// digits, and each other character as itself.
pub(crate) fn push_in_line(alloc: Global, text: &mut String, line: &str) -> Result<(), AllocError>
    ensures { OnOk result (string_bytes text.new ≡ string_bytes text.old ++ in_line line.now) }
{
    for c in line.chars() {
        push_char(alloc, text, c)?;
    }
    Ok(())
}

/// A sentence about an input at a path, in one line.
pub(crate) fn said(alloc: Global, path: &str, words: &str) -> Result<String, AllocError>
    ensures text { IfOk result (λ text. string_bytes text ≡ said_of path.now words.now) }
    ensures line { IfOk result (λ text. IsTrue (is_one_line (string_bytes text))) }
{
    let text = joined(alloc, path, words)?;
    Ok(text)
}

// A path, a colon, and the words.
fn joined(alloc: Global, path: &str, words: &str) -> Result<String, AllocError>
    ensures { IfOk result (λ text. string_bytes text ≡ said_of path.now words.now) }
{
    let mut text = String::new(alloc);
    push_in_line(alloc, &mut text, path)?;
    text.push_str(": ")?;
    push_in_line(alloc, &mut text, words)?;
    Ok(text)
}
