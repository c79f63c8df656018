// Lines of a rule file whose value seems to be followed by a comment.
ghost use Rattle.std.specs.Prelude.{◌≡◌, ◌≤◌, IfOk, IsTrue, drop, length, map, string_bytes};
ghost use Rattle.explain.specs.Lines.{is_one_line};
ghost use Rattle.explain.specs.RuleLines as spec;
ghost use Rattle.explain.specs.RuleLines.{begins_property, commented_lines, has_mark_behind, has_mark_in_value};
ghost use Rattle.explain.specs.Sentences as sentences;
ghost use Rattle.explain.specs.Sentences.{said_of};

use crate::lines::said;
use abi_base::NoMemory;
use std::alloc::{AllocError, Global};

// Whether a byte is a space or a tab.
fn is_blank(byte: u8) -> bool
    ensures { result ≡ spec.is_blank byte }
{
    byte == b' ' || byte == b'\t'
}

// Whether a byte begins a comment.
fn is_mark(byte: u8) -> bool
    ensures { result ≡ spec.is_mark byte }
{
    byte == b'#' || byte == b';'
}

// Whether the second of two bytes seems to begin a comment.
fn begins_comment(before: u8, byte: u8) -> bool
    ensures { result ≡ spec.begins_comment before byte }
{
    is_blank(before) && is_mark(byte)
}

// Whether a line that begins with this byte may be a property.
fn is_plain(byte: u8) -> bool
    ensures { result ≡ spec.is_plain byte }
{
    !(is_mark(byte) || byte == b'[')
}

// Whether a blank is immediately followed by a mark, `#` or `;`, among this byte and those after it.
fn is_marked(first: u8, bytes: &[u8]) -> bool
    ensures { result ≡ has_mark_behind first bytes.now }
{
    let mut before = first;
    for index in 0..bytes.len() {
        let byte = bytes[index];
        if begins_comment(before, byte) {
            return true;
        }
        before = byte;
    }
    false
}

// The bytes from a position on.
fn from(line: &[u8], at: usize) -> &[u8]
    requires { at ≤ length line.now }
    ensures { result.now ≡ drop at line.now }
{
    &line[at..]
}

// Whether a blank is immediately followed by a mark, after the first `=`.
fn has_marked_value(line: &[u8]) -> bool
    ensures { result ≡ has_mark_in_value line.now }
{
    for index in 0..line.len() {
        let byte = line[index];
        if byte == b'=' {
            return is_marked(byte, from(line, index + 1));
        }
    }
    false
}

// Whether a line, apart from leading blanks, begins neither as a comment nor as the head of a section.
fn is_property(line: &[u8]) -> bool
    ensures { result ≡ begins_property line.now }
{
    for index in 0..line.len() {
        let byte = line[index];
        if !is_blank(byte) {
            return is_plain(byte);
        }
    }
    false
}

// Whether a line is a property whose value contains ` #` or ` ;`.
fn has_comment_in_value(line: &str) -> bool
    ensures { result ≡ spec.has_comment_in_value line.now }
{
    is_property(line.as_bytes()) && has_marked_value(line.as_bytes())
}

/// The lines of a rule file that are a property whose value contains ` #` or ` ;`. It does not begin a comment there, but is part
/// of the value.
pub fn commented_values<'a>(alloc: Global, text: &'a str) -> Result<Vec<&'a str>, NoMemory>
    ensures { IfOk result (λ found. map (λ line. line.now) found.items ≡ commented_lines text.entry.now) }
{
    let mut found = Vec::new(alloc);
    for line in text.lines() {
        if has_comment_in_value(line) {
            found.push(line)?;
        }
    }
    Ok(found)
}

// The words about such a line.
fn comment_words(alloc: Global, line: &str) -> Result<String, AllocError>
    ensures { IfOk result (λ words. string_bytes words ≡ sentences.comment_words line.now) }
{
    format!(in alloc;
        "a comment stands on a line of its own, so what looks like one is a part of the value: {line}"
    )
}

/// The sentence on such a line of the rule file at a path. It is one line, whatever characters the path and the line have.
pub fn comment_sentence(alloc: Global, path: &str, line: &str) -> Result<String, NoMemory>
    ensures says { IfOk result (λ text. string_bytes text ≡ said_of path.now (sentences.comment_words line.now)) }
    ensures line { IfOk result (λ text. IsTrue (is_one_line (string_bytes text))) }
{
    let words = comment_words(alloc, line)?;
    Ok(said(alloc, path, words.as_str())?)
}
