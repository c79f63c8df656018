// The classes of characters in patterns, which take long to read.
ghost use Rattle.std.specs.Prelude.{◌≡◌, ◌<◌, ◌-◌, ◌^◌, length, min};
ghost use Rattle.suppression_text.specs.Classes.{classes_of, begins_flags};
ghost use Rattle.suppression_text.specs.Classes as spec;

use crate::line::{equals_in, from};

// In a pattern with flags, such as `(?i)`, a class counts as several: those that ignore case take longest.
const FLAGGED: usize = 8;

// Whether the byte at a position is an opening bracket, or a letter behind a backslash.
fn is_class(text: &[u8], at: usize) -> bool
    requires { at < length text.now }
    ensures { result ≡ spec.is_class text.now at }
{
    text[at] == b'[' || at > 0 && text[at - 1] == b'\\' && text[at].is_ascii_alphabetic()
}

// The number of classes in a text.
fn class_count(text: &[u8]) -> usize
    ensures { result ≡ spec.class_count text.now }
{
    let mut count = 0;
    for at in 0..text.len() {
        if is_class(text, at) {
            count += 1;
        }
    }
    count
}

// Whether the byte at a position begins flags of a group.
fn are_flags(text: &[u8], at: usize) -> bool
    requires { at < length text.now }
    ensures { result ≡ begins_flags text.now at }
{
    at > 1 && text[at - 2] == b'(' && text[at - 1] == b'?' && text[at] != b':'
}

// Whether a line has flags.
fn has_flags(line: &[u8]) -> bool
    ensures { result ≡ spec.has_flags line.now }
{
    let mut flagged = false;
    for at in 0..line.len() {
        if are_flags(line, at) {
            flagged = true;
        }
    }
    flagged
}

/// The number of classes in the value of a line, or the greatest number: each backslash before a letter and each opening bracket
/// counts as one, or as eight if there are flags.
#[tactic(auto, unfolding(crate::specs::Classes::classes_of))]
pub(crate) fn classes_in(line: &[u8]) -> usize
    ensures { result ≡ min (classes_of line.now) (2 ^ 64 - 1) }
{
    let Some(at) = equals_in(line) else {
        return 0;
    };
    let count = class_count(from(line, at + 1));
    if has_flags(line) {
        count.saturating_mul(FLAGGED)
    } else {
        count
    }
}
