// Numbers, words and digests in the lines of a certificate.
ghost use Rattle.std.specs.Prelude.{◌≡◌, ◌≤◌, ◌<◌, length, take, drop, Some, None, MatchOption};
ghost use Rattle.std.specs.Str.{bytes_eq};
ghost use Rattle.std.specs.Option.{option_copied};
ghost use Rattle.hex.specs.Hex.{encode_lower};
ghost use Rattle.cert_text.specs.Forms.{number_in, numbers_in, digest_in};
ghost use Rattle.cert_text.specs.Forms as spec;

use hex::FromHex;

// Whether a text has digits, no sign, and no leading zero before other digits.
fn is_plain(text: &[u8]) -> bool
    ensures { result ≡ spec.is_plain text.now }
{
    text.len() > 0 && text[0] != b'+' && (text[0] != b'0' || text.len() == 1)
}

/// The number with this decimal spelling, or `None` for any other text. Leading zeros are not allowed.
pub fn number(text: &[u8]) -> Option<u64>
    ensures { result ≡ number_in text.now }
{
    if !is_plain(text) {
        return None;
    }
    match str::from_utf8(text) {
        Err(_) => None,
        Ok(word) => match word.parse::<u64>() {
            Ok(number) => Some(number),
            Err(_) => None,
        },
    }
}

// The position of the first space.
fn space(text: &[u8]) -> Option<usize>
    ensures { result ≡ spec.space text.now }
{
    text.iter().position(|byte| *byte == b' ')
}

// The bytes before a position.
fn before(text: &[u8], at: usize) -> &[u8]
    requires { at ≤ length text.now }
    ensures { result.now ≡ take at text.now }
{
    &text[..at]
}

/// The bytes from a position on.
pub fn from(text: &[u8], at: usize) -> &[u8]
    requires { at ≤ length text.now }
    ensures { result.now ≡ drop at text.now }
{
    &text[at..]
}

/// The number before the first space, and the text after that space; `None` if either is missing.
#[tactic(auto, unfolding(crate::specs::Forms::number_then))]
pub fn number_then(text: &[u8]) -> Option<(u64, &[u8])>
    ensures { MatchOption result (spec.number_then text.now ≡ None) (λ found. spec.number_then text.now
        ≡ Some (found.0, found.1.now)) }
{
    match space(text) {
        None => None,
        Some(at) => match number(before(text, at)) {
            None => None,
            Some(number) => Some((number, from(text, at + 1))),
        },
    }
}

// Two numbers, separated by one space.
#[tactic(auto, unfolding(crate::specs::Forms::numbers_in))]
fn numbers(text: &[u8]) -> Option<(u64, u64)>
    ensures { result ≡ numbers_in text.now }
{
    match number_then(text) {
        None => None,
        Some((one, rest)) => match number(rest) {
            None => None,
            Some(other) => Some((one, other)),
        },
    }
}

/// Whether two texts are equal.
pub fn is_same(one: &[u8], other: &[u8]) -> bool
    ensures { result ≡ bytes_eq one.now other.now }
{
    one == other
}

/// The text after a word at its front; `None` if the text does not begin with the word.
#[tactic(auto, unfolding(crate::specs::Forms::behind), using(crate::proofs::NumberLemmas::none_longer))]
pub fn behind<'a>(text: &'a [u8], word: &[u8]) -> Option<&'a [u8]>
    ensures { option_copied result ≡ spec.behind word.now text.now }
{
    if text.len() < word.len() {
        return None;
    }
    if !is_same(before(text, word.len()), word) {
        return None;
    }
    Some(from(text, word.len()))
}

/// Two numbers after a word; `None` for any other text.
#[tactic(auto, unfolding(crate::specs::Forms::numbers_behind))]
pub fn numbers_behind(text: &[u8], word: &[u8]) -> Option<(u64, u64)>
    ensures { result ≡ spec.numbers_behind word.now text.now }
{
    match behind(text, word) {
        None => None,
        Some(rest) => numbers(rest),
    }
}

// The lower-case hexadecimal digits of a digest.
fn digits_of(digest: [u8; 32]) -> [u8; 64]
    ensures { result ≡ encode_lower digest }
{
    let mut digits = [0; 64];
    let _ = hex::encode_to_slice(digest.as_slice(), digits.as_mut_slice());
    digits
}

// The 32 bytes with this lower-case hexadecimal spelling.
fn digest(text: &[u8]) -> Option<[u8; 32]>
    ensures { result ≡ digest_in text.now }
{
    match <[u8; 32] as FromHex>::from_hex(text) {
        Err(_) => None,
        Ok(digest) => {
            if is_same(text, digits_of(digest).as_slice()) {
                Some(digest)
            } else {
                None
            }
        }
    }
}

/// The digest after a word; `None` for any other text.
#[tactic(auto, unfolding(crate::specs::Forms::digest_behind))]
pub fn digest_behind(text: &[u8], word: &[u8]) -> Option<[u8; 32]>
    ensures { result ≡ spec.digest_behind word.now text.now }
{
    match behind(text, word) {
        None => None,
        Some(digits) => digest(digits),
    }
}
