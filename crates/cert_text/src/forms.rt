// The meaning of a line after the first four.
ghost use Rattle.std.specs.Prelude.{◌≡◌};
ghost use Rattle.cert_text.specs.Forms.{bind_in, alike_old_in, alike_new_in, plain_pair_in, way_in, pair_fields, pair_in, end_in};
ghost use Rattle.cert_text.specs.Forms as spec;

use crate::line::{Line, Version};
use crate::words::{behind, is_same, number_then, numbers_behind};
use abi_types::Way;

// Symbol numbers are below this limit.
const SYMBOLS: u64 = 1 << 32;

#[tactic(auto, unfolding(crate::specs::Forms::bind_in))]
fn bind(text: &[u8]) -> Option<Line>
    ensures { result ≡ bind_in text.now }
{
    match numbers_behind(text, b"bind ") {
        None => None,
        Some((old, new)) => {
            if old < SYMBOLS && new < SYMBOLS {
                Some(Line::Bind {
                    old: old as u32,
                    new: new as u32,
                })
            } else {
                None
            }
        }
    }
}

#[tactic(auto, unfolding(crate::specs::Forms::alike_old_in))]
fn alike_old(text: &[u8]) -> Option<Line>
    ensures { result ≡ alike_old_in text.now }
{
    match numbers_behind(text, b"alike old ") {
        None => None,
        Some((entry, rep)) => Some(Line::AlikeOld { entry, rep }),
    }
}

#[tactic(auto, unfolding(crate::specs::Forms::alike_new_in))]
fn alike_new(text: &[u8]) -> Option<Line>
    ensures { result ≡ alike_new_in text.now }
{
    match numbers_behind(text, b"alike new ") {
        None => None,
        Some((entry, rep)) => Some(Line::AlikeNew { entry, rep }),
    }
}

fn plain_pair(text: &[u8]) -> Option<Line>
    ensures { result ≡ plain_pair_in text.now }
{
    match numbers_behind(text, b"pair ") {
        None => None,
        Some((old, new)) => Some(Line::Pair {
            old,
            new,
            way: Way::Direct,
        }),
    }
}

#[tactic(auto, unfolding(crate::specs::Forms::way_in))]
fn way(text: &[u8]) -> Option<Way>
    ensures { result ≡ way_in text.now }
{
    if is_same(text, b"direct") {
        return Some(Way::Direct);
    }
    if is_same(text, b"pointer") {
        return Some(Way::Pointer);
    }
    None
}

// Two numbers and a way.
fn fields_of_pair(text: &[u8]) -> Option<Line>
    ensures { result ≡ pair_fields text.now }
{
    match number_then(text) {
        None => None,
        Some((old, rest)) => match number_then(rest) {
            None => None,
            Some((new, word)) => match way(word) {
                None => None,
                Some(way) => Some(Line::Pair { old, new, way }),
            },
        },
    }
}

#[tactic(auto, unfolding(crate::specs::Forms::pair_in))]
fn pair(version: Version, text: &[u8]) -> Option<Line>
    ensures { result ≡ pair_in version text.now }
{
    match version {
        Version::One => plain_pair(text),
        Version::Two => match behind(text, b"pair ") {
            None => None,
            Some(fields) => fields_of_pair(fields),
        },
    }
}

#[tactic(auto, unfolding(crate::specs::Forms::end_in))]
fn end(text: &[u8]) -> Option<Line>
    ensures { result ≡ end_in text.now }
{
    if is_same(text, b"end") {
        Some(Line::End)
    } else {
        None
    }
}

/// The meaning of a line after the first four, or `None` if it has no form.
#[tactic(auto, unfolding(crate::specs::Forms::form_of))]
pub fn form_of(version: Version, text: &[u8]) -> Option<Line>
    ensures { result ≡ spec.form_of version text.now }
{
    if let Some(line) = bind(text) {
        return Some(line);
    }
    if let Some(line) = alike_old(text) {
        return Some(line);
    }
    if let Some(line) = alike_new(text) {
        return Some(line);
    }
    if let Some(line) = pair(version, text) {
        return Some(line);
    }
    end(text)
}
