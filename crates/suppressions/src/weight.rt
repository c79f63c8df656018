// The weight of patterns.
ghost use Rattle.std.specs.Prelude.{◌≡◌, ◌==◌, ◌&&◌, ◌-◌, ◌^◌, not, min};
ghost use Rattle.std.specs.Char.{is_ascii_alphabetic};
ghost use Rattle.suppressions.specs.Weights as spec;

use suppression_text::{Property, Section};

// The weight of a pattern in addition to its bytes. The smallest compiled pattern takes some ten kilobytes.
const PATTERN_WEIGHT: usize = 64;

/// The weight of a class such as `\w` in addition to its two bytes. A Unicode class compiles to some twenty kilobytes.
pub const CLASS_WEIGHT: usize = 64;

// Whether a byte is an escaped letter.
fn is_escaped_letter(escaped: bool, byte: u8) -> bool
    ensures { result ≡ (escaped && is_ascii_alphabetic byte) }
{
    escaped && byte.is_ascii_alphabetic()
}

// Whether a byte escapes the next one.
fn escapes(escaped: bool, byte: u8) -> bool
    ensures { result ≡ (not escaped && byte == 92) }
{
    !escaped && byte == b'\\'
}

// The number of escaped letters in a pattern, each of which may stand for a class.
fn escaped_letters(text: &[u8]) -> usize
    ensures { result ≡ spec.escaped_letters text.now }
{
    let mut count = 0;
    let mut escaped = false;
    for byte in text {
        if is_escaped_letter(escaped, *byte) {
            count += 1;
        }
        escaped = escapes(escaped, *byte);
    }
    count
}

// The weight of a property, or the greatest number. A property without a pattern weighs nothing.
fn property_weight(property: &Property) -> usize
    ensures { result ≡ min (spec.property_weight property.now) (2 ^ 64 - 1) }
{
    if !property.has_pattern() {
        return 0;
    }
    let text = property.value();
    let letters = escaped_letters(text).saturating_mul(CLASS_WEIGHT);
    letters
        .saturating_add(PATTERN_WEIGHT)
        .saturating_add(text.len())
}

/// The weight of the patterns of a section, or the greatest number.
pub fn section_weight(section: &Section) -> usize
    ensures { result ≡ min (spec.section_weight section.now) (2 ^ 64 - 1) }
{
    let mut weight = 0usize;
    for property in section.properties() {
        weight = weight.saturating_add(property_weight(property));
    }
    weight
}

/// The weight of the patterns of all sections, or the greatest number.
pub fn weight_of(sections: &[Section]) -> usize
    ensures { result ≡ min (spec.weight_of sections.now) (2 ^ 64 - 1) }
{
    let mut weight = 0usize;
    for section in sections {
        weight = weight.saturating_add(section_weight(section));
    }
    weight
}
