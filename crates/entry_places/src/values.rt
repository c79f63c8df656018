// Attribute values as numbers.
ghost use Rattle.std.specs.Prelude.{◌≡◌};
ghost use Rattle.entry_places.specs.Coordinates.{section_offset_of};
ghost use Rattle.entry_places.specs.Coordinates as spec;

use dwarf_forms::Value;

// A nonnegative constant.
pub(crate) fn number_of(value: Option<Value>) -> Option<u64>
    ensures { result ≡ spec.number_of value }
{
    match value {
        Some(Value::Unsigned(number)) => Some(number),
        Some(Value::Signed(number)) if number >= 0 => Some(number as u64),
        _ => None,
    }
}

// The offset into another section that a value holds.
pub(crate) fn section_offset(value: Option<Value>) -> Option<u64>
    ensures { result ≡ section_offset_of value }
{
    match value {
        Some(Value::SectionOffset(place)) => Some(place),
        _ => None,
    }
}

// A line number, unless it is 0, which means none.
pub(crate) fn if_given(line: u64) -> Option<u64>
    ensures { result ≡ spec.if_given line }
{
    if line == 0 { None } else { Some(line) }
}
