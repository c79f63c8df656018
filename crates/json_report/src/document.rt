// JSON objects with one more member.
ghost use Rattle.std.specs.Prelude.{◌≡◌, IfOk};
ghost use Rattle.json_report.specs.Breaks as spec;

use crate::strings::push;
use abi_base::NoMemory;
use std::alloc::Global;

/// An object with one more member at its end. `opened` is the text of an object that has members, without its closing brace;
/// `value` is the text of the member's value, which is copied byte by byte.
#[tactic(auto, unfolding(crate::specs::Breaks::with_member))]
pub fn with_member(
    alloc: Global,
    opened: &[u8],
    name: &str,
    value: &[u8],
) -> Result<Vec<u8>, NoMemory>
    ensures { IfOk result (λ text. text.items ≡ spec.with_member opened.now name.now value.now) }
{
    let mut text = Vec::from_slice(alloc, opened)?;
    push(&mut text, b",\n\"")?;
    push(&mut text, name.as_bytes())?;
    push(&mut text, b"\":")?;
    push(&mut text, value)?;
    push(&mut text, b"}\n")?;
    Ok(text)
}
