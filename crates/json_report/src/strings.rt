// Strings of JSON.
ghost use Rattle.std.specs.Prelude.{◌≡◌, ◌<◌, ◌++◌, flat_map, IfErr, OnOk};
ghost use Rattle.abi_base.specs.declared.fault.NoMemory.TheVariants.{Allocation};
ghost use Rattle.json_report.specs.Strings.{escaped, string_text};
ghost use Rattle.json_report.specs.Strings as spec;

use abi_base::NoMemory;

// Appends bytes.
pub(crate) fn push(text: &mut Vec<u8>, bytes: &[u8]) -> Result<(), NoMemory>
    ensures appended { OnOk result (text.new.items ≡ text.old.items ++ bytes.now) }
    ensures named { IfErr result (λ e. e ≡ Allocation) }
{
    text.extend_from_slice(bytes)?;
    Ok(())
}

// A hexadecimal digit.
fn digit(number: u8) -> u8
    requires { number < 16 }
    ensures { result ≡ spec.digit number }
{
    if number < 10 {
        b'0' + number
    } else {
        b'W' + number
    }
}

// Appends a byte of a string.
#[tactic(auto, unfolding(crate::specs::Strings::escaped))]
pub(crate) fn push_escaped(text: &mut Vec<u8>, byte: u8) -> Result<(), NoMemory>
    ensures appended { OnOk result (text.new.items ≡ text.old.items ++ escaped byte) }
    ensures named { IfErr result (λ e. e ≡ Allocation) }
{
    if byte == b'"' || byte == b'\\' {
        return push(text, &[b'\\', byte]);
    }
    if byte < 32 {
        push(text, b"\\u00")?;
        return push(text, &[digit(byte / 16), digit(byte % 16)]);
    }
    push(text, &[byte])
}

// Appends the bytes of a string.
fn push_all_escaped(text: &mut Vec<u8>, bytes: &[u8]) -> Result<(), NoMemory>
    ensures appended { OnOk result (text.new.items ≡ text.old.items ++ flat_map escaped bytes.now) }
    ensures named { IfErr result (λ e. e ≡ Allocation) }
{
    for byte in bytes {
        push_escaped(text, *byte)?;
    }
    Ok(())
}

// Appends a string.
#[tactic(auto, unfolding(crate::specs::Strings::string_text))]
pub(crate) fn push_string(text: &mut Vec<u8>, bytes: &[u8]) -> Result<(), NoMemory>
    ensures appended { OnOk result (text.new.items ≡ text.old.items ++ string_text bytes.now) }
    ensures named { IfErr result (λ e. e ≡ Allocation) }
{
    push(text, b"\"")?;
    push_all_escaped(text, bytes)?;
    push(text, b"\"")
}
