// The printed form of a name.
ghost use Rattle.std.specs.Prelude.{◌≡◌, ◌++◌, OnOk, string_bytes};
ghost use Rattle.std.specs.Option.{option_copied};
ghost use Rattle.abi_types.specs.Plain.{plain_export};
ghost use Rattle.abi_types.specs.Shown.{label, shown, shown_byte, shown_version};
ghost use Rattle.abi_types.specs.Shown as spec;

use crate::Export;
use std::alloc::{AllocError, Global};

// The visible ASCII characters.
const FIRST_VISIBLE: u8 = b'!';

const LAST_VISIBLE: u8 = b'~';

// Whether a byte is printed as itself.
fn is_plain(byte: u8) -> bool
    ensures { result ≡ spec.is_plain byte }
{
    FIRST_VISIBLE <= byte && byte <= LAST_VISIBLE && byte != b'\\'
}

// Appends the printed form of a byte.
fn push_byte(alloc: Global, text: &mut String, byte: u8) -> Result<(), AllocError>
    ensures { OnOk result (string_bytes text.new ≡ string_bytes text.old ++ shown_byte byte) }
{
    if is_plain(byte) {
        text.push(char::from(byte))
    } else {
        let digits = hex::encode(alloc, [byte].as_slice())?;
        text.push_str("\\x")?;
        text.push_str(digits.as_str())
    }
}

/// Appends the printed form of a name: visible ASCII characters except the backslash as they are, each other byte as `\x` and
/// two lower-case hexadecimal digits.
pub fn push_shown(alloc: Global, text: &mut String, name: &[u8]) -> Result<(), AllocError>
    ensures { OnOk result (string_bytes text.new ≡ string_bytes text.old ++ shown name.now) }
{
    for byte in name {
        push_byte(alloc, text, *byte)?;
    }
    Ok(())
}

// Appends the mark and the name of a version, if there is one.
fn push_version(
    alloc: Global,
    text: &mut String,
    hidden: bool,
    version: Option<&[u8]>,
) -> Result<(), AllocError>
    ensures { OnOk result (string_bytes text.new
        ≡ string_bytes text.old ++ shown_version hidden (option_copied version.entry)) }
{
    match version {
        None => Ok(()),
        Some(name) => {
            text.push_str(if hidden { "@" } else { "@@" })?;
            push_shown(alloc, text, name)
        }
    }
}

/// Appends the label of an export: the printed form of its name, and if it has a version, `@` (or `@@` for the default version
/// of its name) and the printed form of the version.
pub fn push_label(alloc: Global, text: &mut String, export: &Export) -> Result<(), AllocError>
    ensures { OnOk result (string_bytes text.new ≡ string_bytes text.old ++ label (plain_export export.now)) }
{
    push_shown(alloc, text, export.name)?;
    push_version(alloc, text, export.hidden, export.version)
}
