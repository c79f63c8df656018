// How a run ended.
ghost use Rattle.std.specs.Prelude.{◌≡◌, ◌≤◌, [], length, map};
ghost use Rattle.abi_base.specs.Limits.{input_limit};
ghost use Rattle.commands.specs.Commands.{plain_file};
ghost use Rattle.explain.specs.Notes.{IsUnnamed};

use commands::{File, Input, Outcome, ReadInputs};
use explain::name_of;

/// The optional members that a document has.
#[derive(Clone, Copy)]
pub struct Wanted {
    /// The notes on differences that no rule judges: present if the environment variable `ABI_NOTES` is 1.
    pub notes: bool,
    /// The SHA-256 of the inputs: present unless the environment variable `ABI_DIGESTS` is 0.
    pub digests: bool,
}

/// How a run ended, and what the document has besides.
#[derive(Clone, Copy)]
pub struct Ending<'e> {
    /// The arguments of the command line.
    pub words: &'e [&'e str],
    /// How the run ended.
    pub outcome: Outcome,
    /// The inputs that were read, with their names.
    pub files: &'e [File<'e>],
    /// The text that `abi` prints, with the breaks as the JSON listener makes them.
    pub text: &'e [u8],
    /// The inputs that were read whole, with their bytes.
    pub read: &'e ReadInputs,
    /// The optional members of the document.
    pub wanted: Wanted,
}

/// The bytes of an input, as the run read them; none if it was not read under a name, or not whole.
pub fn input_bytes<'e>(ending: &Ending<'e>, which: Input) -> &'e [u8]
    ensures within { length result.now ≤ input_limit }
    ensures unnamed { IsUnnamed (map plain_file ending.now.files.now) which → result.now ≡ [] }
{
    if name_of(ending.files, which).is_none() {
        return &[];
    }
    match ending.read.bytes_of(which) {
        Some(bytes) => bytes,
        None => &[],
    }
}
