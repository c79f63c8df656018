// Debug information from bytes that are given in rows.
ghost use Rattle.std.specs.Prelude.{◌≤◌, length};
ghost use Rattle.abi_base.specs.Limits.{input_limit};

use abi_base::{INPUT_LIMIT, Refusal};
use dwarf_entries::{Dwarf, tree};
use dwarf_forms::Sections;
use std::alloc::Global;

// The bytes, or none if they exceed the limit of an input.
fn within_limit(bytes: &[u8]) -> &[u8]
    ensures { length result.now ≤ input_limit }
{
    if bytes.len() > INPUT_LIMIT {
        &[]
    } else {
        bytes
    }
}

// The tree of these entries, with these abbreviations.
pub(crate) fn dwarf<'a>(
    alloc: Global,
    abbrev: &'a [u8],
    info: &'a [u8],
) -> Result<Dwarf<'a>, Refusal> {
    tree(
        alloc,
        Sections {
            info: within_limit(info),
            abbrev: within_limit(abbrev),
            str: b"",
            line_str: b"",
            str_offsets: b"",
            addr: b"",
            rnglists: b"",
            ranges: b"",
        },
    )
}
