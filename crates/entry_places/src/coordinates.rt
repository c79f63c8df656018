// Declaration coordinates of entries.
ghost use Rattle.std.specs.Prelude.{◌≡◌, ◌<◌, length, IfSome};
ghost use Rattle.entry_places.specs.Coordinates as spec;

use crate::values::{if_given, number_of};
use dwarf_forms::DebugInfoOffset;
use dwarf_tree::Tree;

// Attributes of declaration coordinates (DWARF 5, section 7.5.4 "Attribute Encodings").

const DW_AT_decl_file: u64 = 0x3a;

const DW_AT_decl_line: u64 = 0x3b;

// The number of a file in a unit's line program, and a line of that file.
#[derive(Clone, Copy)]
pub(crate) struct Coordinates {
    pub(crate) file: u64,
    pub(crate) line: u64,
    // the number of the unit
    pub(crate) unit: usize,
}

// The declaration coordinates of the entry at an offset.
#[tactic(auto, unfolding(crate::specs::Coordinates::coordinates_of))]
pub(crate) fn coordinates_of(tree: &Tree<'_>, offset: DebugInfoOffset) -> Option<Coordinates>
    ensures said { result ≡ spec.coordinates_of tree.now offset }
    ensures inside { IfSome result (λ c. c.unit < length tree.now.units) }
{
    tree.known();
    let Some(e) = tree.find(offset) else {
        return None;
    };
    let Some(file) = number_of(tree.own(e, DW_AT_decl_file)) else {
        return None;
    };
    let Some(number) = number_of(tree.own(e, DW_AT_decl_line)) else {
        return None;
    };
    let Some(line) = if_given(number) else {
        return None;
    };
    Some(Coordinates {
        file,
        line,
        unit: tree.unit(e),
    })
}
