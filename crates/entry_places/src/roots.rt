// The attributes of unit roots that locate files.
ghost use Rattle.std.specs.Prelude.{◌≡◌, ◌<◌, length};
ghost use Rattle.entry_places.specs.Coordinates.{line_program_of};
ghost use Rattle.entry_places.specs.Coordinates as spec;

use crate::values::section_offset;
use dwarf_forms::Value;
use dwarf_tree::Tree;

// Attributes of units (DWARF 5, section 7.5.4 "Attribute Encodings").

const DW_AT_stmt_list: u64 = 0x10;

pub(crate) const DW_AT_comp_dir: u64 = 0x1b;

// The first value of an attribute of a unit's root.
pub(crate) fn of_root(tree: &Tree<'_>, unit: usize, name: u64) -> Option<Value>
    requires { unit < length tree.now.units }
    ensures { result ≡ spec.of_root tree.now unit name }
{
    tree.own(tree.root(unit), name)
}

// The offset of a unit's line program in `.debug_line`.
pub(crate) fn line_program(tree: &Tree<'_>, unit: usize) -> Option<u64>
    requires { unit < length tree.now.units }
    ensures { result ≡ line_program_of tree.now unit }
{
    section_offset(of_root(tree, unit, DW_AT_stmt_list))
}
