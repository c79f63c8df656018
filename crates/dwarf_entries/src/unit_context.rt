// The context of a unit, from the attributes of its root.
ghost use Rattle.std.specs.Prelude.{◌≡◌, ◌<◌, length};
ghost use Rattle.std.specs.Option.{option_copied};
ghost use Rattle.dwarf_entries.specs.Debug.{plain_sections, base_of, low_of, bases_of};
ghost use Rattle.dwarf_entries.specs.Debug as spec;
ghost use Rattle.dwarf_entries.specs.UnitContext.{debug, told_of};
ghost use Rattle.dwarf_text.specs.Texts.{address_of};

use abi_base::dwarf::{
    DW_AT_addr_base, DW_AT_language, DW_AT_low_pc, DW_AT_rnglists_base, DW_AT_str_offsets_base,
    DW_LANG_Mips_Assembler,
};
use dwarf_forms::{DebugInfoOffset, Sections, Value};
use dwarf_text::{Bases, address};
use dwarf_tree::Tree;

// What readers of a unit's entries use from the unit's root.
#[derive(Clone, Copy)]
pub(crate) struct UnitContext {
    pub bases: Bases,
    // whether the unit is written in assembler
    pub is_assembler: bool,
}

// The first value of an attribute of a unit's root.
fn root_own(tree: &Tree<'_>, unit: usize, name: u64) -> Option<Value>
    requires { unit < length tree.now.units }
    ensures { result ≡ spec.root_own tree.now unit name }
{
    tree.own(tree.root(unit), name)
}

// The offset into another section that a value holds.
fn section_offset(value: Option<Value>) -> Option<u64>
    ensures { result ≡ spec.section_offset value }
{
    match value {
        Some(Value::SectionOffset(place)) => Some(place),
        _ => None,
    }
}

// The base of a unit's part of another section.
fn base(tree: &Tree<'_>, unit: usize, name: u64) -> Option<u64>
    requires { unit < length tree.now.units }
    ensures { result ≡ base_of tree.now unit name }
{
    section_offset(root_own(tree, unit, name))
}

// The address of a value of a root, or 0.
fn address_or_zero(value: &Value, addr_base: Option<u64>, sections: &Sections) -> u64
    ensures { result ≡ spec.address_or_zero (address_of sections.now.addr.now addr_base 0 value.now) }
{
    let bases = Bases {
        str_offsets: None,
        addr: addr_base,
        rnglists: None,
        low: 0,
    };
    match address(value, &bases, sections, DebugInfoOffset::new(0)) {
        Ok(address) => address,
        Err(_) => 0,
    }
}

// The base address of a unit's ranges.
fn low(sections: &Sections, tree: &Tree<'_>, unit: usize) -> u64
    requires { unit < length tree.now.units }
    ensures { result ≡ low_of (debug (plain_sections sections.now) tree.now) unit }
{
    match root_own(tree, unit, DW_AT_low_pc) {
        Some(value) => address_or_zero(&value, base(tree, unit, DW_AT_addr_base), sections),
        None => 0,
    }
}

// The bases of a unit's parts of other sections.
#[tactic(auto, unfolding(crate::specs::Debug::bases_of))]
fn bases(sections: &Sections, tree: &Tree<'_>, unit: usize) -> Bases
    requires { unit < length tree.now.units }
    ensures { result ≡ bases_of (debug (plain_sections sections.now) tree.now) unit }
{
    Bases {
        str_offsets: base(tree, unit, DW_AT_str_offsets_base),
        addr: base(tree, unit, DW_AT_addr_base),
        rnglists: base(tree, unit, DW_AT_rnglists_base),
        low: low(sections, tree, unit),
    }
}

// Whether a value is this number.
fn is_number(number: u64, value: Option<Value>) -> bool
    ensures { result ≡ spec.is_number number value }
{
    match value {
        Some(Value::Unsigned(there)) => there == number,
        Some(Value::Signed(there)) => there >= 0 && there as u64 == number,
        _ => false,
    }
}

// Whether a unit is written in assembler.
#[tactic(auto, unfolding(crate::specs::Debug::is_assembler))]
fn is_assembler(tree: &Tree<'_>, unit: usize) -> bool
    requires { unit < length tree.now.units }
    ensures { result ≡ spec.is_assembler tree.now unit }
{
    is_number(DW_LANG_Mips_Assembler, root_own(tree, unit, DW_AT_language))
}

// The context of the unit with this number.
#[tactic(auto, unfolding(crate::specs::UnitContext::told_of))]
pub(crate) fn told_by_root(sections: &Sections, tree: &Tree<'_>, unit: usize) -> UnitContext
    requires { unit < length tree.now.units }
    ensures { result ≡ told_of (debug (plain_sections sections.now) tree.now) unit }
{
    UnitContext {
        bases: bases(sections, tree, unit),
        is_assembler: is_assembler(tree, unit),
    }
}
