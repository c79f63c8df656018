// The addresses of functions and variables.
ghost use Rattle.std.specs.Prelude.{◌≡◌, ◌<◌, ◌-◌, ◌^◌, length, take, drop, Some, None, Ok};
ghost use Rattle.std.specs.Option.{option_copied};
ghost use Rattle.dwarf_tree.specs.Trees.{own_of};
ghost use Rattle.abi_base.specs.Dwarf.{dw_at_low_pc, dw_at_ranges, dw_at_entry_pc, dw_at_location};
ghost use Rattle.dwarf_entries.specs.Debug.{address_at_entry};
ghost use Rattle.dwarf_entries.specs.Addresses.{where_there, low_pc_of, first_range_of, base_address_of, moved_by, entered_at, indexed_by, operand_of, location_of, variable_address_of, address_of_entry, or_none, entry_address_of, is_declared_only as only_declares, is_defined as defines};
ghost use Rattle.dwarf_entries.specs.Addresses as spec;

use crate::constants::{ADDRESS_OPERATION, BELOW_ROOT, DW_OP_addr, DW_OP_addrx};
use crate::source::Source;
use abi_base::dwarf::{
    DW_AT_declaration, DW_AT_entry_pc, DW_AT_location, DW_AT_low_pc, DW_AT_ranges,
    DW_TAG_subprogram, DW_TAG_variable,
};
use abi_base::{Fault, u64_in, uleb};
use dwarf_forms::Value;
use dwarf_text::ranges::{ListAt, first_address};
use dwarf_tree::{EntryNumber, Tree};
use dwarf_units::constants::DWARF_4;

// The address of a value of an entry, if there is a value.
pub(crate) fn address_where_there(
    source: &Source,
    e: EntryNumber,
    value: Option<Value>,
) -> Result<Option<u64>, Fault>
    requires { e < length source.now.tree.entries }
    ensures { result ≡ where_there (address_at_entry source.now e) value }
{
    match value {
        Some(value) => match source.address(e, &value) {
            Ok(address) => Ok(Some(address)),
            Err(fault) => Err(fault),
        },
        None => Ok(None),
    }
}

// The address of an entry's `DW_AT_low_pc`.
#[tactic(auto, unfolding(crate::specs::Addresses::low_pc_of))]
pub(crate) fn low_pc(source: &Source, e: EntryNumber) -> Result<Option<u64>, Fault>
    requires { e < length source.now.tree.entries }
    ensures { result ≡ low_pc_of source.now e }
{
    address_where_there(source, e, source.tree().own(e, DW_AT_low_pc))
}

// The range list to which a value refers.
pub(crate) fn list_of(version: u16, value: Option<Value>) -> Option<ListAt>
    ensures { result ≡ spec.list_of version value }
{
    match value {
        Some(Value::SectionOffset(place)) => {
            if version == DWARF_4 {
                Some(ListAt::Pairs(place))
            } else {
                Some(ListAt::Offset(place))
            }
        }
        Some(Value::RangeIndex(index)) => Some(ListAt::Index(index)),
        _ => None,
    }
}

// The start of the first range of an entry's list.
#[tactic(auto, unfolding(crate::specs::UnitContext::told_of))]
fn first_of_list(source: &Source, e: EntryNumber, list: ListAt) -> Result<Option<u64>, Fault>
    requires { e < length source.now.tree.entries }
    ensures { result ≡ spec.first_of_list source.now e (Some list) }
{
    let said = source.told(e);
    first_address(
        list,
        &said.bases,
        &source.sections(),
        source.tree().offset(e),
    )
}

// The start of the first range of an entry's `DW_AT_ranges`.
#[tactic(auto, unfolding(crate::specs::Addresses::first_range_of))]
pub(crate) fn first_range(source: &Source, e: EntryNumber) -> Result<Option<u64>, Fault>
    requires { e < length source.now.tree.entries }
    ensures { result ≡ first_range_of source.now e }
{
    match list_of(source.version(e), source.tree().own(e, DW_AT_ranges)) {
        Some(list) => first_of_list(source, e, list),
        None => Ok(None),
    }
}

// The base address of an entry.
fn base_address(source: &Source, e: EntryNumber) -> Result<Option<u64>, Fault>
    requires { e < length source.now.tree.entries }
    ensures { result ≡ base_address_of source.now e }
{
    match low_pc(source, e) {
        Ok(Some(low)) => Ok(Some(low)),
        Ok(None) => first_range(source, e),
        Err(fault) => Err(fault),
    }
}

// The address at an offset from an entry's base address.
fn behind_base(source: &Source, e: EntryNumber, distance: u64) -> Result<Option<u64>, Fault>
    requires { e < length source.now.tree.entries }
    ensures { result ≡ moved_by distance (2 ^ 64) (base_address_of source.now e) }
{
    match base_address(source, e) {
        Ok(Some(base)) => Ok(Some(base.wrapping_add(distance))),
        other => other,
    }
}

// The entry address of a function, from its `DW_AT_entry_pc`.
fn entry_by(source: &Source, e: EntryNumber, entry_pc: Option<Value>) -> Result<Option<u64>, Fault>
    requires { e < length source.now.tree.entries }
    ensures { result ≡ entered_at source.now e entry_pc }
{
    match entry_pc {
        Some(Value::Address(_)) => address_where_there(source, e, entry_pc),
        Some(Value::AddressIndex(_)) => address_where_there(source, e, entry_pc),
        Some(Value::Unsigned(distance)) => behind_base(source, e, distance),
        Some(Value::Signed(distance)) => behind_base(source, e, distance.cast_unsigned()),
        _ => base_address(source, e),
    }
}

// The index of an address, if it ends where its expression does.
fn indexed(read: Option<(u64, usize)>, end: usize) -> Option<Value>
    ensures { result ≡ indexed_by read end }
{
    match read {
        Some((index, after)) => {
            if after == end {
                Some(Value::AddressIndex(index))
            } else {
                None
            }
        }
        None => None,
    }
}

// The address in an expression of one operation.
fn operand(bytes: &[u8]) -> Option<Value>
    ensures { result ≡ operand_of bytes.now }
{
    let operation = match bytes.first() {
        Some(first) => *first,
        None => return None,
    };
    if operation == DW_OP_addr && bytes.len() == ADDRESS_OPERATION {
        return Some(Value::Address(u64_in(bytes, 1)));
    }
    if operation == DW_OP_addrx {
        return indexed(uleb(bytes, 1), bytes.len());
    }
    None
}

// The bytes from one offset up to another that are inside the section.
pub(crate) fn part(bytes: &[u8], from: u64, to: u64) -> &[u8]
    ensures { result.now ≡ take (to - from) (drop from bytes.now) }
{
    if from > bytes.len() as u64 {
        return &[];
    }
    let rest = &bytes[from as usize..];
    let size = to.saturating_sub(from);
    if size < rest.len() as u64 {
        &rest[..size as usize]
    } else {
        rest
    }
}

// The address in a location.
fn location(info: &[u8], value: Option<Value>) -> Option<Value>
    ensures { result ≡ location_of info.now value }
{
    match value {
        Some(Value::Block { from, to }) => operand(part(info, from, to)),
        _ => None,
    }
}

// The address of a variable.
#[tactic(auto, unfolding(crate::specs::Addresses::variable_address_of))]
pub(crate) fn variable_address(source: &Source, e: EntryNumber) -> Result<Option<u64>, Fault>
    requires { e < length source.now.tree.entries }
    ensures { result ≡ variable_address_of source.now e }
{
    let said = location(source.sections().info, source.tree().own(e, DW_AT_location));
    address_where_there(source, e, said)
}

// The address of a function's entry point or of a variable.
#[tactic(auto, unfolding(crate::specs::Addresses::address_of_entry))]
fn address(source: &Source, e: EntryNumber) -> Result<Option<u64>, Fault>
    requires { e < length source.now.tree.entries }
    ensures { result ≡ address_of_entry source.now e }
{
    let tag = source.tree().tag(e);
    if tag == DW_TAG_subprogram {
        return entry_by(source, e, source.tree().own(e, DW_AT_entry_pc));
    }
    if tag == DW_TAG_variable {
        return variable_address(source, e);
    }
    Ok(None)
}

// The address of an entry, or None where it has a fault.
pub(crate) fn entry_address(source: &Source, e: EntryNumber) -> Option<u64>
    requires { e < length source.now.tree.entries }
    ensures { result ≡ entry_address_of source.now e }
{
    match address(source, e) {
        Ok(address) => address,
        Err(_) => None,
    }
}

// Whether there is a flag and it is set.
pub(crate) fn is_true(value: Option<Value>) -> bool
    ensures { result ≡ spec.is_true value }
{
    match value {
        Some(value) => value.holds(),
        None => false,
    }
}

// Whether an entry itself has a flag that marks it as a declaration.
pub(crate) fn is_declared_only(tree: &Tree<'_>, e: EntryNumber) -> bool
    requires { e < length tree.now.entries }
    ensures { result ≡ only_declares tree.now e }
{
    is_true(tree.own(e, DW_AT_declaration))
}

// Whether an entry is a function or a variable directly in its unit, and is not a declaration.
#[tactic(auto, unfolding(crate::specs::Addresses::is_defined))]
pub(crate) fn is_defined(tree: &Tree<'_>, e: EntryNumber) -> bool
    requires { e < length tree.now.entries }
    ensures { result ≡ defines tree.now e }
{
    if tree.depth(e) != BELOW_ROOT {
        return false;
    }
    let tag = tree.tag(e);
    if tag != DW_TAG_subprogram && tag != DW_TAG_variable {
        return false;
    }
    !is_declared_only(tree, e)
}
