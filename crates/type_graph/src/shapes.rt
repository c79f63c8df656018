// Whether entries have the shape of types.
ghost use Rattle.std.specs.Prelude.{◌≡◌, ◌<◌, length, All, IfOk, IfSome, IfErr};
ghost use Rattle.abi_base.specs.declared.fault.NoMemory.TheVariants.{Allocation};
ghost use Rattle.std.specs.List.{list_all};
ghost use Rattle.type_reach.specs.References.{tagged_children};
ghost use Rattle.type_reach.specs.References as references;
ghost use Rattle.type_reach.specs.Values as values;
ghost use Rattle.type_reach.specs.Shapes.{has_shape_for};
ghost use Rattle.type_reach.specs.Shapes as shapes;

use crate::enumerations::{good_enumerators, group_of_encoding};
use crate::limits::VALUE_LIMIT;
use abi_base::NoMemory;
use abi_base::dwarf::{
    DW_AT_alignment, DW_AT_bit_offset, DW_AT_bit_size, DW_AT_byte_size, DW_AT_data_bit_offset,
    DW_AT_data_member_location, DW_TAG_array_type, DW_TAG_atomic_type, DW_TAG_base_type,
    DW_TAG_const_type, DW_TAG_enumeration_type, DW_TAG_pointer_type, DW_TAG_restrict_type,
    DW_TAG_structure_type, DW_TAG_subroutine_type, DW_TAG_typedef, DW_TAG_union_type,
    DW_TAG_volatile_type,
};
use dwarf_entries::Dwarf;
use dwarf_tree::EntryNumber;
use std::alloc::Global;
use type_reach::constants::POINTER_SIZE;
use type_reach::{Role, is_there, natural_of, place_of, role_of};

#[tactic(auto, unfolding(type_reach::specs::Shapes::is_type_tag))]
fn is_type_tag(tag: u64) -> bool
    ensures { result ≡ shapes.is_type_tag tag }
{
    matches!(
        tag,
        DW_TAG_array_type
            | DW_TAG_enumeration_type
            | DW_TAG_pointer_type
            | DW_TAG_structure_type
            | DW_TAG_subroutine_type
            | DW_TAG_typedef
            | DW_TAG_union_type
            | DW_TAG_base_type
            | DW_TAG_const_type
            | DW_TAG_volatile_type
            | DW_TAG_restrict_type
            | DW_TAG_atomic_type
    )
}

fn is_type(dwarf: &Dwarf, ty: Option<EntryNumber>) -> bool
    requires { IfSome ty (λ e. e < length dwarf.now.tree.entries) }
    ensures { result ≡ shapes.is_type dwarf.now.tree ty }
{
    match ty {
        Some(e) => is_type_tag(dwarf.tag(e)),
        None => true,
    }
}

// Whether all of these are types.
fn are_types(dwarf: &Dwarf, types: &[Option<EntryNumber>]) -> bool
    requires { All (λ ty. IfSome ty (λ e. e < length dwarf.now.tree.entries)) types.now }
    ensures { result ≡ list_all (shapes.is_type dwarf.now.tree) types.now }
{
    types.iter().all(|ty| is_type(dwarf, *ty))
}

// Whether a number is from 0 to 2^63 - 1.
fn is_small(number: Option<u64>) -> bool
    ensures { result ≡ values.is_small number }
{
    match number {
        Some(number) => number < VALUE_LIMIT,
        None => false,
    }
}

// Whether an attribute is missing, or is a constant from 0 to 2^63 - 1.
fn is_natural_small(dwarf: &Dwarf, e: EntryNumber, name: u64) -> bool
    requires { e < length dwarf.now.tree.entries }
    ensures { result ≡ shapes.is_natural_small dwarf.now.tree e name }
{
    match dwarf.attr(e, name) {
        Some(value) => is_small(natural_of(Some(value))),
        None => true,
    }
}

#[tactic(auto, unfolding(type_reach::specs::Shapes::has_size))]
fn has_size(dwarf: &Dwarf, e: EntryNumber) -> bool
    requires { e < length dwarf.now.tree.entries }
    ensures { result ≡ shapes.has_size dwarf.now.tree e }
{
    is_there(dwarf, e, DW_AT_byte_size) && is_natural_small(dwarf, e, DW_AT_byte_size)
}

// Whether a pointer's size is that of an address, or left out.
#[tactic(auto, unfolding(type_reach::specs::Shapes::has_pointer_size))]
fn has_pointer_size(dwarf: &Dwarf, e: EntryNumber) -> bool
    requires { e < length dwarf.now.tree.entries }
    ensures { result ≡ shapes.has_pointer_size dwarf.now.tree e }
{
    if !is_there(dwarf, e, DW_AT_byte_size) {
        return true;
    }
    match natural_of(dwarf.attr(e, DW_AT_byte_size)) {
        Some(size) => size == POINTER_SIZE,
        None => false,
    }
}

#[tactic(auto, unfolding(type_reach::specs::Shapes::has_byte))]
fn has_byte(dwarf: &Dwarf, m: EntryNumber) -> bool
    requires { m < length dwarf.now.tree.entries }
    ensures { result ≡ shapes.has_byte dwarf.now m }
{
    match dwarf.attr(m, DW_AT_data_member_location) {
        Some(value) => is_small(place_of(dwarf, Some(value))),
        None => true,
    }
}

// Whether the attributes that place a member can be read.
#[tactic(auto, unfolding(type_reach::specs::Shapes::has_place))]
fn has_place(dwarf: &Dwarf, m: EntryNumber) -> bool
    requires { m < length dwarf.now.tree.entries }
    ensures { result ≡ shapes.has_place dwarf.now m }
{
    if is_there(dwarf, m, DW_AT_data_bit_offset) {
        return is_natural_small(dwarf, m, DW_AT_data_bit_offset);
    }
    if is_there(dwarf, m, DW_AT_bit_offset) {
        is_natural_small(dwarf, m, DW_AT_bit_offset)
            && is_natural_small(dwarf, m, DW_AT_byte_size)
            && has_byte(dwarf, m)
    } else {
        has_byte(dwarf, m)
    }
}

// Whether a bit field has a width.
#[tactic(auto, unfolding(type_reach::specs::Shapes::has_width))]
fn has_width(dwarf: &Dwarf, m: EntryNumber) -> bool
    requires { m < length dwarf.now.tree.entries }
    ensures { result ≡ shapes.has_width dwarf.now.tree m }
{
    if !is_natural_small(dwarf, m, DW_AT_bit_size) {
        return false;
    }
    match natural_of(dwarf.attr(m, DW_AT_bit_size)) {
        Some(width) => width != 0,
        None => true,
    }
}

#[tactic(auto, unfolding(type_reach::specs::Shapes::is_good_member))]
fn is_good_member(dwarf: &Dwarf, m: EntryNumber) -> bool
    requires { m < length dwarf.now.tree.entries }
    ensures { result ≡ shapes.is_good_member dwarf.now m }
{
    has_place(dwarf, m) && has_width(dwarf, m) && is_natural_small(dwarf, m, DW_AT_alignment)
}

// Whether all of these are members that can be read.
fn are_good_members(dwarf: &Dwarf, members: &[EntryNumber]) -> bool
    requires { All (λ m. m < length dwarf.now.tree.entries) members.now }
    ensures { result ≡ list_all (shapes.is_good_member dwarf.now) members.now }
{
    members.iter().all(|m| is_good_member(dwarf, *m))
}

// Whether an entry that is no declaration has a size.
fn has_size_unless_declared(dwarf: &Dwarf, e: EntryNumber) -> bool
    requires { e < length dwarf.now.tree.entries }
    ensures { result ≡ shapes.has_size_unless_declared dwarf.now.tree e }
{
    dwarf.is_declaration(e) || has_size(dwarf, e)
}

// Whether the attributes of an entry of a role can be read.
fn has_shape_of_role(
    alloc: Global,
    dwarf: &Dwarf,
    e: EntryNumber,
    role: Role,
    parts: &[EntryNumber],
) -> Result<bool, NoMemory>
    requires inside { e < length dwarf.now.tree.entries }
    requires parts { parts.now ≡ references.parts_of dwarf.now.tree e }
    requires parts_inside { All (λ p. p < length dwarf.now.tree.entries) parts.now }
    ensures good { IfOk result (λ good. good ≡ has_shape_for role dwarf.now e) }
    ensures named { IfErr result (λ e. e ≡ Allocation) }
{
    match role {
        Role::Base => Ok(has_size(dwarf, e) && group_of_encoding(dwarf, e).is_some()),
        Role::Pointer => Ok(has_pointer_size(dwarf, e)),
        Role::Enumeration => {
            let good = good_enumerators(alloc, dwarf, e)?;
            Ok(has_size_unless_declared(dwarf, e) && good)
        }
        Role::Aggregate => Ok(has_size_unless_declared(dwarf, e) && are_good_members(dwarf, parts)),
        _ => Ok(true),
    }
}

/// Whether an entry has the shape of a type: each type that it refers to is a type, and its attributes can be read.
#[tactic(auto, unfolding(type_reach::specs::Shapes::has_shape))]
pub(crate) fn has_shape(
    alloc: Global,
    dwarf: &Dwarf,
    e: EntryNumber,
    parts: &[EntryNumber],
    types: &[Option<EntryNumber>],
) -> Result<bool, NoMemory>
    requires inside { e < length dwarf.now.tree.entries }
    requires parts { parts.now ≡ references.parts_of dwarf.now.tree e }
    requires parts_inside { All (λ p. p < length dwarf.now.tree.entries) parts.now }
    requires types { types.now ≡ references.types_of dwarf.now.tree e }
    requires types_inside { All (λ ty. IfSome ty (λ f. f < length dwarf.now.tree.entries)) types.now }
    ensures good { IfOk result (λ good. good ≡ shapes.has_shape dwarf.now e) }
    ensures named { IfErr result (λ e. e ≡ Allocation) }
{
    let good = has_shape_of_role(alloc, dwarf, e, role_of(dwarf, e), parts)?;
    Ok(are_types(dwarf, types) && good && is_natural_small(dwarf, e, DW_AT_alignment))
}
