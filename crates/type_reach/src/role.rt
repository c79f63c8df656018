// The roles of entries as types.
ghost use Rattle.std.specs.Prelude.{◌≡◌, ◌<◌, length};
ghost use Rattle.type_reach.specs.References as spec;

use abi_base::dwarf::{
    DW_AT_signature, DW_TAG_array_type, DW_TAG_atomic_type, DW_TAG_base_type, DW_TAG_const_type,
    DW_TAG_enumeration_type, DW_TAG_formal_parameter, DW_TAG_member, DW_TAG_pointer_type,
    DW_TAG_restrict_type, DW_TAG_structure_type, DW_TAG_subprogram, DW_TAG_subroutine_type,
    DW_TAG_typedef, DW_TAG_union_type, DW_TAG_variable, DW_TAG_volatile_type,
};
use dwarf_entries::Dwarf;
use dwarf_forms::Value;
use dwarf_tree::EntryNumber;

/// The role of an entry as a type.
#[derive(Clone, Copy, Debug, PartialEq, Eq)]
pub enum Role {
    /// It stands for another type: a typedef, a qualified type, a variable, or a reference to a type in a type unit.
    Wrapper,
    /// A structure or a union.
    Aggregate,
    /// A function or the type of one.
    Function,
    /// A member or a parameter, which is not a type itself.
    Part,
    /// A pointer.
    Pointer,
    /// An array, or a vector type of the machine.
    Array,
    /// An enumeration.
    Enumeration,
    /// A base type: an integer, a character, a Boolean or a floating-point number.
    Base,
    /// Any other entry. No type refers to it.
    Unknown,
}

#[tactic(auto, unfolding(crate::specs::References::may_be_signed))]
fn may_be_signed(tag: u64) -> bool
    ensures { result ≡ spec.may_be_signed tag }
{
    matches!(
        tag,
        DW_TAG_structure_type | DW_TAG_union_type | DW_TAG_enumeration_type
    )
}

// The role of an entry by its tag, unless a signature refers it to a type unit.
#[inline]
#[tactic(auto, unfolding(crate::specs::References::tag_role, crate::specs::References::is_passed_tag, crate::specs::References::is_aggregate_tag, crate::specs::References::is_function_tag, crate::specs::References::is_part_tag))]
fn tag_role(tag: u64) -> Role
    ensures { result ≡ spec.tag_role tag }
{
    match tag {
        DW_TAG_typedef
        | DW_TAG_const_type
        | DW_TAG_volatile_type
        | DW_TAG_restrict_type
        | DW_TAG_atomic_type
        | DW_TAG_variable => Role::Wrapper,
        DW_TAG_structure_type | DW_TAG_union_type => Role::Aggregate,
        DW_TAG_subprogram | DW_TAG_subroutine_type => Role::Function,
        DW_TAG_member | DW_TAG_formal_parameter => Role::Part,
        DW_TAG_pointer_type => Role::Pointer,
        DW_TAG_array_type => Role::Array,
        DW_TAG_enumeration_type => Role::Enumeration,
        DW_TAG_base_type => Role::Base,
        _ => Role::Unknown,
    }
}

fn is_signature(value: Option<Value>) -> bool
    ensures { result ≡ spec.is_signature value }
{
    match value {
        Some(Value::Signature(_)) => true,
        _ => false,
    }
}

/// Whether an entry refers by a signature to the definition of its type in a type unit.
#[tactic(auto, unfolding(crate::specs::References::is_signed))]
pub fn is_signed(dwarf: &Dwarf, e: EntryNumber) -> bool
    requires { e < length dwarf.now.tree.entries }
    ensures { result ≡ spec.is_signed dwarf.now.tree e }
{
    if may_be_signed(dwarf.tag(e)) {
        is_signature(dwarf.attr(e, DW_AT_signature))
    } else {
        false
    }
}

/// The role of an entry. A structure, a union or an enumeration with a signature stands for the type of that type unit.
#[tactic(auto, unfolding(crate::specs::References::role_of))]
pub fn role_of(dwarf: &Dwarf, e: EntryNumber) -> Role
    requires { e < length dwarf.now.tree.entries }
    ensures { result ≡ spec.role_of dwarf.now.tree e }
{
    if is_signed(dwarf, e) {
        Role::Wrapper
    } else {
        tag_role(dwarf.tag(e))
    }
}
