// The types to which entries lead, and their parts.
ghost use Rattle.std.specs.Prelude.{◌≡◌, ◌<◌, length, All, IfErr, IfOk, IfSome};
ghost use Rattle.abi_base.specs.declared.fault.NoMemory.TheVariants.{Allocation};
ghost use Rattle.type_reach.specs.References as spec;
ghost use Rattle.type_reach.specs.Views as views;

use crate::role::{Role, is_signed, role_of};
use abi_base::NoMemory;
use abi_base::dwarf::{
    DW_AT_signature, DW_AT_type, DW_TAG_formal_parameter, DW_TAG_member, DW_TAG_subprogram,
    DW_TAG_unspecified_parameters,
};
use dwarf_entries::Dwarf;
use dwarf_tree::EntryNumber;
use std::alloc::Global;

/// The type of an entry, its own or inherited, or None for void.
#[tactic(auto, unfolding(crate::specs::References::type_of))]
pub fn type_of(dwarf: &Dwarf, e: EntryNumber) -> Option<EntryNumber>
    requires { e < length dwarf.now.tree.entries }
    ensures found { result ≡ spec.type_of dwarf.now.tree e }
    ensures inside { IfSome result (λ f. f < length dwarf.now.tree.entries) }
{
    let name = if is_signed(dwarf, e) {
        DW_AT_signature
    } else {
        DW_AT_type
    };
    dwarf.attr_target(e, name)
}

/// The entry whose children are the parameters of a function: for a subprogram, the last entry of its chain.
#[tactic(auto, unfolding(crate::specs::References::body_of))]
pub fn body_of(dwarf: &Dwarf, e: EntryNumber) -> EntryNumber
    requires { e < length dwarf.now.tree.entries }
    ensures found { result ≡ spec.body_of dwarf.now.tree e }
    ensures inside { result < length dwarf.now.tree.entries }
{
    if dwarf.tag(e) == DW_TAG_subprogram {
        dwarf.origin(e)
    } else {
        e
    }
}

/// The members of a structure or a union, even of a declaration, or the parameters of a function, in order.
#[tactic(auto, unfolding(crate::specs::References::parts_of, crate::specs::References::tagged_children))]
pub(crate) fn parts_of(
    alloc: Global,
    dwarf: &Dwarf,
    e: EntryNumber,
    role: Role,
) -> Result<Vec<EntryNumber>, NoMemory>
    requires inside { e < length dwarf.now.tree.entries }
    requires role { role ≡ spec.role_of dwarf.now.tree e }
    ensures parts { IfOk result (λ list. list.items ≡ spec.parts_of dwarf.now.tree e) }
    ensures inside { IfOk result (λ list. All (λ c. c < length dwarf.now.tree.entries) list.items) }
    ensures named { IfErr result (λ e. e ≡ Allocation) }
{
    match role {
        Role::Aggregate => dwarf.tagged(alloc, e, DW_TAG_member),
        Role::Function => dwarf.tagged(alloc, body_of(dwarf, e), DW_TAG_formal_parameter),
        _ => Ok(Vec::new(alloc)),
    }
}

/// Whether an entry is a function that takes variable arguments.
#[tactic(auto, unfolding(crate::specs::References::tagged_children))]
pub(crate) fn is_variadic(
    alloc: Global,
    dwarf: &Dwarf,
    e: EntryNumber,
    role: Role,
) -> Result<bool, NoMemory>
    requires inside { e < length dwarf.now.tree.entries }
    requires role { role ≡ spec.role_of dwarf.now.tree e }
    ensures further { IfOk result (λ further. further ≡ views.is_variadic dwarf.now.tree e) }
    ensures named { IfErr result (λ e. e ≡ Allocation) }
{
    match role {
        Role::Function => {
            let further = dwarf.tagged(alloc, body_of(dwarf, e), DW_TAG_unspecified_parameters)?;
            Ok(!further.is_empty())
        }
        _ => Ok(false),
    }
}

/// The members among an entry's parts. A declaration has none.
#[tactic(auto, unfolding(crate::specs::References::members_of))]
pub fn members_among<'p>(
    dwarf: &Dwarf,
    e: EntryNumber,
    role: Role,
    parts: &'p [EntryNumber],
) -> &'p [EntryNumber]
    requires inside { e < length dwarf.now.tree.entries }
    requires role { role ≡ spec.role_of dwarf.now.tree e }
    requires parts { parts.now ≡ spec.parts_of dwarf.now.tree e }
    requires parts_inside { All (λ c. c < length dwarf.now.tree.entries) parts.now }
    ensures members { result.now ≡ spec.members_of dwarf.now.tree e }
    ensures inside { All (λ c. c < length dwarf.now.tree.entries) result.now }
{
    match role {
        Role::Aggregate => { if dwarf.is_declaration(e) { &[] } else { parts } }
        _ => &[],
    }
}

/// The types that an entry holds by value, among those to which it leads.
#[tactic(auto, unfolding(crate::specs::References::steps_of))]
pub(crate) fn steps_among<'l>(
    dwarf: &Dwarf,
    e: EntryNumber,
    role: Role,
    types: &'l [Option<EntryNumber>],
) -> &'l [Option<EntryNumber>]
    requires role { role ≡ spec.role_of dwarf.now.tree e }
    requires types { types.now ≡ spec.types_of dwarf.now.tree e }
    ensures { result.now ≡ spec.steps_of dwarf.now.tree e }
{
    if holds_none(role) { &[] } else { types }
}

/// Whether an entry with this role has a type itself.
pub(crate) fn has_type(role: Role) -> bool
    ensures { result ≡ spec.has_type role }
{
    matches!(
        role,
        Role::Wrapper | Role::Function | Role::Part | Role::Pointer | Role::Array
    )
}

/// Whether an entry with this role holds no type by value.
pub(crate) fn holds_none(role: Role) -> bool
    ensures { result ≡ spec.holds_none role }
{
    matches!(role, Role::Pointer | Role::Part)
}
