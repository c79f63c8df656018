// The parts of cores: members, parameters, enumerators, and the type behind a pointer or an array.
ghost use Rattle.std.specs.Prelude.{◌≡◌, ◌<◌, ◌∷◌, true, false, length, map, slice_get, All, Contains, Some, IfOk, IfSome, IfErr};
ghost use Rattle.abi_base.specs.declared.fault.NoMemory.TheVariants.{Allocation};
ghost use Rattle.std.specs.List.{list_any};
ghost use Rattle.abi_types.specs.Parts.{plain_part};
ghost use Rattle.abi_types.specs.Types.{Outcome};
ghost use Rattle.type_reach.specs.declared.role.Role.TheVariants as role;
ghost use Rattle.type_reach.specs.References.{has_type};
ghost use Rattle.type_reach.specs.References as references;
ghost use Rattle.type_reach.specs.ByValue.{IsClosed};
ghost use Rattle.type_reach.specs.TypeReferences.{AreTypeReferences};
ghost use Rattle.type_reach.specs.Placement.{is_out_of_range};
ghost use Rattle.type_reach.specs.Summaries.{AreSummaries};
ghost use Rattle.type_reach.specs.PeeledCores.{StandsForNone};
ghost use Rattle.type_reach.specs.Flat.{flat_of};
ghost use Rattle.type_reach.specs.Sizes.{begins_beyond};
ghost use Rattle.type_reach.specs.Views.{member_part, param_part, enumerator_part, parts_under};
ghost use Rattle.type_reach.specs.Views as views;
ghost use Rattle.type_graph.specs.Nodes.{number_in};
ghost use Rattle.type_graph.specs.Placed.{plain_members};

use crate::flatten::{Placed, push_flat};
use crate::judged::JudgedTypes;
use crate::labels::name_or_empty;
use abi_base::NoMemory;
use abi_base::dwarf::{DW_AT_const_value, DW_TAG_enumerator};
use abi_types::{Index, Part, Parts};
use dwarf_entries::Dwarf;
use dwarf_tree::EntryNumber;
use std::alloc::Global;
use type_reach::laws::laws_of_types;
use type_reach::{
    ReachedEntries, Role, Start, own_type, part_type, parts_at, types_at, wrapped_of,
};

// The index of a type's node: void comes first, then the entries in the order of their numbers.
fn node_of<Ix: Index>(found: &ReachedEntries, ty: Option<EntryNumber>) -> Ix
    requires { IfSome ty (λ e. Contains found.now e) }
    ensures { Ix.number_of result ≡ number_in found.now ty }
{
    match ty {
        None => Ix::of(0),
        Some(e) => {
            let _many = found.len();
            match found.number(e) {
                Some(number) => Ix::of(number + 1),
                None => unreachable!(),
            }
        }
    }
}

// The number of a bit that is in range.
fn bit_number(bit: i128) -> u64
    requires { is_out_of_range bit ≡ false }
    ensures { result ≡ views.bit_number bit }
{
    u64::try_from(bit).unwrap_or(0)
}

// The members as parts.
fn member_parts<'a, Ix: Index>(
    alloc: Global,
    found: &ReachedEntries,
    members: &[Placed<'a>],
) -> Result<Vec<Part<'a, Ix>>, NoMemory>
    requires near { All (λ m. is_out_of_range m.bit ≡ false) members.now }
    requires there { All (λ m. IfSome m.to (λ e. Contains found.now e)) members.now }
    ensures parts { IfOk result (λ parts. map (plain_part Ix.number_of) parts.items
        ≡ map (member_part (number_in found.now)) (plain_members members.now)) }
    ensures named { IfErr result (λ e. e ≡ Allocation) }
{
    let mut parts = Vec::with_capacity(alloc, members.len())?;
    'members: for k in 0..members.len() {
        let member = &members[k];
        parts.push(Part::Member {
            name: member.name,
            bit: bit_number(member.bit),
            width: member.width,
            to: node_of(found, member.to),
        })?;
    }
    Ok(parts)
}

// The parts of a structure or a union.
fn aggregate_parts<'a, Ix: Index>(
    alloc: Global,
    types: &JudgedTypes<'_, 'a>,
    c: EntryNumber,
) -> Result<Vec<Part<'a, Ix>>, NoMemory>
    requires closed { IsClosed types.now.dwarf.now.tree types.now.found.now }
    requires leads { AreTypeReferences types.now.dwarf.now.tree types.now.found.now types.now.leads.now }
    requires summaries { AreSummaries types.now.dwarf.now types.now.found.now types.now.summaries.now }
    requires there { Contains types.now.found.now c }
    requires last { StandsForNone types.now.dwarf.now c }
    requires near { list_any begins_beyond (flat_of types.now.dwarf.now (Some c)) ≡ false }
    ensures parts { IfOk result (λ parts. map (plain_part Ix.number_of) parts.items
        ≡ map (member_part (number_in types.now.found.now)) (flat_of types.now.dwarf.now (Some c))) }
    ensures named { IfErr result (λ e. e ≡ Allocation) }
{
    laws_of_types();
    let mut members = Vec::new(alloc);
    push_flat(types, &mut members, c, Start::outermost())?;
    let parts = member_parts(alloc, types.found, members.as_slice())?;
    Ok(parts)
}

// The parts of a function.
fn function_parts<'a, Ix: Index>(
    alloc: Global,
    types: &JudgedTypes<'_, 'a>,
    number: usize,
    c: EntryNumber,
) -> Result<Vec<Part<'a, Ix>>, NoMemory>
    requires closed { IsClosed types.now.dwarf.now.tree types.now.found.now }
    requires leads { AreTypeReferences types.now.dwarf.now.tree types.now.found.now types.now.leads.now }
    requires at { slice_get types.now.found.now number ≡ Some c }
    requires role { references.role_of types.now.dwarf.now.tree c ≡ role.Function }
    ensures parts { IfOk result (λ parts. map (plain_part Ix.number_of) parts.items
        ≡ Outcome (number_in types.now.found.now (references.type_of types.now.dwarf.now.tree c)) ∷ map (param_part (number_in types.now.found.now) types.now.dwarf.now.tree) (references.parts_of types.now.dwarf.now.tree c)) }
    ensures named { IfErr result (λ e. e ≡ Allocation) }
{
    let params = parts_at(types.dwarf, types.found, types.leads, number, c);
    let leads_to = types_at(types.dwarf, types.found, types.leads, number, c);
    let mut parts = Vec::with_capacity(alloc, params.len() + 1)?;
    parts.push(Part::Outcome {
        to: node_of(types.found, own_type(types.dwarf, c, leads_to)),
    })?;
    'params: for k in 0..params.len() {
        parts.push(Part::Param {
            to: node_of(types.found, part_type(types.dwarf, c, params, leads_to, k)),
        })?;
    }
    Ok(parts)
}

/// The enumerators of an enumeration. A declaration has none.
#[tactic(auto, unfolding(type_reach::specs::Views::enumerators_of, type_reach::specs::References::tagged_children))]
pub(crate) fn enumerators_of(
    alloc: Global,
    dwarf: &Dwarf,
    c: EntryNumber,
) -> Result<Vec<EntryNumber>, NoMemory>
    requires { c < length dwarf.now.tree.entries }
    ensures enumerators { IfOk result (λ list. list.items ≡ views.enumerators_of dwarf.now.tree c) }
    ensures inside { IfOk result (λ list. All (λ e. e < length dwarf.now.tree.entries) list.items) }
    ensures named { IfErr result (λ e. e ≡ Allocation) }
{
    if dwarf.is_declaration(c) {
        return Ok(Vec::new(alloc));
    }
    dwarf.tagged(alloc, c, DW_TAG_enumerator)
}

// The parts of an enumeration.
fn enumerator_parts<'a, Ix: Index>(
    alloc: Global,
    dwarf: &Dwarf<'a>,
    c: EntryNumber,
) -> Result<Vec<Part<'a, Ix>>, NoMemory>
    requires { c < length dwarf.now.tree.entries }
    ensures parts { IfOk result (λ parts. map (plain_part Ix.number_of) parts.items
        ≡ map (enumerator_part dwarf.now) (views.enumerators_of dwarf.now.tree c)) }
    ensures named { IfErr result (λ e. e ≡ Allocation) }
{
    let enumerators = enumerators_of(alloc, dwarf, c)?;
    let mut parts = Vec::with_capacity(alloc, enumerators.len())?;
    'enumerators: for k in 0..enumerators.len() {
        let e = enumerators[k];
        let name = name_or_empty(dwarf, e);
        let value = wrapped_of(dwarf.attr(e, DW_AT_const_value)).unwrap_or(0);
        parts.push(Part::Enumerator { name, value })?;
    }
    Ok(parts)
}

// The type of an entry that was found.
fn type_alone(types: &JudgedTypes<'_, '_>, number: usize, c: EntryNumber) -> Option<EntryNumber>
    requires closed { IsClosed types.now.dwarf.now.tree types.now.found.now }
    requires leads { AreTypeReferences types.now.dwarf.now.tree types.now.found.now types.now.leads.now }
    requires at { slice_get types.now.found.now number ≡ Some c }
    requires own { has_type (references.role_of types.now.dwarf.now.tree c) ≡ true }
    ensures is { result ≡ references.type_of types.now.dwarf.now.tree c }
    ensures there { IfSome result (λ e. Contains types.now.found.now e) }
{
    own_type(
        types.dwarf,
        c,
        types_at(types.dwarf, types.found, types.leads, number, c),
    )
}

/// The parts of a core.
pub(crate) fn parts_of_peeled<'a, Ix: Index>(
    alloc: Global,
    types: &JudgedTypes<'_, 'a>,
    number: usize,
    c: EntryNumber,
    role: Role,
) -> Result<Parts<'a, Ix>, NoMemory>
    requires closed { IsClosed types.now.dwarf.now.tree types.now.found.now }
    requires leads { AreTypeReferences types.now.dwarf.now.tree types.now.found.now types.now.leads.now }
    requires summaries { AreSummaries types.now.dwarf.now types.now.found.now types.now.summaries.now }
    requires at { slice_get types.now.found.now number ≡ Some c }
    requires role { role ≡ references.role_of types.now.dwarf.now.tree c }
    requires last { StandsForNone types.now.dwarf.now c }
    requires near { list_any begins_beyond (flat_of types.now.dwarf.now (Some c)) ≡ false }
    ensures parts { IfOk result (λ parts. parts
        ≡ parts_under (references.role_of types.now.dwarf.now.tree c) (number_in types.now.found.now) types.now.dwarf.now c) }
    ensures named { IfErr result (λ e. e ≡ Allocation) }
{
    match role {
        Role::Aggregate => Parts::of(alloc, aggregate_parts(alloc, types, c)?),
        Role::Function => Parts::of(alloc, function_parts(alloc, types, number, c)?),
        Role::Enumeration => Parts::of(alloc, enumerator_parts(alloc, types.dwarf, c)?),
        Role::Pointer => Ok(Parts::one(Part::Target {
            to: node_of(types.found, type_alone(types, number, c)),
        })),
        Role::Array => Ok(Parts::one(Part::Element {
            to: node_of(types.found, type_alone(types, number, c)),
        })),
        _ => Ok(Parts::new(alloc)),
    }
}
