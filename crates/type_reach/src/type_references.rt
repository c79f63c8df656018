// The types to which found entries lead, stored once.
ghost use Rattle.std.specs.Prelude.{◌≡◌, ◌<◌, ◌≤◌, ◌+◌, ◌++◌, ◌^◌, true, length, slice_get, slice_index_or, All, Some, IfErr, IfOk, OnOk, IfSome};
ghost use Rattle.abi_base.specs.Budgets.{allowed};
ghost use Rattle.abi_base.specs.Outcome.{OnLimit};
ghost use Rattle.abi_base.specs.declared.fault.NoMemory.TheVariants.{Allocation};
ghost use Rattle.abi_base.specs.declared.limit.Limit.TheVariants.{Members};
ghost use Rattle.type_reach.specs.References.{own_types};
ghost use Rattle.type_reach.specs.References as spec;
ghost use Rattle.type_reach.specs.ByValue.{IsClosed};
ghost use Rattle.type_reach.specs.TypeReferences.{AreTypeReferences, PassesReferences, references_count};
ghost use Rattle.type_reach.specs.Views as views;

use crate::origins::{Origins, other_body};
use crate::reached_entries::ReachedEntries;
use crate::references::{has_type, is_variadic, parts_of, type_of};
use crate::role::{Role, role_of};
use crate::rows::Rows;
use abi_base::{Budget, Limit, NoMemory};
use dwarf_entries::Dwarf;
use dwarf_tree::EntryNumber;
use std::alloc::Global;

/// For each found entry its parts, the types to which it leads, and whether it is a variadic function, by number.
#[derive(Drop)]
pub struct TypeReferences {
    parts: Rows<EntryNumber>,
    types: Rows<Option<EntryNumber>>,
    variadic: Vec<bool>,
}

// An entry with its role, and the number of an earlier function that has the same parameters, if there is one.
#[derive(Clone, Copy)]
struct Visit {
    e: EntryNumber,
    role: Role,
    same: Option<usize>,
}

// The parts of an entry: a row that was made before, if there is one with the same.
fn parts_row(
    alloc: Global,
    dwarf: &Dwarf,
    rows: &Rows<EntryNumber>,
    visit: &Visit,
) -> Result<Vec<EntryNumber>, NoMemory>
    requires inside { visit.now.e < length dwarf.now.tree.entries }
    requires role { visit.now.role ≡ spec.role_of dwarf.now.tree visit.now.e }
    requires same { IfSome visit.now.same (λ k. slice_get rows.now k
        ≡ Some (spec.parts_of dwarf.now.tree visit.now.e)) }
    requires same_inside { IfSome visit.now.same
        (λ k. All (λ c. c < length dwarf.now.tree.entries) (spec.parts_of dwarf.now.tree visit.now.e)) }
    ensures parts { IfOk result (λ list. list.items ≡ spec.parts_of dwarf.now.tree visit.now.e) }
    ensures inside { IfOk result (λ list. All (λ c. c < length dwarf.now.tree.entries) list.items) }
    ensures named { IfErr result (λ e. e ≡ Allocation) }
{
    match visit.same {
        Some(number) => {
            let mut list = Vec::new(alloc);
            list.extend_from_slice(rows.row(number))?;
            Ok(list)
        }
        None => parts_of(alloc, dwarf, visit.e, visit.role),
    }
}

// Whether an entry is a variadic function, which is known if an earlier function has the same parameters.
fn variadic_row(
    alloc: Global,
    dwarf: &Dwarf,
    known: &[bool],
    visit: &Visit,
) -> Result<bool, NoMemory>
    requires inside { visit.now.e < length dwarf.now.tree.entries }
    requires role { visit.now.role ≡ spec.role_of dwarf.now.tree visit.now.e }
    requires same { IfSome visit.now.same (λ k. slice_get known.now k
        ≡ Some (views.is_variadic dwarf.now.tree visit.now.e)) }
    ensures further { IfOk result (λ further. further ≡ views.is_variadic dwarf.now.tree visit.now.e) }
    ensures named { IfErr result (λ e. e ≡ Allocation) }
{
    match visit.same {
        Some(number) => Ok(known[number]),
        None => is_variadic(alloc, dwarf, visit.e, visit.role),
    }
}

// Appends the entry's own type, if any.
#[tactic(auto, unfolding(crate::specs::References::own_types))]
fn push_own(
    dwarf: &Dwarf,
    types: &mut Vec<Option<EntryNumber>>,
    e: EntryNumber,
    role: Role,
) -> Result<(), NoMemory>
    requires inside { e < length dwarf.now.tree.entries }
    requires role { role ≡ spec.role_of dwarf.now.tree e }
    ensures types { OnOk result (types.new.items ≡ types.old.items ++ own_types dwarf.now.tree e) }
    ensures named { IfErr result (λ e. e ≡ Allocation) }
{
    if has_type(role) {
        types.push(type_of(dwarf, e))?;
    }
    Ok(())
}

// Fills a list with the types to which an entry leads.
#[tactic(auto, unfolding(crate::specs::References::types_of))]
fn fill_types(
    dwarf: &Dwarf,
    types: &mut Vec<Option<EntryNumber>>,
    e: EntryNumber,
    role: Role,
    parts: &[EntryNumber],
) -> Result<(), NoMemory>
    requires inside { e < length dwarf.now.tree.entries }
    requires role { role ≡ spec.role_of dwarf.now.tree e }
    requires parts { parts.now ≡ spec.parts_of dwarf.now.tree e }
    requires parts_inside { All (λ c. c < length dwarf.now.tree.entries) parts.now }
    ensures types { OnOk result (types.new.items ≡ spec.types_of dwarf.now.tree e) }
    ensures named { IfErr result (λ e. e ≡ Allocation) }
{
    types.clear();
    push_own(dwarf, types, e, role)?;
    'parts: for k in 0..parts.len() {
        types.push(type_of(dwarf, parts[k]))?;
    }
    Ok(())
}

/// The parts and types of all found entries. Fails if they have more parts in all than the limit on members allows for a file with this
/// many bytes: functions can share the parameters of one origin, so a small file can have very many. The entries below an origin are looked up once for all functions
/// that share it.
pub fn type_references_of(
    alloc: Global,
    dwarf: &Dwarf,
    found: &ReachedEntries,
    bytes: usize,
) -> Result<TypeReferences, NoMemory>
    requires closed { IsClosed dwarf.now.tree found.now }
    requires small { bytes < 2 ^ 38 }
    ensures leads { IfOk result (λ leads. AreTypeReferences dwarf.now.tree found.now leads) }
    ensures within { OnOk result (references_count dwarf.now.tree found.now ≤ allowed Members bytes) }
    ensures past { IfErr result (λ e. OnLimit e (PassesReferences dwarf.now.tree found.now (allowed Members bytes))) }
{
    let mut parts = Rows::with_capacity(alloc, found.len())?;
    let mut types = Rows::with_capacity(alloc, found.len())?;
    let mut variadic = Vec::with_capacity(alloc, found.len())?;
    let mut own_types = Vec::new(alloc);
    let mut origins = Origins::new(alloc);
    let mut budget = Budget::of(Limit::Members, bytes);
    'found: for number in 0..found.len() {
        let e = found.at(number);
        let role = role_of(dwarf, e);
        let origin = other_body(dwarf, e, role);
        let same = origins.first_with(&origin);
        let visit = Visit { e, role, same };
        let row = parts_row(alloc, dwarf, &parts, &visit)?;
        budget.take(row.len())?;
        fill_types(dwarf, &mut own_types, e, role, row.as_slice())?;
        let further = variadic_row(alloc, dwarf, variadic.as_slice(), &visit)?;
        parts.push(row.as_slice())?;
        types.push(own_types.as_slice())?;
        variadic.push(further)?;
        origins.keep(origin, number)?;
    }
    parts.shrink_to_fit();
    types.shrink_to_fit();
    Ok(TypeReferences {
        parts,
        types,
        variadic,
    })
}

/// The parts of the found entry with this number: the members of a structure or a union, even of a declaration, or the parameters
/// of a function, in order.
pub fn parts_at<'l>(
    dwarf: &Dwarf,
    found: &ReachedEntries,
    leads: &'l TypeReferences,
    number: usize,
    e: EntryNumber,
) -> &'l [EntryNumber]
    requires leads { AreTypeReferences dwarf.now.tree found.now leads.now }
    requires at { slice_get found.now number ≡ Some e }
    ensures parts { result.now ≡ spec.parts_of dwarf.now.tree e }
    ensures inside { All (λ c. c < length dwarf.now.tree.entries) result.now }
{
    leads.parts.row(number)
}

/// The types to which the found entry with this number leads: its own, and those of its parts.
pub fn types_at<'l>(
    dwarf: &Dwarf,
    found: &ReachedEntries,
    leads: &'l TypeReferences,
    number: usize,
    e: EntryNumber,
) -> &'l [Option<EntryNumber>]
    requires leads { AreTypeReferences dwarf.now.tree found.now leads.now }
    requires at { slice_get found.now number ≡ Some e }
    ensures types { result.now ≡ spec.types_of dwarf.now.tree e }
    ensures inside { All (λ ty. IfSome ty (λ f. f < length dwarf.now.tree.entries)) result.now }
{
    leads.types.row(number)
}

/// Whether the found entry with this number is a variadic function.
pub fn variadic_at(
    dwarf: &Dwarf,
    found: &ReachedEntries,
    leads: &TypeReferences,
    number: usize,
    e: EntryNumber,
) -> bool
    requires leads { AreTypeReferences dwarf.now.tree found.now leads.now }
    requires at { slice_get found.now number ≡ Some e }
    ensures { result ≡ views.is_variadic dwarf.now.tree e }
{
    leads.variadic[number]
}

/// An entry's own type, from the types to which it leads.
pub fn own_type(dwarf: &Dwarf, e: EntryNumber, types: &[Option<EntryNumber>]) -> Option<EntryNumber>
    requires types { types.now ≡ spec.types_of dwarf.now.tree e }
    requires own { spec.has_type (spec.role_of dwarf.now.tree e) ≡ true }
    ensures { result ≡ spec.type_of dwarf.now.tree e }
{
    types[0]
}

/// The type of a part, from the types to which its entry leads.
pub fn part_type(
    dwarf: &Dwarf,
    e: EntryNumber,
    parts: &[EntryNumber],
    types: &[Option<EntryNumber>],
    k: usize,
) -> Option<EntryNumber>
    requires parts { parts.now ≡ spec.parts_of dwarf.now.tree e }
    requires types { types.now ≡ spec.types_of dwarf.now.tree e }
    requires inside { k < length parts.now }
    ensures { result ≡ spec.type_of dwarf.now.tree (slice_index_or parts.now k 0) }
{
    let own = types.len() - parts.len();
    types[own + k]
}

/// The type of a member, from the types to which its aggregate leads. A structure or a union has no type of its own.
pub fn member_type(
    dwarf: &Dwarf,
    e: EntryNumber,
    members: &[EntryNumber],
    types: &[Option<EntryNumber>],
    k: usize,
) -> Option<EntryNumber>
    requires members { members.now ≡ spec.members_of dwarf.now.tree e }
    requires types { types.now ≡ spec.types_of dwarf.now.tree e }
    requires inside { k < length members.now }
    ensures { result ≡ spec.type_of dwarf.now.tree (slice_index_or members.now k 0) }
{
    types[k]
}
