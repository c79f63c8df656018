// Counts the parts of all types of a library, and the letters of their names, before they are made. A small file can have very
// many: the members of a nameless structure are members of each structure that holds it, functions may share the parameters of one
// origin, each typedef of a function type has places of its own for the parameters, and names may share their bytes.
ghost use Rattle.std.specs.Prelude.{◌≡◌, ◌<◌, ◌≤◌, ◌^◌, length, slice_get, sum_by, All, Contains, Some, IfErr, IfSome, OnErr, OnOk};
ghost use Rattle.abi_base.specs.Budgets.{allowed};
ghost use Rattle.abi_base.specs.Outcome.{OnLimit};
ghost use Rattle.abi_base.specs.declared.fault.NoMemory.TheVariants.{Past};
ghost use Rattle.abi_base.specs.declared.limit.Limit.TheVariants.{Enumerators, Letters, Members, Types};
ghost use Rattle.type_reach.specs.ByValue.{IsClosed};
ghost use Rattle.type_reach.specs.TypeReferences.{AreTypeReferences};
ghost use Rattle.type_reach.specs.Summaries.{AreSummaries};
ghost use Rattle.type_reach.specs.PeeledCores.{StandsForNone};
ghost use Rattle.type_reach.specs.Flat.{flat_of};
ghost use Rattle.type_graph.specs.Counts.{params_of, parts_in_all, members_read, members_held, members_in_all, member_letters, member_letters_held, member_letters_in_all};
ghost use Rattle.type_graph.specs.Counts.{letters_of, enumerators_held, enumerators_in_all, enumerator_letters_held, enumerator_letters_in_all};
ghost use Rattle.type_graph.specs.Limits.{EnumeratorsPass, PartsPass};
ghost use Rattle.type_graph.specs.Spending.{PassesBy, PassesEither, Takes};

use crate::flatten::replacing;
use crate::judged::JudgedTypes;
use crate::labels::name_or_empty;
use crate::parts::enumerators_of;
use abi_base::{Budget, Limit, NoMemory};
use dwarf_entries::Dwarf;
use dwarf_tree::EntryNumber;
use std::alloc::Global;
use type_reach::laws::laws_of_types;
use type_reach::{
    ReachedEntries, Role, member_type, members_among, parts_at, role_of, summary_at,
    summary_by_number, types_at,
};

// Takes one part for each member of a structure or a union and for each member that replaces a nameless one, and the letters of their
// names.
fn take_members(
    types: &JudgedTypes<'_, '_>,
    c: EntryNumber,
    budget: &mut Budget,
    letters: &mut Budget,
) -> Result<(), NoMemory>
    requires closed { IsClosed types.now.dwarf.now.tree types.now.found.now }
    requires leads { AreTypeReferences types.now.dwarf.now.tree types.now.found.now types.now.leads.now }
    requires summaries { AreSummaries types.now.dwarf.now types.now.found.now types.now.summaries.now }
    requires there { Contains types.now.found.now c }
    requires last { StandsForNone types.now.dwarf.now c }
    requires sound { budget.old.taken ≤ budget.old.most }
    requires sound_letters { letters.old.taken ≤ letters.old.most }
    ensures parts { OnOk result (Takes budget.old budget.new (members_read types.now.dwarf.now c)) }
    ensures letters { OnOk result (Takes letters.old letters.new
        (member_letters (flat_of types.now.dwarf.now (Some c)))) }
    ensures past { IfErr result (λ e. OnLimit e
        (PassesEither budget.old (members_read types.now.dwarf.now c) letters.old
        (member_letters (flat_of types.now.dwarf.now (Some c))))) }
{
    laws_of_types();
    let dwarf = types.dwarf;
    let number = types.found.number_of(c);
    let parts = parts_at(dwarf, types.found, types.leads, number, c);
    let leads_to = types_at(dwarf, types.found, types.leads, number, c);
    let members = members_among(dwarf, c, role_of(dwarf, c), parts);
    budget.take(members.len())?;
    'members: for k in 0..members.len() {
        if let Some(name) = dwarf.name_of(members[k]) {
            letters.take(name.len())?;
            continue;
        }
        let to = member_type(dwarf, c, members, leads_to, k);
        match replacing(&summary_at(dwarf, types.found, types.summaries, to)) {
            Some(inner) => take_members(types, inner, budget, letters)?,
            None => {}
        }
    }
    Ok(())
}

// Takes one part for each parameter of a core that is a function.
fn take_params(
    types: &JudgedTypes<'_, '_>,
    core: Option<EntryNumber>,
    budget: &mut Budget,
) -> Result<(), NoMemory>
    requires closed { IsClosed types.now.dwarf.now.tree types.now.found.now }
    requires leads { AreTypeReferences types.now.dwarf.now.tree types.now.found.now types.now.leads.now }
    requires there { IfSome core (λ c. Contains types.now.found.now c) }
    requires sound { budget.old.taken ≤ budget.old.most }
    ensures parts { OnOk result (Takes budget.old budget.new (params_of types.now.dwarf.now core)) }
    ensures past { IfErr result (λ e. OnLimit e (PassesBy budget.old (params_of types.now.dwarf.now core))) }
{
    let c = match core {
        None => return Ok(()),
        Some(c) => c,
    };
    match role_of(types.dwarf, c) {
        Role::Function => {
            let number = types.found.number_of(c);
            let params = parts_at(types.dwarf, types.found, types.leads, number, c);
            budget.take(params.len())
        }
        _ => Ok(()),
    }
}

// Takes one part for each member or parameter of an entry that is read, and the letters of the names of members.
fn take_parts(
    types: &JudgedTypes<'_, '_>,
    number: usize,
    e: EntryNumber,
    budget: &mut Budget,
    letters: &mut Budget,
) -> Result<(), NoMemory>
    requires closed { IsClosed types.now.dwarf.now.tree types.now.found.now }
    requires leads { AreTypeReferences types.now.dwarf.now.tree types.now.found.now types.now.leads.now }
    requires summaries { AreSummaries types.now.dwarf.now types.now.found.now types.now.summaries.now }
    requires at { slice_get types.now.found.now number ≡ Some e }
    requires sound { budget.old.taken ≤ budget.old.most }
    requires sound_letters { letters.old.taken ≤ letters.old.most }
    ensures parts { OnOk result (Takes budget.old budget.new (members_held types.now.dwarf.now e)) }
    ensures letters { OnOk result (Takes letters.old letters.new (member_letters_held types.now.dwarf.now e)) }
    ensures past { IfErr result (λ err. OnLimit err
        (PassesEither budget.old (members_held types.now.dwarf.now e) letters.old
        (member_letters_held types.now.dwarf.now e))) }
{
    laws_of_types();
    let own = summary_by_number(types.dwarf, types.found, types.summaries, number, e);
    match role_of(types.dwarf, e) {
        Role::Aggregate => take_members(types, e, budget, letters),
        Role::Function => take_params(types, Some(e), budget),
        Role::Wrapper => take_params(types, own.core, budget),
        _ => Ok(()),
    }
}

/// Fails exactly where there are more types than the limit on them allows for a file with this many bytes.
pub(crate) fn ask_types(types: usize, bytes: usize) -> Result<(), NoMemory>
    requires { bytes < 2 ^ 38 }
    ensures within { OnOk result (types ≤ allowed Types bytes) }
    ensures past { OnErr result (allowed Types bytes < types) }
    ensures named { IfErr result (λ e. e ≡ Past Types) }
{
    let mut budget = Budget::of(Limit::Types, bytes);
    budget.take(types)
}

/// Fails exactly where more members and parameters of the entries that were found are read than the limit on members allows for a file
/// with this many bytes, or where the names of members have more letters than that on letters.
pub(crate) fn ask_parts(types: &JudgedTypes<'_, '_>, bytes: usize) -> Result<(), NoMemory>
    requires closed { IsClosed types.now.dwarf.now.tree types.now.found.now }
    requires leads { AreTypeReferences types.now.dwarf.now.tree types.now.found.now types.now.leads.now }
    requires summaries { AreSummaries types.now.dwarf.now types.now.found.now types.now.summaries.now }
    requires small { bytes < 2 ^ 38 }
    ensures parts { OnOk result (parts_in_all types.now.dwarf.now types.now.found.now ≤ allowed Members bytes) }
    ensures members { OnOk result (members_in_all types.now.dwarf.now types.now.found.now ≤ allowed Members bytes) }
    ensures letters { OnOk result (member_letters_in_all types.now.dwarf.now types.now.found.now
        ≤ allowed Letters bytes) }
    ensures past { IfErr result (λ e. OnLimit e (PartsPass types.now.dwarf.now types.now.found.now bytes)) }
{
    laws_of_types();
    let mut budget = Budget::of(Limit::Members, bytes);
    let mut letters = Budget::of(Limit::Letters, bytes);
    'found: for number in 0..types.found.len() {
        let e = types.found.at(number);
        take_parts(types, number, e, &mut budget, &mut letters)?;
    }
    Ok(())
}

// Takes the letters of the names of entries.
fn take_names(dwarf: &Dwarf, entries: &[EntryNumber], letters: &mut Budget) -> Result<(), NoMemory>
    requires inside { All (λ e. e < length dwarf.now.tree.entries) entries.now }
    requires sound { letters.old.taken ≤ letters.old.most }
    ensures letters { OnOk result (Takes letters.old letters.new (sum_by (letters_of dwarf.now) entries.now)) }
    ensures past { IfErr result (λ e. OnLimit e (PassesBy letters.old (sum_by (letters_of dwarf.now) entries.now))) }
{
    'entries: for k in 0..entries.len() {
        letters.take(name_or_empty(dwarf, entries[k]).len())?;
    }
    Ok(())
}

// Takes one part for each enumerator of an entry, and the letters of their names.
fn take_enumerators(
    alloc: Global,
    dwarf: &Dwarf,
    e: EntryNumber,
    budget: &mut Budget,
    letters: &mut Budget,
) -> Result<(), NoMemory>
    requires inside { e < length dwarf.now.tree.entries }
    requires sound { budget.old.taken ≤ budget.old.most }
    requires sound_letters { letters.old.taken ≤ letters.old.most }
    ensures parts { OnOk result (Takes budget.old budget.new (enumerators_held dwarf.now e)) }
    ensures letters { OnOk result (Takes letters.old letters.new (enumerator_letters_held dwarf.now e)) }
    ensures past { IfErr result (λ err. OnLimit err
        (PassesEither budget.old (enumerators_held dwarf.now e) letters.old
        (enumerator_letters_held dwarf.now e))) }
{
    match role_of(dwarf, e) {
        Role::Enumeration => {
            let enumerators = enumerators_of(alloc, dwarf, e)?;
            budget.take(enumerators.len())?;
            take_names(dwarf, enumerators.as_slice(), letters)
        }
        _ => Ok(()),
    }
}

/// Fails where the entries that were found have more enumerators in all than the limit on them allows for a file with this many bytes,
/// or where the names of these have more letters than that on letters.
pub(crate) fn ask_enumerators(
    alloc: Global,
    dwarf: &Dwarf,
    found: &ReachedEntries,
    bytes: usize,
) -> Result<(), NoMemory>
    requires closed { IsClosed dwarf.now.tree found.now }
    requires small { bytes < 2 ^ 38 }
    ensures parts { OnOk result (enumerators_in_all dwarf.now found.now ≤ allowed Enumerators bytes) }
    ensures letters { OnOk result (enumerator_letters_in_all dwarf.now found.now ≤ allowed Letters bytes) }
    ensures past { IfErr result (λ e. OnLimit e (EnumeratorsPass dwarf.now found.now bytes)) }
{
    let mut budget = Budget::of(Limit::Enumerators, bytes);
    let mut letters = Budget::of(Limit::Letters, bytes);
    'found: for number in 0..found.len() {
        let e = found.at(number);
        take_enumerators(alloc, dwarf, e, &mut budget, &mut letters)?;
    }
    Ok(())
}
