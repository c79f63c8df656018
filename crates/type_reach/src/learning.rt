// Computes the facts of all found entries, each once, after those of the types that it holds by value.
ghost use Rattle.std.specs.Prelude.{◌≡◌, ◌<◌, ◌≤◌, ◌+◌, ℕ, List, Some, length, slice_get, slice_set, All, Contains, IfErr, IfOk, IfSome, IfNone, OnOk, IsPermutation};
ghost use Rattle.std.specs.List.Sorted.{IsNonDecreasing};
ghost use Rattle.abi_base.specs.declared.fault.NoMemory.TheVariants.{Allocation};
ghost use Rattle.abi_base.specs.Limits.{depth_limit};
ghost use Rattle.abi_base.specs.Outcome.{Judges, OnPast};
ghost use Rattle.type_reach.specs.Reached.{IsWalk};
ghost use Rattle.type_reach.specs.ByValue.{StepsOn, IsNoDeeper, IsClosed, IsTooDeep};
ghost use Rattle.type_reach.specs.TypeReferences.{AreTypeReferences};
ghost use Rattle.type_reach.specs.Facts.{facts_of, IsSpanNear, AreFacts, AreAllFacts, IsFirstTooDeep};
ghost use Rattle.type_reach.specs.Faults.{depth_fault};

use crate::constants::DEPTH_LIMIT;
use crate::facts::{Facts, VOID, combine};
use crate::reached_entries::ReachedEntries;
use crate::references::steps_among;
use crate::role::role_of;
use crate::type_references::{TypeReferences, parts_at, types_at};
use abi_base::{Fault, FaultKind, NoMemory, Refusal};
use dwarf_entries::Dwarf;
use dwarf_tree::EntryNumber;
use std::alloc::Global;

// Debug information, the found entries, and the types to which they lead.
#[derive(Clone, Copy)]
struct FoundTypes<'t, 'a> {
    dwarf: &'t Dwarf<'a>,
    found: &'t ReachedEntries,
    leads: &'t TypeReferences,
}

// The facts of a type, or None where chains from it have more steps than the budget.
fn within(facts: Facts, budget: u32) -> Option<Facts>
    ensures same { IfSome result (λ x. x ≡ facts) }
    ensures few { IfSome result (λ x. facts.rank ≤ budget) }
    ensures many { IfNone result (budget < facts.rank) }
{
    if facts.rank <= budget {
        Some(facts)
    } else {
        None
    }
}

// Notes the facts of the found entry with this number.
fn note(known: &mut Vec<Option<Facts>>, number: usize, facts: &Facts)
    requires { number < length known.old.items }
    ensures { known.new.items ≡ slice_set known.old.items number (Some facts.now) }
{
    known[number] = Some(*facts);
}

// The facts of a type, or None where a chain of more steps by value than the budget begins at it.
fn learn(
    alloc: Global,
    types: &FoundTypes<'_, '_>,
    known: &mut Vec<Option<Facts>>,
    ty: Option<EntryNumber>,
    budget: u32,
) -> Result<Option<Facts>, NoMemory>
    requires closed { IsClosed types.now.dwarf.now.tree types.now.found.now }
    requires leads { AreTypeReferences types.now.dwarf.now.tree types.now.found.now types.now.leads.now }
    requires known { AreFacts types.now.dwarf.now types.now.found.now known.old.items }
    requires len { length known.old.items ≡ length types.now.found.now }
    requires there { IfSome ty (λ e. Contains types.now.found.now e) }
    requires budget { budget ≤ depth_limit }
    ensures known { OnOk result (AreFacts types.now.dwarf.now types.now.found.now known.new.items) }
    ensures len { OnOk result (length known.new.items ≡ length types.now.found.now) }
    ensures facts { IfOk result (λ r. IfSome r (λ x. x ≡ facts_of types.now.dwarf.now ty)) }
    ensures near { IfOk result (λ r. IfSome r IsSpanNear) }
    ensures few { IfOk result (λ r. IfSome r (λ x. IsNoDeeper types.now.dwarf.now.tree budget ty)) }
    ensures many { IfOk result (λ r. IfNone r (StepsOn types.now.dwarf.now.tree (budget + 1) ty)) }
    ensures named { IfErr result (λ e. e ≡ Allocation) }
{
    let e = match ty {
        None => return Ok(Some(VOID)),
        Some(e) => e,
    };
    let number = types.found.number_of(e);
    if let Some(before) = known[number] {
        return Ok(within(before, budget));
    }
    let parts = parts_at(types.dwarf, types.found, types.leads, number, e);
    let leads_to = types_at(types.dwarf, types.found, types.leads, number, e);
    let steps = steps_among(types.dwarf, e, role_of(types.dwarf, e), leads_to);
    let mut of_steps = Vec::with_capacity(alloc, steps.len())?;
    'steps: for k in 0..steps.len() {
        if budget == 0 {
            return Ok(None);
        }
        match learn(alloc, types, known, steps[k], budget - 1)? {
            Some(one) => of_steps.push(one)?,
            None => return Ok(None),
        }
    }
    let made = combine(alloc, types.dwarf, e, parts, of_steps.as_slice())?;
    note(known, number, &made);
    Ok(Some(made))
}

/// The found entries, by offset.
pub fn in_order(alloc: Global, found: &ReachedEntries) -> Result<Vec<EntryNumber>, NoMemory>
    ensures same { IfOk result (λ order. IsPermutation found.now order.items) }
    ensures order { IfOk result (λ order. IsNonDecreasing order.items) }
    ensures named { IfErr result (λ e. e ≡ Allocation) }
{
    let mut order = Vec::with_capacity(alloc, found.len())?;
    'found: for number in 0..found.len() {
        order.push(found.at(number))?;
    }
    found.in_order();
    Ok(order)
}

// The first entry that is too deep, if any.
fn find_deep(
    alloc: Global,
    types: &FoundTypes<'_, '_>,
    known: &mut Vec<Option<Facts>>,
) -> Result<Option<EntryNumber>, NoMemory>
    requires closed { IsClosed types.now.dwarf.now.tree types.now.found.now }
    requires leads { AreTypeReferences types.now.dwarf.now.tree types.now.found.now types.now.leads.now }
    requires known { AreFacts types.now.dwarf.now types.now.found.now known.old.items }
    requires len { length known.old.items ≡ length types.now.found.now }
    ensures known { OnOk result (AreFacts types.now.dwarf.now types.now.found.now known.new.items) }
    ensures len { OnOk result (length known.new.items ≡ length types.now.found.now) }
    ensures first { IfOk result (λ r. IfSome r (λ e. IsFirstTooDeep types.now.dwarf.now.tree types.now.found.now e)) }
    ensures none { IfOk result (λ r. IfNone r ((e : ℕ) → Contains types.now.found.now e
        → IsTooDeep types.now.dwarf.now.tree (Some e) → ⊥)) }
    ensures named { IfErr result (λ e. e ≡ Allocation) }
{
    let order = in_order(alloc, types.found)?;
    'order: for k in 0..order.len() {
        match learn(alloc, types, known, Some(order[k]), DEPTH_LIMIT)? {
            Some(_) => {}
            None => return Ok(Some(order[k])),
        }
    }
    Ok(None)
}

// The facts of all found entries by number. None of them is too deep.
fn collect(
    alloc: Global,
    types: &FoundTypes<'_, '_>,
    known: &mut Vec<Option<Facts>>,
) -> Result<Vec<Facts>, NoMemory>
    requires closed { IsClosed types.now.dwarf.now.tree types.now.found.now }
    requires leads { AreTypeReferences types.now.dwarf.now.tree types.now.found.now types.now.leads.now }
    requires known { AreFacts types.now.dwarf.now types.now.found.now known.old.items }
    requires len { length known.old.items ≡ length types.now.found.now }
    requires shallow { (e : ℕ) → Contains types.now.found.now e → IsTooDeep types.now.dwarf.now.tree (Some e) → ⊥ }
    ensures facts { IfOk result (λ facts. AreAllFacts types.now.dwarf.now types.now.found.now facts.items) }
    ensures named { IfErr result (λ e. e ≡ Allocation) }
{
    let mut facts = Vec::with_capacity(alloc, types.found.len())?;
    'found: for number in 0..types.found.len() {
        let e = types.found.at(number);
        match learn(alloc, types, known, Some(e), DEPTH_LIMIT)? {
            Some(one) => facts.push(one)?,
            None => unreachable!(),
        }
    }
    Ok(facts)
}

/// The facts of all entries that a walk found, by number. Err is a fault at the first entry, by offset, from which a chain of more
/// steps by value than the limit begins.
pub fn learn_all(
    alloc: Global,
    dwarf: &Dwarf,
    found: &ReachedEntries,
    leads: &TypeReferences,
) -> Result<Vec<Facts>, Refusal>
    requires closed { IsClosed dwarf.now.tree found.now }
    requires leads { AreTypeReferences dwarf.now.tree found.now leads.now }
    ensures facts { IfOk result (λ facts. AreAllFacts dwarf.now found.now facts.items) }
    ensures judged { (roots : List ℕ) → ((r : ℕ) → Contains roots r → r < length dwarf.now.tree.entries)
        → IsWalk dwarf.now.tree roots found.now → Judges result (depth_fault dwarf.now.tree roots) }
    ensures named { IfErr result (λ e. OnPast e (λ _. ⊥)) }
{
    let types = FoundTypes {
        dwarf,
        found,
        leads,
    };
    let mut known = Vec::from_elem(alloc, None, found.len())?;
    match find_deep(alloc, &types, &mut known)? {
        Some(e) => {
            return Err(Refusal::Fault(Fault {
                kind: FaultKind::TooDeep,
                at: dwarf.offset(e).get(),
            }));
        }
        None => {}
    }
    Ok(collect(alloc, &types, &mut known)?)
}

/// The facts of a found type.
pub fn facts_at(
    dwarf: &Dwarf,
    found: &ReachedEntries,
    facts: &[Facts],
    ty: Option<EntryNumber>,
) -> Facts
    requires facts { AreAllFacts dwarf.now found.now facts.now }
    requires there { IfSome ty (λ e. Contains found.now e) }
    ensures { result ≡ facts_of dwarf.now ty }
{
    let e = match ty {
        None => return VOID,
        Some(e) => e,
    };
    match found.number(e) {
        Some(number) => facts[number],
        None => unreachable!(),
    }
}

/// The facts of the found entry with this number.
pub fn facts_by_number(
    dwarf: &Dwarf,
    found: &ReachedEntries,
    facts: &[Facts],
    number: usize,
    e: EntryNumber,
) -> Facts
    requires facts { AreAllFacts dwarf.now found.now facts.now }
    requires at { slice_get found.now number ≡ Some e }
    ensures { result ≡ facts_of dwarf.now (Some e) }
{
    facts[number]
}
