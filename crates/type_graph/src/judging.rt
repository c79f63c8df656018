// The faults of reached types: of their shapes and of their sizes, each in order of offset.
ghost use Rattle.std.specs.Prelude.{◌≡◌, ◌<◌, length, map, All, Some, IfOk, IfSome, IfErr};
ghost use Rattle.abi_base.specs.declared.fault.NoMemory.TheVariants.{Allocation};
ghost use Rattle.abi_base.specs.Outcome.{first, Judges, OnPast, Settles};
ghost use Rattle.type_reach.specs.References.{parts_of, types_of};
ghost use Rattle.type_reach.specs.ByValue.{IsClosed};
ghost use Rattle.type_reach.specs.TypeReferences.{AreTypeReferences};
ghost use Rattle.type_reach.specs.Facts.{AreAllFacts, facts_of};
ghost use Rattle.type_reach.specs.TypeLaws.{IsShallow};
ghost use Rattle.type_reach.specs.Shapes as shapes_spec;
ghost use Rattle.type_reach.specs.Sizes as sizes;
ghost use Rattle.type_graph.specs.Large as large;
ghost use Rattle.type_reach.specs.Faults.{shape_fault, large_fault};

use crate::limits::{ALIGN_LIMIT, ROOMS_LIMIT, SIZE_LIMIT, WEIGHT_LIMIT};
use crate::shapes::has_shape;
use abi_base::{Fault, FaultKind, NoMemory, Refusal};
use dwarf_entries::Dwarf;
use dwarf_tree::EntryNumber;
use std::alloc::Global;
use type_reach::laws::laws_of_types;
use type_reach::{Facts, ReachedEntries, TypeReferences, facts_by_number, parts_at, types_at};

// The fault of an entry's shape, if any.
#[tactic(auto, unfolding(type_reach::specs::Faults::shape_fault))]
fn shape_fault_of(
    alloc: Global,
    dwarf: &Dwarf,
    e: EntryNumber,
    parts: &[EntryNumber],
    types: &[Option<EntryNumber>],
) -> Result<Option<Fault>, NoMemory>
    requires inside { e < length dwarf.now.tree.entries }
    requires parts { parts.now ≡ parts_of dwarf.now.tree e }
    requires parts_inside { All (λ p. p < length dwarf.now.tree.entries) parts.now }
    requires types { types.now ≡ types_of dwarf.now.tree e }
    requires types_inside { All (λ ty. IfSome ty (λ f. f < length dwarf.now.tree.entries)) types.now }
    ensures fault { IfOk result (λ fault. fault ≡ shape_fault dwarf.now e) }
    ensures named { IfErr result (λ e. e ≡ Allocation) }
{
    if has_shape(alloc, dwarf, e, parts, types)? {
        return Ok(None);
    }
    Ok(Some(Fault {
        kind: FaultKind::Shape,
        at: dwarf.offset(e).get(),
    }))
}

/// Checks the shapes of the entries that were found, in their order.
pub(crate) fn ask_shapes(
    alloc: Global,
    dwarf: &Dwarf,
    found: &ReachedEntries,
    leads: &TypeReferences,
) -> Result<(), Refusal>
    requires closed { IsClosed dwarf.now.tree found.now }
    requires leads { AreTypeReferences dwarf.now.tree found.now leads.now }
    ensures judged { Judges result (first (map (shape_fault dwarf.now) found.now)) }
    ensures named { IfErr result (λ e. OnPast e (λ _. ⊥)) }
{
    'found: for number in 0..found.len() {
        let e = found.at(number);
        let parts = parts_at(dwarf, found, leads, number, e);
        let types = types_at(dwarf, found, leads, number, e);
        match shape_fault_of(alloc, dwarf, e, parts, types)? {
            Some(fault) => return Err(Refusal::Fault(fault)),
            None => {}
        }
    }
    Ok(())
}

// Whether facts exceed a limit.
fn are_too_large(facts: &Facts) -> bool
    ensures { result ≡ large.are_too_large facts.now }
{
    SIZE_LIMIT < facts.size
        || SIZE_LIMIT < facts.count
        || WEIGHT_LIMIT < facts.weight
        || ALIGN_LIMIT < facts.align
        || ROOMS_LIMIT < facts.rooms
        || facts.beyond
}

// Whether an entry with these facts is too large.
fn is_too_large(dwarf: &Dwarf, e: EntryNumber, facts: &Facts) -> bool
    requires facts { facts.now ≡ facts_of dwarf.now (Some e) }
    requires shallow { IsShallow dwarf.now (Some e) }
    ensures { result ≡ sizes.is_too_large dwarf.now e }
{
    laws_of_types();
    are_too_large(facts)
}

// The fault of an entry's size, if any.
#[tactic(auto, unfolding(type_reach::specs::Faults::large_fault))]
fn large_fault_of(dwarf: &Dwarf, e: EntryNumber, facts: &Facts) -> Option<Fault>
    requires inside { e < length dwarf.now.tree.entries }
    requires facts { facts.now ≡ facts_of dwarf.now (Some e) }
    requires shallow { IsShallow dwarf.now (Some e) }
    ensures { result ≡ large_fault dwarf.now e }
{
    if !is_too_large(dwarf, e, facts) {
        return None;
    }
    Some(Fault {
        kind: FaultKind::TooLarge,
        at: dwarf.offset(e).get(),
    })
}

/// Checks the sizes of the entries that were found, in their order.
pub(crate) fn ask_sizes(dwarf: &Dwarf, found: &ReachedEntries, facts: &[Facts]) -> Result<(), Fault>
    requires closed { IsClosed dwarf.now.tree found.now }
    requires facts { AreAllFacts dwarf.now found.now facts.now }
    ensures { Settles result (first (map (large_fault dwarf.now) found.now)) }
{
    'found: for number in 0..found.len() {
        let e = found.at(number);
        let of_entry = facts_by_number(dwarf, found, facts, number, e);
        match large_fault_of(dwarf, e, &of_entry) {
            Some(fault) => return Err(fault),
            None => {}
        }
    }
    Ok(())
}
