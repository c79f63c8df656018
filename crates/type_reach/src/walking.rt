// The walk to everything that roots reach.
ghost use Rattle.std.specs.Prelude.{◌≡◌, ◌<◌, length, map, All, Some, IfErr, IfOk, OnOk};
ghost use Rattle.abi_base.specs.declared.fault.NoMemory.TheVariants.{Allocation};
ghost use Rattle.type_reach.specs.References.{own_types};
ghost use Rattle.type_reach.specs.References as spec;
ghost use Rattle.type_reach.specs.Reached.{with_types, IsWalk};
ghost use Rattle.type_reach.specs.ReachedList.{reached_of};
ghost use Rattle.type_reach.specs.Origins.{ArePassed};
ghost use Rattle.type_reach.specs.ByValue.{IsClosed};

use crate::laws::{the_list_holds_the_reached, walks_find_the_list};
use crate::origins::{Origins, other_body};
use crate::reached_entries::ReachedEntries;
use crate::references::{has_type, parts_of, type_of};
use crate::role::{Role, role_of};
use crate::visited_entries::VisitedEntries;
use abi_base::NoMemory;
use dwarf_entries::Dwarf;
use dwarf_tree::EntryNumber;
use std::alloc::Global;

// Adds an entry's own type.
#[tactic(auto, unfolding(crate::specs::References::own_types, crate::specs::Reached::with_types))]
fn add_own(
    dwarf: &Dwarf,
    met: &mut VisitedEntries,
    e: EntryNumber,
    role: Role,
) -> Result<(), NoMemory>
    requires inside { e < length dwarf.now.tree.entries }
    requires role { role ≡ spec.role_of dwarf.now.tree e }
    requires room { met.old.room ≡ length dwarf.now.tree.entries }
    ensures entries { OnOk result (met.new.entries ≡ with_types met.old.entries (own_types dwarf.now.tree e)) }
    ensures room { OnOk result (met.new.room ≡ met.old.room) }
    ensures named { IfErr result (λ e. e ≡ Allocation) }
{
    if has_type(role) {
        met.add_type(type_of(dwarf, e))?;
    }
    Ok(())
}

// Adds the types of these parts.
fn add_types(dwarf: &Dwarf, met: &mut VisitedEntries, parts: &[EntryNumber]) -> Result<(), NoMemory>
    requires inside { All (λ c. c < length dwarf.now.tree.entries) parts.now }
    requires room { met.old.room ≡ length dwarf.now.tree.entries }
    ensures entries { OnOk result (met.new.entries
        ≡ with_types met.old.entries (map (spec.type_of dwarf.now.tree) parts.now)) }
    ensures room { OnOk result (met.new.room ≡ met.old.room) }
    ensures named { IfErr result (λ e. e ≡ Allocation) }
{
    'parts: for k in 0..parts.len() {
        met.add_type(type_of(dwarf, parts[k]))?;
    }
    Ok(())
}

// Adds all types to which an entry leads. What is added by the parameters of an origin is added once for all functions that share it:
// the second one takes one step.
fn expand(
    alloc: Global,
    dwarf: &Dwarf,
    met: &mut VisitedEntries,
    origins: &mut Origins,
    e: EntryNumber,
) -> Result<(), NoMemory>
    requires inside { e < length dwarf.now.tree.entries }
    requires room { met.old.room ≡ length dwarf.now.tree.entries }
    requires passed { ArePassed dwarf.now.tree origins.old met.old.entries }
    ensures entries { OnOk result (met.new.entries ≡ with_types met.old.entries (spec.types_of dwarf.now.tree e)) }
    ensures room { OnOk result (met.new.room ≡ met.old.room) }
    ensures passed { OnOk result (ArePassed dwarf.now.tree origins.new met.new.entries) }
    ensures named { IfErr result (λ e. e ≡ Allocation) }
{
    let role = role_of(dwarf, e);
    add_own(dwarf, met, e, role)?;
    let origin = other_body(dwarf, e, role);
    if origins.first_with(&origin).is_some() {
        return Ok(());
    }
    let parts = parts_of(alloc, dwarf, e, role)?;
    add_types(dwarf, met, parts.as_slice())?;
    origins.keep(origin, e.index())?;
    Ok(())
}

// Adds the roots.
fn add_roots(met: &mut VisitedEntries, roots: &[EntryNumber]) -> Result<(), NoMemory>
    requires { All (λ root. root < met.old.room) roots.now }
    ensures entries { OnOk result (met.new.entries ≡ with_types met.old.entries (map (λ e. Some e) roots.now)) }
    ensures room { OnOk result (met.new.room ≡ met.old.room) }
    ensures named { IfErr result (λ e. e ≡ Allocation) }
{
    'roots: for k in 0..roots.len() {
        met.add(roots[k])?;
    }
    Ok(())
}

// Exactly the entries that the roots reach, in order of discovery.
fn walk(alloc: Global, dwarf: &Dwarf, roots: &[EntryNumber]) -> Result<VisitedEntries, NoMemory>
    requires { All (λ root. root < length dwarf.now.tree.entries) roots.now }
    ensures walk { IfOk result (λ met. IsWalk dwarf.now.tree roots.now met.entries) }
    ensures room { IfOk result (λ met. met.room ≡ length dwarf.now.tree.entries) }
    ensures named { IfErr result (λ e. e ≡ Allocation) }
{
    dwarf.known();
    let mut met = VisitedEntries::new(alloc, dwarf.len())?;
    let mut origins = Origins::new(alloc);
    add_roots(&mut met, roots)?;
    let mut number = 0;
    'walk: while number < met.len() {
        met.known();
        let e = met.at(number);
        expand(alloc, dwarf, &mut met, &mut origins, e)?;
        number += 1;
    }
    met.known();
    Ok(met)
}

/// Exactly the entries that the roots reach, by offset.
pub fn reached(
    alloc: Global,
    dwarf: &Dwarf,
    roots: &[EntryNumber],
) -> Result<ReachedEntries, NoMemory>
    requires { All (λ root. root < length dwarf.now.tree.entries) roots.now }
    ensures list { IfOk result (λ found. found ≡ reached_of dwarf.now.tree roots.now) }
    ensures walk { IfOk result (λ found. IsWalk dwarf.now.tree roots.now found) }
    ensures closed { IfOk result (λ found. IsClosed dwarf.now.tree found) }
    ensures named { IfErr result (λ e. e ≡ Allocation) }
{
    walks_find_the_list();
    the_list_holds_the_reached();
    let met = walk(alloc, dwarf, roots)?;
    met.by_offset(alloc)
}
