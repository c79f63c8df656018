// The facts about types.
ghost use Rattle.std.specs.Prelude.{◌<◌, length};

use crate::rows::expect;
use crate::sections::dwarf;
use abi_base::{NoMemory, Refusal};
use dwarf_entries::Dwarf;
use dwarf_forms::DebugInfoOffset;
use dwarf_tree::EntryNumber;
use std::alloc::Global;
use std::process::Abort;
use std::test::*;
use type_reach::*;

// The abbreviations of a unit, of a base type, of a structure, of a bit field by bit_offset, of a declared structure, of an
// array, of a dimension by its count, of one by its upper bound, and of a typedef.
const ABBREVS: &[u8] = b"\x01\x11\x01\x13\x05\x00\x00\x02\x24\x00\x0b\x0b\x3e\x0b\x03\x08\x00\x00\
\x03\x13\x01\x0b\x0b\x00\x00\x04\x0d\x00\x03\x08\x49\x13\x0d\x0b\x0c\x0b\x38\x0b\x00\x00\x05\x13\x00\x3c\x19\x00\x00\
\x06\x01\x01\x49\x13\x00\x00\x07\x21\x00\x37\x07\x00\x00\x08\x21\x00\x2f\x0d\x00\x00\x09\x16\x00\x03\x08\x49\x13\x00\x00\x00";

// `int` at 15; `struct { int a : 3; int b : 5; }` at 22, in the encoding of version 3; a declared structure at 45; an array of 2^32
// times 2^32 of these at 46; `int [4]` at 70, with an upper bound of 3; and a typedef of that at 78.
const TYPES: &[u8] =
    b"\x52\x00\x00\x00\x05\x00\x01\x08\x00\x00\x00\x00\x01\x0c\x00\x02\x04\x05int\x00\
\x03\x04\x04a\x00\x0f\x00\x00\x00\x03\x1d\x00\x04b\x00\x0f\x00\x00\x00\x05\x18\x00\x00\
\x05\x06\x2d\x00\x00\x00\x07\x00\x00\x00\x00\x01\x00\x00\x00\x07\x00\x00\x00\x00\x01\x00\x00\x00\x00\
\x06\x0f\x00\x00\x00\x08\x03\x00\x09t\x00\x46\x00\x00\x00\x00";

// The facts of an entry.
fn facts_of(alloc: Global, dwarf: &Dwarf, e: EntryNumber) -> Result<Option<Facts>, Refusal>
    requires { e < length dwarf.now.tree.entries }
{
    let found = reached(alloc, dwarf, &[e])?;
    let leads = type_references_of(alloc, dwarf, &found, 0)?;
    let all = learn_all(alloc, dwarf, &found, &leads)?;
    match found.number(e) {
        Some(number) => Ok(all.get(number).copied()),
        None => Ok(None),
    }
}

// The columns of a line: the offset of a type | its size, its count, its weight and its rank.
const FACTS: &str = "\
15|4 0 1 0
22|4 0 3 1
45|0 0 1 0
46|0 18446744073709551615 2 1
70|16 4 2 1
78|16 4 3 2
";

fn told(alloc: Global, facts: &Facts) -> Result<String, NoMemory> {
    let (size, count, weight, rank) = (facts.size, facts.count, facts.weight, facts.rank);
    let told = format!(in alloc; "{size} {count} {weight} {rank}")?;
    Ok(told)
}

fn told_of(alloc: Global, dwarf: &Dwarf, e: EntryNumber) -> Result<String, Refusal>
    requires { e < length dwarf.now.tree.entries }
{
    let facts = facts_of(alloc, dwarf, e)?;
    match &facts {
        None => Ok(String::new(alloc)),
        Some(facts) => Ok(told(alloc, facts)?),
    }
}

// The facts of the entry at an offset.
fn told_at(alloc: Global, dwarf: &Dwarf, offset: u64) -> Result<String, Refusal> {
    match dwarf.find(DebugInfoOffset::new(offset)) {
        None => Ok(String::new(alloc)),
        Some(e) => told_of(alloc, dwarf, e),
    }
}

fn check_facts(rt: &impl Abort, alloc: Global, dwarf: &Dwarf, row: &str) -> Result<(), Refusal> {
    let (offset, wanted) = row.split_once('|').unwrap_or((row, ""));
    let told = told_at(alloc, dwarf, offset.parse().unwrap_or(0))?;
    expect(rt, told, wanted, row);
    Ok(())
}

#[test]
fn facts_of_types(rt: HostRuntime) -> Result<(), Fail> {
    let dwarf = dwarf(rt.alloc(), ABBREVS, TYPES)?;
    for row in FACTS.lines() {
        check_facts(&rt, rt.alloc(), &dwarf, row)?;
    }
    Ok(())
}

fn span_of(alloc: Global, dwarf: &Dwarf, e: EntryNumber) -> Result<Option<Span>, Refusal>
    requires { e < length dwarf.now.tree.entries }
{
    let facts = facts_of(alloc, dwarf, e)?;
    match &facts {
        None => Ok(None),
        Some(facts) => Ok(facts.span),
    }
}

// The span of the entry at an offset.
fn span_at(alloc: Global, dwarf: &Dwarf, offset: u64) -> Result<Option<Span>, Refusal> {
    match dwarf.find(DebugInfoOffset::new(offset)) {
        None => Ok(None),
        Some(e) => span_of(alloc, dwarf, e),
    }
}

fn check_span(rt: &impl Abort, alloc: Global, dwarf: &Dwarf) -> Result<(), Refusal> {
    let span = span_at(alloc, dwarf, 22)?;
    assert_eq!(rt; span, Some(Span { low: 0, high: 3 }));
    Ok(())
}

#[test]
fn a_structure_has_the_span_of_its_bit_fields(rt: HostRuntime) -> Result<(), Fail> {
    let dwarf = dwarf(rt.alloc(), ABBREVS, TYPES)?;
    check_span(&rt, rt.alloc(), &dwarf)?;
    Ok(())
}
