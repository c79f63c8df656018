// What no contract states: a tree is read if there is enough memory, and worked values from outside.
ghost use Rattle.std.specs.Prelude.{◌<◌, length};

use crate::rows::{
    bytes_of, cut, entry, expect, hexadecimal, index, number, numbers_text, sections,
};
use abi_base::{NoMemory, Refusal};
use dwarf_forms::{DebugInfoOffset, Sections};
use dwarf_tree::{EntryNumber, Tree, read_tree};
use std::alloc::Global;
use std::fmt::Write;
use std::process::Abort;
use std::test::Fail;

// The abbreviations of a unit, of a structure with a list of entries, of a member, of a base type with two sizes, and of a
// type unit.
const ABBREVS: &[u8] =
    b"\x01\x11\x01\x13\x0b\x00\x00\x02\x13\x01\x03\x08\x0b\x0b\x00\x00\x03\x0d\x00\x03\x08\x00\x00\
\x04\x24\x00\x0b\x0b\x03\x08\x0b\x0b\x00\x00\x05\x41\x01\x00\x00\x00";

// A unit of a structure `A` with a structure `B` and a member `y`, where `B` has a member `x`, and of a base type `i`; and a
// type unit of a base type `c`.
const INFO: &[u8] = b"\x20\x00\x00\x00\x05\x00\x01\x08\x00\x00\x00\x00\x01\x0c\
\x02A\x00\x08\x02B\x00\x04\x03x\x00\x00\x03y\x00\x00\x04\x04i\x00\x07\x00\
\x1b\x00\x00\x00\x05\x00\x02\x08\x00\x00\x00\x00\x11\x22\x33\x44\x55\x66\x77\x88\x19\x00\x00\x00\
\x05\x04\x01c\x00\x01\x00";

// The number of entries in a generated file.
const MANY: usize = 400;

// The number of attributes of each entry. If values were stored, these would take 24,000 slots.
const ATTRIBUTES: usize = 60;

// The columns of a line: an offset | the number of the entry at it, if there is one.
const FOUND: &str = "\
0|none
12|0
13|none
22|3
25|none
60|6
61|7
66|none
";

fn check_found(rt: &impl Abort, tree: &Tree, row: &str) {
    let (offset, wanted) = cut(row);
    let found = index(tree.find(DebugInfoOffset::new(number(offset))));
    assert_eq!(rt; found, wanted.parse().ok(), "at {offset}");
}

#[test]
fn entries_are_found(rt: HostRuntime) -> Result<(), Fail> {
    let tree = read_tree(rt.alloc(), &sections(ABBREVS, INFO))?;
    for row in FOUND.lines() {
        check_found(&rt, &tree, row);
    }
    Ok(())
}

// The columns of a line: the version of a unit, the offset of its type, the number of its root, and its signature.
const UNITS: &str = "\
5 0 0 None
5 61 6 Some(9833440827789222417)
";

fn push_unit(text: &mut String, tree: &Tree, unit: usize) -> Result<(), NoMemory>
    requires { unit < length tree.now.units }
{
    let (head, root) = (tree.head(unit), tree.root(unit).index());
    let (version, offset) = (head.version, head.type_entry.get());
    let signature = head.signature;
    writeln!(text, "{version} {offset} {root} {signature:?}")?;
    Ok(())
}

fn units_text(alloc: Global, tree: &Tree) -> Result<String, NoMemory> {
    let mut text = String::new(alloc);
    for unit in 0..tree.units_len() {
        push_unit(&mut text, tree, unit)?;
    }
    Ok(text)
}

#[test]
fn units_have_heads_and_roots(rt: HostRuntime) -> Result<(), Fail> {
    let tree = read_tree(rt.alloc(), &sections(ABBREVS, INFO))?;
    let told = units_text(rt.alloc(), &tree)?;
    assert_eq!(rt; told.as_str(), UNITS);
    Ok(())
}

// The columns of a line: the number of an entry | the hexadecimal number of an attribute, which is 0b for DW_AT_byte_size and 03 for
// DW_AT_name | its value.
const VALUES: &str = "\
1|0b|Some(Unsigned(8))
3|0b|None
5|0b|Some(Unsigned(4))
5|03|Some(Inline { from: 32 })
7|0b|Some(Unsigned(1))
";

fn value_text(alloc: Global, tree: &Tree, e: EntryNumber, name: u64) -> Result<String, NoMemory> {
    if e.index() >= tree.len() {
        return Ok(String::from_str(alloc, "no entry")?);
    }
    let value = tree.own(e, name);
    Ok(format!(in alloc; "{value:?}")?)
}

fn check_value(rt: &impl Abort, alloc: Global, tree: &Tree, row: &str) -> Result<(), NoMemory> {
    let (number, cells) = cut(row);
    let (name, wanted) = cut(cells);
    let told = value_text(alloc, tree, entry(number), hexadecimal(name))?;
    expect(rt, told, wanted, row);
    Ok(())
}

#[test]
fn the_first_value_is_an_entrys_own(rt: HostRuntime) -> Result<(), Fail> {
    let tree = read_tree(rt.alloc(), &sections(ABBREVS, INFO))?;
    for row in VALUES.lines() {
        check_value(&rt, rt.alloc(), &tree, row)?;
    }
    Ok(())
}

// The columns of a line: the number of an entry | a hexadecimal tag, which is 13 for DW_TAG_structure_type, 0d for DW_TAG_member and
// 24 for DW_TAG_base_type | the numbers of the children with this tag, each after a space.
const TAGGED: &str = "\
0|13| 1
0|24| 5
0|0d|
1|0d| 4
";

fn tagged_text(alloc: Global, tree: &Tree, e: EntryNumber, tag: u64) -> Result<String, NoMemory> {
    if e.index() >= tree.len() {
        return Ok(String::from_str(alloc, "no entry")?);
    }
    let found = tree.tagged(alloc, e, tag)?;
    numbers_text(alloc, found.as_slice())
}

fn check_tagged(rt: &impl Abort, alloc: Global, tree: &Tree, row: &str) -> Result<(), NoMemory> {
    let (number, cells) = cut(row);
    let (tag, wanted) = cut(cells);
    let told = tagged_text(alloc, tree, entry(number), hexadecimal(tag))?;
    expect(rt, told, wanted, row);
    Ok(())
}

#[test]
fn children_of_a_tag_are_listed(rt: HostRuntime) -> Result<(), Fail> {
    let tree = read_tree(rt.alloc(), &sections(ABBREVS, INFO))?;
    for row in TAGGED.lines() {
        check_tagged(&rt, rt.alloc(), &tree, row)?;
    }
    Ok(())
}

// The abbreviations of a unit and of a member that repeats one pair of attribute and form many times.
fn many_attributes(alloc: Global, pair: &[u8]) -> Result<Vec<u8>, NoMemory> {
    let mut abbrevs = b"\x01\x11\x01\x13\x0b\x00\x00\x02\x0d\x00".to_vec(alloc)?;
    for _ in 0..ATTRIBUTES {
        abbrevs.extend_from_slice(pair)?;
    }
    abbrevs.extend_from_slice(b"\x00\x00\x00")?;
    Ok(abbrevs)
}

// A unit with many one-byte entries of that member.
fn many_entries(alloc: Global) -> Result<Vec<u8>, NoMemory> {
    let length = MANY as u32 + 11;
    let mut info = length.to_le_bytes().to_vec(alloc)?;
    info.extend_from_slice(b"\x05\x00\x01\x08\x00\x00\x00\x00\x01\x0c")?;
    for _ in 0..MANY {
        info.push(2)?;
    }
    info.push(0)?;
    Ok(info)
}

// The columns of a line: a pair | the hexadecimal number of its attribute | the number of entries, the last entry's value of the
// attribute, and its name. The pairs are DW_AT_declaration with DW_FORM_flag_present, and DW_AT_const_value with
// DW_FORM_implicit_const and the value -2.
const MANY_VALUES: &str = "\
3c 19|3c|401 Some(Flag(true)) None
1c 21 7e|1c|401 Some(Signed(-2)) None
";

fn last_text(alloc: Global, tree: &Tree, name: u64) -> Result<String, NoMemory> {
    let last = EntryNumber::new(MANY as u32);
    if last.index() >= tree.len() {
        return Ok(String::from_str(alloc, "no entry")?);
    }
    let (entries, value, other) = (tree.len(), tree.own(last, name), tree.own(last, 0x03));
    Ok(format!(in alloc; "{entries} {value:?} {other:?}")?)
}

fn told_in(alloc: Global, sections: &Sections, name: u64) -> Result<String, Refusal> {
    let tree = read_tree(alloc, sections)?;
    Ok(last_text(alloc, &tree, name)?)
}

fn told_with(alloc: Global, abbrevs: &[u8], name: u64) -> Result<String, Refusal> {
    let info = many_entries(alloc)?;
    told_in(alloc, &sections(abbrevs, info.as_slice()), name)
}

fn told_of(alloc: Global, pair: &[u8], name: u64) -> Result<String, Refusal> {
    let abbrevs = many_attributes(alloc, pair)?;
    told_with(alloc, abbrevs.as_slice(), name)
}

fn told(alloc: Global, pair: &str, name: &str) -> Result<String, Refusal> {
    let pair = bytes_of(alloc, pair)?;
    told_of(alloc, pair.as_slice(), hexadecimal(name))
}

fn check_many(rt: &impl Abort, alloc: Global, row: &str) -> Result<(), Refusal> {
    let (pair, cells) = cut(row);
    let (name, wanted) = cut(cells);
    let told = told(alloc, pair, name)?;
    expect(rt, told, wanted, row);
    Ok(())
}

#[test]
fn values_without_bytes_take_no_room(rt: HostRuntime) -> Result<(), Fail> {
    for row in MANY_VALUES.lines() {
        check_many(&rt, rt.alloc(), row)?;
    }
    Ok(())
}
