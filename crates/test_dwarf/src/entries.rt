// What entries say, in hand-made units: names, origins and addresses.
use crate::rows::{cut, entry, expect, index, numbers_text, sections};
use abi_base::{NoMemory, Refusal};
use dwarf_entries::*;
use dwarf_forms::{DebugInfoOffset, Sections, Value};
use dwarf_tree::EntryNumber;
use std::alloc::Global;
use std::process::Abort;
use std::str;
use std::test::*;

// A function `f` that returns an `int`, with the names and the address given by indexes.
const INDEXED: Sections<'static> = Sections {
    info: b"\x21\x00\x00\x00\x05\x00\x01\x08\x00\x00\x00\x00\x01\x00\x0c\x00\x08\x00\x00\x00\x08\x00\x00\x00\x00\
\x02\x01\x04\x05\x03\x02\x19\x00\x00\x00\x00\x00",
    abbrev: b"\x01\x11\x01\x03\x25\x13\x05\x72\x17\x73\x17\x11\x1b\x00\x00\x02\x24\x00\x03\x25\x0b\x0b\x3e\x0b\x00\x00\
\x03\x2e\x00\x03\x25\x49\x13\x11\x1b\x00\x00\x00",
    str: b"a.c\0int\0f\0",
    line_str: b"",
    str_offsets: b"\x10\x00\x00\x00\x05\x00\x00\x00\x00\x00\x00\x00\x04\x00\x00\x00\x08\x00\x00\x00",
    addr: b"\x0c\x00\x00\x00\x05\x00\x08\x00\x00\x10\x00\x00\x00\x00\x00\x00",
    rnglists: b"",
    ranges: b"",
};

// The abbreviations of a unit, of a declaration of a function, of functions with an origin and a specification, with an
// address, and with an origin, of a lexical block, and of a structure with a signature.
const CHAIN_ABBREVS: &[u8] = b"\x01\x11\x01\x13\x05\x00\x00\x02\x2e\x00\x03\x08\x3c\x19\x00\x00\
\x03\x2e\x00\x31\x13\x47\x13\x00\x00\x04\x0b\x00\x03\x08\x49\x13\x00\x00\x05\x2e\x00\x03\x08\x11\x01\x00\x00\
\x06\x2e\x00\x31\x13\x00\x00\x07\x13\x00\x69\x20\x00\x00\x08\x2e\x00\x03\x0e\x00\x00\x09\x2e\x00\x55\x17\x00\x00\x00";

// The declarations `a` at 15 and `b` at 18; a function at 21 whose origin is `b` and whose specification is `a`; a lexical
// block at 30, whose type is no entry; a function at 37 whose origin is the block and whose specification is `a`; a function
// `d` at 46, and one at 57 whose origin it is.
const CHAIN: &[u8] =
    b"\x3b\x00\x00\x00\x05\x00\x01\x08\x00\x00\x00\x00\x01\x0c\x00\x02a\x00\x02b\x00\
\x03\x12\x00\x00\x00\x0f\x00\x00\x00\x04c\x00\x07\x00\x00\x00\x03\x1e\x00\x00\x00\x0f\x00\x00\x00\
\x05d\x00\x00\x10\x00\x00\x00\x00\x00\x00\x06\x2e\x00\x00\x00\x00";

// The sections with a name.
fn sections_of(name: &str) -> Sections<'static> {
    if name == "indexed" {
        INDEXED
    } else {
        sections(CHAIN_ABBREVS, CHAIN)
    }
}

// The columns of a line: the sections | the number of an entry | the first name along its chain of origins, the number of the last
// entry of the chain, and the entry's own address. Worked by hand from DWARF 5, sections 2.13, 2.17, 2.18, 3.1.1 and 3.3.8.
const SAID: &str = "\
indexed|0|a.c 0 None
indexed|1|int 1 None
indexed|2|f 2 Some(4096)
chain|0|- 0 None
chain|1|a 1 None
chain|3|b 2 None
chain|4|c 4 None
chain|5|a 1 None
chain|6|d 6 Some(4096)
chain|7|d 6 None
";

// What an entry says; a minus stands for no name.
fn said(alloc: Global, dwarf: &Dwarf, e: EntryNumber) -> Result<String, NoMemory> {
    if e.index() >= dwarf.len() {
        return Ok(String::from_str(alloc, "no entry")?);
    }
    let name = str::from_utf8(dwarf.name_of(e).unwrap_or(b"-")).unwrap_or("no text");
    let (origin, address) = (dwarf.origin(e).index(), dwarf.entry_address(e));
    Ok(format!(in alloc; "{name} {origin} {address:?}")?)
}

fn said_in(alloc: Global, sections: Sections, e: EntryNumber) -> Result<String, Refusal> {
    let dwarf = tree(alloc, sections)?;
    Ok(said(alloc, &dwarf, e)?)
}

fn check_said(rt: &impl Abort, alloc: Global, row: &str) -> Result<(), Refusal> {
    let (name, cells) = cut(row);
    let (number, wanted) = cut(cells);
    let told = said_in(alloc, sections_of(name), entry(number))?;
    expect(rt, told, wanted, row);
    Ok(())
}

#[test]
fn each_entry_has_its_name_origin_and_address(rt: HostRuntime) -> Result<(), Fail> {
    for row in SAID.lines() {
        check_said(&rt, rt.alloc(), row)?;
    }
    Ok(())
}

// A function inherits the name of its origin, but not the address.
fn check_inherited(rt: &impl Abort, dwarf: &Dwarf) {
    assert_eq!(rt; dwarf.len(), 8);
    let origin = EntryNumber::new(6);
    let function = EntryNumber::new(7);
    let told = [
        dwarf.own(function, 0x03),
        dwarf.attr(function, 0x03),
        dwarf.attr(origin, 0x11),
        dwarf.attr(function, 0x11),
    ];
    let name = Value::Inline { from: 47 };
    assert_eq!(rt;
        told,
        [None, Some(name), Some(Value::Address(0x1000)), None]
    );
    assert_eq!(rt; dwarf.info(), CHAIN);
}

#[test]
fn a_name_is_taken_along_the_chain_and_an_address_is_not(rt: HostRuntime) -> Result<(), Fail> {
    let dwarf = tree(rt.alloc(), sections(CHAIN_ABBREVS, CHAIN))?;
    check_inherited(&rt, &dwarf);
    Ok(())
}

// The functions below the root.
fn functions_text(alloc: Global, dwarf: &Dwarf) -> Result<String, NoMemory> {
    let root = EntryNumber::new(0);
    if root.index() >= dwarf.len() {
        return Ok(String::from_str(alloc, "no entry")?);
    }
    let functions = dwarf.tagged(alloc, root, 0x2e)?;
    numbers_text(alloc, functions.as_slice())
}

// The functions below the root are at 15, 18, 21, 37, 46 and 57, and the lexical block between them.
fn check_children(rt: &impl Abort, dwarf: &Dwarf) {
    assert_eq!(rt; dwarf.len(), 8);
    let block = Value::Reference(DebugInfoOffset::new(30));
    let told = [
        index(dwarf.next_child(EntryNumber::new(0), None)),
        index(dwarf.find(DebugInfoOffset::new(37))),
        index(dwarf.target(&block)),
    ];
    assert_eq!(rt; told, [Some(1), Some(5), Some(4)]);
    assert!(rt; dwarf.is_declaration(EntryNumber::new(1)));
}

#[test]
fn children_of_a_tag_are_listed(rt: HostRuntime) -> Result<(), Fail> {
    let dwarf = tree(rt.alloc(), sections(CHAIN_ABBREVS, CHAIN))?;
    check_children(&rt, &dwarf);
    let told = functions_text(rt.alloc(), &dwarf)?;
    expect(&rt, told, " 1 2 3 5 6 7", "functions");
    Ok(())
}
