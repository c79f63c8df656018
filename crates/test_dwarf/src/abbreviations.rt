// What no contract states: tables as bytes, worked by hand from the standard, and that a call returns them.
use crate::rows::{cut, expect, number};
use abi_base::{NoMemory, Refusal};
use dwarf_forms::DebugAbbrevOffset;
use dwarf_forms::abbreviations::{AbbreviationCode, Spec, Table, table};
use std::alloc::Global;
use std::process::Abort;
use std::test::Fail;

// The abbreviations of a unit, of a base type, and of a function.
const TABLE: &[u8] = &[
    0x01, 0x11, 0x01, 0x13, 0x05, 0x00, 0x00, 0x02, 0x24, 0x00, 0x0b, 0x0b, 0x3e, 0x0b, 0x03, 0x08,
    0x00, 0x00, 0x03, 0x2e, 0x00, 0x03, 0x08, 0x49, 0x13, 0x11, 0x01, 0x00, 0x00, 0x00,
];

// Codes that differ from their positions: 7, 3, 1 and 2^64 - 1.
const SCATTERED: &[u8] = &[
    0x07, 0x24, 0x00, 0x00, 0x00, 0x03, 0x0f, 0x00, 0x00, 0x00, 0x01, 0x11, 0x01, 0x00, 0x00, 0xff,
    0xff, 0xff, 0xff, 0xff, 0xff, 0xff, 0xff, 0xff, 0x01, 0x2e, 0x00, 0x00, 0x00, 0x00,
];

// A pair of attribute 0x3a, DW_AT_decl_file, and form 0x21, DW_FORM_implicit_const, whose value, -2, follows its form.
const IMPLICIT: &[u8] = &[0x01, 0x34, 0x00, 0x3a, 0x21, 0x7e, 0x00, 0x00, 0x00];

// The columns of a line: a table | the offset of its first abbreviation | a code | the hexadecimal tag of the abbreviation with this
// code, whether it has children, and its number of attributes.
const FOUND: &str = "\
table|0|1|11 true 1
table|0|2|24 false 3
table|0|3|2e false 3
table|0|0|none
table|0|4|none
table|0|8|none
table|7|2|24 false 3
table|7|3|2e false 3
table|7|0|none
table|7|4|none
table|7|8|none
scattered|0|7|24 false 0
scattered|0|3|f false 0
scattered|0|1|11 true 0
scattered|0|18446744073709551615|2e false 0
scattered|0|0|none
scattered|0|4|none
scattered|0|8|none
implicit|0|1|34 false 1
implicit|0|0|none
implicit|0|4|none
implicit|0|8|none
";

fn bytes_named(name: &str) -> &'static [u8] {
    match name {
        "table" => TABLE,
        "scattered" => SCATTERED,
        _ => IMPLICIT,
    }
}

// What the table has under a code.
fn told(alloc: Global, found: &Table, code: u64) -> Result<String, NoMemory> {
    match found.find(AbbreviationCode::new(code)) {
        None => Ok(String::from_str(alloc, "none")?),
        Some(made) => {
            let (tag, children) = (made.tag, made.children);
            let attributes = made.specs.as_slice().len();
            Ok(format!(in alloc; "{tag:x} {children} {attributes}")?)
        }
    }
}

fn told_of(alloc: Global, bytes: &[u8], at: u64, code: u64) -> Result<String, Refusal> {
    let found = table(alloc, bytes, DebugAbbrevOffset::new(at))?;
    Ok(told(alloc, &found, code)?)
}

fn check_found(rt: &impl Abort, alloc: Global, row: &str) -> Result<(), Refusal> {
    let (name, cells) = cut(row);
    let (at, cells) = cut(cells);
    let (code, wanted) = cut(cells);
    let told = told_of(alloc, bytes_named(name), number(at), number(code))?;
    expect(rt, told, wanted, row);
    Ok(())
}

#[test]
fn abbreviations_are_found(rt: HostRuntime) -> Result<(), Fail> {
    for row in FOUND.lines() {
        check_found(&rt, rt.alloc(), row)?;
    }
    Ok(())
}

#[test]
fn a_constant_follows_its_form(rt: HostRuntime) -> Result<(), Fail> {
    let found = table(rt.alloc(), IMPLICIT, DebugAbbrevOffset::new(0))?;
    let made = found
        .find(AbbreviationCode::new(1))
        .expect(&rt, "the only code");
    let pair = Spec {
        attribute: 0x3a,
        form: 0x21,
        implicit: -2,
    };
    assert_eq!(rt; made.specs.as_slice().first().copied(), Some(pair));
    Ok(())
}
