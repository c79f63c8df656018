// The values of attributes in each form, worked by hand from the standard.
use crate::rows::{bytes_of, cut, expect, fault_text, hexadecimal, number};
use abi_base::{Fault, NoMemory};
use dwarf_forms::abbreviations::Spec;
use dwarf_forms::*;
use std::alloc::Global;
use std::process::Abort;
use std::test::*;

// The offset of the entry of each row.
const ENTRY: u64 = 50;

// The columns of a line: the form | its hexadecimal number | the start of its unit | the bytes up to the end of the unit | the value
// that the form encodes at the first of them, with the number of its bytes, or the fault. Worked by hand from DWARF 5, section 7.5.6.
const ROWS: &str = "\
DW_FORM_ref4|13|100|0f 00 00 00|Reference(DebugInfoOffset { bytes: 115 }) 4
DW_FORM_ref_addr|10|100|0f 00 00 00|Reference(DebugInfoOffset { bytes: 15 }) 4
DW_FORM_ref8|14|2|ff ff ff ff ff ff ff ff|Reference(DebugInfoOffset { bytes: 1 }) 8
DW_FORM_indirect before DW_FORM_data1|16|0|0b 07|Unsigned(7) 2
DW_FORM_indirect before DW_FORM_implicit_const|16|0|21|Form 50
DW_FORM_indirect before itself|16|0|16 0b|Form 50
DW_FORM_strp_sup|1d|0|00 00 00 00|Supplementary 50
a number that is not a form|0|0|00 00 00 00|Form 50
DW_FORM_flag|0c|0|02|Flag(true) 1
DW_FORM_block2|03|0|02 00 aa bb|Block { from: 2, to: 4 } 4
DW_FORM_string|08|0|61 62 00|Inline { from: 0 } 3
DW_FORM_data16|1e|0|00 00 00 00 00 00 00 00 00 00 00 00 00 00 00|Cut 50
DW_FORM_strx3|27|0|01 02 03 04|StrIndex(197121) 3
DW_FORM_strx4|28|0|01 02 03 04|StrIndex(67305985) 4
";

// The value that a form encodes at the first of the bytes, in a unit that ends behind them.
fn value_in(form: u64, start: u64, bytes: &[u8]) -> Result<(Value, usize), Fault> {
    let unit = UnitSpan {
        start,
        end: bytes.len() as u64,
    };
    let spec = Spec {
        attribute: 0,
        form,
        implicit: 0,
    };
    value(bytes, unit, ENTRY, spec, 0)
}

fn told(alloc: Global, form: u64, start: u64, bytes: &[u8]) -> Result<String, NoMemory> {
    match value_in(form, start, bytes) {
        Ok((value, size)) => Ok(format!(in alloc; "{value:?} {size}")?),
        Err(fault) => fault_text(alloc, fault),
    }
}

fn told_of(alloc: Global, form: u64, start: u64, bytes: &str) -> Result<String, NoMemory> {
    let bytes = bytes_of(alloc, bytes)?;
    told(alloc, form, start, bytes.as_slice())
}

fn check_form(rt: &impl Abort, alloc: Global, row: &str) -> Result<(), NoMemory> {
    let (_, cells) = cut(row);
    let (form, cells) = cut(cells);
    let (start, cells) = cut(cells);
    let (bytes, wanted) = cut(cells);
    let told = told_of(alloc, hexadecimal(form), number(start), bytes)?;
    expect(rt, told, wanted, row);
    Ok(())
}

#[test]
fn each_form_spells_its_value(rt: HostRuntime) -> Result<(), Fail> {
    for row in ROWS.lines() {
        check_form(&rt, rt.alloc(), row)?;
    }
    Ok(())
}
