// The bytes that are read for the first range of a list, worked by hand from the standard.
use crate::rows::{bytes_of, cut, number, within_limit};
use abi_base::{Budget, Limit, NoMemory};
use dwarf_forms::Sections;
use dwarf_text::Bases;
use dwarf_text::ranges::*;
use std::alloc::Global;
use std::process::Abort;
use std::test::*;

const LOW: u64 = 0x2000;

// Two addresses, 0x1000 and 0x3000.
const ADDRESSES: [u8; 16] = [0, 0x10, 0, 0, 0, 0, 0, 0, 0, 0x30, 0, 0, 0, 0, 0, 0];

const BASES: Bases = Bases {
    str_offsets: None,
    addr: Some(0),
    rnglists: Some(0),
    low: LOW,
};

// Sections whose lists of ranges and pairs are these bytes.
fn sections(lists: &[u8]) -> Sections<'_> {
    let lists = within_limit(lists);
    Sections {
        info: &[],
        abbrev: &[],
        str: &[],
        line_str: &[],
        str_offsets: &[],
        addr: &ADDRESSES,
        rnglists: lists,
        ranges: lists,
    }
}

// The position of a list: the kind of its number, and the number.
fn list_of(cell: &str) -> ListAt {
    let (kind, at) = cell.split_once(' ').unwrap_or((cell, ""));
    let at = number(at);
    match kind {
        "offset" => ListAt::Offset(at),
        "index" => ListAt::Index(at),
        _ => ListAt::Pairs(at),
    }
}

// The effort for one byte.
const BUDGET: usize = 64;

// The columns of a line: the position of a list | the bytes of its section | the number of bytes up to the end of its first range.
const ROWS: &str = "\
offset 0|04 08 10 00|3
offset 0|05 00 40 00 00 00 00 00 00 04 08 09 04 08 09 00|12
offset 9|05 00 40 00 00 00 00 00 00 04 08 09 04 08 09 00|3
offset 0|01 01 08|2
offset 0|00|0
index 1|08 00 00 00 09 00 00|0
pairs 0|ff ff ff ff ff ff ff ff 00 20 00 00 00 00 00 00 08 00 00 00 00 00 00 00 10 00 00 00 00 00 00 00|32
pairs 0|00 00 00 00 00 00 00 00 00 00 00 00 00 00 00 00|0
";

// Expects the first range to take all of this of a budget, and no more.
fn check_taken(rt: &impl Abort, list: ListAt, bytes: &[u8], want: usize) {
    let mut budget = Budget::of(Limit::RangeLists, 1);
    let taken = take_first(list, &BASES, &sections(bytes), &mut budget).is_ok();
    let rest = budget.take(BUDGET.saturating_sub(want)).is_ok();
    let more = budget.take(1).is_ok();
    assert_eq!(rt;
        [taken, rest, more],
        [true, true, false],
        "{list:?} of {bytes:?}"
    );
}

fn check_row(rt: &impl Abort, alloc: Global, row: &str) -> Result<(), NoMemory> {
    let (list, cells) = cut(row);
    let (bytes, want) = cut(cells);
    let bytes = bytes_of(alloc, bytes)?;
    check_taken(rt, list_of(list), bytes.as_slice(), number(want) as usize);
    Ok(())
}

#[test]
fn a_list_takes_its_bytes_up_to_its_first_range(rt: HostRuntime) -> Result<(), Fail> {
    for row in ROWS.lines() {
        check_row(&rt, rt.alloc(), row)?;
    }
    Ok(())
}

#[test]
fn without_a_budget_no_list_is_read(rt: HostRuntime) {
    let mut nothing = Budget::of(Limit::RangeLists, 0);
    let lists = sections(&[5, 0, 0x40, 0, 0, 0, 0, 0, 0, 4, 8, 9, 4, 8, 9, 0]);
    let refused = take_first(ListAt::Offset(0), &BASES, &lists, &mut nothing);
    assert!(rt; refused.is_err());
}
