// Numbers of 2, 4 and 8 bytes, and texts that end with a zero byte.
use crate::words::{cells_of, number};
use abi_base::{text_at, u16_at, u32_at, u64_at};
use std::process::Abort;

const BYTES: [u8; 10] = [8, 7, 6, 5, 4, 3, 2, 1, 0x34, 0x12];

// The columns of a line: the size of a number and its position | the hexadecimal number, or nothing if the bytes end before.
const NUMBERS: &str = "\
2 8|1234
2 9|
4 0|5060708
4 6|12340102
4 7|
8 0|102030405060708
8 3|
8 18446744073709551615|
";

fn number_at(size: &str, at: usize) -> Option<u64> {
    match size {
        "2" => u16_at(&BYTES, at).map(u64::from),
        "4" => u32_at(&BYTES, at).map(u64::from),
        _ => u64_at(&BYTES, at),
    }
}

fn check_number(rt: &impl Abort, row: &str) {
    let (asked, wanted) = cells_of(row);
    let (size, at) = asked.split_once(' ').unwrap_or((asked, ""));
    let wanted = u64::from_str_radix(wanted, 16).ok();
    assert_eq!(rt; number_at(size, number(at)), wanted, "{row}");
}

#[test]
fn the_lowest_byte_stands_first(rt: HostRuntime) {
    for row in NUMBERS.lines() {
        check_number(&rt, row);
    }
}

// The string table that the System V gABI, "String Table", shows.
const TABLE: &[u8] = b"\0name.\0Variable\0able\0\0xx\0";

// The columns of a line: a position in the table | the text there. A line without a bar is a position without a text.
const TEXTS: &str = "\
0|
1|name.
7|Variable
11|able
16|able
24|
25
26
18446744073709551615
";

fn check_text(rt: &impl Abort, row: &str) {
    let (at, wanted) = match row.split_once('|') {
        Some((at, text)) => (at, Some(text.as_bytes())),
        None => (row, None),
    };
    assert_eq!(rt; text_at(TABLE, number(at) as u64), wanted, "{row}");
}

#[test]
fn a_text_ends_before_the_first_zero(rt: HostRuntime) {
    for row in TEXTS.lines() {
        check_text(&rt, row);
    }
    assert_eq!(rt; text_at(b"cut", 1), None);
}
