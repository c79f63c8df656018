// Numbers of variable length: tables 7.7 and 7.8 of DWARF 5, section 7.6, its example of three bytes, and the edges of 64 bits.
use crate::words::{bytes_of, cells_of};
use abi_base::{NoMemory, sleb, uleb};
use std::alloc::Global;
use std::process::Abort;
use std::test::Fail;

// The columns of a line: bytes | the unsigned number at their start and its number of bytes, or nothing.
const UNSIGNED: &str = "\
02|2 1
7f|127 1
80 01|128 2
81 01|129 2
b9 64|12857 2
e5 8e 26|624485 3
82 80 00|2 3
ff ff ff ff ff ff ff ff ff 01|18446744073709551615 10
80 80 80 80 80 80 80 80 80 02|
80 80 80 80 80 80 80 80 80 80 00|
80|
|
";

// The columns of a line: bytes | the signed number at their start and its number of bytes, or nothing.
const SIGNED: &str = "\
02|2 1
7e|-2 1
ff 00|127 2
81 7f|-127 2
80 01|128 2
80 7f|-128 2
ff 7e|-129 2
c0 bb 78|-123456 3
80 80 80 80 80 80 80 80 80 7f|-9223372036854775808 10
80 80 80 80 80 80 80 80 80 01|
80|
";

fn unsigned_of(cell: &str) -> Option<(u64, usize)> {
    let (number, size) = cell.split_once(' ')?;
    Some((number.parse().ok()?, size.parse().ok()?))
}

fn signed_of(cell: &str) -> Option<(i64, usize)> {
    let (number, size) = cell.split_once(' ')?;
    Some((number.parse().ok()?, size.parse().ok()?))
}

fn check_unsigned(rt: &impl Abort, alloc: Global, row: &str) -> Result<(), NoMemory> {
    let (cell, wanted) = cells_of(row);
    let bytes = bytes_of(alloc, cell)?;
    assert_eq!(rt; uleb(bytes.as_slice(), 0), unsigned_of(wanted), "{row}");
    Ok(())
}

fn check_signed(rt: &impl Abort, alloc: Global, row: &str) -> Result<(), NoMemory> {
    let (cell, wanted) = cells_of(row);
    let bytes = bytes_of(alloc, cell)?;
    assert_eq!(rt; sleb(bytes.as_slice(), 0), signed_of(wanted), "{row}");
    Ok(())
}

#[test]
fn unsigned_numbers_are_read(rt: HostRuntime) -> Result<(), Fail> {
    for row in UNSIGNED.lines() {
        check_unsigned(&rt, rt.alloc(), row)?;
    }
    Ok(())
}

#[test]
fn signed_numbers_are_read(rt: HostRuntime) -> Result<(), Fail> {
    for row in SIGNED.lines() {
        check_signed(&rt, rt.alloc(), row)?;
    }
    Ok(())
}
