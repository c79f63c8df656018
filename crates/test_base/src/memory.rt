// Inputs, sinks and lists in memory.
use crate::long::{LONG, are_long_bytes, long_bytes};
use crate::words::{cells_of, number};
use abi_base::{List, MemInputs, MemSink, NoMemory, Take, WriteFailed, read_whole, write_all};
use std::alloc::Global;
use std::process::Abort;
use std::test::Fail;

// The columns of a line: a name | the bytes of the file.
const FILES: &str = "\
a|abc
b|
a|xyz
";

// The columns of a line: a name and a limit | the bytes that are read, or the refusal.
const READS: &str = "\
b 0|
a 3|abc
a 2|too long
c 9|failed
";

fn file_of(alloc: Global, row: &str) -> Result<(String, Vec<u8>), NoMemory> {
    let (name, bytes) = cells_of(row);
    let name = String::from_str(alloc, name)?;
    let bytes = bytes.as_bytes().to_vec(alloc)?;
    Ok((name, bytes))
}

fn files_of(alloc: Global, rows: &str) -> Result<Vec<(String, Vec<u8>)>, NoMemory> {
    let mut files = Vec::new(alloc);
    for row in rows.lines() {
        files.push(file_of(alloc, row)?)?;
    }
    Ok(files)
}

fn wanted_of(cell: &str) -> Result<&[u8], Take> {
    match cell {
        "too long" => Err(Take::TooLong),
        "failed" => Err(Take::Failed),
        bytes => Ok(bytes.as_bytes()),
    }
}

fn check(rt: &impl Abort, alloc: Global, inputs: &mut MemInputs, row: &str) {
    let (asked, wanted) = cells_of(row);
    let (name, limit) = asked.split_once(' ').unwrap_or((asked, ""));
    let read = read_whole(alloc, inputs, name, number(limit));
    let read = read.as_ref().map(Vec::as_slice).map_err(|refusal| *refusal);
    assert_eq!(rt; read, wanted_of(wanted), "{row}");
}

#[test]
fn memory_gives_the_first_file_of_a_name(rt: HostRuntime) -> Result<(), Fail> {
    let files = files_of(rt.alloc(), FILES)?;
    let mut inputs = MemInputs::new(files, Vec::new(rt.alloc()));
    for row in READS.lines() {
        check(&rt, rt.alloc(), &mut inputs, row);
    }
    Ok(())
}

fn long_file(alloc: Global) -> Result<(String, Vec<u8>), NoMemory> {
    let name = String::from_str(alloc, "long")?;
    Ok((name, long_bytes(alloc)?))
}

// The file `long`, in inputs whose call of this number fails.
fn long_inputs(alloc: Global, failing: u64) -> Result<MemInputs, NoMemory> {
    let files = vec![in alloc; long_file(alloc)?]?;
    Ok(MemInputs::new(files, vec![in alloc; failing]?))
}

fn expect_failure(rt: &impl Abort, alloc: Global, inputs: &mut MemInputs) {
    let read = read_whole(alloc, inputs, "long", LONG);
    assert_eq!(rt; read.err(), Some(Take::Failed));
}

fn expect_long(rt: &impl Abort, alloc: Global, inputs: &mut MemInputs) -> Result<(), Take> {
    let bytes = read_whole(alloc, inputs, "long", LONG)?;
    assert!(rt; are_long_bytes(bytes.as_slice()));
    Ok(())
}

#[test]
fn memory_fails_at_the_second_piece(rt: HostRuntime) -> Result<(), Fail> {
    let mut inputs = long_inputs(rt.alloc(), 3)?;
    expect_failure(&rt, rt.alloc(), &mut inputs);
    expect_long(&rt, rt.alloc(), &mut inputs)?;
    Ok(())
}

#[test]
fn a_sink_in_memory_fails_where_it_is_told_to(rt: HostRuntime) -> Result<(), Fail> {
    let mut sink = MemSink::new(rt.alloc(), 2, vec![in rt.alloc(); 2]?)?;
    assert_eq!(rt; write_all(&mut sink, b"abc"), Err(WriteFailed));
    assert_eq!(rt; sink.held(), b"ab".as_slice());
    write_all(&mut sink, b"cde")?;
    assert_eq!(rt; sink.held(), b"abcde".as_slice());
    Ok(())
}

#[test]
fn a_list_is_what_was_pushed(rt: HostRuntime) -> Result<(), Fail> {
    let mut list = List::new(rt.alloc());
    list.push(1u64)?;
    list.push(2)?;
    assert_eq!(rt; list.as_slice(), [1, 2].as_slice());
    Ok(())
}

#[test]
fn a_list_has_the_items_of_a_vector(rt: HostRuntime) -> Result<(), Fail> {
    let list = List::of(vec![in rt.alloc(); 3u8]?);
    assert_eq!(rt; list.as_slice(), [3].as_slice());
    Ok(())
}

#[test]
fn a_list_has_the_items_that_it_copies(rt: HostRuntime) -> Result<(), Fail> {
    let list = List::copy_of(rt.alloc(), b"ab")?;
    assert_eq!(rt; list.as_slice(), b"ab".as_slice());
    Ok(())
}
