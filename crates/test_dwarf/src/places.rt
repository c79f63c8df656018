// Places in the source of the entries of hand-made units.
use crate::rows::{cut, expect, number, sections};
use abi_base::{Effort, Limit, NoMemory};
use dwarf_forms::DebugInfoOffset;
use entry_places::{DeclarationPlace, EntryPlaces, PlaceReader};
use std::alloc::Global;
use std::process::Abort;
use std::str;
use std::test::Fail;

// A unit with a line program and a directory, and a structure with a file and a line.
const ABBREVS: &[u8] =
    b"\x01\x11\x01\x10\x17\x1b\x08\x00\x00\x02\x13\x00\x3a\x0b\x3b\x0b\x00\x00\x03\x13\x00\x3a\x0b\x00\x00\x00";

// Structures in file 1 at line 27, in file 1 at line 0, in file 9 at line 3, and in file 1 at no line.
const UNIT_4: &[u8] = b"\x1b\x00\x00\x00\x04\x00\x00\x00\x00\x00\x08\
\x01\x00\x00\x00\x00/b\x00\x02\x01\x1b\x02\x01\x00\x02\x09\x03\x03\x01\x00";

// The file `a.h` in directory 1, `inc`.
const LINE_4: &[u8] =
    b"\x19\x00\x00\x00\x04\x00\x13\x00\x00\x00\x01\x01\x01\x00\x01\x01inc\x00\x00a.h\x00\x01\x00\x00\x00";

// The columns of a line: an offset | the file of the entry there | its line. An entry without a place has neither.
const PLACES_4: &str = "\
11||
19|/b/inc/a.h|27
20||
22||
25||
28||
";

// Structures in file 0 at line 27, and in file 1 at line 5.
const UNIT_5: &[u8] = b"\x17\x00\x00\x00\x05\x00\x01\x08\x00\x00\x00\x00\
\x01\x00\x00\x00\x00/b\x00\x02\x00\x1b\x02\x01\x05\x00";

// The files `a.c` in directory 0, `/b`, and `a.h` in directory 1, `inc`.
const LINE_5: &[u8] = b"\x29\x00\x00\x00\x05\x00\x08\x00\x21\x00\x00\x00\x01\x01\x01\x00\x01\x01\
\x01\x01\x08\x02/b\x00inc\x00\x02\x01\x08\x02\x0b\x02a.c\x00\x00a.h\x00\x01\x00\x00\x00";

const PLACES_5: &str = "\
20|/b/a.c|27
23|/b/inc/a.h|5
";

// A budget for this many bytes is enough for the places of each unit.
const BYTES: usize = 64;

// The file and the line of a place, if there is one.
fn place_text(alloc: Global, place: Option<&DeclarationPlace>) -> Result<String, NoMemory> {
    match place {
        None => Ok(String::from_str(alloc, "|")?),
        Some(place) => {
            let file = str::from_utf8(place.file.as_slice()).unwrap_or("no text");
            let line = place.line;
            Ok(format!(in alloc; "{file}|{line}")?)
        }
    }
}

fn told_at(
    alloc: Global,
    places: &mut PlaceReader<'_, '_>,
    offset: u64,
) -> Result<String, NoMemory> {
    let place = places.place_of(alloc, DebugInfoOffset::new(offset))?;
    place_text(alloc, place.as_ref())
}

fn check_place(
    rt: &impl Abort,
    alloc: Global,
    places: &mut PlaceReader<'_, '_>,
    row: &str,
) -> Result<(), NoMemory> {
    let (offset, wanted) = cut(row);
    let told = told_at(alloc, places, number(offset))?;
    expect(rt, told, wanted, row);
    Ok(())
}

fn check_places(
    rt: &impl Abort,
    alloc: Global,
    places: &mut PlaceReader<'_, '_>,
    rows: &str,
) -> Result<(), NoMemory> {
    for row in rows.lines() {
        check_place(rt, alloc, places, row)?;
    }
    Ok(())
}

// The same with a reader of its own.
fn check_entries(
    rt: &impl Abort,
    alloc: Global,
    places: &EntryPlaces<'_>,
    rows: &str,
) -> Result<(), NoMemory> {
    let mut reader = PlaceReader::new(alloc, Effort::for_bytes(Limit::Report, BYTES), places);
    check_places(rt, alloc, &mut reader, rows)
}

// Checks the places of the entries of a unit, with a line program.
fn check_unit(
    rt: &impl Abort,
    alloc: Global,
    unit: &[u8],
    line: &[u8],
    rows: &str,
) -> Result<(), NoMemory> {
    match EntryPlaces::read(alloc, &sections(ABBREVS, unit), line)? {
        Some(places) => check_entries(rt, alloc, &places, rows),
        None => {
            assert_eq!(rt; rows, "damaged");
            Ok(())
        }
    }
}

#[test]
fn a_file_of_version_4_counts_from_the_directory_of_its_unit(rt: HostRuntime) -> Result<(), Fail> {
    check_unit(&rt, rt.alloc(), UNIT_4, LINE_4, PLACES_4)?;
    Ok(())
}

#[test]
fn files_of_version_5_count_from_0(rt: HostRuntime) -> Result<(), Fail> {
    check_unit(&rt, rt.alloc(), UNIT_5, LINE_5, PLACES_5)?;
    Ok(())
}

#[test]
fn a_damaged_line_program_gives_no_place(rt: HostRuntime) -> Result<(), Fail> {
    check_unit(&rt, rt.alloc(), UNIT_5, b"", "20||")?;
    check_unit(&rt, rt.alloc(), UNIT_5, LINE_4, "20||")?;
    check_unit(&rt, rt.alloc(), b"\x01", LINE_5, "damaged")?;
    Ok(())
}
