// The debug units of a generated library.
ghost use Rattle.std.specs.Prelude.{◌≡◌, ◌≤◌, ◌<◌, ◌+◌, ◌^◌, ◌++◌, length, OnOk, IfOk};
ghost use Rattle.std.specs.List.{flat_map, range_with_len};
ghost use Rattle.trial_libraries.specs.Limits.{most_functions};
ghost use Rattle.trial_libraries.specs.Units.{entries, function, functions_of, int, member, parameter, parameters, pointer, pointer_place, ring_length, root, structure, structure_place, unit_count, unit_of, units};

use crate::abbreviations::{BASE, FUNCTION, MEMBER, PARAMETER, POINTER, STRUCTURE, UNIT};
use crate::bytes::{put_text, put_u16, put_u32, put_u64};
use crate::making::Side;
use crate::symbols::{address_of, put_name};
use abi_base::dwarf::{DW_ATE_signed, DW_LANG_C99, DW_UT_compile};
use std::alloc::{AllocError, Global};

// The number of functions in each unit except the last.
const UNIT_FUNCTIONS: u32 = 100;

// Each function whose number is a multiple of this has a second parameter.
const SECOND_PARAMETER: u32 = 7;

// Fields of a unit header: the DWARF version, the address size, and the number of header bytes that the unit length counts.
const DWARF_VERSION: u16 = 5;

const ADDRESS_SIZE: u8 = 8;

const HEADER_REST: usize = 8;

// The number of structures in the rings of an old library, and of a new one.
const OLD_RING: u32 = 3;

const NEW_RING: u32 = 2;

const LONGEST_RING: u32 = 3;

// Offsets of entries in their unit, from its header on: `int`, and the first pointer. Then the sizes in bytes of a pointer's entry,
// and of those of a structure with its members.
const INT_PLACE: u32 = 15;

const POINTERS_PLACE: u32 = 22;

const POINTER_BYTES: u32 = 6;

const STRUCTURE_BYTES: u32 = 27;

// The sizes in the entries of types.
const INT_SIZE: u8 = 4;

const POINTER_SIZE: u8 = 8;

const STRUCTURE_SIZE: u8 = 16;

// The offsets of members in a structure.
const NEXT_PLACE: u8 = 0;

const VALUE_PLACE: u8 = 8;

// Ends a list of children.
const NO_MORE: u8 = 0;

// The number of structures in the rings of a side.
pub(crate) fn ring_of(side: Side) -> u32
    ensures value { result ≡ ring_length side }
    ensures some { 0 < result }
    ensures few { result ≤ LONGEST_RING }
{
    match side {
        Side::Old => OLD_RING,
        Side::New => NEW_RING,
    }
}

// The offset of a ring's pointer in its unit.
fn place_of_pointer(pointer: u32) -> u32
    requires { pointer ≤ LONGEST_RING }
    ensures { result ≡ pointer_place pointer }
{
    POINTERS_PLACE + POINTER_BYTES * pointer
}

// The offset of a structure in its unit, in a ring with this many.
fn place_of_structure(ring: u32, structure: u32) -> u32
    requires few { ring ≤ LONGEST_RING }
    requires among { structure < ring }
    ensures { result ≡ structure_place ring structure }
{
    POINTERS_PLACE + POINTER_BYTES * ring + STRUCTURE_BYTES * structure
}

// Appends the root of a unit, and `int`.
fn put_root(body: &mut Vec<u8>) -> Result<(), AllocError>
    ensures { OnOk result (body.new.items ≡ body.old.items ++ (root ++ int)) }
{
    body.push(UNIT)?;
    put_u16(body, DW_LANG_C99 as u16)?;
    body.extend_from_slice(&[BASE, INT_SIZE, DW_ATE_signed as u8])?;
    put_text(body, "int")
}

// Appends a pointer of a ring with this many.
fn put_pointer(body: &mut Vec<u8>, ring: u32, number: u32) -> Result<(), AllocError>
    requires few { ring ≤ LONGEST_RING }
    requires among { number < ring }
    ensures { OnOk result (body.new.items ≡ body.old.items ++ pointer ring number) }
{
    body.extend_from_slice(&[POINTER, POINTER_SIZE])?;
    put_u32(body, place_of_structure(ring, number))
}

// Appends the pointers of a ring with this many.
fn put_pointers(body: &mut Vec<u8>, ring: u32) -> Result<(), AllocError>
    requires { ring ≤ LONGEST_RING }
    ensures { OnOk result (body.new.items ≡ body.old.items ++ flat_map (pointer ring) (range_with_len 0 ring)) }
{
    for number in 0..ring {
        put_pointer(body, ring, number)?;
    }
    Ok(())
}

// Appends a member, with the offset of its type in the unit and its own offset in the structure.
fn put_member(body: &mut Vec<u8>, name: &str, type_place: u32, place: u8) -> Result<(), AllocError>
    ensures { OnOk result (body.new.items ≡ body.old.items ++ member name.now type_place place) }
{
    body.push(MEMBER)?;
    put_text(body, name)?;
    put_u32(body, type_place)?;
    body.push(place)?;
    Ok(())
}

// Appends a structure of a ring with this many.
fn put_structure(body: &mut Vec<u8>, ring: u32, number: u32) -> Result<(), AllocError>
    requires few { ring ≤ LONGEST_RING }
    requires among { number < ring }
    ensures { OnOk result (body.new.items ≡ body.old.items ++ structure ring number) }
{
    body.push(STRUCTURE)?;
    put_text(body, "ring")?;
    body.push(STRUCTURE_SIZE)?;
    put_member(
        body,
        "next",
        place_of_pointer((number + 1) % ring),
        NEXT_PLACE,
    )?;
    put_member(body, "v", INT_PLACE, VALUE_PLACE)?;
    body.push(NO_MORE)?;
    Ok(())
}

// Appends the structures of a ring with this many.
fn put_structures(body: &mut Vec<u8>, ring: u32) -> Result<(), AllocError>
    requires { ring ≤ LONGEST_RING }
    ensures { OnOk result (body.new.items ≡ body.old.items ++ flat_map (structure ring) (range_with_len 0 ring)) }
{
    for number in 0..ring {
        put_structure(body, ring, number)?;
    }
    Ok(())
}

// Appends a parameter, with the offset of its type in the unit.
fn put_parameter(body: &mut Vec<u8>, type_place: u32) -> Result<(), AllocError>
    ensures { OnOk result (body.new.items ≡ body.old.items ++ parameter type_place) }
{
    body.push(PARAMETER)?;
    put_u32(body, type_place)
}

// Appends the parameters of a function.
fn put_parameters(body: &mut Vec<u8>, number: u32) -> Result<(), AllocError>
    ensures { OnOk result (body.new.items ≡ body.old.items ++ parameters number) }
{
    put_parameter(body, POINTERS_PLACE)?;
    if number % SECOND_PARAMETER == 0 {
        put_parameter(body, INT_PLACE)?;
    }
    Ok(())
}

// Appends a function.
fn put_function(body: &mut Vec<u8>, number: u32) -> Result<(), AllocError>
    ensures { OnOk result (body.new.items ≡ body.old.items ++ function number) }
{
    body.push(FUNCTION)?;
    put_name(body, number)?;
    put_u32(body, INT_PLACE)?;
    put_u64(body, address_of(number))?;
    put_parameters(body, number)?;
    body.push(NO_MORE)?;
    Ok(())
}

// Appends the functions of a unit: those of the n functions that belong to it.
fn put_functions(body: &mut Vec<u8>, n: u32, unit: u32) -> Result<(), AllocError>
    requires few { n ≤ most_functions }
    requires among { unit < unit_count n }
    ensures { OnOk result (body.new.items ≡ body.old.items ++ flat_map function (functions_of n unit)) }
{
    let first = UNIT_FUNCTIONS * unit;
    for number in first..n.min(first + UNIT_FUNCTIONS) {
        put_function(body, number)?;
    }
    Ok(())
}

// The entries of a unit in a library of n functions.
fn make_entries(alloc: Global, n: u32, ring: u32, unit: u32) -> Result<Vec<u8>, AllocError>
    requires short { ring ≤ LONGEST_RING }
    requires few { n ≤ most_functions }
    requires among { unit < unit_count n }
    ensures { IfOk result (λ body. body.items ≡ entries n ring unit) }
{
    let mut body = Vec::new(alloc);
    put_root(&mut body)?;
    put_pointers(&mut body, ring)?;
    put_structures(&mut body, ring)?;
    put_functions(&mut body, n, unit)?;
    body.push(NO_MORE)?;
    Ok(body)
}

// Appends the unit with these entries.
fn put_unit(info: &mut Vec<u8>, body: &[u8]) -> Result<(), AllocError>
    requires { 8 + length body.now < 2 ^ 32 }
    ensures { OnOk result (info.new.items ≡ info.old.items ++ unit_of body.now) }
{
    put_u32(info, (HEADER_REST + body.len()) as u32)?;
    put_u16(info, DWARF_VERSION)?;
    info.extend_from_slice(&[DW_UT_compile, ADDRESS_SIZE])?;
    put_u32(info, 0)?;
    info.extend_from_slice(body)
}

// The number of units in a library of n functions.
fn count_units(n: u32) -> u32
    requires { n ≤ most_functions }
    ensures { result ≡ unit_count n }
{
    n.div_ceil(UNIT_FUNCTIONS)
}

// The units of a library of n functions, with rings of this many structures. Fails only where memory runs out.
pub(crate) fn make_units(alloc: Global, n: u32, ring: u32) -> Result<Vec<u8>, AllocError>
    requires short { ring ≤ LONGEST_RING }
    requires few { n ≤ most_functions }
    ensures { IfOk result (λ info. info.items ≡ units n ring) }
{
    let mut info = Vec::new(alloc);
    for unit in 0..count_units(n) {
        let body = make_entries(alloc, n, ring, unit)?;
        put_unit(&mut info, body.as_slice())?;
    }
    Ok(info)
}
