// The classes of leaf objects, one row for each sort (psABI, section 3.2.3 "Parameter Passing", "Classification"). The psABI does
// not give the rows of `_Float16`, of decimal numbers, and of complex numbers of 4 and of 32 bytes: these are choices of this
// project.
ghost use Rattle.std.specs.Prelude.{◌≡◌};
ghost use Rattle.psabi.specs.Rows.{all_memory_class};
ghost use Rattle.psabi.specs.Rows as spec;

use crate::class::Class;
use crate::sizes::{
    COMPLEX_DOUBLE, COMPLEX_FLOAT, COMPLEX_FLOAT16, COMPLEX_LONG_DOUBLE, DECIMAL32, DECIMAL64,
    DECIMAL128, DOUBLE, FLOAT, FLOAT16, FLOAT128, INT128, LONG, LONG_DOUBLE, M64, M128, M256, M512,
};
use abi_types::{Group, Kind};

const NONE: Class = Class::NoClass;

/// One eightbyte, with this class.
pub fn one(first: Class) -> [Class; 8]
    ensures { result ≡ spec.one first }
{
    [first, NONE, NONE, NONE, NONE, NONE, NONE, NONE]
}

fn two(first: Class, second: Class) -> [Class; 8]
    ensures { result ≡ spec.two first second }
{
    [first, second, NONE, NONE, NONE, NONE, NONE, NONE]
}

fn four(first: Class, rest: Class) -> [Class; 8]
    ensures { result ≡ spec.four first rest }
{
    [first, rest, rest, rest, NONE, NONE, NONE, NONE]
}

fn eight(first: Class, rest: Class) -> [Class; 8]
    ensures { result ≡ spec.eight first rest }
{
    [first, rest, rest, rest, rest, rest, rest, rest]
}

/// The classes of an object in memory.
pub fn all_memory_class() -> [Class; 8]
    ensures { result ≡ all_memory_class }
{
    eight(Class::Memory, Class::Memory)
}

fn integer_row(size: u64) -> [Class; 8]
    ensures { result ≡ spec.integer_row size }
{
    if size == 0 {
        one(NONE)
    } else if size <= LONG {
        one(Class::Integer)
    } else if size == INT128 {
        two(Class::Integer, Class::Integer)
    } else {
        all_memory_class()
    }
}

fn float_row(size: u64) -> [Class; 8]
    ensures { result ≡ spec.float_row size }
{
    match size {
        FLOAT16 | FLOAT | DOUBLE => one(Class::Sse),
        LONG_DOUBLE => two(Class::X87, Class::X87Up),
        _ => all_memory_class(),
    }
}

fn quad_row(size: u64) -> [Class; 8]
    ensures { result ≡ spec.quad_row size }
{
    match size {
        FLOAT128 => two(Class::Sse, Class::SseUp),
        _ => all_memory_class(),
    }
}

fn decimal_row(size: u64) -> [Class; 8]
    ensures { result ≡ spec.decimal_row size }
{
    match size {
        DECIMAL32 | DECIMAL64 => one(Class::Sse),
        DECIMAL128 => two(Class::Sse, Class::SseUp),
        _ => all_memory_class(),
    }
}

fn complex_row(size: u64) -> [Class; 8]
    ensures { result ≡ spec.complex_row size }
{
    match size {
        COMPLEX_FLOAT16 | COMPLEX_FLOAT => one(Class::Sse),
        COMPLEX_DOUBLE => two(Class::Sse, Class::Sse),
        COMPLEX_LONG_DOUBLE => four(Class::ComplexX87, Class::ComplexX87),
        _ => all_memory_class(),
    }
}

fn vector_row(size: u64) -> [Class; 8]
    ensures { result ≡ spec.vector_row size }
{
    match size {
        M64 => one(Class::Sse),
        M128 => two(Class::Sse, Class::SseUp),
        M256 => four(Class::Sse, Class::SseUp),
        M512 => eight(Class::Sse, Class::SseUp),
        _ => all_memory_class(),
    }
}

/// The classes of the eightbytes of a leaf object.
#[tactic(auto, unfolding(crate::specs::Rows::row))]
pub fn row(kind: Kind, group: Group, size: u64) -> [Class; 8]
    ensures { result ≡ spec.row kind group size }
{
    match kind {
        Kind::Scalar => match group {
            Group::Bool | Group::Signed | Group::Unsigned => integer_row(size),
            Group::Float => float_row(size),
            Group::Quad => quad_row(size),
            Group::Complex => complex_row(size),
            Group::Decimal => decimal_row(size),
        },
        Kind::Enumeration | Kind::Pointer => integer_row(size),
        Kind::Vector => vector_row(size),
        _ => all_memory_class(),
    }
}
