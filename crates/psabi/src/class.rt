// The classes of eightbytes (psABI, section 3.2.3 "Parameter Passing", "Definitions" and "Classification").
ghost use Rattle.std.specs.Prelude.{◌≡◌};
ghost use Rattle.std.specs.List.{list_any};
ghost use Rattle.psabi.specs.Class.{is_memory_class};
ghost use Rattle.psabi.specs.Class as spec;

/// The class of an eightbyte of an object, which decides how it is passed as a part of an argument or of a result.
#[derive(Clone, Copy, Debug, PartialEq, Eq)]
pub enum Class {
    /// Padding, or past the end of the object: NO_CLASS.
    NoClass,
    /// In a general register: INTEGER.
    Integer,
    /// The lowest eightbyte of a vector register: SSE.
    Sse,
    /// The next higher eightbyte of the preceding vector register: SSEUP.
    SseUp,
    /// The mantissa of an x87 number: X87.
    X87,
    /// The exponent of the preceding x87 number: X87UP.
    X87Up,
    /// A part of a complex x87 number: COMPLEX_X87.
    ComplexX87,
    /// In memory, as is the whole object: MEMORY.
    Memory,
}

/// The class of an eightbyte that contains parts of two classes.
pub fn merge(one: Class, other: Class) -> Class
    ensures { result ≡ spec.merge one other }
{
    match (one, other) {
        (Class::NoClass, _) => other,
        (_, Class::NoClass) => one,
        (Class::Memory, _) => Class::Memory,
        (_, Class::Memory) => Class::Memory,
        (Class::Integer, _) => Class::Integer,
        (_, Class::Integer) => Class::Integer,
        (Class::X87, Class::X87) => Class::X87,
        (Class::X87Up, Class::X87Up) => Class::X87Up,
        (Class::ComplexX87, Class::ComplexX87) => Class::ComplexX87,
        (Class::X87, _) => Class::Memory,
        (_, Class::X87) => Class::Memory,
        (Class::X87Up, _) => Class::Memory,
        (_, Class::X87Up) => Class::Memory,
        (Class::ComplexX87, _) => Class::Memory,
        (_, Class::ComplexX87) => Class::Memory,
        (Class::SseUp, Class::SseUp) => Class::SseUp,
        _ => Class::Sse,
    }
}

/// Whether an eightbyte has class MEMORY.
pub fn has_memory(classes: &[Class; 8]) -> bool
    ensures { result ≡ list_any is_memory_class classes.now }
{
    classes.iter().any(|class| matches!(*class, Class::Memory))
}
