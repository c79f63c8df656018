// The aspects of entries that no rule compares.
ghost use Rattle.std.specs.Prelude.{◌≡◌};
ghost use Rattle.type_notes.specs.Aspects as spec;

use crate::note::NoteKind;
use abi_base::dwarf::DW_TAG_variable;
use type_reach::Role;

/// A property of an entry that no rule compares.
#[derive(Clone, Copy)]
pub enum Aspect {
    /// The dimensions of an array.
    Dimensions,
    /// Whether a function is declared with a prototype.
    Prototyped,
    /// The calling convention of a function.
    CallingConvention,
    /// The address class of a pointer or a function.
    AddressClass,
    /// Whether a function never returns.
    NoReturn,
    /// The names of a function's parameters.
    ParameterNames,
    /// The byte order of a base type.
    Endianity,
    /// Whether an enumeration is signed.
    Sign,
    /// Whether a pointer points to a `const` type.
    Const,
    /// Whether a pointer points to a `volatile` type.
    Volatile,
    /// Whether a pointer points to a `restrict` pointer.
    Restrict,
    /// Whether a pointer points to an `_Atomic` type.
    Atomic,
    /// Whether an object is `const`.
    ConstObject,
    /// Whether an object is `volatile`.
    VolatileObject,
}

// The kind of notes on an aspect.
pub(crate) fn kind_of(aspect: Aspect) -> NoteKind
    ensures { result ≡ spec.kind_of aspect }
{
    match aspect {
        Aspect::Dimensions => NoteKind::ArrayDimensions,
        Aspect::Prototyped => NoteKind::Prototype,
        Aspect::CallingConvention => NoteKind::CallingConvention,
        Aspect::AddressClass => NoteKind::AddressClass,
        Aspect::NoReturn => NoteKind::NoReturn,
        Aspect::ParameterNames => NoteKind::ParameterName,
        Aspect::Endianity => NoteKind::Endianity,
        Aspect::Sign => NoteKind::EnumeratorSign,
        Aspect::Const | Aspect::Volatile | Aspect::Restrict | Aspect::Atomic => {
            NoteKind::Qualifiers
        }
        Aspect::ConstObject | Aspect::VolatileObject => NoteKind::ObjectQualifiers,
    }
}

// The aspects of an entry of a role, in order.
fn aspects_of(role: Role) -> &'static [Aspect]
    ensures { result.now ≡ spec.aspects_of role }
{
    match role {
        Role::Array => &[Aspect::Dimensions],
        Role::Function => &[
            Aspect::Prototyped,
            Aspect::CallingConvention,
            Aspect::AddressClass,
            Aspect::NoReturn,
            Aspect::ParameterNames,
        ],
        Role::Base => &[Aspect::Endianity],
        Role::Enumeration => &[Aspect::Sign],
        Role::Pointer => &[
            Aspect::AddressClass,
            Aspect::Const,
            Aspect::Volatile,
            Aspect::Restrict,
            Aspect::Atomic,
        ],
        _ => &[],
    }
}

// The aspects in which two entries are compared, in order.
pub(crate) fn aspects_between(old: Role, new: Role) -> &'static [Aspect]
    ensures { result.now ≡ spec.aspects_between old new }
{
    if old == new { aspects_of(old) } else { &[] }
}

// The aspects in which the entries of two objects are compared, by their tags, in order.
pub(crate) fn object_aspects(old: u64, new: u64) -> &'static [Aspect]
    ensures { result.now ≡ spec.object_aspects old new }
{
    if old == DW_TAG_variable && new == DW_TAG_variable {
        &[Aspect::ConstObject, Aspect::VolatileObject]
    } else {
        &[]
    }
}
