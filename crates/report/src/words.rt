// The words for kinds of types and groups of scalars.
ghost use Rattle.std.specs.Prelude.{◌≡◌};
ghost use Rattle.report.specs.Words.{kind_of_type};
ghost use Rattle.report.specs.Words as spec;

use abi_types::{Group, Kind};

/// The word for a kind of type.
pub fn kind_word(kind: Kind) -> &'static str
    ensures { result.now ≡ kind_of_type kind }
{
    match kind {
        Kind::Void => "void",
        Kind::Scalar => "scalar",
        Kind::Pointer => "pointer",
        Kind::Enumeration => "enum",
        Kind::Structure => "struct",
        Kind::Union => "union",
        Kind::Array => "array",
        Kind::Vector => "vector",
        Kind::Function => "function",
    }
}

/// The word for a group of scalars.
pub fn group_word(group: Group) -> &'static str
    ensures { result.now ≡ spec.group_word group }
{
    match group {
        Group::Bool => "bool",
        Group::Signed => "signed",
        Group::Unsigned => "unsigned",
        Group::Float => "float",
        Group::Quad => "quad",
        Group::Complex => "complex",
        Group::Decimal => "decimal",
    }
}

/// `yes` or `no`.
pub fn yes_or_no(answer: bool) -> &'static str
    ensures { result.now ≡ spec.yes_or_no answer }
{
    if answer { "yes" } else { "no" }
}
