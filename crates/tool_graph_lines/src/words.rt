// The words for kinds of types, groups of scalars and kinds of labels.
use abi_types::{Group, Kind, LabelKind};

pub(crate) fn kind_word(kind: Kind) -> &'static str {
    match kind {
        Kind::Void => "void",
        Kind::Scalar => "scalar",
        Kind::Pointer => "pointer",
        Kind::Enumeration => "enumeration",
        Kind::Structure => "structure",
        Kind::Union => "union",
        Kind::Array => "array",
        Kind::Vector => "vector",
        Kind::Function => "function",
    }
}

pub(crate) fn group_word(group: Group) -> &'static str {
    match group {
        Group::Bool => "bool",
        Group::Signed => "signed",
        Group::Unsigned => "unsigned",
        Group::Float => "float",
        Group::Quad => "quad",
        Group::Complex => "complex",
        Group::Decimal => "decimal",
    }
}

pub(crate) fn label_word(kind: LabelKind) -> &'static str {
    match kind {
        LabelKind::Structure => "structure",
        LabelKind::Union => "union",
        LabelKind::Enumeration => "enumeration",
        LabelKind::Typedef => "typedef",
        LabelKind::Builtin => "builtin",
    }
}
