// Kinds of types, and kinds of names.

/// The kind of a type.
#[derive(Clone, Copy, Debug, PartialEq, Eq)]
pub enum Kind {
    /// No type: unknown, or the result of a function that returns nothing.
    Void,
    /// A base type: an integer, a character, a Boolean or a floating-point number.
    Scalar,
    /// A pointer.
    Pointer,
    /// An enumeration with its enumerators.
    Enumeration,
    /// A structure with its members.
    Structure,
    /// A union with its members.
    Union,
    /// An array of any number of dimensions.
    Array,
    /// A vector type of the machine.
    Vector,
    /// A function, with its result and its parameters.
    Function,
}

/// How a caller interprets a scalar's bits.
#[derive(Clone, Copy, Debug, PartialEq, Eq)]
pub enum Group {
    /// A Boolean.
    Bool,
    /// A signed integer or character.
    Signed,
    /// An unsigned integer or character.
    Unsigned,
    /// A binary floating-point number other than `Quad`.
    Float,
    /// A binary floating-point number of 128 bits.
    Quad,
    /// A complex number.
    Complex,
    /// A decimal floating-point number.
    Decimal,
}

/// The kind of name in a label.
#[derive(Clone, Copy, Debug, PartialEq, Eq)]
pub enum LabelKind {
    /// The tag of a structure.
    Structure,
    /// The tag of a union.
    Union,
    /// The tag of an enumeration.
    Enumeration,
    /// The name of a typedef.
    Typedef,
    /// The name of a base type.
    Builtin,
}

/// How a call reaches an object: by value, or through a pointer.
#[derive(Clone, Copy, Debug, PartialEq, Eq)]
pub enum Way {
    /// By value, without a pointer on the way.
    Direct,
    /// Through a pointer.
    Pointer,
}
