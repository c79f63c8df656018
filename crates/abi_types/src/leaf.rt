// The scalars, pointers, enumerations and vectors that objects consist of.
use crate::kind::{Group, Kind};

/// A scalar, a pointer, an enumeration or a vector in an object. The leaves of an object decide how it is passed in registers
/// (System V psABI for x86-64, section 3.2.3 "Parameter Passing").
#[derive(Clone, Copy, Debug, PartialEq, Eq)]
pub struct Leaf {
    /// The kind of its type.
    pub kind: Kind,
    /// The interpretation of a scalar's bits.
    pub group: Group,
    /// The size of its type in bytes.
    pub size: u64,
    /// Its offset in the object, in bits.
    pub bit: u64,
    /// Its width in bits where it is a bit field, else 0.
    pub width: u64,
}
