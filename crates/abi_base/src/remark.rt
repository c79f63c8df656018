// Remarks on two libraries, which the program prints beside its answer.

/// The exports of a library that have a size: how many there are, and how many have no type in its debug information.
#[derive(Clone, Copy, Debug, PartialEq, Eq)]
pub struct SizedExports {
    /// How many exports have a size above 0.
    pub all: usize,
    /// How many of them have no type. Only their name, version, kind and size are compared.
    pub untyped: usize,
}

/// Remarks on two libraries that no answer contains but that matter to readers of one.
#[derive(Clone, Copy, Debug, PartialEq, Eq)]
pub struct Remark {
    /// Of the old library.
    pub old: SizedExports,
    /// Of the new library.
    pub new: SizedExports,
}
