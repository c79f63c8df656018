// What a file needs.

/// A file, a version of a file or a symbol that a file needs.
#[derive(Clone, Copy, Debug)]
pub struct Needed<'a> {
    /// Its name.
    pub name: &'a [u8],
    /// The file of a version, or the version of a symbol; empty for a file, and for a symbol without a version.
    pub of: &'a [u8],
}

/// What a file needs of other files.
#[derive(Drop)]
pub struct FileNeeds<'a> {
    /// The files, in the order of their entries in the dynamic table.
    pub files: Vec<Needed<'a>>,
    /// The versions of files, in the order of their version indexes.
    pub versions: Vec<Needed<'a>>,
    /// The symbols that must be defined, in the order of the symbol table.
    pub symbols: Vec<Needed<'a>>,
}
