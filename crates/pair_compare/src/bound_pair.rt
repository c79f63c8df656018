// Two libraries that are compared.
use abi_types::{Library, Marks, NewIx, OldIx};

/// Two libraries, the marks of the old one, and for each old export the position of the new one to which it binds, as
/// `elf_bind::bind_all` returns it.
#[derive(Clone, Copy)]
pub struct BoundPair<'x, 'o, 'n> {
    /// The old library.
    pub old: &'x Library<'o, OldIx>,
    /// The new library.
    pub new: &'x Library<'n, NewIx>,
    /// The marks of the old library's exports and types.
    pub marks: &'x Marks,
    /// For each old export, the position of the new export to which it binds; `None` where it binds to none.
    pub bound: &'x [Option<usize>],
}
