// Imports of applications.
use elf_needs::Need;

/// An import: a symbol that an application takes from another file, with the version that it needs and the file that must define
/// it.
#[derive(Clone, Copy, Debug)]
pub struct Import<'a> {
    /// The index of its symbol in the dynamic symbol table.
    pub symbol: u32,
    /// Its name in the dynamic symbol table.
    pub name: &'a [u8],
    /// Its version and the file that must define it, or None where it has no version.
    pub need: Option<Need<'a>>,
}
