// An export of a library.
ghost use Rattle.std.specs.Prelude.{◌≡◌};
ghost use Rattle.abi_types.specs.Kinds.{kind_word};

/// The kind of an export, from the type of its symbol (ELF specification, "Symbol Table"; `Ifunc` from the GNU extension).
#[derive(Clone, Copy, Debug, PartialEq, Eq)]
pub enum SymbolKind {
    /// No type: STT_NOTYPE.
    NoType,
    /// A data object: STT_OBJECT.
    Object,
    /// A function: STT_FUNC.
    Func,
    /// An uninitialized common block: STT_COMMON.
    Common,
    /// A thread-local variable: STT_TLS.
    Tls,
    /// A function whose resolver picks the implementation: STT_GNU_IFUNC.
    Ifunc,
}

impl SymbolKind {
    /// The word for the kind in printed text.
    pub fn word(self) -> &'static str
        ensures { result.now ≡ kind_word self }
    {
        match self {
            SymbolKind::NoType => "NOTYPE",
            SymbolKind::Object => "OBJECT",
            SymbolKind::Func => "FUNC",
            SymbolKind::Common => "COMMON",
            SymbolKind::Tls => "TLS",
            SymbolKind::Ifunc => "IFUNC",
        }
    }
}

/// An export: a dynamic symbol that other files can bind to, with its version.
#[derive(Clone, Copy, Debug)]
pub struct Export<'a> {
    /// The number of its symbol in the dynamic symbol table.
    pub symbol: u32,
    /// Its name in the dynamic symbol table.
    pub name: &'a [u8],
    /// The name of its version, if any.
    pub version: Option<&'a [u8]>,
    /// The index of its version.
    pub index: u16,
    /// Whether its version is hidden, that is, not the default one of its name.
    pub hidden: bool,
    /// Its kind, from the type of its symbol.
    pub kind: SymbolKind,
    /// Whether its value is absolute and not an address in the file.
    pub absolute: bool,
    /// The value of its symbol: an address, or a number where it is absolute.
    pub value: u64,
    /// Its size in bytes, or 0.
    pub size: u64,
    /// Its name in the debug information if it has one there, else its symbol name.
    pub declared: &'a [u8],
    /// The offset of the debugging information entry of its type, or 0 where it has no type.
    pub entry: u64,
}
