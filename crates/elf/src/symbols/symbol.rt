// A dynamic symbol.
ghost use Rattle.std.specs.Prelude.{◌≡◌};

use crate::constants::{
    SHN_UNDEF, STB_GLOBAL, STB_GNU_UNIQUE, STB_WEAK, STT_COMMON, STT_FUNC, STT_GNU_IFUNC,
    STT_NOTYPE, STT_OBJECT, STT_TLS, STV_DEFAULT, STV_PROTECTED,
};

/// A dynamic symbol, from its record in the symbol table (`Elf64_Sym`).
#[derive(Clone, Copy, Debug)]
pub struct Symbol<'a> {
    /// Its index in the table. Symbol 0 is the reserved one.
    pub number: u32,
    /// Its name, without the terminating 0 byte. The reserved symbol usually has an empty name.
    pub name: &'a [u8],
    /// Its binding, such as `STB_GLOBAL`.
    pub binding: u8,
    /// Its type, such as `STT_FUNC`.
    pub kind: u8,
    /// Its visibility, such as `STV_DEFAULT`.
    pub visibility: u8,
    /// The index of its section, or a special one such as `SHN_UNDEF`.
    pub section: u16,
    /// Its value, usually an address.
    pub value: u64,
    /// Its size in bytes, or 0.
    pub size: u64,
}

impl Symbol<'_> {
    ghost use Rattle.elf.specs.symbols.Plain.{plain_symbol};
    ghost use Rattle.elf.specs.symbols.Symbols as spec;

    /// Whether other files may bind to the symbol, judged by its record alone: all conditions of an export except the version.
    pub fn is_exported(&self) -> bool
        ensures { result ≡ spec.is_exported (plain_symbol self.now) }
    {
        self.number != 0
            && matches!(self.binding, STB_GLOBAL | STB_WEAK | STB_GNU_UNIQUE)
            && matches!(self.visibility, STV_DEFAULT | STV_PROTECTED)
            && self.section != SHN_UNDEF
            && matches!(
                self.kind,
                STT_NOTYPE | STT_OBJECT | STT_FUNC | STT_COMMON | STT_TLS | STT_GNU_IFUNC
            )
    }
}
