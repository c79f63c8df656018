// The constants of the System V gABI in a generated library, and those of this generator.

/// `e_ident`: the magic number (ELFMAG), 64-bit (ELFCLASS64), little-endian (ELFDATA2LSB), version EV_CURRENT, and zeros for the
/// rest.
pub const E_IDENT: [u8; 16] = *b"\x7fELF\x02\x01\x01\0\0\0\0\0\0\0\0\0";

/// The file type of shared objects.
pub const ET_DYN: u16 = 3;

/// The machine x86-64.
pub const EM_X86_64: u16 = 62;

/// The version of the format.
pub const EV_CURRENT: u32 = 1;

/// The size of the file header, `Elf64_Ehdr`, in bytes.
pub const EHDR_SIZE: usize = 64;

/// The size of a section header, `Elf64_Shdr`, in bytes.
pub const SHDR_SIZE: usize = 64;

/// The size of a symbol, `Elf64_Sym`, in bytes.
pub const SYM_SIZE: usize = 24;

/// The type of a section whose contents only programs interpret.
pub const SHT_PROGBITS: u32 = 1;

/// The type of string tables.
pub const SHT_STRTAB: u32 = 3;

/// The type of the dynamic symbol table.
pub const SHT_DYNSYM: u32 = 11;

/// `st_info` of a global function: STB_GLOBAL in the high half, STT_FUNC in the low half.
pub const GLOBAL_FUNCTION: u8 = 0x12;

/// The visibility that the binding implies.
pub const STV_DEFAULT: u8 = 0;

/// The alignment of each section in the file.
pub const ALIGNMENT: usize = 8;
