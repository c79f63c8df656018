//! The constants of ELF-64 files under their standard names, grouped by standard.

// ---- System V gABI: "ELF Header", "Section Header"

/// The size of an ELF-64 file header, `Elf64_Ehdr`.
pub const EHDR_SIZE: usize = 64;

/// The size of a section header, `Elf64_Shdr`.
pub const SHDR_SIZE: usize = 64;

/// The first four bytes of a file.
pub const ELFMAG: [u8; 4] = *b"\x7fELF";

/// The byte of a file with its class: the size of its addresses.
pub const EI_CLASS: usize = 4;

/// The byte of a file with its byte order.
pub const EI_DATA: usize = 5;

/// The byte of a file with the version of its identification.
pub const EI_VERSION: usize = 6;

/// The offset of the file's type in the file header.
pub const E_TYPE: usize = 16;

/// The offset of the machine in the file header.
pub const E_MACHINE: usize = 18;

/// The offset of the version of the format in the file header.
pub const E_VERSION: usize = 20;

/// The offset in the file header of the file offset of the section header table.
pub const E_SHOFF: usize = 40;

/// The offset in the file header of the size of a section header.
pub const E_SHENTSIZE: usize = 58;

/// The offset in the file header of the number of section headers; where that is 0, section 0 has it.
pub const E_SHNUM: usize = 60;

/// The offset in the file header of the index of the section name string table; `SHN_XINDEX` where section 0 has it.
pub const E_SHSTRNDX: usize = 62;

/// The class of 64-bit files.
pub const ELFCLASS64: u8 = 2;

/// The little-endian byte order.
pub const ELFDATA2LSB: u8 = 1;

/// The only version of the format.
pub const EV_CURRENT: u8 = 1;

/// The type of shared objects.
pub const ET_DYN: u16 = 3;

/// The machine x86-64.
pub const EM_X86_64: u16 = 62;

/// The `e_shstrndx` that refers to the `sh_link` of section 0.
pub const SHN_XINDEX: u16 = 0xffff;

/// The offset in a section header of the offset of its name in the section name string table.
pub const SH_NAME: usize = 0;

/// The offset in a section header of its type.
pub const SH_TYPE: usize = 4;

/// The offset in a section header of its flags.
pub const SH_FLAGS: usize = 8;

/// The offset in a section header of the file offset of its contents.
pub const SH_OFFSET: usize = 24;

/// The offset in a section header of the size of the section.
pub const SH_SIZE: usize = 32;

/// The offset in a section header of the index of a linked section.
pub const SH_LINK: usize = 40;

/// The offset in a section header of its extra information, which depends on the type.
pub const SH_INFO: usize = 44;

/// The offset in a section header of the size of an entry.
pub const SH_ENTSIZE: usize = 56;

/// An unused section header.
pub const SHT_NULL: u32 = 0;

/// A string table.
pub const SHT_STRTAB: u32 = 3;

/// The dynamic table.
pub const SHT_DYNAMIC: u32 = 6;

/// A section that holds no bytes in the file.
pub const SHT_NOBITS: u32 = 8;

/// The dynamic symbol table.
pub const SHT_DYNSYM: u32 = 11;

/// The version definitions.
pub const SHT_GNU_VERDEF: u32 = 0x6fff_fffd;

/// The version requirements.
pub const SHT_GNU_VERNEED: u32 = 0x6fff_fffe;

/// The version indexes of the dynamic symbols.
pub const SHT_GNU_VERSYM: u32 = 0x6fff_ffff;

/// The flag of a compressed section.
pub const SHF_COMPRESSED: u64 = 0x800;

/// The prefix of the names of debug sections.
pub const DEBUG_PREFIX: [u8; 7] = *b".debug_";

/// The prefix of the names of debug sections that are compressed in the older GNU style.
pub const ZDEBUG_PREFIX: [u8; 8] = *b".zdebug_";

// ---- System V gABI: "Symbol Table", "Dynamic Section" (STB_GNU_UNIQUE and STT_GNU_IFUNC are those of GNU)

/// The size of a symbol, `Elf64_Sym`.
pub const SYM_SIZE: usize = 24;

/// The offset in a symbol of the offset of its name in the string table.
pub const ST_NAME: usize = 0;

/// The offset in a symbol of the byte with its binding, in the high half, and its type, in the low half.
pub const ST_INFO: usize = 4;

/// The offset in a symbol of the byte with its visibility, in the two lowest bits.
pub const ST_OTHER: usize = 5;

/// The offset in a symbol of the index of its section.
pub const ST_SHNDX: usize = 6;

/// The offset in a symbol of its value.
pub const ST_VALUE: usize = 8;

/// The offset in a symbol of its size.
pub const ST_SIZE: usize = 16;

/// A symbol that is visible only in its own file.
pub const STB_LOCAL: u8 = 0;

/// A symbol that is visible in all files.
pub const STB_GLOBAL: u8 = 1;

/// A global symbol of lower precedence.
pub const STB_WEAK: u8 = 2;

/// A global symbol that is unique in a process.
pub const STB_GNU_UNIQUE: u8 = 10;

/// A symbol without a type.
pub const STT_NOTYPE: u8 = 0;

/// A data object.
pub const STT_OBJECT: u8 = 1;

/// A function.
pub const STT_FUNC: u8 = 2;

/// An uninitialized common block.
pub const STT_COMMON: u8 = 5;

/// A thread-local object.
pub const STT_TLS: u8 = 6;

/// A function whose resolver runs at load time.
pub const STT_GNU_IFUNC: u8 = 10;

/// The visibility that follows from the binding.
pub const STV_DEFAULT: u8 = 0;

/// Visible in other files, but not preempted by them.
pub const STV_PROTECTED: u8 = 3;

/// The section of an undefined symbol.
pub const SHN_UNDEF: u16 = 0;

/// The section index of a symbol with an absolute value.
pub const SHN_ABS: u16 = 0xfff1;

/// The size of an entry of the dynamic table, `Elf64_Dyn`.
pub const DYN_SIZE: usize = 16;

/// The offset in an entry of the dynamic table of its tag.
pub const D_TAG: usize = 0;

/// The offset in an entry of the dynamic table of its value.
pub const D_VAL: usize = 8;

/// The tag that ends the table.
pub const DT_NULL: u64 = 0;

/// The tag of the name of a needed shared object.
pub const DT_NEEDED: u64 = 1;

/// The tag of the name of the shared object.
pub const DT_SONAME: u64 = 14;

// ---- GNU symbol versioning (Linux Standard Base, "Symbol Versioning")

/// The size of the version index of a symbol, `Elf64_Versym`.
pub const VERSYM_SIZE: usize = 2;

/// The bit of a version index that marks a hidden version, one that is not the default of its symbol.
pub const VERSYM_HIDDEN: u16 = 0x8000;

/// The index of symbols that are visible only in their own file.
pub const VER_NDX_LOCAL: u16 = 0;

/// The index of global symbols without a version.
pub const VER_NDX_GLOBAL: u16 = 1;

/// The size of a version definition, `Elf64_Verdef`.
pub const VERDEF_SIZE: usize = 20;

/// The offset in a definition of the version of its format.
pub const VD_VERSION: usize = 0;

/// The offset in a definition of its index.
pub const VD_NDX: usize = 4;

/// The offset in a definition of the number of its auxiliary entries.
pub const VD_CNT: usize = 6;

/// The offset in a definition of the offset of its first auxiliary entry, which counts from the definition.
pub const VD_AUX: usize = 12;

/// The offset in a definition of the offset of the next definition, which counts from this one.
pub const VD_NEXT: usize = 16;

/// The only version of the format of definitions.
pub const VER_DEF_CURRENT: u16 = 1;

/// The size of an auxiliary entry, `Elf64_Verdaux`.
pub const VERDAUX_SIZE: usize = 8;

/// The offset in an auxiliary entry of the offset of its name in the string table.
pub const VDA_NAME: usize = 0;
