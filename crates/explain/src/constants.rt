// The ELF constants that sentences on files use.

// The magic number of an ELF file, and the offsets of its class and byte order (gABI, "ELF Identification").
pub(crate) const ELF_MAGIC: &[u8] = b"\x7fELF";

pub(crate) const EI_CLASS: usize = 4;

pub(crate) const ELFCLASS32: u8 = 1;

pub(crate) const EI_DATA: usize = 5;

pub(crate) const ELFDATA2MSB: u8 = 2;

// Offsets in an ELF header: the type, the position of the section table, and the index of the section of names (gABI, "ELF
// Header").
pub(crate) const E_TYPE: usize = 16;

pub(crate) const ET_REL: u16 = 1;

pub(crate) const ET_EXEC: u16 = 2;

pub(crate) const ET_CORE: u16 = 4;

pub(crate) const E_SHOFF: usize = 40;

pub(crate) const E_SHSTRNDX: usize = 62;

// The value that means that section 0 holds the index of the section of names.
pub(crate) const SHN_XINDEX: u16 = 0xffff;

// The size of a section header, and the offsets of its fields (gABI, "Section Header").
pub(crate) const HEADER_SIZE: usize = 64;

pub(crate) const SH_OFFSET: usize = 24;

pub(crate) const SH_LINK: usize = 40;

// Offsets in an ELF header: the position of the program header table, and the number of its entries (gABI, "ELF Header").
pub(crate) const E_PHOFF: usize = 32;

pub(crate) const E_PHNUM: usize = 56;

// The size of a program header, the offsets of its fields, and the types of segments (gABI, "Program Header").
pub(crate) const PROGRAM_HEADER_SIZE: u64 = 56;

pub(crate) const P_TYPE: usize = 0;

pub(crate) const P_OFFSET: usize = 8;

pub(crate) const P_FILESZ: usize = 32;

pub(crate) const PT_DYNAMIC: u32 = 2;

pub(crate) const PT_INTERP: u32 = 3;

// The tag of the flags in the dynamic table, and the flag of a position-independent executable (both GNU's).
pub(crate) const DT_FLAGS_1: u64 = 0x6fff_fffb;

pub(crate) const DF_1_PIE: u64 = 0x0800_0000;
