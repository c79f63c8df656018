//! ELF-64 x86-64 shared objects: the section header table, the contents of sections, and the first fault of header and
//! sections (System V gABI, "ELF Header", "Sections", "String Table").

mod file;
mod header;
pub mod laws;
mod places;
mod records;

pub use file::{ElfFile, read_elf};
pub use records::{Section, SectionHeader, SectionTable};
