// The file header and the section headers, and the faults of the file header.
ghost use Rattle.std.specs.Prelude.{◌≡◌, ◌+◌, ◌*◌, ◌<◌, ◌≤◌, Some, length, IfNone};
ghost use Rattle.abi_base.specs.Outcome.{first};
ghost use Rattle.elf.specs.file.Elf.{header_at, table, section, header_faults, HasTable};
ghost use Rattle.elf.specs.file.Elf as spec;
ghost use Rattle.abi_base.specs.Elf.{ehdr_size, shdr_size};

use crate::constants::{
    E_MACHINE, E_SHENTSIZE, E_SHNUM, E_SHOFF, E_SHSTRNDX, E_TYPE, E_VERSION, EHDR_SIZE, EI_CLASS,
    EI_DATA, EI_VERSION, ELFCLASS64, ELFDATA2LSB, ELFMAG, EM_X86_64, ET_DYN, EV_CURRENT,
    SH_ENTSIZE, SH_FLAGS, SH_INFO, SH_LINK, SH_NAME, SH_OFFSET, SH_SIZE, SH_TYPE, SHDR_SIZE,
    SHN_XINDEX, SHT_STRTAB,
};
use crate::file::records::{SectionHeader, SectionTable};
use abi_base::{Fault, FaultKind, u16_in, u32_in, u64_in};

// The section header at an offset in the file.
#[tactic(auto, unfolding(crate::specs::file::Elf::header_at))]
fn header_in(bytes: &[u8], at: usize) -> SectionHeader
    requires { at + shdr_size ≤ length bytes.now }
    ensures { result ≡ header_at bytes.now at }
{
    SectionHeader {
        name: u32_in(bytes, at + SH_NAME),
        kind: u32_in(bytes, at + SH_TYPE),
        flags: u64_in(bytes, at + SH_FLAGS),
        offset: u64_in(bytes, at + SH_OFFSET),
        size: u64_in(bytes, at + SH_SIZE),
        link: u32_in(bytes, at + SH_LINK),
        info: u32_in(bytes, at + SH_INFO),
        entsize: u64_in(bytes, at + SH_ENTSIZE),
    }
}

/// The offset of the section header table, the number of its headers, and the index of the section name string table. Requires that
/// section 0 is in the file: its size is the count where the file header has 0, and its link is the index where that has
/// `SHN_XINDEX`.
#[tactic(auto, unfolding(crate::specs::file::Elf::table))]
pub fn table_in(bytes: &[u8]) -> SectionTable
    requires header { ehdr_size ≤ length bytes.now }
    requires inside { (table bytes.now).at + shdr_size ≤ length bytes.now }
    ensures { result ≡ table bytes.now }
{
    let at = u64_in(bytes, E_SHOFF);
    let zeroth = header_in(bytes, at as usize);
    let count = u16_in(bytes, E_SHNUM);
    let names = u16_in(bytes, E_SHSTRNDX);
    SectionTable {
        at,
        count: if count == 0 {
            zeroth.size
        } else {
            u64::from(count)
        },
        names: if names == SHN_XINDEX {
            u64::from(zeroth.link)
        } else {
            u64::from(names)
        },
    }
}

/// The header of the section with this number.
#[tactic(auto, unfolding(crate::specs::file::Elf::section))]
pub fn section_in(bytes: &[u8], sections: SectionTable, number: u64) -> SectionHeader
    requires table { sections ≡ table bytes.now }
    requires has { HasTable bytes.now }
    requires number { number < sections.count }
    ensures { result ≡ section bytes.now number }
{
    header_in(bytes, (sections.at + SHDR_SIZE as u64 * number) as usize)
}

// Whether there is no section header table, or it is not inside the file, or the section of names is missing or is not a string
// table. Compares sizes with the remaining room, since a sum could overflow.
#[tactic(auto, unfolding(crate::specs::file::Elf::table, crate::specs::file::Elf::section))]
fn is_table_bad(bytes: &[u8]) -> bool
    requires { ehdr_size ≤ length bytes.now }
    ensures { result ≡ spec.is_table_bad bytes.now }
{
    let len = bytes.len();
    let at = u64_in(bytes, E_SHOFF);
    let header_size = u16_in(bytes, E_SHENTSIZE);
    if at == 0 || header_size as usize != SHDR_SIZE || at > (len - SHDR_SIZE) as u64 {
        return true;
    }
    let sections = table_in(bytes);
    let room = (len as u64 - at) / SHDR_SIZE as u64;
    if sections.count == 0 || sections.count > room || sections.names >= sections.count {
        return true;
    }
    let names = header_in(bytes, (at + SHDR_SIZE as u64 * sections.names) as usize);
    names.kind != SHT_STRTAB
}

// A fault of the file header, at an offset in it.
fn fault(kind: FaultKind, at: usize) -> Option<Fault>
    ensures { result ≡ Some (record { kind = kind; at = at }) }
{
    Some(Fault {
        kind,
        at: at as u64,
    })
}

/// The first fault of the file header, from `ShortFile` to `SectionTable` in this order (gABI, "ELF Header").
#[tactic(auto, unfolding(crate::specs::file::Elf::header_faults))]
pub fn header_fault(bytes: &[u8]) -> Option<Fault>
    ensures fault { result ≡ first (header_faults bytes.now) }
    ensures long { IfNone result (ehdr_size ≤ length bytes.now) }
    ensures table { IfNone result (HasTable bytes.now) }
{
    if bytes.len() < EHDR_SIZE {
        return fault(FaultKind::ShortFile, bytes.len());
    }
    if &bytes[..ELFMAG.len()] != &ELFMAG[..] {
        return fault(FaultKind::NotElf, 0);
    }
    if bytes[EI_CLASS] != ELFCLASS64 {
        return fault(FaultKind::Class, EI_CLASS);
    }
    if bytes[EI_DATA] != ELFDATA2LSB {
        return fault(FaultKind::Data, EI_DATA);
    }
    if bytes[EI_VERSION] != EV_CURRENT {
        return fault(FaultKind::Version, EI_VERSION);
    }
    if u32_in(bytes, E_VERSION) != u32::from(EV_CURRENT) {
        return fault(FaultKind::Version, E_VERSION);
    }
    if u16_in(bytes, E_TYPE) != ET_DYN {
        return fault(FaultKind::NotShared, E_TYPE);
    }
    if u16_in(bytes, E_MACHINE) != EM_X86_64 {
        return fault(FaultKind::Machine, E_MACHINE);
    }
    if is_table_bad(bytes) {
        return fault(FaultKind::SectionTable, E_SHOFF);
    }
    None
}
