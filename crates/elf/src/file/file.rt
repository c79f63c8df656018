// A file without a fault, and look-ups of its sections.
ghost use Rattle.std.specs.Prelude.{◌≡◌, ◌≤◌, ◌<◌, IfOk, IfSome, IfNone, length};
ghost use Rattle.std.specs.Option.{option_copied, option_map};
ghost use Rattle.abi_base.specs.Outcome.{Judges, TakesNoMemory};
ghost use Rattle.elf.specs.file.Elf.{table, elf_fault, section_named, strings_of, name_of_section};
ghost use Rattle.elf.specs.file.Elf as spec;
ghost use Rattle.elf.specs.file.File.{viewed};
ghost use Rattle.abi_base.specs.Limits.{input_limit};

use crate::constants::SHT_STRTAB;
use crate::file::header::{header_fault, section_in, table_in};
use crate::file::places::{
    compressed_fault_in, contents_in, has_name_in, name_fault_in, name_in, range_fault_in,
};
use crate::file::records::{Section, SectionTable};
use abi_base::{INPUT_LIMIT, Refusal};
use std::marker::Model;

/// A file whose header and sections have no fault. Contracts see the file's bytes.
#[derive(Drop)]
pub struct ElfFile<'a> {
    bytes: &'a [u8],
    sections: SectionTable,
    names: &'a [u8],
}

impl<'a> Model for ElfFile<'a> {
    ghost use Rattle.std.specs.Prelude.{List, ℕ};

    ghost Value = { List ℕ };

    ghost use Rattle.elf.specs.file.File.{IsOpen};

    ghost view = { λ file. file.bytes.now };

    ghost invariant = { λ file. IsOpen file.bytes.now file.sections file.names.now };
}

/// Reads the header and the section header table of a file. Err is the first fault, ordered by kind from `ShortFile` to
/// `Compressed` and then by section number. Allocates nothing. The result borrows the bytes, and its look-ups read them.
#[tactic(auto, using(crate::proofs::file_lemmas::ElfLemmas::elf_fault_is))]
pub fn read_elf<'a>(bytes: &'a [u8]) -> Result<ElfFile<'a>, Refusal>
    requires { length bytes.now ≤ input_limit }
    ensures judged { Judges result (elf_fault bytes.now) }
    ensures takes_no_memory { TakesNoMemory result }
    ensures held { IfOk result (λ file. file ≡ bytes.now) }
{
    match header_fault(bytes) {
        Some(fault) => return Err(Refusal::Fault(fault)),
        None => {}
    }
    let sections = table_in(bytes);
    match range_fault_in(bytes, sections) {
        Some(fault) => return Err(Refusal::Fault(fault)),
        None => {}
    }
    let names = contents_in(bytes, sections, sections.names);
    match name_fault_in(bytes, sections, names) {
        Some(fault) => return Err(Refusal::Fault(fault)),
        None => {}
    }
    match compressed_fault_in(bytes, sections, names) {
        Some(fault) => return Err(Refusal::Fault(fault)),
        None => {}
    }
    Ok(ElfFile {
        bytes,
        sections,
        names,
    })
}

impl<'a> ElfFile<'a> {
    /// The contents of the first section with this name, or None exactly where there is no such section.
    pub fn section(&self, name: &[u8]) -> Option<&'a [u8]>
        ensures found { option_copied result ≡ section_named self.now name.now }
        ensures small { IfSome result (λ bytes. length bytes.now ≤ input_limit) }
    {
        match self.section_number(name) {
            Some(number) => Some(contents_in(self.bytes, self.sections, u64::from(number))),
            None => None,
        }
    }

    /// The number of the first section with this name, or None exactly where there is no such section.
    #[tactic(auto, using(abi_base::proofs::lemmas::Places::find_more, abi_base::proofs::lemmas::Places::find_here, abi_base::proofs::lemmas::Places::find_none))]
    pub fn section_number(&self, name: &[u8]) -> Option<u32>
        ensures found { result ≡ spec.section_number self.now name.now }
        ensures inside { IfSome result (λ i. i < (table self.now).count) }
    {
        for number in 0..self.sections.count {
            if has_name_in(self.bytes, self.sections, self.names, number, name) {
                return Some(number as u32);
            }
        }
        None
    }

    /// The first section of this type, or None exactly where there is no such section. Types are those of the gABI, such as
    /// `SHT_DYNSYM`.
    #[tactic(auto, using(abi_base::proofs::lemmas::Places::find_more, abi_base::proofs::lemmas::Places::find_here, abi_base::proofs::lemmas::Places::find_none))]
    pub fn section_of_kind(&self, kind: u32) -> Option<Section<'a>>
        ensures found { option_map viewed result ≡ spec.section_of_kind self.now kind }
        ensures inside { IfSome result (λ s. s.index < (table self.now).count) }
        ensures small { IfSome result (λ s. length s.bytes.now ≤ input_limit) }
    {
        for number in 0..self.sections.count {
            let header = section_in(self.bytes, self.sections, number);
            if header.kind == kind {
                return Some(Section {
                    index: number as u32,
                    bytes: contents_in(self.bytes, self.sections, number),
                    link: header.link,
                    info: header.info,
                    entsize: header.entsize,
                });
            }
        }
        None
    }

    /// The contents of the section with this number, or None exactly where there is no such section or it is not a string table.
    pub fn strings(&self, index: u32) -> Option<&'a [u8]>
        ensures held { option_copied result ≡ strings_of self.now index }
        ensures small { IfSome result (λ bytes. length bytes.now ≤ input_limit) }
    {
        let number = u64::from(index);
        if number >= self.sections.count {
            return None;
        }
        if section_in(self.bytes, self.sections, number).kind == SHT_STRTAB {
            Some(contents_in(self.bytes, self.sections, number))
        } else {
            None
        }
    }

    /// The name of the section with this number, or None exactly where there is no such section.
    pub fn section_name(&self, index: u32) -> Option<&'a [u8]>
        ensures named { option_copied result ≡ name_of_section self.now index }
        ensures outside { IfNone result ((table self.now).count ≤ index) }
    {
        let number = u64::from(index);
        if number >= self.sections.count {
            return None;
        }
        name_in(self.bytes, self.sections, self.names, number)
    }
}
