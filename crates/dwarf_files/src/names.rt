// The names of the files of a line program.
ghost use Rattle.std.specs.Prelude.{◌≡◌, ◌-◌, ◌^◌, IfOk, min};
ghost use Rattle.std.specs.Option.{option_map};
ghost use Rattle.dwarf_files.specs.Plain.{program_at};
ghost use Rattle.dwarf_files.specs.Programs.{entry_count_in, name_in};

use crate::headers::HeaderTables;
use crate::sections::LineSections;
use abi_base::{Effort, NoMemory};
use std::alloc::Global;
use std::marker::Model;

/// The header of a line program, which is read once, and gives the names of files by their numbers. Contracts see the sections and
/// the offset of the header.
#[derive(Drop)]
pub struct FileNames<'a> {
    sections: LineSections<'a>,
    at: u64,
    // None if the header or one of its tables is damaged.
    header: Option<HeaderTables<'a>>,
}

impl<'a> Model for FileNames<'a> {
    ghost use Rattle.std.specs.Prelude.{◌≡◌};
    ghost use Rattle.dwarf_files.specs.Plain.{program_at};
    ghost use Rattle.dwarf_files.specs.Programs.{LineProgram, header_of};

    ghost Value = { LineProgram };

    ghost view = { λ n. program_at n.sections n.at };

    ghost invariant = { λ n. n.header ≡ header_of (program_at n.sections n.at) };
}

impl<'a> FileNames<'a> {
    /// Reads the header at an offset in `.debug_line` and its tables, and spends its bytes. A damaged header gives no names.
    pub fn read(
        alloc: Global,
        effort: &mut Effort,
        sections: &LineSections<'a>,
        offset: u64,
    ) -> Result<FileNames<'a>, NoMemory>
        ensures { IfOk result (λ names. names ≡ program_at sections.now offset) }
    {
        let header = HeaderTables::read(alloc, effort, sections, offset)?;
        Ok(FileNames {
            sections: *sections,
            at: offset,
            header,
        })
    }

    /// How many directories and files the header has, or the greatest number: none if it or a table is damaged.
    pub fn entry_count(&self) -> usize
        ensures { result ≡ min (entry_count_in self.now) (2 ^ 64 - 1) }
    {
        match &self.header {
            Some(header) => header.entry_count(),
            None => 0,
        }
    }

    /// The name of the file with this number (DWARF 5, section 6.2.4 "The Line Number Program Header"; DWARF 4, the same section).
    /// None exactly where the header is damaged, has another version than 4 and 5, is in the 64-bit DWARF format, or has no such
    /// file, or where the name or its directory is not a string of the header, `.debug_str` or `.debug_line_str`. A table whose
    /// entries take no bytes counts as damage, so that the size of a header bounds the time and the memory for its tables.
    ///
    /// Version 5 numbers files from 0, the primary source file, and version 4 from 1. A name that begins with a slash is unchanged.
    /// Any other name is prefixed with its directory and a slash; a relative directory is prefixed with directory 0, in which the
    /// unit was compiled. A header of version 4 does not have that directory, and the name is relative to it.
    ///
    /// The lengths of the strings that make up a name are spent, since many files can share a long string.
    #[tactic(auto, using(crate::proofs::NameLemmas::no_name, crate::proofs::NameLemmas::name_is))]
    pub fn name(
        &self,
        alloc: Global,
        effort: &mut Effort,
        file: u64,
    ) -> Result<Option<Vec<u8>>, NoMemory>
        ensures { IfOk result (λ name. option_map (λ n. n.items) name ≡ name_in self.now file) }
    {
        match &self.header {
            Some(header) => header.name(alloc, effort, file),
            None => Ok(None),
        }
    }
}
