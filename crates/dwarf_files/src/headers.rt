// Line program headers, with their tables.
ghost use Rattle.std.specs.Prelude.{◌≡◌, ◌-◌, ◌^◌, IfOk, min, slice_get};
ghost use Rattle.std.specs.Option.{option_copied, option_map};
ghost use Rattle.dwarf_files.specs.Names.{entries_of, directory_of, file_of, text_of, number_of_directory, directory_text_of, whole_directory_of, name_of};
ghost use Rattle.dwarf_files.specs.Names as spec;
ghost use Rattle.dwarf_files.specs.Plain.{plain_header, program_at};
ghost use Rattle.dwarf_files.specs.Programs.{entry_count_of, header_of};

use crate::entries::Entry;
use crate::heads::head_at;
use crate::sections::LineSections;
use crate::tables::{list_in, table_in};
use crate::texts::join;
use abi_base::{Effort, List, NoMemory, text_at};
use dwarf_forms::Value;
use std::alloc::Global;
use std::marker::Model;

// The header of a line program.
#[derive(Clone, Copy)]
pub(crate) struct Header<'a> {
    // `.debug_line` up to the header's end
    pub(crate) bytes: &'a [u8],
    // `.debug_str`
    pub(crate) str: &'a [u8],
    // `.debug_line_str`
    pub(crate) line_str: &'a [u8],
    pub(crate) version: u64,
    // the offset of the tables of directories and files
    pub(crate) tables: usize,
}

// A header and its tables.
#[derive(Drop)]
pub(crate) struct HeaderTables<'a> {
    header: Header<'a>,
    directories: List<Entry>,
    files: List<Entry>,
}

impl<'a> Model for HeaderTables<'a> {
    ghost use Rattle.dwarf_files.specs.Names.{PlainHeader};
    ghost use Rattle.dwarf_files.specs.Plain.{plain_header};
    ghost use Rattle.dwarf_files.specs.Programs.{HasTables};

    ghost Value = { PlainHeader };

    ghost view = { λ t. plain_header t.header };

    ghost invariant = { λ t. HasTables (plain_header t.header) t.directories t.files };
}

// The index in its table of the file or directory with this number.
fn place_of(version: u64, number: u64) -> Option<u64>
    ensures { result ≡ spec.place_of version number }
{
    if version == 5 {
        Some(number)
    } else if number == 0 {
        None
    } else {
        Some(number - 1)
    }
}

// The entry at this index of a table.
fn entry_at(entries: &[Entry], place: u64) -> Option<Entry>
    ensures { result ≡ slice_get entries.now place }
{
    entries.get(place as usize).copied()
}

// The number of a file's directory.
fn directory_number(directory: Option<Value>) -> Option<u64>
    ensures { result ≡ number_of_directory directory }
{
    match directory {
        None => Some(0),
        Some(Value::Unsigned(number)) => Some(number),
        Some(_) => None,
    }
}

impl<'a> Header<'a> {
    // The table of files or of directories, and the offset after it.
    fn entries(
        &self,
        alloc: Global,
        files: bool,
        at: usize,
    ) -> Result<Option<(List<Entry>, usize)>, NoMemory>
        ensures { IfOk result (λ r. r ≡ entries_of (plain_header self.now) files at) }
    {
        if self.version == 5 {
            table_in(alloc, self.bytes, at)
        } else {
            list_in(alloc, self.bytes, files, at)
        }
    }

    // The string of a name in an entry. Its length is spent.
    fn text(&self, effort: &mut Effort, path: Option<Value>) -> Result<Option<&'a [u8]>, NoMemory>
        ensures { IfOk result (λ text. option_copied text ≡ text_of (plain_header self.now) path) }
    {
        let found = match &path {
            Some(Value::Inline { from }) => text_at(self.bytes, *from),
            Some(Value::StrOffset(place)) => text_at(self.str, place.get()),
            Some(Value::LineOffset(place)) => text_at(self.line_str, place.get()),
            _ => None,
        };
        if let Some(text) = found {
            effort.spend(text.len())?;
        }
        Ok(found)
    }
}

impl<'a> HeaderTables<'a> {
    // The header at an offset in `.debug_line` with its tables, if they are whole. The bytes of the header are spent.
    #[tactic(auto, unfolding(crate::specs::Programs::header_of))]
    pub(crate) fn read(
        alloc: Global,
        effort: &mut Effort,
        sections: &LineSections<'a>,
        at: u64,
    ) -> Result<Option<HeaderTables<'a>>, NoMemory>
        ensures { IfOk result (λ header. header ≡ header_of (program_at sections.now at)) }
    {
        let Some(head) = head_at(sections.line, at as usize) else {
            return Ok(None);
        };
        effort.spend(head.end.saturating_sub(at as usize))?;
        let header = Header {
            bytes: &sections.line[..head.end],
            str: sections.str,
            line_str: sections.line_str,
            version: head.version,
            tables: head.tables,
        };
        let Some((directories, after)) = header.entries(alloc, false, header.tables)? else {
            return Ok(None);
        };
        match header.entries(alloc, true, after)? {
            Some((files, _)) => Ok(Some(HeaderTables {
                header,
                directories,
                files,
            })),
            None => Ok(None),
        }
    }

    // How many directories and files there are, or the greatest number.
    #[tactic(auto, using(crate::proofs::NameLemmas::count_is))]
    pub(crate) fn entry_count(&self) -> usize
        ensures { result ≡ min (entry_count_of self.now) (2 ^ 64 - 1) }
    {
        let directories = self.directories.as_slice().len();
        directories.saturating_add(self.files.as_slice().len())
    }

    // The entry of the directory with this number.
    #[tactic(auto, using(crate::proofs::NameLemmas::directory_is, crate::proofs::NameLemmas::no_directory))]
    fn directory(&self, number: u64) -> Option<Entry>
        ensures { result ≡ directory_of self.now number }
    {
        match place_of(self.header.version, number) {
            Some(place) => entry_at(self.directories.as_slice(), place),
            None => None,
        }
    }

    // The entry of the file with this number.
    #[tactic(auto, using(crate::proofs::NameLemmas::file_is, crate::proofs::NameLemmas::no_file))]
    fn file(&self, number: u64) -> Option<Entry>
        ensures { result ≡ file_of self.now number }
    {
        match place_of(self.header.version, number) {
            Some(place) => entry_at(self.files.as_slice(), place),
            None => None,
        }
    }

    // The name of the directory with this number.
    #[tactic(auto, unfolding(crate::specs::Names::directory_text_of))]
    fn directory_text(&self, effort: &mut Effort, number: u64) -> Result<Option<&'a [u8]>, NoMemory>
        ensures { IfOk result (λ r. option_copied r ≡ directory_text_of self.now number) }
    {
        if self.header.version == 4 && number == 0 {
            return Ok(Some(&[]));
        }
        match self.directory(number) {
            Some(entry) => self.header.text(effort, entry.path),
            None => Ok(None),
        }
    }

    // The name of a directory, joined to directory 0 where it is relative.
    #[tactic(auto, unfolding(crate::specs::Names::whole_directory_of))]
    fn whole_directory(
        &self,
        alloc: Global,
        effort: &mut Effort,
        number: u64,
    ) -> Result<Option<Vec<u8>>, NoMemory>
        ensures { IfOk result (λ r. option_map (λ d. d.items) r ≡ whole_directory_of self.now number) }
    {
        let Some(first) = self.directory_text(effort, 0)? else {
            return Ok(None);
        };
        if number == 0 {
            return Ok(Some(Vec::from_slice(alloc, first)?));
        }
        match self.directory_text(effort, number)? {
            Some(own) => Ok(Some(join(alloc, first, own)?)),
            None => Ok(None),
        }
    }

    // The name of the file with this number, joined to its directory. The lengths of the strings that make it up are spent.
    #[tactic(auto, unfolding(crate::specs::Names::name_of, crate::specs::Names::name_by))]
    pub(crate) fn name(
        &self,
        alloc: Global,
        effort: &mut Effort,
        number: u64,
    ) -> Result<Option<Vec<u8>>, NoMemory>
        ensures { IfOk result (λ r. option_map (λ d. d.items) r ≡ name_of self.now number) }
    {
        let Some(entry) = self.file(number) else {
            return Ok(None);
        };
        let Some(name) = self.header.text(effort, entry.path)? else {
            return Ok(None);
        };
        let Some(number) = directory_number(entry.directory) else {
            return Ok(None);
        };
        match self.whole_directory(alloc, effort, number)? {
            Some(directory) => Ok(Some(join(alloc, directory.as_slice(), name)?)),
            None => Ok(None),
        }
    }
}
