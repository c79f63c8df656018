//! The debug sections of an ELF file.

ghost use Rattle.std.specs.Prelude.{◌≡◌, ◌≤◌, length};
ghost use Rattle.abi_base.specs.Limits.{input_limit};
ghost use Rattle.elf.specs.sections.DebugSections.{section_or_none, AreSectionsOf};

use crate::file::ElfFile;
use dwarf_forms::Sections;

// The contents of the first section with this name, empty where there is none.
fn section_in<'a>(file: &ElfFile<'a>, name: &[u8]) -> &'a [u8]
    ensures holds { result.now ≡ section_or_none file.now name.now }
    ensures small { length result.now ≤ input_limit }
{
    match file.section(name) {
        Some(bytes) => bytes,
        None => &[],
    }
}

/// The debug sections of a file. Each is the first one of its name, and is empty where it is missing (DWARF 5, section 7.3
/// "Executable Objects and Shared Objects").
pub fn debug_sections<'a>(file: &ElfFile<'a>) -> Sections<'a>
    ensures { AreSectionsOf file.now result }
{
    Sections {
        info: section_in(file, b".debug_info"),
        abbrev: section_in(file, b".debug_abbrev"),
        str: section_in(file, b".debug_str"),
        line_str: section_in(file, b".debug_line_str"),
        str_offsets: section_in(file, b".debug_str_offsets"),
        addr: section_in(file, b".debug_addr"),
        rnglists: section_in(file, b".debug_rnglists"),
        ranges: section_in(file, b".debug_ranges"),
    }
}
