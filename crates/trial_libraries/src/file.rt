// Files made of sections.
ghost use Rattle.std.specs.Prelude.{◌≡◌, ◌+◌, ◌++◌, length, OnOk, IfOk};
ghost use Rattle.std.specs.List.{flat_map};
ghost use Rattle.trial_libraries.specs.Bytes.{filled};
ghost use Rattle.trial_libraries.specs.Libraries.{contents_of, file_header, file_kind, file_of, file_places, file_sizes, section_header, section_table};

use crate::abbreviations::abbreviation_table;
use crate::bytes::{put_filled, put_u16, put_u32, put_u64};
use crate::constants::{
    ALIGNMENT, E_IDENT, EHDR_SIZE, EM_X86_64, ET_DYN, EV_CURRENT, SHDR_SIZE, SHT_DYNSYM,
    SHT_PROGBITS, SHT_STRTAB, SYM_SIZE,
};
use std::alloc::{AllocError, Global};

// The fields of a section header except the offset and the size.
struct Section {
    name_place: u32,
    kind: u32,
    link: u32,
    info: u32,
    entry_size: u64,
}

// The section name string table, with the names of sections 1 to 5.
const NAMES: [u8; 53] = *b"\0.dynsym\0.dynstr\0.debug_abbrev\0.debug_info\0.shstrtab\0";

// The number of sections, including section 0, and the index of the section name string table.
const SECTION_COUNT: u16 = 6;

const NAMES_NUMBER: u16 = 5;

// The dynamic symbol table. Section 2 is its string table, and symbol 1 is the first one that is not local.
const SYMBOLS: Section = Section {
    name_place: 1,
    kind: SHT_DYNSYM,
    link: 2,
    info: 1,
    entry_size: SYM_SIZE as u64,
};

const SYMBOL_NAMES: Section = Section {
    name_place: 9,
    kind: SHT_STRTAB,
    link: 0,
    info: 0,
    entry_size: 0,
};

const ABBREVIATIONS: Section = Section {
    name_place: 17,
    kind: SHT_PROGBITS,
    link: 0,
    info: 0,
    entry_size: 0,
};

const UNITS: Section = Section {
    name_place: 31,
    kind: SHT_PROGBITS,
    link: 0,
    info: 0,
    entry_size: 0,
};

const SECTION_NAMES: Section = Section {
    name_place: 43,
    kind: SHT_STRTAB,
    link: 0,
    info: 0,
    entry_size: 0,
};

// The parts of the file after its header: the sections, and the section header table.
#[derive(Drop)]
struct Layout {
    sections: Vec<u8>,
    table: Vec<u8>,
}

// Appends the first fields of the file header: the kind of file.
fn put_file_kind(file: &mut Vec<u8>) -> Result<(), AllocError>
    ensures { OnOk result (file.new.items ≡ file.old.items ++ file_kind) }
{
    file.extend_from_slice(&E_IDENT)?;
    put_u16(file, ET_DYN)?;
    put_u16(file, EM_X86_64)?;
    put_u32(file, EV_CURRENT)
}

// Appends the next fields of the file header: the entry point, and the offsets of the tables. There are no segments.
fn put_file_places(file: &mut Vec<u8>, table_place: u64) -> Result<(), AllocError>
    ensures { OnOk result (file.new.items ≡ file.old.items ++ file_places table_place) }
{
    put_u64(file, 0)?;
    put_u64(file, 0)?;
    put_u64(file, table_place)
}

// Appends the last fields of the file header: the flags, and sizes and counts. The header's own size remains 0.
fn put_file_sizes(file: &mut Vec<u8>) -> Result<(), AllocError>
    ensures { OnOk result (file.new.items ≡ file.old.items ++ file_sizes) }
{
    put_u32(file, 0)?;
    put_u16(file, 0)?;
    put_u16(file, 0)?;
    put_u16(file, 0)?;
    put_u16(file, SHDR_SIZE as u16)?;
    put_u16(file, SECTION_COUNT)?;
    put_u16(file, NAMES_NUMBER)
}

// Appends the file header.
fn put_file_header(file: &mut Vec<u8>, table_place: u64) -> Result<(), AllocError>
    ensures { OnOk result (file.new.items ≡ file.old.items ++ file_header table_place) }
{
    put_file_kind(file)?;
    put_file_places(file, table_place)?;
    put_file_sizes(file)
}

// Appends the header of a section with this offset and size.
fn put_section_header(
    table: &mut Vec<u8>,
    section: &Section,
    place: u64,
    size: u64,
) -> Result<(), AllocError>
    ensures { OnOk result (table.new.items ≡ table.old.items
        ++ section_header section.now.name_place section.now.kind place size section.now.link section.now.info
        section.now.entry_size) }
{
    put_u32(table, section.name_place)?;
    put_u32(table, section.kind)?;
    // sh_flags and sh_addr
    put_u64(table, 0)?;
    put_u64(table, 0)?;
    put_u64(table, place)?;
    put_u64(table, size)?;
    put_u32(table, section.link)?;
    put_u32(table, section.info)?;
    put_u64(table, ALIGNMENT as u64)?;
    put_u64(table, section.entry_size)
}

// Appends a section: its contents, padded with zeros, and its header in the table.
fn put_section(layout: &mut Layout, section: &Section, contents: &[u8]) -> Result<(), AllocError>
    ensures sections { OnOk result (layout.new.sections.items ≡ layout.old.sections.items ++ filled contents.now) }
    ensures table { OnOk result (layout.new.table.items
        ≡ layout.old.table.items ++ section_header section.now.name_place section.now.kind
        (EHDR_SIZE + length layout.old.sections.items)
        (length contents.now) section.now.link section.now.info section.now.entry_size) }
{
    let place = (EHDR_SIZE + layout.sections.as_slice().len()) as u64;
    put_section_header(&mut layout.table, section, place, contents.len() as u64)?;
    put_filled(&mut layout.sections, contents)
}

// The parts after the header of a file with these symbols, symbol names and units.
fn lay_out(alloc: Global, symbols: &[u8], names: &[u8], units: &[u8]) -> Result<Layout, AllocError>
    ensures sections { IfOk result (λ layout. layout.sections.items
        ≡ flat_map filled (contents_of symbols.now names.now units.now)) }
    ensures table { IfOk result (λ layout. layout.table.items
        ≡ section_table (contents_of symbols.now names.now units.now)) }
{
    let mut layout = Layout {
        sections: Vec::new(alloc),
        table: Vec::from_slice(alloc, &[0; SHDR_SIZE])?,
    };
    put_section(&mut layout, &SYMBOLS, symbols)?;
    put_section(&mut layout, &SYMBOL_NAMES, names)?;
    put_section(&mut layout, &ABBREVIATIONS, abbreviation_table())?;
    put_section(&mut layout, &UNITS, units)?;
    put_section(&mut layout, &SECTION_NAMES, &NAMES)?;
    Ok(layout)
}

// The file with these symbols, symbol names and units. Fails only where memory runs out.
pub(crate) fn make_file(
    alloc: Global,
    symbols: &[u8],
    names: &[u8],
    units: &[u8],
) -> Result<Vec<u8>, AllocError>
    ensures { IfOk result (λ file. file.items ≡ file_of (contents_of symbols.now names.now units.now)) }
{
    let mut layout = lay_out(alloc, symbols, names, units)?;
    let mut file = Vec::new(alloc);
    put_file_header(
        &mut file,
        (EHDR_SIZE + layout.sections.as_slice().len()) as u64,
    )?;
    file.append(&mut layout.sections)?;
    file.append(&mut layout.table)?;
    Ok(file)
}
