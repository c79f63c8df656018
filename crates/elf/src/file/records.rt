// The records of a section header table (gABI, "Section Header").

/// The fields of a section header that this crate uses (`Elf64_Shdr`).
#[derive(Clone, Copy, Debug, PartialEq, Eq)]
pub struct SectionHeader {
    /// The offset of its name in the section of names.
    pub name: u32,
    /// Its type, such as `SHT_STRTAB`.
    pub kind: u32,
    /// Its flags, of which this crate uses only `SHF_COMPRESSED`.
    pub flags: u64,
    /// The file offset of its contents.
    pub offset: u64,
    /// Its size in bytes.
    pub size: u64,
    /// The index of a linked section, such as a symbol table's string table.
    pub link: u32,
    /// Extra information that depends on the type, such as the number of version definitions.
    pub info: u32,
    /// The size of an entry, in a section that is a table.
    pub entsize: u64,
}

/// Where the section header table is, how many headers it has, and which section has the names.
#[derive(Clone, Copy, Debug, PartialEq, Eq)]
pub struct SectionTable {
    /// The file offset of the table.
    pub at: u64,
    /// The number of section headers, including that of section 0.
    pub count: u64,
    /// The index of the section name string table.
    pub names: u64,
}

/// A section: its number, its contents, and the fields of its header that concern them.
#[derive(Clone, Copy, Debug)]
pub struct Section<'a> {
    /// Its index in the section header table, counted from 0.
    pub index: u32,
    /// Its contents: empty for section 0 and sections of type NULL or NOBITS.
    pub bytes: &'a [u8],
    /// The index of a linked section, such as a symbol table's string table.
    pub link: u32,
    /// Extra information that depends on the type, such as the number of version definitions.
    pub info: u32,
    /// The size of an entry, in a section that is a table.
    pub entsize: u64,
}
