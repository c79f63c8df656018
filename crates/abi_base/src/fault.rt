// The faults of inputs, and the reasons for which a call gives up.
ghost use Rattle.std.specs.Prelude.{◌≡◌};
ghost use Rattle.abi_base.specs.Fault.{fault_number, fault_name};
ghost use Rattle.abi_base.specs.declared.fault.NoMemory.TheVariants.{Allocation};
ghost use Rattle.abi_base.specs.declared.fault.Refusal.TheVariants.{NoMemory as OutOfMemory};

use crate::Limit;
use std::alloc::{AllocError, AllocFailed};

/// Memory ran out, or a count would pass its limit. Neither is a fault of the input.
#[derive(Clone, Copy, Debug, PartialEq, Eq)]
pub enum NoMemory {
    /// An allocation failed.
    Allocation,
    /// A count would pass this limit.
    Past(Limit),
}

/// An input or a sink failed.
#[derive(Clone, Copy, Debug, PartialEq, Eq)]
pub struct Failed;

/// A sink failed before the whole text was written.
#[derive(Clone, Copy, Debug, PartialEq, Eq)]
pub struct WriteFailed;

/// The kinds of faults of an input. Each has a number and a name, which the program prints.
#[derive(Clone, Copy, Debug, PartialEq, Eq)]
pub enum FaultKind {
    /// The file has fewer bytes than an ELF-64 header.
    ShortFile,
    /// The file does not begin with the ELF magic.
    NotElf,
    /// The file's class is not ELFCLASS64.
    Class,
    /// The file's byte order is not ELFDATA2LSB.
    Data,
    /// The file's ELF version is not EV_CURRENT.
    Version,
    /// The file's type is not ET_DYN.
    NotShared,
    /// The file's machine is not EM_X86_64.
    Machine,
    /// There is no section header table, or it or the section name string table lies outside the file.
    SectionTable,
    /// The contents of a section lie outside the file.
    SectionRange,
    /// The name of a section has no end in the section name string table.
    SectionName,
    /// A debug section is compressed.
    Compressed,
    /// There is no dynamic symbol table.
    NoDynamicSymbols,
    /// The dynamic symbol table is malformed.
    SymbolTable,
    /// The dynamic table is malformed.
    DynamicTable,
    /// The symbol version table does not fit the symbol table.
    VersionTable,
    /// A version definition is malformed.
    VersionDefinition,
    /// A symbol's version is not defined.
    VersionIndex,
    /// Two exports have the same name and version.
    DuplicateExport,
    /// A unit header is malformed.
    UnitHeader,
    /// A unit's DWARF version is not supported.
    DwarfVersion,
    /// A unit's type is not supported.
    UnitType,
    /// A unit's address size is not eight bytes.
    AddressSize,
    /// A unit is in the 64-bit DWARF format.
    Dwarf64,
    /// An abbreviation declaration is malformed.
    Abbrev,
    /// An entry's abbreviation code is not in the abbreviation table.
    AbbrevCode,
    /// An attribute has an unknown form.
    Form,
    /// An entry runs past the end of its unit.
    Cut,
    /// The entries of a unit do not form a tree.
    Tree,
    /// A name is not a string, or has no end in its section.
    Text,
    /// An index has no base, or leads outside its section.
    Index,
    /// A range list is malformed.
    Ranges,
    /// A unit's language is not supported.
    Language,
    /// A reference leads to no entry.
    Reference,
    /// A type entry lacks a required attribute or child.
    Shape,
    /// The nesting of types by value is too deep.
    TooDeep,
    /// A type, or an offset in it, is too large.
    TooLarge,
    /// An attribute refers to a supplementary file.
    Supplementary,
    /// A chain of origins is too long.
    OriginTooDeep,
    /// An input is longer than the limit.
    TooLong,
    /// A version requirement is malformed.
    VersionNeed,
    /// An import's version is not defined.
    ImportVersion,
    /// The type offset of a type unit leads to no entry.
    TypeOffset,
    /// A rule file is not UTF-8.
    BadText,
    /// A line of a rule file is malformed.
    RuleLine,
    /// A section of a rule file is unknown.
    Section,
    /// A property does not belong to its section, or its value is not allowed.
    Property,
    /// A section of a rule file has no property that selects.
    EmptyRule,
    /// A pattern is not a regular expression.
    BadPattern,
    /// A pattern is too long.
    LongPattern,
    /// A property occurs twice in its section.
    Repeated,
    /// A pattern contains a brace.
    Brace,
    /// A line of a certificate has none of the forms that its place allows.
    CertLine,
    /// A line of a certificate is out of order.
    Order,
    /// A certificate does not end with its last line.
    End,
}

impl FaultKind {
    /// The number of the kind. No two kinds share one.
    pub fn number(self) -> u64
        ensures { result ≡ fault_number self }
    {
        match self {
            FaultKind::ShortFile => 1,
            FaultKind::NotElf => 2,
            FaultKind::Class => 3,
            FaultKind::Data => 4,
            FaultKind::Version => 5,
            FaultKind::NotShared => 6,
            FaultKind::Machine => 7,
            FaultKind::SectionTable => 8,
            FaultKind::SectionRange => 9,
            FaultKind::SectionName => 10,
            FaultKind::Compressed => 11,
            FaultKind::NoDynamicSymbols => 12,
            FaultKind::SymbolTable => 13,
            FaultKind::DynamicTable => 14,
            FaultKind::VersionTable => 15,
            FaultKind::VersionDefinition => 16,
            FaultKind::VersionIndex => 17,
            FaultKind::DuplicateExport => 18,
            FaultKind::UnitHeader => 20,
            FaultKind::DwarfVersion => 21,
            FaultKind::UnitType => 22,
            FaultKind::AddressSize => 23,
            FaultKind::Dwarf64 => 24,
            FaultKind::Abbrev => 25,
            FaultKind::AbbrevCode => 26,
            FaultKind::Form => 27,
            FaultKind::Cut => 28,
            FaultKind::Tree => 29,
            FaultKind::Text => 30,
            FaultKind::Index => 31,
            FaultKind::Ranges => 32,
            FaultKind::Language => 33,
            FaultKind::Reference => 34,
            FaultKind::Shape => 35,
            FaultKind::TooDeep => 36,
            FaultKind::TooLarge => 37,
            FaultKind::Supplementary => 38,
            FaultKind::OriginTooDeep => 39,
            FaultKind::TooLong => 40,
            FaultKind::VersionNeed => 41,
            FaultKind::ImportVersion => 42,
            FaultKind::TypeOffset => 43,
            FaultKind::BadText => 50,
            FaultKind::RuleLine => 51,
            FaultKind::Section => 52,
            FaultKind::Property => 53,
            FaultKind::EmptyRule => 54,
            FaultKind::BadPattern => 55,
            FaultKind::LongPattern => 56,
            FaultKind::Repeated => 57,
            FaultKind::Brace => 58,
            FaultKind::CertLine => 60,
            FaultKind::Order => 61,
            FaultKind::End => 62,
        }
    }

    /// The name of the kind. `RuleLine` and `CertLine` share the name `Line`.
    pub fn name(self) -> &'static str
        ensures { result.now ≡ fault_name self }
    {
        match self {
            FaultKind::ShortFile => "ShortFile",
            FaultKind::NotElf => "NotElf",
            FaultKind::Class => "Class",
            FaultKind::Data => "Data",
            FaultKind::Version => "Version",
            FaultKind::NotShared => "NotShared",
            FaultKind::Machine => "Machine",
            FaultKind::SectionTable => "SectionTable",
            FaultKind::SectionRange => "SectionRange",
            FaultKind::SectionName => "SectionName",
            FaultKind::Compressed => "Compressed",
            FaultKind::NoDynamicSymbols => "NoDynamicSymbols",
            FaultKind::SymbolTable => "SymbolTable",
            FaultKind::DynamicTable => "DynamicTable",
            FaultKind::VersionTable => "VersionTable",
            FaultKind::VersionDefinition => "VersionDefinition",
            FaultKind::VersionIndex => "VersionIndex",
            FaultKind::DuplicateExport => "DuplicateExport",
            FaultKind::UnitHeader => "UnitHeader",
            FaultKind::DwarfVersion => "DwarfVersion",
            FaultKind::UnitType => "UnitType",
            FaultKind::AddressSize => "AddressSize",
            FaultKind::Dwarf64 => "Dwarf64",
            FaultKind::Abbrev => "Abbrev",
            FaultKind::AbbrevCode => "AbbrevCode",
            FaultKind::Form => "Form",
            FaultKind::Cut => "Cut",
            FaultKind::Tree => "Tree",
            FaultKind::Text => "Text",
            FaultKind::Index => "Index",
            FaultKind::Ranges => "Ranges",
            FaultKind::Language => "Language",
            FaultKind::Reference => "Reference",
            FaultKind::Shape => "Shape",
            FaultKind::TooDeep => "TooDeep",
            FaultKind::TooLarge => "TooLarge",
            FaultKind::Supplementary => "Supplementary",
            FaultKind::OriginTooDeep => "OriginTooDeep",
            FaultKind::TooLong => "TooLong",
            FaultKind::VersionNeed => "VersionNeed",
            FaultKind::ImportVersion => "ImportVersion",
            FaultKind::TypeOffset => "TypeOffset",
            FaultKind::BadText => "BadText",
            FaultKind::RuleLine => "Line",
            FaultKind::Section => "Section",
            FaultKind::Property => "Property",
            FaultKind::EmptyRule => "EmptyRule",
            FaultKind::BadPattern => "BadPattern",
            FaultKind::LongPattern => "LongPattern",
            FaultKind::Repeated => "Repeated",
            FaultKind::Brace => "Brace",
            FaultKind::CertLine => "Line",
            FaultKind::Order => "Order",
            FaultKind::End => "End",
        }
    }
}

/// What is wrong with an input, and where.
#[derive(Clone, Copy, Debug, PartialEq, Eq)]
pub struct Fault {
    /// What is wrong.
    pub kind: FaultKind,
    /// Where it is: the offset of a byte, or the number of a section, a symbol, an entry or a line.
    pub at: u64,
}

/// Why a reader has no result.
#[derive(Clone, Copy, Debug, PartialEq, Eq)]
pub enum Refusal {
    /// The input has this fault.
    Fault(Fault),
    /// Memory ran out, or a count would pass its limit.
    NoMemory(NoMemory),
}

impl From<AllocError> for NoMemory {
    ghost from_gives = { λ _ e. e ≡ Allocation };

    fn from(_: AllocError) -> Self {
        NoMemory::Allocation
    }
}

impl<T: Drop> From<AllocFailed<T>> for NoMemory {
    ghost from_gives = { λ _ e. e ≡ Allocation };

    fn from(_: AllocFailed<T>) -> Self {
        NoMemory::Allocation
    }
}

impl From<Fault> for Refusal {
    ghost use Rattle.abi_base.specs.declared.fault.Refusal.TheVariants.{Fault as Faulty};

    ghost from_gives = { λ fault e. e ≡ Faulty fault };

    fn from(fault: Fault) -> Self {
        Refusal::Fault(fault)
    }
}

impl From<NoMemory> for Refusal {
    ghost from_gives = { λ cause e. e ≡ OutOfMemory cause };

    fn from(cause: NoMemory) -> Self {
        Refusal::NoMemory(cause)
    }
}

impl From<AllocError> for Refusal {
    ghost from_gives = { λ _ e. e ≡ OutOfMemory Allocation };

    fn from(_: AllocError) -> Self {
        Refusal::NoMemory(NoMemory::Allocation)
    }
}

impl<T: Drop> From<AllocFailed<T>> for Refusal {
    ghost from_gives = { λ _ e. e ≡ OutOfMemory Allocation };

    fn from(_: AllocFailed<T>) -> Self {
        Refusal::NoMemory(NoMemory::Allocation)
    }
}
