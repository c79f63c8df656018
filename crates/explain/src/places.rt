// The position of a fault.
ghost use Rattle.std.specs.Prelude.{◌≡◌};
ghost use Rattle.explain.specs.Faults as spec;

use abi_base::FaultKind;

/// The unit of a fault's position.
#[derive(Clone, Copy)]
pub(crate) enum Place {
    /// The file as a whole.
    File,
    /// Sections, by their indexes.
    Section,
    /// Dynamic symbols, by their indexes.
    Symbol,
    /// Entries of the dynamic table.
    DynamicEntry,
    /// Version definitions.
    Definition,
    /// Version needs.
    Need,
    /// Bytes of `.debug_info`.
    Info,
    /// Bytes of `.debug_abbrev`.
    Abbreviations,
    /// Lines, counted from 1.
    Line,
}

/// The unit of the position of a fault of this kind.
#[tactic(auto, unfolding(crate::specs::Faults::place_of))]
pub(crate) fn place_of(kind: FaultKind) -> Place
    ensures { result ≡ spec.place_of kind }
{
    match kind {
        FaultKind::ShortFile
        | FaultKind::NotElf
        | FaultKind::Class
        | FaultKind::Data
        | FaultKind::Version
        | FaultKind::NotShared
        | FaultKind::Machine
        | FaultKind::SectionTable
        | FaultKind::NoDynamicSymbols
        | FaultKind::VersionTable
        | FaultKind::TooLong => Place::File,
        FaultKind::SectionRange | FaultKind::SectionName | FaultKind::Compressed => Place::Section,
        FaultKind::SymbolTable
        | FaultKind::VersionIndex
        | FaultKind::DuplicateExport
        | FaultKind::ImportVersion => Place::Symbol,
        FaultKind::DynamicTable => Place::DynamicEntry,
        FaultKind::VersionDefinition => Place::Definition,
        FaultKind::VersionNeed => Place::Need,
        FaultKind::Abbrev => Place::Abbreviations,
        FaultKind::BadText
        | FaultKind::RuleLine
        | FaultKind::Section
        | FaultKind::Property
        | FaultKind::EmptyRule
        | FaultKind::BadPattern
        | FaultKind::LongPattern
        | FaultKind::Repeated
        | FaultKind::Brace
        | FaultKind::CertLine
        | FaultKind::Order
        | FaultKind::End => Place::Line,
        _ => Place::Info,
    }
}
