// A note.
ghost use Rattle.std.specs.Prelude.{◌≡◌};
ghost use Rattle.type_notes.specs.Notes.{kind_name, weight_of};

use abi_base::List;

/// The subject of a note.
#[derive(Clone, Copy, PartialEq, Eq)]
pub enum NoteKind {
    // ---- two types, or the entries behind them
    /// The dimensions of an array.
    ArrayDimensions,
    /// A new member in the padding of the old structure.
    MemberInPadding,
    /// A union with a size and no members.
    UnionWithoutMembers,
    /// The tag or the typedefs by which C names a type.
    TagOrName,
    /// The names of a function's parameters.
    ParameterName,
    /// The qualifiers of the type to which a pointer points.
    Qualifiers,
    /// Whether a function is declared with a prototype.
    Prototype,
    /// The byte order of a base type.
    Endianity,
    /// The calling convention of a function.
    CallingConvention,
    /// The address class of a pointer or a function.
    AddressClass,
    /// Whether a function never returns.
    NoReturn,
    /// Whether a structure is packed.
    Packing,
    /// Whether an enumeration is signed.
    EnumeratorSign,
    /// A type that one unit only declares and another unit defines.
    DefinedElsewhere,
    // ---- exports
    /// The size of a thread-local object.
    ThreadObject,
    /// The qualifiers of an object.
    ObjectQualifiers,
    /// An export that only the new library has.
    ExportAdded,
    /// A symbol version that only the new library has.
    VersionAdded,
    /// A new export that is likely to succeed one that is gone.
    Successor,
    /// An export that leads to two types that break a rule, in addition to the one that their row names.
    AffectedExport,
    // ---- other files
    /// A file that only the new library needs.
    NeedsLibrary,
    /// A version of a file that only the new library needs.
    NeedsVersion,
    /// A symbol that some other file must define for the new library alone.
    NeedsSymbol,
    // ---- the rule file
    /// A section of the rule file that matches nothing.
    IdleSection,
}

/// What a difference may do to callers that were compiled against the old library.
#[derive(Drop)]
pub enum NoteWeight {
    /// It can break callers, though no rule judges it.
    CanBreakCallers,
    /// It is only told.
    OnlyTold,
}

impl NoteKind {
    /// Whether a note of the kind can break callers.
    pub fn weight(self) -> NoteWeight
        ensures { result ≡ weight_of self }
    {
        match self {
            NoteKind::ArrayDimensions
            | NoteKind::MemberInPadding
            | NoteKind::UnionWithoutMembers
            | NoteKind::Endianity
            | NoteKind::CallingConvention
            | NoteKind::AddressClass
            | NoteKind::Packing
            | NoteKind::EnumeratorSign
            | NoteKind::DefinedElsewhere
            | NoteKind::ThreadObject
            | NoteKind::ObjectQualifiers => NoteWeight::CanBreakCallers,
            NoteKind::TagOrName
            | NoteKind::ParameterName
            | NoteKind::Qualifiers
            | NoteKind::Prototype
            | NoteKind::NoReturn
            | NoteKind::ExportAdded
            | NoteKind::VersionAdded
            | NoteKind::Successor
            | NoteKind::AffectedExport
            | NoteKind::NeedsLibrary
            | NoteKind::NeedsVersion
            | NoteKind::NeedsSymbol
            | NoteKind::IdleSection => NoteWeight::OnlyTold,
        }
    }

    /// The kind in plain words.
    pub fn name(self) -> &'static str
        ensures { result.now ≡ kind_name self }
    {
        match self {
            NoteKind::ArrayDimensions => "array dimensions",
            NoteKind::MemberInPadding => "member in padding",
            NoteKind::UnionWithoutMembers => "union without members",
            NoteKind::TagOrName => "name of type",
            NoteKind::ParameterName => "parameter name",
            NoteKind::Qualifiers => "qualifiers",
            NoteKind::Prototype => "prototype",
            NoteKind::Endianity => "endianity",
            NoteKind::CallingConvention => "calling convention",
            NoteKind::AddressClass => "address class",
            NoteKind::NoReturn => "no return",
            NoteKind::Packing => "packing",
            NoteKind::EnumeratorSign => "enumerator sign",
            NoteKind::DefinedElsewhere => "defined elsewhere",
            NoteKind::ThreadObject => "thread-local object",
            NoteKind::ObjectQualifiers => "object qualifiers",
            NoteKind::ExportAdded => "export added",
            NoteKind::VersionAdded => "version added",
            NoteKind::Successor => "likely successor",
            NoteKind::AffectedExport => "affected export",
            NoteKind::NeedsLibrary => "needs library",
            NoteKind::NeedsVersion => "needs version",
            NoteKind::NeedsSymbol => "needs symbol",
            NoteKind::IdleSection => "idle section",
        }
    }
}

/// A difference that no rule judges, and where it is. Texts are in their printed form, as in a row of a report.
#[derive(Drop)]
pub struct Note {
    /// The subject of the note.
    pub kind: NoteKind,
    /// The label of the old export, or of the new one if only that exists; empty if the note is about no export.
    pub export: List<u8>,
    /// The steps from the type of that export to the types; empty if the note is about the export itself.
    pub path: List<u8>,
    /// The old state.
    pub was: List<u8>,
    /// The new state.
    pub is: List<u8>,
}
