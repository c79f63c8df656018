//! Subjects: what sections are matched with.
ghost use Rattle.std.specs.Prelude.{◌≡◌};
ghost use Rattle.std.specs.Option.{option_copied};
ghost use Rattle.abi_types.specs.Plain.{plain_export, plain_label};
ghost use Rattle.suppressions.specs.Subjects.{export_subject, kind_subject, label_subject};
ghost use Rattle.suppressions.specs.Subjects as subjects;

use abi_types::{Export, Label, LabelKind, SymbolKind, Way};
use suppression_text::{Key, SectionKind};

/// What a section is matched with: an export, or a name of a type with how a program reaches the type.
#[derive(Clone, Copy)]
pub struct Subject<'x> {
    /// The kind of the sections that can match it.
    pub kind: SectionKind,
    /// The declared name of an export, or the name of a type.
    pub name: &'x [u8],
    /// The name of an export's symbol.
    pub symbol: Option<&'x [u8]>,
    /// The name of an export's version.
    pub version: Option<&'x [u8]>,
    /// The soname of the library.
    pub soname: Option<&'x [u8]>,
    /// The word for the kind of a type.
    pub type_kind: Option<&'x [u8]>,
    /// The word for how a program reaches the type.
    pub way: Option<&'x [u8]>,
}

/// The kind of the sections that can match exports of a kind.
pub fn section_of_symbol(kind: SymbolKind) -> SectionKind
    ensures { result ≡ subjects.section_of_symbol kind }
{
    match kind {
        SymbolKind::Func | SymbolKind::Ifunc | SymbolKind::NoType => SectionKind::Functions,
        SymbolKind::Object | SymbolKind::Common | SymbolKind::Tls => SectionKind::Variables,
    }
}

fn label_word(kind: LabelKind) -> &'static [u8]
    ensures { result.now ≡ subjects.label_word kind }
{
    match kind {
        LabelKind::Structure => b"struct",
        LabelKind::Union => b"union",
        LabelKind::Enumeration => b"enum",
        LabelKind::Typedef => b"typedef",
        LabelKind::Builtin => b"builtin",
    }
}

fn accessed_through_word(way: Way) -> &'static [u8]
    ensures { result.now ≡ subjects.accessed_through_word way }
{
    match way {
        Way::Direct => b"direct",
        Way::Pointer => b"pointer",
    }
}

impl<'x> Subject<'x> {
    ghost use Rattle.suppressions.specs.PlainSubjects.{plain_subject};

    /// An export of a library with a soname.
    pub fn of_export(soname: Option<&'x [u8]>, export: &Export<'x>) -> Subject<'x>
        ensures { plain_subject result ≡ export_subject (option_copied soname.entry) (plain_export export.now) }
    {
        Subject {
            kind: section_of_symbol(export.kind),
            name: export.declared,
            symbol: Some(export.name),
            version: export.version,
            soname,
            type_kind: None,
            way: None,
        }
    }

    /// What all exports that sections of a kind can match have in common: the soname of the library, and no name.
    pub fn of_kind(soname: Option<&'x [u8]>, kind: SectionKind) -> Subject<'x>
        ensures { plain_subject result ≡ kind_subject (option_copied soname.entry) kind }
    {
        Subject {
            kind,
            name: &[],
            symbol: None,
            version: None,
            soname,
            type_kind: None,
            way: None,
        }
    }

    /// A name of a type of a library with a soname; a program reaches the type in this way.
    pub fn of_label(soname: Option<&'x [u8]>, way: Way, label: &Label<'x>) -> Subject<'x>
        ensures { plain_subject result ≡ label_subject (option_copied soname.entry) way (plain_label label.now) }
    {
        Subject {
            kind: SectionKind::Types,
            name: label.name,
            symbol: None,
            version: None,
            soname,
            type_kind: Some(label_word(label.kind)),
            way: Some(accessed_through_word(way)),
        }
    }

    /// The bytes that a property tests, if the subject has them.
    pub fn asked(&self, key: Key) -> Option<&'x [u8]>
        ensures { option_copied result ≡ subjects.asked (plain_subject self.now) key }
    {
        match key {
            Key::Label => None,
            Key::Name | Key::NameRegexp | Key::NameNotRegexp => Some(self.name),
            Key::SymbolName | Key::SymbolNameRegexp => self.symbol,
            Key::SymbolVersion | Key::SymbolVersionRegexp => self.version,
            Key::SonameRegexp => self.soname,
            Key::TypeKind => self.type_kind,
            Key::AccessedThrough => self.way,
        }
    }
}
