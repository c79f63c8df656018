// The words for faults.
ghost use Rattle.std.specs.Prelude.{◌≡◌, option_map};
ghost use Rattle.explain.specs.Faults.{entry_words, info_words, line_words, numbered_words, table_words, unit_words};

use abi_base::FaultKind;

/// The words for a fault in the section, the symbol, the entry or the definition with a number.
#[tactic(auto, unfolding(crate::specs::Faults::numbered_words))]
pub(crate) fn numbered_sentence(kind: FaultKind) -> &'static str
    ensures { result.now ≡ numbered_words kind }
{
    match kind {
        FaultKind::SectionRange => "does not lie inside the file, which may have been cut short",
        FaultKind::SectionName => "has a name that does not end inside the section of names",
        FaultKind::Compressed => {
            "is compressed; uncompress it with: objcopy --decompress-debug-sections FILE NEW_FILE"
        }
        FaultKind::SymbolTable => "is damaged, or its name does not end inside the table of names",
        FaultKind::VersionIndex => "has a version that is not defined",
        FaultKind::DuplicateExport => "has the name and the version of an earlier export",
        FaultKind::ImportVersion =>
            "is imported with a version that the file does not name among those that it needs",
        FaultKind::DynamicTable =>
            "is damaged, or the soname does not end inside the table of names",
        _ => "is damaged",
    }
}

/// The words for a fault of a whole table, if a fault of this kind at entry 0 means that.
#[tactic(auto, unfolding(crate::specs::Faults::table_words))]
pub(crate) fn whole_table_sentence(kind: FaultKind) -> Option<&'static str>
    ensures { option_map (λ words. words.now) result ≡ table_words kind }
{
    match kind {
        FaultKind::SymbolTable => Some("the table of dynamic symbols is damaged"),
        FaultKind::DynamicTable => Some(
            "the dynamic table is damaged, or its soname does not end inside the table of names",
        ),
        _ => None,
    }
}

// The words for a fault of a debug information unit.
#[tactic(auto, unfolding(crate::specs::Faults::unit_words))]
fn unit_sentence(kind: FaultKind) -> Option<&'static str>
    ensures { option_map (λ words. words.now) result ≡ unit_words kind }
{
    match kind {
        FaultKind::UnitHeader => Some("the header of the unit is damaged"),
        FaultKind::DwarfVersion => Some(
            "the unit is of a version of DWARF that is not read; compile with -gdwarf-5 or -gdwarf-4",
        ),
        FaultKind::UnitType => Some(
            "the unit is of a type that is not read, as split debug information is; compile without -gsplit-dwarf",
        ),
        FaultKind::AddressSize => Some("the unit has addresses that are not of eight bytes"),
        FaultKind::Dwarf64 => Some("the unit is in the 64-bit format of DWARF, which is not read"),
        FaultKind::TypeOffset => Some("the type unit has no entry where its type should stand"),
        FaultKind::Language => Some(
            "the language of the unit is not C or assembler; only units in these are read",
        ),
        _ => None,
    }
}

// The words for a fault of a debug information entry.
#[tactic(auto, unfolding(crate::specs::Faults::entry_words))]
fn entry_sentence(kind: FaultKind) -> &'static str
    ensures { result.now ≡ entry_words kind }
{
    match kind {
        FaultKind::AbbrevCode => "the entry has an abbreviation that is not in its table",
        FaultKind::Form => "the entry has an attribute of a form that is not known",
        FaultKind::Cut => "the entry does not end inside its unit",
        FaultKind::Tree => "the entries are not nested as they should be",
        FaultKind::Text => "the name of the entry is no text that ends inside its section",
        FaultKind::Index => "an index of the entry leads to no place in its section",
        FaultKind::Ranges => "the list of ranges of the entry is damaged",
        FaultKind::Reference => {
            "the entry refers to one that is not there, as one in .debug_types is not, which DWARF 4 has by -fdebug-types-section; compile without it, or with -gdwarf-5"
        }
        FaultKind::Shape =>
            "the type lacks something that describes it, or is of a kind that is not read",
        FaultKind::TooDeep => "the type holds others by value more than 512 deep",
        FaultKind::TooLarge => "the type, or the place of a member of it, is too large",
        FaultKind::Supplementary => {
            "the entry refers to a supplementary file (made by dwz -m), which is not read"
        }
        _ => "the entry has a chain of more than 8 origins",
    }
}

/// The words for a fault in `.debug_info`.
pub(crate) fn info_sentence(kind: FaultKind) -> &'static str
    ensures { result.now ≡ info_words kind }
{
    match unit_sentence(kind) {
        Some(words) => words,
        None => entry_sentence(kind),
    }
}

/// The words for a fault in a line of a rule file or of a certificate.
#[tactic(auto, unfolding(crate::specs::Faults::line_words))]
pub(crate) fn line_sentence(kind: FaultKind) -> &'static str
    ensures { result.now ≡ line_words kind }
{
    match kind {
        FaultKind::BadText => "it is not UTF-8",
        FaultKind::RuleLine => "it is no comment, no section and no property of a section",
        FaultKind::Section => "there is no section of this name",
        FaultKind::Property => "the section has no such property, or none with this value",
        FaultKind::EmptyRule => "the section says nothing of what it leaves out",
        FaultKind::BadPattern => "the pattern is no regular expression",
        FaultKind::LongPattern => "the pattern has more than 256 bytes",
        FaultKind::Repeated => "the section has this property twice",
        FaultKind::Brace => "the pattern has a brace, which is not read",
        FaultKind::CertLine => "it is no line of a certificate, or not the one that belongs there",
        FaultKind::Order => "it is out of order",
        _ => "the certificate does not end with its line 'end'",
    }
}
