// The sentence on memory and limits.
ghost use Rattle.std.specs.Prelude.{◌≡◌, IfOk, IsTrue, string_bytes};
ghost use Rattle.explain.specs.Limits as spec;
ghost use Rattle.explain.specs.Lines.{is_one_line};

use abi_base::{Limit, NoMemory};
use std::alloc::Global;

// What a limit counts, in words.
fn limit_words(limit: Limit) -> &'static str
    ensures { result.now ≡ spec.limit_words limit }
{
    match limit {
        Limit::Symbols => "dynamic symbols",
        Limit::VersionDefinitions => "version definitions",
        Limit::VersionNeeds => "version needs",
        Limit::ImportNeeds => "version needs",
        Limit::NeededFiles => "work and bytes of notes",
        Limit::ExportNames => "names of exports",
        Limit::DeclaredNames => "names under which exports are declared",
        Limit::RangeLists => "range lists",
        Limit::Abbreviations => "abbreviation tables",
        Limit::Attributes => "attributes of a unit",
        Limit::Types => "types that exports reach",
        Limit::Members => "members and parameters",
        Limit::Enumerators => "enumerators",
        Limit::Parts => "parts by which types are compared",
        Limit::Letters => "letters of the names of types and parts",
        Limit::TypeNames => "names of types",
        Limit::Leaves => "steps to the leaves of types passed by value",
        Limit::Pairs => "pairs of types",
        Limit::PairParts => "parts of pairs of types",
        Limit::Breaks => "broken rules of types",
        Limit::Report => "bytes of a report",
        Limit::SourcePlaces => "bytes of a report",
        Limit::TypedefNames => "bytes of a report",
        Limit::Listing => "bytes of a listing",
        Limit::LayoutNames => "bytes of a listing",
        Limit::Soname => "bytes of a soname",
        Limit::Patterns => "weight of patterns",
        Limit::PatternClasses => "weight of patterns",
        Limit::PatternLetters => "weight of patterns",
        Limit::BlockSections => "weight of patterns",
        Limit::PairLines => "pair lines of a composed certificate",
        Limit::ComposedLines => "pair lines of a composed certificate",
        Limit::Certificate => "bytes of a composed certificate",
        Limit::Notes => "work and bytes of notes",
        Limit::IdleSections => "tests of sections",
        Limit::AffectedExports => "exports that reach a break",
        Limit::AffectedSteps => "exports that reach a break",
    }
}

/// The sentence on a lack of memory, or on the limit that a count would pass.
pub fn memory_sentence(alloc: Global, cause: NoMemory) -> Result<String, NoMemory>
    ensures says { IfOk result (λ note. string_bytes note ≡ spec.memory_sentence cause) }
    ensures line { IfOk result (λ note. IsTrue (is_one_line (string_bytes note))) }
{
    let mut note = String::new(alloc);
    match cause {
        NoMemory::Allocation => note.push_str("out of memory")?,
        NoMemory::Past(limit) => {
            note.push_str("past the limit on ")?;
            note.push_str(limit_words(limit))?;
            note.push_str(" (LIMITS in abi(1))")?;
        }
    }
    Ok(note)
}
