// Whole sentences on faults.
ghost use Rattle.std.specs.Prelude.{◌≡◌, ◌++◌, [], ◌∷◌, IfOk, IsTrue, OnOk, codes, decimal};
ghost use Rattle.std.specs.List.{concat, list_all};
ghost use Rattle.std.specs.String.{string_bytes};
ghost use Rattle.explain.specs.Faults.{bracketed, fault_words, numbered_words, offset_words, part_words, table_or, words_at};
ghost use Rattle.explain.specs.Faults as spec;
ghost use Rattle.explain.specs.Lines.{is_one_line};
ghost use Rattle.explain.specs.Sentences.{SaysFault, fault_mark};

use crate::allowed::allowed_in;
use crate::faults::{info_sentence, line_sentence, numbered_sentence, whole_table_sentence};
use crate::files::file_sentence;
use crate::lines::said;
use crate::places::{Place, place_of};
use crate::sections::section_name;
use crate::tags::text_of;
use abi_base::{Fault, FaultKind, NoMemory};
use std::alloc::{AllocError, Global};
use std::fmt::Write;

// Whether a byte is a visible ASCII character.
fn is_visible(byte: &u8) -> bool
    ensures { result ≡ spec.is_visible byte.now }
{
    b'!' <= *byte && *byte <= b'~'
}

// Whether all bytes are visible ASCII characters.
fn are_visible(bytes: &[u8]) -> bool
    ensures { result ≡ list_all spec.is_visible bytes.now }
{
    bytes.iter().all(is_visible)
}

// Appends a name in brackets, if all its characters are visible.
#[tactic(auto, using(crate::proofs::NameLemmas::visible_text))]
fn push_bracketed(text: &mut String, name: &[u8]) -> Result<(), AllocError>
    ensures { OnOk result (string_bytes text.new ≡ string_bytes text.old ++ bracketed (Some name.now)) }
{
    if !are_visible(name) {
        return Ok(());
    }
    match text_of(name) {
        Some(name) => write!(text, " ({name})"),
        None => Ok(()),
    }
}

// Appends the name of a section in brackets, if all its characters are visible, so that a name cannot break the line.
fn push_name(text: &mut String, bytes: &[u8], index: u64) -> Result<(), AllocError>
    ensures { OnOk result (string_bytes text.new
        ≡ string_bytes text.old ++ bracketed (spec.section_name bytes.now index)) }
{
    match section_name(bytes, index) {
        Some(name) => push_bracketed(text, name),
        None => Ok(()),
    }
}

// Appends the words for a fault of the part with a number, after what the part is.
fn push_numbered(text: &mut String, part: &str, kind: FaultKind, at: u64) -> Result<(), AllocError>
    ensures { OnOk result (string_bytes text.new ≡ string_bytes text.old ++ part_words part.now kind at) }
{
    let words = numbered_sentence(kind);
    write!(text, "{part} {at} {words}")
}

// Appends the words for a fault of the section with an index.
fn push_section(text: &mut String, kind: FaultKind, at: u64, bytes: &[u8]) -> Result<(), AllocError>
    ensures { OnOk result (string_bytes text.new ≡ string_bytes text.old ++ words_at Place.Section kind at bytes.now) }
{
    let words = numbered_sentence(kind);
    write!(text, "section {at}")?;
    push_name(text, bytes, at)?;
    write!(text, " {words}")
}

// Appends the words for a fault of a dynamic symbol, or of the whole table.
fn push_symbol(text: &mut String, kind: FaultKind, at: u64) -> Result<(), AllocError>
    ensures { OnOk result (string_bytes text.new ≡ string_bytes text.old ++ words_at Place.Symbol kind at []) }
{
    match (at, whole_table_sentence(kind)) {
        (0, Some(sentence)) => text.push_str(sentence),
        _ => push_numbered(text, "dynamic symbol", kind, at),
    }
}

// Appends the words for a fault of an entry of the dynamic table.
fn push_entry(text: &mut String, kind: FaultKind, at: u64) -> Result<(), AllocError>
    ensures { let words = concat (codes "entry " ∷ decimal at ∷ codes " of the dynamic table " ∷ numbered_words kind ∷ []) in
        OnOk result (string_bytes text.new ≡ string_bytes text.old ++ words) }
{
    let words = numbered_sentence(kind);
    write!(text, "entry {at} of the dynamic table {words}")
}

// Appends the words for a fault of an entry of the dynamic table, or of the whole table.
fn push_dynamic(text: &mut String, kind: FaultKind, at: u64) -> Result<(), AllocError>
    ensures { OnOk result (string_bytes text.new ≡ string_bytes text.old ++ words_at Place.DynamicEntry kind at []) }
{
    match (at, whole_table_sentence(kind)) {
        (0, Some(sentence)) => text.push_str(sentence),
        _ => push_entry(text, kind, at),
    }
}

// Appends these words for a fault at an offset in a section.
fn push_offset(text: &mut String, at: u64, section: &str, words: &str) -> Result<(), AllocError>
    ensures { OnOk result (string_bytes text.new ≡ string_bytes text.old ++ offset_words at section.now words.now) }
{
    write!(text, "offset 0x{at:x} of {section}: {words}")
}

// Appends the words for a fault in `.debug_info`.
fn push_info(text: &mut String, kind: FaultKind, at: u64) -> Result<(), AllocError>
    ensures { OnOk result (string_bytes text.new ≡ string_bytes text.old ++ words_at Place.Info kind at []) }
{
    push_offset(text, at, ".debug_info", info_sentence(kind))
}

// Appends the words for a fault in `.debug_abbrev`.
fn push_abbreviation(text: &mut String, kind: FaultKind, at: u64) -> Result<(), AllocError>
    ensures { OnOk result (string_bytes text.new ≡ string_bytes text.old ++ words_at Place.Abbreviations kind at []) }
{
    push_offset(text, at, ".debug_abbrev", "the abbreviation is damaged")
}

// Appends the words for a fault in a line of a rule file or of a certificate.
fn push_line(text: &mut String, kind: FaultKind, at: u64) -> Result<(), AllocError>
    ensures { OnOk result (string_bytes text.new ≡ string_bytes text.old ++ words_at Place.Line kind at []) }
{
    let words = line_sentence(kind);
    write!(text, "line {at}: {words}")
}

// Appends the words for a fault whose position counts this, in an input with these bytes.
fn push_at(
    text: &mut String,
    place: Place,
    kind: FaultKind,
    at: u64,
    bytes: &[u8],
) -> Result<(), AllocError>
    ensures { OnOk result (string_bytes text.new ≡ string_bytes text.old ++ words_at place kind at bytes.now) }
{
    match place {
        Place::File => text.push_str(file_sentence(kind, at, bytes)),
        Place::Section => push_section(text, kind, at, bytes),
        Place::Symbol => push_symbol(text, kind, at),
        Place::DynamicEntry => push_dynamic(text, kind, at),
        Place::Definition => push_numbered(text, "version definition", kind, at),
        Place::Need => push_numbered(text, "version need", kind, at),
        Place::Info => push_info(text, kind, at),
        Place::Abbreviations => push_abbreviation(text, kind, at),
        Place::Line => push_line(text, kind, at),
    }
}

// The words for a fault of an input with these bytes, and its position. The bytes may be empty, if they cannot be read a second
// time; the words are then less exact.
#[tactic(auto, unfolding(crate::specs::Faults::fault_words))]
fn words_of(alloc: Global, fault: Fault, bytes: &[u8]) -> Result<String, AllocError>
    ensures { IfOk result (λ words. string_bytes words ≡ fault_words fault bytes.now) }
{
    let mut words = String::new(alloc);
    push_at(
        &mut words,
        place_of(fault.kind),
        fault.kind,
        fault.at,
        bytes,
    )?;
    Ok(words)
}

/// The sentence about an input at a path, with these bytes, that has this fault: the fault in words, and then its number, its name
/// and its position. It is one line, whatever characters the path has. The bytes may be empty, if they cannot be read a second
/// time; the words are then less exact.
pub fn fault_sentence(
    alloc: Global,
    path: &str,
    fault: Fault,
    bytes: &[u8],
) -> Result<String, NoMemory>
    ensures says { IfOk result (λ text. SaysFault path.now fault bytes.now (string_bytes text)) }
    ensures line { IfOk result (λ text. IsTrue (is_one_line (string_bytes text))) }
{
    let mut why = words_of(alloc, fault, bytes)?;
    let more = allowed_in(alloc, fault, bytes)?;
    why.push_str(more.as_str())?;
    let mut text = said(alloc, path, why.as_str())?;
    push_mark(&mut text, fault)?;
    Ok(text)
}

// Appends the number, the name and the position of a fault.
fn push_mark(text: &mut String, fault: Fault) -> Result<(), AllocError>
    ensures { OnOk result (string_bytes text.new ≡ string_bytes text.old ++ fault_mark fault) }
{
    let number = fault.kind.number();
    let name = fault.kind.name();
    let at = fault.at;
    write!(text, " (fault {number} {name} at {at})")
}
