// Notes as lines, for people.
ghost use Rattle.std.specs.Prelude.{◌≡◌, ◌++◌, ◌≤◌, IfErr, IfOk, OnOk, count_by};
ghost use Rattle.abi_base.specs.declared.fault.NoMemory.TheVariants.{Allocation};
ghost use Rattle.side_notes.specs.NoteTexts.{all_kinds, behind, change_sign_of, counted_to, first_lines, is_of, kind_text, line_end, line_front, line_if, line_start, note_line, rest_line, rest_words};
ghost use Rattle.side_notes.specs.NoteTexts as spec;

use abi_base::NoMemory;
use std::alloc::Global;
use type_notes::{Note, NoteKind};

// How many notes of a kind are printed.
const MOST: usize = 10;

// The kinds, in the order in which they are printed.
static ALL_KINDS: [NoteKind; 24] = [
    NoteKind::AffectedExport,
    NoteKind::ExportAdded,
    NoteKind::VersionAdded,
    NoteKind::ThreadObject,
    NoteKind::ObjectQualifiers,
    NoteKind::Successor,
    NoteKind::NeedsLibrary,
    NoteKind::NeedsVersion,
    NoteKind::NeedsSymbol,
    NoteKind::IdleSection,
    NoteKind::ArrayDimensions,
    NoteKind::MemberInPadding,
    NoteKind::UnionWithoutMembers,
    NoteKind::TagOrName,
    NoteKind::ParameterName,
    NoteKind::Qualifiers,
    NoteKind::Prototype,
    NoteKind::Endianity,
    NoteKind::CallingConvention,
    NoteKind::AddressClass,
    NoteKind::NoReturn,
    NoteKind::Packing,
    NoteKind::EnumeratorSign,
    NoteKind::DefinedElsewhere,
];

// All kinds, in order.
#[tactic(auto, unfolding(crate::specs::NoteTexts::all_kinds))]
fn kinds() -> &'static [NoteKind]
    ensures { result.now ≡ all_kinds }
{
    &ALL_KINDS
}

// Appends bytes.
fn push(text: &mut Vec<u8>, bytes: &[u8]) -> Result<(), NoMemory>
    ensures ok { OnOk result (text.new.items ≡ text.old.items ++ bytes.now) }
    ensures named { IfErr result (λ e. e ≡ Allocation) }
{
    text.extend_from_slice(bytes)?;
    Ok(())
}

// Appends the beginning of a line: the word `note` and the kind.
#[tactic(auto, unfolding(crate::specs::NoteTexts::line_start))]
fn push_start(text: &mut Vec<u8>, kind: NoteKind) -> Result<(), NoMemory>
    ensures ok { OnOk result (text.new.items ≡ text.old.items ++ line_start kind) }
    ensures named { IfErr result (λ e. e ≡ Allocation) }
{
    push(text, b"abi: note: ")?;
    push(text, kind.name().as_bytes())
}

// Appends a sign and a text, if the text is not empty.
fn push_behind(text: &mut Vec<u8>, sign: &str, bytes: &[u8]) -> Result<(), NoMemory>
    ensures ok { OnOk result (text.new.items ≡ text.old.items ++ behind sign.now bytes.now) }
    ensures named { IfErr result (λ e. e ≡ Allocation) }
{
    if bytes.is_empty() {
        return Ok(());
    }
    push(text, sign.as_bytes())?;
    push(text, bytes)
}

// Appends the place of a note, with which its line begins.
fn push_front(text: &mut Vec<u8>, note: &Note) -> Result<(), NoMemory>
    ensures ok { OnOk result (text.new.items ≡ text.old.items ++ line_front note.now) }
    ensures named { IfErr result (λ e. e ≡ Allocation) }
{
    push_start(text, note.kind)?;
    push_behind(text, ": ", note.export.as_slice())?;
    push_behind(text, " ", note.path.as_slice())
}

// Appends the old and the new state of a note, and the end of its line.
fn push_end(text: &mut Vec<u8>, note: &Note) -> Result<(), NoMemory>
    ensures ok { OnOk result (text.new.items ≡ text.old.items ++ line_end note.now) }
    ensures named { IfErr result (λ e. e ≡ Allocation) }
{
    let was = note.was.as_slice();
    push_behind(text, ": was ", was)?;
    push_behind(text, change_sign(was), note.is.as_slice())?;
    push(text, b"\n")
}

// Appends a note as a line.
#[tactic(auto, unfolding(crate::specs::NoteTexts::note_line))]
fn push_line(text: &mut Vec<u8>, note: &Note) -> Result<(), NoMemory>
    ensures ok { OnOk result (text.new.items ≡ text.old.items ++ note_line note.now) }
    ensures named { IfErr result (λ e. e ≡ Allocation) }
{
    push_front(text, note)?;
    push_end(text, note)
}

// The sign between the old state and the new one.
fn change_sign(was: &[u8]) -> &'static str
    ensures { result.now ≡ change_sign_of was.now }
{
    if was.is_empty() { ": " } else { ", now " }
}

// Appends a note as a line, if it is of this kind and comes after fewer than ten of that kind.
fn push_if(text: &mut Vec<u8>, kind: NoteKind, so_far: usize, note: &Note) -> Result<(), NoMemory>
    ensures ok { OnOk result (text.new.items ≡ text.old.items ++ line_if kind so_far note.now) }
    ensures named { IfErr result (λ e. e ≡ Allocation) }
{
    if note.kind != kind {
        return Ok(());
    }
    if so_far >= MOST {
        return Ok(());
    }
    push_line(text, note)
}

// Appends the number of further notes, in words.
fn push_rest_words(alloc: Global, text: &mut Vec<u8>, rest: usize) -> Result<(), NoMemory>
    ensures ok { OnOk result (text.new.items ≡ text.old.items ++ rest_words rest) }
    ensures named { IfErr result (λ e. e ≡ Allocation) }
{
    let digits = format!(in alloc; "{rest}")?;
    push(text, b": and ")?;
    push(text, digits.as_bytes())?;
    push(text, b" more")?;
    push(text, b"\n")
}

// Appends the number of further notes of a kind, if more than ten exist.
fn push_rest(
    alloc: Global,
    text: &mut Vec<u8>,
    kind: NoteKind,
    count: usize,
) -> Result<(), NoMemory>
    ensures ok { OnOk result (text.new.items ≡ text.old.items ++ rest_line kind count) }
    ensures named { IfErr result (λ e. e ≡ Allocation) }
{
    if count <= MOST {
        return Ok(());
    }
    push_start(text, kind)?;
    push_rest_words(alloc, text, count - MOST)
}

// How many notes there are of a kind.
fn count_of(notes: &[Note], kind: NoteKind) -> usize
    ensures { result ≡ count_by (is_of kind) notes.now }
{
    notes.iter().filter(|note| note.kind == kind).count()
}

// Appends the first notes of a kind.
fn push_first(text: &mut Vec<u8>, notes: &[Note], kind: NoteKind) -> Result<(), NoMemory>
    ensures ok { OnOk result (text.new.items ≡ text.old.items ++ first_lines kind notes.now) }
    ensures named { IfErr result (λ e. e ≡ Allocation) }
{
    let mut so_far = 0;
    for note in notes {
        push_if(text, kind, so_far, note)?;
        so_far = counted(so_far, kind, note);
    }
    Ok(())
}

// The number of notes of a kind so far, counting this note. It stops at ten, the most that are printed.
fn counted(so_far: usize, kind: NoteKind, note: &Note) -> usize
    requires { so_far ≤ 10 }
    ensures { result ≡ counted_to kind so_far note.now }
{
    if note.kind == kind && so_far < MOST {
        so_far + 1
    } else {
        so_far
    }
}

// Appends the notes of a kind: the first ten, and how many more there are.
fn push_kind(
    alloc: Global,
    text: &mut Vec<u8>,
    notes: &[Note],
    kind: NoteKind,
) -> Result<(), NoMemory>
    ensures ok { OnOk result (text.new.items ≡ text.old.items ++ kind_text notes.now kind) }
    ensures named { IfErr result (λ e. e ≡ Allocation) }
{
    push_first(text, notes, kind)?;
    push_rest(alloc, text, kind, count_of(notes, kind))
}

/// The notes as lines, one kind after another: the first ten of each kind, and how many more there are of it.
pub fn note_text(alloc: Global, notes: &[Note]) -> Result<Vec<u8>, NoMemory>
    ensures ok { IfOk result (λ text. text.items ≡ spec.note_text notes.now) }
    ensures named { IfErr result (λ e. e ≡ Allocation) }
{
    let kinds = kinds();
    let mut text = Vec::new(alloc);
    for kind in kinds {
        push_kind(alloc, &mut text, notes, *kind)?;
    }
    Ok(text)
}
