// The notes on differences that no rule judges, as JSON objects.
ghost use Rattle.std.specs.Prelude.{◌≤◌, length};
ghost use Rattle.abi_base.specs.Limits.{input_limit};

use abi_base::NoMemory;
use cli_args::{ParsedArguments, Request, parse_arguments};
use commands::{Input, Outcome};
use document_head::{Ending, input_bytes};
use explain::memory_sentence;
use serde_json::{Map, Value, put};
use side_notes::all_notes;
use std::alloc::{AllocError, Global};
use std::str;
use type_notes::Note;

// A text, or null if it is empty.
fn text_value(alloc: Global, text: &[u8]) -> Result<Value, AllocError> {
    if text.is_empty() {
        return Ok(Value::Null);
    }
    match str::from_utf8(text) {
        Ok(text) => Value::try_from_str(alloc, text),
        Err(_) => Ok(Value::Null),
    }
}

// Adds a member that is a text, or null if the text is empty.
fn put_text(
    alloc: Global,
    object: &mut Map<String, Value>,
    member: &str,
    text: &[u8],
) -> Result<(), AllocError> {
    let value = text_value(alloc, text)?;
    put(object, alloc, member, value)
}

// The object of a note.
fn note_value(alloc: Global, note: &Note) -> Result<Value, AllocError> {
    let mut object = Map::new(alloc);
    put_text(alloc, &mut object, "kind", note.kind.name().as_bytes())?;
    put_text(alloc, &mut object, "export", note.export.as_slice())?;
    put_text(alloc, &mut object, "path", note.path.as_slice())?;
    put_text(alloc, &mut object, "was", note.was.as_slice())?;
    put_text(alloc, &mut object, "is", note.is.as_slice())?;
    Ok(Value::Object(object))
}

// The objects of notes.
fn note_values(alloc: Global, notes: &[Note]) -> Result<Vec<Value>, AllocError> {
    let mut list = Vec::new(alloc);
    for note in notes {
        list.push(note_value(alloc, note)?)?;
    }
    Ok(list)
}

// Whether two libraries were judged by `check`.
fn is_judged_check(alloc: Global, ending: &Ending<'_>) -> Result<bool, NoMemory> {
    let Outcome::Judged(_, _) = ending.outcome else {
        return Ok(false);
    };
    match parse_arguments(alloc, ending.words)? {
        ParsedArguments::Request(Request::Check(_)) => Ok(true),
        _ => Ok(false),
    }
}

/// The notes of a document, and why there are none.
#[derive(Drop)]
pub(crate) struct SideNotes {
    /// The notes as an array, or null.
    pub notes: Value,
    /// The sentence on the limit that the notes would pass, or null.
    pub missing: Value,
}

impl SideNotes {
    /// Those of a document that has none.
    pub(crate) fn none() -> SideNotes {
        SideNotes {
            notes: Value::Null,
            missing: Value::Null,
        }
    }
}

/// The notes on two libraries, given the bytes of both and of a rule file. If they would pass a limit, there are none, and a sentence
/// names the limit. It fails only if an allocation does.
pub(crate) fn notes_value(
    alloc: Global,
    old: &[u8],
    new: &[u8],
    rules: &[u8],
) -> Result<SideNotes, NoMemory>
    requires old_short { length old.now ≤ input_limit }
    requires new_short { length new.now ≤ input_limit }
{
    match all_notes(alloc, old, new, rules) {
        Ok(notes) => Ok(SideNotes {
            notes: Value::Array(note_values(alloc, notes.as_slice())?),
            missing: Value::Null,
        }),
        Err(NoMemory::Allocation) => Err(NoMemory::Allocation),
        Err(cause) => {
            let sentence = memory_sentence(alloc, cause)?;
            Ok(SideNotes {
                notes: Value::Null,
                missing: Value::try_from_str(alloc, sentence.as_str())?,
            })
        }
    }
}

/// The notes on two libraries that `check` judged. There are none if they are not wanted.
pub(crate) fn side_notes_of(alloc: Global, ending: &Ending<'_>) -> Result<SideNotes, NoMemory> {
    if !ending.wanted.notes || !is_judged_check(alloc, ending)? {
        return Ok(SideNotes::none());
    }
    let old = input_bytes(ending, Input::Old);
    let new = input_bytes(ending, Input::New);
    let rules = input_bytes(ending, Input::Rules);
    notes_value(alloc, old, new, rules)
}
