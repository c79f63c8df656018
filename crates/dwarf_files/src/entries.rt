// The entries of directory and file tables, one by one.
ghost use Rattle.std.specs.Prelude.{◌≡◌, ◌<◌, ◌≤◌, length, IfSome, IfOk};
ghost use Rattle.dwarf_files.specs.Lists.{directory_step, file_step, step_of};
ghost use Rattle.dwarf_files.specs.Tables.{value_of, with_value, entry_of};

use crate::formats::Pair;
use abi_base::{text_at, uleb};
use dwarf_forms::abbreviations::Spec;
use dwarf_forms::{UnitSpan, Value, value};

// The parts of a directory or file entry that this crate uses.
#[derive(Clone, Copy)]
pub(crate) struct Entry {
    // the name
    pub(crate) path: Option<Value>,
    // the index of the directory
    pub(crate) directory: Option<Value>,
}

// Content type codes (DWARF 5, section 7.22 "Line Number Information").

const DW_LNCT_path: u64 = 1;

const DW_LNCT_directory_index: u64 = 2;

// The value of a form at an offset in a header, and the offset after it.
fn value_in(bytes: &[u8], form: u64, at: usize) -> Option<(Value, usize)>
    ensures read { result ≡ value_of bytes.now form at }
    ensures inside { IfSome result (λ r. at ≤ length bytes.now → r.1 ≤ length bytes.now) }
{
    let whole = UnitSpan {
        start: 0,
        end: bytes.len() as u64,
    };
    let spec = Spec {
        attribute: 0,
        form,
        implicit: 0,
    };
    match value(bytes, whole, 0, spec, at) {
        Ok((found, after)) => {
            if at < after {
                Some((found, after))
            } else {
                None
            }
        }
        Err(_) => None,
    }
}

// An entry with one more value.
fn extended(entry: Entry, content: u64, found: Value) -> Entry
    ensures { result ≡ with_value entry content found }
{
    if content == DW_LNCT_path {
        Entry {
            path: entry.path.or(Some(found)),
            directory: entry.directory,
        }
    } else if content == DW_LNCT_directory_index {
        Entry {
            path: entry.path,
            directory: entry.directory.or(Some(found)),
        }
    } else {
        entry
    }
}

// The entry with a format at an offset in a header, and the offset after it.
#[tactic(auto, using(crate::proofs::EntryLemmas::values_more))]
pub(crate) fn entry_in(bytes: &[u8], format: &[Pair], at: usize) -> Option<(Entry, usize)>
    ensures { result ≡ entry_of bytes.now format.now at }
{
    let mut entry = Entry {
        path: None,
        directory: None,
    };
    let mut place = at;
    for pair in format {
        match value_in(bytes, pair.form, place) {
            Some((found, after)) => {
                entry = extended(entry, pair.content, found);
                place = after;
            }
            None => return None,
        }
    }
    if at < place {
        Some((entry, place))
    } else {
        None
    }
}

// The directory at an offset in a list of strings and the offset after it, or where the list ends.
#[tactic(auto, unfolding(crate::specs::Lists::directory_step))]
fn directory_in(bytes: &[u8], at: usize) -> Result<(Entry, usize), Option<usize>>
    ensures read { result ≡ directory_step bytes.now at }
    ensures after { IfOk result (λ r. at < r.1) }
    ensures inside { IfOk result (λ r. r.1 ≤ length bytes.now) }
{
    let Some(text) = text_at(bytes, at as u64) else {
        return Err(None);
    };
    if text.is_empty() {
        return Err(Some(at + 1));
    }
    Ok((
        Entry {
            path: Some(Value::Inline { from: at as u64 }),
            directory: None,
        },
        at + text.len() + 1,
    ))
}

// The file at an offset in a list of files and the offset after it, or where the list ends.
#[tactic(auto, unfolding(crate::specs::Lists::file_step))]
fn file_in(bytes: &[u8], at: usize) -> Result<(Entry, usize), Option<usize>>
    ensures read { result ≡ file_step bytes.now at }
    ensures after { IfOk result (λ r. at < r.1) }
    ensures inside { IfOk result (λ r. r.1 ≤ length bytes.now) }
{
    let (entry, after) = directory_in(bytes, at)?;
    let Some((directory, after)) = uleb(bytes, after) else {
        return Err(None);
    };
    let Some((_, after)) = uleb(bytes, after) else {
        return Err(None);
    };
    let Some((_, after)) = uleb(bytes, after) else {
        return Err(None);
    };
    Ok((
        Entry {
            path: entry.path,
            directory: Some(Value::Unsigned(directory)),
        },
        after,
    ))
}

// The item at an offset in a list of files or of directories.
pub(crate) fn item_in(bytes: &[u8], files: bool, at: usize) -> Result<(Entry, usize), Option<usize>>
    ensures read { result ≡ step_of files bytes.now at }
    ensures after { IfOk result (λ r. at < r.1) }
    ensures inside { IfOk result (λ r. r.1 ≤ length bytes.now) }
{
    if files {
        file_in(bytes, at)
    } else {
        directory_in(bytes, at)
    }
}
