// What the new library needs of other files and the old one does not.
ghost use Rattle.std.specs.Prelude.{◌≡◌, ◌≤◌, ◌∷◌, ◌++◌, [], length, map, IfErr, IfOk, OnOk};
ghost use Rattle.abi_base.specs.declared.fault.NoMemory.TheVariants.{Past};
ghost use Rattle.abi_base.specs.declared.limit.Limit.TheVariants.{Notes};
ghost use Rattle.abi_base.specs.Limits.{input_limit};
ghost use Rattle.new_needs.specs.Plain.{plain_all, plain_needed, plain_needs};
ghost use Rattle.side_notes.specs.Needs.{need_note, needed_text, notes_on, needs_notes};

use crate::making::{bytes_of, note_on};
use abi_base::{Budget, Limit, List, NoMemory};
use abi_types::push_shown;
use new_needs::{FileNeeds, Needed, new_needs};
use std::alloc::Global;
use type_notes::{Note, NoteKind};

// What a note takes besides its text, in bytes.
const NOTE: usize = 128;

// Takes the texts of notes of one kind. It fails where they pass the limit.
fn take_texts(budget: &mut Budget, list: &[Needed]) -> Result<(), NoMemory>
    ensures limit { budget.new.limit ≡ budget.old.limit }
    ensures named { IfErr result (λ e. e ≡ Past budget.old.limit) }
{
    for needed in list {
        let letters = needed.name.len().saturating_add(needed.of.len());
        budget.take(letters.saturating_add(NOTE))?;
    }
    Ok(())
}

// Counts the texts of all notes on needs: names can share their bytes. It fails where they pass the limit.
fn count_texts(needs: &FileNeeds, file: &[u8]) -> Result<(), NoMemory>
    ensures { IfErr result (λ e. e ≡ Past Notes) }
{
    let mut budget = Budget::of_many(Limit::Notes, file.len());
    take_texts(&mut budget, &needs.files)?;
    take_texts(&mut budget, &needs.versions)?;
    take_texts(&mut budget, &needs.symbols)
}

// The printed form of what is needed: its name, and what it is of behind a sign.
fn text_of(alloc: Global, needed: &Needed, sign: &str) -> Result<List<u8>, NoMemory>
    ensures { IfOk result (λ text. text ≡ needed_text sign.now (plain_needed needed.now)) }
{
    let mut text = String::new(alloc);
    push_shown(alloc, &mut text, needed.name)?;
    if !needed.of.is_empty() {
        text.push_str(sign)?;
        push_shown(alloc, &mut text, needed.of)?;
    }
    Ok(bytes_of(text))
}

// Appends the note on what is needed.
fn push_one(
    alloc: Global,
    notes: &mut List<Note>,
    kind: NoteKind,
    sign: &str,
    needed: &Needed,
) -> Result<(), NoMemory>
    ensures { OnOk result (notes.new ≡ notes.old ++ need_note kind sign.now (plain_needed needed.now) ∷ []) }
{
    let text = text_of(alloc, needed, sign)?;
    notes.push(note_on(alloc, kind, List::new(alloc), List::new(alloc), text))
}

// Appends the notes of a kind on what is needed, one after another.
fn push_each(
    alloc: Global,
    notes: &mut List<Note>,
    kind: NoteKind,
    sign: &str,
    list: &[Needed],
) -> Result<(), NoMemory>
    ensures { OnOk result (notes.new ≡ notes.old ++ map (need_note kind sign.now) (plain_all list.now)) }
{
    for needed in list {
        push_one(alloc, notes, kind, sign, needed)?;
    }
    Ok(())
}

// Appends the notes on needs, kind by kind.
fn push_notes(alloc: Global, notes: &mut List<Note>, needs: &FileNeeds) -> Result<(), NoMemory>
    ensures { OnOk result (notes.new ≡ notes.old ++ notes_on (plain_needs needs.now)) }
{
    push_each(alloc, notes, NoteKind::NeedsLibrary, " of ", &needs.files)?;
    push_each(
        alloc,
        notes,
        NoteKind::NeedsVersion,
        " of ",
        &needs.versions,
    )?;
    push_each(alloc, notes, NoteKind::NeedsSymbol, "@", &needs.symbols)?;
    Ok(())
}

/// Appends a note on each file, on each version of a file and on each symbol that the new library needs and the old one does not. It
/// appends none where one of them has a fault in its needs, and none where their texts pass the limit on notes.
pub fn push_needs(
    alloc: Global,
    notes: &mut List<Note>,
    old: &[u8],
    new: &[u8],
) -> Result<(), NoMemory>
    requires old_short { length old.now ≤ input_limit }
    requires new_short { length new.now ≤ input_limit }
    ensures { OnOk result (notes.new ≡ notes.old ++ needs_notes old.now new.now) }
{
    let needs = new_needs(alloc, old, new)?;
    count_texts(&needs, new)?;
    push_notes(alloc, notes, &needs)?;
    Ok(())
}
