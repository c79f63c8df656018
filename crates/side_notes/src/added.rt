// The exports of a new library that the old one does not have.
ghost use Rattle.std.specs.Prelude.{◌≡◌, ◌++◌, IfErr, OnOk, flat_map};
ghost use Rattle.abi_base.specs.declared.fault.NoMemory.TheVariants.{Past};
ghost use Rattle.abi_base.specs.declared.limit.Limit.TheVariants.{Notes};
ghost use Rattle.abi_types.specs.declared.export.Export.{Export as AnyExport};
ghost use Rattle.abi_types.specs.Plain.{plain_export};
ghost use Rattle.side_notes.specs.Added.{added_notes, notes_if_added};
ghost use Rattle.side_notes.specs.Added as spec;

use crate::making::{label_of, note_on};
use abi_base::{Budget, Limit, List, NoMemory};
use abi_types::{Export, Library, NewIx, OldIx};
use std::alloc::Global;
use type_notes::{Note, NoteKind};

/// Whether an old library has an export of the name and the version of a new one. It takes the time of two binary searches.
pub fn has_export(old: &Library<OldIx>, export: &Export) -> bool
    ensures { result ≡ spec.has_export old.now.exports (plain_export export.now) }
{
    !old.exports_of_version(export.name, export.version)
        .is_empty()
}

// What a note takes besides its label, in bytes.
const NOTE: usize = 128;

// Counts the labels of the exports that are added: the names of exports can share their bytes. It fails where they pass the limit.
fn count_labels(old: &Library<OldIx>, new: &Library<NewIx>) -> Result<(), NoMemory>
    ensures { IfErr result (λ e. e ≡ Past Notes) }
{
    let mut budget = Budget::of_many(Limit::Notes, new.file().len());
    for export in new.exports() {
        if !has_export(old, export) {
            budget.take(export.name.len().saturating_add(NOTE))?;
        }
    }
    Ok(())
}

// Appends the note on a new export, unless the old library has it.
fn push_if_added(
    alloc: Global,
    notes: &mut List<Note>,
    old: &Library<OldIx>,
    export: &Export,
) -> Result<(), NoMemory>
    ensures { OnOk result (notes.new ≡ notes.old ++ notes_if_added old.now.exports (plain_export export.now)) }
{
    if has_export(old, export) {
        return Ok(());
    }
    let label = label_of(alloc, export)?;
    notes.push(note_on(
        alloc,
        NoteKind::ExportAdded,
        label,
        List::new(alloc),
        List::new(alloc),
    ))
}

// Appends the notes on these new exports, one after another.
fn push_each(
    alloc: Global,
    notes: &mut List<Note>,
    old: &Library<OldIx>,
    exports: &[Export],
) -> Result<(), NoMemory>
    ensures { OnOk result (notes.new
        ≡ notes.old ++ flat_map (λ (e : AnyExport). notes_if_added old.now.exports (plain_export e)) exports.now) }
{
    for export in exports {
        push_if_added(alloc, notes, old, export)?;
    }
    Ok(())
}

/// Appends a note on each export of the new library whose name and version no export of the old one has. It appends none where their
/// labels pass the limit on notes.
pub fn push_added(
    alloc: Global,
    notes: &mut List<Note>,
    old: &Library<OldIx>,
    new: &Library<NewIx>,
) -> Result<(), NoMemory>
    ensures { OnOk result (notes.new ≡ notes.old ++ added_notes old.now.exports new.now.exports) }
{
    count_labels(old, new)?;
    push_each(alloc, notes, old, new.exports())
}
