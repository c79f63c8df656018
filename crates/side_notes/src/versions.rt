// The versions of the exports of a new library that the old one does not have.
ghost use Rattle.std.specs.Prelude.{◌≡◌, ◌++◌, List, ℕ, IfOk, OnOk, flat_map};
ghost use Rattle.std.specs.Borrow.{Bor};
ghost use Rattle.std.specs.Option.{option_copied};
ghost use Rattle.abi_types.specs.Plain.{plain_exports};
ghost use Rattle.side_notes.specs.Versions.{kept_with, notes_if_new, version_notes};
ghost use Rattle.side_notes.specs.Versions as spec;

use crate::making::{note_on, shown_name};
use crate::version_list::VersionList;
use abi_base::{List, NoMemory};
use abi_types::{Export, Library, NewIx, OldIx};
use std::alloc::Global;
use type_notes::{Note, NoteKind};

// Adds the version of an export to the list, if the export has one and it is new.
fn put<'a>(kept: &mut VersionList<'a>, version: Option<&'a [u8]>) -> Result<(), NoMemory>
    ensures { OnOk result (kept.new ≡ kept_with kept.old (option_copied version.entry)) }
{
    if let Some(version) = version {
        kept.add(version)?;
    }
    Ok(())
}

// The versions of exports, each once, in the order in which the exports first have them.
fn versions_of<'a>(alloc: Global, exports: &[Export<'a>]) -> Result<VersionList<'a>, NoMemory>
    ensures { IfOk result (λ kept. kept ≡ spec.versions_of (plain_exports exports.now)) }
{
    let mut kept = VersionList::new(alloc);
    for export in exports {
        put(&mut kept, export.version)?;
    }
    Ok(kept)
}

// Appends the note on a version, unless it is known.
fn push_if_new(
    alloc: Global,
    notes: &mut List<Note>,
    known: &VersionList,
    version: &[u8],
) -> Result<(), NoMemory>
    ensures { OnOk result (notes.new ≡ notes.old ++ notes_if_new known.now version.now) }
{
    if known.has(version) {
        return Ok(());
    }
    let shown = shown_name(alloc, version)?;
    notes.push(note_on(
        alloc,
        NoteKind::VersionAdded,
        List::new(alloc),
        List::new(alloc),
        shown,
    ))
}

// Appends the notes on versions, without those that are known.
fn push_each(
    alloc: Global,
    notes: &mut List<Note>,
    known: &VersionList,
    versions: &[&[u8]],
) -> Result<(), NoMemory>
    ensures { OnOk result (notes.new
        ≡ notes.old ++ flat_map (λ (v : Bor (List ℕ)). notes_if_new known.now v.now) versions.now) }
{
    for version in versions {
        push_if_new(alloc, notes, known, version)?;
    }
    Ok(())
}

/// Appends a note on each version of the exports of the new library that no export of the old one has, in the order in which the
/// exports first have them.
pub fn push_versions(
    alloc: Global,
    notes: &mut List<Note>,
    old: &Library<OldIx>,
    new: &Library<NewIx>,
) -> Result<(), NoMemory>
    ensures { OnOk result (notes.new ≡ notes.old ++ version_notes old.now.exports new.now.exports) }
{
    let known = versions_of(alloc, old.exports())?;
    let versions = versions_of(alloc, new.exports())?;
    push_each(alloc, notes, &known, versions.as_slice())
}
