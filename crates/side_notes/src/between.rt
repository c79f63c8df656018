// The notes on the exports of two libraries, and on the sections of a rule file.
ghost use Rattle.std.specs.Prelude.{◌≡◌, IfOk};
ghost use Rattle.suppressions.specs.Marks.{marks_of};
ghost use Rattle.side_notes.specs.Between.{notes_by};
ghost use Rattle.side_notes.specs.Between as spec;

use crate::added::push_added;
use crate::idle::push_idle_sections;
use crate::old_exports::push_old_exports;
use crate::versions::push_versions;
use abi_base::{List, NoMemory};
use abi_types::{Library, Marks, NewIx, OldIx};
use std::alloc::Global;
use suppression_text::Rules;
use type_notes::Note;

/// The notes on the exports of two libraries, without the old ones that a rule file drops: on new exports, on new versions, on
/// thread-local objects whose sizes differ, and on likely successors of exports that are gone.
#[tactic(auto, unfolding(crate::specs::Between::export_notes))]
pub fn export_notes(
    alloc: Global,
    old: &Library<OldIx>,
    new: &Library<NewIx>,
    marks: &Marks,
) -> Result<List<Note>, NoMemory>
    ensures { IfOk result (λ notes. notes ≡ spec.export_notes old.now new.now marks.now) }
{
    let mut notes = List::new(alloc);
    push_added(alloc, &mut notes, old, new)?;
    push_versions(alloc, &mut notes, old, new)?;
    push_old_exports(alloc, &mut notes, old, new, marks)?;
    Ok(notes)
}

/// The notes on two libraries that are not about types: those on their exports, and those on the sections of the rule file that
/// match nothing in the old library. The marks are what the rule file leaves out of it.
pub(crate) fn own_notes(
    alloc: Global,
    old: &Library<OldIx>,
    new: &Library<NewIx>,
    rules: &Rules,
    marks: &Marks,
) -> Result<List<Note>, NoMemory>
    requires { marks.now ≡ marks_of rules.now old.now }
    ensures { IfOk result (λ notes. notes ≡ notes_by old.now new.now rules.now) }
{
    let mut notes = export_notes(alloc, old, new, marks)?;
    push_idle_sections(alloc, &mut notes, rules, old)?;
    Ok(notes)
}
