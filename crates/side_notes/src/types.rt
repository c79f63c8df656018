// The notes on types, and all notes on two libraries, from their bytes.
ghost use Rattle.std.specs.Prelude.{◌≡◌, ◌≤◌, ◌<◌, ◌++◌, [], length, IfOk, Some, None};
ghost use Rattle.abi_base.specs.Limits.{input_limit};
ghost use Rattle.cert_check.specs.Compatible.{sides};
ghost use Rattle.pair_compare.specs.Compared.{IsComparison, sides_in};
ghost use Rattle.pair_compare.specs.Marking.{AreMarksOf};
ghost use Rattle.suppressions.specs.Marks as marks_spec;
ghost use Rattle.type_notes.specs.NotedPairs.{AreNotes};
ghost use Rattle.side_notes.specs.AllNotes.{AreAllNotes, AreByRules, AreOfFiles, AreTypeNotes, AreWithBoth, AreWithNeeds, AreWithOld, IsOnTypes, needs_where, noted_in};
ghost use Rattle.side_notes.specs.CountsOfFiles.{counts_by, counts_in, counts_with_both, counts_with_old};
ghost use Rattle.side_notes.specs.Needs.{needs_notes};

use crate::affected::affected_exports;
use crate::between::own_notes;
use crate::counts::{Counts, counts_of};
use crate::needs::push_needs;
use crate::said_once::said_once;
use abi_base::{List, NoMemory, Refusal};
use abi_types::{Library, Marks, NewIx, OldIx};
use dwarf_entries::Dwarf;
use elf_bind::bind_all;
use library_read::copy::copied;
use library_read::{WithDebug, read_library, read_with_debug};
use pair_compare::{Compared, View, compare_by};
use pair_rules::Steps;
use std::alloc::Global;
use std::marker::Brand;
use std::sync::ledger::{Blank, Ledger};
use suppression_text::{Rules, read_rules};
use suppressions::marks;
use type_notes::{Note, NotedPair, type_notes};

// What a rule file leaves out of the old library.
fn marks_by(alloc: Global, rules: &Rules, old: &Library<OldIx>) -> Result<Marks, NoMemory>
    ensures marks { IfOk result (λ marks. marks ≡ marks_spec.marks_of rules.now old.now) }
    ensures even { IfOk result (λ marks. AreMarksOf old.now marks) }
{
    marks(alloc, rules, old)
}

/// The notes on two libraries that are compared, and the counts of their exports.
#[derive(Drop)]
pub struct Beside {
    /// The notes.
    pub notes: List<Note>,
    /// How many exports are compared, where none of the files has a fault.
    pub counts: Option<Counts>,
}

// ---- from one comparison

// The view that shows the notes on types, those on the exports that lead to types which break a rule, and the counts of exports.
#[derive(Drop)]
struct OnTypes<'x, 'd> {
    old_dwarf: &'x Dwarf<'d>,
    new_dwarf: &'x Dwarf<'d>,
}

// The notes of two lists, one list after the other.
fn joined(before: List<Note>, behind: List<Note>) -> Result<List<Note>, NoMemory>
    ensures { IfOk result (λ notes. notes ≡ before ++ behind) }
{
    let mut all = before.into_vec();
    let mut others = behind.into_vec();
    all.append(&mut others)?;
    Ok(List::of(all))
}

// The notes on the types of two libraries that were compared.
fn type_notes_on(alloc: Global, on: &OnTypes, compared: &Compared) -> Result<List<Note>, NoMemory>
    requires { IsComparison compared.now }
    ensures { IfOk result (AreNotes (noted_in on.now.old_dwarf.now on.now.new_dwarf.now (sides_in compared.now))) }
{
    let ground = NotedPair {
        pair: *compared.pair,
        old_dwarf: on.old_dwarf,
        new_dwarf: on.new_dwarf,
    };
    type_notes(alloc, &ground)
}

// The notes on the types of two libraries that were compared, and those on the exports that lead to types which break a rule.
fn notes_on(alloc: Global, on: &OnTypes, compared: &Compared) -> Result<List<Note>, NoMemory>
    requires { IsComparison compared.now }
    ensures { IfOk result (AreTypeNotes (noted_in on.now.old_dwarf.now on.now.new_dwarf.now (sides_in compared.now))) }
{
    let types = type_notes_on(alloc, on, compared)?;
    let affected = affected_exports(alloc, compared)?;
    joined(types, affected)
}

// How many exports are compared, by what a comparison bound them to.
fn counts_on(alloc: Global, compared: &Compared) -> Result<Counts, NoMemory>
    requires { IsComparison compared.now }
    ensures { let s = sides_in compared.now in IfOk result (λ counts. counts ≡ counts_by s.old s.new s.marks) }
{
    counts_of(alloc, compared.pair.marks, compared.pair.bound)
}

impl<'x, 'd> View for OnTypes<'x, 'd> {
    type Shown = Beside;

    ghost shows = { λ v s beside. IsOnTypes v.old_dwarf.now v.new_dwarf.now s beside };

    // Nothing is said of which limits the notes pass.
    ghost passes = { λ v s limit. Unit {0} };

    fn view(&self, alloc: Global, compared: &Compared) -> Result<Beside, NoMemory> {
        let counts = counts_on(alloc, compared)?;
        let notes = notes_on(alloc, self, compared)?;
        Ok(Beside {
            notes,
            counts: Some(counts),
        })
    }
}

// The notes on types and the counts for two libraries that were read with their debug information, with a counter of steps. The
// libraries are compared once.
fn beside_types<'x, 'a, L: Ledger>(
    alloc: Global,
    blank: Blank,
    old: &'x WithDebug<'a, OldIx>,
    new: &'x WithDebug<'a, NewIx>,
    marks: &'x Marks,
) -> Result<Beside, NoMemory>
    requires name { blank.name ≡ L.name }
    requires parts { blank.parts ≡ L.parts }
    requires some { 0 < blank.parts }
    requires marks { AreMarksOf old.now.library marks.now }
    ensures { IfOk result (IsOnTypes old.now.dwarf new.now.dwarf (sides old.now.library new.now.library marks.now)) }
{
    let view = OnTypes {
        old_dwarf: &old.dwarf,
        new_dwarf: &new.dwarf,
    };
    let mut steps = Steps::<L>::new(blank);
    compare_by(alloc, &old.library, &new.library, marks, &view, &mut steps)
}

// ---- from the bytes of files

// No notes and no counts.
fn nothing(alloc: Global) -> Beside
    ensures notes { result.notes ≡ [] }
    ensures counts { result.counts ≡ None }
{
    Beside {
        notes: List::new(alloc),
        counts: None,
    }
}

// All notes on two libraries that were read with their debug information, by a rule file that was read.
#[tactic(auto, using(crate::proofs::RuleLemmas::by_rules))]
fn with_rules<'x, 'a>(
    alloc: Global,
    old: &'x WithDebug<'a, OldIx>,
    new: &'x WithDebug<'a, NewIx>,
    rules: &'x Rules,
) -> Result<Beside, NoMemory>
    ensures notes { IfOk result (λ beside. AreByRules old.now.library new.now.library old.now.dwarf
        new.now.dwarf rules.now beside.notes) }
    ensures counts { IfOk result (λ beside. beside.counts
        ≡ Some (counts_by old.now.library new.now.library (marks_spec.marks_of rules.now old.now.library))) }
{
    let marks = marks_by(alloc, rules, &old.library)?;
    let own = own_notes(alloc, &old.library, &new.library, rules, &marks)?;
    let Beside { notes, counts } = beside_types::<Brand>(alloc, Blank::new(1), old, new, &marks)?;
    let all = joined(notes, own)?;
    Ok(Beside {
        notes: said_once(alloc, all)?,
        counts,
    })
}

// All notes and counts on two libraries that were read with their debug information, by the bytes of a rule file.
#[tactic(auto, using(crate::proofs::CountLemmas::when_readable, crate::proofs::CountLemmas::when_faulty))]
fn with_both<'x, 'a>(
    alloc: Global,
    old: &'x WithDebug<'a, OldIx>,
    new: &'x WithDebug<'a, NewIx>,
    rules: &'x [u8],
) -> Result<Beside, NoMemory>
    ensures notes { IfOk result (λ beside. AreWithBoth old.now.library new.now.library old.now.dwarf
        new.now.dwarf rules.now beside.notes) }
    ensures counts { IfOk result (λ beside. beside.counts
        ≡ counts_with_both old.now.library new.now.library rules.now) }
{
    match read_rules(alloc, rules) {
        Ok(rules) => with_rules(alloc, old, new, &rules),
        Err(Refusal::Fault(_)) => Ok(nothing(alloc)),
        Err(Refusal::NoMemory(cause)) => Err(cause),
    }
}

// All notes on an old library that was read with its debug information and a new one, from the bytes of the new one and of a rule
// file.
#[tactic(auto, using(crate::proofs::CountLemmas::when_readable, crate::proofs::CountLemmas::when_faulty))]
fn with_old<'a>(
    alloc: Global,
    old: &WithDebug<'a, OldIx>,
    new: &'a [u8],
    rules: &[u8],
) -> Result<Beside, NoMemory>
    requires { length new.now ≤ input_limit }
    ensures notes { IfOk result (λ beside. AreWithOld old.now.library old.now.dwarf new.now rules.now beside.notes) }
    ensures counts { IfOk result (λ beside. beside.counts ≡ counts_with_old old.now.library new.now rules.now) }
{
    match read_with_debug(alloc, new) {
        Ok(read) => with_both(alloc, old, &read, rules),
        Err(Refusal::Fault(_)) => Ok(nothing(alloc)),
        Err(Refusal::NoMemory(cause)) => Err(cause),
    }
}

// All notes on two libraries, from their bytes and those of a rule file. Each library is read once.
#[tactic(auto, using(crate::proofs::CountLemmas::when_readable, crate::proofs::CountLemmas::when_faulty))]
fn of_files<'a>(
    alloc: Global,
    old: &'a [u8],
    new: &'a [u8],
    rules: &'a [u8],
) -> Result<Beside, NoMemory>
    requires old_short { length old.now ≤ input_limit }
    requires new_short { length new.now ≤ input_limit }
    ensures notes { IfOk result (λ beside. AreOfFiles old.now new.now rules.now beside.notes) }
    ensures counts { IfOk result (λ beside. beside.counts ≡ counts_in old.now new.now rules.now) }
{
    match read_with_debug(alloc, old) {
        Ok(read) => with_old(alloc, &read, new, rules),
        Err(Refusal::Fault(_)) => Ok(nothing(alloc)),
        Err(Refusal::NoMemory(cause)) => Err(cause),
    }
}

// The notes and counts, with the notes on what only the new file needs of other files. These are added where exports are counted.
fn with_needs(alloc: Global, beside: Beside, old: &[u8], new: &[u8]) -> Result<Beside, NoMemory>
    requires old_short { length old.now ≤ input_limit }
    requires new_short { length new.now ≤ input_limit }
    ensures notes { IfOk result (λ all. all.notes
        ≡ beside.notes ++ needs_where beside.counts (needs_notes old.now new.now)) }
    ensures counts { IfOk result (λ all. all.counts ≡ beside.counts) }
{
    let Beside { mut notes, counts } = beside;
    match counts {
        None => {}
        Some(_) => push_needs(alloc, &mut notes, old, new)?,
    }
    Ok(Beside { notes, counts })
}

// All notes and counts on two libraries, from their bytes and those of a rule file.
fn beside_files(alloc: Global, old: &[u8], new: &[u8], rules: &[u8]) -> Result<Beside, NoMemory>
    requires old_short { length old.now ≤ input_limit }
    requires new_short { length new.now ≤ input_limit }
    ensures notes { IfOk result (λ all. AreWithNeeds old.now new.now rules.now all.notes) }
    ensures counts { IfOk result (λ all. all.counts ≡ counts_in old.now new.now rules.now) }
{
    let beside = of_files(alloc, old, new, rules)?;
    let all = with_needs(alloc, beside, old, new)?;
    Ok(all)
}

/// All notes on two libraries, from their bytes and those of a rule file: those on their types, those on the exports that lead to
/// types that break a rule, those on their exports alone, and then those on what only the new one needs of other files. Of notes on
/// types with the same names before and now, only the first is kept. There are no notes if one of the files has a fault, or if both
/// libraries are the same bytes; then nothing is read.
pub fn all_notes(
    alloc: Global,
    old: &[u8],
    new: &[u8],
    rules: &[u8],
) -> Result<List<Note>, NoMemory>
    requires old_short { length old.now ≤ input_limit }
    requires new_short { length new.now ≤ input_limit }
    ensures { IfOk result (AreAllNotes old.now new.now rules.now) }
{
    if old == new {
        return Ok(List::new(alloc));
    }
    let beside = beside_files(alloc, old, new, rules)?;
    Ok(beside.notes)
}

// How many exports of two libraries that were read are compared.
fn counts_between(
    alloc: Global,
    old: &Library<OldIx>,
    new: &Library<NewIx>,
    marks: &Marks,
) -> Result<Counts, NoMemory>
    ensures { IfOk result (λ counts. counts ≡ counts_by old.now new.now marks.now) }
{
    let bound = bind_all(alloc, old.exports(), new.exports())?;
    counts_of(alloc, marks, bound.as_slice())
}

// How many exports of a library are compared with its own, by the marks on it.
fn own_counts_by_marks(
    alloc: Global,
    library: &Library<OldIx>,
    marks: &Marks,
) -> Result<Counts, NoMemory>
    ensures { IfOk result (λ counts. counts ≡ counts_by library.now library.now marks.now) }
{
    let same = copied(alloc, library)?;
    counts_between(alloc, library, &same, marks)
}

// How many exports of a library are compared with its own, by a rule file that was read.
fn own_counts_by_rules(
    alloc: Global,
    library: &Library<OldIx>,
    rules: &Rules,
) -> Result<Option<Counts>, NoMemory>
    ensures { IfOk result (λ counts. counts
        ≡ Some (counts_by library.now library.now (marks_spec.marks_of rules.now library.now))) }
{
    let marks = marks_by(alloc, rules, library)?;
    Ok(Some(own_counts_by_marks(alloc, library, &marks)?))
}

// How many exports of a library are compared with its own, by the bytes of a rule file.
#[tactic(auto, using(crate::proofs::CountLemmas::when_readable, crate::proofs::CountLemmas::when_faulty))]
fn own_counts(
    alloc: Global,
    library: &Library<OldIx>,
    rules: &[u8],
) -> Result<Option<Counts>, NoMemory>
    ensures { IfOk result (λ counts. counts ≡ counts_with_both library.now library.now rules.now) }
{
    match read_rules(alloc, rules) {
        Ok(rules) => own_counts_by_rules(alloc, library, &rules),
        Err(Refusal::Fault(_)) => Ok(None),
        Err(Refusal::NoMemory(cause)) => Err(cause),
    }
}

// How many exports of a library are compared with its own, from its bytes and those of a rule file. The library is read once.
#[tactic(auto, using(crate::proofs::CountLemmas::when_readable, crate::proofs::CountLemmas::when_faulty))]
fn same_counts(alloc: Global, file: &[u8], rules: &[u8]) -> Result<Option<Counts>, NoMemory>
    requires { length file.now ≤ input_limit }
    ensures { IfOk result (λ counts. counts ≡ counts_in file.now file.now rules.now) }
{
    match read_library(alloc, file) {
        Ok(library) => own_counts(alloc, &library, rules),
        Err(Refusal::Fault(_)) => Ok(None),
        Err(Refusal::NoMemory(cause)) => Err(cause),
    }
}

/// All notes on two libraries, and how many exports are compared, dropped and gone, from their bytes and those of a rule file. If
/// one of the files has a fault, there are no counts.
pub fn all_beside(alloc: Global, old: &[u8], new: &[u8], rules: &[u8]) -> Result<Beside, NoMemory>
    requires old_short { length old.now ≤ input_limit }
    requires new_short { length new.now ≤ input_limit }
    ensures notes { IfOk result (λ beside. AreAllNotes old.now new.now rules.now beside.notes) }
    ensures counts { IfOk result (λ beside. beside.counts ≡ counts_in old.now new.now rules.now) }
{
    if old == new {
        return Ok(Beside {
            notes: List::new(alloc),
            counts: same_counts(alloc, old, rules)?,
        });
    }
    beside_files(alloc, old, new, rules)
}
