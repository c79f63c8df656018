// The limits on the soname, on the weight of patterns, and on the letters that they may read.
ghost use Rattle.std.specs.Prelude.{◌≡◌, ◌≤◌, ◌<◌, ◌*◌, ◌-◌, ◌^◌, length, min, IfErr, IfSome, OnErr, OnOk, map, sum_by};
ghost use Rattle.std.specs.Option.{option_copied};
ghost use Rattle.abi_base.specs.declared.fault.NoMemory.TheVariants.{Past};
ghost use Rattle.abi_base.specs.declared.limit.Limit.TheVariants.{PatternLetters, Patterns, Soname};
ghost use Rattle.abi_base.specs.Budgets.{allowed};
ghost use Rattle.abi_types.specs.Plain.{plain_export, plain_exports, plain_label};
ghost use Rattle.abi_types.specs.Types.{PlainNode};
ghost use Rattle.suppressions.specs.Weights.{text_length, letters_allowed, node_letters, weight_allowed};
ghost use Rattle.suppressions.specs.Weights as spec;

use crate::weight::weight_of;
use abi_base::{Budget, Limit, NoMemory};
use abi_types::{Export, Graph, Index, Label, Library, OldIx};
use suppression_text::Section;

// The length of a text, which is 0 where there is none.
fn length_of(text: Option<&[u8]>) -> usize
    ensures { result ≡ text_length (option_copied text.entry) }
{
    match text {
        Some(text) => text.len(),
        None => 0,
    }
}

// The most letters that a pattern reads for an export: those of its name, of its symbol's name, of its version or of the soname.
fn letters_of(export: &Export, soname: usize) -> usize
    ensures { result ≡ spec.export_letters soname (plain_export export.now) }
{
    export
        .declared
        .len()
        .max(export.name.len())
        .max(length_of(export.version))
        .max(soname)
}

// The letters that a pattern reads for all exports, or the greatest number.
fn export_letters(exports: &[Export], soname: usize) -> usize
    ensures { result ≡ min (sum_by (spec.export_letters soname) (plain_exports exports.now)) (2 ^ 64 - 1) }
{
    let mut letters = 0usize;
    for export in exports {
        letters = letters.saturating_add(letters_of(export, soname));
    }
    letters
}

// The letters that a pattern reads for the names of a type, or the greatest number. The soname may be read for each name.
fn label_letters(labels: &[Label], soname: usize) -> usize
    ensures { result ≡ min (sum_by (spec.label_letters soname) (map plain_label labels.now)) (2 ^ 64 - 1) }
{
    let mut letters = 0usize;
    for label in labels {
        letters = letters.saturating_add(label.name.len().max(soname));
    }
    letters
}

// The letters that a pattern reads for the names of all types, or the greatest number.
fn graph_letters(graph: &Graph<OldIx>, soname: usize) -> usize
    ensures { result ≡ min (sum_by (node_letters soname) graph.now) (2 ^ 64 - 1) }
{
    let mut letters = 0usize;
    for i in 0..graph.len() {
        letters = letters.saturating_add(label_letters(graph.labels(OldIx::of(i)), soname));
    }
    letters
}

// The letters that a pattern reads for all exports and all names of types, or the greatest number. Names may share their bytes, so
// the letters may be many more than the bytes of the file.
fn letters_in(old: &Library<OldIx>) -> usize
    ensures { result ≡ min (spec.letters_of old.now) (2 ^ 64 - 1) }
{
    let soname = length_of(old.soname());
    export_letters(old.exports(), soname).saturating_add(graph_letters(old.graph(), soname))
}

// The number of the names of types, or the greatest number.
fn label_count(graph: &Graph<OldIx>) -> usize
    ensures { result ≡ min (sum_by (λ (n : PlainNode). length n.labels) graph.now) (2 ^ 64 - 1) }
{
    let mut count = 0usize;
    for i in 0..graph.len() {
        count = count.saturating_add(graph.labels(OldIx::of(i)).len());
    }
    count
}

// The number of exports and of names of types, or the greatest number.
fn names_in(old: &Library<OldIx>) -> usize
    ensures { result ≡ min (spec.names_of old.now) (2 ^ 64 - 1) }
{
    old.exports().len().saturating_add(label_count(old.graph()))
}

/// Fails exactly where the patterns of the sections could read too many letters of the names of a library.
pub fn check_letters(sections: &[Section], old: &Library<OldIx>) -> Result<(), NoMemory>
    ensures within { OnOk result (spec.letters_of old.now * spec.weight_of sections.now ≤ letters_allowed old.now) }
    ensures past { OnErr result (letters_allowed old.now < spec.letters_of old.now * spec.weight_of sections.now) }
    ensures named { IfErr result (λ e. e ≡ Past PatternLetters) }
{
    let mut budget = Budget::of_many(Limit::PatternLetters, names_in(old));
    budget.take(letters_in(old).saturating_mul(weight_of(sections)))?;
    Ok(())
}

/// Fails exactly where the soname is too long.
pub fn check_soname(soname: Option<&[u8]>) -> Result<(), NoMemory>
    ensures short { OnOk result (IfSome soname.entry (λ name. length name.now ≤ 4096)) }
    ensures within { OnOk result (text_length (option_copied soname.entry) ≤ allowed Soname 0) }
    ensures past { OnErr result (allowed Soname 0 < text_length (option_copied soname.entry)) }
    ensures named { IfErr result (λ e. e ≡ Past Soname) }
{
    Budget::of(Limit::Soname, 0).take(length_of(soname))?;
    Ok(())
}

/// Fails exactly where the patterns of the sections weigh too much.
pub fn check_weight(sections: &[Section]) -> Result<(), NoMemory>
    ensures within { OnOk result (spec.weight_of sections.now ≤ weight_allowed) }
    ensures past { OnErr result (weight_allowed < spec.weight_of sections.now) }
    ensures named { IfErr result (λ e. e ≡ Past Patterns) }
{
    let mut budget = Budget::of(Limit::Patterns, 0);
    budget.take(weight_of(sections))?;
    Ok(())
}
