// The values of rows on exports, and the parts of those on types.
ghost use Rattle.std.specs.Prelude.{◌≡◌, ◌<◌, length, IfOk, string_bytes, IfErr};
ghost use Rattle.std.specs.Option.{option_copied};
ghost use Rattle.abi_base.specs.declared.fault.NoMemory.TheVariants.{Allocation};
ghost use Rattle.abi_types.specs.Graphs.{part_at};
ghost use Rattle.abi_types.specs.Plain.{plain_export};
ghost use Rattle.abi_types.specs.Shown.{label, shown};
ghost use Rattle.pair_rules.specs.Matching as matching;
ghost use Rattle.report.specs.Places as places;
ghost use Rattle.report.specs.Steps as steps;
ghost use Rattle.report.specs.Values as spec;

use crate::detail::{param_place, part_name, place_text};
use crate::step::push_step;
use crate::value::Value;
use abi_base::{List, NoMemory};
use abi_types::{Export, Index, NewIx, OldIx, Part, Place, Rule, View, push_label, push_shown};
use pair_rules::number_of;
use std::alloc::Global;

// ---- words

// The bytes of a text.
fn bytes_of(text: String) -> List<u8>
    ensures { result ≡ string_bytes text }
{
    List::of(text.into_bytes())
}

// A word as a value.
pub(crate) fn word(alloc: Global, text: &str) -> Result<Value, NoMemory>
    ensures value { IfOk result (λ value. value ≡ Value.Word text.now) }
    ensures named { IfErr result (λ e. e ≡ Allocation) }
{
    Ok(Value::Word(List::copy_of(alloc, text.as_bytes())?))
}

// A name in its printed form, as a value.
fn shown_word(alloc: Global, name: &[u8]) -> Result<Value, NoMemory>
    ensures value { IfOk result (λ value. value ≡ Value.Word (shown name.now)) }
    ensures named { IfErr result (λ e. e ≡ Allocation) }
{
    let mut text = String::new(alloc);
    push_shown(alloc, &mut text, name)?;
    Ok(Value::Word(bytes_of(text)))
}

// A tag as a value, or no value if it is missing.
pub(crate) fn tag_value(alloc: Global, tag: &[u8]) -> Result<Value, NoMemory>
    ensures value { IfOk result (λ value. value ≡ spec.tag_value tag.now) }
    ensures named { IfErr result (λ e. e ≡ Allocation) }
{
    match tag {
        [] => Ok(Value::Nothing),
        _ => shown_word(alloc, tag),
    }
}

/// A soname as a value, or no value if it is missing.
pub fn soname_value(alloc: Global, soname: Option<&[u8]>) -> Result<Value, NoMemory>
    ensures value { IfOk result (λ value. value ≡ spec.soname_value (option_copied soname.entry)) }
    ensures named { IfErr result (λ e. e ≡ Allocation) }
{
    match soname {
        None => Ok(Value::Nothing),
        Some(name) => shown_word(alloc, name),
    }
}

// ---- exports

// The label of an export, as a value.
fn label_word(alloc: Global, export: &Export) -> Result<Value, NoMemory>
    ensures value { IfOk result (λ value. value ≡ Value.Word (label (plain_export export.now))) }
    ensures named { IfErr result (λ e. e ≡ Allocation) }
{
    let mut text = String::new(alloc);
    push_label(alloc, &mut text, export)?;
    Ok(Value::Word(bytes_of(text)))
}

/// The value of the export to which an old one binds; none if the rule says that something is gone.
pub fn export_is(alloc: Global, rule: Rule, new: &Export) -> Result<Value, NoMemory>
    ensures value { IfOk result (λ value. value ≡ spec.export_is rule (plain_export new.now)) }
    ensures named { IfErr result (λ e. e ≡ Allocation) }
{
    match rule {
        Rule::ExportKind => word(alloc, new.kind.word()),
        Rule::ExportSize => Ok(Value::Bytes(new.size)),
        _ => Ok(Value::Nothing),
    }
}

/// The value of the old export, or the label of one that is gone.
pub fn export_was(alloc: Global, rule: Rule, old: &Export) -> Result<Value, NoMemory>
    ensures value { IfOk result (λ value. value ≡ spec.export_was rule (plain_export old.now)) }
    ensures named { IfErr result (λ e. e ≡ Allocation) }
{
    match rule {
        Rule::ExportPresence => label_word(alloc, old),
        Rule::ExportVersion => label_word(alloc, old),
        _ => export_is(alloc, rule, old),
    }
}

// ---- types

// The printed name of a part, as a value.
pub(crate) fn name_word<Ix: Index>(
    alloc: Global,
    view: &View<Ix>,
    i: usize,
) -> Result<Value, NoMemory>
    requires { i < length view.now.parts }
    ensures value { IfOk result (λ value. value ≡ Value.Word (steps.part_name view.now i)) }
    ensures named { IfErr result (λ e. e ≡ Allocation) }
{
    let text = part_name(alloc, view, i)?;
    Ok(Value::Word(bytes_of(text)))
}

// The place where the old type passes part `i`: a parameter, or the result.
pub(crate) fn old_place(old: &View<OldIx>, i: usize) -> Place
    requires { i < length old.now.parts }
    ensures { result ≡ spec.place_of (part_at old.now i) (matching.number_of old.now i) old.now }
{
    match old.part(i) {
        Part::Param { .. } => param_place(old, number_of(old, i)),
        _ => old.call.outcome(),
    }
}

// The place where the new type passes the same parameter, or the result.
pub(crate) fn new_place(old: &View<OldIx>, new: &View<NewIx>, i: usize) -> Place
    requires { i < length old.now.parts }
    ensures { result ≡ spec.place_of (part_at old.now i) (matching.number_of old.now i) new.now }
{
    match old.part(i) {
        Part::Param { .. } => param_place(new, number_of(old, i)),
        _ => new.call.outcome(),
    }
}

// A place as a value.
pub(crate) fn place_word(alloc: Global, place: &Place) -> Result<Value, NoMemory>
    ensures value { IfOk result (λ value. value ≡ Value.Word (places.place_text place.now)) }
    ensures named { IfErr result (λ e. e ≡ Allocation) }
{
    let text = place_text(alloc, place)?;
    Ok(Value::Word(bytes_of(text)))
}

// The step by a part.
pub(crate) fn step_of(alloc: Global, old: &View<OldIx>, i: usize) -> Result<List<u8>, NoMemory>
    requires { i < length old.now.parts }
    ensures text { IfOk result (λ text. text ≡ steps.step_text old.now i) }
    ensures named { IfErr result (λ e. e ≡ Allocation) }
{
    let mut text = String::new(alloc);
    push_step(alloc, &mut text, old, i)?;
    Ok(bytes_of(text))
}

// The printed name of a part.
pub(crate) fn name_of(alloc: Global, old: &View<OldIx>, i: usize) -> Result<List<u8>, NoMemory>
    requires { i < length old.now.parts }
    ensures text { IfOk result (λ text. text ≡ steps.part_name old.now i) }
    ensures named { IfErr result (λ e. e ≡ Allocation) }
{
    let text = part_name(alloc, old, i)?;
    Ok(bytes_of(text))
}
