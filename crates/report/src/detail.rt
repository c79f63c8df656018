// The details of rows on exports, and the parts of those on types.
ghost use Rattle.std.specs.Prelude.{◌≡◌, ◌<◌, ◌∷◌, [], ◌+◌, length, IfOk, codes, decimal, string_bytes, unwrap_or};
ghost use Rattle.std.specs.List.{concat};
ghost use Rattle.std.specs.Option.{option_copied};
ghost use Rattle.abi_types.specs.Graphs.{part_at};
ghost use Rattle.abi_types.specs.Plain.{plain_export};
ghost use Rattle.pair_rules.specs.Matching as matching;
ghost use Rattle.pair_rules.specs.TypeRules.{matched};
ghost use Rattle.pair_rules.specs.TypeRules as type_rules;
ghost use Rattle.report.specs.Details.{part_change, places_change, shown_or_none, shown_soname};
ghost use Rattle.report.specs.Details as spec;
ghost use Rattle.report.specs.Places as places;
ghost use Rattle.report.specs.Steps as steps;
ghost use Rattle.report.specs.Words as words;

use crate::place::push_place;
use crate::step::push_part_name;
use abi_types::{Export, Index, NewIx, OldIx, Part, Place, Rule, View, push_shown};
use pair_rules::{bit_at, match_of, number_of, value_at, width_at};
use std::alloc::{AllocError, Global};
use std::fmt::Write;

// What changed, its old value, and its new value.
pub(crate) fn changed(alloc: Global, what: &str, old: &str, new: &str) -> Result<String, AllocError>
    ensures { IfOk result (λ text. string_bytes text ≡ words.changed what.now old.now new.now) }
{
    format!(in alloc; "{what} {old}, now {new}")
}

// What changed, with its old and its new number.
pub(crate) fn changed_number(
    alloc: Global,
    what: &str,
    old: u64,
    new: u64,
) -> Result<String, AllocError>
    ensures { IfOk result (λ text. string_bytes text ≡ words.changed what.now (decimal old) (decimal new)) }
{
    format!(in alloc; "{what} {old}, now {new}")
}

// ---- exports

// The printed form of a soname.
fn soname_text(alloc: Global, soname: Option<&[u8]>) -> Result<String, AllocError>
    ensures { IfOk result (λ text. string_bytes text ≡ shown_soname (option_copied soname.entry)) }
{
    let mut text = String::new(alloc);
    match soname {
        None => text.push_str("none")?,
        Some(name) => push_shown(alloc, &mut text, name)?,
    }
    Ok(text)
}

/// The detail of the row about two sonames.
pub fn soname_detail(
    alloc: Global,
    old: Option<&[u8]>,
    new: Option<&[u8]>,
) -> Result<String, AllocError>
    ensures { IfOk result (λ text. string_bytes text
        ≡ spec.soname_detail (option_copied old.entry) (option_copied new.entry)) }
{
    let old = soname_text(alloc, old)?;
    let new = soname_text(alloc, new)?;
    changed(alloc, "SONAME", &old, &new)
}

/// The detail of the row about an old export that breaks a rule of exports. If the export is gone, the new one is not looked at.
pub fn export_detail(
    alloc: Global,
    rule: Rule,
    old: &Export,
    new: &Export,
) -> Result<String, AllocError>
    ensures { IfOk result (λ text. string_bytes text
        ≡ spec.export_detail rule (plain_export old.now) (plain_export new.now)) }
{
    match rule {
        Rule::ExportPresence => String::from_str(alloc, "gone"),
        Rule::ExportVersion => String::from_str(alloc, "version gone"),
        Rule::ExportKind => changed(alloc, "kind", old.kind.word(), new.kind.word()),
        Rule::ExportSize => changed_number(alloc, "object size", old.size, new.size),
        Rule::ExportType => String::from_str(alloc, "type gone"),
        _ => Ok(String::new(alloc)),
    }
}

// ---- types

// The printed form of a tag.
fn tag_text(alloc: Global, tag: &[u8]) -> Result<String, AllocError>
    ensures { IfOk result (λ text. string_bytes text ≡ shown_or_none tag.now) }
{
    let mut text = String::new(alloc);
    match tag {
        [] => text.push_str("none")?,
        _ => push_shown(alloc, &mut text, tag)?,
    }
    Ok(text)
}

// The detail for two different tags.
pub(crate) fn changed_tag(alloc: Global, old: &[u8], new: &[u8]) -> Result<String, AllocError>
    ensures { IfOk result (λ text. string_bytes text
        ≡ words.changed (codes "tag") (shown_or_none old.now) (shown_or_none new.now)) }
{
    let old = tag_text(alloc, old)?;
    let new = tag_text(alloc, new)?;
    changed(alloc, "tag", &old, &new)
}

// The printed name of a part.
pub(crate) fn part_name<Ix: Index>(
    alloc: Global,
    view: &View<Ix>,
    i: usize,
) -> Result<String, AllocError>
    requires { i < length view.now.parts }
    ensures { IfOk result (λ text. string_bytes text ≡ steps.part_name view.now i) }
{
    let mut text = String::new(alloc);
    push_part_name(alloc, &mut text, view, i)?;
    Ok(text)
}

// The detail for a part that is gone.
pub(crate) fn part_gone(
    alloc: Global,
    sort: &str,
    old: &View<OldIx>,
    i: usize,
) -> Result<String, AllocError>
    requires { i < length old.now.parts }
    ensures { IfOk result (λ text. string_bytes text
        ≡ concat (sort.now ∷ codes " " ∷ steps.part_name old.now i ∷ codes " gone" ∷ [])) }
{
    let name = part_name(alloc, old, i)?;
    format!(in alloc; "{sort} {name} gone")
}

// The first bit of the match of old part `i`, or 0 if it has none.
pub(crate) fn bit_of_match(old: &View<OldIx>, new: &View<NewIx>, i: usize) -> u64
    requires { i < length old.now.parts }
    ensures { result ≡ unwrap_or (matched type_rules.bit_at old.now new.now i) 0 }
{
    match match_of(old, new, i) {
        Some(j) => bit_at(new, j),
        None => 0,
    }
}

pub(crate) fn width_of_match(old: &View<OldIx>, new: &View<NewIx>, i: usize) -> u64
    requires { i < length old.now.parts }
    ensures { result ≡ unwrap_or (matched type_rules.width_at old.now new.now i) 0 }
{
    match match_of(old, new, i) {
        Some(j) => width_at(new, j),
        None => 0,
    }
}

pub(crate) fn value_of_match(old: &View<OldIx>, new: &View<NewIx>, i: usize) -> u64
    requires { i < length old.now.parts }
    ensures { result ≡ unwrap_or (matched type_rules.value_at old.now new.now i) 0 }
{
    match match_of(old, new, i) {
        Some(j) => value_at(new, j),
        None => 0,
    }
}

// A part by its sort and name, the property that changed, its old value, and its new value.
fn number_changed(
    alloc: Global,
    sort: &str,
    name: &str,
    said: &str,
    old: u64,
    new: u64,
) -> Result<String, AllocError>
    ensures { IfOk result (λ text. string_bytes text
        ≡ concat (sort.now ∷ name.now ∷ said.now ∷ decimal old ∷ codes ", now " ∷ decimal new ∷ [])) }
{
    format!(in alloc; "{sort}{name}{said}{old}, now {new}")
}

// The detail for a member at a different bit.
pub(crate) fn bit_changed(
    alloc: Global,
    old: &View<OldIx>,
    new: &View<NewIx>,
    i: usize,
) -> Result<String, AllocError>
    requires { i < length old.now.parts }
    ensures { IfOk result (λ text. string_bytes text
        ≡ part_change (codes "member ") (codes " at bit ") type_rules.bit_at old.now new.now i) }
{
    let name = part_name(alloc, old, i)?;
    number_changed(
        alloc,
        "member ",
        &name,
        " at bit ",
        bit_at(old, i),
        bit_of_match(old, new, i),
    )
}

// The detail for a member with a different width.
pub(crate) fn width_changed(
    alloc: Global,
    old: &View<OldIx>,
    new: &View<NewIx>,
    i: usize,
) -> Result<String, AllocError>
    requires { i < length old.now.parts }
    ensures { IfOk result (λ text. string_bytes text
        ≡ part_change (codes "member ") (codes " width ") type_rules.width_at old.now new.now i) }
{
    let name = part_name(alloc, old, i)?;
    number_changed(
        alloc,
        "member ",
        &name,
        " width ",
        width_at(old, i),
        width_of_match(old, new, i),
    )
}

// The detail for an enumerator with a different value.
pub(crate) fn value_changed(
    alloc: Global,
    old: &View<OldIx>,
    new: &View<NewIx>,
    i: usize,
) -> Result<String, AllocError>
    requires { i < length old.now.parts }
    ensures { IfOk result (λ text. string_bytes text
        ≡ part_change (codes "enumerator ") (codes " ") type_rules.value_at old.now new.now i) }
{
    let name = part_name(alloc, old, i)?;
    number_changed(
        alloc,
        "enumerator ",
        &name,
        " ",
        value_at(old, i),
        value_of_match(old, new, i),
    )
}

// The place of the parameter with this number.
pub(crate) fn param_place<Ix: Index>(view: &View<Ix>, number: usize) -> Place
    ensures { result ≡ spec.param_place view.now number }
{
    match view.call.params().get(number) {
        Some(place) => *place,
        None => Place::Nothing,
    }
}

// The printed form of a place.
pub(crate) fn place_text(alloc: Global, place: &Place) -> Result<String, AllocError>
    ensures { IfOk result (λ text. string_bytes text ≡ places.place_text place.now) }
{
    let mut text = String::new(alloc);
    push_place(&mut text, place)?;
    Ok(text)
}

// The detail for two places of the result.
fn outcome_changed(
    alloc: Global,
    old: &View<OldIx>,
    new: &View<NewIx>,
) -> Result<String, AllocError>
    ensures { IfOk result (λ text. string_bytes text
        ≡ words.changed (codes "result in") (places.place_text old.now.call.outcome) (places.place_text new.now.call.outcome)) }
{
    let old = place_text(alloc, &old.call.outcome())?;
    let new = place_text(alloc, &new.call.outcome())?;
    changed(alloc, "result in", &old, &new)
}

// A parameter by its number, its old place, and its new place.
fn moved(alloc: Global, number: u128, old: &str, new: &str) -> Result<String, AllocError>
    ensures { IfOk result (λ text. string_bytes text
        ≡ concat (codes "param " ∷ decimal number ∷ codes " in " ∷ old.now ∷ codes ", now " ∷ new.now ∷ [])) }
{
    format!(in alloc; "param {number} in {old}, now {new}")
}

// The detail for two places of the parameter that has this many before it.
fn param_changed(
    alloc: Global,
    before: usize,
    old: &Place,
    new: &Place,
) -> Result<String, AllocError>
    ensures { IfOk result (λ text. string_bytes text
        ≡ concat (codes "param " ∷ decimal (before + 1) ∷ codes " in " ∷ places.place_text old.now ∷ codes ", now " ∷ places.place_text new.now ∷ [])) }
{
    let old = place_text(alloc, old)?;
    let new = place_text(alloc, new)?;
    moved(alloc, before as u128 + 1, &old, &new)
}

// The detail for a result or a parameter in a different place.
pub(crate) fn place_changed(
    alloc: Global,
    old: &View<OldIx>,
    new: &View<NewIx>,
    i: usize,
) -> Result<String, AllocError>
    requires { i < length old.now.parts }
    ensures { IfOk result (λ text. string_bytes text
        ≡ places_change (part_at old.now i) (matching.number_of old.now i) old.now new.now) }
{
    match old.part(i) {
        Part::Param { .. } => {
            let number = number_of(old, i);
            param_changed(
                alloc,
                number,
                &param_place(old, number),
                &param_place(new, number),
            )
        }
        _ => outcome_changed(alloc, old, new),
    }
}
