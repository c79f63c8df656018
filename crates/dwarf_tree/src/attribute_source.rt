// The values of attributes, read from the bytes on demand.
ghost use Rattle.std.specs.Prelude.{◌≡◌, ◌≢◌, ◌<◌, ◌≤◌, ◌^◌, ◌%◌, ◌/◌, ◌==◌, [], All, IfNone, IfSome, Some, length, map};
ghost use Rattle.std.specs.Int.RustNames.{bit_or};
ghost use Rattle.dwarf_forms.specs.Values.{place_after, value_at};
ghost use Rattle.dwarf_forms.specs.declared.values.Value.TheVariants as value;
ghost use Rattle.dwarf_units.specs.Units.{attribute_of};
ghost use Rattle.abi_base.specs.Runs.{put_front};
ghost use Rattle.dwarf_forms.specs.abbreviations.Abbrevs.{plain_pair, specs_run};
ghost use Rattle.dwarf_tree.specs.Keeping.{FindSame, HaveNames, IsLayout, SpellsNumber, asked_value, value_read, values_of};
ghost use Rattle.dwarf_tree.specs.Keeping as keeping;
ghost use Rattle.dwarf_tree.specs.LongTexts.{IsLongText};

use crate::entry_records::{
    AbbreviationLayout, EntryHead, EntryRecord, FORM_UNKNOWN, Slot, shaped,
};
use crate::head::Head;
use crate::long_texts::{LongText, end_of_text};
use crate::names::bit_of;
use crate::slots::slot_for;
use abi_base::dwarf::{DW_FORM_ref4, DW_FORM_string, DW_FORM_strp};
use abi_base::{Fault, u32_at, uleb};
use dwarf_forms::abbreviations::{ShortPair, Spec, next_spec, short_pair};
use dwarf_forms::laws::references_count_from_their_unit;
use dwarf_forms::{DebugInfoOffset, DebugStrOffset, UnitSpan, Value, fixed_end, value, value_end};

// What an entry's attributes are read from: the bytes, the slots of all shapes, the long texts among the bytes, the header of its unit,
// and the entry's shape and record.
#[derive(Clone, Copy)]
pub(crate) struct AttributeSource<'t> {
    pub info: &'t [u8],
    pub abbrevs: &'t [u8],
    pub slots: &'t [Slot],
    pub long_texts: &'t [LongText],
    pub head: &'t Head,
    pub shape: &'t AbbreviationLayout,
    pub stored: EntryRecord,
}

// The attribute bits, with that of one more attribute.
fn with_name(names: u64, name: u64) -> u64
    ensures { result ≡ bit_or names (2 ^ keeping.bit_of name) }
{
    names | (1 << bit_of(name))
}

// Whether the bit of an attribute is set. If not, the entry does not have the attribute. If so, nothing follows, since all
// attributes that readers do not use share one bit. The test only saves time.
#[inline(always)]
pub(crate) fn may_have(names: u64, name: u64) -> bool
    ensures { result ≡ (names / 2 ^ keeping.bit_of name % 2 == 1) }
{
    (names >> bit_of(name)) % 2 == 1
}

// The bits of the attributes in these specifications.
#[tactic(auto, using(crate::proofs::NameLemmas::names_more, crate::proofs::NameLemmas::names_none, crate::proofs::NameLemmas::names_end))]
pub(crate) fn names_of(specs: &[Spec]) -> u64
    ensures { HaveNames result (map (λ s. s.attribute) specs.now) }
{
    let mut names = 0;
    for spec in specs {
        names = with_name(names, spec.attribute);
    }
    names
}

// The value of one attribute of an entry, if it has no fault. Such a value of an inline string is its offset: only the end of the string
// is looked for.
#[inline(always)]
fn value_in(asked: &AttributeSource<'_>, kept: EntryHead, spec: Spec, at: usize) -> Option<Value>
    requires inside { asked.now.head.now.end ≤ length asked.now.info.now }
    requires texts { All (IsLongText asked.now.info.now) asked.now.long_texts.now }
    ensures { result ≡ value_read (value_at spec.form spec.implicit asked.now.head.now.offset
        asked.now.head.now.end kept.offset asked.now.info.now at) }
{
    let end = asked.head.end.get();
    if spec.form == DW_FORM_string {
        if let Some(_) = end_of_text(asked.info, asked.long_texts, end as usize, at) {
            return Some(Value::Inline { from: at as u64 });
        }
    }
    let unit = UnitSpan {
        start: asked.head.offset.get(),
        end,
    };
    match value(asked.info, unit, u64::from(kept.offset), spec, at) {
        Ok((found, _)) => Some(found),
        Err(_) => None,
    }
}

// The offset after that value. Inline strings are skipped here, since most values without a fixed size are short names.
#[inline(always)]
#[tactic(auto, using(crate::proofs::LongTextLemmas::text_behind))]
fn end_in(
    asked: &AttributeSource<'_>,
    kept: EntryHead,
    spec: Spec,
    at: usize,
) -> Result<usize, Fault>
    requires inside { asked.now.head.now.end ≤ length asked.now.info.now }
    requires texts { All (IsLongText asked.now.info.now) asked.now.long_texts.now }
    ensures { result ≡ place_after (value_at spec.form spec.implicit asked.now.head.now.offset
        asked.now.head.now.end kept.offset asked.now.info.now at) }
{
    let end = asked.head.end.get();
    if spec.form == DW_FORM_string {
        if let Some(to) = end_of_text(asked.info, asked.long_texts, end as usize, at) {
            return Ok(to + 1);
        }
    }
    value_end(spec.form, end, u64::from(kept.offset), asked.info, at)
}

// The attribute specification in two bytes.
#[inline(always)]
fn plain(pair: ShortPair) -> Spec
    ensures { result ≡ plain_pair pair.attribute pair.form }
{
    Spec {
        attribute: u64::from(pair.attribute),
        form: u64::from(pair.form),
        implicit: 0,
    }
}

// The attribute specification at an offset, and the offset of the next one. Most have two bytes.
#[inline(always)]
#[tactic(auto, using(crate::proofs::AskLemmas::plain_front))]
fn pair_at(abbrevs: &[u8], at: usize) -> Option<(Spec, usize)>
    ensures found { IfSome result (λ r. specs_run abbrevs.now at ≡ put_front r.0 (specs_run abbrevs.now r.1)) }
    ensures end { IfNone result ((specs_run abbrevs.now at).items ≡ []) }
    ensures after { IfSome result (λ r. at < r.1) }
    ensures inside { IfSome result (λ r. r.1 ≤ length abbrevs.now) }
{
    match short_pair(abbrevs, at) {
        Some(pair) => Some((plain(pair), at + 2)),
        None => next_spec(abbrevs, at),
    }
}

// Skips attribute specifications before the attribute while they have two bytes and a form with a fixed size, as most have. Answers
// the offset of the next specification, and that of its value.
fn pass_plain(abbrevs: &[u8], unit_end: u64, name: u64, first: usize, from: usize) -> (usize, usize)
    ensures same { FindSame abbrevs.now unit_end name result (first, from) }
    ensures after { first ≤ result.0 }
{
    let mut pairs = first;
    let mut at = from;
    'pairs: while let Some(pair) = short_pair(abbrevs, pairs) {
        if u64::from(pair.attribute) == name {
            return (pairs, at);
        }
        let Some(after) = fixed_end(u64::from(pair.form), unit_end, at) else {
            return (pairs, at);
        };
        pairs += 2;
        at = after;
    }
    (pairs, at)
}

// The first value of an attribute of an entry. Reads attribute specifications and values side by side up to the attribute, and
// skips the values before it.
#[tactic(auto, using(crate::proofs::AskLemmas::ask_more, crate::proofs::AskLemmas::ask_cut, crate::proofs::AskLemmas::ask_met, crate::proofs::AskLemmas::ask_end, crate::proofs::AskLemmas::ask_start, crate::proofs::AskLemmas::ask_nothing))]
fn first_value(asked: &AttributeSource<'_>, kept: EntryHead, name: u64) -> Option<Value>
    requires inside { asked.now.head.now.end ≤ length asked.now.info.now }
    requires texts { All (IsLongText asked.now.info.now) asked.now.long_texts.now }
    ensures { result ≡ attribute_of (values_of asked.now.info.now asked.now.abbrevs.now asked.now.head.now kept) name }
{
    let end = asked.head.end.get();
    let Some((_, after)) = uleb(&asked.info[..end as usize], kept.offset as usize) else {
        return None;
    };
    let mut pairs = kept.specs_from as usize;
    let mut at = after;
    'pairs: loop {
        let (first, from) = pass_plain(asked.abbrevs, end, name, pairs, at);
        let Some((spec, next)) = pair_at(asked.abbrevs, first) else {
            return None;
        };
        if spec.attribute == name {
            return value_in(asked, kept, spec, from);
        }
        match end_in(asked, kept, spec, from) {
            Ok(after) => {
                pairs = next;
                at = after;
            }
            Err(_) => return None,
        }
    }
}

// The same for a stored entry.
#[inline(never)]
fn walked(asked: &AttributeSource<'_>, name: u64) -> Option<Value>
    requires inside { asked.now.head.now.end ≤ length asked.now.info.now }
    requires texts { All (IsLongText asked.now.info.now) asked.now.long_texts.now }
    ensures { result ≡ asked_value asked.now name }
{
    let kept = shaped(*asked.shape, asked.stored);
    first_value(asked, kept, name)
}

// The first value of an attribute of a stored entry. A slot of its shape gives the offset of the value, if all values before it
// have fixed sizes. Without a slot, the search begins at the first specification.
#[tactic(auto, using(crate::proofs::AskLemmas::ask_nothing))]
pub(crate) fn value_of(asked: &AttributeSource<'_>, name: u64) -> Option<Value>
    requires inside { asked.now.head.now.end ≤ length asked.now.info.now }
    requires texts { All (IsLongText asked.now.info.now) asked.now.long_texts.now }
    requires shape { IsLayout asked.now.abbrevs.now asked.now.slots.now asked.now.shape.now }
    ensures { result ≡ asked_value asked.now name }
{
    let Some(slot) = slot_for(asked.slots, *asked.shape, name) else {
        return walked(asked, name);
    };
    let end = asked.head.end.get();
    let Some((_, after)) = uleb(&asked.info[..end as usize], asked.stored.offset as usize) else {
        return None;
    };
    let at = after + usize::from(slot.from);
    if slot.form == FORM_UNKNOWN || at as u64 > end {
        return walked(asked, name);
    }
    let pair = ShortPair {
        attribute: slot.attribute,
        form: slot.form,
    };
    let kept = shaped(*asked.shape, asked.stored);
    value_in(asked, kept, plain(pair), at)
}

// The four-byte number that encodes the first value of an attribute of a stored entry, if a slot of its shape gives the value's
// offset and this form.
#[inline(always)]
fn short_number(asked: &AttributeSource<'_>, name: u64, form: u64) -> Option<u32>
    requires inside { asked.now.head.now.end ≤ length asked.now.info.now }
    requires shape { IsLayout asked.now.abbrevs.now asked.now.slots.now asked.now.shape.now }
    requires told { form ≢ 0 }
    ensures { IfSome result (SpellsNumber asked.now.info.now asked.now.abbrevs.now asked.now.head.now
        (keeping.shaped asked.now.shape.now asked.now.stored) name form) }
{
    let end = asked.head.end.get();
    let unit = &asked.info[..end as usize];
    let slot = slot_for(asked.slots, *asked.shape, name)?;
    if u64::from(slot.form) != form {
        return None;
    }
    let (_, after) = uleb(unit, asked.stored.offset as usize)?;
    u32_at(unit, after + usize::from(slot.from))
}

// The offset of the entry to which an attribute of a stored entry refers, if the attribute has the form `DW_FORM_ref4` and a slot.
// The call only saves time: None means nothing, and `value_of` answers in all cases.
#[inline(always)]
#[tactic(auto, using(crate::proofs::ShortLemmas::refers_short))]
pub(crate) fn short_reference_of(asked: &AttributeSource<'_>, name: u64) -> Option<DebugInfoOffset>
    requires inside { asked.now.head.now.end ≤ length asked.now.info.now }
    requires shape { IsLayout asked.now.abbrevs.now asked.now.slots.now asked.now.shape.now }
    ensures { IfSome result (λ offset. asked_value asked.now name ≡ Some (value.Reference offset)) }
{
    references_count_from_their_unit();
    let number = short_number(asked, name, DW_FORM_ref4)?;
    Some(DebugInfoOffset::new(u64::from(number).wrapping_add(asked.head.offset.get())))
}

// The offset in `.debug_str` of the string of an attribute of a stored entry, if the attribute has the form `DW_FORM_strp` and a
// slot. The call only saves time: None means nothing, and `value_of` answers in all cases.
#[inline(always)]
#[tactic(auto, using(crate::proofs::ShortLemmas::text_short))]
pub(crate) fn short_text_of(asked: &AttributeSource<'_>, name: u64) -> Option<DebugStrOffset>
    requires inside { asked.now.head.now.end ≤ length asked.now.info.now }
    requires shape { IsLayout asked.now.abbrevs.now asked.now.slots.now asked.now.shape.now }
    ensures { IfSome result (λ place. asked_value asked.now name ≡ Some (value.StrOffset place)) }
{
    let number = short_number(asked, name, DW_FORM_strp)?;
    Some(DebugStrOffset::new(u64::from(number)))
}
