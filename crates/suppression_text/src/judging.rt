// The faults of the lines of a rule file, each in its section.
ghost use Rattle.std.specs.Prelude.{◌≡◌, ◌<◌, ◌≤◌, ◌+◌, ◌++◌, [], length, count_by, IfErr, IfOk, OnOk};
ghost use Rattle.abi_base.specs.declared.fault.FaultKind.TheVariants as kind;
ghost use Rattle.abi_base.specs.Outcome.{Judges, OnPast};
ghost use Rattle.suppression_text.specs.Keys as keys;
ghost use Rattle.suppression_text.specs.Lines.{is_feed};
ghost use Rattle.suppression_text.specs.PlainLines.{plain_line};
ghost use Rattle.suppression_text.specs.Rules.{plain_property, keyed, headed};
ghost use Rattle.suppression_text.specs.Faults.{fault_at, line_at, last_of, checked_fault, key_fault, property_fault, head_fault, form_fault};
ghost use Rattle.suppression_text.specs.Faults as faults;
ghost use Rattle.suppression_text.specs.Steps.{with_properties, with_form};

use crate::key::{Key, has_pattern, key_named, may_be, may_have, section_named};
use crate::line::Line;
use crate::property::Property;
use crate::section::Section;
use abi_base::{Fault, FaultKind, Refusal};
use std::alloc::Global;

// The most bytes that a pattern may have.
const PATTERN_LIMIT: usize = 256;

fn fault(kind: FaultKind, at: u64) -> Fault
    ensures { result ≡ fault_at kind at }
{
    Fault { kind, at }
}

// The number of line feeds in a text.
fn feeds_in(text: &[u8]) -> usize
    ensures count { result ≡ count_by is_feed text.now }
    ensures few { result < length text.now + 1 }
{
    let mut count = 0;
    for byte in text {
        if *byte == b'\n' {
            count += 1;
        }
    }
    count
}

// The fault of a text that stops being UTF-8 at a position.
fn fault_from(bytes: &[u8], at: usize) -> Fault
    requires { at ≤ length bytes.now }
    ensures { result ≡ fault_at kind.BadText (line_at bytes.now at) }
{
    fault(FaultKind::BadText, feeds_in(&bytes[..at]) as u64 + 1)
}

/// The fault of a text as a whole: it is not UTF-8.
pub fn text_fault(bytes: &[u8]) -> Option<Fault>
    ensures { result ≡ faults.text_fault bytes.now }
{
    match str::from_utf8(bytes) {
        Ok(_) => None,
        Err(error) => Some(fault_from(bytes, error.valid_up_to())),
    }
}

fn has_brace(value: &[u8]) -> bool
    ensures { result ≡ faults.has_brace value.now }
{
    value.iter().any(|byte| *byte == b'{')
}

// The fault of a property in a section, without that of an invalid pattern.
#[tactic(auto, unfolding(crate::specs::Faults::checked_fault))]
fn fault_before_pattern(number: u64, section: &Section, key: Key, value: &[u8]) -> Option<Fault>
    ensures { result ≡ checked_fault number section.now key value.now }
{
    if !may_have(section.kind(), key) || !may_be(key, value) {
        return Some(fault(FaultKind::Property, number));
    }
    if section.has(key) {
        return Some(fault(FaultKind::Repeated, number));
    }
    if !has_pattern(key) {
        return None;
    }
    if value.len() > PATTERN_LIMIT {
        return Some(fault(FaultKind::LongPattern, number));
    }
    if has_brace(value) {
        return Some(fault(FaultKind::Brace, number));
    }
    None
}

// Reads the property on the line with this number, for a section.
#[tactic(auto, unfolding(crate::specs::Faults::key_fault))]
fn read_property(
    alloc: Global,
    number: u64,
    section: &Section,
    key: Key,
    value: &[u8],
) -> Result<Property, Refusal>
    ensures property { IfOk result (λ property. property ≡ plain_property key value.now) }
    ensures fault { Judges result (key_fault number section.now key value.now) }
    ensures past { IfErr result (λ e. OnPast e (λ l. ⊥)) }
{
    if let Some(fault) = fault_before_pattern(number, section, key, value) {
        return Err(Refusal::Fault(fault));
    }
    match Property::read(alloc, key, value)? {
        None => Err(Refusal::Fault(fault(FaultKind::BadPattern, number))),
        Some(property) => Ok(property),
    }
}

// Reads a line that is a property into the last section.
#[tactic(auto, unfolding(crate::specs::Faults::property_fault))]
fn put_property(
    alloc: Global,
    sections: &mut Vec<Section>,
    number: u64,
    name: &[u8],
    value: &[u8],
) -> Result<(), Refusal>
    ensures put { OnOk result (sections.new.items
        ≡ with_properties sections.old.items (last_of sections.old.items)
        (keyed (keys.key_named name.now) value.now)) }
    ensures fault { Judges result (property_fault number (last_of sections.old.items) name.now value.now) }
    ensures past { IfErr result (λ e. OnPast e (λ l. ⊥)) }
{
    if name.is_empty() || value.is_empty() || sections.is_empty() {
        return Err(Refusal::Fault(fault(FaultKind::RuleLine, number)));
    }
    let last = sections.len() - 1;
    let Some(key) = key_named(name) else {
        return Err(Refusal::Fault(fault(FaultKind::Property, number)));
    };
    let property = read_property(alloc, number, &sections[last], key, value)?;
    sections[last].push(property)?;
    Ok(())
}

// Reads a line that begins a section.
fn put_head(
    alloc: Global,
    sections: &mut Vec<Section>,
    number: u64,
    name: &[u8],
) -> Result<(), Refusal>
    ensures put { OnOk result (sections.new.items
        ≡ sections.old.items ++ headed number (keys.section_named name.now) []) }
    ensures fault { Judges result (head_fault number name.now) }
    ensures past { IfErr result (λ e. OnPast e (λ l. ⊥)) }
{
    match section_named(name) {
        None => Err(Refusal::Fault(fault(FaultKind::Section, number))),
        Some(kind) => {
            sections.push(Section::new(alloc, number, kind))?;
            Ok(())
        }
    }
}

/// Reads one more line; the sections are those of the lines before it. Returns the fault of the line if it has one. Passes no limit.
pub fn read_line(
    alloc: Global,
    sections: &mut Vec<Section>,
    number: u64,
    line: Line,
) -> Result<(), Refusal>
    ensures put { OnOk result (sections.new.items ≡ with_form number sections.old.items (plain_line line.entry)) }
    ensures fault { Judges result (form_fault number (last_of sections.old.items) (plain_line line.entry)) }
    ensures past { IfErr result (λ e. OnPast e (λ l. ⊥)) }
{
    match line {
        Line::Comment => Ok(()),
        Line::Head { name } => put_head(alloc, sections, number, name),
        Line::Property { name, value } => put_property(alloc, sections, number, name, value),
        Line::Other => Err(Refusal::Fault(fault(FaultKind::RuleLine, number))),
    }
}
