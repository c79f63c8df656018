// The sections of a rule file that match nothing in the old library.
ghost use Rattle.std.specs.Prelude.{◌≡◌, ◌∷◌, ◌++◌, [], IfOk, OnOk, flat_map, map, string_bytes};
ghost use Rattle.std.specs.Borrow.{Bor};
ghost use Rattle.suppression_text.specs.Keys as keys;
ghost use Rattle.suppression_text.specs.Rules.{PlainSection};
ghost use Rattle.side_notes.specs.Idle.{idle_note, idle_notes, shown_head, shown_property, shown_section};

use crate::making::{bytes_of, note_on};
use abi_base::{List, NoMemory};
use abi_types::{Library, OldIx, push_shown};
use idle_sections::idle_sections;
use std::alloc::Global;
use suppression_text::{Key, Property, Rules, Section, SectionKind};
use type_notes::{Note, NoteKind};

// The name of the sections of a kind.
fn section_word(kind: SectionKind) -> &'static str
    ensures { result.now ≡ keys.section_word kind }
{
    match kind {
        SectionKind::Functions => "suppress_function",
        SectionKind::Variables => "suppress_variable",
        SectionKind::Types => "suppress_type",
    }
}

// The name of a property.
fn key_word(key: Key) -> &'static str
    ensures { result.now ≡ keys.key_word key }
{
    match key {
        Key::Label => "label",
        Key::Name => "name",
        Key::NameRegexp => "name_regexp",
        Key::NameNotRegexp => "name_not_regexp",
        Key::SymbolName => "symbol_name",
        Key::SymbolNameRegexp => "symbol_name_regexp",
        Key::SymbolVersion => "symbol_version",
        Key::SymbolVersionRegexp => "symbol_version_regexp",
        Key::SonameRegexp => "soname_regexp",
        Key::TypeKind => "type_kind",
        Key::AccessedThrough => "accessed_through",
    }
}

// Appends a property: its name and the printed form of its value.
fn push_property(alloc: Global, text: &mut String, property: &Property) -> Result<(), NoMemory>
    ensures { OnOk result (string_bytes text.new ≡ string_bytes text.old ++ shown_property property.now) }
{
    text.push_str(" ")?;
    text.push_str(key_word(property.key()))?;
    text.push_str("=")?;
    push_shown(alloc, text, property.value())?;
    Ok(())
}

// Appends properties, one after another.
fn push_properties(
    alloc: Global,
    text: &mut String,
    properties: &[Property],
) -> Result<(), NoMemory>
    ensures { OnOk result (string_bytes text.new ≡ string_bytes text.old ++ flat_map shown_property properties.now) }
{
    for property in properties {
        push_property(alloc, text, property)?;
    }
    Ok(())
}

// Appends the head of a section.
fn push_head(text: &mut String, kind: SectionKind) -> Result<(), NoMemory>
    ensures { OnOk result (string_bytes text.new ≡ string_bytes text.old ++ shown_head kind) }
{
    text.push_str("[")?;
    text.push_str(section_word(kind))?;
    text.push_str("]")?;
    Ok(())
}

// A section on one line.
#[tactic(auto, unfolding(crate::specs::Idle::shown_section))]
fn section_text(alloc: Global, section: &Section) -> Result<List<u8>, NoMemory>
    ensures { IfOk result (λ text. text ≡ shown_section section.now) }
{
    let mut text = String::new(alloc);
    push_head(&mut text, section.kind())?;
    push_properties(alloc, &mut text, section.properties())?;
    Ok(bytes_of(text))
}

// Appends the note on a section.
fn push_section(alloc: Global, notes: &mut List<Note>, section: &Section) -> Result<(), NoMemory>
    ensures { OnOk result (notes.new ≡ notes.old ++ idle_note section.now ∷ []) }
{
    let is = section_text(alloc, section)?;
    notes.push(note_on(
        alloc,
        NoteKind::IdleSection,
        List::new(alloc),
        List::new(alloc),
        is,
    ))
}

// Appends the notes on these sections, one after another.
fn push_each(alloc: Global, notes: &mut List<Note>, sections: &[&Section]) -> Result<(), NoMemory>
    ensures { OnOk result (notes.new
        ≡ notes.old ++ map (λ (section : Bor PlainSection). idle_note section.now) sections.now) }
{
    for section in sections {
        push_section(alloc, notes, *section)?;
    }
    Ok(())
}

/// Appends a note on each section of a rule file that matches nothing in the old library, in the order of the file.
#[tactic(auto, unfolding(crate::specs::Idle::idle_notes))]
pub fn push_idle_sections(
    alloc: Global,
    notes: &mut List<Note>,
    rules: &Rules,
    old: &Library<OldIx>,
) -> Result<(), NoMemory>
    ensures { OnOk result (notes.new ≡ notes.old ++ idle_notes rules.now old.now) }
{
    let idle = idle_sections(alloc, rules, old)?;
    push_each(alloc, notes, idle.as_slice())
}
