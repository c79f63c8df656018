// The sections of a rule file.
ghost use Rattle.std.specs.Prelude.{◌≡◌, ◌∷◌, ◌++◌, [], map, IfErr, OnOk, OnErr};
ghost use Rattle.abi_base.specs.declared.fault.NoMemory.TheVariants.{Allocation};
ghost use Rattle.abi_base.specs.Outcome.{first};
ghost use Rattle.suppression_text.specs.Keys.{same_key};
ghost use Rattle.suppression_text.specs.Keys as keys;
ghost use Rattle.std.specs.Option.{option_copied};
ghost use Rattle.suppression_text.specs.Faults.{is_empty_rule, section_fault};
ghost use Rattle.suppression_text.specs.Faults as faults;
ghost use Rattle.suppression_text.specs.Rules.{value_in};

use crate::key::{Key, SectionKind};
use crate::property::Property;
use abi_base::{Fault, FaultKind, NoMemory};
use std::alloc::Global;
use std::marker::Model;

/// A section: its kind, and its properties in order. Contracts see it as a `PlainSection`.
#[derive(Drop)]
pub struct Section {
    // The number of the section's first line.
    line: u64,
    kind: SectionKind,
    properties: Vec<Property>,
}

impl Model for Section {
    ghost use Rattle.suppression_text.specs.Rules.{PlainSection};

    ghost Value = { PlainSection };

    ghost view = { λ s. record { line = s.line; kind = s.kind; properties = s.properties.items } };
}

// Whether two keys are equal.
fn is_same(one: Key, other: Key) -> bool
    ensures { result ≡ same_key one other }
{
    one as u8 == other as u8
}

// Whether a key is that of a label, which selects nothing.
fn is_label(key: Key) -> bool
    ensures { result ≡ keys.is_label key }
{
    match key {
        Key::Label => true,
        _ => false,
    }
}

impl Section {
    ghost use Rattle.suppression_text.specs.Rules.{headed_section, with_property};

    /// A section of a kind that begins at a line. It has no properties yet.
    pub fn new(alloc: Global, line: u64, kind: SectionKind) -> Section
        ensures { result ≡ headed_section line kind [] }
    {
        Section {
            line,
            kind,
            properties: Vec::new(alloc),
        }
    }

    /// The kind of the section.
    pub fn kind(&self) -> SectionKind
        ensures { result ≡ self.now.kind }
    {
        self.kind
    }

    /// Its properties, in order.
    pub fn properties(&self) -> &[Property]
        ensures { result.now ≡ self.now.properties }
    {
        self.properties.as_slice()
    }

    /// Whether it has a property with this key.
    pub fn has(&self, key: Key) -> bool
        ensures { result ≡ faults.has key self.now }
    {
        self.properties
            .iter()
            .any(|property| is_same(key, property.key()))
    }

    /// The value of its first property with this key, if it has one.
    pub fn value(&self, key: Key) -> Option<&[u8]>
        ensures { option_copied result ≡ value_in key self.now }
    {
        match self
            .properties
            .iter()
            .find(|property| is_same(key, property.key()))
        {
            None => None,
            Some(property) => Some(property.value()),
        }
    }

    /// Appends a property. On `NoMemory` the section is unchanged.
    pub fn push(&mut self, property: Property) -> Result<(), NoMemory>
        ensures ok { OnOk result (self.new ≡ with_property self.old property) }
        ensures err { OnErr result (self.new ≡ self.old) }
        ensures named { IfErr result (λ e. e ≡ Allocation) }
    {
        self.properties.push(property)?;
        Ok(())
    }

    // Whether all its properties are labels.
    fn is_empty(&self) -> bool
        ensures { result ≡ is_empty_rule self.now }
    {
        self.properties
            .iter()
            .all(|property| is_label(property.key()))
    }

    // The fault of the section as a whole: it selects nothing.
    fn fault(&self) -> Option<Fault>
        ensures { result ≡ section_fault self.now }
    {
        if self.is_empty() {
            Some(Fault {
                kind: FaultKind::EmptyRule,
                at: self.line,
            })
        } else {
            None
        }
    }
}

/// The fault of the first section that has one as a whole.
pub fn fault_of_sections(sections: &[Section]) -> Option<Fault>
    ensures { result ≡ first (map section_fault sections.now) }
{
    for section in sections {
        if let Some(fault) = section.fault() {
            return Some(fault);
        }
    }
    None
}
