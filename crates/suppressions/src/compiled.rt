//! Sections with compiled patterns.
ghost use Rattle.std.specs.Prelude.{◌≡◌, map, IfErr, IfOk};
ghost use Rattle.abi_base.specs.declared.fault.NoMemory.TheVariants.{Allocation};
ghost use Rattle.std.specs.Option.{ForSome};
ghost use Rattle.suppressions.specs.Handles.{gates_of};
ghost use Rattle.suppressions.specs.Names as spec;

use crate::boxed::BoxedProperty;
use crate::handle::gate_of;
use abi_base::NoMemory;
use std::alloc::Global;
use std::marker::Model;
use suppression_text::pattern_set::{PatternSet, SetFinder};
use suppression_text::{Key, Section};

// Fewer patterns are not compiled together.
const FEWEST_TOGETHER: usize = 4;

// Whether a property tests a name.
fn asks_name(key: Key) -> bool
    ensures { result ≡ spec.asks_name key }
{
    match key {
        Key::Label | Key::SonameRegexp | Key::TypeKind | Key::AccessedThrough => false,
        _ => true,
    }
}

/// Whether a section tests a name. A section that does not gives one answer for all names of a soname, a kind and a way.
#[tactic(auto, unfolding(crate::specs::Names::asks_names))]
pub fn asks_names(section: &Section) -> bool
    ensures { result ≡ spec.asks_names section.now }
{
    section
        .properties()
        .iter()
        .any(|property| asks_name(property.key()))
}

/// Whether a section is chosen: with `asking` the sections that test names are chosen, else the others.
pub fn is_chosen(section: &Section, asking: bool) -> bool
    ensures { result ≡ spec.is_chosen asking section.now }
{
    if asking {
        asks_names(section)
    } else {
        !asks_names(section)
    }
}

/// A section with its patterns compiled. Contracts see the section.
#[derive(Drop)]
pub struct CompiledSection<'r> {
    section: &'r Section,
    properties: Vec<BoxedProperty<'r>>,
}

impl<'r> Model for CompiledSection<'r> {
    ghost use Rattle.std.specs.Prelude.{◌≡◌};
    ghost use Rattle.suppression_text.specs.Rules.{PlainSection};

    ghost Value = { PlainSection };

    ghost view = { λ c. c.section.now };

    ghost invariant = { λ c. c.properties.items ≡ c.section.now.properties };
}

// Compiles the properties of a section.
fn properties_of<'r>(
    alloc: Global,
    section: &'r Section,
) -> Result<Vec<BoxedProperty<'r>>, NoMemory>
    ensures is { IfOk result (λ compiled. compiled.items ≡ section.now.properties) }
    ensures named { IfErr result (λ e. e ≡ Allocation) }
{
    let properties = section.properties();
    let mut compiled = Vec::with_capacity(alloc, properties.len())?;
    for property in properties {
        compiled.push(BoxedProperty::of(alloc, property)?)?;
    }
    Ok(compiled)
}

impl<'r> CompiledSection<'r> {
    /// Compiles a section.
    pub fn of(alloc: Global, section: &'r Section) -> Result<CompiledSection<'r>, NoMemory>
        ensures is { IfOk result (λ compiled. compiled ≡ section.now) }
        ensures named { IfErr result (λ e. e ≡ Allocation) }
    {
        let properties = properties_of(alloc, section)?;
        Ok(CompiledSection {
            section,
            properties,
        })
    }

    /// The section.
    pub fn section(&self) -> &'r Section
        ensures { result.now ≡ self.now }
    {
        self.section
    }

    /// The properties of the section, compiled.
    pub fn properties(&self) -> &[BoxedProperty<'r>]
        ensures { result.now ≡ self.now.properties }
    {
        self.properties.as_slice()
    }
}

// Compiles the chosen sections: with `asking` those that test names, else the others.
#[tactic(auto, unfolding(crate::specs::Names::chosen))]
fn chosen_compiled<'r>(
    alloc: Global,
    sections: &'r [Section],
    asking: bool,
) -> Result<Vec<CompiledSection<'r>>, NoMemory>
    ensures is { IfOk result (λ compiled. compiled.items ≡ spec.chosen asking sections.now) }
    ensures named { IfErr result (λ e. e ≡ Allocation) }
{
    let mut compiled = Vec::new(alloc);
    for section in sections {
        if is_chosen(section, asking) {
            compiled.push(CompiledSection::of(alloc, section)?)?;
        }
    }
    Ok(compiled)
}

// The patterns of sections for names.
fn gates_in<'c>(alloc: Global, sections: &'c [CompiledSection]) -> Result<Vec<&'c [u8]>, NoMemory>
    ensures is { IfOk result (λ texts. map (λ text. text.now) texts.items ≡ gates_of sections.now) }
    ensures named { IfErr result (λ e. e ≡ Allocation) }
{
    let mut texts = Vec::new(alloc);
    for section in sections {
        if let Some(text) = gate_of(section.section()) {
            texts.push(text)?;
        }
    }
    Ok(texts)
}

// Patterns compiled together, unless there are few.
fn set_of(alloc: Global, texts: &[&[u8]]) -> Result<Option<Box<PatternSet>>, NoMemory>
    ensures is { IfOk result (λ gate. ForSome gate (λ set. set.value ≡ map (λ text. text.now) texts.now)) }
    ensures named { IfErr result (λ e. e ≡ Allocation) }
{
    if texts.len() < FEWEST_TOGETHER {
        return Ok(None);
    }
    let set = PatternSet::compile(alloc, texts)?;
    Ok(Some(Box::new(alloc, set)?))
}

// The patterns of sections for names, compiled together, unless there are few.
fn gate(alloc: Global, sections: &[CompiledSection]) -> Result<Option<Box<PatternSet>>, NoMemory>
    ensures is { IfOk result (λ gate. ForSome gate (λ set. set.value ≡ gates_of sections.now)) }
    ensures named { IfErr result (λ e. e ≡ Allocation) }
{
    let texts = gates_in(alloc, sections)?;
    set_of(alloc, texts.as_slice())
}

/// Sections with their patterns compiled, those for names also all together. Contracts see the list of the sections.
#[derive(Drop)]
pub struct CompiledSections<'r> {
    sections: Vec<CompiledSection<'r>>,
    gate: Option<Box<PatternSet>>,
}

impl<'r> Model for CompiledSections<'r> {
    ghost use Rattle.std.specs.Prelude.{◌≡◌, List};
    ghost use Rattle.std.specs.Option.{ForSome};
    ghost use Rattle.suppression_text.specs.Rules.{PlainSection};
    ghost use Rattle.suppressions.specs.Handles.{gates_of};

    ghost Value = { List PlainSection };

    ghost view = { λ c. c.sections.items };

    ghost invariant = { λ c. ForSome c.gate (λ set. set.value ≡ gates_of c.sections.items) };
}

impl<'r> CompiledSections<'r> {
    // Compiles the patterns for names together.
    fn together(
        alloc: Global,
        sections: Vec<CompiledSection<'r>>,
    ) -> Result<CompiledSections<'r>, NoMemory>
        ensures is { IfOk result (λ compiled. compiled ≡ sections.entry.items) }
        ensures named { IfErr result (λ e. e ≡ Allocation) }
    {
        let gate = gate(alloc, sections.as_slice())?;
        Ok(CompiledSections { sections, gate })
    }

    /// Compiles the chosen sections: with `asking` those that test names, else the others.
    pub fn chosen(
        alloc: Global,
        sections: &'r [Section],
        asking: bool,
    ) -> Result<CompiledSections<'r>, NoMemory>
        ensures is { IfOk result (λ compiled. compiled ≡ spec.chosen asking sections.now) }
        ensures named { IfErr result (λ e. e ≡ Allocation) }
    {
        CompiledSections::together(alloc, chosen_compiled(alloc, sections, asking)?)
    }

    /// The sections.
    pub fn sections(&self) -> &[CompiledSection<'r>]
        ensures { result.now ≡ self.now }
    {
        self.sections.as_slice()
    }

    /// A searcher for all patterns for names, if they are compiled together.
    pub fn gate(&self, alloc: Global) -> Result<Option<Box<SetFinder<'_>>>, NoMemory>
        ensures is { IfOk result (λ gate. ForSome gate (λ finder. finder.value ≡ gates_of self.now)) }
        ensures named { IfErr result (λ e. e ≡ Allocation) }
    {
        match &self.gate {
            None => Ok(None),
            Some(set) => Ok(Some(Box::new(alloc, set.finder(alloc)?)?)),
        }
    }
}
