//! Sections that are ready to be matched.
ghost use Rattle.std.specs.Prelude.{◌≡◌, ◌<◌, All, length, IfErr, IfOk};
ghost use Rattle.abi_base.specs.declared.fault.NoMemory.TheVariants.{Allocation};
ghost use Rattle.abi_base.specs.Outcome.{OnLimit};
ghost use Rattle.std.specs.List.{list_all};
ghost use Rattle.suppressions.specs.PlainHandles.{plain_handle};
ghost use Rattle.suppressions.specs.PlainSubjects.{plain_subject};
ghost use Rattle.suppressions.specs.Names as spec;
ghost use Rattle.suppressions.specs.Handles.{gate_handle, handles_of};
ghost use Rattle.suppressions.specs.Limits.{PassesCompiled};
ghost use Rattle.suppressions.specs.Holding.{one_section_holds, IsLetIn, IsOneOfHandle};
ghost use Rattle.suppressions.specs.Meaning.{property_holds, section_holds, some_section_holds};
ghost use Rattle.suppressions.specs.Meaning as meaning;

use crate::boxed::{BoxedProperty, BoxedTest};
use crate::compiled::{CompiledSection, CompiledSections, asks_names};
use crate::handle::Handle;
use crate::handle_order::HandleOrder;
use crate::subject::Subject;
use abi_base::NoMemory;
use std::alloc::Global;
use std::marker::Model;
use suppression_text::pattern_set::SetFinder;
use suppression_text::{Key, Section, SectionKind};

/// A section that is ready to be matched. Contracts see the section.
#[derive(Drop)]
pub struct ReadySection<'r> {
    section: &'r Section,
    tests: Vec<BoxedTest<'r>>,
}

impl<'r> Model for ReadySection<'r> {
    ghost use Rattle.suppression_text.specs.Rules.{PlainSection};

    ghost Value = { PlainSection };

    ghost view = { λ r. record r.section.now { properties = r.tests.items } };
}

// Prepares the properties of a section.
fn tests_of<'c>(
    alloc: Global,
    properties: &'c [BoxedProperty],
) -> Result<Vec<BoxedTest<'c>>, NoMemory>
    ensures is { IfOk result (λ tests. tests.items ≡ properties.now) }
    ensures named { IfErr result (λ e. e ≡ Allocation) }
{
    let mut tests = Vec::with_capacity(alloc, properties.len())?;
    for property in properties {
        tests.push(property.test(alloc)?)?;
    }
    Ok(tests)
}

// Whether a property holds for a subject.
#[tactic(auto, unfolding(crate::specs::Meaning::property_holds))]
fn holds(test: &mut BoxedTest, subject: &Subject) -> bool
    ensures holds { result ≡ property_holds (plain_subject subject.now) test.old }
    ensures same { test.new ≡ test.old }
{
    let key = test.key();
    match key {
        Key::Label => true,
        _ => match subject.asked(key) {
            None => false,
            Some(bytes) => test.passes(bytes),
        },
    }
}

// Whether all properties hold for a subject.
fn all_hold(tests: &mut [BoxedTest], subject: &Subject) -> bool
    ensures all { result ≡ list_all (property_holds (plain_subject subject.now)) tests.old }
    ensures same { tests.new ≡ tests.old }
{
    let mut at = 0;
    'tests: while at < tests.len() {
        if !holds(&mut tests[at], subject) {
            return false;
        }
        at += 1;
    }
    true
}

// The number of a kind of sections.
fn kind_place(kind: SectionKind) -> u8
    ensures { result ≡ meaning.kind_place kind }
{
    match kind {
        SectionKind::Functions => 0,
        SectionKind::Variables => 1,
        SectionKind::Types => 2,
    }
}

// Whether a section is for subjects of this kind.
fn speaks_of(section: &Section, subject: &Subject) -> bool
    ensures { result ≡ meaning.speaks_of section.now (plain_subject subject.now) }
{
    kind_place(section.kind()) == kind_place(subject.kind)
}

impl<'c> ReadySection<'c> {
    /// Prepares a compiled section.
    pub fn of<'r>(
        alloc: Global,
        compiled: &'c CompiledSection<'r>,
    ) -> Result<ReadySection<'c>, NoMemory>
        ensures is { IfOk result (λ ready. ready ≡ compiled.now) }
        ensures named { IfErr result (λ e. e ≡ Allocation) }
    {
        let tests = tests_of(alloc, compiled.properties())?;
        let section = compiled.section();
        Ok(ReadySection { section, tests })
    }

    /// Whether the section matches a subject: it is for this kind, and all its properties hold.
    #[tactic(auto, unfolding(crate::specs::Meaning::section_holds))]
    pub fn holds(&mut self, subject: &Subject) -> bool
        ensures holds { result ≡ section_holds (plain_subject subject.now) self.old }
        ensures same { self.new ≡ self.old }
    {
        if !speaks_of(self.section, subject) {
            return false;
        }
        all_hold(self.tests.as_mut_slice(), subject)
    }
}

// Prepares compiled sections.
fn ready_sections<'c>(
    alloc: Global,
    compiled: &'c [CompiledSection],
) -> Result<Vec<ReadySection<'c>>, NoMemory>
    ensures is { IfOk result (λ ready. ready.items ≡ compiled.now) }
    ensures named { IfErr result (λ e. e ≡ Allocation) }
{
    let mut ready = Vec::with_capacity(alloc, compiled.len())?;
    for section in compiled {
        ready.push(ReadySection::of(alloc, section)?)?;
    }
    Ok(ready)
}

// Whether some section tests a name.
fn some_ask(compiled: &[CompiledSection]) -> bool
    ensures { result ≡ spec.some_ask compiled.now }
{
    compiled.iter().any(|section| asks_names(section.section()))
}

// The order of compiled sections. Fails where some of them test names, as `asks` says, and too many are found by one.
fn order_of<'r>(
    alloc: Global,
    sections: &[CompiledSection<'r>],
    asks: bool,
) -> Result<HandleOrder<'r>, NoMemory>
    requires { asks ≡ spec.some_ask sections.now }
    ensures is { IfOk result (λ order. order ≡ handles_of sections.now) }
    ensures past { IfErr result (λ e. OnLimit e (PassesCompiled sections.now)) }
{
    let order = HandleOrder::of(alloc, sections)?;
    if asks {
        order.check_limit()?;
    }
    Ok(order)
}

// Whether one of the sections with these numbers matches a subject.
fn one_holds(sections: &mut [ReadySection], numbers: &[usize], subject: &Subject) -> bool
    requires { All (λ k. k < length sections.old) numbers.now }
    ensures some { result ≡ one_section_holds sections.old (plain_subject subject.now) numbers.now }
    ensures same { sections.new ≡ sections.old }
{
    for number in numbers {
        if sections[*number].holds(subject) {
            return true;
        }
    }
    false
}

/// Sections that are ready to be matched, indexed by the exact names that they require. A search for a name looks only at the
/// sections that require exactly this name, and at those that require no exact name. If these have patterns for names, one search
/// for all their patterns comes first: where it finds none, the sections are not looked at. Contracts see the list of the sections.
#[derive(Drop)]
pub struct ReadyRules<'c> {
    sections: Vec<ReadySection<'c>>,
    order: HandleOrder<'c>,
    asks: bool,
    gate: Option<Box<SetFinder<'c>>>,
}

impl<'c> Model for ReadyRules<'c> {
    ghost use Rattle.std.specs.Prelude.{◌≡◌, List};
    ghost use Rattle.suppression_text.specs.Rules.{PlainSection};
    ghost use Rattle.std.specs.Option.{ForSome};
    ghost use Rattle.suppressions.specs.Handles.{gates_of, handles_of};
    ghost use Rattle.suppressions.specs.Names.{some_ask};

    ghost Value = { List PlainSection };

    ghost view = { λ r. r.sections.items };

    ghost invariant = { λ r. (r.order ≡ handles_of r.sections.items) × (r.asks ≡ some_ask r.sections.items)
        × ForSome r.gate (λ finder. finder.value ≡ gates_of r.sections.items) };
}

impl<'c> ReadyRules<'c> {
    /// Prepares compiled sections. Returns `NoMemory` if memory runs out, or if some of them test names and too many are found by one.
    pub fn of<'r>(
        alloc: Global,
        compiled: &'c CompiledSections<'r>,
    ) -> Result<ReadyRules<'c>, NoMemory>
        ensures is { IfOk result (λ ready. ready ≡ compiled.now) }
        ensures past { IfErr result (λ e. OnLimit e (PassesCompiled compiled.now)) }
    {
        let sections = ready_sections(alloc, compiled.sections())?;
        let asks = some_ask(compiled.sections());
        let order = order_of(alloc, compiled.sections(), asks)?;
        let gate = compiled.gate(alloc)?;
        Ok(ReadyRules {
            sections,
            order,
            asks,
            gate,
        })
    }

    /// Whether some section tests a name.
    pub fn asks_names(&self) -> bool
        ensures { result ≡ spec.some_ask self.now }
    {
        self.asks
    }

    // Whether a section with this handle matches a subject.
    fn holds_at(&mut self, handle: Handle, subject: &Subject) -> bool
        ensures some { IsOneOfHandle self.old (plain_subject subject.now) (plain_handle handle.entry) result }
        ensures same { self.new ≡ self.old }
    {
        one_holds(
            self.sections.as_mut_slice(),
            self.order.find(handle),
            subject,
        )
    }

    // Whether a pattern for names matches a name of a subject. Where the patterns are not compiled together, the answer is yes.
    fn lets_in(&mut self, subject: &Subject) -> bool
        ensures found { IsLetIn self.old (plain_subject subject.now) result }
        ensures same { self.new ≡ self.old }
    {
        let Some(gate) = &mut self.gate else {
            return true;
        };
        if gate.finds(subject.name) {
            return true;
        }
        if let Some(symbol) = subject.symbol {
            return gate.finds(symbol);
        }
        false
    }

    // Whether a section with a pattern for names, and without a name, matches a subject.
    fn pattern_holds(&mut self, subject: &Subject) -> bool
        ensures some { IsOneOfHandle self.old (plain_subject subject.now) gate_handle result }
        ensures same { self.new ≡ self.old }
    {
        if !self.lets_in(subject) {
            return false;
        }
        self.holds_at(Handle::Pattern, subject)
    }

    /// Whether some section matches a subject.
    pub fn some_holds(&mut self, subject: &Subject) -> bool
        ensures some { result ≡ some_section_holds self.old (plain_subject subject.now) }
        ensures same { self.new ≡ self.old }
    {
        if self.holds_at(Handle::Any, subject)
            || self.holds_at(Handle::Name(subject.name), subject)
            || self.pattern_holds(subject)
        {
            return true;
        }
        if let Some(symbol) = subject.symbol {
            return self.holds_at(Handle::Symbol(symbol), subject);
        }
        false
    }
}
