// The properties of sections, and the tests of bytes for their values.
ghost use Rattle.std.specs.Prelude.{◌≡◌, true, false, IfErr, IfOk, IfSome, IfNone};
ghost use Rattle.abi_base.specs.declared.fault.NoMemory.TheVariants.{Allocation};
ghost use Rattle.suppression_text.specs.Passing as spec;
ghost use Rattle.suppression_text.specs.Rules.{plain_property};
ghost use Rattle.suppression_text.specs.Patterns.{is_no_pattern};

use crate::key::{Key, has_pattern};
use crate::pattern::{Finder, Pattern, is_pattern};
use abi_base::NoMemory;
use std::alloc::Global;
use std::marker::Model;

/// A property of a section. Contracts see it as its key and its value.
#[derive(Drop)]
pub struct Property {
    key: Key,
    value: Vec<u8>,
}

impl Model for Property {
    ghost use Rattle.suppression_text.specs.Rules.{PlainProperty, plain_property};

    ghost Value = { PlainProperty };

    ghost view = { λ p. plain_property p.key p.value.items };
}

impl Property {
    ghost use Rattle.suppression_text.specs.Keys as keys;

    /// The property with this value, or `None` if the value must be a pattern and is not one.
    pub fn read(alloc: Global, key: Key, text: &[u8]) -> Result<Option<Property>, NoMemory>
        ensures value { IfOk result (λ read. IfSome read (λ property. property ≡ plain_property key text.now)) }
        ensures some { IfOk result (λ read. IfSome read (λ _. is_no_pattern key text.now ≡ false)) }
        ensures none { IfOk result (λ read. IfNone read (is_no_pattern key text.now ≡ true)) }
        ensures named { IfErr result (λ e. e ≡ Allocation) }
    {
        if has_pattern(key) && !is_pattern(alloc, text)? {
            return Ok(None);
        }
        let value = Vec::from_slice(alloc, text)?;
        Ok(Some(Property { key, value }))
    }

    /// The key of the property.
    pub fn key(&self) -> Key
        ensures { result ≡ self.now.key }
    {
        self.key
    }

    /// Whether its value is a pattern.
    pub fn has_pattern(&self) -> bool
        ensures { result ≡ keys.has_pattern self.now.key }
    {
        has_pattern(self.key)
    }

    /// The bytes of its value. For a pattern, they are its text.
    pub fn value(&self) -> &[u8]
        ensures { result.now ≡ self.now.value }
    {
        self.value.as_slice()
    }

    /// The property with its pattern compiled. Returns `NoMemory` if memory runs out, or if the compiled pattern would exceed the
    /// limit of `regex`.
    pub fn compiled(&self, alloc: Global) -> Result<CompiledProperty<'_>, NoMemory>
        ensures same { IfOk result (λ compiled. compiled ≡ self.now) }
        ensures named { IfErr result (λ e. e ≡ Allocation) }
    {
        let key = self.key;
        let text = self.value.as_slice();
        let value = if has_pattern(key) {
            Value::Pattern(Pattern::compile(alloc, text)?)
        } else {
            Value::Text(text)
        };
        Ok(CompiledProperty { key, value })
    }
}

/// What a property compares bytes with.
#[derive(Drop)]
pub enum Value<'r> {
    /// Bytes to which others may be equal.
    Text(&'r [u8]),
    /// A pattern that may match in other bytes.
    Pattern(Pattern),
}

/// A property whose pattern is compiled. Contracts see it as the property.
#[derive(Drop)]
pub struct CompiledProperty<'r> {
    key: Key,
    value: Value<'r>,
}

impl<'r> Model for CompiledProperty<'r> {
    ghost use Rattle.suppression_text.specs.Rules.{PlainProperty};

    ghost Value = { PlainProperty };

    ghost use Rattle.std.specs.Prelude.{◌≡◌};
    ghost use Rattle.suppression_text.specs.Keys as keys;
    ghost use Rattle.suppression_text.specs.Rules.{plain_property};
    ghost use Rattle.suppression_text.specs.Values.{value_text, is_pattern_value};

    ghost view = { λ p. plain_property p.key (value_text p.value) };

    ghost invariant = { λ p. is_pattern_value p.value ≡ keys.has_pattern p.key };
}

impl<'r> CompiledProperty<'r> {
    /// A test of bytes for the value of the property.
    pub fn test(&self, alloc: Global) -> Result<Test<'_>, NoMemory>
        ensures same { IfOk result (λ test. test ≡ self.now) }
        ensures named { IfErr result (λ e. e ≡ Allocation) }
    {
        let key = self.key;
        match &self.value {
            Value::Text(bytes) => Ok(Test {
                key,
                probe: Probe::Equal(*bytes),
            }),
            Value::Pattern(pattern) => Ok(Test {
                key,
                probe: Probe::PatternMatch(pattern.finder(alloc)?),
            }),
        }
    }
}

/// How bytes are tested for a value.
#[derive(Drop)]
pub enum Probe<'p> {
    /// The bytes must be equal to it.
    Equal(&'p [u8]),
    /// The pattern must match in the bytes.
    PatternMatch(Finder<'p>),
}

/// A test of bytes for the value of a property. Contracts see it as the property.
#[derive(Drop)]
pub struct Test<'p> {
    key: Key,
    probe: Probe<'p>,
}

impl<'p> Model for Test<'p> {
    ghost use Rattle.suppression_text.specs.Rules.{PlainProperty};

    ghost Value = { PlainProperty };

    ghost use Rattle.std.specs.Prelude.{◌≡◌};
    ghost use Rattle.suppression_text.specs.Keys as keys;
    ghost use Rattle.suppression_text.specs.Rules.{plain_property};
    ghost use Rattle.suppression_text.specs.Probes.{probe_text, is_pattern_probe};

    ghost view = { λ t. plain_property t.key (probe_text t.probe) };

    ghost invariant = { λ t. is_pattern_probe t.probe ≡ keys.has_pattern t.key };
}

// Whether the pattern must not match.
fn is_negated(key: Key) -> bool
    ensures { result ≡ spec.is_negated key }
{
    match key {
        Key::NameNotRegexp => true,
        _ => false,
    }
}

impl<'p> Test<'p> {
    /// The key of the property.
    pub fn key(&self) -> Key
        ensures { result ≡ self.now.key }
    {
        self.key
    }

    /// Whether the bytes pass the property.
    #[tactic(auto, unfolding(crate::specs::Passing::passes))]
    pub fn passes(&mut self, bytes: &[u8]) -> bool
        ensures passes { result ≡ spec.passes self.old.key self.old.value bytes.now }
        ensures same { self.new ≡ self.old }
    {
        let negated = is_negated(self.key);
        match &mut self.probe {
            Probe::Equal(value) => *value == bytes,
            Probe::PatternMatch(finder) => finder.finds(bytes) != negated,
        }
    }
}
