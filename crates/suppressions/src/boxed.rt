//! The properties of sections, with their patterns on the heap. A compiled pattern takes kilobytes, and most properties have none:
//! without a pattern, a property takes a few bytes here.
ghost use Rattle.std.specs.Prelude.{◌≡◌, IfErr, IfOk};
ghost use Rattle.abi_base.specs.declared.fault.NoMemory.TheVariants.{Allocation};
ghost use Rattle.suppression_text.specs.Passing.{passes};

use abi_base::NoMemory;
use std::alloc::Global;
use std::marker::Model;
use suppression_text::{CompiledProperty, Key, Property, Test};

/// A property of a section. Its pattern is compiled, if it has one. Contracts see the property.
#[derive(Drop)]
pub struct BoxedProperty<'r> {
    property: &'r Property,
    compiled: Option<Box<CompiledProperty<'r>>>,
}

impl<'r> Model for BoxedProperty<'r> {
    ghost use Rattle.suppression_text.specs.Rules.{PlainProperty};

    ghost Value = { PlainProperty };

    ghost use Rattle.std.specs.Prelude.{◌≡◌, false, IfNone};
    ghost use Rattle.std.specs.Option.{ForSome};
    ghost use Rattle.suppression_text.specs.Keys as keys;

    ghost view = { λ b. b.property.now };

    ghost invariant = { λ b. ForSome b.compiled (λ c. c.value ≡ b.property.now)
        × IfNone b.compiled (keys.has_pattern b.property.now.key ≡ false) };
}

// Compiles the pattern of a property.
fn compiled<'r>(
    alloc: Global,
    property: &'r Property,
) -> Result<Box<CompiledProperty<'r>>, NoMemory>
    ensures is { IfOk result (λ compiled. compiled.value ≡ property.now) }
    ensures named { IfErr result (λ e. e ≡ Allocation) }
{
    Ok(Box::new(alloc, property.compiled(alloc)?)?)
}

// Prepares the search for a pattern.
fn prepared<'c>(alloc: Global, compiled: &'c CompiledProperty) -> Result<Box<Test<'c>>, NoMemory>
    ensures is { IfOk result (λ test. test.value ≡ compiled.now) }
    ensures named { IfErr result (λ e. e ≡ Allocation) }
{
    Ok(Box::new(alloc, compiled.test(alloc)?)?)
}

impl<'r> BoxedProperty<'r> {
    /// Compiles the pattern of a property, if it has one.
    pub fn of(alloc: Global, property: &'r Property) -> Result<BoxedProperty<'r>, NoMemory>
        ensures is { IfOk result (λ boxed. boxed ≡ property.now) }
        ensures named { IfErr result (λ e. e ≡ Allocation) }
    {
        if !property.has_pattern() {
            return Ok(BoxedProperty {
                property,
                compiled: None,
            });
        }
        let compiled = compiled(alloc, property)?;
        Ok(BoxedProperty {
            property,
            compiled: Some(compiled),
        })
    }

    /// Prepares the search for the pattern, if there is one.
    pub fn test(&self, alloc: Global) -> Result<BoxedTest<'_>, NoMemory>
        ensures is { IfOk result (λ test. test ≡ self.now) }
        ensures named { IfErr result (λ e. e ≡ Allocation) }
    {
        let property = self.property;
        match &self.compiled {
            Some(compiled) => {
                let test = prepared(alloc, compiled)?;
                Ok(BoxedTest {
                    property,
                    test: Some(test),
                })
            }
            None => Ok(BoxedTest {
                property,
                test: None,
            }),
        }
    }
}

/// A property of a section that tests bytes. Its search is prepared, if it has a pattern. Contracts see the property.
#[derive(Drop)]
pub struct BoxedTest<'c> {
    property: &'c Property,
    test: Option<Box<Test<'c>>>,
}

impl<'c> Model for BoxedTest<'c> {
    ghost use Rattle.suppression_text.specs.Rules.{PlainProperty};

    ghost Value = { PlainProperty };

    ghost use Rattle.std.specs.Prelude.{◌≡◌, false, IfNone};
    ghost use Rattle.std.specs.Option.{ForSome};
    ghost use Rattle.suppression_text.specs.Keys as keys;

    ghost view = { λ b. b.property.now };

    ghost invariant = { λ b. ForSome b.test (λ t. t.value ≡ b.property.now)
        × IfNone b.test (keys.has_pattern b.property.now.key ≡ false) };
}

impl<'c> BoxedTest<'c> {
    /// The key of the property.
    pub fn key(&self) -> Key
        ensures { result ≡ self.now.key }
    {
        self.property.key()
    }

    /// Whether the bytes pass the property.
    #[tactic(auto, unfolding(suppression_text::specs::Passing::passes))]
    pub fn passes(&mut self, bytes: &[u8]) -> bool
        ensures passes { result ≡ passes self.old.key self.old.value bytes.now }
        ensures same { self.new ≡ self.old }
    {
        match &mut self.test {
            Some(test) => test.passes(bytes),
            None => self.property.value() == bytes,
        }
    }
}
