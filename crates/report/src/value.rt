// A value of a rule.
ghost use Rattle.std.specs.Prelude.{◌≡◌, IfErr, IfOk};
ghost use Rattle.abi_base.specs.declared.fault.NoMemory.TheVariants.{Allocation};
ghost use Rattle.report.specs.Values.{text_of};

use abi_base::{List, NoMemory};
use std::alloc::Global;

/// A value that a rule compares: the old one or the new one.
#[derive(Drop)]
pub enum Value {
    /// No value.
    Nothing,
    /// A size or an alignment in bytes.
    Bytes(u64),
    /// An offset or a width in bits.
    Bits(u64),
    /// The number of elements or parameters.
    Count(u64),
    /// The value of an enumerator.
    Number(u64),
    /// A word or a name in its printed form.
    Word(List<u8>),
}

impl Value {
    /// An equal value. It fails only if memory runs out.
    pub fn copy(&self, alloc: Global) -> Result<Value, NoMemory>
        ensures same { IfOk result (λ value. value ≡ self.now) }
        ensures named { IfErr result (λ e. e ≡ Allocation) }
    {
        match self {
            Value::Nothing => Ok(Value::Nothing),
            Value::Bytes(number) => Ok(Value::Bytes(*number)),
            Value::Bits(number) => Ok(Value::Bits(*number)),
            Value::Count(number) => Ok(Value::Count(*number)),
            Value::Number(number) => Ok(Value::Number(*number)),
            Value::Word(text) => Ok(Value::Word(List::copy_of(alloc, text.as_slice())?)),
        }
    }

    /// The text of a word, and none of other values.
    pub fn text(&self) -> &[u8]
        ensures { result.now ≡ text_of self.now }
    {
        match self {
            Value::Word(text) => text.as_slice(),
            _ => &[],
        }
    }
}
