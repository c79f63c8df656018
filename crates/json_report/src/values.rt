// The values of breaks.
ghost use Rattle.std.specs.Prelude.{◌≡◌, ◌++◌, IfErr, OnOk};
ghost use Rattle.abi_base.specs.declared.fault.NoMemory.TheVariants.{Allocation};
ghost use Rattle.json_report.specs.Breaks.{number_text, part_text, unit_text, value_text, values_text, word_text};

use crate::strings::{push, push_string};
use abi_base::NoMemory;
use report::{Row, Value};
use std::alloc::Global;

// Appends the part of which a rule speaks, or null if there is none.
#[tactic(auto, unfolding(crate::specs::Breaks::part_text))]
fn push_part(text: &mut Vec<u8>, part: &[u8]) -> Result<(), NoMemory>
    ensures appended { OnOk result (text.new.items ≡ text.old.items ++ part_text part.now) }
    ensures named { IfErr result (λ e. e ≡ Allocation) }
{
    if part.is_empty() {
        return push(text, b"null");
    }
    push_string(text, part)
}

// Appends the unit after a value.
#[tactic(auto, unfolding(crate::specs::Breaks::unit_text))]
fn push_unit(text: &mut Vec<u8>, unit: &str) -> Result<(), NoMemory>
    ensures appended { OnOk result (text.new.items ≡ text.old.items ++ unit_text unit.now) }
    ensures named { IfErr result (λ e. e ≡ Allocation) }
{
    push(text, b",\"unit\":\"")?;
    push(text, unit.as_bytes())?;
    push(text, b"\"}")
}

// Appends a number with its unit.
#[tactic(auto, unfolding(crate::specs::Breaks::number_text))]
fn push_number(alloc: Global, text: &mut Vec<u8>, number: u64, unit: &str) -> Result<(), NoMemory>
    ensures appended { OnOk result (text.new.items ≡ text.old.items ++ number_text unit.now number) }
    ensures named { IfErr result (λ e. e ≡ Allocation) }
{
    let digits = format!(in alloc; "{number}")?;
    push(text, b"{\"value\":")?;
    push(text, digits.as_bytes())?;
    push_unit(text, unit)
}

// Appends a word.
#[tactic(auto, unfolding(crate::specs::Breaks::word_text))]
fn push_word(text: &mut Vec<u8>, word: &[u8]) -> Result<(), NoMemory>
    ensures appended { OnOk result (text.new.items ≡ text.old.items ++ word_text word.now) }
    ensures named { IfErr result (λ e. e ≡ Allocation) }
{
    push(text, b"{\"value\":")?;
    push_string(text, word)?;
    push_unit(text, "word")
}

// Appends a value with its unit, or null if there is none.
fn push_value(alloc: Global, text: &mut Vec<u8>, value: &Value) -> Result<(), NoMemory>
    ensures appended { OnOk result (text.new.items ≡ text.old.items ++ value_text value.now) }
    ensures named { IfErr result (λ e. e ≡ Allocation) }
{
    match value {
        Value::Nothing => push(text, b"null"),
        Value::Bytes(number) => push_number(alloc, text, *number, "bytes"),
        Value::Bits(number) => push_number(alloc, text, *number, "bits"),
        Value::Count(number) => push_number(alloc, text, *number, "count"),
        Value::Number(number) => push_number(alloc, text, *number, "number"),
        Value::Word(word) => push_word(text, word.as_slice()),
    }
}

/// Appends the part that the rule is about, and the old and the new value.
#[tactic(auto, unfolding(crate::specs::Breaks::values_text))]
pub(crate) fn push_values(alloc: Global, text: &mut Vec<u8>, row: &Row) -> Result<(), NoMemory>
    ensures appended { OnOk result (text.new.items ≡ text.old.items ++ values_text row.now) }
    ensures named { IfErr result (λ e. e ≡ Allocation) }
{
    push(text, b",\"part\":")?;
    push_part(text, row.part.as_slice())?;
    push(text, b",\"was\":")?;
    push_value(alloc, text, &row.was)?;
    push(text, b",\"is\":")?;
    push_value(alloc, text, &row.is)
}
