// The text of rows in each style.
ghost use Rattle.std.specs.Prelude.{◌≡◌, ◌++◌, ◌-◌, length, take, replicate, OnOk, IfErr, IfOk, flat_map, codes, decimal};
ghost use Rattle.abi_base.specs.declared.fault.NoMemory.TheVariants.{Allocation};
ghost use Rattle.abi_types.specs.Rules.{all_rules};
ghost use Rattle.report.specs.Render.{at_left, at_right, columns, count_line, line_end, number_line, path_behind, path_or_dash, row_line, same_rule, table_line};
ghost use Rattle.report.specs.Render as spec;

use crate::row::Row;
use abi_base::NoMemory;
use abi_types::Rule;
use std::alloc::Global;

// The width of the column of rules.
const RULE_PLACES: usize = 4;

// The width of the column of labels.
const LABEL_PLACES: usize = 32;

// The width of the column of counts.
const COUNT_PLACES: usize = 8;

// Appends bytes.
fn push(text: &mut Vec<u8>, bytes: &[u8]) -> Result<(), NoMemory>
    ensures appended { OnOk result (text.new.items ≡ text.old.items ++ bytes.now) }
    ensures named { IfErr result (λ e. e ≡ Allocation) }
{
    text.extend_from_slice(bytes)?;
    Ok(())
}

// Appends this many spaces.
fn push_spaces(text: &mut Vec<u8>, count: usize) -> Result<(), NoMemory>
    ensures appended { OnOk result (text.new.items ≡ text.old.items ++ replicate count 32) }
    ensures named { IfErr result (λ e. e ≡ Allocation) }
{
    for _space in 0..count {
        text.push(b' ')?;
    }
    Ok(())
}

// Appends a word padded on the right to this width. A longer word is not cut.
fn push_at_left(text: &mut Vec<u8>, places: usize, word: &[u8]) -> Result<(), NoMemory>
    ensures appended { OnOk result (text.new.items ≡ text.old.items ++ at_left places word.now) }
    ensures named { IfErr result (λ e. e ≡ Allocation) }
{
    push(text, word)?;
    push_spaces(text, places.saturating_sub(word.len()))
}

// Appends a word padded on the left to this width. A longer word is not cut.
fn push_at_right(text: &mut Vec<u8>, places: usize, word: &[u8]) -> Result<(), NoMemory>
    ensures appended { OnOk result (text.new.items ≡ text.old.items ++ at_right places word.now) }
    ensures named { IfErr result (λ e. e ≡ Allocation) }
{
    push_spaces(text, places.saturating_sub(word.len()))?;
    push(text, word)
}

// Appends a space and the path of a row, if it has one.
fn push_path(text: &mut Vec<u8>, path: &[u8]) -> Result<(), NoMemory>
    ensures appended { OnOk result (text.new.items ≡ text.old.items ++ path_behind path.now) }
    ensures named { IfErr result (λ e. e ≡ Allocation) }
{
    if path.is_empty() {
        return Ok(());
    }
    push(text, b" ")?;
    push(text, path)
}

// Appends the end of a line: the detail of its row.
fn push_end(text: &mut Vec<u8>, row: &Row) -> Result<(), NoMemory>
    ensures appended { OnOk result (text.new.items ≡ text.old.items ++ line_end row.now) }
    ensures named { IfErr result (λ e. e ≡ Allocation) }
{
    push(text, b": ")?;
    push(text, row.detail.as_slice())?;
    push(text, b"\n")
}

// Appends a row as a line.
#[tactic(auto, unfolding(crate::specs::Render::row_line))]
fn push_line(text: &mut Vec<u8>, row: &Row) -> Result<(), NoMemory>
    ensures appended { OnOk result (text.new.items ≡ text.old.items ++ row_line row.now) }
    ensures named { IfErr result (λ e. e ≡ Allocation) }
{
    push(text, row.rule.word().as_bytes())?;
    push(text, b" ")?;
    push(text, row.export.as_slice())?;
    push_path(text, row.path.as_slice())?;
    push_end(text, row)
}

// The path of a row in the table.
fn path_in_table(path: &[u8]) -> &[u8]
    ensures { result.now ≡ path_or_dash path.now }
{
    if path.is_empty() { b"-" } else { path }
}

// Appends the rule and the label of a row in their columns.
fn push_columns(text: &mut Vec<u8>, row: &Row) -> Result<(), NoMemory>
    ensures appended { OnOk result (text.new.items ≡ text.old.items ++ columns row.now) }
    ensures named { IfErr result (λ e. e ≡ Allocation) }
{
    push_at_left(text, RULE_PLACES, row.rule.word().as_bytes())?;
    push(text, b" ")?;
    push_at_left(text, LABEL_PLACES, row.export.as_slice())?;
    push(text, b" ")
}

// Appends a row of the table.
#[tactic(auto, unfolding(crate::specs::Render::table_line))]
fn push_table_line(text: &mut Vec<u8>, row: &Row) -> Result<(), NoMemory>
    ensures appended { OnOk result (text.new.items ≡ text.old.items ++ table_line row.now) }
    ensures named { IfErr result (λ e. e ≡ Allocation) }
{
    push_columns(text, row)?;
    push(text, path_in_table(row.path.as_slice()))?;
    push_end(text, row)
}

/// A line for each row.
pub fn lines_text(alloc: Global, rows: &[Row]) -> Result<Vec<u8>, NoMemory>
    ensures made { IfOk result (λ text. text.items ≡ spec.lines_text rows.now) }
    ensures named { IfErr result (λ e. e ≡ Allocation) }
{
    let mut text = Vec::new(alloc);
    for row in rows {
        push_line(&mut text, row)?;
    }
    Ok(text)
}

/// A line for each row, in columns.
pub fn table_text(alloc: Global, rows: &[Row]) -> Result<Vec<u8>, NoMemory>
    ensures made { IfOk result (λ text. text.items ≡ spec.table_text rows.now) }
    ensures named { IfErr result (λ e. e ≡ Allocation) }
{
    let mut text = Vec::new(alloc);
    for row in rows {
        push_table_line(&mut text, row)?;
    }
    Ok(text)
}

// ---- counts

// The number of rows of a rule.
fn rows_of_rule(rows: &[Row], rule: Rule) -> usize
    ensures { result ≡ spec.rows_of_rule rows.now rule }
{
    rows.iter().filter(|row| row.rule == rule).count()
}

// Appends a word and a number in two columns.
fn push_number_line(
    alloc: Global,
    text: &mut Vec<u8>,
    word: &str,
    number: usize,
) -> Result<(), NoMemory>
    ensures appended { OnOk result (text.new.items ≡ text.old.items ++ number_line word.now number) }
    ensures named { IfErr result (λ e. e ≡ Allocation) }
{
    let digits = format!(in alloc; "{number}")?;
    push_at_left(text, RULE_PLACES, word.as_bytes())?;
    push_at_right(text, COUNT_PLACES, digits.as_bytes())?;
    push(text, b"\n")
}

// Appends the line of a rule, if it has rows.
fn push_count(alloc: Global, text: &mut Vec<u8>, rows: &[Row], rule: Rule) -> Result<(), NoMemory>
    ensures appended { OnOk result (text.new.items ≡ text.old.items ++ count_line rows.now rule) }
    ensures named { IfErr result (λ e. e ≡ Allocation) }
{
    let number = rows_of_rule(rows, rule);
    if number == 0 {
        return Ok(());
    }
    push_number_line(alloc, text, rule.word(), number)
}

// Appends the lines of all rules that have rows.
fn push_counts(alloc: Global, text: &mut Vec<u8>, rows: &[Row]) -> Result<(), NoMemory>
    ensures appended { OnOk result (text.new.items ≡ text.old.items ++ flat_map (count_line rows.now) all_rules) }
    ensures named { IfErr result (λ e. e ≡ Allocation) }
{
    let rules = Rule::all();
    for rule in rules {
        push_count(alloc, text, rows, *rule)?;
    }
    Ok(())
}

/// The number of rows of each rule that has some, in the order of the rules, and of all rules together.
#[tactic(auto, unfolding(crate::specs::Render::counts_text))]
pub fn counts_text(alloc: Global, rows: &[Row]) -> Result<Vec<u8>, NoMemory>
    ensures made { IfOk result (λ text. text.items ≡ spec.counts_text rows.now) }
    ensures named { IfErr result (λ e. e ≡ Allocation) }
{
    let mut text = Vec::new(alloc);
    push_counts(alloc, &mut text, rows)?;
    push_number_line(alloc, &mut text, "all", rows.len())?;
    Ok(text)
}
