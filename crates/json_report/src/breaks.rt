// The array of the breaks.
ghost use Rattle.std.specs.Prelude.{◌≡◌, ◌+◌, ◌<◌, ◌++◌, drop, length, flat_map, codes, IfErr, IfOk, OnOk};
ghost use Rattle.abi_base.specs.declared.fault.NoMemory.TheVariants.{Allocation};
ghost use Rattle.json_report.specs.Breaks.{detail_text, entries_text, entry_member, entry_text, path_text, place_text, row_text, rows_text, rule_text, steps_behind};
ghost use Rattle.json_report.specs.Breaks as spec;
ghost use Rattle.report.specs.declared.row.Row.{Row as AnyRow};

use crate::strings::{push, push_escaped, push_string};
use crate::values::push_values;
use abi_base::NoMemory;
use report::Row;
use std::alloc::Global;

// The separator between two steps of a path.
const BETWEEN: &[u8] = b" / ";

// Appends the offset of an entry, or null if there is none.
#[tactic(auto, unfolding(crate::specs::Breaks::entry_text))]
fn push_entry(alloc: Global, text: &mut Vec<u8>, offset: u64) -> Result<(), NoMemory>
    ensures appended { OnOk result (text.new.items ≡ text.old.items ++ entry_text offset) }
    ensures named { IfErr result (λ e. e ≡ Allocation) }
{
    if offset == 0 {
        return push(text, b"null");
    }
    let digits = format!(in alloc; "{offset}")?;
    push(text, digits.as_bytes())
}

// Whether another step of a path follows here.
fn goes_on(bytes: &[u8]) -> bool
    ensures { result ≡ spec.goes_on bytes.now }
{
    bytes.len() >= 3 && &bytes[..3] == BETWEEN
}

// Appends the contribution of one byte of a path, where `passed` more bytes are to be skipped, this one first. Returns how many
// bytes after it are to be skipped.
#[tactic(auto, using(crate::proofs::StepLemmas::step_passed, crate::proofs::StepLemmas::step_ends, crate::proofs::StepLemmas::step_goes_on))]
fn push_byte_of_step(
    text: &mut Vec<u8>,
    path: &[u8],
    i: usize,
    passed: usize,
) -> Result<usize, NoMemory>
    requires { i < length path.now }
    ensures appended { IfOk result (λ next. text.new.items ++ steps_behind next (drop (i + 1) path.now)
        ≡ text.old.items ++ steps_behind passed (drop i path.now)) }
    ensures named { IfErr result (λ e. e ≡ Allocation) }
{
    if passed > 0 {
        return Ok(passed - 1);
    }
    if goes_on(&path[i..]) {
        push(text, b"\",\"")?;
        return Ok(2);
    }
    push_escaped(text, path[i])?;
    Ok(0)
}

// Appends the steps of a path as strings with commas between them.
#[tactic(auto, using(crate::proofs::StepLemmas::steps_end))]
fn push_steps(text: &mut Vec<u8>, path: &[u8]) -> Result<(), NoMemory>
    ensures appended { OnOk result (text.new.items ≡ text.old.items ++ steps_behind 0 path.now) }
    ensures named { IfErr result (λ e. e ≡ Allocation) }
{
    let mut passed: usize = 0;
    for i in 0..path.len() {
        passed = push_byte_of_step(text, path, i, passed)?;
    }
    Ok(())
}

// Appends the array of the steps of a path.
#[tactic(auto, unfolding(crate::specs::Breaks::path_text))]
fn push_path(text: &mut Vec<u8>, path: &[u8]) -> Result<(), NoMemory>
    ensures appended { OnOk result (text.new.items ≡ text.old.items ++ path_text path.now) }
    ensures named { IfErr result (λ e. e ≡ Allocation) }
{
    if path.is_empty() {
        return push(text, b"[]");
    }
    push(text, b"[\"")?;
    push_steps(text, path)?;
    push(text, b"\"]")
}

// Appends the broken rule.
#[tactic(auto, unfolding(crate::specs::Breaks::rule_text))]
fn push_rule(text: &mut Vec<u8>, row: &Row) -> Result<(), NoMemory>
    ensures appended { OnOk result (text.new.items ≡ text.old.items ++ rule_text row.now) }
    ensures named { IfErr result (λ e. e ≡ Allocation) }
{
    push(text, b"{\"rule\":\"")?;
    push(text, row.rule.word().as_bytes())?;
    push(text, b"\",\"name\":\"")?;
    push(text, row.rule.name().as_bytes())?;
    push(text, b"\"")
}

// Appends where it is broken.
#[tactic(auto, unfolding(crate::specs::Breaks::place_text))]
fn push_place(text: &mut Vec<u8>, row: &Row) -> Result<(), NoMemory>
    ensures appended { OnOk result (text.new.items ≡ text.old.items ++ place_text row.now) }
    ensures named { IfErr result (λ e. e ≡ Allocation) }
{
    push(text, b",\"export\":")?;
    push_string(text, row.export.as_slice())?;
    push(text, b",\"steps\":")?;
    push_path(text, row.path.as_slice())?;
    push(text, b",\"path\":")?;
    push_string(text, row.path.as_slice())
}

// Appends the old and the new state, as one text.
#[tactic(auto, unfolding(crate::specs::Breaks::detail_text))]
fn push_detail(text: &mut Vec<u8>, row: &Row) -> Result<(), NoMemory>
    ensures appended { OnOk result (text.new.items ≡ text.old.items ++ detail_text row.now) }
    ensures named { IfErr result (λ e. e ≡ Allocation) }
{
    push(text, b",\"detail\":")?;
    push_string(text, row.detail.as_slice())
}

// Appends a member that holds the offset of an entry.
#[tactic(auto, unfolding(crate::specs::Breaks::entry_member))]
fn push_entry_member(
    alloc: Global,
    text: &mut Vec<u8>,
    name: &str,
    offset: u64,
) -> Result<(), NoMemory>
    ensures appended { OnOk result (text.new.items ≡ text.old.items ++ entry_member name.now offset) }
    ensures named { IfErr result (λ e. e ≡ Allocation) }
{
    push(text, b",\"")?;
    push(text, name.as_bytes())?;
    push(text, b"\":")?;
    push_entry(alloc, text, offset)
}

// Appends the entries of both types.
#[tactic(auto, unfolding(crate::specs::Breaks::entries_text))]
fn push_entries(alloc: Global, text: &mut Vec<u8>, row: &Row) -> Result<(), NoMemory>
    ensures appended { OnOk result (text.new.items ≡ text.old.items ++ entries_text row.now) }
    ensures named { IfErr result (λ e. e ≡ Allocation) }
{
    push_entry_member(alloc, text, "old_entry", row.old_entry)?;
    push_entry_member(alloc, text, "new_entry", row.new_entry)?;
    push(text, b"}")
}

// Appends the object of a row.
#[tactic(auto, unfolding(crate::specs::Breaks::row_text))]
fn push_row(alloc: Global, text: &mut Vec<u8>, row: &Row) -> Result<(), NoMemory>
    ensures appended { OnOk result (text.new.items ≡ text.old.items ++ row_text row.now) }
    ensures named { IfErr result (λ e. e ≡ Allocation) }
{
    push_rule(text, row)?;
    push_place(text, row)?;
    push_detail(text, row)?;
    push_values(alloc, text, row)?;
    push_entries(alloc, text, row)
}

// Appends the objects of further rows.
fn push_others(alloc: Global, text: &mut Vec<u8>, rows: &[Row]) -> Result<(), NoMemory>
    ensures appended { OnOk result (text.new.items
        ≡ text.old.items ++ flat_map (λ (r : AnyRow). codes "," ++ row_text r) rows.now) }
    ensures named { IfErr result (λ e. e ≡ Allocation) }
{
    for row in rows {
        push(text, b",")?;
        push_row(alloc, text, row)?;
    }
    Ok(())
}

// Appends the objects of rows.
fn push_rows(alloc: Global, text: &mut Vec<u8>, rows: &[Row]) -> Result<(), NoMemory>
    ensures appended { OnOk result (text.new.items ≡ text.old.items ++ rows_text rows.now) }
    ensures named { IfErr result (λ e. e ≡ Allocation) }
{
    match rows {
        [] => Ok(()),
        [first, others @ ..] => {
            push_row(alloc, text, first)?;
            push_others(alloc, text, others)
        }
    }
}

// The array of the breaks, an object for each row.
#[tactic(auto, unfolding(crate::specs::Breaks::breaks_text))]
pub(crate) fn breaks_text(alloc: Global, rows: &[Row]) -> Result<Vec<u8>, NoMemory>
    ensures made { IfOk result (λ text. text.items ≡ spec.breaks_text rows.now) }
    ensures named { IfErr result (λ e. e ≡ Allocation) }
{
    let mut text = Vec::new(alloc);
    push(&mut text, b"[")?;
    push_rows(alloc, &mut text, rows)?;
    push(&mut text, b"]")?;
    Ok(text)
}
