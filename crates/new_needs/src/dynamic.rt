// Reads the names of the files that a file needs.
ghost use Rattle.std.specs.Prelude.{◌≡◌, ◌<◌, ◌≤◌, ◌+◌, ◌*◌, ◌++◌, length, IfErr, IfOk, OnOk, option_to_list};
ghost use Rattle.std.specs.List.{range_with_len};
ghost use Rattle.std.specs.Option.{option_copied};
ghost use Rattle.abi_base.specs.Budgets.{with_taken};
ghost use Rattle.abi_base.specs.Elf.{dyn_size};
ghost use Rattle.abi_base.specs.Limits.{input_limit};
ghost use Rattle.abi_base.specs.Outcome.{Judges, OnLimit, OnPast, Settles};
ghost use Rattle.elf.specs.symbols.Dynamic.{entry_numbers};
ghost use Rattle.new_needs.specs.NeededFiles.{needed_name, needed_name_fault, needed_in, needed_fault_in, needed_fault, name_cost, plain_names, PassesNamesIn, PassesNames};
ghost use Rattle.new_needs.specs.NeededFiles as spec;

use abi_base::{Budget, Fault, FaultKind, INPUT_LIMIT, Limit, NoMemory, Refusal, text_at};
use elf::constants::{DT_NEEDED, DT_NULL, DYN_SIZE, SHT_DYNAMIC};
use elf::file::ElfFile;
use elf::symbols::{tag_at, value_at};
use std::alloc::Global;

// The number of entries before the first one with tag NULL.
fn used_entries(table: &[u8]) -> usize
    ensures numbers { range_with_len 0 result ≡ entry_numbers table.now }
    ensures inside { dyn_size * result ≤ length table.now }
{
    let count = table.len() / DYN_SIZE;
    for number in 0..count {
        if tag_at(table, number) == DT_NULL {
            return number;
        }
    }
    count
}

// The name at the entry with this number, if it has the tag NEEDED.
#[tactic(auto, unfolding(crate::specs::NeededFiles::needed_name, crate::specs::NeededFiles::needed_name_fault))]
fn name_at<'a>(table: &[u8], strings: &'a [u8], number: usize) -> Result<Option<&'a [u8]>, Fault>
    requires { dyn_size * (number + 1) ≤ length table.now }
    ensures judged { Settles result (needed_name_fault table.now strings.now number) }
    ensures read { IfOk result (λ name. option_copied name ≡ needed_name table.now strings.now number) }
{
    if tag_at(table, number) != DT_NEEDED {
        return Ok(None);
    }
    match text_at(strings, value_at(table, number)) {
        Some(name) => Ok(Some(name)),
        None => Err(Fault {
            kind: FaultKind::DynamicTable,
            at: number as u64,
        }),
    }
}

// How many bytes an entry and its name have.
fn cost_of(name: Option<&[u8]>) -> usize
    ensures { result ≡ name_cost (option_copied name.entry) }
{
    match name {
        Some(name) => DYN_SIZE + name.len(),
        None => DYN_SIZE,
    }
}

// Keeps the name of an entry behind those before it, as long as the budget allows its bytes.
fn keep<'a>(
    names: &mut Vec<&'a [u8]>,
    name: Option<&'a [u8]>,
    budget: &mut Budget,
) -> Result<(), NoMemory>
    ensures kept { OnOk result (plain_names names.new.items
        ≡ plain_names names.old.items ++ option_to_list (option_copied name.entry)) }
    ensures taken { OnOk result (budget.new ≡ with_taken budget.old (name_cost (option_copied name.entry))) }
    ensures within { OnOk result (budget.old.taken + name_cost (option_copied name.entry) ≤ budget.old.most) }
    ensures past { IfErr result (λ e. OnLimit e (λ l. (l ≡ budget.old.limit)
        × (budget.old.most < budget.old.taken + name_cost (option_copied name.entry)))) }
{
    budget.take(cost_of(name))?;
    if let Some(name) = name {
        names.push(name)?;
    }
    Ok(())
}

// The names in a dynamic table, or the fault of the first one without an end. Entries can share long names: where these count more
// than the limit allows, the answer is `Past`.
fn names_in<'a>(alloc: Global, table: &[u8], strings: &'a [u8]) -> Result<Vec<&'a [u8]>, Refusal>
    requires table { length table.now ≤ input_limit }
    requires strings { length strings.now ≤ input_limit }
    ensures judged { Judges result (needed_fault_in table.now strings.now) }
    ensures read { IfOk result (λ names. plain_names names.items ≡ needed_in table.now strings.now) }
    ensures past { IfErr result (λ e. OnPast e (PassesNamesIn table.now strings.now)) }
{
    let count = used_entries(table);
    let mut names = Vec::new(alloc);
    let mut budget = Budget::of(Limit::NeededFiles, table.len() + strings.len());
    for number in 0..count {
        let name = name_at(table, strings, number)?;
        keep(&mut names, name, &mut budget)?;
    }
    Ok(names)
}

/// The names of the files that a file needs, in the order of their entries in the dynamic table, as often as it has them; none where
/// it has no dynamic table. Err is the fault `DynamicTable` at the first entry whose name has no end, or `Past`.
#[tactic(auto, unfolding(crate::specs::NeededFiles::needed_files, crate::specs::NeededFiles::needed_fault, crate::specs::NeededFiles::PassesNames))]
pub fn needed_files<'a>(alloc: Global, file: &ElfFile<'a>) -> Result<Vec<&'a [u8]>, Refusal>
    ensures judged { Judges result (needed_fault file.now) }
    ensures read { IfOk result (λ names. plain_names names.items ≡ spec.needed_files file.now) }
    ensures past { IfErr result (λ e. OnPast e (PassesNames file.now)) }
{
    match file.section_of_kind(SHT_DYNAMIC) {
        None => names_in(alloc, &[], &[]),
        Some(section) => match file.strings(section.link) {
            None => names_in(alloc, section.bytes, &[]),
            Some(strings) => names_in(alloc, section.bytes, strings),
        },
    }
}
