// The dynamic table and the soname.
ghost use Rattle.std.specs.Prelude.{◌≡◌, ◌<◌, ◌≤◌, ◌+◌, ◌*◌, ◌/◌, ◌%◌, Some, length, IfOk, IfSome, is_none, option_and_then};
ghost use Rattle.std.specs.Option.{option_copied};
ghost use Rattle.abi_base.specs.Outcome.{Settles};
ghost use Rattle.elf.specs.symbols.Dynamic.{tag_in, value_in, text_of_entry, soname_entry, soname_fault, soname_of, dynamic_fault};
ghost use Rattle.abi_base.specs.Elf.{dyn_size};

use crate::constants::{D_TAG, D_VAL, DT_NULL, DT_SONAME, DYN_SIZE, SHT_DYNAMIC};
use crate::file::ElfFile;
use crate::symbols::strings::strings_for;
use abi_base::{Fault, FaultKind, INPUT_LIMIT, text_at, u64_in};

/// The tag of the entry with this number in a dynamic table (System V gABI, "Dynamic Section").
#[tactic(auto, unfolding(crate::specs::symbols::Dynamic::tag_in))]
pub fn tag_at(table: &[u8], number: usize) -> u64
    requires { dyn_size * (number + 1) ≤ length table.now }
    ensures { result ≡ tag_in table.now number }
{
    u64_in(table, DYN_SIZE * number + D_TAG)
}

/// The value of the entry with this number in a dynamic table (System V gABI, "Dynamic Section").
#[tactic(auto, unfolding(crate::specs::symbols::Dynamic::value_in))]
pub fn value_at(table: &[u8], number: usize) -> u64
    requires { dyn_size * (number + 1) ≤ length table.now }
    ensures { result ≡ value_in table.now number }
{
    u64_in(table, DYN_SIZE * number + D_VAL)
}

// The number of the entry with tag SONAME.
fn soname_entry_in(table: &[u8]) -> Option<usize>
    ensures entry { result ≡ soname_entry table.now }
    ensures inside { IfSome result (λ i. dyn_size * (i + 1) ≤ length table.now) }
{
    for number in 0..table.len() / DYN_SIZE {
        let tag = tag_at(table, number);
        if tag == DT_NULL {
            return None;
        }
        if tag == DT_SONAME {
            return Some(number);
        }
    }
    None
}

/// The soname of a file, or None where it has no dynamic table or the table has no soname. Err is the first fault of kind
/// `DynamicTable`. Allocates nothing.
#[tactic(auto, unfolding(crate::specs::symbols::Dynamic::dynamic_fault, crate::specs::symbols::Dynamic::soname_of))]
pub fn soname<'a>(file: &ElfFile<'a>) -> Result<Option<&'a [u8]>, Fault>
    ensures judged { Settles result (dynamic_fault file.now) }
    ensures read { IfOk result (λ name. option_copied name ≡ soname_of file.now) }
{
    match file.section_of_kind(SHT_DYNAMIC) {
        None => Ok(None),
        Some(section) => match strings_for(file, section, DYN_SIZE) {
            None => Err(Fault {
                kind: FaultKind::DynamicTable,
                at: 0,
            }),
            Some(strings) => soname_in(section.bytes, strings),
        },
    }
}

// The soname in a dynamic table, or the fault of its offset in the string table.
#[tactic(auto, unfolding(crate::specs::symbols::Dynamic::soname_fault))]
fn soname_in<'a>(table: &[u8], strings: &'a [u8]) -> Result<Option<&'a [u8]>, Fault>
    ensures judged { Settles result (option_and_then (soname_fault table.now strings.now) (soname_entry table.now)) }
    ensures read { IfOk result (λ name. option_copied name
        ≡ option_and_then (text_of_entry table.now strings.now) (soname_entry table.now)) }
{
    match soname_entry_in(table) {
        None => Ok(None),
        Some(entry) => match text_at(strings, value_at(table, entry)) {
            Some(name) => Ok(Some(name)),
            None => Err(Fault {
                kind: FaultKind::DynamicTable,
                at: entry as u64,
            }),
        },
    }
}
