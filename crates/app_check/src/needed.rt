// The libraries that the dynamic table of a file lists as needed.
ghost use Rattle.std.specs.Prelude.{◌≡◌, ◌≤◌, ◌+◌, ◌*◌, false, length, slice_get, IfErr, IfOk, OnOk};
ghost use Rattle.std.specs.Option.{option_copied, option_map_or};
ghost use Rattle.abi_base.specs.Elf.{dyn_size};
ghost use Rattle.abi_base.specs.Limits.{input_limit};
ghost use Rattle.abi_base.specs.Numbers.{is_zero};
ghost use Rattle.abi_base.specs.Outcome.{OnLimit};
ghost use Rattle.app_check.specs.Links.{needed_cost, needs_in, Exceeds, PassesNeeded, PassesNeededIn, PassesSoname};
ghost use Rattle.app_check.specs.Links as spec;

use abi_base::{Budget, Limit, NoMemory, text_at};
use elf::constants::{DT_NEEDED, DT_NULL, DYN_SIZE, SHT_DYNAMIC};
use elf::file::ElfFile;
use elf::symbols::{tag_at, value_at};

// Whether the byte at an offset is 0.
fn is_zero_at(strings: &[u8], at: u64) -> bool
    ensures { result ≡ option_map_or is_zero (slice_get strings.now at) false }
{
    let at = at as usize;
    at < strings.len() && strings[at] == 0
}

// Whether a text of this length can end where it would, if it begins at this offset.
fn can_end(strings: &[u8], at: u64, length: usize) -> bool
    ensures { result ≡ option_map_or is_zero (slice_get strings.now (at + length)) false }
{
    match at.checked_add(length as u64) {
        Some(end) => is_zero_at(strings, end),
        None => false,
    }
}

// Whether this text is at an offset.
fn is_text_at(strings: &[u8], text: &[u8], at: u64) -> bool
    ensures { result ≡ spec.is_text_at strings.now text.now at }
{
    match text_at(strings, at) {
        Some(found) => found == text,
        None => false,
    }
}

// Whether this text is at an offset, found within a budget. The text is compared only where one of its length can end, and its bytes
// count: many entries may share one long name.
#[tactic(auto, using(crate::proofs::NeededFiles::ends_behind))]
fn is_text_within(
    strings: &[u8],
    text: &[u8],
    at: u64,
    budget: &mut Budget,
) -> Result<bool, NoMemory>
    ensures told { IfOk result (λ is. is ≡ spec.is_text_at strings.now text.now at) }
    ensures limit { OnOk result (budget.new.limit ≡ budget.old.limit) }
    ensures most { OnOk result (budget.new.most ≡ budget.old.most) }
    ensures taken { OnOk result (budget.new.taken ≤ budget.old.taken + length text.now) }
    ensures past { IfErr result (λ e. OnLimit e (Exceeds budget.old (length text.now))) }
{
    if !can_end(strings, at, text.len()) {
        return Ok(false);
    }
    budget.take(text.len())?;
    Ok(is_text_at(strings, text, at))
}

// Whether the entry with this number names a library as needed.
fn needs_at(
    table: &[u8],
    strings: &[u8],
    library: &[u8],
    number: usize,
    budget: &mut Budget,
) -> Result<bool, NoMemory>
    requires { dyn_size * (number + 1) ≤ length table.now }
    ensures told { IfOk result (λ is. is ≡ needs_in table.now strings.now library.now number) }
    ensures limit { OnOk result (budget.new.limit ≡ budget.old.limit) }
    ensures most { OnOk result (budget.new.most ≡ budget.old.most) }
    ensures taken { OnOk result (budget.new.taken ≤ budget.old.taken + needed_cost table.now library.now number) }
    ensures past { IfErr result (λ e. OnLimit e (Exceeds budget.old (needed_cost table.now library.now number))) }
{
    if tag_at(table, number) != DT_NEEDED {
        return Ok(false);
    }
    is_text_within(strings, library, value_at(table, number), budget)
}

// Whether a dynamic table lists a library as needed.
fn lists_in(table: &[u8], strings: &[u8], library: &[u8]) -> Result<bool, NoMemory>
    requires few { length table.now ≤ input_limit }
    requires short { length strings.now ≤ input_limit }
    ensures told { IfOk result (λ is. is ≡ spec.lists_in table.now strings.now library.now) }
    ensures past { IfErr result (λ e. OnLimit e (PassesNeededIn table.now strings.now library.now)) }
{
    let mut budget = Budget::of(Limit::NeededFiles, table.len() + strings.len());
    for number in 0..table.len() / DYN_SIZE {
        if tag_at(table, number) == DT_NULL {
            return Ok(false);
        }
        if needs_at(table, strings, library, number, &mut budget)? {
            return Ok(true);
        }
    }
    Ok(false)
}

// Whether the dynamic table of a file lists this library as needed.
fn lists(file: &ElfFile, library: &[u8]) -> Result<bool, NoMemory>
    ensures told { IfOk result (λ is. is ≡ spec.lists file.now library.now) }
    ensures past { IfErr result (λ e. OnLimit e (PassesNeeded file.now library.now)) }
{
    match file.section_of_kind(SHT_DYNAMIC) {
        Some(section) => {
            let strings = file.strings(section.link).unwrap_or(&[]);
            lists_in(section.bytes, strings, library)
        }
        None => Ok(false),
    }
}

/// Whether the dynamic table of a file lists the library with this soname as needed. It lists no library without one.
pub(crate) fn lists_soname(file: &ElfFile, soname: Option<&[u8]>) -> Result<bool, NoMemory>
    ensures told { IfOk result (λ is. is ≡ spec.lists_soname file.now (option_copied soname.entry)) }
    ensures past { IfErr result (λ e. OnLimit e (PassesSoname file.now (option_copied soname.entry))) }
{
    match soname {
        Some(soname) => lists(file, soname),
        None => Ok(false),
    }
}
