// A version need, and one of its auxiliary entries.
ghost use Rattle.std.specs.Prelude.{◌≡◌, ◌≤◌, ◌+◌, ◌<◌, nat_lt, length, IfSome, is_none};
ghost use Rattle.abi_base.specs.Limits.{input_limit};
ghost use Rattle.elf_needs.specs.Needs.{place_of, entry_place, entry_of, is_malformed, is_bad_entry};
ghost use Rattle.elf_needs.specs.Plain.{IsNeed, plain_entry};

use crate::constants::{
    VER_NEED_CURRENT, VERNAUX_SIZE, VERNEED_SIZE, VN_AUX, VN_CNT, VN_FILE, VN_NEXT, VN_VERSION,
    VNA_NAME, VNA_NEXT, VNA_OTHER,
};
use crate::kept::Need;
use abi_base::{INPUT_LIMIT, text_at, u16_in, u32_in};
use elf::constants::VERSYM_HIDDEN;

/// A version need: its file, the number of its auxiliary entries, the offset of the first one, and the offset of the next need.
#[derive(Clone, Copy)]
pub struct Record<'a> {
    pub number: u32,
    pub file: &'a [u8],
    pub entries: u16,
    pub first: usize,
    pub next: usize,
}

/// An auxiliary entry: its index, its version with the need's file, and the offset of the next entry.
#[derive(Clone, Copy)]
pub struct Auxiliary<'a> {
    pub index: u16,
    pub need: Need<'a>,
    pub next: usize,
}

// Whether the bytes from `at` to `at + size` are not all inside the table.
fn is_outside(table: &[u8], at: usize, size: usize) -> bool
    ensures { result ≡ nat_lt (length table.now) (at + size) }
{
    at > table.len() || table.len() - at < size
}

/// The need with this number, at this offset. None exactly where it is malformed by itself.
#[tactic(auto, unfolding(crate::specs::Needs::place_of, crate::specs::Needs::file_at, crate::specs::Needs::entry_count, crate::specs::Needs::entry_place, crate::specs::Needs::is_malformed))]
pub fn need_in<'a>(
    table: &[u8],
    strings: &'a [u8],
    count: u32,
    number: u32,
    at: usize,
) -> Option<Record<'a>>
    requires place { at ≡ place_of table.now number }
    requires small { length table.now ≤ input_limit }
    ensures malformed { is_none result ≡ is_malformed table.now strings.now count number }
    ensures same { IfSome result (λ need. need.number ≡ number) }
    ensures read { IfSome result (λ need. IsNeed need table.now strings.now) }
{
    if is_outside(table, at, VERNEED_SIZE) {
        return None;
    }
    let next = u32_in(table, at + VN_NEXT);
    if u16_in(table, at + VN_VERSION) != VER_NEED_CURRENT
        || (u64::from(number) + 1 < u64::from(count) && next == 0)
    {
        return None;
    }
    match text_at(strings, u64::from(u32_in(table, at + VN_FILE))) {
        Some(file) => Some(Record {
            number,
            file,
            entries: u16_in(table, at + VN_CNT),
            first: at + u32_in(table, at + VN_AUX) as usize,
            next: at + next as usize,
        }),
        None => None,
    }
}

/// The auxiliary entry with this number in the list of a need, at this offset. None exactly where it is bad.
#[tactic(auto, unfolding(crate::specs::Needs::entry_place, crate::specs::Needs::index_at, crate::specs::Needs::version_at, crate::specs::Needs::entry_of, crate::specs::Needs::is_bad_entry))]
pub fn entry_in<'a>(
    table: &[u8],
    strings: &'a [u8],
    need: &Record<'a>,
    entry: u16,
    at: usize,
) -> Option<Auxiliary<'a>>
    requires place { at ≡ entry_place table.now need.now.number entry }
    requires of_need { IsNeed need.now table.now strings.now }
    requires small { length table.now ≤ input_limit }
    ensures bad { is_none result ≡ is_bad_entry table.now strings.now need.now.number entry }
    ensures read { IfSome result (λ a. plain_entry a ≡ entry_of table.now strings.now need.now.number entry) }
    ensures next { IfSome result (λ a. a.next ≡ entry_place table.now need.now.number (entry + 1)) }
{
    if is_outside(table, at, VERNAUX_SIZE) {
        return None;
    }
    let next = u32_in(table, at + VNA_NEXT);
    if u32::from(entry) + 1 < u32::from(need.entries) && next == 0 {
        return None;
    }
    let index = u16_in(table, at + VNA_OTHER) % VERSYM_HIDDEN;
    match text_at(strings, u64::from(u32_in(table, at + VNA_NAME))) {
        Some(version) => Some(Auxiliary {
            index,
            need: Need {
                version,
                file: need.file,
            },
            next: at + next as usize,
        }),
        None => None,
    }
}
