// The entries of range lists, one by one.
ghost use Rattle.std.specs.Prelude.{◌≡◌, ◌+◌, ◌-◌, ◌<◌, ◌≤◌, length, IfNone, IfOk, IfSome};
ghost use Rattle.abi_base.specs.declared.fault.FaultKind.TheVariants as kind;
ghost use Rattle.dwarf_forms.specs.Values.{fault};
ghost use Rattle.dwarf_text.specs.ranges.RangeLists.{field_at, fields_step, kind_step, list_step, pair_step, pair_means};
ghost use Rattle.dwarf_text.specs.ranges.RangeLists as spec;
ghost use Rattle.dwarf_text.specs.declared.ranges.layout.Field.TheVariants as the_field;
ghost use Rattle.dwarf_text.specs.ranges.EntrySteps.{seen_entry, seen_step};
ghost use Rattle.dwarf_text.specs.ranges.FirstBytes.{bytes_behind, list_bytes, pair_bytes};

use crate::ranges::constants::{BASE_SELECTION, DW_RLE_end_of_list};
use crate::ranges::layout::{Field, Layout, Role, layout_by_kind};
use abi_base::{Fault, FaultKind, table_address, u64_at, uint_at, uleb};
use dwarf_forms::DebugInfoOffset;

// The sizes in bytes of an entry kind and of an address.
const KIND_SIZE: usize = 1;

const ADDRESS_SIZE: usize = 8;

// The bytes of range lists and of the addresses that they use.
#[derive(Clone, Copy)]
pub(crate) struct Source<'a> {
    // `.debug_rnglists`, or `.debug_ranges`
    pub(crate) bytes: &'a [u8],
    // `.debug_addr`
    pub(crate) addr: &'a [u8],
    // the base of the unit's part of it
    pub(crate) addr_base: Option<u64>,
    // the offset of the debugging information entry with the list
    pub(crate) entry: DebugInfoOffset,
}

// An entry of a list: the start of its range, or None where it selects a base; then the base and the offset after it.
#[derive(Clone, Copy)]
pub(crate) struct Entry {
    pub(crate) start: Option<u64>,
    pub(crate) base: u64,
    pub(crate) after: usize,
}

// The meaning of an entry's first field.
fn meant(role: Role, base: u64, number: u64) -> (Option<u64>, u64)
    ensures { result ≡ spec.meant role base number }
{
    match role {
        Role::Base => (None, number),
        Role::Offset => (Some(base.wrapping_add(number)), base),
        Role::Start => (Some(number), base),
    }
}

impl<'a> Source<'a> {
    fn malformed(&self) -> Fault
        ensures { result ≡ fault kind.Ranges self.now.entry }
    {
        Fault {
            kind: FaultKind::Ranges,
            at: self.entry.get(),
        }
    }

    // The address with an index, which is an unsigned LEB128.
    fn indexed(&self, at: usize) -> Result<(u64, usize), Fault>
        ensures read { result ≡ field_at self.now.addr.now self.now.addr_base self.now.entry self.now.bytes.now
            the_field.Index at }
        ensures after { IfOk result (λ r. at ≤ r.1) }
        ensures inside { IfOk result (λ r. r.1 ≤ length self.now.bytes.now) }
    {
        match uleb(self.bytes, at) {
            Some((index, after)) => match table_address(self.addr, self.addr_base, index) {
                Some(address) => Ok((address, after)),
                None => Err(Fault {
                    kind: FaultKind::Index,
                    at: self.entry.get(),
                }),
            },
            None => Err(self.malformed()),
        }
    }

    // The number of a field.
    fn field(&self, field: Field, at: usize) -> Result<(u64, usize), Fault>
        requires { at ≤ length self.now.bytes.now }
        ensures read { result ≡ field_at self.now.addr.now self.now.addr_base self.now.entry self.now.bytes.now
            field at }
        ensures after { IfOk result (λ r. at ≤ r.1) }
        ensures inside { IfOk result (λ r. r.1 ≤ length self.now.bytes.now) }
    {
        match field {
            Field::Index => self.indexed(at),
            Field::Address => match u64_at(self.bytes, at) {
                Some(address) => Ok((address, at + ADDRESS_SIZE)),
                None => Err(self.malformed()),
            },
            Field::Number => match uleb(self.bytes, at) {
                Some(read) => Ok(read),
                None => Err(self.malformed()),
            },
            Field::Absent => Ok((0, at)),
        }
    }

    // The entry whose kind is the byte before `at`.
    fn fields(&self, layout: Layout, at: usize, base: u64) -> Result<Entry, Fault>
        requires { at ≤ length self.now.bytes.now }
        ensures read { seen_entry result ≡ fields_step self.now.addr.now self.now.addr_base self.now.entry
            self.now.bytes.now layout (at, base) }
        ensures after { IfOk result (λ e. at ≤ e.after) }
        ensures inside { IfOk result (λ e. e.after ≤ length self.now.bytes.now) }
    {
        let (number, second) = self.field(layout.first, at)?;
        let (_, after) = self.field(layout.second, second)?;
        let (start, base) = meant(layout.role, base, number);
        Ok(Entry { start, base, after })
    }

    // The entry with this kind, whose fields begin at `at`, or None where the list ends.
    #[tactic(auto, unfolding(crate::specs::ranges::RangeLists::kind_step))]
    fn entry_of_kind(&self, kind: u64, at: usize, base: u64) -> Result<Option<Entry>, Fault>
        requires { at ≤ length self.now.bytes.now }
        ensures read { seen_step result ≡ kind_step self.now.addr.now self.now.addr_base self.now.entry
            self.now.bytes.now kind (at, base) }
        ensures after { IfOk result (λ o. IfSome o (λ e. at ≤ e.after)) }
        ensures inside { IfOk result (λ o. IfSome o (λ e. e.after ≤ length self.now.bytes.now)) }
    {
        if kind == DW_RLE_end_of_list {
            return Ok(None);
        }
        match layout_by_kind(kind) {
            Some(layout) => match self.fields(layout, at, base) {
                Ok(entry) => Ok(Some(entry)),
                Err(fault) => Err(fault),
            },
            None => Err(self.malformed()),
        }
    }

    // The entry at an offset in `.debug_rnglists`, or None where the list ends.
    #[tactic(auto, unfolding(crate::specs::ranges::RangeLists::list_step))]
    pub(crate) fn list_entry(&self, at: usize, base: u64) -> Result<Option<Entry>, Fault>
        ensures read { seen_step result ≡ list_step self.now.addr.now self.now.addr_base self.now.entry
            self.now.bytes.now (at, base) }
        ensures after { IfOk result (λ o. IfSome o (λ e. at < e.after)) }
        ensures inside { IfOk result (λ o. IfSome o (λ e. e.after ≤ length self.now.bytes.now)) }
    {
        match uint_at(self.bytes, at, KIND_SIZE) {
            Some(kind) => self.entry_of_kind(kind, at + KIND_SIZE, base),
            None => Err(self.malformed()),
        }
    }

    // The pair at an offset in `.debug_ranges`, or None where the list ends.
    #[tactic(auto, unfolding(crate::specs::ranges::RangeLists::pair_step))]
    pub(crate) fn pair_entry(&self, at: usize, base: u64) -> Result<Option<Entry>, Fault>
        ensures read { seen_step result ≡ pair_step self.now.entry self.now.bytes.now (at, base) }
        ensures after { IfOk result (λ o. IfSome o (λ e. at < e.after)) }
        ensures inside { IfOk result (λ o. IfSome o (λ e. e.after ≤ length self.now.bytes.now)) }
    {
        let Some(first) = u64_at(self.bytes, at) else {
            return Err(self.malformed());
        };
        let Some(second) = u64_at(self.bytes, at + ADDRESS_SIZE) else {
            return Err(self.malformed());
        };
        let after = at + ADDRESS_SIZE + ADDRESS_SIZE;
        if first == 0 && second == 0 {
            Ok(None)
        } else if first == BASE_SELECTION {
            Ok(Some(Entry {
                start: None,
                base: second,
                after,
            }))
        } else {
            Ok(Some(Entry {
                start: Some(base.wrapping_add(first)),
                base,
                after,
            }))
        }
    }

    // The entry at an offset in `.debug_rnglists`, or None where the list ends or has a fault: how many bytes are read up to the
    // first range.
    pub(crate) fn sized_list(&self, at: usize) -> Option<Entry>
        ensures size { IfSome result (λ e. list_bytes self.now.addr.now self.now.addr_base self.now.entry
            self.now.bytes.now at ≡ (e.after - at)
            + bytes_behind (list_step self.now.addr.now self.now.addr_base self.now.entry self.now.bytes.now)
            (length self.now.bytes.now) e.start e.after) }
        ensures none { IfNone result (list_bytes self.now.addr.now self.now.addr_base self.now.entry
            self.now.bytes.now at ≡ 0) }
        ensures after { IfSome result (λ e. at < e.after) }
        ensures inside { IfSome result (λ e. e.after ≤ length self.now.bytes.now) }
    {
        match self.list_entry(at, 0) {
            Ok(entry) => entry,
            Err(_) => None,
        }
    }

    // The same of the pair at an offset in `.debug_ranges`.
    pub(crate) fn sized_pair(&self, at: usize) -> Option<Entry>
        ensures size { IfSome result (λ e. pair_bytes self.now.entry self.now.bytes.now at
            ≡ (e.after - at) + bytes_behind (pair_step self.now.entry self.now.bytes.now)
            (length self.now.bytes.now) e.start e.after) }
        ensures none { IfNone result (pair_bytes self.now.entry self.now.bytes.now at ≡ 0) }
        ensures after { IfSome result (λ e. at < e.after) }
        ensures inside { IfSome result (λ e. e.after ≤ length self.now.bytes.now) }
    {
        match self.pair_entry(at, 0) {
            Ok(entry) => entry,
            Err(_) => None,
        }
    }
}
