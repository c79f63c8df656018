// The encodings of values: numbers, blocks and strings, read from the bytes up to the end of the unit. No encoding here
// involves the constant in the abbreviation, so the contracts pass 0 for it.
ghost use Rattle.std.specs.Prelude.{◌≡◌, ◌≤◌, ◌+◌, ◌<◌, length, pos, IfSome, IfOk, Err};
ghost use Rattle.abi_base.specs.Numbers.{number_at};
ghost use Rattle.abi_base.specs.declared.fault.FaultKind.TheVariants as kind;
ghost use Rattle.dwarf_forms.specs.Values.{fixed, of_uleb, of_sleb, sixteen_bytes, block_behind, block_behind_uleb, inline_text, means, spelled, fault};
ghost use Rattle.dwarf_forms.specs.Values as spec;

use crate::meaning::Meaning;
use crate::offsets::{DebugInfoOffset, DebugLineStrOffset, DebugStrOffset};
use crate::values::Value;
use abi_base::{Fault, FaultKind, sleb, text_at, u16_at, u32_at, u64_at, uint_at, uleb};

// A number of 16 bytes.
const WIDE_SIZE: usize = 16;

// The bytes from which an entry's values are read.
#[derive(Clone, Copy)]
pub(crate) struct Source<'a> {
    // `.debug_info` up to the end of the unit
    pub(crate) unit: &'a [u8],
    // the offset of the unit
    pub(crate) unit_start: u64,
    // the offset of the entry
    pub(crate) entry: u64,
}

// The number in the byte at an offset.
#[tactic(auto, using(crate::proofs::FormLemmas::number_one))]
fn u8_at(bytes: &[u8], at: usize) -> Option<u64>
    ensures { result ≡ number_at 1 bytes.now at }
{
    if at < bytes.len() {
        Some(u64::from(bytes[at]))
    } else {
        None
    }
}

// The number in `size` bytes at an offset. Sizes 1, 2, 4 and 8 are usual and are read in one piece.
#[inline(always)]
fn fixed_at(bytes: &[u8], at: usize, size: usize) -> Option<u64>
    requires some { 0 < size }
    requires few { size ≤ 8 }
    ensures found { result ≡ number_at size bytes.now at }
    ensures inside { IfSome result (λ _. at + size ≤ length bytes.now) }
{
    match size {
        1 => u8_at(bytes, at),
        2 => u16_at(bytes, at).map(u64::from),
        4 => u32_at(bytes, at).map(u64::from),
        8 => u64_at(bytes, at),
        _ => uint_at(bytes, at, size),
    }
}

// The value of a number with this meaning.
#[inline(always)]
fn meant(meaning: Meaning, unit_start: u64, number: u64) -> Value
    ensures { result ≡ means meaning unit_start number }
{
    match meaning {
        Meaning::Address => Value::Address(number),
        Meaning::AddressIndex => Value::AddressIndex(number),
        Meaning::Unsigned => Value::Unsigned(number),
        Meaning::StrOffset => Value::StrOffset(DebugStrOffset::new(number)),
        Meaning::LineOffset => Value::LineOffset(DebugLineStrOffset::new(number)),
        Meaning::StrIndex => Value::StrIndex(number),
        Meaning::Flag => Value::Flag(number != 0),
        Meaning::LocalReference => {
            Value::Reference(DebugInfoOffset::new(number.wrapping_add(unit_start)))
        }
        Meaning::Reference => Value::Reference(DebugInfoOffset::new(number)),
        Meaning::Signature => Value::Signature(number),
        Meaning::SectionOffset => Value::SectionOffset(number),
        Meaning::RangeIndex => Value::RangeIndex(number),
        Meaning::LocationIndex => Value::LocationIndex(number),
    }
}

impl<'a> Source<'a> {
    fn cut(&self) -> Fault
        ensures { result ≡ fault kind.Cut self.now.entry }
    {
        Fault {
            kind: FaultKind::Cut,
            at: self.entry,
        }
    }

    // A number of `size` bytes.
    #[inline(always)]
    pub(crate) fn fixed(
        &self,
        size: usize,
        meaning: Meaning,
        at: usize,
    ) -> Result<(Value, usize), Fault>
        requires some { 0 < size }
        requires few { size ≤ 8 }
        ensures read { result ≡ spelled (fixed size meaning)
            (pos 0) self.now.unit_start self.now.entry self.now.unit.now at }
        ensures after { IfOk result (λ r. at ≤ r.1) }
        ensures inside { IfOk result (λ r. r.1 ≤ length self.now.unit.now) }
    {
        match fixed_at(self.unit, at, size) {
            Some(number) => Ok((meant(meaning, self.unit_start, number), at + size)),
            None => Err(self.cut()),
        }
    }

    // An unsigned LEB128 number.
    pub(crate) fn uleb(&self, meaning: Meaning, at: usize) -> Result<(Value, usize), Fault>
        ensures read { result ≡ spelled (of_uleb meaning)
            (pos 0) self.now.unit_start self.now.entry self.now.unit.now at }
        ensures after { IfOk result (λ r. at ≤ r.1) }
        ensures inside { IfOk result (λ r. r.1 ≤ length self.now.unit.now) }
    {
        match uleb(self.unit, at) {
            Some((number, after)) => Ok((meant(meaning, self.unit_start, number), after)),
            None => Err(self.cut()),
        }
    }

    // A signed LEB128 number.
    pub(crate) fn sleb(&self, at: usize) -> Result<(Value, usize), Fault>
        ensures read { result ≡ spelled of_sleb (pos 0) self.now.unit_start self.now.entry self.now.unit.now at }
        ensures after { IfOk result (λ r. at ≤ r.1) }
        ensures inside { IfOk result (λ r. r.1 ≤ length self.now.unit.now) }
    {
        match sleb(self.unit, at) {
            Some((number, after)) => Ok((Value::Signed(number), after)),
            None => Err(self.cut()),
        }
    }

    // Sixteen bytes.
    pub(crate) fn wide(&self, at: usize) -> Result<(Value, usize), Fault>
        ensures read { result ≡ spelled sixteen_bytes (pos 0) self.now.unit_start self.now.entry self.now.unit.now at }
        ensures after { IfOk result (λ r. at ≤ r.1) }
        ensures inside { IfOk result (λ r. r.1 ≤ length self.now.unit.now) }
    {
        if at <= self.unit.len() && self.unit.len() - at >= WIDE_SIZE {
            Ok((Value::Wide { from: at as u64 }, at + WIDE_SIZE))
        } else {
            Err(self.cut())
        }
    }

    // A block of `len` bytes.
    fn bytes(&self, from: usize, len: u64) -> Result<(Value, usize), Fault>
        requires { from ≤ length self.now.unit.now }
        ensures read { result ≡ spec.block self.now.unit.now from len (Err (fault kind.Cut self.now.entry)) }
        ensures after { IfOk result (λ r. from ≤ r.1) }
        ensures inside { IfOk result (λ r. r.1 ≤ length self.now.unit.now) }
    {
        if len > (self.unit.len() - from) as u64 {
            return Err(self.cut());
        }
        let to = from + len as usize;
        Ok((
            Value::Block {
                from: from as u64,
                to: to as u64,
            },
            to,
        ))
    }

    // A block after its length in `size` bytes.
    pub(crate) fn block(&self, size: usize, at: usize) -> Result<(Value, usize), Fault>
        requires some { 0 < size }
        requires few { size ≤ 8 }
        ensures read { result ≡ spelled (block_behind size)
            (pos 0) self.now.unit_start self.now.entry self.now.unit.now at }
        ensures after { IfOk result (λ r. at ≤ r.1) }
        ensures inside { IfOk result (λ r. r.1 ≤ length self.now.unit.now) }
    {
        match fixed_at(self.unit, at, size) {
            Some(len) => self.bytes(at + size, len),
            None => Err(self.cut()),
        }
    }

    // A block after its length as an unsigned LEB128.
    pub(crate) fn uleb_block(&self, at: usize) -> Result<(Value, usize), Fault>
        ensures read { result ≡ spelled block_behind_uleb
            (pos 0) self.now.unit_start self.now.entry self.now.unit.now at }
        ensures after { IfOk result (λ r. at ≤ r.1) }
        ensures inside { IfOk result (λ r. r.1 ≤ length self.now.unit.now) }
    {
        match uleb(self.unit, at) {
            Some((len, after)) => self.bytes(after, len),
            None => Err(self.cut()),
        }
    }

    // A string with its terminating 0 byte.
    pub(crate) fn inline(&self, at: usize) -> Result<(Value, usize), Fault>
        ensures read { result ≡ spelled inline_text (pos 0) self.now.unit_start self.now.entry self.now.unit.now at }
        ensures after { IfOk result (λ r. at ≤ r.1) }
        ensures inside { IfOk result (λ r. r.1 ≤ length self.now.unit.now) }
    {
        match text_at(self.unit, at as u64) {
            Some(text) => Ok((Value::Inline { from: at as u64 }, at + text.len() + 1)),
            None => Err(self.cut()),
        }
    }
}
