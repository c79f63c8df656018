// Attribute values, form by form.
ghost use Rattle.std.specs.Prelude.{◌≡◌, ◌≤◌, ◌+◌, ◌<◌, ℕ, ℤ, List, Ok, length, take, IfOk, IfSome};
ghost use Rattle.abi_base.specs.declared.fault.FaultKind.TheVariants as kind;
ghost use Rattle.dwarf_forms.specs.Values.{value_at, direct_at, indirect_at, shape_of, fixed_size_of, fixed_end_of, place_after, fault};

use crate::abbreviations::Spec;
use crate::meaning::Meaning;
use crate::source::Source;
use crate::values::Value;
use abi_base::dwarf::*;
use abi_base::{Fault, FaultKind, uleb};

fn unknown(entry: u64) -> Fault
    ensures { result ≡ fault kind.Form entry }
{
    Fault {
        kind: FaultKind::Form,
        at: entry,
    }
}

fn supplementary(entry: u64) -> Fault
    ensures { result ≡ fault kind.Supplementary entry }
{
    Fault {
        kind: FaultKind::Supplementary,
        at: entry,
    }
}

// The value of a form other than `DW_FORM_indirect`.
#[tactic(auto, unfolding(crate::specs::Values::shape_of, crate::specs::Values::forms))]
fn direct(form: u64, implicit: i64, source: &Source, at: usize) -> Result<(Value, usize), Fault>
    ensures read { result ≡ direct_at form implicit source.now.unit_start source.now.entry source.now.unit.now at }
    ensures after { IfOk result (λ r. at ≤ r.1) }
    ensures inside { IfOk result (λ r. at ≤ length source.now.unit.now → r.1 ≤ length source.now.unit.now) }
{
    match form {
        DW_FORM_addr => source.fixed(8, Meaning::Address, at),
        DW_FORM_block2 => source.block(2, at),
        DW_FORM_block4 => source.block(4, at),
        DW_FORM_data2 => source.fixed(2, Meaning::Unsigned, at),
        DW_FORM_data4 => source.fixed(4, Meaning::Unsigned, at),
        DW_FORM_data8 => source.fixed(8, Meaning::Unsigned, at),
        DW_FORM_string => source.inline(at),
        DW_FORM_block | DW_FORM_exprloc => source.uleb_block(at),
        DW_FORM_block1 => source.block(1, at),
        DW_FORM_data1 => source.fixed(1, Meaning::Unsigned, at),
        DW_FORM_flag => source.fixed(1, Meaning::Flag, at),
        DW_FORM_sdata => source.sleb(at),
        DW_FORM_strp => source.fixed(4, Meaning::StrOffset, at),
        DW_FORM_udata => source.uleb(Meaning::Unsigned, at),
        DW_FORM_ref_addr => source.fixed(4, Meaning::Reference, at),
        DW_FORM_ref1 => source.fixed(1, Meaning::LocalReference, at),
        DW_FORM_ref2 => source.fixed(2, Meaning::LocalReference, at),
        DW_FORM_ref4 => source.fixed(4, Meaning::LocalReference, at),
        DW_FORM_ref8 => source.fixed(8, Meaning::LocalReference, at),
        DW_FORM_ref_udata => source.uleb(Meaning::LocalReference, at),
        DW_FORM_sec_offset => source.fixed(4, Meaning::SectionOffset, at),
        DW_FORM_flag_present => Ok((Value::Flag(true), at)),
        DW_FORM_strx => source.uleb(Meaning::StrIndex, at),
        DW_FORM_addrx => source.uleb(Meaning::AddressIndex, at),
        DW_FORM_data16 => source.wide(at),
        DW_FORM_line_strp => source.fixed(4, Meaning::LineOffset, at),
        DW_FORM_ref_sig8 => source.fixed(8, Meaning::Signature, at),
        DW_FORM_implicit_const => Ok((Value::Signed(implicit), at)),
        DW_FORM_loclistx => source.uleb(Meaning::LocationIndex, at),
        DW_FORM_rnglistx => source.uleb(Meaning::RangeIndex, at),
        DW_FORM_strx1 => source.fixed(1, Meaning::StrIndex, at),
        DW_FORM_strx2 => source.fixed(2, Meaning::StrIndex, at),
        DW_FORM_strx3 => source.fixed(3, Meaning::StrIndex, at),
        DW_FORM_strx4 => source.fixed(4, Meaning::StrIndex, at),
        DW_FORM_addrx1 => source.fixed(1, Meaning::AddressIndex, at),
        DW_FORM_addrx2 => source.fixed(2, Meaning::AddressIndex, at),
        DW_FORM_addrx3 => source.fixed(3, Meaning::AddressIndex, at),
        DW_FORM_addrx4 => source.fixed(4, Meaning::AddressIndex, at),
        DW_FORM_ref_sup4
        | DW_FORM_ref_sup8
        | DW_FORM_strp_sup
        | DW_FORM_GNU_ref_alt
        | DW_FORM_GNU_strp_alt => Err(supplementary(source.entry)),
        // This form only names another one, and has no value of its own. `indirect` handles it.
        DW_FORM_indirect => Err(unknown(source.entry)),
        _ => Err(unknown(source.entry)),
    }
}

// A value after its own form, which may be any except `DW_FORM_indirect` and `DW_FORM_implicit_const`.
#[tactic(auto, using(crate::proofs::FormLemmas::named_shape_is, crate::proofs::FormLemmas::shape_of_indirect, crate::proofs::FormLemmas::shape_of_implicit))]
fn indirect(implicit: i64, source: &Source, at: usize) -> Result<(Value, usize), Fault>
    ensures read { result ≡ indirect_at implicit source.now.unit_start source.now.entry source.now.unit.now at }
    ensures after { IfOk result (λ r. at ≤ r.1) }
    ensures inside { IfOk result (λ r. r.1 ≤ length source.now.unit.now) }
{
    match uleb(source.unit, at) {
        Some((DW_FORM_implicit_const, _)) => Err(unknown(source.entry)),
        Some((form, after)) => direct(form, implicit, source, after),
        None => Err(Fault {
            kind: FaultKind::Cut,
            at: source.entry,
        }),
    }
}

/// The extent of a unit in `.debug_info`.
#[derive(Clone, Copy, Debug, PartialEq, Eq)]
pub struct UnitSpan {
    /// The offset of its first byte.
    pub start: u64,
    /// The offset after its last byte.
    pub end: u64,
}

// Inlined because the result is large: copying it would cost a reader of all entries a third of its time.
/// The value of an attribute of an entry, at an offset in `.debug_info`, and the offset after it (DWARF 5, section 7.5.6 "Form
/// Encodings"). `spec` is the attribute specification in the abbreviation. Local references count from the start of the entry's
/// unit. The value has to end in the unit. The faults, each at the entry, are: `Form` where the form is unknown, or where
/// `DW_FORM_indirect` is followed by itself or by `DW_FORM_implicit_const`; `Supplementary` where the form refers to another file;
/// `Cut` where the value does not end in the unit or has a number of more than 64 bits.
#[inline(always)]
pub fn value(
    bytes: &[u8],
    unit: UnitSpan,
    entry: u64,
    spec: Spec,
    at: usize,
) -> Result<(Value, usize), Fault>
    requires { unit.end ≤ length bytes.now }
    ensures read { result ≡ value_at spec.form spec.implicit unit.start unit.end entry bytes.now at }
    ensures after { IfOk result (λ r. at ≤ r.1) }
    ensures inside { IfOk result (λ r. at ≤ unit.end → r.1 ≤ unit.end) }
{
    let source = Source {
        unit: &bytes[..unit.end as usize],
        unit_start: unit.start,
        entry,
    };
    if spec.form == DW_FORM_indirect {
        indirect(spec.implicit, &source, at)
    } else {
        direct(spec.form, spec.implicit, &source, at)
    }
}

/// The size of the values of a form in bytes, if all have the same size.
#[inline(always)]
#[tactic(auto, unfolding(crate::specs::Values::shape_of, crate::specs::Values::forms))]
pub fn fixed_size(form: u64) -> Option<u16>
    ensures { result ≡ fixed_size_of (shape_of form) }
{
    match form {
        DW_FORM_flag_present | DW_FORM_implicit_const => Some(0),
        DW_FORM_data1 | DW_FORM_flag | DW_FORM_ref1 | DW_FORM_strx1 | DW_FORM_addrx1 => Some(1),
        DW_FORM_data2 | DW_FORM_ref2 | DW_FORM_strx2 | DW_FORM_addrx2 => Some(2),
        DW_FORM_strx3 | DW_FORM_addrx3 => Some(3),
        DW_FORM_data4 | DW_FORM_strp | DW_FORM_ref_addr | DW_FORM_ref4 => Some(4),
        DW_FORM_sec_offset | DW_FORM_line_strp | DW_FORM_strx4 | DW_FORM_addrx4 => Some(4),
        DW_FORM_addr | DW_FORM_data8 | DW_FORM_ref8 | DW_FORM_ref_sig8 => Some(8),
        DW_FORM_data16 => Some(16),
        DW_FORM_block1 | DW_FORM_block2 | DW_FORM_block4 | DW_FORM_block | DW_FORM_exprloc => None,
        DW_FORM_sdata | DW_FORM_udata | DW_FORM_ref_udata | DW_FORM_strx | DW_FORM_addrx => None,
        DW_FORM_loclistx | DW_FORM_rnglistx | DW_FORM_string | DW_FORM_indirect => None,
        DW_FORM_ref_sup4 | DW_FORM_ref_sup8 | DW_FORM_strp_sup => None,
        DW_FORM_GNU_ref_alt | DW_FORM_GNU_strp_alt => None,
        _ => None,
    }
}

/// The offset after a value of a form with a fixed size, so that a reader can skip the value without reading it. None where values
/// of the form differ in size, and where the value does not end in the unit.
#[inline(always)]
#[tactic(auto, using(crate::proofs::FormLemmas::fixed_ends))]
pub fn fixed_end(form: u64, unit_end: u64, at: usize) -> Option<usize>
    ensures exact { result ≡ fixed_end_of (fixed_size_of (shape_of form)) unit_end at }
    ensures end { IfSome result (λ end. (implicit : ℤ) (unit_start entry : ℕ) (bytes : List ℕ)
        → unit_end ≤ length bytes → place_after (value_at form implicit unit_start unit_end entry bytes at)
        ≡ Ok end) }
    ensures after { IfSome result (λ end. at ≤ end) }
    ensures inside { IfSome result (λ end. at ≤ unit_end → end ≤ unit_end) }
{
    match fixed_size(form) {
        Some(size) => {
            if unit_end.saturating_sub(at as u64) >= u64::from(size) {
                Some(at + usize::from(size))
            } else {
                None
            }
        }
        None => None,
    }
}

// The offset after what was read.
#[inline(always)]
fn after(read: Result<(Value, usize), Fault>) -> Result<usize, Fault>
    ensures { result ≡ place_after read }
{
    match read {
        Ok((_, after)) => Ok(after),
        Err(fault) => Err(fault),
    }
}

/// The offset after the value of an attribute with this form, at an offset in `.debug_info`. Its faults are those of `value`. A
/// reader uses it to skip a value. The result does not depend on the constant in the abbreviation or on the start of the unit.
#[tactic(auto, using(crate::proofs::FormLemmas::after_is_same))]
pub fn value_end(
    form: u64,
    unit_end: u64,
    entry: u64,
    bytes: &[u8],
    at: usize,
) -> Result<usize, Fault>
    requires { unit_end ≤ length bytes.now }
    ensures read { (implicit : ℤ) (unit_start : ℕ)
        → result ≡ place_after (value_at form implicit unit_start unit_end entry bytes.now at) }
    ensures after { IfOk result (λ end. at ≤ end) }
    ensures inside { IfOk result (λ end. at ≤ unit_end → end ≤ unit_end) }
{
    let unit = UnitSpan {
        start: 0,
        end: unit_end,
    };
    let spec = Spec {
        attribute: 0,
        form,
        implicit: 0,
    };
    after(value(bytes, unit, entry, spec, at))
}
