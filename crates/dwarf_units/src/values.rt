// The attribute values of an entry, and the offset after them.
ghost use Rattle.std.specs.Prelude.{◌≡◌, IfErr, Some};
ghost use Rattle.dwarf_forms.specs.abbreviations.Abbrevs.{abbrev_of};
ghost use Rattle.abi_base.specs.Outcome.{Gives, OnPast};
ghost use Rattle.dwarf_forms.specs.Values.{place_after, value_at};
ghost use Rattle.dwarf_units.specs.Plain.{plain_unit};
ghost use Rattle.dwarf_units.specs.Units.{values_at};

use crate::unit::Unit;
use abi_base::{Fault, List, Refusal};
use dwarf_forms::abbreviations::{Abbrev, AbbreviationCode, Spec};
use dwarf_forms::{UnitSpan, Value, fixed_end, value, value_end};
use std::alloc::Global;

// The value of one attribute of an entry.
fn value_in(unit: &Unit<'_>, spec: Spec, entry: u64, at: usize) -> Result<(Value, usize), Fault>
    ensures { result ≡ value_at spec.form spec.implicit unit.now.offset unit.now.end entry unit.now.info.now at }
{
    let span = UnitSpan {
        start: unit.offset.get(),
        end: unit.end.get(),
    };
    value(unit.info, span, entry, spec, at)
}

/// The attributes of an entry with their values, and the offset after them.
#[tactic(auto, using(crate::proofs::ValuesLoop::values_end))]
pub fn values_in(
    alloc: Global,
    unit: &Unit<'_>,
    entry: u64,
    specs: &[Spec],
    at: usize,
) -> Result<(List<(u64, Value)>, usize), Refusal>
    ensures read { Gives result (values_at (plain_unit unit.now) entry specs.now at) }
    ensures past { IfErr result (λ e. OnPast e (λ l. ⊥)) }
{
    let mut attributes = List::of(Vec::with_capacity(alloc, specs.len())?);
    let mut place = at;
    for spec in specs {
        match value_in(unit, *spec, entry, place) {
            Ok((found, after)) => {
                attributes.push((spec.attribute, found))?;
                place = after;
            }
            Err(fault) => return Err(Refusal::Fault(fault)),
        }
    }
    Ok((attributes, place))
}

// The offset after the values of an entry, which are skipped, or the fault of the first value that has one.
#[inline(never)]
#[tactic(auto, using(crate::proofs::ValuesLoop::passed_all))]
fn values_end(unit: &Unit<'_>, entry: u64, specs: &[Spec], at: usize) -> Result<usize, Fault>
    ensures { result ≡ place_after (values_at (plain_unit unit.now) entry specs.now at) }
{
    let mut place = at;
    for spec in specs {
        match fixed_end(spec.form, unit.end.get(), place) {
            Some(after) => place = after,
            None => match value_end(spec.form, unit.end.get(), entry, unit.info, place) {
                Ok(after) => place = after,
                Err(fault) => return Err(fault),
            },
        }
    }
    Ok(place)
}

/// The offset after the values of an entry with this code, which begin at `at` and are skipped, or the fault of the first value
/// that has one.
#[inline(always)]
pub fn entry_end(
    unit: &Unit<'_>,
    entry: u64,
    code: AbbreviationCode,
    form: &Abbrev,
    at: usize,
) -> Result<usize, Fault>
    requires { abbrev_of unit.now.table.value code ≡ Some form.now }
    ensures { result ≡ place_after (values_at (plain_unit unit.now) entry form.now.specs at) }
{
    match unit.table.size(code) {
        Some(size) if unit.end.get().saturating_sub(at as u64) >= u64::from(size) => {
            Ok(at + usize::from(size))
        }
        _ => values_end(unit, entry, form.specs.as_slice(), at),
    }
}
