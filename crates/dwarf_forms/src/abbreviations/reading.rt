// Reads the abbreviation table at an offset.
ghost use Rattle.std.specs.Prelude.{◌≡◌, ◌≤◌, ◌<◌, ◌+◌, [], length, IfOk, IfErr, IfSome, IfNone, Ok, Some, slice_get, ◌==◌};
ghost use Rattle.std.specs.List.{list_any};
ghost use Rattle.std.specs.Option.{option_map};
ghost use Rattle.abi_base.specs.declared.fault.NoMemory.TheVariants.{Allocation};
ghost use Rattle.abi_base.specs.Outcome.{Judges, OnPast};
ghost use Rattle.abi_base.specs.Runs.{put_front};
ghost use Rattle.abi_base.specs.Leb.{uleb_at};
ghost use Rattle.dwarf_forms.specs.abbreviations.Abbrevs.{plain_pair, short_number_of, short_pair_at, spec_step, specs_at, specs_run, abbrev_step, table_run, children_of, implicit_at, ReadsAbbrev};

use crate::abbreviations::kept::Table;
use crate::abbreviations::{Abbrev, AbbreviationCode, ShortPair, Spec};
use crate::offsets::DebugAbbrevOffset;
use abi_base::dwarf::{DW_CHILDREN_no, DW_CHILDREN_yes, DW_FORM_implicit_const};
use abi_base::{Fault, FaultKind, List, NoMemory, Refusal, sleb, uleb};
use std::alloc::Global;

// A byte of this value or more continues a LEB128 number.
const MORE: u8 = 0x80;

// A capacity that suffices for most abbreviations.
const USUAL_PAIRS: usize = 8;

// The constant after a form in an abbreviation, and the offset after it.
fn implicit_in(bytes: &[u8], form: u64, at: usize) -> Option<(i64, usize)>
    requires { at ≤ length bytes.now }
    ensures found { result ≡ implicit_at bytes.now form at }
    ensures after { IfSome result (λ r. at ≤ r.1) }
    ensures inside { IfSome result (λ r. r.1 ≤ length bytes.now) }
{
    if form == DW_FORM_implicit_const {
        sleb(bytes, at)
    } else {
        Some((0, at))
    }
}

// The next attribute specification of any length, or the end of the list.
#[inline(never)]
#[tactic(auto, unfolding(crate::specs::abbreviations::Abbrevs::spec_step))]
fn spec_of_any_length(bytes: &[u8], at: usize) -> Result<(Spec, usize), Option<usize>>
    ensures found { result ≡ spec_step bytes.now at }
    ensures after { IfOk result (λ r. at < r.1) }
    ensures inside { IfOk result (λ r. r.1 ≤ length bytes.now) }
{
    let Some((attribute, after)) = uleb(bytes, at) else {
        return Err(None);
    };
    let Some((form, after)) = uleb(bytes, after) else {
        return Err(None);
    };
    if attribute == 0 && form == 0 {
        return Err(Some(after));
    }
    if attribute == 0 || form == 0 {
        return Err(None);
    }
    let Some((implicit, after)) = implicit_in(bytes, form, after) else {
        return Err(None);
    };
    Ok((
        Spec {
            attribute,
            form,
            implicit,
        },
        after,
    ))
}

// The number at an offset, if it has one byte and is not 0.
#[inline(always)]
fn short_number(bytes: &[u8], at: usize) -> Option<u8>
    ensures exact { result ≡ short_number_of (slice_get bytes.now at) }
    ensures found { IfSome result (λ n. uleb_at bytes.now at ≡ Some (n, at + 1)) }
    ensures some { IfSome result (λ n. 0 < n) }
    ensures inside { IfSome result (λ n. at < length bytes.now) }
{
    match bytes.get(at) {
        Some(byte) if 0 < *byte && *byte < MORE => Some(*byte),
        _ => None,
    }
}

/// The attribute specification at an offset in `.debug_abbrev`, if it has two bytes: one for each number, and no constant. The
/// next one begins two bytes on. None for longer ones, for one with a constant, and at the end of the list; `next_spec` reads
/// each of these.
#[inline(always)]
pub fn short_pair(bytes: &[u8], at: usize) -> Option<ShortPair>
    ensures exact { option_map (λ p. (p.attribute, p.form)) result ≡ short_pair_at bytes.now at }
    ensures found { IfSome result (λ p. specs_run bytes.now at
        ≡ put_front (plain_pair p.attribute p.form) (specs_run bytes.now (at + 2))) }
    ensures step { IfSome result (λ p. spec_step bytes.now at ≡ Ok (plain_pair p.attribute p.form, at + 2)) }
    ensures inside { IfSome result (λ p. at + 2 ≤ length bytes.now) }
{
    let Some(attribute) = short_number(bytes, at) else {
        return None;
    };
    let Some(form) = short_number(bytes, at + 1) else {
        return None;
    };
    if u64::from(form) == DW_FORM_implicit_const {
        return None;
    }
    Some(ShortPair { attribute, form })
}

// The next attribute specification, or the end of the list.
#[inline(always)]
fn spec_in(bytes: &[u8], at: usize) -> Result<(Spec, usize), Option<usize>>
    ensures found { result ≡ spec_step bytes.now at }
    ensures after { IfOk result (λ r. at < r.1) }
    ensures inside { IfOk result (λ r. r.1 ≤ length bytes.now) }
{
    // A fast path, since most specifications have two bytes.
    match short_pair(bytes, at) {
        Some(pair) => Ok((
            Spec {
                attribute: u64::from(pair.attribute),
                form: u64::from(pair.form),
                implicit: 0,
            },
            at + 2,
        )),
        None => spec_of_any_length(bytes, at),
    }
}

/// The attribute specification at an offset in `.debug_abbrev`, and the offset after it. None at the end of the list, and
/// where it cannot be read.
#[tactic(auto, using(crate::proofs::abbreviations_lemmas::AbbrevsLemmas::specs_front, crate::proofs::abbreviations_lemmas::AbbrevsLemmas::specs_over))]
pub fn next_spec(bytes: &[u8], at: usize) -> Option<(Spec, usize)>
    ensures found { IfSome result (λ r. specs_run bytes.now at ≡ put_front r.0 (specs_run bytes.now r.1)) }
    ensures end { IfNone result ((specs_run bytes.now at).items ≡ []) }
    ensures after { IfSome result (λ r. at < r.1) }
    ensures inside { IfSome result (λ r. r.1 ≤ length bytes.now) }
{
    match spec_in(bytes, at) {
        Ok((spec, after)) => Some((spec, after)),
        Err(_) => None,
    }
}

// The attribute specifications of an abbreviation and the offset after them, or None where they cannot be read.
#[tactic(auto, using(crate::proofs::abbreviations_lemmas::AbbrevsLemmas::specs_more, crate::proofs::abbreviations_lemmas::AbbrevsLemmas::specs_end))]
fn specs_in(alloc: Global, bytes: &[u8], at: usize) -> Result<Option<(List<Spec>, usize)>, NoMemory>
    ensures read { IfOk result (λ r. r ≡ specs_at bytes.now at) }
    ensures named { IfErr result (λ e. e ≡ Allocation) }
{
    let mut specs = List::of(Vec::with_capacity(alloc, USUAL_PAIRS)?);
    let mut place = at;
    loop {
        match spec_in(bytes, place) {
            Ok((spec, after)) => {
                specs.push(spec)?;
                place = after;
            }
            Err(Some(after)) => return Ok(Some((specs, after))),
            Err(None) => return Ok(None),
        }
    }
}

// The byte that says whether entries have children.
fn children_in(bytes: &[u8], at: usize) -> Option<bool>
    ensures { result ≡ children_of (slice_get bytes.now at) }
{
    match bytes.get(at).copied() {
        Some(DW_CHILDREN_no) => Some(false),
        Some(DW_CHILDREN_yes) => Some(true),
        _ => None,
    }
}

// Whether an earlier abbreviation has this code.
fn has_code(seen: &Table, code: u64) -> bool
    ensures { result ≡ list_any (λ a. a.code == code) seen.now }
{
    seen.find(AbbreviationCode::new(code)).is_some()
}

// The next abbreviation and the offset after it, or None at the table's end.
#[tactic(auto, unfolding(crate::specs::abbreviations::Abbrevs::abbrev_step))]
fn next_abbrev(
    alloc: Global,
    bytes: &[u8],
    at: usize,
    seen: &Table,
) -> Result<Option<(Abbrev, usize)>, Refusal>
    ensures read { ReadsAbbrev bytes.now at seen.now result }
    ensures past { IfErr result (λ e. OnPast e (λ l. ⊥)) }
{
    let fault = Refusal::Fault(Fault {
        kind: FaultKind::Abbrev,
        at: at as u64,
    });
    let Some((code, after)) = uleb(bytes, at) else {
        return Err(fault);
    };
    if code == 0 {
        return Ok(None);
    }
    if has_code(seen, code) {
        return Err(fault);
    }
    let Some((tag, after)) = uleb(bytes, after) else {
        return Err(fault);
    };
    let Some(children) = children_in(bytes, after) else {
        return Err(fault);
    };
    let specs_from = after + 1;
    let Some((specs, after)) = specs_in(alloc, bytes, specs_from)? else {
        return Err(fault);
    };
    Ok(Some((
        Abbrev {
            code: AbbreviationCode::new(code),
            tag,
            children,
            specs_from: DebugAbbrevOffset::new(specs_from as u64),
            specs,
        },
        after,
    )))
}

/// The abbreviation table at an offset in `.debug_abbrev`: its abbreviations up to the code 0 (DWARF 5, section 7.5.3
/// "Abbreviations Tables").
///
/// The fault `FaultKind::Abbrev` is at the first byte of the first abbreviation that is not whole: a number or a byte is cut off or
/// too large, the byte for children is neither 0 nor 1, only one number of a specification is 0, or an earlier abbreviation has its
/// code.
#[tactic(auto, using(crate::proofs::abbreviations_lemmas::AbbrevsLemmas::table_more, crate::proofs::abbreviations_lemmas::AbbrevsLemmas::table_end, crate::proofs::abbreviations_lemmas::AbbrevsLemmas::abbrev_after, crate::proofs::abbreviations_lemmas::AbbrevsLemmas::abbrev_is_new), unfolding(crate::specs::abbreviations::Abbrevs::table_run))]
pub fn table(alloc: Global, bytes: &[u8], at: DebugAbbrevOffset) -> Result<Table, Refusal>
    ensures judged { Judges result (table_run bytes.now at).end }
    ensures abbrevs { IfOk result (λ t. t ≡ (table_run bytes.now at).items) }
    ensures past { IfErr result (λ e. OnPast e (λ l. ⊥)) }
{
    let mut table = Table::new(alloc);
    let mut place = at.get() as usize;
    loop {
        match next_abbrev(alloc, bytes, place, &table) {
            Ok(Some((made, after))) => {
                table.push(alloc, made)?;
                place = after;
            }
            Ok(None) => return Ok(table),
            Err(refused) => return Err(refused),
        }
    }
}
