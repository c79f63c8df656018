// Tokens: entries, and the ends of sibling lists.
ghost use Rattle.std.specs.Prelude.{◌≡◌, ◌≤◌, ◌<◌, ◌-◌, ◌==◌, find, IfSome, Ok, Some, None};
ghost use Rattle.std.specs.Option.{option_copied};
ghost use Rattle.abi_base.specs.declared.fault.FaultKind.TheVariants as kind;
ghost use Rattle.abi_base.specs.declared.fault.Refusal.TheVariants as refusal;
ghost use Rattle.dwarf_forms.specs.Values.{fault};
ghost use Rattle.dwarf_units.specs.Plain.{IsToken, plain_unit};
ghost use Rattle.dwarf_units.specs.Units.{attribute_of, entry_at, is_language, is_root_tag, language_fits, open_lists, token_at};

use crate::constants::DWARF_4;
use crate::outline::Outline;
use crate::unit::Unit;
use crate::values::entry_end;
use abi_base::dwarf::{
    DW_AT_language, DW_LANG_C, DW_LANG_C11, DW_LANG_C17, DW_LANG_C89, DW_LANG_C99,
    DW_LANG_Mips_Assembler, DW_TAG_compile_unit, DW_TAG_partial_unit, DW_TAG_type_unit,
};
use abi_base::{Fault, FaultKind, Refusal, uleb};
use dwarf_forms::abbreviations::AbbreviationCode;
use dwarf_forms::{DebugInfoOffset, Value};
use std::alloc::Global;

/// An entry, the end of a list of siblings, or the unit's end, with the offset after it and the number of open sibling lists.
#[derive(Drop)]
pub enum Token<'u, 'a> {
    Given {
        entry: Outline<'u, 'a>,
        at: usize,
        lists: u32,
    },
    Closed {
        at: usize,
        lists: u32,
    },
    End,
}

fn cut(at: usize) -> Refusal
    ensures { result ≡ refusal.Fault (fault kind.Cut at) }
{
    Refusal::Fault(Fault {
        kind: FaultKind::Cut,
        at: at as u64,
    })
}

fn tree(at: usize) -> Refusal
    ensures { result ≡ refusal.Fault (fault kind.Tree at) }
{
    Refusal::Fault(Fault {
        kind: FaultKind::Tree,
        at: at as u64,
    })
}

/// The entry that begins with a code, whether it has children, and the offset after it.
#[inline(always)]
#[tactic(auto, unfolding(crate::specs::Units::entry_at))]
pub fn entry_in<'u, 'a>(
    unit: &'u Unit<'a>,
    at: usize,
    depth: u32,
    code: AbbreviationCode,
    after: usize,
) -> Result<(Outline<'u, 'a>, (bool, usize)), Fault>
    ensures { result ≡ entry_at (plain_unit unit.now) at depth (code, after) }
{
    let Some(form) = unit.table.find(code) else {
        return Err(Fault {
            kind: FaultKind::AbbrevCode,
            at: at as u64,
        });
    };
    match entry_end(unit, at as u64, code, form, after) {
        Ok(end) => Ok((
            Outline {
                unit,
                form,
                offset: DebugInfoOffset::new(at as u64),
                depth,
                values: after,
            },
            (form.children, end),
        )),
        Err(fault) => Err(fault),
    }
}

// Whether the reader supports a language.
fn is_read(language: u64) -> bool
    ensures { result ≡ is_language language }
{
    matches!(
        language,
        DW_LANG_C89 | DW_LANG_C | DW_LANG_C99 | DW_LANG_C11 | DW_LANG_C17 | DW_LANG_Mips_Assembler
    )
}

fn found_in(attributes: &[(u64, Value)], name: u64) -> Option<&(u64, Value)>
    ensures { option_copied result ≡ find (λ a. a.0 == name) attributes.now }
{
    attributes.iter().find(|a| a.0 == name)
}

// The first value of an attribute.
fn attribute(attributes: &[(u64, Value)], name: u64) -> Option<Value>
    ensures { result ≡ attribute_of attributes.now name }
{
    match found_in(attributes, name) {
        Some(found) => Some(found.1),
        None => None,
    }
}

// Whether the reader supports a root with this language, or without one.
fn fits(language: Option<Value>) -> bool
    ensures { result ≡ language_fits language }
{
    match language {
        None => true,
        Some(Value::Unsigned(number)) => is_read(number),
        Some(Value::Signed(number)) => number >= 0 && is_read(number as u64),
        Some(_) => false,
    }
}

// Whether the root of a unit may have this tag.
fn has_root_tag(unit: &Unit<'_>, tag: u64) -> bool
    ensures { result ≡ is_root_tag (plain_unit unit.now) tag }
{
    if unit.version == DWARF_4 {
        return tag == DW_TAG_compile_unit || tag == DW_TAG_partial_unit;
    }
    let wanted = if unit.signature.is_some() {
        DW_TAG_type_unit
    } else if unit.partial {
        DW_TAG_partial_unit
    } else {
        DW_TAG_compile_unit
    };
    tag == wanted
}

// The root, at an offset before the unit's end. Reads the values to get the language.
#[inline(never)]
#[tactic(auto, unfolding(crate::specs::Units::token_at))]
fn root_in<'u, 'a>(alloc: Global, unit: &'u Unit<'a>, at: usize) -> Result<Token<'u, 'a>, Refusal>
    requires { at < unit.now.end }
    ensures { IsToken (plain_unit unit.now) (at, None) result }
{
    let Some((code, after)) = uleb(&unit.info[..unit.end.get() as usize], at) else {
        return Err(cut(at));
    };
    if code == 0 {
        return Err(tree(at));
    }
    match entry_in(unit, at, 0, AbbreviationCode::new(code), after) {
        Ok((entry, (children, after))) => {
            if !has_root_tag(unit, entry.tag()) {
                return Err(tree(at));
            }
            let whole = entry.entry(alloc)?;
            if !fits(attribute(whole.attributes.as_slice(), DW_AT_language)) {
                return Err(Refusal::Fault(Fault {
                    kind: FaultKind::Language,
                    at: at as u64,
                }));
            }
            Ok(Token::Given {
                entry,
                at: after,
                lists: if children { 1 } else { 0 },
            })
        }
        Err(fault) => Err(Refusal::Fault(fault)),
    }
}

// The token at an offset before the unit's end, with this many open sibling lists.
#[inline]
#[tactic(auto, unfolding(crate::specs::Units::token_at))]
fn inner_in<'u, 'a>(unit: &'u Unit<'a>, at: usize, lists: u32) -> Result<Token<'u, 'a>, Refusal>
    requires before { at < unit.now.end }
    requires some { 0 < lists }
    requires few { lists ≤ at }
    ensures { IsToken (plain_unit unit.now) (at, Some lists) result }
{
    let Some((code, after)) = uleb(&unit.info[..unit.end.get() as usize], at) else {
        return Err(cut(at));
    };
    if code == 0 {
        return Ok(Token::Closed {
            at: after,
            lists: lists - 1,
        });
    }
    match entry_in(unit, at, lists, AbbreviationCode::new(code), after) {
        Ok((entry, (children, after))) => Ok(Token::Given {
            entry,
            at: after,
            lists: if children { lists + 1 } else { lists },
        }),
        Err(fault) => Err(Refusal::Fault(fault)),
    }
}

/// The offset after the code 0 at an offset before the unit's end, which ends one of this many open sibling lists. None where no
/// list ends there.
#[inline(always)]
#[tactic(auto, unfolding(crate::specs::Units::token_at))]
pub fn end_in(unit: &Unit<'_>, at: usize, lists: u32) -> Option<usize>
    requires before { at < unit.now.end }
    requires some { 0 < lists }
    ensures ends { IfSome result (λ after. token_at (plain_unit unit.now) (at, Some lists)
        ≡ Ok (None, (after, Some (lists - 1)))) }
    ensures after { IfSome result (λ after. at < after) }
{
    let Some((code, after)) = uleb(&unit.info[..unit.end.get() as usize], at) else {
        return None;
    };
    if code == 0 { Some(after) } else { None }
}

/// The token at an offset, with this many open sibling lists, or None before the root. Allocates only at the root.
#[inline]
#[tactic(auto, unfolding(crate::specs::Units::token_at))]
pub fn token_in<'u, 'a>(
    alloc: Global,
    unit: &'u Unit<'a>,
    at: usize,
    lists: Option<u32>,
) -> Result<Token<'u, 'a>, Refusal>
    requires { open_lists lists ≤ at }
    ensures { IsToken (plain_unit unit.now) (at, lists) result }
{
    let inside = (at as u64) < unit.end.get();
    match lists {
        None => {
            if inside {
                root_in(alloc, unit, at)
            } else {
                Err(tree(at))
            }
        }
        Some(0) => {
            if !inside {
                Ok(Token::End)
            } else if unit.info[at] == 0 {
                Ok(Token::Closed {
                    at: at + 1,
                    lists: 0,
                })
            } else {
                Err(tree(at))
            }
        }
        Some(lists) => {
            if inside {
                inner_in(unit, at, lists)
            } else {
                Err(tree(at))
            }
        }
    }
}
