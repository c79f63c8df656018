// The entries of a unit, one at a time.
ghost use Rattle.std.specs.Prelude.{◌≡◌, ◌≤◌, ◌<◌, ◌||◌, ◌&&◌, not, is_some, Bool, IfErr, IfSome, Ok, Some};
ghost use Rattle.abi_base.specs.Outcome.{OnPast, fault_if};
ghost use Rattle.abi_base.specs.Runs.{NextIs};
ghost use Rattle.abi_base.specs.declared.fault.FaultKind.TheVariants as kind;
ghost use Rattle.dwarf_units.specs.Following.{ComesTo, FirstIs, IsNext};
ghost use Rattle.dwarf_units.specs.Limits.{PassesLeft, TakesNext, attribute_cost};
ghost use Rattle.dwarf_units.specs.Plain.{plain_unit};
ghost use Rattle.dwarf_units.specs.Units.{entries_left, open_lists, token_at};
ghost use Rattle.dwarf_units.specs.Units as spec;

use crate::outline::Outline;
use crate::tokens::{Token, end_in, entry_in, token_in};
use crate::unit::Unit;
use abi_base::{Budget, Fault, FaultKind, Refusal, uleb};
use dwarf_forms::abbreviations::AbbreviationCode;
use dwarf_forms::laws::reading_moves_on_inside_the_unit;
use std::alloc::Global;
use std::marker::Model;

/// The remaining entries of a unit. Contracts see them as a list with the fault at its end, if there is one.
#[derive(Drop)]
pub struct Entries<'u, 'a> {
    pub(crate) unit: &'u Unit<'a>,
    pub(crate) at: usize,
    // The number of open sibling lists, or None before the root.
    pub(crate) lists: Option<u32>,
    // Whether the reader has given the entry at the unit's type offset.
    pub(crate) met: bool,
}

impl<'u, 'a> Model for Entries<'u, 'a> {
    ghost use Rattle.std.specs.Prelude.{Option, ◌≤◌};
    ghost use Rattle.abi_base.specs.declared.fault.Fault.{Fault};
    ghost use Rattle.abi_base.specs.Runs.{Run};
    ghost use Rattle.dwarf_units.specs.declared.entry.Entry.{Entry};
    ghost use Rattle.dwarf_units.specs.Units.{entries_left, open_lists, token_at};
    ghost use Rattle.dwarf_units.specs.Plain.{plain_unit};

    ghost Value = { Run Entry (Option Fault) };

    ghost view = { λ r. entries_left (plain_unit r.unit.now) (r.at, r.lists) r.met };

    ghost invariant = { λ r. open_lists r.lists ≤ r.at };
}

// Whether an entry is at the unit's type offset, or an earlier entry was.
#[inline]
fn is_met(unit: &Unit<'_>, met: bool, entry: &Outline<'_, '_>) -> bool
    ensures { result ≡ (met || spec.is_type_entry (plain_unit unit.now) entry.now) }
{
    met || entry.offset() == unit.type_entry
}

// The fault of a type unit without an entry at its type offset.
fn unmet(unit: &Unit<'_>, met: bool) -> Option<Fault>
    ensures { result ≡ fault_if (is_some unit.now.signature && not met) kind.TypeOffset unit.now.offset }
{
    if unit.signature.is_some() && !met {
        Some(Fault {
            kind: FaultKind::TypeOffset,
            at: unit.offset.get(),
        })
    } else {
        None
    }
}

/// An entry, the offset after it, and the number of open sibling lists there.
#[derive(Drop)]
pub struct Following<'u, 'a> {
    pub entry: Outline<'u, 'a>,
    pub at: usize,
    pub lists: u32,
}

// The offset after the ends of lists at an offset, and the number of sibling lists that are open there.
#[inline(always)]
#[tactic(auto, using(crate::proofs::EntriesLeft::left_pass, crate::proofs::TokenLaws::token_moves))]
fn pass_ends(unit: &Unit<'_>, from: usize, nested: u32) -> (usize, u32)
    requires { nested ≤ from }
    ensures few { result.1 ≤ result.0 }
    ensures same { (met : Bool) → entries_left (plain_unit unit.now) (from, Some nested) met
        ≡ entries_left (plain_unit unit.now) (result.0, Some result.1) met }
{
    reading_moves_on_inside_the_unit();
    let mut at = from;
    let mut lists = nested;
    'ends: while lists > 0 && (at as u64) < unit.end.get() {
        let Some(after) = end_in(unit, at, lists) else {
            return (at, lists);
        };
        at = after;
        lists -= 1;
    }
    (at, lists)
}

// The entry at an offset before the unit's end, inside this many open sibling lists. None means nothing: `token_in` answers in all
// cases, but moves a whole token.
#[inline(always)]
#[tactic(auto, unfolding(crate::specs::Units::token_at))]
fn inner_entry_in<'u, 'a>(unit: &'u Unit<'a>, at: usize, lists: u32) -> Option<Following<'u, 'a>>
    requires before { at < unit.now.end }
    requires some { 0 < lists }
    requires few { lists ≤ at }
    ensures { IfSome result (λ f. token_at (plain_unit unit.now) (at, Some lists)
        ≡ Ok (Some f.entry, (f.at, Some f.lists))) }
{
    let Some((code, after)) = uleb(&unit.info[..unit.end.get() as usize], at) else {
        return None;
    };
    if code == 0 {
        return None;
    }
    match entry_in(unit, at, lists, AbbreviationCode::new(code), after) {
        Ok((entry, (children, after))) => Some(Following {
            entry,
            at: after,
            lists: if children { lists + 1 } else { lists },
        }),
        Err(_) => None,
    }
}

// The next entry at an offset inside a list. None means nothing: `any_in` answers in all cases.
#[inline(always)]
fn inner_next<'u, 'a>(
    unit: &'u Unit<'a>,
    from: usize,
    nested: u32,
    met: bool,
) -> Option<Following<'u, 'a>>
    requires { nested ≤ from }
    ensures { IfSome result (IsNext (plain_unit unit.now) (from, Some nested) met) }
{
    reading_moves_on_inside_the_unit();
    let (at, lists) = pass_ends(unit, from, nested);
    if lists == 0 || at as u64 >= unit.end.get() {
        return None;
    }
    inner_entry_in(unit, at, lists)
}

// The next entry at an offset, with this many open sibling lists, or None at the unit's end.
#[inline(always)]
fn next_in<'u, 'a>(
    alloc: Global,
    unit: &'u Unit<'a>,
    from: usize,
    inside: Option<u32>,
    met: bool,
) -> Result<Option<Following<'u, 'a>>, Refusal>
    requires { open_lists inside ≤ from }
    ensures { ComesTo (plain_unit unit.now) (from, inside) met result }
{
    // A fast path, since most entries are inside a list and have no fault.
    if let Some(nested) = inside {
        if let Some(next) = inner_next(unit, from, nested, met) {
            return Ok(Some(next));
        }
    }
    any_in(alloc, unit, from, inside, met)
}

// The next entry at an offset, also where it is in no list or has a fault.
#[inline(never)]
#[tactic(auto, using(crate::proofs::EntriesLeft::left_pass, crate::proofs::EntriesLeft::left_end, crate::proofs::TokenLaws::token_moves))]
fn any_in<'u, 'a>(
    alloc: Global,
    unit: &'u Unit<'a>,
    from: usize,
    inside: Option<u32>,
    met: bool,
) -> Result<Option<Following<'u, 'a>>, Refusal>
    requires { open_lists inside ≤ from }
    ensures { ComesTo (plain_unit unit.now) (from, inside) met result }
{
    reading_moves_on_inside_the_unit();
    let mut at = from;
    let mut lists = inside;
    'closing: loop {
        match token_in(alloc, unit, at, lists) {
            Ok(
                Token::Given {
                    entry,
                    at: after,
                    lists: opened,
                },
            ) => {
                return Ok(Some(Following {
                    entry,
                    at: after,
                    lists: opened,
                }));
            }
            Ok(
                Token::Closed {
                    at: after,
                    lists: opened,
                },
            ) => {
                at = after;
                lists = Some(opened);
            }
            Ok(Token::End) => {
                return match unmet(unit, met) {
                    Some(fault) => Err(Refusal::Fault(fault)),
                    None => Ok(None),
                };
            }
            Err(refused) => return Err(refused),
        }
    }
}

impl<'u, 'a> Entries<'u, 'a> {
    /// The next entry without its values, or None at the unit's end. Allocates only for the root. The faults are `Cut`,
    /// `AbbrevCode`, `Form` and `Supplementary` at an entry, `Tree` at the offset where the tree of entries breaks, `Language` at
    /// the root, and `TypeOffset` at the unit, after the last entry of a type unit. After a fault every later call returns the same
    /// fault. After `NoMemory` the reader is unchanged, and the caller may call again.
    ///
    /// The attributes of the entry are taken of the budget (`attributes_budget`). Where the budget has fewer, the answer is `Past`.
    #[inline]
    #[tactic(auto, using(crate::proofs::LimitLemmas::passes_front, crate::proofs::LimitLemmas::refused_below))]
    pub fn next_outline(
        &mut self,
        alloc: Global,
        budget: &mut Budget,
    ) -> Result<Option<Outline<'u, 'a>>, Refusal>
        ensures next { NextIs self.old result self.new }
        ensures taken { TakesNext attribute_cost budget.old result budget.new }
        ensures past { IfErr result (λ e. OnPast e (PassesLeft attribute_cost self.old budget.old)) }
    {
        match next_in(alloc, self.unit, self.at, self.lists, self.met) {
            Ok(Some(Following { entry, at, lists })) => {
                budget.take(entry.attributes_len())?;
                self.met = is_met(self.unit, self.met, &entry);
                self.at = at;
                self.lists = Some(lists);
                Ok(Some(entry))
            }
            Ok(None) => Ok(None),
            Err(refused) => Err(refused),
        }
    }

    // The first of the remaining entries, which stays the first.
    #[tactic(auto, using(crate::proofs::LimitLemmas::first_given, crate::proofs::LimitLemmas::first_refused))]
    pub(crate) fn first(&self, alloc: Global) -> Result<Option<Outline<'u, 'a>>, Refusal>
        ensures { FirstIs self.now result }
    {
        match next_in(alloc, self.unit, self.at, self.lists, self.met) {
            Ok(
                Some(
                    Following {
                        entry,
                        at: _,
                        lists: _,
                    },
                ),
            ) => Ok(Some(entry)),
            Ok(None) => Ok(None),
            Err(refused) => Err(refused),
        }
    }
}
