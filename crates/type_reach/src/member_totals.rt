// Totals over the members of an aggregate, each paired with the facts of its type.
ghost use Rattle.std.specs.Prelude.{◌≡◌, ◌<◌, ◌≤◌, ◌+◌, ◌||◌, length, map, zip, All, IfSome, ◌+ℤ◌};
ghost use Rattle.std.specs.List.{list_any};
ghost use Rattle.abi_base.specs.Limits.{depth_limit};
ghost use Rattle.type_reach.specs.Placement.{IsNear};
ghost use Rattle.type_reach.specs.Placement as placement_spec;
ghost use Rattle.type_reach.specs.Facts.{IsSpanNear};
ghost use Rattle.type_reach.specs.Facts as facts_spec;

use crate::facts::{Facts, Span};
use crate::placement::{bit_of, is_nameless, is_out_of_range};
use crate::values::number_at;
use abi_base::dwarf::DW_AT_alignment;
use dwarf_entries::Dwarf;
use dwarf_tree::EntryNumber;

// The explicit alignment that an entry itself gives.
#[tactic(auto, unfolding(crate::specs::Facts::own_align))]
pub(crate) fn own_align(dwarf: &Dwarf, e: EntryNumber) -> u64
    requires { e < length dwarf.now.tree.entries }
    ensures { result ≡ facts_spec.own_align dwarf.now.tree e }
{
    number_at(dwarf, e, DW_AT_alignment)
}

// The explicit alignment that a member contributes: its own and, if it is nameless, that of its structure or union.
#[tactic(auto, unfolding(crate::specs::Facts::member_align, crate::specs::Facts::is_replaced))]
fn member_align(dwarf: &Dwarf, m: EntryNumber, of_type: &Facts, nameless: bool) -> u64
    requires inside { m < length dwarf.now.tree.entries }
    requires nameless { nameless ≡ placement_spec.is_nameless dwarf.now m }
    ensures { result ≡ facts_spec.member_align dwarf.now (m, of_type.now) }
{
    let own = own_align(dwarf, m);
    if nameless && of_type.aggregate {
        own.max(of_type.align)
    } else {
        own
    }
}

// An offset in bits, moved by `by` bits.
fn later(by: i128, bit: i128, rank: u32) -> i128
    requires by { IsNear 1 by }
    requires bit { IsNear (rank + 1) bit }
    requires rank { rank < depth_limit }
    ensures is { result ≡ by +ℤ bit }
    ensures near { IsNear (rank + 2) result }
{
    by + bit
}

// A span, moved by `by` bits.
fn moved_span(by: i128, span: Option<Span>, rank: u32) -> Option<Span>
    requires by { IsNear 1 by }
    requires low { IfSome span (λ s. IsNear (rank + 1) s.low) }
    requires high { IfSome span (λ s. IsNear (rank + 1) s.high) }
    requires rank { rank < depth_limit }
    ensures is { result ≡ facts_spec.moved_span by span }
    ensures low { IfSome result (λ s. IsNear (rank + 2) s.low) }
    ensures high { IfSome result (λ s. IsNear (rank + 2) s.high) }
{
    match span {
        Some(span) => Some(Span {
            low: later(by, span.low, rank),
            high: later(by, span.high, rank),
        }),
        None => None,
    }
}

// The least span that covers both.
fn joined(a: Option<Span>, b: Option<Span>) -> Option<Span>
    ensures { result ≡ facts_spec.joined a b }
{
    match a {
        None => b,
        Some(one) => match b {
            None => Some(one),
            Some(other) => Some(Span {
                low: one.low.min(other.low),
                high: one.high.max(other.high),
            }),
        },
    }
}

// The offset of a member at `bit`, or those of the members that replace it.
#[tactic(auto, unfolding(crate::specs::Facts::member_span))]
fn member_span(
    dwarf: &Dwarf,
    m: EntryNumber,
    of_type: &Facts,
    bit: i128,
    nameless: bool,
) -> Option<Span>
    requires bit { bit ≡ placement_spec.bit_of dwarf.now m of_type.now.size }
    requires bit_near { IsNear 1 bit }
    requires nameless { nameless ≡ placement_spec.is_nameless dwarf.now m }
    requires near { IsSpanNear of_type.now }
    requires rank { of_type.now.rank < depth_limit }
    ensures is { result ≡ facts_spec.member_span dwarf.now (m, of_type.now) }
    ensures low { IfSome result (λ s. IsNear (of_type.now.rank + 2) s.low) }
    ensures high { IfSome result (λ s. IsNear (of_type.now.rank + 2) s.high) }
{
    if !nameless {
        return Some(Span {
            low: bit,
            high: bit,
        });
    }
    if of_type.aggregate {
        moved_span(bit, of_type.span, of_type.rank)
    } else {
        None
    }
}

// Whether a span is out of range.
pub(crate) fn span_out_of_range(span: Option<Span>) -> bool
    ensures { result ≡ facts_spec.span_out_of_range span }
{
    match span {
        Some(span) => is_out_of_range(span.low) || is_out_of_range(span.high),
        None => false,
    }
}

// Whether a member at `bit` is out of range, or another member is.
#[tactic(auto, unfolding(crate::specs::Facts::member_beyond))]
fn either_out_of_range(
    dwarf: &Dwarf,
    m: EntryNumber,
    of_type: &Facts,
    bit: i128,
    other: bool,
) -> bool
    requires { bit ≡ placement_spec.bit_of dwarf.now m of_type.now.size }
    ensures { result ≡ (facts_spec.member_beyond dwarf.now (m, of_type.now) || other) }
{
    is_out_of_range(bit) || other
}

/// Totals over members.
#[derive(Drop)]
pub(crate) struct MemberTotals {
    /// The greatest explicit alignment that they contribute.
    pub(crate) align: u64,
    /// Their offsets, or those of the members that replace them.
    pub(crate) span: Option<Span>,
    /// One of them is out of range, as declared.
    pub(crate) beyond: bool,
}

/// The totals over members, each paired with the facts of its type.
pub(crate) fn member_totals_of(
    dwarf: &Dwarf,
    members: &[EntryNumber],
    of_types: &[Facts],
    rank: u32,
) -> MemberTotals
    requires inside { All (λ m. m < length dwarf.now.tree.entries) members.now }
    requires near { All IsSpanNear of_types.now }
    requires ranks { All (λ x. x.rank < rank) of_types.now }
    requires rank { rank ≤ depth_limit }
    ensures align { result.align
        ≡ facts_spec.most (map (facts_spec.member_align dwarf.now) (zip members.now of_types.now)) }
    ensures span { result.span
        ≡ facts_spec.spread (map (facts_spec.member_span dwarf.now) (zip members.now of_types.now)) }
    ensures low { IfSome result.span (λ s. IsNear (rank + 1) s.low) }
    ensures high { IfSome result.span (λ s. IsNear (rank + 1) s.high) }
    ensures beyond { result.beyond ≡ list_any (facts_spec.member_beyond dwarf.now) (zip members.now of_types.now) }
{
    let mut align: u64 = 0;
    let mut span = None;
    let mut beyond = false;
    let mut k = members.len().min(of_types.len());
    'down: while k > 0 {
        k -= 1;
        let m = members[k];
        let of_type = of_types[k];
        let bit = bit_of(dwarf, m, of_type.size);
        let nameless = is_nameless(dwarf, m);
        align = member_align(dwarf, m, &of_type, nameless).max(align);
        span = joined(member_span(dwarf, m, &of_type, bit, nameless), span);
        beyond = either_out_of_range(dwarf, m, &of_type, bit, beyond);
    }
    MemberTotals {
        align,
        span,
        beyond,
    }
}
