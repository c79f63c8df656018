// The facts of a type, computed from those of the types that it holds by value.
ghost use Rattle.std.specs.Prelude.{◌≡◌, ◌<◌, ◌≤◌, ◌+◌, length, map, drop, All, Some, IfErr, IfOk, IfSome};
ghost use Rattle.abi_base.specs.declared.fault.NoMemory.TheVariants.{Allocation};
ghost use Rattle.abi_base.specs.Limits.{depth_limit};
ghost use Rattle.type_reach.specs.References as references_spec;
ghost use Rattle.type_reach.specs.Facts.{rank_in, weight_in, first_of, size_for, count_for, weight_for, core_for, aggregate_for, rooms_for, align_from, members_with, member_align, most, span_in, beyond_in, facts_from, IsSpanNear};
ghost use Rattle.type_reach.specs.Facts as facts_spec;

use crate::arrays::array_count;
use crate::constants::{ALIGN_ROOM, POINTER_SIZE};
use crate::member_totals::{member_totals_of, own_align, span_out_of_range};
use crate::references::members_among;
use crate::role::{Role, role_of};
use crate::values::number_at;
use abi_base::NoMemory;
use abi_base::dwarf::DW_AT_byte_size;
use dwarf_entries::Dwarf;
use dwarf_tree::EntryNumber;
use std::alloc::Global;

/// The least and the greatest offset of something, in bits.
#[derive(Clone, Copy, Debug, PartialEq, Eq)]
pub struct Span {
    /// The least offset.
    pub low: i128,
    /// The greatest offset.
    pub high: i128,
}

/// The facts of a type. Numbers saturate at 2^64 - 1, which exceeds every limit.
#[derive(Clone, Copy, Debug, PartialEq, Eq)]
pub struct Facts {
    // The order of the fields saves memory: the small ones are adjacent.
    /// The length of the longest chain of steps by value from it.
    pub rank: u32,
    /// A member of its core has an offset out of range, as declared or as a flat member.
    pub beyond: bool,
    /// Its core is a structure or a union.
    pub aggregate: bool,
    /// Its size in bytes.
    pub size: u64,
    /// The number of elements of its core, if that is an array.
    pub count: u64,
    /// One more than the sum of the weights of all types that it holds by value. A function weighs 1.
    pub weight: u64,
    /// The explicit alignment in bytes, or 0.
    pub align: u64,
    /// The stack space of the core's parameters, if that is a function: for each its size, and room for its alignment.
    pub rooms: u64,
    /// The offsets of the core's flat members, or None where it has none.
    pub span: Option<Span>,
    /// The entry of its core, or None for void.
    pub core: Option<EntryNumber>,
}

/// The facts of void.
pub const VOID: Facts = Facts {
    rank: 0,
    size: 0,
    count: 0,
    weight: 1,
    align: 0,
    rooms: 0,
    span: None,
    beyond: false,
    core: None,
    aggregate: false,
};

// The least number above all ranks.
fn above(facts: &[Facts]) -> u32
    requires { All (λ x. x.rank < depth_limit) facts.now }
    ensures above { result ≡ facts_spec.above (map rank_in facts.now) }
    ensures bound { result ≤ depth_limit }
    ensures each { All (λ x. x.rank < result) facts.now }
{
    let mut most = 0;
    let mut k = facts.len();
    'down: while k > 0 {
        k -= 1;
        let one = facts[k];
        if one.rank + 1 > most {
            most = one.rank + 1;
        }
    }
    most
}

// The sum of all weights.
fn all_weights(facts: &[Facts]) -> u64
    ensures { result ≡ facts_spec.total (map weight_in facts.now) }
{
    let mut all: u64 = 0;
    let mut k = facts.len();
    'down: while k > 0 {
        k -= 1;
        let one = facts[k];
        all = one.weight.saturating_add(all);
    }
    all
}

// The stack space of parameters: the sum of their sizes, with room for their alignments.
fn all_rooms(params: &[Facts]) -> u64
    ensures { result ≡ facts_spec.total (map facts_spec.room_of params.now) }
{
    let mut all: u64 = 0;
    let mut k = params.len();
    'down: while k > 0 {
        k -= 1;
        let one = params[k];
        all = one.size.saturating_add(ALIGN_ROOM).saturating_add(all);
    }
    all
}

// The first facts, or those of void.
fn first(facts: &[Facts]) -> Facts
    ensures { result ≡ first_of facts.now }
{
    match facts.first() {
        Some(first) => *first,
        None => Facts {
            rank: 0,
            size: 0,
            count: 0,
            weight: 0,
            align: 0,
            rooms: 0,
            span: None,
            beyond: false,
            core: None,
            aggregate: false,
        },
    }
}

// The size that an entry gives. A declaration has none.
#[tactic(auto, unfolding(crate::specs::Facts::own_size))]
fn own_size(dwarf: &Dwarf, e: EntryNumber) -> u64
    requires { e < length dwarf.now.tree.entries }
    ensures { result ≡ facts_spec.own_size dwarf.now.tree e }
{
    if dwarf.is_declaration(e) {
        0
    } else {
        number_at(dwarf, e, DW_AT_byte_size)
    }
}

// The size of a type. If its core is an array, `count` is the number of its elements.
fn size(dwarf: &Dwarf, e: EntryNumber, role: Role, facts: &[Facts], count: u64) -> u64
    requires inside { e < length dwarf.now.tree.entries }
    requires count { count ≡ count_for role dwarf.now.tree e facts.now }
    ensures { result ≡ size_for role dwarf.now.tree e facts.now }
{
    let one = first(facts);
    match role {
        Role::Wrapper => one.size,
        Role::Base => number_at(dwarf, e, DW_AT_byte_size),
        Role::Pointer => POINTER_SIZE,
        Role::Enumeration => own_size(dwarf, e),
        Role::Aggregate => own_size(dwarf, e),
        Role::Array => count.saturating_mul(one.size),
        _ => 0,
    }
}

// The number of elements of the core.
fn count(
    alloc: Global,
    dwarf: &Dwarf,
    e: EntryNumber,
    role: Role,
    facts: &[Facts],
) -> Result<u64, NoMemory>
    requires { e < length dwarf.now.tree.entries }
    ensures count { IfOk result (λ count. count ≡ count_for role dwarf.now.tree e facts.now) }
    ensures named { IfErr result (λ e. e ≡ Allocation) }
{
    let one = first(facts);
    match role {
        Role::Wrapper => Ok(one.count),
        Role::Array => array_count(alloc, dwarf, e),
        _ => Ok(0),
    }
}

// The weight of a type.
fn weight(role: Role, facts: &[Facts]) -> u64
    ensures { result ≡ weight_for role facts.now }
{
    match role {
        Role::Function => 1,
        _ => all_weights(facts).saturating_add(1),
    }
}

// The stack space of the core's parameters.
fn rooms(role: Role, facts: &[Facts]) -> u64
    ensures { result ≡ rooms_for role facts.now }
{
    let one = first(facts);
    match role {
        Role::Wrapper => one.rooms,
        Role::Function => match facts.split_first() {
            Some((_result, params)) => all_rooms(params),
            None => all_rooms(&[]),
        },
        _ => 0,
    }
}

// The entry of the core of a type.
fn core(e: EntryNumber, role: Role, facts: &[Facts]) -> Option<EntryNumber>
    ensures { result ≡ core_for role e facts.now }
{
    let one = first(facts);
    match role {
        Role::Wrapper => one.core,
        _ => Some(e),
    }
}

// Whether the core is a structure or a union.
fn aggregate(role: Role, facts: &[Facts]) -> bool
    ensures { result ≡ aggregate_for role facts.now }
{
    let one = first(facts);
    match role {
        Role::Wrapper => one.aggregate,
        Role::Aggregate => true,
        _ => false,
    }
}

// The explicit alignment.
#[tactic(auto, unfolding(crate::specs::Facts::align_from))]
fn align(dwarf: &Dwarf, e: EntryNumber, role: Role, facts: &[Facts], held: u64) -> u64
    requires inside { e < length dwarf.now.tree.entries }
    requires role { role ≡ references_spec.role_of dwarf.now.tree e }
    requires held { held ≡ most (map (member_align dwarf.now) (members_with dwarf.now.tree e facts.now)) }
    ensures { result ≡ align_from dwarf.now e facts.now }
{
    let one = first(facts);
    let passed = match role {
        Role::Wrapper => one.align,
        _ => 0,
    };
    own_align(dwarf, e).max(passed.max(held))
}

// The offsets of the core's flat members; `own` has those of the entry's own flat members.
fn flat_span(role: Role, facts: &[Facts], own: Option<Span>) -> Option<Span>
    ensures { result ≡ span_in role facts.now own }
{
    let one = first(facts);
    match role {
        Role::Wrapper => one.span,
        _ => own,
    }
}

// Whether a member of the core is out of range; `own` tells whether one of the entry's own members is.
fn beyond(role: Role, facts: &[Facts], own: bool) -> bool
    ensures { result ≡ beyond_in role facts.now own }
{
    let one = first(facts);
    match role {
        Role::Wrapper => one.beyond,
        _ => own,
    }
}

// The facts of an entry, from those of the types that it holds by value.
#[tactic(auto, unfolding(crate::specs::Facts::facts_from, crate::specs::Facts::own_span))]
pub(crate) fn combine(
    alloc: Global,
    dwarf: &Dwarf,
    e: EntryNumber,
    parts: &[EntryNumber],
    facts: &[Facts],
) -> Result<Facts, NoMemory>
    requires inside { e < length dwarf.now.tree.entries }
    requires parts { parts.now ≡ references_spec.parts_of dwarf.now.tree e }
    requires parts_inside { All (λ c. c < length dwarf.now.tree.entries) parts.now }
    requires ranks { All (λ x. x.rank < depth_limit) facts.now }
    requires near { All IsSpanNear facts.now }
    ensures is { IfOk result (λ x. x ≡ facts_from dwarf.now (Some e) facts.now) }
    ensures near { IfOk result IsSpanNear }
    ensures named { IfErr result (λ e. e ≡ Allocation) }
{
    let role = role_of(dwarf, e);
    let members = members_among(dwarf, e, role, parts);
    let rank = above(facts);
    let held = member_totals_of(dwarf, members, facts, rank);
    let count = count(alloc, dwarf, e, role, facts)?;
    Ok(Facts {
        rank,
        size: size(dwarf, e, role, facts, count),
        count,
        weight: weight(role, facts),
        align: align(dwarf, e, role, facts, held.align),
        rooms: rooms(role, facts),
        span: flat_span(role, facts, held.span),
        beyond: beyond(role, facts, held.beyond || span_out_of_range(held.span)),
        core: core(e, role, facts),
        aggregate: aggregate(role, facts),
    })
}
