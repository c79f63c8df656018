// The rules on two types.
ghost use Rattle.std.specs.Prelude.{◌≡◌, ◌<◌, ◌+◌, ◌++◌, ◌↔◌, ℕ, true, [], List, Option, length, take, map, filter, slice_index_or, count_by, not, IsTrue, OnOk, IfOk, IfErr};
ghost use Rattle.std.specs.List.{range_with_len};
ghost use Rattle.abi_base.specs.declared.fault.NoMemory.TheVariants.{Allocation};
ghost use Rattle.abi_types.specs.Forms as forms;
ghost use Rattle.abi_types.specs.Graphs.{part_at};
ghost use Rattle.pair_rules.specs.Comparisons as comparisons;
ghost use Rattle.pair_rules.specs.Matching as matching_spec;
ghost use Rattle.pair_rules.specs.Same as same_spec;
ghost use Rattle.pair_rules.specs.TypeRules.{broken_at};
ghost use Rattle.pair_rules.specs.TypeRules as type_rules;
ghost use Rattle.pair_rules.specs.Keeping as keeping;

use crate::matching::{are_compared, match_of, number_of, same_kind};
use abi_base::{List, NoMemory};
use abi_types::{Group, Index, Kind, NewIx, OldIx, Part, Place, Rule, View};
use std::alloc::Global;

/// A broken rule, with the position of the old part at which it is broken, or 0 for a rule on whole types.
#[derive(Clone, Copy, Debug, PartialEq, Eq)]
pub struct Broken {
    /// The broken rule.
    pub rule: Rule,
    /// The position of the old part, or 0 for a rule on whole types.
    pub part: usize,
}

// The rule on two kinds.
static KIND_RULES: [Rule; 1] = [Rule::KindOfType];

// The rule on two types one of which has no definition.
static TAG_RULES: [Rule; 1] = [Rule::DeclarationTag];

// The rules on two definitions of the same kind.
static DEFINITION_RULES: [Rule; 12] = [
    Rule::TypeSize,
    Rule::ScalarGroup,
    Rule::TypeAlignment,
    Rule::MemberPresence,
    Rule::MemberOffset,
    Rule::BitFieldWidth,
    Rule::EnumeratorPresence,
    Rule::EnumeratorValue,
    Rule::ElementCount,
    Rule::ParameterCount,
    Rule::VariadicArguments,
    Rule::PassingPlace,
];

// The rules to check on two types, in order.
fn rules_asked(old: &View<OldIx>, new: &View<NewIx>) -> &'static [Rule]
    ensures { result.now ≡ type_rules.rules_asked old.now new.now }
{
    if !same_kind(old.kind, new.kind) {
        return &KIND_RULES;
    }
    if old.declared_only || new.declared_only {
        return &TAG_RULES;
    }
    &DEFINITION_RULES
}

fn speaks_of_parts(rule: Rule) -> bool
    ensures { result ≡ type_rules.speaks_of_parts rule }
{
    matches!(
        rule,
        Rule::MemberPresence
            | Rule::MemberOffset
            | Rule::BitFieldWidth
            | Rule::EnumeratorPresence
            | Rule::EnumeratorValue
            | Rule::PassingPlace
    )
}

fn has_size(kind: Kind) -> bool
    ensures { result ≡ type_rules.has_size kind }
{
    !matches!(kind, Kind::Void | Kind::Pointer | Kind::Function)
}

fn has_alignment(kind: Kind) -> bool
    ensures { result ≡ type_rules.has_alignment kind }
{
    !matches!(kind, Kind::Void | Kind::Function)
}

fn has_elements(kind: Kind) -> bool
    ensures { result ≡ forms.has_elements kind }
{
    matches!(kind, Kind::Array | Kind::Vector)
}

fn same_group(old: Group, new: Group) -> bool
    ensures { result ≡ same_spec.same_group old new }
{
    old == new
}

fn same_place(old: Place, new: Place) -> bool
    ensures { result ≡ same_spec.same_place old new }
{
    old == new
}

/// The number of parameters of a type.
pub fn params_of<Ix: Index>(view: &View<Ix>) -> usize
    ensures { result ≡ type_rules.params_of view.now }
{
    let mut count = 0;
    'walk: for i in 0..view.parts_len() {
        if let Part::Param { .. } = view.part(i) {
            count += 1;
        }
    }
    count
}

// Whether two types break a rule on whole types.
#[tactic(auto, unfolding(crate::specs::TypeRules::breaks_whole))]
fn breaks_whole(rule: Rule, old: &View<OldIx>, new: &View<NewIx>) -> bool
    ensures { result ≡ type_rules.breaks_whole rule old.now new.now }
{
    match rule {
        Rule::KindOfType => !same_kind(old.kind, new.kind),
        Rule::TypeSize => has_size(old.kind) && old.size != new.size,
        Rule::ScalarGroup => old.kind == Kind::Scalar && !same_group(old.group, new.group),
        Rule::TypeAlignment => has_alignment(old.kind) && old.align != new.align,
        Rule::DeclarationTag => old.tag != new.tag,
        Rule::ElementCount => has_elements(old.kind) && old.count != new.count,
        Rule::ParameterCount => old.kind == Kind::Function && params_of(old) != params_of(new),
        Rule::VariadicArguments => old.kind == Kind::Function && old.variadic != new.variadic,
        _ => false,
    }
}

// The number of bits in a byte.
const BYTE_BITS: u64 = 8;

// The size of an enumerator's value in bytes.
const VALUE_BYTES: u64 = 8;

// A value, truncated to this many bytes.
#[tactic(auto, unfolding(crate::specs::TypeRules::in_bytes))]
fn in_bytes(size: u64, value: u64) -> u64
    ensures { result ≡ type_rules.in_bytes size value }
{
    if size < VALUE_BYTES {
        value % (1 << (BYTE_BITS * size))
    } else {
        value
    }
}

/// The offset in bits of the member at a position, or 0 where the part is not a member.
pub fn bit_at<Ix: Index>(view: &View<Ix>, j: usize) -> u64
    requires { j < length view.now.parts }
    ensures { result ≡ type_rules.bit_at view.now j }
{
    match view.part(j) {
        Part::Member { bit, .. } => *bit,
        _ => 0,
    }
}

/// The width in bits of the member at a position if it is a bit field, else 0.
pub fn width_at<Ix: Index>(view: &View<Ix>, j: usize) -> u64
    requires { j < length view.now.parts }
    ensures { result ≡ type_rules.width_at view.now j }
{
    match view.part(j) {
        Part::Member { width, .. } => *width,
        _ => 0,
    }
}

/// The value of the enumerator at a position, in the bytes of its enumeration, or 0 where the part is not an enumerator.
pub fn value_at<Ix: Index>(view: &View<Ix>, j: usize) -> u64
    requires { j < length view.now.parts }
    ensures { result ≡ type_rules.value_at view.now j }
{
    match view.part(j) {
        Part::Enumerator { value, .. } => in_bytes(view.size, *value),
        _ => in_bytes(view.size, 0),
    }
}

// Whether the places of the results differ.
fn outcome_moved(old: &View<OldIx>, new: &View<NewIx>) -> bool
    ensures { result ≡ not (same_spec.same_place old.now.call.outcome new.now.call.outcome) }
{
    !same_place(old.call.outcome(), new.call.outcome())
}

// Whether the places of the old parameter at position `i` and of its match differ, if both exist.
fn param_moved(old: &View<OldIx>, new: &View<NewIx>, i: usize, found: Option<usize>) -> bool
    requires inside { i < length old.now.parts }
    requires found { found ≡ matching_spec.match_of old.now new.now i }
    ensures { result ≡ type_rules.param_moved old.now new.now i }
{
    if found.is_none() {
        return false;
    }
    let number = number_of(old, i);
    match (old.call.params().get(number), new.call.params().get(number)) {
        (Some(old), Some(new)) => !same_place(*old, *new),
        _ => false,
    }
}

// Whether two types break a rule on parts, at part `i` of the old one with this match.
#[tactic(auto, using(crate::proofs::Matches::inside), unfolding(crate::specs::TypeRules::breaks_part))]
fn breaks_part(
    rule: Rule,
    old: &View<OldIx>,
    new: &View<NewIx>,
    i: usize,
    found: Option<usize>,
) -> bool
    requires inside { i < length old.now.parts }
    requires found { found ≡ matching_spec.match_of old.now new.now i }
    ensures { result ≡ type_rules.breaks_part rule old.now new.now i }
{
    match (rule, old.part(i)) {
        (Rule::MemberPresence, Part::Member { .. }) => found.is_none(),
        (Rule::MemberOffset, Part::Member { bit, .. }) => match found {
            Some(j) => *bit != bit_at(new, j),
            None => false,
        },
        (Rule::BitFieldWidth, Part::Member { width, .. }) => match found {
            Some(j) => *width != width_at(new, j),
            None => false,
        },
        (Rule::EnumeratorPresence, Part::Enumerator { .. }) => found.is_none(),
        (Rule::EnumeratorValue, Part::Enumerator { value, .. }) => match found {
            Some(j) => in_bytes(old.size, *value) != value_at(new, j),
            None => false,
        },
        (Rule::PassingPlace, Part::Outcome { .. }) => outcome_moved(old, new),
        (Rule::PassingPlace, Part::Param { .. }) => param_moved(old, new, i, found),
        _ => false,
    }
}

// Appends the parts at which two types break a rule on parts, in order of the old parts.
fn push_parts(
    list: &mut List<Broken>,
    rule: Rule,
    old: &View<OldIx>,
    new: &View<NewIx>,
    matches: &[Option<usize>],
) -> Result<(), NoMemory>
    requires { matches.now ≡ map (matching_spec.match_of old.now new.now) (range_with_len 0 (length old.now.parts)) }
    ensures appended { OnOk result (list.new
        ≡ list.old ++ map (broken_at rule) (filter (type_rules.breaks_part rule old.now new.now) (range_with_len 0 (length old.now.parts)))) }
    ensures named { IfErr result (λ e. e ≡ Allocation) }
{
    'walk: for (part, found) in matches.iter().enumerate() {
        if breaks_part(rule, old, new, part, *found) {
            list.push(Broken { rule, part })?;
        }
    }
    Ok(())
}

// Appends each break of a rule by two types.
#[tactic(auto, unfolding(crate::specs::TypeRules::broken))]
fn push_broken(
    list: &mut List<Broken>,
    rule: Rule,
    old: &View<OldIx>,
    new: &View<NewIx>,
    matches: &[Option<usize>],
) -> Result<(), NoMemory>
    requires matches { matches.now ≡ comparisons.matches old.now new.now }
    requires asked { type_rules.speaks_of_parts rule ≡ true → type_rules.are_compared old.now new.now ≡ true }
    ensures appended { OnOk result (list.new ≡ list.old ++ type_rules.broken old.now new.now rule) }
    ensures named { IfErr result (λ e. e ≡ Allocation) }
{
    if speaks_of_parts(rule) {
        return push_parts(list, rule, old, new, matches);
    }
    if breaks_whole(rule, old, new) {
        return list.push(Broken { rule, part: 0 });
    }
    Ok(())
}

// All rules that two types break, ordered by rule and then by old part, given the matches.
#[tactic(auto, unfolding(crate::specs::TypeRules::breaks))]
pub(crate) fn breaks_by(
    alloc: Global,
    old: &View<OldIx>,
    new: &View<NewIx>,
    matches: &[Option<usize>],
) -> Result<List<Broken>, NoMemory>
    requires { matches.now ≡ comparisons.matches old.now new.now }
    ensures breaks { IfOk result (λ list. list ≡ type_rules.breaks old.now new.now) }
    ensures named { IfErr result (λ e. e ≡ Allocation) }
{
    let mut list = List::new(alloc);
    'rules: for rule in rules_asked(old, new) {
        push_broken(&mut list, *rule, old, new, matches)?;
    }
    Ok(list)
}

// Whether two types break no rule on whole types.
#[tactic(auto, unfolding(crate::specs::Keeping::keeps_whole))]
fn keeps_whole(old: &View<OldIx>, new: &View<NewIx>) -> bool
    ensures { result ≡ keeping.keeps_whole old.now new.now }
{
    rules_asked(old, new)
        .iter()
        .all(|rule| !breaks_whole(*rule, old, new))
}

// Whether two types break no rule on parts, at part `i` of the old one.
#[tactic(auto, unfolding(crate::specs::Keeping::keeps_part))]
fn keeps_part(old: &View<OldIx>, new: &View<NewIx>, i: usize) -> bool
    requires { i < length old.now.parts }
    ensures { result ≡ keeping.keeps_part old.now new.now i }
{
    let found = match_of(old, new, i);
    DEFINITION_RULES
        .iter()
        .all(|rule| !breaks_part(*rule, old, new, i, found))
}

// Whether each part of the old type keeps its partner.
#[tactic(auto, unfolding(crate::specs::Keeping::keeps_parts))]
fn keeps_parts(old: &View<OldIx>, new: &View<NewIx>) -> bool
    ensures { result ≡ keeping.keeps_parts old.now new.now }
{
    'walk: for i in 0..old.parts_len() {
        if !keeps_part(old, new, i) {
            return false;
        }
    }
    true
}

/// Whether two types break no rule. Allocates nothing.
pub fn holds(old: &View<OldIx>, new: &View<NewIx>) -> bool
    ensures { IsTrue result ↔ (type_rules.breaks old.now new.now ≡ []) }
{
    if !keeps_whole(old, new) {
        return false;
    }
    if !are_compared(old, new) {
        return true;
    }
    keeps_parts(old, new)
}
