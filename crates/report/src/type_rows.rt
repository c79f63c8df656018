// What a row on two types says, rule by rule.
ghost use Rattle.std.specs.Prelude.{◌≡◌, IfOk, string_bytes, IfErr};
ghost use Rattle.abi_base.specs.declared.fault.NoMemory.TheVariants.{Allocation};
ghost use Rattle.report.specs.Details.{IsInside};
ghost use Rattle.report.specs.TypeRows as spec;

use crate::detail::{
    bit_changed, bit_of_match, changed, changed_number, changed_tag, part_gone, place_changed,
    value_changed, value_of_match, width_changed, width_of_match,
};
use crate::value::Value;
use crate::values::{
    name_of, name_word, new_place, old_place, place_word, step_of, tag_value, word,
};
use crate::words::{group_word, kind_word, yes_or_no};
use abi_base::{List, NoMemory};
use abi_types::{Index, NewIx, OldIx, Rule, View};
use pair_rules::{Broken, bit_at, params_of, value_at, width_at};
use std::alloc::{AllocError, Global};

/// The detail of the row about a rule that two types break, at the old part of which it speaks.
#[tactic(auto, unfolding(crate::specs::TypeRows::type_detail))]
pub fn type_detail(
    alloc: Global,
    broken: &Broken,
    old: &View<OldIx>,
    new: &View<NewIx>,
) -> Result<String, AllocError>
    requires { IsInside old.now broken.now }
    ensures { IfOk result (λ text. string_bytes text
        ≡ spec.type_detail broken.now.rule old.now new.now broken.now.part) }
{
    let i = broken.part;
    match broken.rule {
        Rule::KindOfType => changed(alloc, "kind", kind_word(old.kind), kind_word(new.kind)),
        Rule::TypeSize => changed_number(alloc, "size", old.size, new.size),
        Rule::ScalarGroup => changed(
            alloc,
            "scalar",
            group_word(old.group),
            group_word(new.group),
        ),
        Rule::TypeAlignment => changed_number(alloc, "alignment", old.align, new.align),
        Rule::DeclarationTag => changed_tag(alloc, old.tag, new.tag),
        Rule::MemberPresence => part_gone(alloc, "member", old, i),
        Rule::MemberOffset => bit_changed(alloc, old, new, i),
        Rule::BitFieldWidth => width_changed(alloc, old, new, i),
        Rule::EnumeratorPresence => part_gone(alloc, "enumerator", old, i),
        Rule::EnumeratorValue => value_changed(alloc, old, new, i),
        Rule::ElementCount => changed_number(alloc, "count", old.count, new.count),
        Rule::ParameterCount => changed_number(
            alloc,
            "parameters",
            params_of(old) as u64,
            params_of(new) as u64,
        ),
        Rule::VariadicArguments => changed(
            alloc,
            "variadic",
            yes_or_no(old.variadic),
            yes_or_no(new.variadic),
        ),
        Rule::PassingPlace => place_changed(alloc, old, new, i),
        _ => Ok(String::new(alloc)),
    }
}

// The value of a whole type, for a rule that speaks of no part.
#[tactic(auto, unfolding(crate::specs::TypeRows::whole_value))]
fn whole_value<Ix: Index>(alloc: Global, rule: Rule, view: &View<Ix>) -> Result<Value, NoMemory>
    ensures value { IfOk result (λ value. value ≡ spec.whole_value rule view.now) }
    ensures named { IfErr result (λ e. e ≡ Allocation) }
{
    match rule {
        Rule::KindOfType => word(alloc, kind_word(view.kind)),
        Rule::TypeSize => Ok(Value::Bytes(view.size)),
        Rule::ScalarGroup => word(alloc, group_word(view.group)),
        Rule::TypeAlignment => Ok(Value::Bytes(view.align)),
        Rule::DeclarationTag => tag_value(alloc, view.tag),
        Rule::ElementCount => Ok(Value::Count(view.count)),
        Rule::ParameterCount => Ok(Value::Count(params_of(view) as u64)),
        Rule::VariadicArguments => word(alloc, yes_or_no(view.variadic)),
        _ => Ok(Value::Nothing),
    }
}

/// The old part of which a rule speaks: the printed name of a member or an enumerator, a parameter by its number, or the result;
/// empty if the rule speaks of no part.
#[tactic(auto, unfolding(crate::specs::TypeRows::part_of))]
pub fn part_of(alloc: Global, broken: &Broken, old: &View<OldIx>) -> Result<List<u8>, NoMemory>
    requires { IsInside old.now broken.now }
    ensures part { IfOk result (λ text. text ≡ spec.part_of broken.now.rule old.now broken.now.part) }
    ensures named { IfErr result (λ e. e ≡ Allocation) }
{
    let i = broken.part;
    match broken.rule {
        Rule::MemberPresence => name_of(alloc, old, i),
        Rule::MemberOffset => name_of(alloc, old, i),
        Rule::BitFieldWidth => name_of(alloc, old, i),
        Rule::EnumeratorPresence => name_of(alloc, old, i),
        Rule::EnumeratorValue => name_of(alloc, old, i),
        Rule::PassingPlace => step_of(alloc, old, i),
        _ => Ok(List::new(alloc)),
    }
}

/// The value in the old type.
#[tactic(auto, unfolding(crate::specs::TypeRows::type_was))]
pub fn type_was(alloc: Global, broken: &Broken, old: &View<OldIx>) -> Result<Value, NoMemory>
    requires { IsInside old.now broken.now }
    ensures value { IfOk result (λ value. value ≡ spec.type_was broken.now.rule old.now broken.now.part) }
    ensures named { IfErr result (λ e. e ≡ Allocation) }
{
    let i = broken.part;
    match broken.rule {
        Rule::MemberPresence => name_word(alloc, old, i),
        Rule::MemberOffset => Ok(Value::Bits(bit_at(old, i))),
        Rule::BitFieldWidth => Ok(Value::Bits(width_at(old, i))),
        Rule::EnumeratorPresence => name_word(alloc, old, i),
        Rule::EnumeratorValue => Ok(Value::Number(value_at(old, i))),
        Rule::PassingPlace => place_word(alloc, &old_place(old, i)),
        _ => whole_value(alloc, broken.rule, old),
    }
}

/// The value in the new type, at the match of the old part.
#[tactic(auto, unfolding(crate::specs::TypeRows::type_is))]
pub fn type_is(
    alloc: Global,
    broken: &Broken,
    old: &View<OldIx>,
    new: &View<NewIx>,
) -> Result<Value, NoMemory>
    requires { IsInside old.now broken.now }
    ensures value { IfOk result (λ value. value ≡ spec.type_is broken.now.rule old.now new.now broken.now.part) }
    ensures named { IfErr result (λ e. e ≡ Allocation) }
{
    let i = broken.part;
    match broken.rule {
        Rule::MemberPresence => Ok(Value::Nothing),
        Rule::MemberOffset => Ok(Value::Bits(bit_of_match(old, new, i))),
        Rule::BitFieldWidth => Ok(Value::Bits(width_of_match(old, new, i))),
        Rule::EnumeratorPresence => Ok(Value::Nothing),
        Rule::EnumeratorValue => Ok(Value::Number(value_of_match(old, new, i))),
        Rule::PassingPlace => place_word(alloc, &new_place(old, new, i)),
        _ => whole_value(alloc, broken.rule, new),
    }
}
