// The printed form of a path.
ghost use Rattle.std.specs.Prelude.{◌≡◌, ◌<◌, ◌+◌, ◌∷◌, ◌++◌, [], length, OnOk, codes, decimal, string_bytes};
ghost use Rattle.std.specs.List.{concat};
ghost use Rattle.abi_types.specs.Parts.{plain_part};
ghost use Rattle.abi_types.specs.Sorts as spec;
ghost use Rattle.report.specs.Steps.{numbered, part_name, step_text};

use abi_types::{Index, Part, View, push_shown};
use pair_rules::number_of;
use std::alloc::{AllocError, Global};
use std::fmt::Write;

// The name of a part, or no bytes.
fn name_of<'a, Ix: Index>(part: &Part<'a, Ix>) -> &'a [u8]
    ensures { result.now ≡ spec.name_of (plain_part Ix.number_of part.now) }
{
    match part {
        Part::Member { name, .. } => name,
        Part::Enumerator { name, .. } => name,
        _ => b"",
    }
}

// Appends the number of a part among those of its name, from the second one on.
fn push_number(text: &mut String, before: usize) -> Result<(), AllocError>
    ensures { OnOk result (string_bytes text.new ≡ string_bytes text.old ++ numbered before) }
{
    if before == 0 {
        return Ok(());
    }
    let number = before as u128 + 1;
    write!(text, "#{number}")
}

/// Appends the printed name of part `i`. From the second part of a name on, `#` and its number among them follow.
#[tactic(auto, unfolding(crate::specs::Steps::part_name))]
pub(crate) fn push_part_name<Ix: Index>(
    alloc: Global,
    text: &mut String,
    view: &View<Ix>,
    i: usize,
) -> Result<(), AllocError>
    requires { i < length view.now.parts }
    ensures { OnOk result (string_bytes text.new ≡ string_bytes text.old ++ part_name view.now i) }
{
    push_shown(alloc, text, name_of(view.part(i)))?;
    push_number(text, number_of(view, i))
}

// Appends the step by a parameter that has this many before it.
fn push_param(text: &mut String, before: usize) -> Result<(), AllocError>
    ensures { OnOk result (string_bytes text.new
        ≡ string_bytes text.old ++ concat (codes "param " ∷ decimal (before + 1) ∷ [])) }
{
    let number = before as u128 + 1;
    write!(text, "param {number}")
}

/// Appends the step by part `i` of a type: `result`, `param I` counted from 1, `target`, `element`, or `member NAME`. From the
/// second member of a name on, `#K` follows.
#[tactic(auto, unfolding(crate::specs::Steps::step_text))]
pub fn push_step<Ix: Index>(
    alloc: Global,
    text: &mut String,
    view: &View<Ix>,
    i: usize,
) -> Result<(), AllocError>
    requires { i < length view.now.parts }
    ensures { OnOk result (string_bytes text.new ≡ string_bytes text.old ++ step_text view.now i) }
{
    match view.part(i) {
        Part::Member { .. } => {
            text.push_str("member ")?;
            push_part_name(alloc, text, view, i)
        }
        Part::Enumerator { .. } => Ok(()),
        Part::Target { .. } => text.push_str("target"),
        Part::Element { .. } => text.push_str("element"),
        Part::Outcome { .. } => text.push_str("result"),
        Part::Param { .. } => push_param(text, number_of(view, i)),
    }
}
