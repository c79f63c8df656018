// The names of parameters.
ghost use Rattle.std.specs.Prelude.{◌≡◌, ◌<◌, ◌++◌, length, All, IfOk, OnOk, string_bytes};
ghost use Rattle.std.specs.List.{flat_map};
ghost use Rattle.std.specs.Option.{option_copied};
ghost use Rattle.type_notes.specs.Texts.{name_text, named_behind};
ghost use Rattle.type_notes.specs.Texts as spec;

use crate::rest::rest_of;
use abi_base::NoMemory;
use abi_base::dwarf::DW_TAG_formal_parameter;
use abi_types::push_shown;
use dwarf_entries::Dwarf;
use dwarf_tree::EntryNumber;
use std::alloc::{AllocError, Global};
use type_reach::body_of;

// Appends a name, or a note that it is missing.
pub(crate) fn push_name(
    alloc: Global,
    text: &mut String,
    name: Option<&[u8]>,
) -> Result<(), AllocError>
    ensures { OnOk result (string_bytes text.new ≡ string_bytes text.old ++ name_text (option_copied name.entry)) }
{
    match name {
        None => text.push_str("without a name"),
        Some(name) => push_shown(alloc, text, name),
    }
}

// Appends the name of a parameter, with the separator in front.
fn push_behind(
    alloc: Global,
    text: &mut String,
    dwarf: &Dwarf,
    parameter: EntryNumber,
) -> Result<(), AllocError>
    requires { parameter < length dwarf.now.tree.entries }
    ensures { OnOk result (string_bytes text.new ≡ string_bytes text.old ++ named_behind dwarf.now parameter) }
{
    text.push_str(", ")?;
    push_name(alloc, text, dwarf.name_of(parameter))
}

// Appends the names of parameters, each with the separator in front.
fn push_all(
    alloc: Global,
    text: &mut String,
    dwarf: &Dwarf,
    parameters: &[EntryNumber],
) -> Result<(), AllocError>
    requires { All (λ p. p < length dwarf.now.tree.entries) parameters.now }
    ensures { OnOk result (string_bytes text.new
        ≡ string_bytes text.old ++ flat_map (named_behind dwarf.now) parameters.now) }
{
    for k in 0..parameters.len() {
        let parameter = parameters[k];
        push_behind(alloc, text, dwarf, parameter)?;
    }
    Ok(())
}

// The names of the parameters of a function, as a text.
#[tactic(auto, unfolding(crate::specs::Texts::names_text, type_reach::specs::References::tagged_children))]
pub(crate) fn names_text(alloc: Global, dwarf: &Dwarf, e: EntryNumber) -> Result<Vec<u8>, NoMemory>
    requires { e < length dwarf.now.tree.entries }
    ensures { IfOk result (λ text. text.items ≡ spec.names_text dwarf.now e) }
{
    let parameters = dwarf.tagged(alloc, body_of(dwarf, e), DW_TAG_formal_parameter)?;
    let mut text = String::new(alloc);
    push_all(alloc, &mut text, dwarf, parameters.as_slice())?;
    rest_of(alloc, &text, 2)
}
