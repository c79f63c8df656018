// The dimensions of arrays.
ghost use Rattle.std.specs.Prelude.{◌≡◌, ◌<◌, ◌++◌, length, All, IfOk, OnOk, string_bytes};
ghost use Rattle.std.specs.List.{flat_map};
ghost use Rattle.type_notes.specs.Texts.{dimension_text};
ghost use Rattle.type_notes.specs.Texts as spec;

use abi_base::NoMemory;
use abi_base::dwarf::{DW_AT_count, DW_AT_upper_bound, DW_TAG_subrange_type};
use dwarf_entries::Dwarf;
use dwarf_tree::EntryNumber;
use std::alloc::{AllocError, Global};
use std::fmt::Write;
use type_reach::{counted_to, natural_of};

// The number of elements of a dimension, or `None` if it is open.
#[tactic(auto, unfolding(crate::specs::Texts::dimension_of))]
fn dimension_of(dwarf: &Dwarf, subrange: EntryNumber) -> Option<u64>
    requires { subrange < length dwarf.now.tree.entries }
    ensures { result ≡ spec.dimension_of dwarf.now.tree subrange }
{
    match natural_of(dwarf.attr(subrange, DW_AT_count)) {
        Some(count) => Some(count),
        None => counted_to(dwarf.attr(subrange, DW_AT_upper_bound)),
    }
}

// Appends a dimension.
fn push_dimension(text: &mut String, dimension: Option<u64>) -> Result<(), AllocError>
    ensures { OnOk result (string_bytes text.new ≡ string_bytes text.old ++ dimension_text dimension) }
{
    match dimension {
        None => text.push_str("[]"),
        Some(count) => write!(text, "[{count}]"),
    }
}

// Appends dimensions, in order.
fn push_dimensions(
    text: &mut String,
    dwarf: &Dwarf,
    subranges: &[EntryNumber],
) -> Result<(), AllocError>
    requires { All (λ s. s < length dwarf.now.tree.entries) subranges.now }
    ensures { OnOk result (string_bytes text.new
        ≡ string_bytes text.old ++ flat_map (λ s. dimension_text (spec.dimension_of dwarf.now.tree s)) subranges.now) }
{
    for k in 0..subranges.len() {
        let subrange = subranges[k];
        push_dimension(text, dimension_of(dwarf, subrange))?;
    }
    Ok(())
}

// The dimensions of an array, as a text.
#[tactic(auto, unfolding(crate::specs::Texts::dimensions_text, type_reach::specs::References::tagged_children))]
pub(crate) fn dimensions_text(
    alloc: Global,
    dwarf: &Dwarf,
    e: EntryNumber,
) -> Result<String, NoMemory>
    requires { e < length dwarf.now.tree.entries }
    ensures { IfOk result (λ text. string_bytes text ≡ spec.dimensions_text dwarf.now.tree e) }
{
    let subranges = dwarf.tagged(alloc, e, DW_TAG_subrange_type)?;
    let mut text = String::new(alloc);
    push_dimensions(&mut text, dwarf, subranges.as_slice())?;
    Ok(text)
}
