// The encodings of base types and the values of enumerators.
ghost use Rattle.std.specs.Prelude.{◌≡◌, ◌<◌, length, All, Some, IfOk, IfErr};
ghost use Rattle.abi_base.specs.declared.fault.NoMemory.TheVariants.{Allocation};
ghost use Rattle.std.specs.List.{list_all};
ghost use Rattle.abi_base.specs.Dwarf.{dw_tag_enumerator};
ghost use Rattle.type_reach.specs.References.{tagged_children};
ghost use Rattle.type_reach.specs.Facts.{facts_of};
ghost use Rattle.type_reach.specs.Views as views;
ghost use Rattle.type_reach.specs.Shapes.{encoding_group};
ghost use Rattle.type_reach.specs.Shapes as shapes;

use crate::labels::name_or_empty;
use crate::limits::QUAD_SIZE;
use abi_base::NoMemory;
use abi_base::dwarf::{
    DW_AT_const_value, DW_AT_encoding, DW_ATE_UTF, DW_ATE_boolean, DW_ATE_complex_float,
    DW_ATE_decimal_float, DW_ATE_float, DW_ATE_signed, DW_ATE_signed_char, DW_ATE_unsigned,
    DW_ATE_unsigned_char, DW_TAG_enumerator,
};
use abi_types::Group;
use dwarf_entries::Dwarf;
use dwarf_tree::EntryNumber;
use std::alloc::Global;
use type_reach::{natural_of, wrapped_of};

// What the bits of a base type mean, by its encoding.
#[tactic(auto, unfolding(type_reach::specs::Shapes::group_by))]
fn group_by(encoding: u64) -> Option<Group>
    ensures { result ≡ shapes.group_by encoding }
{
    match encoding {
        DW_ATE_boolean => Some(Group::Bool),
        DW_ATE_signed | DW_ATE_signed_char => Some(Group::Signed),
        DW_ATE_unsigned | DW_ATE_unsigned_char | DW_ATE_UTF => Some(Group::Unsigned),
        DW_ATE_float => Some(Group::Float),
        DW_ATE_complex_float => Some(Group::Complex),
        DW_ATE_decimal_float => Some(Group::Decimal),
        _ => None,
    }
}

// What the bits of a base type mean; none where its encoding is missing or not listed.
#[tactic(auto, unfolding(type_reach::specs::Shapes::encoding_group))]
pub(crate) fn group_of_encoding(dwarf: &Dwarf, e: EntryNumber) -> Option<Group>
    requires { e < length dwarf.now.tree.entries }
    ensures { result ≡ encoding_group dwarf.now.tree e }
{
    match natural_of(dwarf.attr(e, DW_AT_encoding)) {
        Some(encoding) => group_by(encoding),
        None => None,
    }
}

#[tactic(auto, unfolding(type_reach::specs::Shapes::is_good_enumerator))]
fn is_good_enumerator(dwarf: &Dwarf, c: EntryNumber) -> bool
    requires { c < length dwarf.now.tree.entries }
    ensures { result ≡ shapes.is_good_enumerator dwarf.now.tree c }
{
    wrapped_of(dwarf.attr(c, DW_AT_const_value)).is_some()
}

// Whether all of these have a constant.
fn are_good_enumerators(dwarf: &Dwarf, enumerators: &[EntryNumber]) -> bool
    requires { All (λ c. c < length dwarf.now.tree.entries) enumerators.now }
    ensures { result ≡ list_all (shapes.is_good_enumerator dwarf.now.tree) enumerators.now }
{
    enumerators.iter().all(|c| is_good_enumerator(dwarf, *c))
}

// Whether all enumerators of an entry have a constant.
#[tactic(auto, unfolding(type_reach::specs::References::tagged_children))]
pub(crate) fn good_enumerators(
    alloc: Global,
    dwarf: &Dwarf,
    e: EntryNumber,
) -> Result<bool, NoMemory>
    requires { e < length dwarf.now.tree.entries }
    ensures good { IfOk result (λ good. good
        ≡ list_all (shapes.is_good_enumerator dwarf.now.tree) (tagged_children dwarf.now.tree e dw_tag_enumerator)) }
    ensures named { IfErr result (λ e. e ≡ Allocation) }
{
    let enumerators = dwarf.tagged(alloc, e, DW_TAG_enumerator)?;
    Ok(are_good_enumerators(dwarf, enumerators.as_slice()))
}

// Whether a name is that of a floating-point type of 128 bits.
fn is_quad_name(name: &[u8]) -> bool
    ensures { result ≡ views.is_quad_name name.now }
{
    name == b"_Float128".as_slice() || name == b"__float128".as_slice()
}

/// What the bits of a base type of a size mean.
#[tactic(auto, unfolding(type_reach::specs::Views::group_of))]
pub(crate) fn group_of(dwarf: &Dwarf, c: EntryNumber, size: u64) -> Group
    requires inside { c < length dwarf.now.tree.entries }
    requires size { size ≡ (facts_of dwarf.now (Some c)).size }
    ensures { result ≡ views.group_of dwarf.now c }
{
    match group_of_encoding(dwarf, c) {
        Some(Group::Float) => {
            if size == QUAD_SIZE && is_quad_name(name_or_empty(dwarf, c)) {
                Group::Quad
            } else {
                Group::Float
            }
        }
        Some(group) => group,
        None => Group::Bool,
    }
}
