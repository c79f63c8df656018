// Whether enumerations are signed.
ghost use Rattle.std.specs.Prelude.{◌≡◌, ◌<◌, length, All, IfOk};
ghost use Rattle.std.specs.List.{list_any};
ghost use Rattle.abi_base.specs.Dwarf.{dw_at_const_value};
ghost use Rattle.dwarf_entries.specs.Chains.{attribute_along};
ghost use Rattle.type_notes.specs.Texts as spec;

use crate::chain::core_of_type;
use abi_base::NoMemory;
use abi_base::dwarf::{
    DW_AT_const_value, DW_AT_encoding, DW_ATE_signed, DW_ATE_signed_char, DW_TAG_enumerator,
};
use dwarf_entries::Dwarf;
use dwarf_forms::Value;
use dwarf_tree::EntryNumber;
use std::alloc::Global;
use type_reach::number_at;

// Whether a value is a negative constant.
fn is_negative(value: Option<Value>) -> bool
    ensures { result ≡ spec.is_negative value }
{
    match value {
        Some(Value::Signed(number)) => number < 0,
        _ => false,
    }
}

// Whether an encoding is that of a signed type.
pub(crate) fn is_signed_encoding(encoding: u64) -> bool
    ensures { result ≡ spec.is_signed_encoding encoding }
{
    encoding == DW_ATE_signed || encoding == DW_ATE_signed_char
}

// Whether one of the enumerators is negative.
fn is_some_negative(dwarf: &Dwarf, enumerators: &[EntryNumber]) -> bool
    requires { All (λ c. c < length dwarf.now.tree.entries) enumerators.now }
    ensures { result ≡ list_any (λ c. spec.is_negative (attribute_along dwarf.now.tree c dw_at_const_value))
        enumerators.now }
{
    for k in 0..enumerators.len() {
        let enumerator = enumerators[k];
        if is_negative(dwarf.attr(enumerator, DW_AT_const_value)) {
            return true;
        }
    }
    false
}

// Whether an enumeration has a negative enumerator.
#[tactic(auto, unfolding(type_reach::specs::References::tagged_children))]
fn has_negative(alloc: Global, dwarf: &Dwarf, e: EntryNumber) -> Result<bool, NoMemory>
    requires { e < length dwarf.now.tree.entries }
    ensures { IfOk result (λ negative. negative ≡ spec.has_negative dwarf.now.tree e) }
{
    let enumerators = dwarf.tagged(alloc, e, DW_TAG_enumerator)?;
    Ok(is_some_negative(dwarf, enumerators.as_slice()))
}

// Whether an enumeration is signed.
#[tactic(auto, unfolding(crate::specs::Texts::has_sign))]
pub(crate) fn has_sign(alloc: Global, dwarf: &Dwarf, e: EntryNumber) -> Result<bool, NoMemory>
    requires { e < length dwarf.now.tree.entries }
    ensures { IfOk result (λ sign. sign ≡ spec.has_sign dwarf.now.tree e) }
{
    match core_of_type(dwarf, e) {
        Some(base) => Ok(is_signed_encoding(number_at(dwarf, base, DW_AT_encoding))),
        None => has_negative(alloc, dwarf, e),
    }
}
