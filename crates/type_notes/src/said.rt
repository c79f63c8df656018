// The text of an entry in each aspect.
ghost use Rattle.std.specs.Prelude.{◌≡◌, ◌<◌, length, IfOk};
ghost use Rattle.type_notes.specs.declared.aspect.Aspect.TheVariants as aspect_of;
ghost use Rattle.type_notes.specs.Chains as chains;
ghost use Rattle.type_notes.specs.Texts as texts_spec;

use crate::aspect::Aspect;
use crate::chain::has_qualifier;
use crate::constants::{
    DW_AT_address_class, DW_AT_calling_convention, DW_AT_endianity, DW_AT_noreturn,
    DW_AT_prototyped,
};
use crate::dimensions::dimensions_text;
use crate::names::names_text;
use crate::sign::has_sign;
use abi_base::NoMemory;
use abi_base::dwarf::{
    DW_TAG_atomic_type, DW_TAG_const_type, DW_TAG_restrict_type, DW_TAG_volatile_type,
};
use dwarf_entries::Dwarf;
use dwarf_tree::EntryNumber;
use std::alloc::Global;
use type_reach::natural_of;

// A word if a condition holds, else `none`.
fn word_if(alloc: Global, holds: bool, word: &str) -> Result<Vec<u8>, NoMemory>
    ensures { IfOk result (λ text. text.items ≡ texts_spec.word_if holds word.now) }
{
    let word = if holds { word } else { "none" };
    Ok(Vec::from_slice(alloc, word.as_bytes())?)
}

// A number, or a note that there is none.
fn number_text(alloc: Global, number: Option<u64>) -> Result<Vec<u8>, NoMemory>
    ensures { IfOk result (λ text. text.items ≡ texts_spec.number_text number) }
{
    match number {
        None => Ok(Vec::from_slice(alloc, b"none")?),
        Some(number) => {
            let text = format!(in alloc; "{number}")?;
            Ok(text.into_bytes())
        }
    }
}

// The constant value of an entry's attribute.
fn constant_text(
    alloc: Global,
    dwarf: &Dwarf,
    e: EntryNumber,
    name: u64,
) -> Result<Vec<u8>, NoMemory>
    requires { e < length dwarf.now.tree.entries }
    ensures { IfOk result (λ text. text.items ≡ texts_spec.constant_text dwarf.now.tree e name) }
{
    number_text(alloc, natural_of(dwarf.attr(e, name)))
}

// The dimensions of an array.
#[tactic(auto, unfolding(crate::specs::Texts::said))]
fn dimensions(alloc: Global, dwarf: &Dwarf, e: EntryNumber) -> Result<Vec<u8>, NoMemory>
    requires { e < length dwarf.now.tree.entries }
    ensures { IfOk result (λ text. text.items ≡ texts_spec.said aspect_of.Dimensions dwarf.now e) }
{
    let text = dimensions_text(alloc, dwarf, e)?;
    Ok(text.into_bytes())
}

// The word for whether an integer type is signed.
fn sign_word(sign: bool) -> &'static str
    ensures { result.now ≡ texts_spec.sign_word sign }
{
    if sign { "signed" } else { "unsigned" }
}

// The sign of an enumeration.
#[tactic(auto, unfolding(crate::specs::Texts::said))]
fn sign(alloc: Global, dwarf: &Dwarf, e: EntryNumber) -> Result<Vec<u8>, NoMemory>
    requires { e < length dwarf.now.tree.entries }
    ensures { IfOk result (λ text. text.items ≡ texts_spec.said aspect_of.Sign dwarf.now e) }
{
    let word = sign_word(has_sign(alloc, dwarf, e)?);
    Ok(Vec::from_slice(alloc, word.as_bytes())?)
}

// A qualifier, by its tag, of an object or of the type to which a pointer points.
fn qualifier(
    alloc: Global,
    dwarf: &Dwarf,
    e: EntryNumber,
    tag: u64,
    word: &str,
) -> Result<Vec<u8>, NoMemory>
    requires { e < length dwarf.now.tree.entries }
    ensures { IfOk result (λ text. text.items
        ≡ texts_spec.word_if (chains.has_qualifier dwarf.now.tree tag e) word.now) }
{
    word_if(alloc, has_qualifier(dwarf, e, tag), word)
}

// The text of an entry in an aspect.
#[tactic(auto, unfolding(crate::specs::Texts::said))]
pub(crate) fn said(
    alloc: Global,
    aspect: Aspect,
    dwarf: &Dwarf,
    e: EntryNumber,
) -> Result<Vec<u8>, NoMemory>
    requires { e < length dwarf.now.tree.entries }
    ensures { IfOk result (λ text. text.items ≡ texts_spec.said aspect dwarf.now e) }
{
    match aspect {
        Aspect::Dimensions => dimensions(alloc, dwarf, e),
        Aspect::Prototyped => {
            let holds = dwarf.flag_value(e, DW_AT_prototyped);
            word_if(alloc, holds, "prototyped")
        }
        Aspect::CallingConvention => constant_text(alloc, dwarf, e, DW_AT_calling_convention),
        Aspect::AddressClass => constant_text(alloc, dwarf, e, DW_AT_address_class),
        Aspect::NoReturn => {
            let holds = dwarf.flag_value(e, DW_AT_noreturn);
            word_if(alloc, holds, "noreturn")
        }
        Aspect::ParameterNames => names_text(alloc, dwarf, e),
        Aspect::Endianity => constant_text(alloc, dwarf, e, DW_AT_endianity),
        Aspect::Sign => sign(alloc, dwarf, e),
        Aspect::Const | Aspect::ConstObject => {
            qualifier(alloc, dwarf, e, DW_TAG_const_type, "const")
        }
        Aspect::Volatile | Aspect::VolatileObject => {
            qualifier(alloc, dwarf, e, DW_TAG_volatile_type, "volatile")
        }
        Aspect::Restrict => qualifier(alloc, dwarf, e, DW_TAG_restrict_type, "restrict"),
        Aspect::Atomic => qualifier(alloc, dwarf, e, DW_TAG_atomic_type, "atomic"),
    }
}
