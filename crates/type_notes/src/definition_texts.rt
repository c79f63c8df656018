// The texts of definitions of types.
ghost use Rattle.std.specs.Prelude.{◌≡◌, ◌<◌, ◌+◌, ◌++◌, length, All, IfOk, IfSome, OnOk, string_bytes};
ghost use Rattle.std.specs.List.{flat_map};
ghost use Rattle.abi_base.specs.Limits.{depth_limit};
ghost use Rattle.dwarf_entries.specs.Chains as names;
ghost use Rattle.type_notes.specs.DefinitionTexts as spec;
ghost use Rattle.type_notes.specs.Texts as texts;

use crate::chain::ENTRIES;
use crate::dimensions::dimensions_text;
use crate::member_places::push_place;
use crate::names::push_name;
use crate::sign::is_signed_encoding;
use abi_base::dwarf::{
    DW_AT_byte_size, DW_AT_const_value, DW_AT_encoding, DW_ATE_UTF, DW_ATE_boolean,
    DW_ATE_complex_float, DW_ATE_decimal_float, DW_ATE_float, DW_ATE_unsigned,
    DW_ATE_unsigned_char, DW_TAG_enumeration_type, DW_TAG_enumerator, DW_TAG_member,
    DW_TAG_structure_type, DW_TAG_union_type,
};
use abi_base::{List, NoMemory};
use abi_types::push_shown;
use dwarf_entries::Dwarf;
use dwarf_tree::EntryNumber;
use std::alloc::{AllocError, Global};
use std::fmt::Write;
use type_reach::{Role, number_at, role_of, type_of, wrapped_of};

// The word for a base type, by its encoding.
#[tactic(auto, unfolding(crate::specs::DefinitionTexts::encoding_word))]
fn encoding_word(encoding: u64) -> &'static str
    ensures { result.now ≡ spec.encoding_word encoding }
{
    if is_signed_encoding(encoding) {
        return "signed integer";
    }
    match encoding {
        DW_ATE_unsigned | DW_ATE_unsigned_char | DW_ATE_UTF => "unsigned integer",
        DW_ATE_boolean => "boolean",
        DW_ATE_float => "float",
        DW_ATE_complex_float => "complex float",
        DW_ATE_decimal_float => "decimal float",
        _ => "number",
    }
}

// Appends the size of a type in bytes.
fn push_size(text: &mut String, dwarf: &Dwarf, e: EntryNumber) -> Result<(), AllocError>
    requires { e < length dwarf.now.tree.entries }
    ensures { OnOk result (string_bytes text.new ≡ string_bytes text.old ++ spec.size_of dwarf.now.tree e) }
{
    let size = number_at(dwarf, e, DW_AT_byte_size);
    write!(text, "{size}")
}

// Appends a base type by its size and the word for its encoding.
fn push_base(text: &mut String, dwarf: &Dwarf, e: EntryNumber) -> Result<(), AllocError>
    requires { e < length dwarf.now.tree.entries }
    ensures { OnOk result (string_bytes text.new ≡ string_bytes text.old ++ spec.base_text dwarf.now.tree e) }
{
    push_size(text, dwarf, e)?;
    text.push_str("-byte ")?;
    text.push_str(encoding_word(number_at(dwarf, e, DW_AT_encoding)))
}

// The keyword in front of the name of a type, by its tag.
fn keyword_of(tag: u64) -> &'static str
    ensures { result.now ≡ spec.keyword_of tag }
{
    if tag == DW_TAG_structure_type {
        "struct "
    } else if tag == DW_TAG_union_type {
        "union "
    } else {
        "enum "
    }
}

// Appends a name, or the size of a type without a name.
fn push_name_or_size(
    alloc: Global,
    text: &mut String,
    dwarf: &Dwarf,
    e: EntryNumber,
) -> Result<(), AllocError>
    requires { e < length dwarf.now.tree.entries }
    ensures { OnOk result (string_bytes text.new
        ≡ string_bytes text.old ++ spec.name_or_size dwarf.now.tree e (names.name_of dwarf.now e)) }
{
    match dwarf.name_of(e) {
        Some(name) => push_shown(alloc, text, name),
        None => {
            text.push_str("of size ")?;
            push_size(text, dwarf, e)
        }
    }
}

// Appends a structure, a union or an enumeration by its name.
fn push_tag(
    alloc: Global,
    text: &mut String,
    dwarf: &Dwarf,
    e: EntryNumber,
) -> Result<(), AllocError>
    requires { e < length dwarf.now.tree.entries }
    ensures { OnOk result (string_bytes text.new ≡ string_bytes text.old ++ spec.tag_text dwarf.now e) }
{
    text.push_str(keyword_of(dwarf.tag(e)))?;
    push_name_or_size(alloc, text, dwarf, e)
}

// Appends `array` and the dimensions of an array.
fn push_array(
    alloc: Global,
    text: &mut String,
    dwarf: &Dwarf,
    e: EntryNumber,
) -> Result<(), NoMemory>
    requires { e < length dwarf.now.tree.entries }
    ensures { OnOk result (string_bytes text.new ≡ string_bytes text.old ++ spec.array_text dwarf.now.tree e) }
{
    let dimensions = dimensions_text(alloc, dwarf, e)?;
    text.push_str("array ")?;
    text.push_str(dimensions.as_str())?;
    text.push_str(" of ")?;
    Ok(())
}

// Appends the part of a type's text that one entry contributes.
#[tactic(auto, unfolding(crate::specs::DefinitionTexts::type_word))]
fn push_word(
    alloc: Global,
    text: &mut String,
    dwarf: &Dwarf,
    e: EntryNumber,
) -> Result<(), NoMemory>
    requires { e < length dwarf.now.tree.entries }
    ensures { OnOk result (string_bytes text.new ≡ string_bytes text.old ++ spec.type_word dwarf.now e) }
{
    match role_of(dwarf, e) {
        Role::Base => push_base(text, dwarf, e)?,
        Role::Aggregate | Role::Enumeration => push_tag(alloc, text, dwarf, e)?,
        Role::Pointer => text.push_str("pointer to ")?,
        Role::Array => push_array(alloc, text, dwarf, e)?,
        Role::Function => text.push_str("function")?,
        _ => {}
    }
    Ok(())
}

// Whether the text of a type continues with the type of an entry of a role.
fn goes_on(role: Role) -> bool
    ensures { result ≡ spec.goes_on role }
{
    matches!(role, Role::Wrapper | Role::Pointer | Role::Array)
}

// Appends a type.
fn push_type(
    alloc: Global,
    text: &mut String,
    dwarf: &Dwarf,
    from: Option<EntryNumber>,
) -> Result<(), NoMemory>
    requires { IfSome from (λ e. e < length dwarf.now.tree.entries) }
    ensures { OnOk result (string_bytes text.new
        ≡ string_bytes text.old ++ spec.type_text dwarf.now (depth_limit + 1) from) }
{
    let mut at = from;
    'chain: for passed in 0..ENTRIES {
        match at {
            None => {
                text.push_str("void")?;
                return Ok(());
            }
            Some(e) => {
                push_word(alloc, text, dwarf, e)?;
                if !goes_on(role_of(dwarf, e)) {
                    return Ok(());
                }
                at = type_of(dwarf, e);
            }
        }
    }
    Ok(())
}

// A member by its name, its position and its type.
#[tactic(auto, unfolding(crate::specs::DefinitionTexts::member_text))]
fn member_text(alloc: Global, dwarf: &Dwarf, m: EntryNumber) -> Result<String, NoMemory>
    requires { m < length dwarf.now.tree.entries }
    ensures { IfOk result (λ text. string_bytes text ≡ spec.member_text dwarf.now m) }
{
    let mut text = String::new(alloc);
    text.push_str("member ")?;
    push_name(alloc, &mut text, dwarf.name_of(m))?;
    push_place(&mut text, dwarf, m)?;
    text.push_str(": ")?;
    push_type(alloc, &mut text, dwarf, type_of(dwarf, m))?;
    Ok(text)
}

// Appends a number, or a note that there is none.
fn push_number(text: &mut String, number: Option<u64>) -> Result<(), AllocError>
    ensures { OnOk result (string_bytes text.new ≡ string_bytes text.old ++ texts.number_text number) }
{
    match number {
        None => text.push_str("none"),
        Some(number) => write!(text, "{number}"),
    }
}

// An enumerator by its name and its value.
#[tactic(auto, unfolding(crate::specs::DefinitionTexts::enumerator_text))]
fn enumerator_text(alloc: Global, dwarf: &Dwarf, c: EntryNumber) -> Result<String, NoMemory>
    requires { c < length dwarf.now.tree.entries }
    ensures { IfOk result (λ text. string_bytes text ≡ spec.enumerator_text dwarf.now c) }
{
    let mut text = String::new(alloc);
    text.push_str("enumerator ")?;
    push_name(alloc, &mut text, dwarf.name_of(c))?;
    text.push_str(" ")?;
    push_number(&mut text, wrapped_of(dwarf.attr(c, DW_AT_const_value)))?;
    Ok(text)
}

/// The text of a member or an enumerator.
pub(crate) fn part_text(alloc: Global, dwarf: &Dwarf, m: EntryNumber) -> Result<Vec<u8>, NoMemory>
    requires { m < length dwarf.now.tree.entries }
    ensures { IfOk result (λ text. text.items ≡ spec.part_text dwarf.now m) }
{
    let text = if dwarf.tag(m) == DW_TAG_enumerator {
        enumerator_text(alloc, dwarf, m)?
    } else {
        member_text(alloc, dwarf, m)?
    };
    Ok(text.into_bytes())
}

/// The members of a structure or a union, or the enumerators of an enumeration, in order.
#[tactic(auto, unfolding(crate::specs::DefinitionTexts::parts_of, type_reach::specs::References::tagged_children))]
pub(crate) fn parts_of(
    alloc: Global,
    dwarf: &Dwarf,
    e: EntryNumber,
) -> Result<Vec<EntryNumber>, NoMemory>
    requires { e < length dwarf.now.tree.entries }
    ensures parts { IfOk result (λ list. list.items ≡ spec.parts_of dwarf.now.tree e) }
    ensures inside { IfOk result (λ list. All (λ m. m < length dwarf.now.tree.entries) list.items) }
{
    let tag = if dwarf.tag(e) == DW_TAG_enumeration_type {
        DW_TAG_enumerator
    } else {
        DW_TAG_member
    };
    dwarf.tagged(alloc, e, tag)
}

/// The text of a definition's size.
pub(crate) fn size_text(alloc: Global, dwarf: &Dwarf, e: EntryNumber) -> Result<Vec<u8>, NoMemory>
    requires { e < length dwarf.now.tree.entries }
    ensures { IfOk result (λ text. text.items ≡ spec.size_text dwarf.now.tree e) }
{
    let mut text = String::new(alloc);
    text.push_str("size ")?;
    push_size(&mut text, dwarf, e)?;
    Ok(text.into_bytes())
}

// Appends members or enumerators, each with the separator in front.
fn push_parts(
    alloc: Global,
    text: &mut Vec<u8>,
    dwarf: &Dwarf,
    parts: &[EntryNumber],
) -> Result<(), NoMemory>
    requires { All (λ m. m < length dwarf.now.tree.entries) parts.now }
    ensures { OnOk result (text.new.items ≡ text.old.items ++ flat_map (spec.part_behind dwarf.now) parts.now) }
{
    for k in 0..parts.len() {
        let part = parts[k];
        push_part(alloc, text, dwarf, part)?;
    }
    Ok(())
}

// Appends a member or an enumerator, with the separator in front.
fn push_part(
    alloc: Global,
    text: &mut Vec<u8>,
    dwarf: &Dwarf,
    m: EntryNumber,
) -> Result<(), NoMemory>
    requires { m < length dwarf.now.tree.entries }
    ensures { OnOk result (text.new.items ≡ text.old.items ++ spec.part_behind dwarf.now m) }
{
    let part = part_text(alloc, dwarf, m)?;
    text.extend_from_slice(b", ")?;
    text.extend_from_slice(part.as_slice())?;
    Ok(())
}

/// The text of a whole definition: its size, and its members or enumerators in order.
#[tactic(auto, unfolding(crate::specs::DefinitionTexts::definition_text))]
pub(crate) fn definition_text(
    alloc: Global,
    dwarf: &Dwarf,
    e: EntryNumber,
) -> Result<List<u8>, NoMemory>
    requires { e < length dwarf.now.tree.entries }
    ensures { IfOk result (λ text. text ≡ spec.definition_text dwarf.now e) }
{
    let mut text = size_text(alloc, dwarf, e)?;
    let parts = parts_of(alloc, dwarf, e)?;
    push_parts(alloc, &mut text, dwarf, parts.as_slice())?;
    Ok(List::of(text))
}
