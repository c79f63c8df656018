// Tags that no structure has.
ghost use Rattle.std.specs.Prelude.{◌≡◌, ◌++◌, IfOk, IsTrue, OnOk, codes, map, string_bytes};
ghost use Rattle.std.specs.Option.{option_copied};
ghost use Rattle.std.specs.Str.{is_utf8};
ghost use Rattle.explain.specs.Lines.{is_one_line};
ghost use Rattle.explain.specs.Sentences.{said_of};
ghost use Rattle.explain.specs.Tags.{declared_words, name_behind, names_words, unknown_words};
ghost use Rattle.explain.specs.Tags as spec;

use crate::lines::said;
use abi_base::NoMemory;
use std::alloc::{AllocError, Global};

/// The bytes as a text, if they are UTF-8.
pub(crate) fn text_of(bytes: &[u8]) -> Option<&str>
    ensures { option_copied result ≡ spec.text_of bytes.now }
{
    match str::from_utf8(bytes) {
        Ok(text) => Some(text),
        Err(_) => None,
    }
}

// Appends a name after other words, if it is UTF-8. The result is whether it is.
fn push_name(text: &mut String, before: &str, name: &[u8]) -> Result<bool, AllocError>
    ensures is { IfOk result (λ is_text. is_text ≡ is_utf8 name.now) }
    ensures text { IfOk result (λ is_text. string_bytes text.new
        ≡ string_bytes text.old ++ name_behind before.now name.now) }
{
    match text_of(name) {
        Some(name) => {
            text.push_str(before)?;
            text.push_str(name)?;
            Ok(true)
        }
        None => Ok(false),
    }
}

// What stands in front of a name.
fn before_name(first: &str, is_first: bool) -> &str
    ensures { result.now ≡ spec.before_name first.now is_first }
{
    if is_first { first } else { ", " }
}

/// Appends those names that are UTF-8, with the text `first` in front of the first one and commas between them.
pub(crate) fn push_names(text: &mut String, first: &str, names: &[&[u8]]) -> Result<(), AllocError>
    ensures { OnOk result (string_bytes text.new
        ≡ string_bytes text.old ++ names_words first.now (map (λ name. name.now) names.now)) }
{
    let mut is_first = true;
    for name in names {
        if push_name(text, before_name(first, is_first), name)? {
            is_first = false;
        }
    }
    Ok(())
}

// Appends whether a structure with the tag is declared.
fn push_declared(words: &mut String, is_declared: bool) -> Result<(), AllocError>
    ensures { OnOk result (string_bytes words.new ≡ string_bytes words.old ++ declared_words is_declared) }
{
    if is_declared {
        words.push_str(" that is defined; one is declared")
    } else {
        Ok(())
    }
}

// The words for an unknown tag, and the tags that are similar.
fn words_of(
    alloc: Global,
    tag: &str,
    is_declared: bool,
    near: &[&[u8]],
) -> Result<String, AllocError>
    ensures { IfOk result (λ words. string_bytes words
        ≡ unknown_words tag.now is_declared (map (λ name. name.now) near.now)) }
{
    let mut words = format!(in alloc; "its exports reach no structure with the tag {tag}")?;
    push_declared(&mut words, is_declared)?;
    push_names(&mut words, "; tags near it: ", near)?;
    Ok(words)
}

/// The sentence on a library at a path whose exports reach no defined structure with this tag: whether one is declared, and the
/// similar tags. It is one line, whatever characters the path and the tags have.
pub fn tag_sentence(
    alloc: Global,
    path: &str,
    tag: &str,
    is_declared: bool,
    near: &[&[u8]],
) -> Result<String, NoMemory>
    ensures says { let near = map (λ name. name.now) near.now in
        IfOk result (λ text. string_bytes text ≡ said_of path.now (unknown_words tag.now is_declared near)) }
    ensures line { IfOk result (λ text. IsTrue (is_one_line (string_bytes text))) }
{
    let words = words_of(alloc, tag, is_declared, near)?;
    Ok(said(alloc, path, words.as_str())?)
}

/// A type with a tag that is no structure.
#[derive(Clone, Copy)]
pub enum TaggedType {
    /// A union.
    Union,
    /// An enumeration.
    Enumeration,
}

// The words about the tag of a type of this kind.
fn kind_words(alloc: Global, tag: &str, kind: &str) -> Result<String, AllocError>
    ensures { IfOk result (λ words. string_bytes words ≡ spec.kind_words tag.now kind.now) }
{
    format!(in alloc; "{tag} is {kind}, and layout prints structures alone")
}

// The sentence on a library at a path whose exports reach a type of this kind with this tag.
fn kind_sentence(alloc: Global, path: &str, tag: &str, kind: &str) -> Result<String, NoMemory>
    ensures says { IfOk result (λ text. string_bytes text ≡ said_of path.now (spec.kind_words tag.now kind.now)) }
    ensures line { IfOk result (λ text. IsTrue (is_one_line (string_bytes text))) }
{
    let words = kind_words(alloc, tag, kind)?;
    Ok(said(alloc, path, words.as_str())?)
}

/// The sentence on a library at a path whose exports reach no structure with this tag, but another type. It is one line, whatever
/// characters the path and the tag have.
pub fn tagged_sentence(
    alloc: Global,
    path: &str,
    tag: &str,
    tagged: TaggedType,
) -> Result<String, NoMemory>
    ensures says { IfOk result (λ text. string_bytes text ≡ said_of path.now (spec.tagged_words tag.now tagged)) }
    ensures line { IfOk result (λ text. IsTrue (is_one_line (string_bytes text))) }
{
    match tagged {
        TaggedType::Union => kind_sentence(alloc, path, tag, "a union"),
        TaggedType::Enumeration => kind_sentence(alloc, path, tag, "an enumeration"),
    }
}
