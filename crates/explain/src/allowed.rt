// What a rule file may have in place of an unknown section or property.
ghost use Rattle.std.specs.Prelude.{◌≡◌, [], IfOk, false, string_bytes};
ghost use Rattle.explain.specs.Faults as spec;

use abi_base::{Fault, FaultKind};
use std::alloc::{AllocError, Global};

// A longer word is quoted by its first characters.
const LONGEST: usize = 60;

const SECTIONS: &str = "; the sections are suppress_function, suppress_variable and suppress_type";

const OF_EXPORTS: &str =
    "; the properties of suppress_function and suppress_variable are label, name, name_regexp, name_not_regexp, symbol_name, symbol_name_regexp, symbol_version, symbol_version_regexp and soname_regexp";

const OF_TYPES: &str =
    "; the properties of suppress_type are label, name, name_regexp, name_not_regexp, soname_regexp, type_kind and accessed_through";

const TYPE_KINDS: &str = "; the values of type_kind are struct, union, enum, typedef and builtin";

const WAYS: &str = "; the values of accessed_through are direct and pointer";

// The line with a number, counted from 1, without blanks at its ends.
fn line_at(rules: &str, number: u64) -> Option<&str> {
    let mut left = number;
    for line in rules.lines() {
        if left <= 1 {
            return Some(line.trim());
        }
        left -= 1;
    }
    None
}

// Whether a line is the head of a section.
fn is_head(line: &str) -> bool {
    line.trim().as_bytes().first() == Some(&b'[')
}

// Whether the line with a number, counted from 1, is in a section on types.
fn is_of_types(rules: &str, number: u64) -> bool {
    let mut is_types = false;
    let mut left = number;
    for line in rules.lines() {
        if left <= 1 {
            return is_types;
        }
        left -= 1;
        if is_head(line) {
            is_types = line.contains("suppress_type");
        }
    }
    is_types
}

// Appends a word in quotes, or its first characters if it is long.
fn push_quoted(text: &mut String, word: &str) -> Result<(), AllocError> {
    text.push_str(": ")?;
    let mut left = LONGEST;
    for c in word.chars() {
        if left == 0 {
            return text.push_str("..");
        }
        left -= 1;
        text.push(c)?;
    }
    Ok(())
}

// The values of a property of types, or the properties if it is unknown or takes any value.
fn allowed_values(property: &str) -> &'static str {
    if property == "type_kind" {
        TYPE_KINDS
    } else if property == "accessed_through" {
        WAYS
    } else {
        OF_TYPES
    }
}

// What a section on types may have in place of a line.
fn allowed_of_types(line: &str) -> &'static str {
    match line.split_once('=') {
        Some((name, _)) => allowed_values(name.trim()),
        None => OF_TYPES,
    }
}

// What a section may have in place of a property, or a property in place of its value.
fn allowed_properties(rules: &str, number: u64, line: &str) -> &'static str {
    if is_of_types(rules, number) {
        allowed_of_types(line)
    } else {
        OF_EXPORTS
    }
}

// Appends the line of a rule file with an unknown section or property, and what is allowed in its place. It appends nothing if the
// bytes have no such line.
fn push_allowed(text: &mut String, fault: Fault, bytes: &[u8]) -> Result<(), AllocError> {
    let Ok(rules) = str::from_utf8(bytes) else {
        return Ok(());
    };
    let Some(line) = line_at(rules, fault.at) else {
        return Ok(());
    };
    push_quoted(text, line)?;
    match fault.kind {
        FaultKind::Section => text.push_str(SECTIONS),
        _ => text.push_str(allowed_properties(rules, fault.at, line)),
    }
}

// Whether the words for a fault go on with what is allowed.
fn has_more(kind: FaultKind) -> bool
    ensures { result ≡ spec.has_more kind }
{
    match kind {
        FaultKind::Section | FaultKind::Property => true,
        _ => false,
    }
}

/// The line of a rule file with an unknown section or property, and what is allowed in its place. It is empty for another fault, and
/// if the bytes have no such line.
pub(crate) fn allowed_in(alloc: Global, fault: Fault, bytes: &[u8]) -> Result<String, AllocError>
    ensures { IfOk result (λ more. spec.has_more fault.kind ≡ false → string_bytes more ≡ []) }
{
    let mut more = String::new(alloc);
    if has_more(fault.kind) {
        push_allowed(&mut more, fault, bytes)?;
    }
    Ok(more)
}
