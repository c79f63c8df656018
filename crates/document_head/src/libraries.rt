// The facts about inputs in a document.
ghost use Rattle.std.specs.Prelude.{◌≡◌, ◌≤◌, codes, length, map, IfOk};
ghost use Rattle.std.specs.Option.{option_copied};
ghost use Rattle.sha2.specs.Sha256.{sha256};
ghost use Rattle.abi_base.specs.Limits.{input_limit};
ghost use Rattle.commands.specs.Commands.{items_of, plain_file};
ghost use Rattle.commands.specs.Inputs.{input_word};
ghost use Rattle.document_head.specs.Heads.{IsTextOf};
ghost use Rattle.document_head.specs.Inputs.{IsInput, IsNameOf, IsOfFile, IsSoname, input_object, shown_of};
ghost use Rattle.document_head.specs.Inputs as spec;
ghost use Rattle.serde_json.specs.Data.{member, no_members, null, string};
ghost use Rattle.serde_json.specs.View.{members_view, view};

use crate::places::{TypeFacts, type_facts};
use abi_base::NoMemory;
use commands::{File, Input, ReadInputs};
use elf::file::read_elf;
use elf::symbols::soname;
use serde_json::{Map, Value, put};
use sha2::{Digest, Sha256};
use std::alloc::{AllocError, Global};
use std::str;

/// The facts about an input in a document: its object, and the facts about the types that breaks name.
#[derive(Drop)]
pub(crate) struct InputFacts {
    /// The object of the input.
    pub input: Value,
    /// The facts about its types.
    pub types: TypeFacts,
}

/// Bytes as a text, or null if they are not UTF-8.
pub(crate) fn text_value(alloc: Global, bytes: &[u8]) -> Result<Value, AllocError>
    ensures { IfOk result (λ value. IsTextOf bytes.now (view value)) }
{
    match str::from_utf8(bytes) {
        Ok(text) => Value::try_from_str(alloc, text),
        Err(_) => Ok(Value::Null),
    }
}

// The soname in a file with these bytes, if neither its header, its sections nor its dynamic table have a fault.
#[tactic(auto, unfolding(crate::specs::Inputs::soname_in))]
fn soname_in(bytes: &[u8]) -> Option<&[u8]>
    requires { length bytes.now ≤ input_limit }
    ensures { option_copied result ≡ spec.soname_in bytes.now }
{
    let Ok(file) = read_elf(bytes) else {
        return None;
    };
    match soname(&file) {
        Ok(name) => name,
        Err(_) => None,
    }
}

// The soname of a library, or null.
fn soname_of_library(alloc: Global, bytes: &[u8]) -> Result<Value, AllocError>
    requires { length bytes.now ≤ input_limit }
    ensures { IfOk result (λ value. IsNameOf (spec.soname_in bytes.now) (view value)) }
{
    match soname_in(bytes) {
        Some(name) => text_value(alloc, name),
        None => Ok(Value::Null),
    }
}

// Whether an input is a library.
fn is_library(which: Input) -> bool
    ensures { result ≡ spec.is_library which }
{
    match which {
        Input::Rules | Input::Certificate | Input::Certificate1 | Input::Certificate2 => false,
        _ => true,
    }
}

// The SHA-256 of bytes.
fn digest_of(bytes: &[u8]) -> [u8; 32]
    ensures { result ≡ sha256 bytes.now }
{
    Sha256::digest(bytes)
}

// The SHA-256 of bytes, or null if it is not wanted.
fn digest_value(alloc: Global, bytes: &[u8], is_wanted: bool) -> Result<Value, AllocError>
    ensures { IfOk result (λ value. view value ≡ spec.digest_value is_wanted bytes.now) }
{
    if !is_wanted {
        return Ok(Value::Null);
    }
    let digest = digest_of(bytes);
    let digits = hex::encode(alloc, digest.as_slice())?;
    Value::try_from_str(alloc, digits.as_str())
}

// The soname of an input, or null if it is no library or has none.
fn soname_value(alloc: Global, which: Input, bytes: &[u8]) -> Result<Value, AllocError>
    requires { length bytes.now ≤ input_limit }
    ensures { IfOk result (λ value. IsSoname which bytes.now (view value)) }
{
    if is_library(which) {
        soname_of_library(alloc, bytes)
    } else {
        Ok(Value::Null)
    }
}

// The role and the name of an input.
fn named(alloc: Global, file: File<'_>) -> Result<Map<String, Value>, AllocError>
    ensures { IfOk result (λ input. members_view input.entries
        ≡ member (codes "input") (string (input_word file.entry.which))
        (member (codes "name") (string file.entry.name.now) no_members)) }
{
    let mut input = Map::new(alloc);
    let role = Value::try_from_str(alloc, file.which.word())?;
    put(&mut input, alloc, "input", role)?;
    let name = Value::try_from_str(alloc, file.name)?;
    put(&mut input, alloc, "name", name)?;
    Ok(input)
}

// The object of an input with these bytes: its role, its name, its SHA-256, and the soname of a library.
fn input_value(
    alloc: Global,
    file: File<'_>,
    bytes: &[u8],
    with_digests: bool,
) -> Result<Value, AllocError>
    requires { length bytes.now ≤ input_limit }
    ensures { IfOk result (λ value. IsOfFile with_digests (plain_file file.entry) bytes.now (view value)) }
{
    let mut input = named(alloc, file)?;
    let digest = digest_value(alloc, bytes, with_digests)?;
    put(&mut input, alloc, "sha256", digest)?;
    let soname = soname_value(alloc, file.which, bytes)?;
    put(&mut input, alloc, "soname", soname)?;
    Ok(Value::Object(input))
}

// The object of an input that was not read whole.
fn unread_value(alloc: Global, file: File<'_>) -> Result<Value, AllocError>
    ensures { IfOk result (λ value. view value ≡ input_object (plain_file file.entry) null null) }
{
    let mut input = named(alloc, file)?;
    put(&mut input, alloc, "sha256", Value::Null)?;
    put(&mut input, alloc, "soname", Value::Null)?;
    Ok(Value::Object(input))
}

// The member of breaks that holds entries of this input, if there is one.
fn entry_word(which: Input) -> Option<&'static str> {
    match which {
        Input::Old => Some("old_entry"),
        Input::New => Some("new_entry"),
        _ => None,
    }
}

// The facts about an input that was not read whole.
fn unread_facts(alloc: Global, file: File<'_>) -> Result<InputFacts, NoMemory>
    ensures { IfOk result (λ facts. view facts.input ≡ input_object (plain_file file.entry) null null) }
{
    Ok(InputFacts {
        input: unread_value(alloc, file)?,
        types: TypeFacts::none(alloc),
    })
}

// The facts about the types of an input that breaks name.
fn types_in(
    alloc: Global,
    which: Input,
    bytes: &[u8],
    breaks: &[Value],
) -> Result<TypeFacts, NoMemory>
    requires { length bytes.now ≤ input_limit }
{
    match entry_word(which) {
        Some(word) => type_facts(alloc, bytes, breaks, word),
        None => Ok(TypeFacts::none(alloc)),
    }
}

// The facts about an input with these bytes.
fn facts_in(
    alloc: Global,
    file: File<'_>,
    bytes: &[u8],
    breaks: &[Value],
    with_digests: bool,
) -> Result<InputFacts, NoMemory>
    requires { length bytes.now ≤ input_limit }
    ensures { IfOk result (λ facts. IsOfFile with_digests (plain_file file.entry) bytes.now (view facts.input)) }
{
    let types = types_in(alloc, file.which, bytes, breaks)?;
    let input = input_value(alloc, file, bytes, with_digests)?;
    Ok(InputFacts { input, types })
}

/// The facts about an input, by the bytes that were read.
#[tactic(auto, using(crate::proofs::InputLemmas::of_read))]
pub(crate) fn input_facts(
    alloc: Global,
    file: File<'_>,
    read: &ReadInputs,
    breaks: &[Value],
    with_digests: bool,
) -> Result<InputFacts, NoMemory>
    ensures { let shown = shown_of with_digests read.now.roles.items (map items_of read.now.all.items) in
        IfOk result (λ facts. IsInput shown (plain_file file.entry) (view facts.input)) }
{
    match read.bytes_of(file.which) {
        Some(bytes) => facts_in(alloc, file, bytes, breaks, with_digests),
        None => unread_facts(alloc, file),
    }
}
