// The text of a certificate.
ghost use Rattle.std.specs.Prelude.{◌≡◌, ◌∷◌, [], ◌++◌, map, decimal, IfOk, IfErr, OnOk};
ghost use Rattle.abi_base.specs.declared.fault.NoMemory.TheVariants.{Allocation};
ghost use Rattle.cert_text.specs.declared.line.Version.TheVariants.{Two};
ghost use Rattle.cert_text.specs.Grammar.{IsSpelled, lined, spelling, digest_line, bind_of, alike_old_of, alike_new_of, pair_of, way_word};

use crate::cert::Cert;
use crate::line::Line;
use abi_base::NoMemory;
use abi_types::Way;
use itoa::Buffer;
use std::alloc::{AllocError, Global};

// The room for a line whose numbers have at most eight digits, in bytes. For longer lines the text grows.
const LINE_ROOM: usize = 32;

// The room for the first four lines and the last one, in bytes.
const HEAD_ROOM: usize = 256;

// The initial capacity for the text of a certificate, so that it is rarely copied as it grows.
fn room_of(cert: &Cert) -> usize {
    let binds = cert.binds.as_slice().len();
    let alike_old = cert.alike_old.as_slice().len();
    let alike_new = cert.alike_new.as_slice().len();
    let pairs = cert.pairs.as_slice().len();
    let lines = binds
        .saturating_add(alike_old)
        .saturating_add(alike_new)
        .saturating_add(pairs);
    lines.saturating_mul(LINE_ROOM).saturating_add(HEAD_ROOM)
}

// Appends a line with the SHA-256 of an input.
fn push_digest(
    alloc: Global,
    text: &mut Vec<u8>,
    word: &[u8],
    digest: &[u8; 32],
) -> Result<(), AllocError>
    ensures { OnOk result (text.new.items ≡ text.old.items ++ lined (digest_line word.now digest.now ∷ [])) }
{
    let digits = hex::encode(alloc, digest.as_slice())?;
    text.extend_from_slice(word)?;
    text.extend_from_slice(digits.as_bytes())?;
    text.extend_from_slice(b"\n")
}

// The word of a way.
fn word_of(way: Way) -> &'static [u8]
    ensures { result.now ≡ way_word way }
{
    match way {
        Way::Direct => b"direct",
        Way::Pointer => b"pointer",
    }
}

// Appends a number in decimal digits.
fn push_number(text: &mut Vec<u8>, number: u64) -> Result<(), AllocError>
    ensures { OnOk result (text.new.items ≡ text.old.items ++ decimal number) }
{
    let mut buffer = Buffer::new();
    text.extend_from_slice(buffer.format(number).as_bytes())
}

// Appends a word and two numbers.
fn push_numbers(text: &mut Vec<u8>, word: &[u8], one: u64, other: u64) -> Result<(), AllocError>
    ensures { OnOk result (text.new.items ≡ text.old.items ++ (word.now ++ (decimal one ++ 32 ∷ decimal other))) }
{
    text.extend_from_slice(word)?;
    push_number(text, one)?;
    text.extend_from_slice(b" ")?;
    push_number(text, other)
}

// Appends a line without its line feed.
fn push_spelling(text: &mut Vec<u8>, line: Line) -> Result<(), AllocError>
    ensures { OnOk result (text.new.items ≡ text.old.items ++ spelling Two line) }
{
    match line {
        Line::Bind { old, new } => push_numbers(text, b"bind ", u64::from(old), u64::from(new)),
        Line::AlikeOld { entry, rep } => push_numbers(text, b"alike old ", entry, rep),
        Line::AlikeNew { entry, rep } => push_numbers(text, b"alike new ", entry, rep),
        Line::Pair { old, new, way } => {
            push_numbers(text, b"pair ", old, new)?;
            text.extend_from_slice(b" ")?;
            text.extend_from_slice(word_of(way))
        }
        Line::End => text.extend_from_slice(b"end"),
    }
}

// Appends a line.
fn push_line(text: &mut Vec<u8>, line: Line) -> Result<(), AllocError>
    ensures { OnOk result (text.new.items ≡ text.old.items ++ (spelling Two line ++ 10 ∷ [])) }
{
    push_spelling(text, line)?;
    text.extend_from_slice(b"\n")
}

#[tactic(auto, using(crate::proofs::WritingLemmas::written_more))]
fn push_binds(text: &mut Vec<u8>, binds: &[(u32, u32)]) -> Result<(), AllocError>
    ensures { OnOk result (text.new.items ≡ text.old.items ++ lined (map (spelling Two) (map bind_of binds.now))) }
{
    for bind in binds {
        let (old, new) = *bind;
        push_line(text, Line::Bind { old, new })?;
    }
    Ok(())
}

#[tactic(auto, using(crate::proofs::WritingLemmas::written_more))]
fn push_alike_old(text: &mut Vec<u8>, lines: &[(u64, u64)]) -> Result<(), AllocError>
    ensures { OnOk result (text.new.items ≡ text.old.items ++ lined (map (spelling Two) (map alike_old_of lines.now))) }
{
    for line in lines {
        let (entry, rep) = *line;
        push_line(text, Line::AlikeOld { entry, rep })?;
    }
    Ok(())
}

#[tactic(auto, using(crate::proofs::WritingLemmas::written_more))]
fn push_alike_new(text: &mut Vec<u8>, lines: &[(u64, u64)]) -> Result<(), AllocError>
    ensures { OnOk result (text.new.items ≡ text.old.items ++ lined (map (spelling Two) (map alike_new_of lines.now))) }
{
    for line in lines {
        let (entry, rep) = *line;
        push_line(text, Line::AlikeNew { entry, rep })?;
    }
    Ok(())
}

#[tactic(auto, using(crate::proofs::WritingLemmas::written_more))]
fn push_pairs(text: &mut Vec<u8>, pairs: &[(u64, u64, Way)]) -> Result<(), AllocError>
    ensures { OnOk result (text.new.items ≡ text.old.items ++ lined (map (spelling Two) (map pair_of pairs.now))) }
{
    for pair in pairs {
        let (old, new, way) = *pair;
        push_line(text, Line::Pair { old, new, way })?;
    }
    Ok(())
}

/// The text of a certificate, or `NoMemory`.
pub fn write_cert(alloc: Global, cert: &Cert) -> Result<Vec<u8>, NoMemory>
    ensures spelled { IfOk result (λ bytes. IsSpelled bytes.items cert.now) }
    ensures named { IfErr result (λ e. e ≡ Allocation) }
{
    cert.known();
    let mut text = Vec::with_capacity(alloc, room_of(cert))?;
    text.extend_from_slice(b"yes 2\n")?;
    push_digest(alloc, &mut text, b"old ", &cert.old_digest)?;
    push_digest(alloc, &mut text, b"new ", &cert.new_digest)?;
    push_digest(alloc, &mut text, b"rules ", &cert.rules_digest)?;
    push_binds(&mut text, cert.binds.as_slice())?;
    push_alike_old(&mut text, cert.alike_old.as_slice())?;
    push_alike_new(&mut text, cert.alike_new.as_slice())?;
    push_pairs(&mut text, cert.pairs.as_slice())?;
    push_line(&mut text, Line::End)?;
    Ok(text)
}
