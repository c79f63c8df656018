// Certificates of other files.
ghost use Rattle.std.specs.Prelude.{◌≡◌, IfOk, IfSome, IsTrue, None, Some, map, option_map, string_bytes};
ghost use Rattle.std.specs.Str.{bytes_eq};
ghost use Rattle.commands.specs.Commands.{plain_file};
ghost use Rattle.explain.specs.Lines.{is_one_line};
ghost use Rattle.explain.specs.OtherInputs.{TellsOf, TellsOther, TellsOtherInput, ruleless_words};
ghost use Rattle.explain.specs.OtherInputs as spec;
ghost use Rattle.explain.specs.Sentences.{said_of};

use crate::lines::said;
use crate::notes::name_of;
use abi_base::NoMemory;
use commands::{File, Input};
use std::alloc::{AllocError, Global};

/// An input that is not the one that a certificate is of.
#[derive(Clone, Copy)]
pub(crate) enum OtherInput {
    /// The old library.
    Old,
    /// The new library.
    New,
    /// The rule file.
    Rules,
    /// The old library of the first of two certificates.
    FirstOld,
    /// The new library of the first of two certificates.
    FirstNew,
    /// The rule file of the first of two certificates.
    FirstRules,
    /// The old library of the second of two certificates.
    SecondOld,
    /// The new library of the second of two certificates.
    SecondNew,
    /// The rule file of the second of two certificates.
    SecondRules,
}

// The roles of an input in a certificate.
const OLD: &str = "old library";

const NEW: &str = "new library";

const RULES: &str = "rule file";

// Whether two texts are equal.
fn is_same(one: &[u8], other: &[u8]) -> bool
    ensures { result ≡ bytes_eq one.now other.now }
{
    one == other
}

/// The input that an answer is about, if the answer refuses a certificate because of another input.
#[tactic(auto, unfolding(crate::specs::OtherInputs::other_input))]
pub(crate) fn other_input(answer: &[u8]) -> Option<OtherInput>
    ensures { result ≡ spec.other_input answer.now }
{
    if is_same(answer, b"refused 70 OtherInput 2\n") {
        Some(OtherInput::Old)
    } else if is_same(answer, b"refused 70 OtherInput 3\n") {
        Some(OtherInput::New)
    } else if is_same(answer, b"refused 70 OtherInput 4\n") {
        Some(OtherInput::Rules)
    } else if is_same(answer, b"refused first 70 OtherInput 2\n") {
        Some(OtherInput::FirstOld)
    } else if is_same(answer, b"refused first 70 OtherInput 3\n") {
        Some(OtherInput::FirstNew)
    } else if is_same(answer, b"refused first 70 OtherInput 4\n") {
        Some(OtherInput::FirstRules)
    } else if is_same(answer, b"refused second 70 OtherInput 2\n") {
        Some(OtherInput::SecondOld)
    } else if is_same(answer, b"refused second 70 OtherInput 3\n") {
        Some(OtherInput::SecondNew)
    } else if is_same(answer, b"refused second 70 OtherInput 4\n") {
        Some(OtherInput::SecondRules)
    } else {
        None
    }
}

// The words about a file that is not the one of the certificate at a path with this role.
fn other_words(alloc: Global, role: &str, certificate: &str) -> Result<String, AllocError>
    ensures { IfOk result (λ words. string_bytes words ≡ spec.other_words role.now certificate.now) }
{
    format!(in alloc; "it is not the {role} of the certificate {certificate}")
}

// The sentence on a file at a path that is not the one of the certificate with this role.
fn differs_sentence(
    alloc: Global,
    path: &str,
    role: &str,
    certificate: &str,
) -> Result<String, NoMemory>
    ensures says { IfOk result (λ text. string_bytes text
        ≡ said_of path.now (spec.other_words role.now certificate.now)) }
    ensures line { IfOk result (λ text. IsTrue (is_one_line (string_bytes text))) }
{
    let words = other_words(alloc, role, certificate)?;
    Ok(said(alloc, path, words.as_str())?)
}

// The sentence on a certificate at a path that was made with a rule file, if none is given.
fn ruleless_sentence(alloc: Global, certificate: &str) -> Result<String, NoMemory>
    ensures says { IfOk result (λ text. string_bytes text ≡ said_of certificate.now ruleless_words) }
    ensures line { IfOk result (λ text. IsTrue (is_one_line (string_bytes text))) }
{
    let words = "it was made with a rule file, and none is given";
    Ok(said(alloc, certificate, words)?)
}

// The sentence on an input that is not the one of a certificate with this role.
fn sentence_of(
    alloc: Global,
    files: &[File<'_>],
    certificate: Input,
    which: Input,
    role: &str,
) -> Result<Option<String>, NoMemory>
    ensures tells { IfOk result (λ found. TellsOf (map plain_file files.now) certificate which role.now
        (option_map string_bytes found)) }
    ensures line { IfOk result (λ found. IfSome found (λ text. IsTrue (is_one_line (string_bytes text)))) }
{
    let Some(name) = name_of(files, certificate) else {
        return Ok(None);
    };
    let Some(path) = name_of(files, which) else {
        let note = ruleless_sentence(alloc, name)?;
        return Ok(Some(note));
    };
    let note = differs_sentence(alloc, path, role, name)?;
    Ok(Some(note))
}

// The sentence on an input that is not the one of its certificate.
fn sentence_on(
    alloc: Global,
    files: &[File<'_>],
    other: OtherInput,
) -> Result<Option<String>, NoMemory>
    ensures tells { IfOk result (λ found. TellsOther (map plain_file files.now) other (option_map string_bytes found)) }
    ensures line { IfOk result (λ found. IfSome found (λ text. IsTrue (is_one_line (string_bytes text)))) }
{
    match other {
        OtherInput::Old => sentence_of(alloc, files, Input::Certificate, Input::Old, OLD),
        OtherInput::New => sentence_of(alloc, files, Input::Certificate, Input::New, NEW),
        OtherInput::Rules => sentence_of(alloc, files, Input::Certificate, Input::Rules, RULES),
        OtherInput::FirstOld => sentence_of(alloc, files, Input::Certificate1, Input::First, OLD),
        OtherInput::FirstNew => sentence_of(alloc, files, Input::Certificate1, Input::Middle, NEW),
        OtherInput::FirstRules => sentence_of(
            alloc,
            files,
            Input::Certificate1,
            Input::Rules,
            RULES,
        ),
        OtherInput::SecondOld => sentence_of(alloc, files, Input::Certificate2, Input::Middle, OLD),
        OtherInput::SecondNew => sentence_of(alloc, files, Input::Certificate2, Input::Last, NEW),
        OtherInput::SecondRules => sentence_of(
            alloc,
            files,
            Input::Certificate2,
            Input::Rules,
            RULES,
        ),
    }
}

/// The sentence on an answer that refuses a certificate because a file is not the one of the certificate: which file it is, by its
/// path, or that no rule file is given. It is one line, whatever characters the paths have. It is `None` for other answers.
pub fn other_input_sentence(
    alloc: Global,
    files: &[File<'_>],
    answer: &[u8],
) -> Result<Option<String>, NoMemory>
    ensures tells { IfOk result (λ found. TellsOtherInput (map plain_file files.now)
        (spec.other_input answer.now) (option_map string_bytes found)) }
    ensures line { IfOk result (λ found. IfSome found (λ text. IsTrue (is_one_line (string_bytes text)))) }
{
    match other_input(answer) {
        Some(other) => sentence_on(alloc, files, other),
        None => Ok(None),
    }
}
