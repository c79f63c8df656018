// Exports that were compared without their types.
ghost use Rattle.std.specs.Prelude.{◌≡◌, ◌==◌, IfOk, IfSome, IsTrue, is_none, is_some, string_bytes};
ghost use Rattle.explain.specs.Lines.{is_one_line};
ghost use Rattle.explain.specs.Sentences as spec;
ghost use Rattle.explain.specs.Sentences.{said_of, sizeless_words, untyped_words};

use crate::lines::said;
use abi_base::{NoMemory, Remark, SizedExports};
use std::alloc::{AllocError, Global};

// The words about such exports.
fn words_of(alloc: Global, exports: SizedExports) -> Result<String, AllocError>
    ensures { IfOk result (λ words. string_bytes words ≡ untyped_words exports) }
{
    let SizedExports { all, untyped } = exports;
    if untyped == all {
        String::from_str(
            alloc,
            "the debug information has no types for the exports: only names, versions, kinds and the sizes of objects were compared; compile with -g to compare types",
        )
    } else {
        format!(in alloc;
            "the debug information has no type for {untyped} of the {all} exports that have a size: of these only names, versions, kinds and the sizes of objects were compared"
        )
    }
}

/// The sentence on a library at a path some of whose exports have no type in the debug information. It is `None` exactly if each
/// export has its type. It is one line, whatever characters the path has.
pub fn untyped_sentence(
    alloc: Global,
    path: &str,
    exports: SizedExports,
) -> Result<Option<String>, NoMemory>
    ensures none { IfOk result (λ said. is_none said ≡ (exports.untyped == 0)) }
    ensures says { IfOk result (λ said. IfSome said (λ text. string_bytes text
        ≡ said_of path.now (untyped_words exports))) }
    ensures line { IfOk result (λ said. IfSome said (λ text. IsTrue (is_one_line (string_bytes text)))) }
{
    if exports.untyped == 0 {
        return Ok(None);
    }
    let words = words_of(alloc, exports)?;
    Ok(Some(said(alloc, path, words.as_str())?))
}

// Whether a library has a type for an export with a size.
fn has_types(exports: SizedExports) -> bool
    ensures { result ≡ spec.has_types exports }
{
    exports.untyped < exports.all
}

// Whether a library has exports with a size, but types for none of them.
fn lacks_types(exports: SizedExports) -> bool
    ensures { result ≡ spec.lacks_types exports }
{
    0 < exports.all && exports.untyped == exports.all
}

// Whether a new library lost the types that the old one has.
fn loses_types(remark: Remark) -> bool
    ensures { result ≡ spec.loses_types remark }
{
    has_types(remark.old) && lacks_types(remark.new)
}

// The words about a library without types, if the old one has some.
fn lost_words(alloc: Global, old: &str) -> Result<String, AllocError>
    ensures { IfOk result (λ words. string_bytes words ≡ spec.lost_words old.now) }
{
    format!(in alloc;
        "the debug information has no types for the exports, but that of {old} has: whether their types broke cannot be told"
    )
}

/// The sentence on a new library at a path that has no types for its exports, although the old one, at the path `old`, has some. It
/// is `Some` exactly if the old library has a type for an export with a size, and the new one has exports with a size but a type
/// for none of them. It is one line, whatever characters the paths have.
pub fn lost_sentence(
    alloc: Global,
    path: &str,
    old: &str,
    remark: Remark,
) -> Result<Option<String>, NoMemory>
    ensures some { IfOk result (λ said. is_some said ≡ spec.loses_types remark) }
    ensures says { IfOk result (λ said. IfSome said (λ text. string_bytes text
        ≡ said_of path.now (spec.lost_words old.now))) }
    ensures line { IfOk result (λ said. IfSome said (λ text. IsTrue (is_one_line (string_bytes text)))) }
{
    if !loses_types(remark) {
        return Ok(None);
    }
    let words = lost_words(alloc, old)?;
    Ok(Some(said(alloc, path, words.as_str())?))
}

// The words about a library none of whose exports has a size.
const SIZELESS_WORDS: &str =
    "none of its exports has a size: names, versions and kinds were compared, and types only where an export without a size has one";

/// The sentence on a library at a path none of whose exports has a size. It is `Some` exactly if none has. It is one line, whatever
/// characters the path has.
pub fn sizeless_sentence(
    alloc: Global,
    path: &str,
    exports: SizedExports,
) -> Result<Option<String>, NoMemory>
    ensures some { IfOk result (λ said. is_some said ≡ (exports.all == 0)) }
    ensures says { IfOk result (λ said. IfSome said (λ text. string_bytes text ≡ said_of path.now sizeless_words)) }
    ensures line { IfOk result (λ said. IfSome said (λ text. IsTrue (is_one_line (string_bytes text)))) }
{
    if exports.all == 0 {
        Ok(Some(said(alloc, path, SIZELESS_WORDS)?))
    } else {
        Ok(None)
    }
}
