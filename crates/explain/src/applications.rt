// How an application and a library fit together.
ghost use Rattle.std.specs.Prelude.{◌≡◌, ◌++◌, [], ◌∷◌, IfOk, IsTrue, OnOk, codes, decimal, map, string_bytes, take};
ghost use Rattle.std.specs.List.{concat};
ghost use Rattle.explain.specs.Applications.{more_words};
ghost use Rattle.explain.specs.Applications as spec;
ghost use Rattle.explain.specs.Lines.{is_one_line};
ghost use Rattle.explain.specs.Sentences.{said_of};

use crate::lines::{is_one, said};
use crate::tags::push_names;
use abi_base::NoMemory;
use std::alloc::{AllocError, Global};
use std::fmt::Write;

// The words about the only import of an application that binds to a library.
fn one_link(alloc: Global, library: &str) -> Result<String, AllocError>
    ensures { IfOk result (λ words. string_bytes words
        ≡ concat (codes "1 of its imports binds to " ∷ library.now ∷ [])) }
{
    format!(in alloc; "1 of its imports binds to {library}")
}

// The words about this many imports of an application that bind to a library.
fn many_links(alloc: Global, library: &str, bound: usize) -> Result<String, AllocError>
    ensures { IfOk result (λ words. string_bytes words
        ≡ concat (decimal bound ∷ codes " of its imports bind to " ∷ library.now ∷ [])) }
{
    format!(in alloc; "{bound} of its imports bind to {library}")
}

// The words about the imports of an application that bind to a library.
fn links_words(alloc: Global, library: &str, bound: usize) -> Result<String, AllocError>
    ensures { IfOk result (λ words. string_bytes words ≡ spec.links_words library.now bound) }
{
    if is_one(bound) {
        one_link(alloc, library)
    } else {
        many_links(alloc, library, bound)
    }
}

/// The sentence on an application at a path, with the number of its imports that bind to a library. It is one line, whatever
/// characters the paths have.
pub fn links_sentence(
    alloc: Global,
    path: &str,
    library: &str,
    bound: usize,
) -> Result<String, NoMemory>
    ensures says { IfOk result (λ text. string_bytes text ≡ said_of path.now (spec.links_words library.now bound)) }
    ensures line { IfOk result (λ text. IsTrue (is_one_line (string_bytes text))) }
{
    let words = links_words(alloc, library, bound)?;
    Ok(said(alloc, path, words.as_str())?)
}

// A sentence names this many exports at most: an application may need thousands, and long names can share their bytes in the file.
const MOST_NAMES: usize = 10;

// The names that a sentence has.
fn first_names<'n, 'b>(names: &'n [&'b [u8]]) -> &'n [&'b [u8]]
    ensures { result.now ≡ take 10 names.entry.now }
{
    if names.len() <= MOST_NAMES {
        names
    } else {
        &names[..MOST_NAMES]
    }
}

// Appends how many more there are.
fn push_more(text: &mut String, more: usize) -> Result<(), AllocError>
    ensures { OnOk result (string_bytes text.new ≡ string_bytes text.old ++ more_words more) }
{
    if more == 0 {
        Ok(())
    } else {
        write!(text, " and {more} more")
    }
}

// The words that the names of the exports follow which a library lacks.
fn lacking_start(alloc: Global, library: &str) -> Result<String, AllocError>
    ensures { IfOk result (λ words. string_bytes words
        ≡ concat (codes "it does not run with " ∷ library.now ∷ codes " either, which lacks" ∷ [])) }
{
    format!(in alloc; "it does not run with {library} either, which lacks")
}

// The words about the exports that a library lacks: the first names, and how many more there are. Names that are not UTF-8 are left
// out.
fn lacking_words(alloc: Global, library: &str, names: &[&[u8]]) -> Result<String, AllocError>
    ensures { let named = map (λ name. name.now) names.now in
        IfOk result (λ words. string_bytes words ≡ spec.lacking_words library.now named) }
{
    let mut words = lacking_start(alloc, library)?;
    push_names(&mut words, " ", first_names(names))?;
    push_more(&mut words, names.len().saturating_sub(MOST_NAMES))?;
    Ok(words)
}

/// The sentence on an application at a path that needs exports with these names, which a library lacks: the first ten names, and how
/// many more there are. It is one line, whatever characters the paths and the names have.
pub fn lacking_sentence(
    alloc: Global,
    path: &str,
    library: &str,
    names: &[&[u8]],
) -> Result<String, NoMemory>
    ensures says { let named = map (λ name. name.now) names.now in
        IfOk result (λ text. string_bytes text ≡ said_of path.now (spec.lacking_words library.now named)) }
    ensures line { IfOk result (λ text. IsTrue (is_one_line (string_bytes text))) }
{
    let words = lacking_words(alloc, library, names)?;
    Ok(said(alloc, path, words.as_str())?)
}
