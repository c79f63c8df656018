// Texts that a second list lacks.
ghost use Rattle.std.specs.Prelude.{◌≡◌, ℕ, List, not, position, IfOk};
ghost use Rattle.type_notes.specs.DefinedElsewhere.{has_text, is_among};
ghost use Rattle.type_notes.specs.DefinedElsewhere as spec;

use abi_base::{List, NoMemory};
use std::alloc::Global;
use std::collections::BTreeSet;

// The set of the texts.
fn set_of<'t>(alloc: Global, texts: &'t [List<u8>]) -> Result<BTreeSet<&'t [u8]>, NoMemory>
    ensures { IfOk result (λ set. (q : List ℕ) → has_text set q ≡ is_among texts.now q) }
{
    let mut set = BTreeSet::new(alloc);
    for k in 0..texts.len() {
        set.insert(texts[k].as_slice())?;
    }
    Ok(set)
}

// Whether a text is not in a set.
fn is_absent(set: &BTreeSet<&[u8]>, text: &[u8]) -> bool
    ensures { result ≡ not (has_text set.now text.now) }
{
    !set.contains(text)
}

// The position of the first text that is not in a set.
fn first_absent(texts: &[List<u8>], set: &BTreeSet<&[u8]>) -> Option<usize>
    ensures { result ≡ position (λ (text : List ℕ). not (has_text set.now text)) texts.now }
{
    texts
        .iter()
        .position(|text| is_absent(set, text.as_slice()))
}

/// The position of the first text that is not among the others.
pub(crate) fn first_lacking(
    alloc: Global,
    texts: &[List<u8>],
    others: &[List<u8>],
) -> Result<Option<usize>, NoMemory>
    ensures { IfOk result (λ place. place ≡ spec.first_lacking texts.now others.now) }
{
    let set = set_of(alloc, others)?;
    Ok(first_absent(texts, &set))
}
