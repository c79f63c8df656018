// Long texts in the bytes of entries. A text ends at the first byte 0, so a look-up that passes over a text, or that asks whether an
// attribute has one, would read all of it. The ends of long texts are therefore found once, and such a look-up reads no more of a text
// than its first bytes.
ghost use Rattle.std.specs.Prelude.{◌≡◌, ◌<◌, ◌≤◌, All, IfErr, IfOk, IfSome, length};
ghost use Rattle.abi_base.specs.declared.fault.NoMemory.TheVariants.{Allocation};
ghost use Rattle.dwarf_tree.specs.LongTexts.{IsKeptEnd, IsLongText, TextEnds};

use abi_base::{NoMemory, text_at};
use std::alloc::Global;

// The fewest letters of a long text.
const LONG: usize = 256;

// Bytes that are not 0, before a byte that is. A text that begins among them ends with them.
#[derive(Clone, Copy)]
pub(crate) struct LongText {
    pub from: usize,
    pub to: usize,
}

// An offset up to which no long text begins: behind the last byte 0 of the next `LONG` bytes, or the same offset where none of them
// is 0. Most windows end with such a byte or have one near their end, so most bytes are not read.
fn passed(info: &[u8], at: usize) -> usize
    requires { at < length info.now }
    ensures behind { at ≤ result }
    ensures inside { result ≤ length info.now }
{
    if info.len() - at <= LONG {
        return info.len();
    }
    let mut from = at + LONG;
    'back: while from > at {
        if info[from - 1] == 0 {
            return from;
        }
        from -= 1;
    }
    from
}

// The long texts of a section, by offset. There is at most one for each `LONG` bytes.
pub(crate) fn long_texts_of(alloc: Global, info: &[u8]) -> Result<Vec<LongText>, NoMemory>
    ensures texts { IfOk result (λ texts. All (IsLongText info.now) texts.items) }
    ensures named { IfErr result (λ e. e ≡ Allocation) }
{
    let mut texts = Vec::new(alloc);
    let mut at = 0;
    'texts: while at < info.len() {
        let from = passed(info, at);
        if from > at {
            at = from;
        } else {
            let Some(letters) = text_at(info, at as u64) else {
                return Ok(texts);
            };
            let to = at + letters.len();
            texts.push(LongText { from: at, to })?;
            at = to + 1;
        }
    }
    Ok(texts)
}

// The end of the text at an offset of a unit, if the text is not long.
#[inline(always)]
fn end_of_short(info: &[u8], unit_end: usize, at: usize) -> Option<usize>
    requires { unit_end ≤ length info.now }
    ensures ends { IfSome result (TextEnds info.now at) }
    ensures inside { IfSome result (λ to. to < unit_end) }
{
    let front = unit_end.min(at.saturating_add(LONG));
    let letters = text_at(&info[..front], at as u64)?;
    Some(at + letters.len())
}

// The end of the long text around an offset, by binary search.
fn end_of_long(texts: &[LongText], at: usize) -> Option<usize>
    ensures { IfSome result (IsKeptEnd texts.now at) }
{
    let count = texts.partition_point(|text| text.from <= at);
    if count == 0 {
        return None;
    }
    let text = texts[count - 1];
    if text.from <= at && at <= text.to {
        Some(text.to)
    } else {
        None
    }
}

// The end of the text at an offset of a unit: the offset of the byte 0 after its letters. None means nothing.
#[inline(always)]
#[tactic(auto, using(crate::proofs::LongTextLemmas::ends_as_kept))]
pub(crate) fn end_of_text(
    info: &[u8],
    texts: &[LongText],
    unit_end: usize,
    at: usize,
) -> Option<usize>
    requires inside { unit_end ≤ length info.now }
    requires texts { All (IsLongText info.now) texts.now }
    ensures ends { IfSome result (TextEnds info.now at) }
    ensures inside { IfSome result (λ to. to < unit_end) }
{
    if let Some(to) = end_of_short(info, unit_end, at) {
        return Some(to);
    }
    let to = end_of_long(texts, at)?;
    if to < unit_end { Some(to) } else { None }
}
