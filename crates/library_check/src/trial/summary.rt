// The two lines that a trial prints.
ghost use Rattle.std.specs.Prelude.{◌≡◌, IfOk, string_bytes};
ghost use Rattle.library_check.specs.trial.Summaries.{count_line, digest_line, line_count, summary_of};
ghost use Rattle.sha2.specs.Sha256.{sha256};

use sha2::{Digest, Sha256};
use std::alloc::{AllocError, Global};

const LINE_FEED: u8 = b'\n';

// The number of lines in a text.
fn count_lines(text: &[u8]) -> usize
    ensures { result ≡ line_count text.now }
{
    text.iter().filter(|byte| **byte == LINE_FEED).count()
}

// The line with the answer and the counts.
#[tactic(auto, unfolding(crate::specs::trial::Summaries::count_line))]
fn make_count_line(
    alloc: Global,
    n: u32,
    answer: &str,
    exports: usize,
    lines: usize,
) -> Result<String, AllocError>
    ensures { IfOk result (λ line. string_bytes line ≡ count_line n answer.now exports lines) }
{
    format!(in alloc; "trial {n} {answer} exports {exports} lines {lines}\n")
}

// The line with the SHA-256 of a text.
#[tactic(auto, unfolding(crate::specs::trial::Summaries::digest_line))]
fn make_digest_line(alloc: Global, text: &[u8]) -> Result<String, AllocError>
    ensures { IfOk result (λ line. string_bytes line ≡ digest_line (sha256 text.now)) }
{
    let digest = Sha256::digest(text);
    let digits = hex::encode(alloc, digest.as_slice())?;
    format!(in alloc; "digest {digits}\n")
}

// The lines of a trial of n functions, given the number of exports of the old library and the text that `check` prints. It fails
// only if memory runs out.
#[tactic(auto, unfolding(crate::specs::trial::Summaries::summary_of))]
pub(crate) fn summarize(
    alloc: Global,
    n: u32,
    answer: &str,
    exports: usize,
    text: &[u8],
) -> Result<Vec<u8>, AllocError>
    ensures { IfOk result (λ lines. lines.items ≡ summary_of n answer.now exports text.now) }
{
    let mut lines = make_count_line(alloc, n, answer, exports, count_lines(text))?;
    lines.push_str(make_digest_line(alloc, text)?.as_str())?;
    Ok(lines.into_bytes())
}
