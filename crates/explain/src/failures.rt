// Inputs whose reading failed.
ghost use Rattle.std.specs.Prelude.{◌≡◌, IfOk, IsTrue, string_bytes};
ghost use Rattle.explain.specs.Lines.{is_one_line};
ghost use Rattle.explain.specs.Sentences.{said_of};

use crate::lines::said;
use abi_base::NoMemory;
use std::alloc::Global;

/// The sentence about an input at a path whose reading failed for this reason. It is one line, whatever characters the path and the
/// reason have.
pub fn failure_sentence(alloc: Global, path: &str, reason: &str) -> Result<String, NoMemory>
    ensures says { IfOk result (λ text. string_bytes text ≡ said_of path.now reason.now) }
    ensures line { IfOk result (λ text. IsTrue (is_one_line (string_bytes text))) }
{
    Ok(said(alloc, path, reason)?)
}
