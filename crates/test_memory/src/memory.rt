// The check of two libraries in memory.
ghost use Rattle.std.specs.Prelude.{◌≡◌, ◌↔◌, [], codes, Some, IfOk};
ghost use Rattle.abi_base.specs.Files.{file_of};
ghost use Rattle.library_check.specs.Checks.{Compatible};
ghost use Rattle.library_check.specs.Remarks.{remark_on};
ghost use Rattle.test_memory.specs.Memory.{FitsInMemory};

use abi_base::{MemInputs, MemSink, NoMemory};
use abi_top::run;
use cli_args::laws::check_takes_two_files;
use commands::{Outcome, Verdict};
use library_check::laws::no_rules_are_readable;
use std::alloc::{AllocError, Global};

// The most bytes that the sink takes in one call.
const PIECE: usize = 4096;

// The files in memory, named by their roles.
fn named_files(
    alloc: Global,
    old: Vec<u8>,
    new: Vec<u8>,
) -> Result<Vec<(String, Vec<u8>)>, AllocError>
    ensures old { IfOk result (λ files. file_of files.items (codes "old") ≡ Some old.items) }
    ensures new { IfOk result (λ files. file_of files.items (codes "new") ≡ Some new.items) }
{
    let mut files = Vec::new(alloc);
    files.push((String::from_str(alloc, "old")?, old))?;
    files.push((String::from_str(alloc, "new")?, new))?;
    Ok(files)
}

/// The outcome of `check old new` over these bytes in memory, with no rule file and no listener, if no call is made to fail. The
/// only error is `NoMemory`.
pub(crate) fn check_in_memory(
    alloc: Global,
    old: Vec<u8>,
    new: Vec<u8>,
) -> Result<Outcome, NoMemory>
    // The outcome is yes exactly if the new library may replace the old one.
    ensures yes { FitsInMemory old.items new.items
        → IfOk result (λ outcome. (outcome ≡ Outcome.Judged Verdict.Yes (Some (remark_on old.items new.items))) ↔ Compatible old.items new.items []) }

    // The outcome is no exactly if the new library may not replace the old one.
    ensures no { FitsInMemory old.items new.items
        → IfOk result (λ outcome. (outcome ≡ Outcome.Judged Verdict.No (Some (remark_on old.items new.items))) ↔ (Compatible old.items new.items [] → ⊥)) }
{
    check_takes_two_files();
    no_rules_are_readable();
    let files = named_files(alloc, old, new)?;
    let mut inputs = MemInputs::new(files, Vec::new(alloc));
    let mut sink = MemSink::new(alloc, PIECE, Vec::new(alloc))?;
    let words = ["check", "old", "new"];
    let ended = run(alloc, &words, &mut inputs, &mut sink, Vec::new(alloc));
    match ended.outcome {
        Outcome::NoMemory(cause) => Err(cause),
        outcome => Ok(outcome),
    }
}
