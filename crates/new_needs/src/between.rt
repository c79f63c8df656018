// What a new file needs that an old one does not.
ghost use Rattle.std.specs.Prelude.{◌≡◌, ◌≤◌, false, is_none, length, None, IfErr, IfNone, IfOk, IfSome};
ghost use Rattle.abi_base.specs.declared.fault.NoMemory.TheVariants.{Allocation};
ghost use Rattle.abi_base.specs.Limits.{input_limit};
ghost use Rattle.abi_base.specs.Outcome.{OnLimit};
ghost use Rattle.new_needs.specs.Lacking.{lacking_needs as lacking_between, nothing as no_needs};
ghost use Rattle.new_needs.specs.Needs.{needs_of, file_fault, FilePasses};
ghost use Rattle.new_needs.specs.NewNeeds.{EitherPasses};
ghost use Rattle.new_needs.specs.NewNeeds as spec;
ghost use Rattle.new_needs.specs.Plain.{plain_needs};

use crate::differing::lacking;
use crate::kept::FileNeeds;
use crate::reading::read_needs;
use abi_base::{INPUT_LIMIT, NoMemory, Refusal};
use std::alloc::Global;

// What one file needs that another does not.
fn lacking_needs<'a>(
    alloc: Global,
    old: &FileNeeds<'a>,
    new: &FileNeeds<'a>,
) -> Result<FileNeeds<'a>, NoMemory>
    ensures ok { IfOk result (λ needs. plain_needs needs
        ≡ lacking_between (plain_needs old.now) (plain_needs new.now)) }
    ensures named { IfErr result (λ e. e ≡ Allocation) }
{
    Ok(FileNeeds {
        files: lacking(alloc, &old.files, &new.files)?,
        versions: lacking(alloc, &old.versions, &new.versions)?,
        symbols: lacking(alloc, &old.symbols, &new.symbols)?,
    })
}

// No needs.
fn nothing<'a>(alloc: Global) -> FileNeeds<'a>
    ensures { plain_needs result ≡ no_needs }
{
    FileNeeds {
        files: Vec::new(alloc),
        versions: Vec::new(alloc),
        symbols: Vec::new(alloc),
    }
}

// What a file needs, or None if it has a fault.
fn readable<'a>(alloc: Global, bytes: &'a [u8]) -> Result<Option<FileNeeds<'a>>, NoMemory>
    requires { length bytes.now ≤ input_limit }
    ensures read { IfOk result (λ needs. IfSome needs (λ n. (file_fault bytes.now ≡ None)
        × (plain_needs n ≡ needs_of bytes.now))) }
    ensures faulty { IfOk result (λ needs. IfNone needs (is_none (file_fault bytes.now) ≡ false)) }
    ensures past { IfErr result (λ e. OnLimit e (FilePasses bytes.now)) }
{
    match read_needs(alloc, bytes) {
        Ok(needs) => Ok(Some(needs)),
        Err(Refusal::Fault(_)) => Ok(None),
        Err(Refusal::NoMemory(cause)) => Err(cause),
    }
}

/// What a new file needs that an old one does not: files, versions of files, and symbols that must be defined, each once. Nothing
/// where one of the files has a fault. `Past` names a limit that reading one of them passes.
#[tactic(auto, unfolding(crate::specs::NewNeeds::new_needs))]
pub fn new_needs<'a>(alloc: Global, old: &'a [u8], new: &'a [u8]) -> Result<FileNeeds<'a>, NoMemory>
    requires old_short { length old.now ≤ input_limit }
    requires new_short { length new.now ≤ input_limit }
    ensures ok { IfOk result (λ needs. plain_needs needs ≡ spec.new_needs old.now new.now) }
    ensures past { IfErr result (λ e. OnLimit e (EitherPasses old.now new.now)) }
{
    let Some(old_needs) = readable(alloc, old)? else {
        return Ok(nothing(alloc));
    };
    let Some(needs) = readable(alloc, new)? else {
        return Ok(nothing(alloc));
    };
    lacking_needs(alloc, &old_needs, &needs)
}
