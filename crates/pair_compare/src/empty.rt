// The marks of an old library where no rule file is given.
ghost use Rattle.std.specs.Prelude.{◌≡◌, false, [], length, replicate, IfOk, IfErr};
ghost use Rattle.abi_base.specs.declared.fault.NoMemory.TheVariants.{Allocation};
ghost use Rattle.sha2.specs.Sha256.{sha256};
ghost use Rattle.pair_compare.specs.Marking.{no_marks};

use abi_base::{List, NoMemory};
use abi_types::{Library, Marks, OldIx};
use sha2::{Digest, Sha256};
use std::alloc::Global;

// A list of this many cleared flags.
fn no_flags(alloc: Global, count: usize) -> Result<List<bool>, NoMemory>
    ensures flags { IfOk result (λ flags. flags ≡ replicate count false) }
    ensures named { IfErr result (λ e. e ≡ Allocation) }
{
    let flags = vec![in alloc; false; count]?;
    Ok(List::of(flags))
}

// The SHA-256 of an empty rule file.
fn empty_digest() -> [u8; 32]
    ensures { result ≡ sha256 [] }
{
    let nothing: &[u8] = &[];
    Sha256::digest(nothing)
}

/// The marks of an empty rule file: no export and no node of the old library is marked.
#[tactic(auto, unfolding(crate::specs::Marking::no_marks))]
pub fn unmarked(alloc: Global, old: &Library<OldIx>) -> Result<Marks, NoMemory>
    ensures marks { IfOk result (λ marks. marks ≡ no_marks old.now) }
    ensures named { IfErr result (λ e. e ≡ Allocation) }
{
    let nodes = old.graph().len();
    Ok(Marks {
        digest: empty_digest(),
        exports: no_flags(alloc, old.exports().len())?,
        direct: no_flags(alloc, nodes)?,
        pointer: no_flags(alloc, nodes)?,
    })
}
