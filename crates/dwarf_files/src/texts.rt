// Names, and their directories.
ghost use Rattle.std.specs.Prelude.{◌≡◌, IfOk, IsTrue, ◌↔◌};
ghost use Rattle.dwarf_files.specs.Names.{joined};
ghost use Rattle.dwarf_files.specs.Names as spec;

use abi_base::{List, NoMemory};
use std::alloc::Global;

const SLASH: u8 = b'/';

fn is_absolute(name: &[u8]) -> bool
    ensures { result ≡ spec.is_absolute name.now }
{
    match name.first() {
        Some(byte) => *byte == SLASH,
        None => false,
    }
}

/// A name in a directory: both, joined by a slash. An absolute name is unchanged, and so is a name in a directory whose name is
/// empty.
#[tactic(auto, unfolding(crate::specs::Names::joined))]
pub fn join(alloc: Global, directory: &[u8], name: &[u8]) -> Result<Vec<u8>, NoMemory>
    ensures { IfOk result (λ r. r.items ≡ joined directory.now name.now) }
{
    if is_absolute(name) || directory.is_empty() {
        return Ok(Vec::from_slice(alloc, name)?);
    }
    let mut whole = Vec::from_slice(alloc, directory)?;
    whole.push(SLASH)?;
    whole.extend_from_slice(name)?;
    Ok(whole)
}
