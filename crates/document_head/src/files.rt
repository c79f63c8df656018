// Files that are read a second time, for facts that the answer does not have.
ghost use Rattle.std.specs.Prelude.{◌≤◌, length, IfOk, IfSome};
ghost use Rattle.abi_base.specs.Limits.{input_limit};

use abi_base::{FileInputs, INPUT_LIMIT, NoMemory, Take, read_whole};
use std::fs;
use std::io::ErrorKind;
use std::rt::Files;

// Whether a path names a regular file, which gives the same bytes a second time. A pipe does not, and opening it again may wait
// forever.
fn is_file<R: Files>(rt: &R, path: &str) -> Result<bool, NoMemory> {
    match fs::metadata(rt, path) {
        Ok(metadata) => Ok(metadata.is_file()),
        Err(error) if error.kind() == ErrorKind::OutOfMemory => Err(NoMemory::Allocation),
        Err(_) => Ok(false),
    }
}

/// The bytes of a file, or `None` if they cannot be read again. It fails only if memory runs out.
pub fn bytes_of<R: Files + AllocGlobal>(rt: &R, path: &str) -> Result<Option<Vec<u8>>, NoMemory>
    ensures { IfOk result (λ found. IfSome found (λ bytes. length bytes.items ≤ input_limit)) }
{
    if !is_file(rt, path)? {
        return Ok(None);
    }
    let mut inputs = FileInputs::new(rt);
    match read_whole(rt.alloc(), &mut inputs, path, INPUT_LIMIT) {
        Ok(bytes) => Ok(Some(bytes)),
        Err(Take::NoMemory) => Err(NoMemory::Allocation),
        Err(Take::Failed | Take::TooLong) => Ok(None),
    }
}
