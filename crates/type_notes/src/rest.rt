// The rest of a text.
ghost use Rattle.std.specs.Prelude.{◌≡◌, drop, IfOk, string_bytes};

use abi_base::NoMemory;
use std::alloc::Global;

// The bytes of a text after the first `from` ones.
pub(crate) fn rest_of(alloc: Global, text: &String, from: usize) -> Result<Vec<u8>, NoMemory>
    ensures { IfOk result (λ bytes. bytes.items ≡ drop from (string_bytes text.now)) }
{
    let bytes = text.as_bytes();
    if bytes.len() < from {
        return Ok(Vec::new(alloc));
    }
    Ok(Vec::from_slice(alloc, &bytes[from..])?)
}
