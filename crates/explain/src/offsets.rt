// Offsets and sizes in ELF files.
ghost use Rattle.std.specs.Prelude.{◌≡◌};
ghost use Rattle.abi_base.specs.Numbers.{number_at};

use abi_base::u64_at;

/// The offset or the size in the eight bytes at a position, or `None` if they lie outside the bytes.
pub(crate) fn offset_at(bytes: &[u8], at: usize) -> Option<usize>
    ensures { result ≡ number_at 8 bytes.now at }
{
    let offset = u64_at(bytes, at)?;
    Some(offset as usize)
}
