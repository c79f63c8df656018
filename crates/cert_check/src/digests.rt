// The digests of two files.
ghost use Rattle.std.specs.Prelude.{◌≡◌};

use abi_types::{Library, NewIx, OldIx};

/// The SHA-256 of the new file, given that of the old one. If both files have the same bytes, they are hashed only once.
pub fn digest_beside(old: &Library<OldIx>, known: [u8; 32], new: &Library<NewIx>) -> [u8; 32]
    requires { known ≡ old.now.digest }
    ensures { result ≡ new.now.digest }
{
    if old.file() == new.file() {
        known
    } else {
        new.digest()
    }
}
