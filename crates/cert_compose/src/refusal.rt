// Why two certificates cannot be composed.
ghost use Rattle.std.specs.Prelude.{◌≡◌};
ghost use Rattle.cert_compose.specs.declared.refusal.ComposeRefusal.TheVariants.{NoMemory as OutOfMemory};

use abi_base::NoMemory;
use cert_check::Refused;

/// Why two certificates cannot be composed.
#[derive(Clone, Copy, Debug)]
pub enum ComposeRefusal {
    /// Something is lost if the middle library is skipped: `at` is the symbol of an export of the first library, or the entry of
    /// one of its types.
    Between(Refused),
    /// There is no memory for the composed certificate, or a count would pass its limit.
    NoMemory(NoMemory),
}

impl From<NoMemory> for ComposeRefusal {
    ghost from_gives = { λ cause e. e ≡ OutOfMemory cause };

    fn from(cause: NoMemory) -> Self {
        ComposeRefusal::NoMemory(cause)
    }
}
