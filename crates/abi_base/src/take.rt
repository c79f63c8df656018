// Why an input cannot be read whole.
ghost use Rattle.std.specs.Prelude.{◌≡◌};
ghost use Rattle.abi_base.specs.declared.take.Take.TheVariants.{Failed as InputFailed, NoMemory as OutOfMemory};

use crate::Failed;
use std::alloc::AllocError;
use thiserror::Error;

/// Why an input cannot be read whole: reading failed, it is longer than the limit, or memory ran out.
#[derive(Clone, Copy, Debug, PartialEq, Eq, Error)]
pub enum Take {
    /// `start` or `read` failed.
    #[error("the input failed")]
    Failed,
    /// It gave more bytes than the limit.
    #[error("the input is longer than the limit")]
    TooLong,
    /// Memory ran out.
    #[error("out of memory")]
    NoMemory,
}

impl From<Failed> for Take {
    ghost from_gives = { λ _ e. e ≡ InputFailed };

    fn from(_: Failed) -> Self {
        Take::Failed
    }
}

impl From<AllocError> for Take {
    ghost from_gives = { λ _ e. e ≡ OutOfMemory };

    fn from(_: AllocError) -> Self {
        Take::NoMemory
    }
}
