// A library with a given number of functions.
ghost use Rattle.std.specs.Prelude.{◌≡◌, ◌<◌, ◌≤◌, ◌⊎◌, ◌↔◌, length, IfOk};
ghost use Rattle.abi_base.specs.Limits.{input_limit};
ghost use Rattle.trial_libraries.specs.declared.making.GenRefusal.TheVariants.{NoMemory as OutOfMemory};
ghost use Rattle.trial_libraries.specs.Libraries.{library};
ghost use Rattle.trial_libraries.specs.Limits.{most_functions};

use crate::file::make_file;
use crate::symbols::make_symbols;
use crate::units::{make_units, ring_of};
use abi_base::NoMemory;
use std::alloc::{AllocError, Global};
use thiserror::Error;

/// The most functions of a generated library.
pub const MOST_FUNCTIONS: u32 = 50_000;

/// The side of a pair of libraries. The two sides differ in the length of their rings of structures.
#[derive(Clone, Copy, Debug, PartialEq, Eq)]
pub enum Side {
    /// The old one, with rings of three structures.
    Old,
    /// The new one, with rings of two.
    New,
}

/// Why no library is generated.
#[derive(Clone, Copy, Debug, PartialEq, Eq, Error)]
pub enum GenRefusal {
    /// The number of functions is 0 or above `MOST_FUNCTIONS`.
    #[error("a made library has 1 to 50000 functions")]
    Size,
    /// Memory ran out.
    #[error("out of memory")]
    NoMemory,
}

impl From<AllocError> for GenRefusal {
    ghost from_gives = { λ _ e. e ≡ OutOfMemory };

    fn from(_: AllocError) -> Self {
        GenRefusal::NoMemory
    }
}

// The library of n functions for a side. Fails only where memory runs out.
fn make_library(alloc: Global, n: u32, side: Side) -> Result<Vec<u8>, AllocError>
    requires { n ≤ most_functions }
    ensures { IfOk result (λ file. file.items ≡ library n side) }
{
    let made = make_symbols(alloc, n)?;
    let units = make_units(alloc, n, ring_of(side))?;
    make_file(
        alloc,
        made.symbols.as_slice(),
        made.names.as_slice(),
        units.as_slice(),
    )
}

/// The bytes of the library with n functions for a side, which is the same at each call. Its size is within the limit on inputs.
/// Err is `Size` exactly where n is 0 or above `MOST_FUNCTIONS`.
pub fn make(alloc: Global, n: u32, side: Side) -> Result<Vec<u8>, GenRefusal>
    ensures library { IfOk result (λ file. file.items ≡ library n side) }
    ensures short { IfOk result (λ file. length file.items ≤ input_limit) }
    ensures size { (result ≡ Err GenRefusal.Size) ↔ ((n ≡ 0) ⊎ (most_functions < n)) }
{
    if n == 0 || n > MOST_FUNCTIONS {
        return Err(GenRefusal::Size);
    }
    Ok(make_library(alloc, n, side)?)
}
