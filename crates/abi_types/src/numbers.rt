// Lists of numbers.
ghost use Rattle.std.specs.Prelude.{◌≡◌, IfOk, IfErr};
ghost use Rattle.std.specs.List.{range_with_len};
ghost use Rattle.abi_base.specs.declared.fault.NoMemory.TheVariants.{Allocation};

use abi_base::NoMemory;
use std::alloc::Global;

/// The numbers below a count, in a vector of exactly that capacity.
pub fn numbers_below(alloc: Global, count: usize) -> Result<Vec<usize>, NoMemory>
    ensures numbers { IfOk result (λ numbers. numbers.items ≡ range_with_len 0 count) }
    ensures named { IfErr result (λ e. e ≡ Allocation) }
{
    let mut numbers = Vec::with_capacity(alloc, count)?;
    for i in 0..count {
        numbers.push(i)?;
    }
    Ok(numbers)
}
