// Splits of classes by lists of numbers.
ghost use Rattle.std.specs.Prelude.{◌≡◌, ◌<◌, ◌≤◌, ℕ, false, length, take, IfOk, OnOk, IfErr};
ghost use Rattle.std.specs.List.Sorted.{IsNonDecreasingBy};
ghost use Rattle.abi_base.specs.declared.fault.NoMemory.TheVariants.{Allocation};
ghost use Rattle.type_classes.specs.Blocks.{len_of, AreBlocks, ListsMarks, HasNoMarks};
ghost use Rattle.type_classes.specs.Splits.{key_of, key_at, number_at, stands_beside, IsMarkedRun, IsSplitBy};

use crate::blocks::Blocks;
use abi_base::NoMemory;

// Marks the numbers paired with the key of the pair at `from`, and answers the position after the last of them.
fn mark_run(blocks: &mut Blocks, pairs: &[(usize, usize)], from: usize) -> Result<usize, NoMemory>
    requires blocks { AreBlocks blocks.old }
    requires listed { ListsMarks blocks.old }
    requires unmarked { HasNoMarks blocks.old }
    requires numbers { (i : ℕ) → i < length pairs.now → number_at pairs.now i < len_of blocks.old }
    requires inside { from < length pairs.now }
    requires fresh { (x : ℕ) → stands_beside (take from pairs.now) (key_at pairs.now from) x ≡ false }
    ensures marked { IfOk result (λ to. IsMarkedRun blocks.old blocks.new pairs.now from to) }
    ensures named { IfErr result (λ e. e ≡ Allocation) }
{
    let first = pairs[from];
    'run: for i in from..pairs.len() {
        let pair = pairs[i];
        if pair.0 != first.0 {
            return Ok(i);
        }
        blocks.mark(pair.1)?;
    }
    Ok(pairs.len())
}

/// Splits classes by the keys of pairs, which are ordered by key: two numbers remain in one class exactly where they were in one
/// class and are paired with the same keys.
pub fn split_by_keys(blocks: &mut Blocks, pairs: &[(usize, usize)]) -> Result<(), NoMemory>
    requires blocks { AreBlocks blocks.old }
    requires listed { ListsMarks blocks.old }
    requires unmarked { HasNoMarks blocks.old }
    requires rising { IsNonDecreasingBy key_of pairs.now }
    requires numbers { (i : ℕ) → i < length pairs.now → number_at pairs.now i < len_of blocks.old }
    ensures split { OnOk result (IsSplitBy blocks.old blocks.new pairs.now) }
    ensures named { IfErr result (λ e. e ≡ Allocation) }
{
    let mut at = 0;
    'runs: while at < pairs.len() {
        at = mark_run(blocks, pairs, at)?;
        blocks.split()?;
    }
    Ok(())
}
