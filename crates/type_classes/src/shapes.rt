// Nodes of one shape, found by the spellings of shapes.
ghost use Rattle.std.specs.Prelude.{◌≡◌, ◌<◌, ◌↔◌, ◌⊎◌, ℕ, length, Some, IfOk, OnOk, IfErr};
ghost use Rattle.std.specs.List.Sorted.{IsNonDecreasingBy};
ghost use Rattle.abi_base.specs.declared.fault.NoMemory.TheVariants.{Allocation};
ghost use Rattle.abi_types.specs.Graphs.{node_at};
ghost use Rattle.abi_types.specs.ClassLooks.{shape_of};
ghost use Rattle.type_classes.specs.Splits.{key_of, number_at, HaveSameKeys};
ghost use Rattle.type_classes.specs.Numbered.{number_in, AreOneSpelling, IsNumbered};
ghost use Rattle.type_classes.specs.declared.spelling.Spelling.{Spelling};

use crate::spelling::{Spelling, copy, spell};
use abi_base::NoMemory;
use abi_types::{Graph, Index};
use pair_rules::laws::the_same_are_equal;
use std::alloc::Global;
use std::collections::BTreeMap;

// The number of a spelling, which becomes `fresh` where it has none yet.
fn number_of(
    alloc: Global,
    numbers: &mut BTreeMap<Spelling, usize>,
    spelling: &Spelling,
    fresh: usize,
) -> Result<usize, NoMemory>
    ensures number { IfOk result (λ number. number_in numbers.new spelling.now ≡ Some number) }
    ensures kept { OnOk result ((key : Spelling) (n : ℕ) → number_in numbers.old key ≡ Some n
        → number_in numbers.new key ≡ Some n) }
    ensures fresh { OnOk result ((key : Spelling) (n : ℕ) → number_in numbers.new key ≡ Some n
        → (number_in numbers.old key ≡ Some n) ⊎ (AreOneSpelling key spelling.now × (n ≡ fresh))) }
    ensures named { IfErr result (λ e. e ≡ Allocation) }
{
    match numbers.get(spelling) {
        Some(number) => return Ok(*number),
        None => {}
    }
    let copied = copy(alloc, spelling)?;
    numbers.insert(copied, fresh)?;
    Ok(fresh)
}

// For each node the first node with its shape, and the node.
fn numbered<Ix: Index>(alloc: Global, graph: &Graph<Ix>) -> Result<Vec<(usize, usize)>, NoMemory>
    ensures numbered { IfOk result (IsNumbered graph.now) }
    ensures named { IfErr result (λ e. e ≡ Allocation) }
{
    the_same_are_equal();
    let mut numbers = BTreeMap::new(alloc);
    let mut pairs = Vec::with_capacity(alloc, graph.len())?;
    let mut spelling = Spelling {
        numbers: Vec::new(alloc),
        letters: Vec::new(alloc),
    };
    'nodes: for node in 0..graph.len() {
        let ix = Ix::of(node);
        spell(&mut spelling, graph.labels(ix), graph.view(ix))?;
        let number = number_of(alloc, &mut numbers, &spelling, node)?;
        pairs.push((number, node))?;
    }
    Ok(pairs)
}

/// For each node a number that exactly the nodes of its shape share, and the node, ordered by number.
pub fn shape_pairs<Ix: Index>(
    alloc: Global,
    graph: &Graph<Ix>,
) -> Result<Vec<(usize, usize)>, NoMemory>
    ensures rising { IfOk result (λ pairs. IsNonDecreasingBy key_of pairs.items) }
    ensures numbers { IfOk result (λ pairs. (i : ℕ) → i < length pairs.items
        → number_at pairs.items i < length graph.now) }
    ensures shapes { IfOk result (λ pairs. (x y : ℕ) → x < length graph.now → y < length graph.now
        → HaveSameKeys pairs.items x y ↔ (shape_of (node_at graph.now x) ≡ shape_of (node_at graph.now y))) }
    ensures named { IfErr result (λ e. e ≡ Allocation) }
{
    let mut pairs = numbered(alloc, graph)?;
    pairs.sort_unstable_by_key(|pair| pair.0);
    Ok(pairs)
}
