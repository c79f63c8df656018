// A finished exploration and its input.
ghost use Rattle.std.specs.Prelude.{◌≡◌};
ghost use Rattle.pair_rules.specs.Steps as steps;
ghost use Rattle.pair_explorer.specs.GraphPairs.{scope_of};

use crate::numbers::Numbers;
use abi_types::{Index, OldIx, Way};
use pair_explorer::{GraphPair, Visits};

/// The input of an exploration, its visits, and their numbers as `numbers_of` returns them.
#[derive(Clone, Copy)]
pub struct Walk<'x, 'o, 'n, 'og, 'oc, 'ng, 'nc> {
    /// The input of the exploration.
    pub ground: &'x GraphPair<'x, 'o, 'n, 'og, 'oc, 'ng, 'nc>,
    /// Its visits.
    pub visits: &'x Visits,
    /// The number of a visit, by its triple.
    pub numbers: &'x Numbers,
}

/// Whether an old node is marked at a way.
pub(crate) fn is_marked(ground: &GraphPair, node: OldIx, way: Way) -> bool
    ensures { result ≡ steps.is_marked (scope_of ground.now).task node way }
{
    let flags = match way {
        Way::Direct => ground.marks.direct.as_slice(),
        Way::Pointer => ground.marks.pointer.as_slice(),
    };
    match flags.get(node.number()) {
        Some(mark) => *mark,
        None => false,
    }
}
