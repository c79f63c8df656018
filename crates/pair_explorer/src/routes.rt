// The path to a visit.
ghost use Rattle.std.specs.Prelude.{◌≡◌, ◌<◌, length, IfOk, IfErr};
ghost use Rattle.abi_base.specs.declared.fault.NoMemory.TheVariants.{Allocation};
ghost use Rattle.pair_explorer.specs.Visits.{Along, AreEarlier};
ghost use Rattle.pair_explorer.specs.Routes.{path_of};

use crate::visits::{Parent, Visits};
use abi_base::{List, NoMemory};
use std::alloc::Global;

/// A path: an export, and the positions of the parts that are followed from its type, in order.
#[derive(Drop)]
pub struct Route {
    /// The position of the export among the old ones.
    pub export: u32,
    /// The positions of the followed parts, in order.
    pub parts: List<usize>,
}

/// The path to a visit, as its parents spell it.
pub fn route_to(alloc: Global, visits: &Visits, number: usize) -> Result<Route, NoMemory>
    requires number { number < length visits.now }
    requires earlier { AreEarlier visits.now }
    ensures along { IfOk result (λ route. Along visits.now number (path_of route.export route.parts)) }
    ensures named { IfErr result (λ e. e ≡ Allocation) }
{
    let mut parts = Vec::new(alloc);
    let mut at = number;
    'walk: loop {
        match visits.visit(at).parent {
            Parent::Root { export } => {
                parts.as_mut_slice().reverse();
                let parts = List::of(parts);
                return Ok(Route { export, parts });
            }
            Parent::Step { visit, part } => {
                parts.push(part)?;
                at = visit;
            }
        }
    }
}
