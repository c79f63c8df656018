// The visits so far, within the limit on pairs.
ghost use Rattle.std.specs.Prelude.{◌≡◌, ◌<◌, ◌-◌, length, IfErr, OnOk};
ghost use Rattle.abi_base.specs.declared.limit.Limit.TheVariants.{Pairs};
ghost use Rattle.abi_base.specs.Outcome.{OnLimit};
ghost use Rattle.pair_explorer.specs.Adding.{added};
ghost use Rattle.pair_explorer.specs.Spending.{Takes, AddPasses};

use crate::visits::{Visit, Visits};
use abi_base::{Budget, NoMemory};

/// The visits so far, and how many there may be.
#[derive(Drop)]
pub(crate) struct Reached {
    pub(crate) visits: Visits,
    pub(crate) pairs: Budget,
}

impl Reached {
    /// Adds a visit if its triple is new.
    pub(crate) fn add(&mut self, visit: &Visit) -> Result<(), NoMemory>
        requires limit { self.old.pairs.limit ≡ Pairs }
        requires counted { self.old.pairs.taken ≡ length self.old.visits }
        ensures visits { OnOk result (self.new.visits ≡ added self.old.visits visit.now) }
        ensures pairs { OnOk result (Takes self.old.pairs self.new.pairs
            (length (added self.old.visits visit.now) - length self.old.visits)) }
        ensures past { IfErr result (λ e. OnLimit e (AddPasses self.old.pairs self.old.visits visit.now)) }
    {
        let before = self.visits.len();
        self.visits.add(visit)?;
        let more = self.visits.len() - before;
        self.pairs.take(more)?;
        Ok(())
    }
}
