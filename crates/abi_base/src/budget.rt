// A budget for what is read, made or compared.
ghost use Rattle.std.specs.Prelude.{◌≡◌, ◌+◌, ◌-◌, ◌^◌, ◌<◌, ◌≤◌, min, IfErr, OnOk, OnErr};
ghost use Rattle.abi_base.specs.Budgets.{fresh, with_taken};
ghost use Rattle.abi_base.specs.declared.fault.NoMemory.TheVariants.{Past};

use crate::{Limit, NoMemory};
use std::marker::Model;

// The most units for which a limit is computed. No file and no two files have as many bytes, types or parts.
const MOST_UNITS: usize = 0x3f_ffff_ffff;

/// What was taken of a limit, and how much may be. Contracts see the limit and both numbers.
#[derive(Drop)]
pub struct Budget {
    limit: Limit,
    most: u64,
    taken: u64,
}

impl Model for Budget {
    ghost use Rattle.std.specs.Prelude.{◌≤◌};
    ghost use Rattle.abi_base.specs.Budgets.{BudgetState};

    ghost Value = { BudgetState };

    ghost view = { λ b. record { limit = b.limit; most = b.most; taken = b.taken } };

    ghost invariant = { λ b. b.taken ≤ b.most };
}

impl Budget {
    /// What the limit allows for this many units, of which nothing was taken.
    pub fn of(limit: Limit, units: usize) -> Budget
        requires { units < 2 ^ 38 }
        ensures { result ≡ fresh limit units }
    {
        let rate = limit.rate();
        Budget {
            limit,
            most: rate.each * units as u64 / rate.units + rate.base,
            taken: 0,
        }
    }

    /// What the limit allows for this many units, of which nothing was taken. Units from 2^38 on count as one less.
    pub fn of_many(limit: Limit, units: usize) -> Budget
        ensures { result ≡ fresh limit (min units (2 ^ 38 - 1)) }
    {
        Budget::of(limit, units.min(MOST_UNITS))
    }

    /// Takes this many. Fails exactly where they would be more than the limit allows, names the limit, and then takes nothing.
    pub fn take(&mut self, count: usize) -> Result<(), NoMemory>
        ensures taken { OnOk result (self.new ≡ with_taken self.old count) }
        ensures within { OnOk result (self.old.taken + count ≤ self.old.most) }
        ensures past { OnErr result (self.old.most < self.old.taken + count) }
        ensures named { IfErr result (λ e. e ≡ Past self.old.limit) }
        ensures kept { OnErr result (self.new ≡ self.old) }
    {
        let count = count as u64;
        if count > self.most - self.taken {
            return Err(NoMemory::Past(self.limit));
        }
        self.taken += count;
        Ok(())
    }
}
