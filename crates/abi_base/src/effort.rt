//! A budget for reading tables and strings. Records, lists and names may share bytes, so a small file can demand far more steps
//! than it has bytes. `Effort` counts those steps. Where the budget is spent, the reader answers that the limit is passed.
ghost use Rattle.std.specs.Prelude.{◌≡◌, ◌+◌, ◌*◌, ◌^◌, ◌-◌, ◌<◌, min, length, IfErr, IfOk, OnOk, OnErr};
ghost use Rattle.abi_base.specs.declared.fault.NoMemory.TheVariants.{Past};

use crate::{Limit, NoMemory};
use std::marker::Model;

// How often the bytes of a table and of its names may be read on average. Where records and names share nothing, each byte is read
// once; a linker that merges the tails of names shares a few.
const MOST_TIMES: u64 = 64;

/// How many more bytes may be read, and which limit that is. Contracts see both.
#[derive(Drop)]
pub struct Effort {
    limit: Limit,
    left: u64,
}

impl Model for Effort {
    ghost use Rattle.abi_base.specs.Efforts.{Budget};

    ghost Value = { Budget };

    ghost view = { λ effort. record { limit = effort.limit; left = effort.left } };
}

impl Effort {
    /// A budget for this many bytes: 64 reads of each.
    pub fn for_bytes(limit: Limit, bytes: usize) -> Effort
        ensures limit { result.limit ≡ limit }
        ensures left { result.left ≡ min (64 * bytes) (2 ^ 64 - 1) }
    {
        Effort {
            limit,
            left: (bytes as u64).saturating_mul(MOST_TIMES),
        }
    }

    /// A budget for a table and its string table, each byte of which may be read 64 times.
    pub fn for_table(limit: Limit, table: &[u8], strings: &[u8]) -> Effort
        ensures limit { result.limit ≡ limit }
        ensures left { result.left ≡ min (64 * (length table.now + length strings.now)) (2 ^ 64 - 1) }
    {
        Effort::for_bytes(limit, table.len().saturating_add(strings.len()))
    }

    /// Spends this many bytes. Fails exactly where the budget is smaller, names the limit, and then spends nothing.
    pub fn spend(&mut self, bytes: usize) -> Result<(), NoMemory>
        ensures ok { OnOk result (self.old.left ≡ self.new.left + bytes) }
        ensures err { OnErr result (self.old.left < bytes) }
        ensures kept { OnErr result (self.new ≡ self.old) }
        ensures named { IfErr result (λ e. e ≡ Past self.old.limit) }
        ensures limit { self.new.limit ≡ self.old.limit }
    {
        let bytes = bytes as u64;
        if bytes > self.left {
            return Err(NoMemory::Past(self.limit));
        }
        self.left -= bytes;
        Ok(())
    }

    /// Spends a record of this size and its name. Fails exactly where the budget is smaller, and names the limit.
    pub fn spend_named(&mut self, size: usize, name: &[u8]) -> Result<(), NoMemory>
        ensures ok { OnOk result (self.old.left ≡ self.new.left + size + length name.now) }
        ensures err { OnErr result (self.old.left < size + length name.now) }
        ensures named { IfErr result (λ e. e ≡ Past self.old.limit) }
        ensures limit { self.new.limit ≡ self.old.limit }
    {
        self.spend(size)?;
        self.spend(name.len())
    }
}

/// What is left of a count after `many` more. Fails exactly where fewer are left, and names the limit.
pub fn taken(limit: Limit, left: usize, many: usize) -> Result<usize, NoMemory>
    ensures ok { IfOk result (λ rest. rest + many ≡ left) }
    ensures err { OnErr result (left < many) }
    ensures named { IfErr result (λ e. e ≡ Past limit) }
{
    if left < many {
        return Err(NoMemory::Past(limit));
    }
    Ok(left - many)
}
