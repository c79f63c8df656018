// The numbers of entries.
ghost use Rattle.std.specs.Prelude.{◌≡◌};

use std::marker::Model;

/// The number of an entry: how many entries of `.debug_info` come before it, over all units. Contracts see it as a number. No
/// section has 2^32 entries, so a list of entries takes four bytes for each.
#[derive(Clone, Copy, Debug, PartialEq, Eq, PartialOrd, Ord)]
pub struct EntryNumber {
    number: u32,
}

impl Model for EntryNumber {
    ghost use Rattle.std.specs.Prelude.{ℕ};
    ghost use Rattle.std.specs.Coded.{coded_ℕ};

    ghost Value = { ℕ };

    ghost coded = { coded_ℕ };

    ghost view = { λ e. e.number };

    ghost inverse = { λ n. record { number = n } };
}

impl EntryNumber {
    /// The entry with this number.
    #[inline(always)]
    pub const fn new(number: u32) -> EntryNumber
        ensures { result ≡ number }
    {
        EntryNumber { number }
    }

    /// The number, as an index into a list with an item for each entry.
    #[inline(always)]
    pub fn index(self) -> usize
        ensures { result ≡ self }
    {
        self.number as usize
    }
}
