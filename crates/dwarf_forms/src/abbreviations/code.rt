// The code of an abbreviation.
ghost use Rattle.std.specs.Prelude.{◌≡◌};

use std::marker::Model;

/// The number by which entries refer to an abbreviation (DWARF 5, section 7.5.3 "Abbreviations Tables"). Contracts see the number.
#[derive(Clone, Copy, Debug, PartialEq, Eq)]
pub struct AbbreviationCode {
    number: u64,
}

impl Model for AbbreviationCode {
    ghost use Rattle.std.specs.Prelude.{ℕ};
    ghost use Rattle.std.specs.Coded.{coded_ℕ};

    ghost Value = { ℕ };

    ghost coded = { coded_ℕ };

    ghost view = { λ o. o.number };

    ghost inverse = { λ n. record { number = n } };
}

impl AbbreviationCode {
    /// The code with this number.
    #[inline(always)]
    pub const fn new(number: u64) -> AbbreviationCode
        ensures { result ≡ number }
    {
        AbbreviationCode { number }
    }

    /// The number.
    #[inline(always)]
    pub fn get(self) -> u64
        ensures { result ≡ self }
    {
        self.number
    }
}
