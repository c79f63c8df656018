// The versions of a file's dynamic symbols.
ghost use Rattle.std.specs.Prelude.{◌≡◌, map};
ghost use Rattle.std.specs.Option.{option_map};
ghost use Rattle.elf.specs.versions.Plain.{plain_version};
ghost use Rattle.elf.specs.versions.Versions.{version_in};

use crate::versions::version::Version;
use std::marker::Model;

/// The versions of a file's dynamic symbols. Contracts see them as a list by symbol number, with None for a symbol whose index
/// has no definition.
#[derive(Drop)]
pub struct Versions<'a> {
    all: Vec<Option<Version<'a>>>,
}

impl<'a> Model for Versions<'a> {
    ghost use Rattle.std.specs.Prelude.{List, Option, map};
    ghost use Rattle.std.specs.Option.{option_map};
    ghost use Rattle.elf.specs.versions.Versions.{PlainVersion};

    ghost Value = { List (Option PlainVersion) };

    ghost use Rattle.elf.specs.versions.Plain.{plain_version};

    ghost view = { λ versions. map (option_map plain_version) versions.all.items };
}

impl<'a> Versions<'a> {
    /// These versions, by symbol number.
    pub(crate) fn of(all: Vec<Option<Version<'a>>>) -> Versions<'a>
        ensures { result ≡ map (option_map plain_version) all.entry.items }
    {
        Versions { all }
    }

    /// The version of the symbol with this number. None exactly where there is no such symbol, or its index has no definition and
    /// is neither `VER_NDX_LOCAL` nor `VER_NDX_GLOBAL`. Allocates nothing.
    pub fn version_of(&self, symbol: usize) -> Option<Version<'a>>
        ensures { option_map plain_version result ≡ version_in self.now symbol }
    {
        match self.all.get(symbol) {
            Some(version) => *version,
            None => None,
        }
    }
}
