// The version indexes of symbols.
ghost use Rattle.std.specs.Prelude.{◌≡◌, slice_get};

use std::marker::Model;

/// The version indexes of a file's dynamic symbols, without the hidden bit. Contracts see them as a list.
#[derive(Drop)]
pub struct Indexes {
    all: Vec<u16>,
}

impl Model for Indexes {
    ghost use Rattle.std.specs.Prelude.{List, ℕ};

    ghost Value = { List ℕ };

    ghost view = { λ indexes. indexes.all.items };
}

impl Indexes {
    /// These indexes, by symbol number.
    pub(crate) fn of(all: Vec<u16>) -> Indexes
        ensures { result ≡ all.items }
    {
        Indexes { all }
    }

    /// The index of the symbol with this number. None exactly where there is no such symbol. Allocates nothing.
    pub fn index_of(&self, symbol: usize) -> Option<u16>
        ensures { result ≡ slice_get self.now symbol }
    {
        match self.all.get(symbol) {
            Some(index) => Some(*index),
            None => None,
        }
    }
}
