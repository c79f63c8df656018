// The version needs of a file.
ghost use Rattle.std.specs.Prelude.{◌≡◌};
ghost use Rattle.std.specs.Option.{option_map};
ghost use Rattle.elf_needs.specs.Plain.{plain_need, need_under, needed};

use std::collections::HashMap;

/// A version that a file needs, and the file that must define it.
#[derive(Clone, Copy, Debug)]
pub struct Need<'a> {
    /// The name of the version.
    pub version: &'a [u8],
    /// The name of the file.
    pub file: &'a [u8],
}

/// The version needs of a file. Contracts see them as `needed`, a map from version indexes.
#[derive(Drop)]
pub struct Needs<'a> {
    by_index: HashMap<u16, Need<'a>>,
}

impl<'a> Needs<'a> {
    /// These needs, by version index.
    pub(crate) fn of(by_index: HashMap<u16, Need<'a>>) -> Needs<'a>
        ensures { needed result ≡ need_under by_index.entry }
    {
        Needs { by_index }
    }

    /// The version and the file for a version index, from the first auxiliary entry with that index. None exactly where no
    /// auxiliary entry has it. Allocates nothing.
    pub fn need_of(&self, index: u16) -> Option<Need<'a>>
        ensures { option_map plain_need result ≡ needed self.now index }
    {
        match self.by_index.get(&index) {
            Some(need) => Some(*need),
            None => None,
        }
    }
}
