// The declaration places of entries.
ghost use Rattle.std.specs.Prelude.{◌≡◌, IfOk};
ghost use Rattle.std.specs.Option.{option_map};
ghost use Rattle.entry_places.specs.Coordinates as spec;
ghost use Rattle.entry_places.specs.Plain.{plain_place};

use crate::coordinates::coordinates_of;
use crate::known::Known;
use crate::place::DeclarationPlace;
use crate::places::EntryPlaces;
use abi_base::{Effort, NoMemory};
use dwarf_forms::DebugInfoOffset;
use std::alloc::Global;
use std::marker::Model;

/// A reader of declaration places. It reads each unit and each line program once, as long as the line programs are small. Contracts
/// see the sections.
#[derive(Drop)]
pub struct PlaceReader<'x, 'a> {
    places: &'x EntryPlaces<'a>,
    known: Known<'a>,
}

impl<'x, 'a> Model for PlaceReader<'x, 'a> {
    ghost use Rattle.entry_places.specs.Coordinates.{DebugBytes};
    ghost use Rattle.entry_places.specs.Known.{IsKnown};

    ghost Value = { DebugBytes };

    ghost view = { λ r. r.places.now };

    ghost invariant = { λ r. IsKnown r.places.now r.known };
}

impl<'x, 'a> PlaceReader<'x, 'a> {
    /// A reader with a budget. It spends the bytes of each line program header that it reads, and the lengths of the strings that
    /// make up the name of each place's file: files can share long strings, and headers their bytes.
    pub fn new(alloc: Global, effort: Effort, places: &'x EntryPlaces<'a>) -> PlaceReader<'x, 'a>
        ensures { result ≡ places.now }
    {
        PlaceReader {
            places,
            known: Known::nothing(alloc, effort, places),
        }
    }

    /// The declaration place of the entry at an offset (DWARF 5, section 2.14 "Declaration Coordinates"; DWARF 4, the same
    /// section). None exactly where no entry begins there, the entry has no file or no line, its unit has no line program, or that
    /// has no name for the file (see `dwarf_files::FileNames::name`). `NoMemory` also comes where the budget is spent.
    ///
    /// A relative name is prefixed with the directory in which the unit was compiled, if the debug information gives it.
    #[tactic(auto, unfolding(crate::specs::Coordinates::place_of))]
    pub fn place_of(
        &mut self,
        alloc: Global,
        offset: DebugInfoOffset,
    ) -> Result<Option<DeclarationPlace>, NoMemory>
        ensures place { IfOk result (λ place. option_map plain_place place ≡ spec.place_of self.old offset) }
        ensures same { self.new ≡ self.old }
    {
        let Some(said) = coordinates_of(self.places.tree(), offset) else {
            return Ok(None);
        };
        match self.known.file(alloc, self.places, said.unit, said.file)? {
            Some(file) => Ok(Some(DeclarationPlace {
                file,
                line: said.line,
            })),
            None => Ok(None),
        }
    }
}
