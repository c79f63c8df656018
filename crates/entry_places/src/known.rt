// Units and line programs that were read, so that each is read once for all entries.
ghost use Rattle.std.specs.Prelude.{◌≡◌, ◌<◌, length, IfOk};
ghost use Rattle.std.specs.Option.{option_copied, option_map};
ghost use Rattle.entry_places.specs.Coordinates.{entries_in, file_of};
ghost use Rattle.entry_places.specs.Coordinates as spec;
ghost use Rattle.entry_places.specs.Known.{IsKnown, IsOfUnit, IsProgram};

use crate::places::EntryPlaces;
use crate::unit_files::UnitFiles;
use abi_base::{Effort, NoMemory};
use dwarf_files::{FileNames, join};
use std::alloc::Global;
use std::collections::BTreeMap;
use std::rc::Rc;

// Line programs with more files and directories are not stored together. Few libraries have that many.
const MOST_KEPT_ENTRIES: usize = 0x10_0000;

// The units and line programs that were read, and the budget for reading more.
#[derive(Drop)]
pub(crate) struct Known<'a> {
    // by the numbers of the units
    pub(crate) units: BTreeMap<u64, UnitFiles<'a>>,
    // by the offsets in `.debug_line`
    pub(crate) programs: BTreeMap<u64, Rc<FileNames<'a>>>,
    // How many more files and directories the stored line programs may have, if there is more than one.
    pub(crate) room: usize,
    pub(crate) effort: Effort,
}

// A name in a directory, if that is known. The length of the directory is spent.
fn in_directory(
    alloc: Global,
    effort: &mut Effort,
    directory: Option<&[u8]>,
    name: Vec<u8>,
) -> Result<Vec<u8>, NoMemory>
    ensures { IfOk result (λ file. file.items ≡ spec.in_directory (option_copied directory.entry) name.items) }
{
    match directory {
        Some(directory) => {
            effort.spend(directory.len())?;
            join(alloc, directory, name.as_slice())
        }
        None => Ok(name),
    }
}

impl<'a> Known<'a> {
    // Nothing is read.
    #[tactic(auto, using(crate::proofs::KeptLemmas::kept_none))]
    pub(crate) fn nothing(alloc: Global, effort: Effort, places: &EntryPlaces<'a>) -> Known<'a>
        ensures { IsKnown places.now result }
    {
        Known {
            units: BTreeMap::new(alloc),
            programs: BTreeMap::new(alloc),
            room: MOST_KEPT_ENTRIES,
            effort,
        }
    }

    // What the root of a unit says.
    #[tactic(auto, using(crate::proofs::KeptLemmas::kept_more))]
    fn unit(&mut self, places: &EntryPlaces<'a>, unit: usize) -> Result<UnitFiles<'a>, NoMemory>
        requires known { IsKnown places.now self.old }
        requires inside { unit < length (entries_in places.now).units }
        ensures is { IfOk result (IsOfUnit places.now unit) }
        ensures known { IsKnown places.now self.new }
    {
        let found = self.units.get(&(unit as u64)).copied();
        match found {
            Some(files) => Ok(files),
            None => {
                let files = places.unit_files(unit);
                self.units.insert(unit as u64, files)?;
                Ok(files)
            }
        }
    }

    // Stores a line program with the others, or alone where there is no room for both.
    #[tactic(auto, using(crate::proofs::KeptLemmas::kept_none, crate::proofs::KeptLemmas::kept_more))]
    fn keep(
        &mut self,
        alloc: Global,
        places: &EntryPlaces<'a>,
        program: u64,
        names: Rc<FileNames<'a>>,
    ) -> Result<(), NoMemory>
        requires known { IsKnown places.now self.old }
        requires is { IsProgram places.now program names }
        ensures { IsKnown places.now self.new }
    {
        let count = names.entry_count();
        if count > self.room {
            self.programs = BTreeMap::new(alloc);
            self.room = MOST_KEPT_ENTRIES;
        }
        self.room = self.room.saturating_sub(count);
        self.programs.insert(program, names)?;
        Ok(())
    }

    // Reads the line program at an offset, and stores it.
    fn read(
        &mut self,
        alloc: Global,
        places: &EntryPlaces<'a>,
        program: u64,
    ) -> Result<Rc<FileNames<'a>>, NoMemory>
        requires { IsKnown places.now self.old }
        ensures is { IfOk result (IsProgram places.now program) }
        ensures known { IsKnown places.now self.new }
    {
        let names = Rc::new(alloc, places.names(alloc, &mut self.effort, program)?)?;
        self.keep(alloc, places, program, names.clone()?)?;
        Ok(names)
    }

    // The line program at an offset: the stored one if there is one, else read and stored.
    fn names(
        &mut self,
        alloc: Global,
        places: &EntryPlaces<'a>,
        program: u64,
    ) -> Result<Rc<FileNames<'a>>, NoMemory>
        requires { IsKnown places.now self.old }
        ensures is { IfOk result (IsProgram places.now program) }
        ensures known { IsKnown places.now self.new }
    {
        match self.programs.get(&program) {
            Some(names) => Ok(names.clone()?),
            None => self.read(alloc, places, program),
        }
    }

    // The file with this number in a unit's line program.
    #[tactic(auto, unfolding(crate::specs::Coordinates::file_of))]
    pub(crate) fn file(
        &mut self,
        alloc: Global,
        places: &EntryPlaces<'a>,
        unit: usize,
        number: u64,
    ) -> Result<Option<Vec<u8>>, NoMemory>
        requires known { IsKnown places.now self.old }
        requires inside { unit < length (entries_in places.now).units }
        ensures file { IfOk result (λ file. option_map (λ f. f.items) file
            ≡ file_of places.now (entries_in places.now) unit number) }
        ensures known { IsKnown places.now self.new }
    {
        let said = self.unit(places, unit)?;
        let Some(program) = said.program else {
            return Ok(None);
        };
        let names = self.names(alloc, places, program)?;
        match names.name(alloc, &mut self.effort, number)? {
            Some(name) => Ok(Some(in_directory(alloc, &mut self.effort, said.directory, name)?)),
            None => Ok(None),
        }
    }
}
