// The entries of a library, and what locates their files.
ghost use Rattle.std.specs.Prelude.{◌≡◌, ◌<◌, length, IfErr, IfOk};
ghost use Rattle.std.specs.Option.{option_copied};
ghost use Rattle.abi_base.specs.Outcome.{OnLimit};
ghost use Rattle.dwarf_units.specs.Limits.{UnitsPass};
ghost use Rattle.entry_places.specs.Coordinates.{directory_of, entries_in, if_sound, text_of};
ghost use Rattle.entry_places.specs.Known.{IsOfUnit, program_of};
ghost use Rattle.entry_places.specs.Plain.{debug_bytes};

use crate::roots::{DW_AT_comp_dir, line_program, of_root};
use crate::unit_files::UnitFiles;
use abi_base::{Effort, NoMemory, Refusal, text_at};
use dwarf_files::{FileNames, LineSections};
use dwarf_forms::{Sections, Value};
use dwarf_tree::{Tree, read_tree};
use std::alloc::Global;
use std::marker::Model;

/// The entries of a library, and the sections from which their declaration places are read. Contracts see the bytes of these
/// sections.
#[derive(Drop)]
pub struct EntryPlaces<'a> {
    info: &'a [u8],
    // `.debug_abbrev`, from which the tree was read
    abbrevs: &'a [u8],
    lines: LineSections<'a>,
    tree: Tree<'a>,
}

impl<'a> Model for EntryPlaces<'a> {
    ghost use Rattle.std.specs.Prelude.{◌≡◌};
    ghost use Rattle.dwarf_tree.specs.Trees.{tree_of};
    ghost use Rattle.entry_places.specs.Coordinates.{DebugBytes};

    ghost Value = { DebugBytes };

    ghost view = { λ p. record { info = p.info.now; abbrevs = p.abbrevs.now; line = p.lines.line.now; str = p.lines.str.now; line_str = p.lines.line_str.now } };

    ghost invariant = { λ p. p.tree ≡ tree_of p.info.now p.abbrevs.now };
}

impl<'a> EntryPlaces<'a> {
    /// Reads the entries of a library. None exactly where a unit or an entry has a fault (see `dwarf_tree::read_tree`).
    pub fn read(
        alloc: Global,
        sections: &Sections<'a>,
        line: &'a [u8],
    ) -> Result<Option<EntryPlaces<'a>>, NoMemory>
        ensures read { IfOk result (λ places. places ≡ if_sound (debug_bytes sections.now line.now)) }
        ensures past { IfErr result (λ e. OnLimit e (UnitsPass sections.now.info.now sections.now.abbrev.now)) }
    {
        match read_tree(alloc, sections) {
            Ok(tree) => Ok(Some(EntryPlaces {
                info: sections.info,
                abbrevs: sections.abbrev,
                lines: LineSections {
                    line,
                    str: sections.str,
                    line_str: sections.line_str,
                },
                tree,
            })),
            Err(Refusal::Fault(_)) => Ok(None),
            Err(Refusal::NoMemory(cause)) => Err(cause),
        }
    }

    /// The entries.
    pub fn tree(&self) -> &Tree<'a>
        ensures { result.now ≡ entries_in self.now }
    {
        &self.tree
    }

    // The string of a value.
    fn text(&self, value: Option<Value>) -> Option<&'a [u8]>
        ensures { option_copied result ≡ text_of self.now value }
    {
        match &value {
            Some(Value::Inline { from }) => text_at(self.info, *from),
            Some(Value::StrOffset(place)) => text_at(self.lines.str, place.get()),
            Some(Value::LineOffset(place)) => text_at(self.lines.line_str, place.get()),
            _ => None,
        }
    }

    // The directory in which a unit was compiled, where its line program does not give it.
    #[tactic(auto, unfolding(crate::specs::Coordinates::directory_of))]
    fn directory(&self, unit: usize) -> Option<&'a [u8]>
        requires { unit < length (entries_in self.now).units }
        ensures { option_copied result ≡ directory_of self.now (entries_in self.now) unit }
    {
        if self.tree.head(unit).version == 4 {
            self.text(of_root(&self.tree, unit, DW_AT_comp_dir))
        } else {
            None
        }
    }

    // What the root of a unit says of files.
    pub(crate) fn unit_files(&self, unit: usize) -> UnitFiles<'a>
        requires { unit < length (entries_in self.now).units }
        ensures { IsOfUnit self.now unit result }
    {
        UnitFiles {
            program: line_program(&self.tree, unit),
            directory: self.directory(unit),
        }
    }

    // The names of the files of a line program.
    pub(crate) fn names(
        &self,
        alloc: Global,
        effort: &mut Effort,
        program: u64,
    ) -> Result<FileNames<'a>, NoMemory>
        ensures { IfOk result (λ names. names ≡ program_of self.now program) }
    {
        FileNames::read(alloc, effort, &self.lines, program)
    }
}
