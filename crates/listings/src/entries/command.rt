// `entries`: the debugging information entries of a library.
ghost use Rattle.std.specs.Prelude.{◌≡◌, ◌≤◌, List, [], ◌∷◌, map, IfOk, IfErr};
ghost use Rattle.abi_base.specs.declared.fault.NoMemory.TheVariants.{Allocation};
ghost use Rattle.commands.specs.Commands.{places_of, plain_place};
ghost use Rattle.listings.specs.entries.Command.{entries_inputs, entries_passes, entries_says};

use crate::entries::lines::entry_lines;
use abi_base::NoMemory;
use commands::{Command, Input, Judgement, Place, Stop, Verdict, one, stop_at};
use report::Listener;
use std::alloc::Global;

/// `entries` of a library: a line for each debugging information entry, in order of offset. It checks only for faults of the
/// header, the sections, the units and the entries.
#[derive(Clone, Copy)]
pub struct Entries<'a> {
    /// The name of the library.
    pub library: &'a str,
}

impl<'a> Entries<'a> {
    /// The inputs and the sources of their bytes. It fails only if memory runs out.
    pub fn places(&self, alloc: Global) -> Result<Vec<Place<'a>>, NoMemory>
        ensures places { IfOk result (λ places. map plain_place places.items
            ≡ places_of (entries_inputs self.now.library.now)) }
        ensures named { IfErr result (λ e. e ≡ Allocation) }
    {
        Ok(vec![in alloc; Place::named(Input::Library, self.library)]?)
    }
}

impl Command for Entries<'_> {
    ghost inputs = { λ c. entries_inputs c.library.now };

    ghost says = { λ c voices. entries_says };

    ghost passes = { λ c. entries_passes };

    fn judge(
        self,
        alloc: Global,
        all: &[Vec<u8>],
        _listeners: Vec<Box<dyn Listener>>,
    ) -> Result<Judgement, Stop> {
        match entry_lines(alloc, one(all)) {
            Ok(lines) => Ok(Judgement {
                verdict: Verdict::Done,
                untyped: None,
                text: lines.into_bytes(),
            }),
            Err(refusal) => Err(stop_at(Input::Library, refusal)),
        }
    }
}
