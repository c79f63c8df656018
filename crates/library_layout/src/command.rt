// `layout`: the position of each member of a structure, with its holes and its padding.
ghost use Rattle.std.specs.Prelude.{◌≡◌, ◌≤◌, List, [], ◌∷◌, map, IfOk, IfErr};
ghost use Rattle.abi_base.specs.declared.fault.NoMemory.TheVariants.{Allocation};
ghost use Rattle.commands.specs.Commands.{places_of, plain_place};
ghost use Rattle.library_layout.specs.Command.{layout_inputs, layout_passes, layout_says};

use crate::libraries::layout_of;
use abi_base::NoMemory;
use cli_args::commands::LayoutWords;
use commands::{Command, Input, Judgement, Place, Stop, one};
use report::Listener;
use std::alloc::Global;

/// `layout` of the structure with a tag in a library.
#[derive(Clone, Copy)]
pub struct Layout<'a> {
    /// What the arguments request.
    pub words: LayoutWords<'a>,
}

impl<'a> Layout<'a> {
    /// The inputs and the sources of their bytes. It fails only if memory runs out.
    pub fn places(&self, alloc: Global) -> Result<Vec<Place<'a>>, NoMemory>
        ensures places { IfOk result (λ places. map plain_place places.items
            ≡ places_of (layout_inputs self.now.words.library.now)) }
        ensures named { IfErr result (λ e. e ≡ Allocation) }
    {
        Ok(vec![in alloc; Place::named(Input::Library, self.words.library)]?)
    }
}

impl Command for Layout<'_> {
    ghost inputs = { λ c. layout_inputs c.words.library.now };

    ghost says = { λ c voices. layout_says c.words.tag.now };

    ghost passes = { λ c. layout_passes c.words.tag.now };

    fn judge(
        self,
        alloc: Global,
        all: &[Vec<u8>],
        _listeners: Vec<Box<dyn Listener>>,
    ) -> Result<Judgement, Stop> {
        layout_of(alloc, one(all), self.words.tag)
    }
}
