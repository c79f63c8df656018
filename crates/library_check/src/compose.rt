// `compose`: the certificate that two certificates with a common middle library compose.
ghost use Rattle.std.specs.Prelude.{◌≡◌, ◌≤◌, List, [], ◌∷◌, IfOk, IfErr, map};
ghost use Rattle.abi_base.specs.declared.fault.NoMemory.TheVariants.{Allocation};
ghost use Rattle.library_check.specs.Rows.Compose.{compose_inputs, compose_passes, compose_says};
ghost use Rattle.commands.specs.Commands.{places_of, plain_place};

use crate::composing;
use crate::composing::ChainFiles;
use abi_base::NoMemory;
use cli_args::commands::ComposeWords;
use commands::{Command, Input, Judgement, Place, Stop, five};
use report::Listener;
use std::alloc::Global;

/// `compose` of two certificates: one for the first and the middle library, one for the middle and the last.
#[derive(Clone, Copy)]
pub struct Compose<'a> {
    /// What the arguments request.
    pub words: ComposeWords<'a>,
}

impl<'a> Compose<'a> {
    /// The inputs and the sources of their bytes. It fails only if memory runs out.
    pub fn places(&self, alloc: Global) -> Result<Vec<Place<'a>>, NoMemory>
        ensures places { let words = self.now.words in IfOk result (λ places. map plain_place places.items
            ≡ places_of (compose_inputs words.first.now words.middle.now words.last.now
            words.certificate1.now words.certificate2.now)) }
        ensures named { IfErr result (λ e. e ≡ Allocation) }
    {
        Ok(vec![in alloc;
            Place::named(Input::First, self.words.first),
            Place::named(Input::Middle, self.words.middle),
            Place::named(Input::Last, self.words.last),
            Place::named(Input::Certificate1, self.words.certificate1),
            Place::named(Input::Certificate2, self.words.certificate2),
        ]?)
    }
}

impl Command for Compose<'_> {
    ghost inputs = { λ c. compose_inputs c.words.first.now c.words.middle.now c.words.last.now
        c.words.certificate1.now c.words.certificate2.now };

    ghost says = { λ c voices. compose_says };

    ghost passes = { λ c. compose_passes };

    fn judge(
        self,
        alloc: Global,
        all: &[Vec<u8>],
        _listeners: Vec<Box<dyn Listener>>,
    ) -> Result<Judgement, Stop> {
        let (first, middle, last, certificate1, certificate2) = five(all);
        composing::compose(
            alloc,
            &ChainFiles {
                first,
                middle,
                last,
                certificate1,
                certificate2,
            },
        )
    }
}
