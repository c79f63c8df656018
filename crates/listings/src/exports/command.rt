// `exports`: the exports of a library.
ghost use Rattle.std.specs.Prelude.{◌≡◌, ◌≤◌, List, [], ◌∷◌, IfOk, length, string_bytes, map, IfErr};
ghost use Rattle.abi_base.specs.declared.fault.NoMemory.TheVariants.{Allocation};
ghost use Rattle.abi_base.specs.Limits.{input_limit};
ghost use Rattle.abi_base.specs.Outcome.{Judges, OnPast};
ghost use Rattle.commands.specs.Commands.{places_of, plain_place};
ghost use Rattle.library_read.specs.Faults.{library_fault};
ghost use Rattle.library_read.specs.Libraries.{library_of};
ghost use Rattle.listings.specs.exports.Command.{ExportsPass, exports_inputs, exports_passes, exports_says};
ghost use Rattle.listings.specs.exports.ExportLines.{exports_text};

use crate::exports::lines::export_lines;
use abi_base::{Budget, Limit, NoMemory, Refusal};
use abi_types::{Library, OldIx};
use commands::{Command, Input, Judgement, Place, Stop, Verdict, one, stop_at};
use library_read::read_library;
use report::Listener;
use std::alloc::Global;

/// `exports` of a library: a line for each export, in order of symbols, with the places of its arguments and of its result. It
/// checks for all faults of a library.
#[derive(Clone, Copy)]
pub struct Exports<'a> {
    /// The name of the library.
    pub library: &'a str,
}

impl<'a> Exports<'a> {
    /// The inputs and the sources of their bytes. It fails only if memory runs out.
    pub fn places(&self, alloc: Global) -> Result<Vec<Place<'a>>, NoMemory>
        ensures places { IfOk result (λ places. map plain_place places.items
            ≡ places_of (exports_inputs self.now.library.now)) }
        ensures named { IfErr result (λ e. e ≡ Allocation) }
    {
        Ok(vec![in alloc; Place::named(Input::Library, self.library)]?)
    }
}

impl Command for Exports<'_> {
    ghost inputs = { λ c. exports_inputs c.library.now };

    ghost says = { λ c voices. exports_says };

    ghost passes = { λ c. exports_passes };

    fn judge(
        self,
        alloc: Global,
        all: &[Vec<u8>],
        _listeners: Vec<Box<dyn Listener>>,
    ) -> Result<Judgement, Stop> {
        match exports_of(alloc, one(all)) {
            Ok(lines) => Ok(Judgement {
                verdict: Verdict::Done,
                untyped: None,
                text: lines.into_bytes(),
            }),
            Err(refusal) => Err(stop_at(Input::Library, refusal)),
        }
    }
}

// The lines of the exports of a library.
#[tactic(auto, using(crate::proofs::LimitLemmas::reading_passes, crate::proofs::LimitLemmas::lines_pass))]
fn exports_of(alloc: Global, bytes: &[u8]) -> Result<String, Refusal>
    requires { length bytes.now ≤ input_limit }
    ensures judged { Judges result (library_fault bytes.now) }
    ensures lines { IfOk result (λ text. string_bytes text ≡ exports_text (library_of bytes.now)) }
    ensures past { IfErr result (λ e. OnPast e (ExportsPass bytes.now)) }
{
    let library: Library<OldIx> = read_library(alloc, bytes)?;
    let mut budget = Budget::of(Limit::Listing, bytes.len());
    let text = export_lines(alloc, &library, &mut budget)?;
    Ok(text)
}
