// The answer of a command, built in memory before anything is written.
ghost use Rattle.std.specs.Prelude.{◌≡◌, [], map, All, IfOk, IfErr};
ghost use Rattle.abi_base.specs.Causes.{SameCounts, Unfailing};
ghost use Rattle.abi_base.specs.Outcome.{OnLimit};
ghost use Rattle.commands.specs.Commands.{files_of, items_of, places_of, plain_file, plain_place};
ghost use Rattle.commands.specs.Outcomes.{IsStopReply, StopsFor};
ghost use Rattle.commands.specs.Read.{IsOnRead};
ghost use Rattle.commands.specs.Reading.{AreOwnShort, AreTold, reading_of};
ghost use Rattle.commands.specs.Replies.{OnBytes, Replies};

use crate::command::Command;
use crate::outcome::{Outcome, outcome_of};
use crate::place::{File, Place, files_in};
use crate::read::ReadInputs;
use crate::reading::{Unread, read_all};
use crate::stop::Stop;
use crate::text;
use abi_base::{Inputs, NoMemory};
use report::Listener;
use std::alloc::Global;

/// An outcome and its text.
#[derive(Drop)]
pub struct Answer<'a> {
    /// How the run ends.
    pub outcome: Outcome,
    /// The bytes of the text.
    pub text: Vec<u8>,
    /// The inputs that are read, with their names.
    pub files: Vec<File<'a>>,
    /// The inputs that were read, with their bytes.
    pub read: ReadInputs,
}

/// The answer of a command: it reads the inputs whole, in order, and then judges their bytes. It fails only if an allocation fails or
/// if the inputs gave bytes that pass a limit.
pub fn answer_with<'a, C: Command, I: Inputs>(
    alloc: Global,
    places: &[Place<'a>],
    command: C,
    inputs: &mut I,
    listeners: Vec<Box<dyn Listener>>,
) -> Result<Answer<'a>, NoMemory>
    requires places { map plain_place places.now ≡ places_of (C.inputs command) }
    requires short { AreOwnShort (places_of (C.inputs command)) }
    requires unheard { All (λ listener. heard listener ≡ []) listeners.items }
    ensures replies { IfOk result (λ a. Replies
        (reading_of I.told I.faults I.given I.started inputs.old inputs.new) (C.inputs command)
        (C.says command (map voice listeners.items)) a.outcome a.text.items) }
    // If no call is made to fail and the bytes of all inputs are known, no fault count rises.
    ensures steady { Unfailing I.is_made_to_fail inputs.old
        → AreTold (I.told inputs.old) (places_of (C.inputs command))
        → SameCounts (I.faults inputs.old) (I.faults inputs.new) }
    ensures files { IfOk result (λ a. map plain_file a.files.items ≡ files_of (places_of (C.inputs command))) }
    ensures read { IfOk result (λ a. IsOnRead
        (reading_of I.told I.faults I.given I.started inputs.old inputs.new) (C.inputs command)
        (C.says command (map voice listeners.items)) a.read.roles.items (map items_of a.read.all.items)
        a.outcome a.text.items) }
    ensures past { IfErr result (λ cause. OnLimit cause
        (λ limit. OnBytes (reading_of I.told I.faults I.given I.started inputs.old inputs.new)
        (C.inputs command) (λ all. C.passes command all limit))) }
{
    let files = files_in(alloc, places)?;
    match read_all(alloc, inputs, places) {
        Err(Unread { stop, all }) => {
            let read = ReadInputs::of(alloc, places, all)?;
            stopped(alloc, stop, files, read)
        }
        Ok(all) => {
            let judged = command.judge(alloc, &all, listeners);
            let read = ReadInputs::of(alloc, places, all)?;
            match judged {
                Ok(said) => Ok(Answer {
                    outcome: Outcome::Judged(said.verdict, said.untyped),
                    text: said.text,
                    files,
                    read,
                }),
                Err(stop) => stopped(alloc, stop, files, read),
            }
        }
    }
}

// The answer of a command that gives no verdict.
fn stopped<'a>(
    alloc: Global,
    stop: Stop,
    files: Vec<File<'a>>,
    read: ReadInputs,
) -> Result<Answer<'a>, NoMemory>
    ensures reply { IfOk result (λ a. IsStopReply stop a.outcome a.text.items) }
    ensures cause { IfErr result (StopsFor stop) }
    ensures files { IfOk result (λ a. a.files ≡ files.entry) }
{
    let text = match stop {
        Stop::NoMemory(cause) => return Err(cause),
        Stop::ReadFault(which) => text::read_fault(alloc, which)?,
        Stop::Unreadable(which, fault) => text::unreadable(alloc, which, fault)?,
    };
    Ok(Answer {
        outcome: outcome_of(stop),
        text,
        files,
        read,
    })
}
