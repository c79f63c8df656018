// Reads inputs whole, in order.
ghost use Rattle.std.specs.Prelude.{◌≡◌, ◌≤◌, List, ℕ, length, map, IfOk, IfErr, IsSome, IfSome};
ghost use Rattle.abi_base.specs.Causes.{NeverFall, SameCounts, Unfailing};
ghost use Rattle.abi_base.specs.Limits.{input_limit};
ghost use Rattle.commands.specs.Commands.{items_of, plain_place};
ghost use Rattle.commands.specs.Faults.{AreShort};
ghost use Rattle.commands.specs.Reading.{AreOwnShort, AreTold, Gives, IsOwnShort, StopsOne, StopsReading, reading_of, starts_after_source, told_of};

use crate::place::{Place, Source};
use crate::stop::Stop;
use abi_base::{Fault, FaultKind, INPUT_LIMIT, Inputs, NoMemory, Take, read_whole};
use std::alloc::Global;

// The bytes of an input, or why it cannot be read whole.
fn read_one<I: Inputs>(alloc: Global, inputs: &mut I, place: &Place<'_>) -> Result<Vec<u8>, Stop>
    requires { IsOwnShort (plain_place place.now).1 }
    ensures told { (other : List ℕ) → I.told inputs.new other ≡ I.told inputs.old other }
    ensures later { NeverFall (I.faults inputs.old) (I.faults inputs.new) }
    ensures given { IfOk result (λ bytes. IfSome (told_of (I.told inputs.old) (plain_place place.now).1)
        (λ t. bytes.items ≡ t)) }
    ensures short { IfOk result (λ bytes. length bytes.items ≤ input_limit) }
    ensures still { Unfailing I.is_made_to_fail inputs.old → Unfailing I.is_made_to_fail inputs.new }
    ensures steady { Unfailing I.is_made_to_fail inputs.old
        → IsSome (told_of (I.told inputs.old) (plain_place place.now).1)
        → SameCounts (I.faults inputs.old) (I.faults inputs.new) }
    ensures started { I.started inputs.new ≡ starts_after_source (plain_place place.now).1 (I.started inputs.old) }
    ensures unread { IfErr result (StopsOne (I.told inputs.old) (I.faults inputs.old) (I.faults inputs.new)
        (I.given inputs.new) (plain_place place.now)) }
{
    match &place.source {
        Source::Own(bytes) => Ok(Vec::from_slice(alloc, bytes)?),
        Source::Named(name) => match read_whole(alloc, inputs, name, INPUT_LIMIT) {
            Ok(bytes) => Ok(bytes),
            Err(Take::NoMemory) => Err(Stop::NoMemory(NoMemory::Allocation)),
            Err(Take::Failed) => Err(Stop::ReadFault(place.which)),
            Err(Take::TooLong) => {
                let fault = Fault {
                    kind: FaultKind::TooLong,
                    at: INPUT_LIMIT as u64,
                };
                Err(Stop::Unreadable(place.which, fault))
            }
        },
    }
}

/// Why an input cannot be read whole, and the bytes of the inputs before it.
#[derive(Drop)]
pub(crate) struct Unread {
    /// Why there is no verdict.
    pub(crate) stop: Stop,
    /// The bytes of the inputs before it.
    pub(crate) all: Vec<Vec<u8>>,
}

/// The bytes of all inputs; or, for the first one that cannot be read whole, the reason.
pub(crate) fn read_all<I: Inputs>(
    alloc: Global,
    inputs: &mut I,
    places: &[Place<'_>],
) -> Result<Vec<Vec<u8>>, Unread>
    requires { AreOwnShort (map plain_place places.now) }
    ensures told { (name : List ℕ) → I.told inputs.new name ≡ I.told inputs.old name }
    ensures later { NeverFall (I.faults inputs.old) (I.faults inputs.new) }
    ensures given { IfOk result (λ all. Gives (I.told inputs.old) (map plain_place places.now)
        (map items_of all.items)) }
    // If no call is made to fail and the bytes of all inputs are known, no fault count rises.
    ensures steady { Unfailing I.is_made_to_fail inputs.old → AreTold (I.told inputs.old) (map plain_place places.now)
        → SameCounts (I.faults inputs.old) (I.faults inputs.new) }
    ensures unread { IfErr result (λ unread. StopsReading
        (reading_of I.told I.faults I.given I.started inputs.old inputs.new) (map plain_place places.now) unread.stop) }
{
    let mut all = Vec::new(alloc);
    for place in places {
        match read_one(alloc, inputs, place) {
            Ok(bytes) => match all.push(bytes) {
                Ok(()) => {}
                Err(_) => {
                    let stop = Stop::NoMemory(NoMemory::Allocation);
                    return Err(Unread { stop, all });
                }
            },
            Err(stop) => return Err(Unread { stop, all }),
        }
    }
    Ok(all)
}
