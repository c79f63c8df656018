// The inputs that a run read, and their bytes.
ghost use Rattle.std.specs.Prelude.{◌≡◌, ◌≤◌, [], length, map, IfErr, IfOk, IfSome};
ghost use Rattle.abi_base.specs.Limits.{input_limit};
ghost use Rattle.abi_base.specs.declared.fault.NoMemory.TheVariants.{Allocation};
ghost use Rattle.commands.specs.Commands.{items_of, plain_place};
ghost use Rattle.commands.specs.Read.{HasBytes, roles_of};

use crate::input::Input;
use crate::place::Place;
use abi_base::{INPUT_LIMIT, NoMemory};
use std::alloc::Global;

/// The inputs of a run, and the bytes of those that were read whole: all before the first that could not be.
#[derive(Drop)]
pub struct ReadInputs {
    /// The inputs, by their roles, in the order in which they were read.
    pub roles: Vec<Input>,
    /// The bytes of each that was read whole.
    pub all: Vec<Vec<u8>>,
}

impl ReadInputs {
    /// No inputs.
    pub fn none(alloc: Global) -> ReadInputs
        ensures { result.all.items ≡ [] }
    {
        ReadInputs {
            roles: Vec::new(alloc),
            all: Vec::new(alloc),
        }
    }

    // The inputs at these places, which gave these bytes.
    pub(crate) fn of(
        alloc: Global,
        places: &[Place<'_>],
        all: Vec<Vec<u8>>,
    ) -> Result<ReadInputs, NoMemory>
        ensures roles { IfOk result (λ read. read.roles.items ≡ roles_of (map plain_place places.now)) }
        ensures all { IfOk result (λ read. read.all ≡ all) }
        ensures named { IfErr result (λ e. e ≡ Allocation) }
    {
        let roles = roles_in(alloc, places)?;
        Ok(ReadInputs { roles, all })
    }

    /// The bytes of the input with this role, or `None` if it was not read. No input that was read is longer than the limit.
    pub fn bytes_of(&self, which: Input) -> Option<&[u8]>
        ensures some { IfSome result (λ bytes. HasBytes self.now.roles.items
            (map items_of self.now.all.items) which bytes.now) }
        ensures short { IfSome result (λ bytes. length bytes.now ≤ input_limit) }
    {
        for at in 0..self.roles.len() {
            if self.roles[at] == which && at < self.all.len() {
                return within(self.all[at].as_slice());
            }
        }
        None
    }
}

// Bytes that are within the limit on inputs.
fn within(bytes: &[u8]) -> Option<&[u8]>
    ensures same { IfSome result (λ it. it.now ≡ bytes.now) }
    ensures short { IfSome result (λ it. length it.now ≤ input_limit) }
{
    if bytes.len() <= INPUT_LIMIT {
        Some(bytes)
    } else {
        None
    }
}

// The roles of the inputs at these places.
fn roles_in(alloc: Global, places: &[Place<'_>]) -> Result<Vec<Input>, NoMemory>
    ensures roles { IfOk result (λ roles. roles.items ≡ roles_of (map plain_place places.now)) }
    ensures named { IfErr result (λ e. e ≡ Allocation) }
{
    let mut roles = Vec::new(alloc);
    for place in places {
        roles.push(place.which)?;
    }
    Ok(roles)
}
