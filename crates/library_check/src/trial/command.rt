// `trial`: two libraries that are generated and checked.
ghost use Rattle.std.specs.Prelude.{◌≡◌, ◌≤◌, ◌<◌, map, IfErr, IfOk};
ghost use Rattle.abi_base.specs.declared.fault.NoMemory.TheVariants.{Allocation};
ghost use Rattle.trial_libraries.specs.Libraries.{library as made_library};
ghost use Rattle.trial_libraries.specs.Limits.{most_functions};
ghost use Rattle.library_check.specs.Rows.Trial.{trial_inputs, trial_passes, trial_says};
ghost use Rattle.commands.specs.Commands.{places_of, plain_place};
ghost use Rattle.commands.specs.Reading.{AreOwnShort};

use crate::trial::trying::try_libraries;
use abi_base::NoMemory;
use commands::{Command, Input, Judgement, Place, Stop, Verdict, two};
use report::Listener;
use std::alloc::Global;
use trial_libraries::laws::made_libraries_are_no_longer_than_inputs;
use trial_libraries::{GenRefusal, Side, make};

/// `trial` with a number of functions: two libraries with that many are generated and checked, with an empty rule file and a
/// listener of its own. A fault in one of them would be reported as if it had been read from a file.
#[derive(Clone, Copy)]
pub struct Trial {
    /// The number of functions.
    pub count: u32,
    ghost some: { 0 < count },
    ghost few: { count ≤ most_functions },
}

// Generates the library of one side. It fails only if memory runs out.
fn make_one(alloc: Global, count: u32, side: Side) -> Result<Vec<u8>, NoMemory>
    requires some { 0 < count }
    requires few { count ≤ most_functions }
    ensures made { IfOk result (λ file. file.items ≡ made_library count side) }
    ensures named { IfErr result (λ e. e ≡ Allocation) }
{
    match make(alloc, count, side) {
        Ok(file) => Ok(file),
        Err(GenRefusal::Size) => unreachable!(),
        Err(GenRefusal::NoMemory) => Err(NoMemory::Allocation),
    }
}

impl Trial {
    /// The inputs and the sources of their bytes. It fails only if memory runs out.
    pub fn places<'a>(&self, alloc: Global) -> Result<Vec<Place<'a>>, NoMemory>
        ensures places { IfOk result (λ places. map plain_place places.items
            ≡ places_of (trial_inputs self.now.count)) }
        ensures short { AreOwnShort (places_of (trial_inputs self.now.count)) }
        ensures named { IfErr result (λ e. e ≡ Allocation) }
    {
        made_libraries_are_no_longer_than_inputs();
        let old = make_one(alloc, self.count, Side::Old)?;
        let new = make_one(alloc, self.count, Side::New)?;
        Ok(vec![in alloc; Place::own(Input::Old, old), Place::own(Input::New, new)]?)
    }
}

impl Command for Trial {
    ghost inputs = { λ c. trial_inputs c.count };

    ghost says = { λ c voices. trial_says c.count };

    ghost passes = { λ c. trial_passes c.count };

    fn judge(
        self,
        alloc: Global,
        all: &[Vec<u8>],
        _listeners: Vec<Box<dyn Listener>>,
    ) -> Result<Judgement, Stop> {
        let (old, new) = two(all);
        let text = try_libraries(alloc, self.count, old, new)?;
        Ok(Judgement {
            verdict: Verdict::Done,
            untyped: None,
            text,
        })
    }
}
