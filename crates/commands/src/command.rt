// Commands.
ghost use Rattle.std.specs.Prelude.{◌≡◌, [], List, ℕ, Option, length, map, All, OnOk, IfOk, IfErr};
ghost use Rattle.abi_base.specs.declared.limit.Limit.{Limit as AnyLimit};
ghost use Rattle.abi_base.specs.declared.remark.Remark.{Remark as AnyRemark};
ghost use Rattle.report.specs.Listening.{Voice};
ghost use Rattle.commands.specs.Commands.{Wanted, asks_of, items_of, places_of};
ghost use Rattle.commands.specs.Faults.{AreReadable, AreShort, StopsAt};
ghost use Rattle.commands.specs.Reading.{AreOwn};
ghost use Rattle.commands.specs.declared.verdict.Verdict.{Verdict as AnyVerdict};

use crate::stop::Stop;
use crate::verdict::Verdict;
use abi_base::Remark;
use report::Listener;
use std::alloc::Global;

/// A verdict, remarks on the inputs, and the text.
#[derive(Drop)]
pub struct Judgement {
    /// The verdict.
    pub verdict: Verdict,
    /// The number of exports without a type in the debug information, if two libraries were compared.
    pub untyped: Option<Remark>,
    /// The bytes of the text.
    pub text: Vec<u8>,
}

/// A command: the inputs that it needs, and what it says about their bytes.
pub trait Command: Drop {
    /// The inputs that it needs, in the order in which they are read, each with the faults for which the command checks.
    ghost inputs: { Self → List Wanted };

    /// What it may say about the bytes of its inputs, if none has a fault, to listeners with these voices.
    ghost says: { Self → List Voice → List (List ℕ) → AnyVerdict → Option AnyRemark → List ℕ → Type 0 };

    /// Which limits the bytes of its inputs pass.
    ghost passes: { Self → List (List ℕ) → AnyLimit → Type 0 };

    /// Judges the bytes of its inputs, or reports the first fault in them, or a limit that they pass.
    fn judge(
        self,
        alloc: Global,
        all: &[Vec<u8>],
        listeners: Vec<Box<dyn Listener>>,
    ) -> Result<Judgement, Stop>
        requires each { length all.now ≡ length (inputs self) }
        requires own { AreOwn (places_of (inputs self)) (map items_of all.now) }
        requires unheard { All (λ listener. heard listener ≡ []) listeners.items }
        requires short { AreShort (map items_of all.now) }
        ensures readable { OnOk result (AreReadable (asks_of (inputs self)) (map items_of all.now)) }
        ensures said { IfOk result (λ j. says self (map voice listeners.items)
            (map items_of all.now) j.verdict j.untyped j.text.items) }
        ensures stops { IfErr result (StopsAt (asks_of (inputs self)) (passes self) (map items_of all.now)) };
}
