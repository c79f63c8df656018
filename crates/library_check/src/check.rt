// `check`: whether the new library may replace the old one.
ghost use Rattle.std.specs.Prelude.{◌≡◌, ◌≤◌, List, [], ◌∷◌, length, map, All, OnOk, IfOk, IfErr};
ghost use Rattle.abi_base.specs.declared.fault.NoMemory.TheVariants.{Allocation};
ghost use Rattle.abi_base.specs.Limits.{input_limit};
ghost use Rattle.library_check.specs.Inputs.{check_asks};
ghost use Rattle.library_check.specs.Rows.Check.{check_inputs, check_passes, check_says};
ghost use Rattle.cli_args.specs.Commands.{plain_word};
ghost use Rattle.commands.specs.Commands.{places_of, plain_place};
ghost use Rattle.commands.specs.Faults.{AreReadable, StopsAt};
ghost use Rattle.report.specs.styles.Wanted.{wanted_voices};

use crate::checking;
use abi_base::NoMemory;
use cli_args::commands::CheckWords;
use commands::{Command, Input, Judgement, Place, Stop, three};
use report::Listener;
use report::styles::{ReportStyle, wanted_listeners};
use std::alloc::Global;

/// `check` of two libraries, with an optional rule file. On no, the listeners of its style hear all breaks.
#[derive(Clone, Copy)]
pub struct Check<'a> {
    /// What the arguments request.
    pub words: CheckWords<'a>,
}

impl<'a> Check<'a> {
    /// The inputs and the sources of their bytes. It fails only if memory runs out.
    pub fn places(&self, alloc: Global) -> Result<Vec<Place<'a>>, NoMemory>
        ensures places { let words = self.now.words in IfOk result (λ places. map plain_place places.items
            ≡ places_of (check_inputs (plain_word words.rules) words.old.now words.new.now)) }
        ensures named { IfErr result (λ e. e ≡ Allocation) }
    {
        let rules = Place::named_or_empty(alloc, Input::Rules, self.words.rules);
        Ok(vec![in alloc;
            Place::named(Input::Old, self.words.old),
            Place::named(Input::New, self.words.new),
            rules,
        ]?)
    }
}

impl Command for Check<'_> {
    ghost inputs = { λ c. check_inputs (plain_word c.words.rules) c.words.old.now c.words.new.now };

    ghost says = { λ c voices. check_says (wanted_voices c.words.report voices) };

    ghost passes = { λ c. check_passes };

    fn judge(
        self,
        alloc: Global,
        all: &[Vec<u8>],
        listeners: Vec<Box<dyn Listener>>,
    ) -> Result<Judgement, Stop> {
        let (old, new, rules) = three(all);
        check_pair(alloc, old, new, rules, self.words.report, listeners)
    }
}

// The judgement of `check` on the bytes of an old library, a new one and a rule file. Faults are reported in this order of the
// inputs.
fn check_pair(
    alloc: Global,
    old: &[u8],
    new: &[u8],
    rules: &[u8],
    report: ReportStyle,
    listeners: Vec<Box<dyn Listener>>,
) -> Result<Judgement, Stop>
    requires old_short { length old.now ≤ input_limit }
    requires new_short { length new.now ≤ input_limit }
    requires unheard { All (λ listener. heard listener ≡ []) listeners.items }
    ensures readable { OnOk result (AreReadable check_asks (old.now ∷ new.now ∷ rules.now ∷ [])) }
    ensures said { IfOk result (λ j. check_says (wanted_voices report (map voice listeners.items))
        (old.now ∷ new.now ∷ rules.now ∷ []) j.verdict j.untyped j.text.items) }
    ensures stops { IfErr result (StopsAt check_asks check_passes (old.now ∷ new.now ∷ rules.now ∷ [])) }
{
    let told = wanted_listeners(alloc, listeners, report)?;
    checking::check(alloc, old, new, rules, told)
}
