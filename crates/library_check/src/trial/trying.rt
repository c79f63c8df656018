// Two generated libraries, and what is said about them.
ghost use Rattle.std.specs.Prelude.{◌≡◌, ◌≤◌, ◌∷◌, [], length, map, All, OnOk, IfOk, IfErr};
ghost use Rattle.abi_base.specs.Limits.{input_limit};
ghost use Rattle.abi_base.specs.Outcome.{OnLimit};
ghost use Rattle.abi_base.specs.declared.fault.NoMemory.TheVariants.{Allocation};
ghost use Rattle.library_read.specs.Libraries.{library_of};
ghost use Rattle.suppression_text.specs.Rules.{rules_of};
ghost use Rattle.commands.specs.Faults.{AreReadable, StopsAt};
ghost use Rattle.library_check.specs.Inputs.{pair_asks};
ghost use Rattle.library_check.specs.Judgements.{IsJudged};
ghost use Rattle.library_check.specs.Limits.{JudgementPasses, TrialPasses};
ghost use Rattle.library_check.specs.Rows.Trial.{trial_passes};
ghost use Rattle.library_check.specs.trial.Trials.{IsSaid, IsTrialText, new_library, old_library, trial_voices};

use crate::checking::no_rules;
use crate::trial::summary::summarize;
use crate::{judge, read_pair};
use abi_base::NoMemory;
use abi_types::{Library, NewIx, OldIx};
use commands::{Judgement, Stop, Verdict};
use report::{Listener, TextListener};
use std::alloc::Global;

// A list of this listener alone.
fn alone(alloc: Global, listener: Box<dyn Listener>) -> Result<Vec<Box<dyn Listener>>, NoMemory>
    requires { heard listener ≡ [] }
    ensures unheard { IfOk result (λ listeners. All (λ listener. heard listener ≡ []) listeners.items) }
    ensures voices { IfOk result (λ listeners. map voice listeners.items ≡ voice listener ∷ []) }
    ensures named { IfErr result (λ e. e ≡ Allocation) }
{
    Ok(vec![in alloc; listener]?)
}

// What `check` says about two libraries, with an empty rule file and a listener that makes a line of each break.
#[tactic(auto, using(crate::proofs::LimitLemmas::judgement_by))]
fn judge_plainly(
    alloc: Global,
    old: &Library<OldIx>,
    new: &Library<NewIx>,
) -> Result<Judgement, NoMemory>
    ensures judged { IfOk result (λ j. IsJudged trial_voices old.now new.now (rules_of []) j.verdict j.text.items) }
    ensures past { IfErr result (λ e. OnLimit e (JudgementPasses old.now new.now (rules_of []))) }
{
    let listeners = alone(alloc, Box::new(alloc, TextListener::new(alloc))?)?;
    let rules = no_rules(alloc)?;
    judge(alloc, old, new, &rules, listeners)
}

// The lines of a trial of n functions, given its libraries.
#[tactic(auto, using(crate::proofs::LimitLemmas::judgement_tries))]
fn try_read(
    alloc: Global,
    n: u32,
    old: &Library<OldIx>,
    new: &Library<NewIx>,
) -> Result<Vec<u8>, NoMemory>
    requires old { old.now ≡ library_of (old_library n) }
    requires new { new.now ≡ library_of (new_library n) }
    ensures said { IfOk result (λ lines. IsSaid n lines.items) }
    ensures past { IfErr result (λ e. OnLimit e (TrialPasses n)) }
{
    let exports = old.exports().len();
    let said = judge_plainly(alloc, old, new)?;
    match said.verdict {
        Verdict::Yes => Ok(summarize(alloc, n, "yes", exports, said.text.as_slice())?),
        Verdict::No => Ok(summarize(alloc, n, "no", exports, said.text.as_slice())?),
        Verdict::Refused | Verdict::Done => unreachable!(),
    }
}

/// The two lines of a trial of n functions, given the bytes of its libraries. The first line has what `check` says about the old
/// and the new library, with an empty rule file, the number of exports of the old one, and the number of lines that `check` prints;
/// the second has the SHA-256 of that text. On no, the text is that of one listener, which makes a line of each break. A fault of a
/// library, of the old one first, stops the trial as it stops `check`.
#[tactic(auto, using(crate::proofs::StopLemmas::pair_stops_trial, crate::proofs::StopLemmas::trying_stops_trial))]
pub fn try_libraries(alloc: Global, n: u32, old: &[u8], new: &[u8]) -> Result<Vec<u8>, Stop>
    requires old { old.now ≡ old_library n }
    requires new { new.now ≡ new_library n }
    requires old_short { length old.now ≤ input_limit }
    requires new_short { length new.now ≤ input_limit }
    ensures readable { OnOk result (AreReadable pair_asks (old.now ∷ new.now ∷ [])) }
    ensures trial { IfOk result (λ lines. IsTrialText n lines.items) }
    ensures stops { IfErr result (StopsAt pair_asks (trial_passes n) (old.now ∷ new.now ∷ [])) }
{
    let pair = read_pair(alloc, old, new)?;
    let lines = try_read(alloc, n, &pair.old, &pair.new)?;
    Ok(lines)
}
