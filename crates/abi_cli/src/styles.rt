// The listeners of the program, one for each style of a report except `own`.
ghost use Rattle.std.specs.Prelude.{◌≡◌, ◌≢◌, ◌++◌, ◌∷◌, [], List, ℕ, Option, map, All, IfErr, OnErr, OnOk, IfOk};
ghost use Rattle.std.specs.Io.KnownBytes.{Appends};
ghost use Rattle.abi_base.specs.declared.fault.NoMemory.TheVariants.{Allocation};
ghost use Rattle.abi_base.specs.declared.remark.Remark.{Remark as AnyRemark};
ghost use Rattle.abi_cli.specs.Styles.{program_voices};
ghost use Rattle.abi_top.specs.Answer.{Answers};
ghost use Rattle.abi_top.specs.Calls.{Call, call_of};
ghost use Rattle.abi_top.specs.Verdicts.{Agrees, Disagrees, MeansNo, MeansYes};
ghost use Rattle.commands.specs.Outcomes.{IsNoMemory};
ghost use Rattle.report.specs.Listening.{styled};
ghost use Rattle.report.specs.declared.style.Style.TheVariants.{Counts, First, Table, Text};

use abi_base::{Inputs, NoMemory, Sink};
use abi_top::{Ended, Outcome, run};
use commands::Verdict;
use report::{CountsListener, FirstListener, Listener, TableListener, TextListener, add_listener};
use std::alloc::Global;

// The number of rows that the style `first` prints.
const FIRST_ROWS: u32 = 10;

// Appends the listener of the style `text`.
#[tactic(auto, using(crate::proofs::StyleLemmas::added))]
fn add_text(
    listeners: &mut Vec<Box<dyn Listener>>,
    listener: Box<dyn Listener>,
) -> Result<(), NoMemory>
    requires unheard { All (λ listener. heard listener ≡ []) listeners.old.items }
    requires heard { heard listener ≡ [] }
    requires voice { voice listener ≡ styled Text }
    ensures unheard { All (λ listener. heard listener ≡ []) listeners.new.items }
    ensures voices { OnOk result (map voice listeners.new.items
        ≡ map voice listeners.old.items ++ styled Text ∷ []) }
    ensures named { IfErr result (λ e. e ≡ Allocation) }
{
    add_listener(listeners, listener)?;
    Ok(())
}

// Appends the listener of the style `table`.
#[tactic(auto, using(crate::proofs::StyleLemmas::added))]
fn add_table(
    listeners: &mut Vec<Box<dyn Listener>>,
    listener: Box<dyn Listener>,
) -> Result<(), NoMemory>
    requires unheard { All (λ listener. heard listener ≡ []) listeners.old.items }
    requires heard { heard listener ≡ [] }
    requires voice { voice listener ≡ styled Table }
    ensures unheard { All (λ listener. heard listener ≡ []) listeners.new.items }
    ensures voices { OnOk result (map voice listeners.new.items
        ≡ map voice listeners.old.items ++ styled Table ∷ []) }
    ensures named { IfErr result (λ e. e ≡ Allocation) }
{
    add_listener(listeners, listener)?;
    Ok(())
}

// Appends the listener of the style `counts`.
#[tactic(auto, using(crate::proofs::StyleLemmas::added))]
fn add_counts(
    listeners: &mut Vec<Box<dyn Listener>>,
    listener: Box<dyn Listener>,
) -> Result<(), NoMemory>
    requires unheard { All (λ listener. heard listener ≡ []) listeners.old.items }
    requires heard { heard listener ≡ [] }
    requires voice { voice listener ≡ styled Counts }
    ensures unheard { All (λ listener. heard listener ≡ []) listeners.new.items }
    ensures voices { OnOk result (map voice listeners.new.items
        ≡ map voice listeners.old.items ++ styled Counts ∷ []) }
    ensures named { IfErr result (λ e. e ≡ Allocation) }
{
    add_listener(listeners, listener)?;
    Ok(())
}

// Appends the listener of the style `first`.
#[tactic(auto, using(crate::proofs::StyleLemmas::added))]
fn add_first(
    listeners: &mut Vec<Box<dyn Listener>>,
    listener: Box<dyn Listener>,
) -> Result<(), NoMemory>
    requires unheard { All (λ listener. heard listener ≡ []) listeners.old.items }
    requires heard { heard listener ≡ [] }
    requires voice { voice listener ≡ styled (First 10) }
    ensures unheard { All (λ listener. heard listener ≡ []) listeners.new.items }
    ensures voices { OnOk result (map voice listeners.new.items
        ≡ map voice listeners.old.items ++ styled (First 10) ∷ []) }
    ensures named { IfErr result (λ e. e ≡ Allocation) }
{
    add_listener(listeners, listener)?;
    Ok(())
}

/// Runs the arguments with a listener for each style of a report except `own`. Its answer is that of `abi_top::run` with these
/// listeners, for which `call` stands. It fails only where an allocation fails, and then nothing is written.
pub(crate) fn run_in_styles<'a, I: Inputs, S: Sink>(
    alloc: Global,
    words: &'a [&'a str],
    inputs: &mut I,
    sink: &mut S,
) -> Result<Ended<'a>, NoMemory>
    ensures answered { let call : Call = call_of I.told I.faults I.given I.started
        program_voices words.entry.now inputs.old inputs.new in
        IfOk result (λ ended. (IsNoMemory ended.outcome → ⊥) → ended.outcome ≢ Outcome.WriteFault
        → (text : List ℕ) × Answers call ended.outcome text × Appends (S.held sink.old) (S.held sink.new) text) }
    ensures yes { let call : Call = call_of I.told I.faults I.given I.started
        program_voices words.entry.now inputs.old inputs.new in
        IfOk result (λ ended. (untyped : Option AnyRemark) → ended.outcome ≡ Outcome.Judged Verdict.Yes untyped
        → MeansYes call untyped (λ text. Appends (S.held sink.old) (S.held sink.new) text) × Agrees call) }
    ensures no { let call : Call = call_of I.told I.faults I.given I.started
        program_voices words.entry.now inputs.old inputs.new in
        IfOk result (λ ended. (untyped : Option AnyRemark) → ended.outcome ≡ Outcome.Judged Verdict.No untyped
        → MeansNo call untyped (λ text. Appends (S.held sink.old) (S.held sink.new) text) × Disagrees call) }
    ensures silent { OnErr result (sink.new ≡ sink.old) }
    ensures named { IfErr result (λ e. e ≡ Allocation) }
{
    let mut listeners: Vec<Box<dyn Listener>> = Vec::new(alloc);
    add_text(&mut listeners, Box::new(alloc, TextListener::new(alloc))?)?;
    add_table(&mut listeners, Box::new(alloc, TableListener::new(alloc))?)?;
    add_counts(&mut listeners, Box::new(alloc, CountsListener::new(alloc))?)?;
    let first = FirstListener::new(alloc, FIRST_ROWS);
    add_first(&mut listeners, Box::new(alloc, first)?)?;
    let ended = run(alloc, words, inputs, sink, listeners);
    Ok(ended)
}
