// A run that makes a document.
ghost use Rattle.std.specs.Prelude.{◌≡◌, ◌≢◌, ◌∷◌, [], Option, false, All, IfOk, OnOk, map};
ghost use Rattle.abi_base.specs.declared.remark.Remark.{Remark as AnyRemark};
ghost use Rattle.abi_json.specs.Documents.{IsDocument, OnText, TellsBreaks};
ghost use Rattle.abi_top.specs.Answer.{Answers};
ghost use Rattle.abi_top.specs.Calls.{Call, call_of};
ghost use Rattle.abi_top.specs.Verdicts.{Agrees, Disagrees, MeansYes};
ghost use Rattle.cli_args.specs.Words.{texts};
ghost use Rattle.commands.specs.Outcomes.{IsNoMemory};
ghost use Rattle.json_report.specs.Breaks.{json_voice};

use crate::beside::side_notes_of;
use crate::document::document_of;
use abi_base::{Inputs, NoMemory};
use abi_top::run;
use commands::{Outcome, Verdict};
use document_head::{Ending, Wanted};
use json_report::{JsonListener, TextSink};
use report::{Listener, add_listener};
use std::alloc::Global;

/// How a run ended, and its document.
#[derive(Drop)]
pub(crate) struct Told {
    /// How the run ended.
    pub outcome: Outcome,
    /// The bytes of the document.
    pub document: Vec<u8>,
}

// Adds the JSON listener to an empty list.
#[tactic(auto, using(crate::proofs::NoLemmas::only_voice))]
fn add_alone(
    listeners: &mut Vec<Box<dyn Listener>>,
    listener: Box<dyn Listener>,
) -> Result<(), NoMemory>
    requires none { listeners.old.items ≡ [] }
    requires heard { heard listener ≡ [] }
    requires voice { voice listener ≡ json_voice }
    ensures unheard { All (λ listener. heard listener ≡ []) listeners.new.items }
    ensures alone { OnOk result (map voice listeners.new.items ≡ json_voice ∷ []) }
{
    add_listener(listeners, listener)?;
    Ok(())
}

// The document of a run, with the notes on differences that no rule judges if they are wanted.
fn document_told(alloc: Global, ending: &Ending<'_>) -> Result<Vec<u8>, NoMemory>
    ensures { IfOk result (λ document. IsDocument (texts ending.now.words.now)
        ending.now.outcome ending.now.text.now document.items) }
{
    let side_notes = side_notes_of(alloc, ending)?;
    document_of(alloc, ending, side_notes)
}

// Whether a text could not be written. A sink in memory takes each text, unless memory runs out.
fn is_unwritten(outcome: Outcome) -> bool
    ensures { result ≡ false → outcome ≢ Outcome.WriteFault }
{
    match outcome {
        Outcome::WriteFault => true,
        _ => false,
    }
}

/// Runs the arguments over inputs with a listener that makes JSON of the breaks, and makes the document of the run, with the wanted
/// optional members. In the clauses, `call` is the call of `abi_top::run`, and a document that is `OnText` has the answer of that call
/// and its text. It fails only if memory runs out.
pub(crate) fn told_of<I: Inputs>(
    alloc: Global,
    words: &[&str],
    inputs: &mut I,
    wanted: Wanted,
) -> Result<Told, NoMemory>
    // The document has the answer of the run: an outcome and its text, as the table `Answers` gives them.
    ensures answered { let call : Call = call_of I.told I.faults I.given I.started
        (json_voice ∷ []) words.entry.now inputs.old inputs.new in
        IfOk result (λ told. (IsNoMemory told.outcome → ⊥)
        → OnText (texts words.entry.now) told.outcome told.document.items (λ text. Answers call told.outcome text)) }
    ensures written { IfOk result (λ told. told.outcome ≢ Outcome.WriteFault) }
    // Yes: all inputs are readable, and the new library may replace the old one. The text is the certificate, for `check`.
    ensures yes { let call : Call = call_of I.told I.faults I.given I.started
        (json_voice ∷ []) words.entry.now inputs.old inputs.new in
        IfOk result (λ told. (untyped : Option AnyRemark) → told.outcome ≡ Outcome.Judged Verdict.Yes untyped
        → Agrees call × OnText (texts words.entry.now) told.outcome told.document.items
        (λ said. MeansYes call untyped (λ text. said ≡ text))) }
    // No: all inputs are readable, and the new library may not replace the old one. The breaks of the document are the rows, in order,
    // of the right report on the two libraries, or on the exports that the application uses.
    ensures no { let call : Call = call_of I.told I.faults I.given I.started
        (json_voice ∷ []) words.entry.now inputs.old inputs.new in
        IfOk result (λ told. (untyped : Option AnyRemark) → told.outcome ≡ Outcome.Judged Verdict.No untyped
        → Disagrees call × TellsBreaks call told.document.items) }
{
    let mut listeners: Vec<Box<dyn Listener>> = Vec::new(alloc);
    add_alone(&mut listeners, Box::new(alloc, JsonListener::new(alloc))?)?;
    let mut answer = TextSink::new(alloc);
    let ended = run(alloc, words, inputs, &mut answer, listeners);
    let outcome = ended.outcome;
    if is_unwritten(outcome) {
        return Err(NoMemory::Allocation);
    }
    let ending = Ending {
        words,
        outcome,
        files: &ended.files,
        text: answer.held(),
        read: &ended.read,
        wanted,
    };
    let document = document_told(alloc, &ending)?;
    Ok(Told { outcome, document })
}
