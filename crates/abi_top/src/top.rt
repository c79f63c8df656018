// The top call.
ghost use Rattle.std.specs.Prelude.{◌≡◌, ◌≢◌, ◌⊎◌, ◌≤◌, List, [], ℕ, Option, Some, codes, map, All, IfErr, IfOk, length};
ghost use Rattle.std.specs.Io.KnownBytes.{Appends};
ghost use Rattle.abi_base.specs.Causes.{AppendsFront, Rose, SameCounts, Unfailing};
ghost use Rattle.abi_base.specs.Outcome.{OnLimit};
ghost use Rattle.abi_base.specs.declared.fault.Fault.{Fault as AnyFault};
ghost use Rattle.abi_base.specs.declared.fault.NoMemory.TheVariants.{Allocation, Past};
ghost use Rattle.abi_base.specs.declared.limit.Limit.{Limit as AnyLimit};
ghost use Rattle.abi_base.specs.declared.remark.Remark.{Remark as AnyRemark};
ghost use Rattle.abi_top.specs.Answer.{Answers, Asks, AsksForTold, HasRoom, IsModest, PassesLimit, ReadsFor, row_of};
ghost use Rattle.abi_top.specs.Calls.{Call, call_of};
ghost use Rattle.abi_top.specs.Rows.{command_of};
ghost use Rattle.abi_top.specs.Verdicts.{Agrees, Disagrees, LeavesStayOf, MeansDone, MeansNo, MeansRefused, MeansYes};
ghost use Rattle.cli_args.specs.Commands.{PlainRequest, check, plain_request, trial, usage_text};
ghost use Rattle.cli_args.specs.ParsedArguments.{arguments_by, request as requested, help, usage, version};
ghost use Rattle.cli_args.specs.Release.{version_text};
ghost use Rattle.cli_args.specs.Words.{texts};
ghost use Rattle.commands.specs.Commands.{asks_of, files_of, items_of, places_of, plain_file, plain_place};
ghost use Rattle.commands.specs.Faults.{FaultOfAll};
ghost use Rattle.commands.specs.OneReply.{AreShortAfter, TellsEach, TellsFirst};
ghost use Rattle.commands.specs.Outcomes.{IsNoMemory};
ghost use Rattle.commands.specs.Read.{IsOnRead};
ghost use Rattle.commands.specs.Reading.{AreOwnShort, AreTold, FailsToRead, reading_of};
ghost use Rattle.commands.specs.Replies.{IsFaulty, OnBytes, Replies};
ghost use Rattle.commands.specs.Served.{AreServed, AreUnfailed, IsVerdict};
ghost use Rattle.commands.specs.Texts.{read_fault_text, unreadable_text};
ghost use Rattle.commands.specs.declared.input.Input.{Input as AnyInput};
ghost use Rattle.commands.specs.declared.outcome.Outcome.{Outcome as AnyOutcome};
ghost use Rattle.report.specs.declared.styles.report_option.ReportStyle.{ReportStyle as AnyStyle};
ghost use Rattle.trial_libraries.specs.Limits.{most_functions};

use abi_base::{Inputs, NoMemory, Sink, write_all};
use cli_args::laws::a_trial_is_of_a_count;
use cli_args::{ParsedArguments, Request, parse_arguments, usage, version};
use commands::{Answer, File, Input, Outcome, Place, ReadInputs, Verdict, answer_with};
use library_check::laws::{a_file_may_replace_itself, compatible_is_that_accesses_agree};
use library_check::{App, Check, Compose, Migrate, Trial, Verify};
use library_layout::Layout;
use listings::{Entries, Exports};
use report::Listener;
use std::alloc::Global;

/// How a run ended, and the names of the inputs that it read.
#[derive(Drop)]
pub struct Ended<'a> {
    /// How the run ended.
    pub outcome: Outcome,
    /// The inputs that were read, with the names from the arguments, in order.
    pub files: Vec<File<'a>>,
    /// The inputs that were read whole, with their bytes.
    pub read: ReadInputs,
}

/// Runs the command that the arguments request, and returns how it ended. `words` are the arguments after the program's name. The
/// inputs that they name are read whole, in order; the first one with a fault decides; if there is none, the command gives its
/// verdict. All output is built before the first write.
///
/// The listeners of the requested style hear all breaks, in the order in which they are passed; the others are dropped without
/// hearing any.
///
/// In the clauses, `call` is this call: its arguments, the voices of its listeners, and what is known about its inputs.
/// `row_of call` is the row of the request in the table of commands.
pub fn run<'a, I: Inputs, S: Sink>(
    alloc: Global,
    words: &'a [&'a str],
    inputs: &mut I,
    sink: &mut S,
    listeners: Vec<Box<dyn Listener>>,
) -> Ended<'a>
    requires { All (λ listener. heard listener ≡ []) listeners.items }

    // Every outcome except `NoMemory` and `WriteFault` has its row in the table `Answers`, and the text of the row was appended
    // whole.
    ensures answered { let call : Call = call_of I.told I.faults I.given I.started
        (map voice listeners.items) words.entry.now inputs.old inputs.new in
        (IsNoMemory result.outcome → ⊥) → result.outcome ≢ Outcome.WriteFault
        → (text : List ℕ) × Answers call result.outcome text × Appends (S.held sink.old) (S.held sink.new) text }

    // Yes: all inputs are readable, and the new library may replace the old one in all that the rule file does not suppress. `MeansYes`
    // says it for `check`, `verify`, `compose` and `app`, with the text that was appended.
    ensures yes { let call : Call = call_of I.told I.faults I.given I.started
        (map voice listeners.items) words.entry.now inputs.old inputs.new in
        (untyped : Option AnyRemark) → result.outcome ≡ Outcome.Judged Verdict.Yes untyped
        → MeansYes call untyped (λ text. Appends (S.held sink.old) (S.held sink.new) text) }

    // No: all inputs are readable, and the new library may not replace the old one, or may not for the application. The texts of
    // the listeners of the requested style were printed, in order. Each listener heard all breaks, up to the first after which it
    // had heard enough; each break of types comes with the first path to it from an export. For `app` the breaks are those of
    // exports that the application uses, and of their types.
    ensures no { let call : Call = call_of I.told I.faults I.given I.started
        (map voice listeners.items) words.entry.now inputs.old inputs.new in
        (untyped : Option AnyRemark) → result.outcome ≡ Outcome.Judged Verdict.No untyped
        → MeansNo call untyped (λ text. Appends (S.held sink.old) (S.held sink.new) text) }

    // What yes means for a program that was compiled against the old library: the sonames are equal, each compared export binds to
    // one that keeps the rules of exports, and whatever the program may reach from the type of such an export, through results,
    // parameters, pointers, elements and members, it finds in the new library at the same bit of the same object, in agreement. On
    // no, this does not hold. Together with `complete`: `check` says yes exactly if the libraries agree on all such accesses, and
    // `app` exactly if they agree on all accesses from the exports that the application uses.
    ensures yes_agreed { let call : Call = call_of I.told I.faults I.given I.started
        (map voice listeners.items) words.entry.now inputs.old inputs.new in
        (untyped : Option AnyRemark) → result.outcome ≡ Outcome.Judged Verdict.Yes untyped → Agrees call }
    ensures no_agreed { let call : Call = call_of I.told I.faults I.given I.started
        (map voice listeners.items) words.entry.now inputs.old inputs.new in
        (untyped : Option AnyRemark) → result.outcome ≡ Outcome.Judged Verdict.No untyped → Disagrees call }

    // On yes, each scalar, pointer, enumeration or vector in an object on which such an access lands also stays at its offset, with
    // its kind, size, width and group, unless it lies under a type that the rule file suppresses or that is only declared.
    ensures yes_leaves { let call : Call = call_of I.told I.faults I.given I.started
        (map voice listeners.items) words.entry.now inputs.old inputs.new in
        (untyped : Option AnyRemark) → result.outcome ≡ Outcome.Judged Verdict.Yes untyped → LeavesStayOf call }

    // A library may replace itself, whatever a rule file suppresses: if the known bytes of both names are the same, the answer is
    // not no.
    ensures itself { (rules : Option (List ℕ)) (report : AnyStyle) (old_name new_name bytes : List ℕ) (untyped : Option AnyRemark)
        → arguments_by (texts words.entry.now) ≡ requested (check rules report old_name new_name)
        → I.told inputs.old old_name ≡ Some bytes → I.told inputs.old new_name ≡ Some bytes
        → result.outcome ≢ Outcome.Judged Verdict.No untyped }

    // Refused: all inputs are readable, and the text names the first condition that the certificate, or the migrated certificate,
    // does not meet; or the first of two certificates that is not accepted, with its condition; or what is lost between two
    // accepted ones; or it says that no structure of the library has the tag.
    ensures refused { let call : Call = call_of I.told I.faults I.given I.started
        (map voice listeners.items) words.entry.now inputs.old inputs.new in
        (untyped : Option AnyRemark) → result.outcome ≡ Outcome.Judged Verdict.Refused untyped
        → MeansRefused call (λ text. Appends (S.held sink.old) (S.held sink.new) text) }

    // Done: the library is readable, and a line was printed for each of its entries, or for each of its exports; or the lines of a
    // trial were printed; or the migrated certificate, which is accepted for two readable libraries, so that the new one may
    // replace the old one; or the layout of the structure with the tag, in which each bit has its row.
    ensures done { let call : Call = call_of I.told I.faults I.given I.started
        (map voice listeners.items) words.entry.now inputs.old inputs.new in
        (untyped : Option AnyRemark) → result.outcome ≡ Outcome.Judged Verdict.Done untyped
        → MeansDone call (λ text. Appends (S.held sink.old) (S.held sink.new) text) }

    // If the arguments make a request, the bytes of all its inputs are known and readable, and neither reading nor the sink failed,
    // then the outcome is a verdict that the command's row allows, with the text that was appended; or memory ran out.
    ensures complete { let call : Call = call_of I.told I.faults I.given I.started
        (map voice listeners.items) words.entry.now inputs.old inputs.new in
        (asked : PlainRequest) (all : List (List ℕ)) → arguments_by (texts words.entry.now) ≡ requested asked
        → AreServed call.reading (row_of call asked).inputs all
        → (Rose (S.faults sink.old) (S.faults sink.new) → ⊥) → (IsNoMemory result.outcome → ⊥)
        → IsVerdict (row_of call asked).says all result.outcome
        (λ text. Appends (S.held sink.old) (S.held sink.new) text) }

    // If the arguments make a request, the bytes of its first inputs are known and one of these has a fault, no later input gave too
    // many bytes, and neither reading nor the sink failed, then that first fault is the outcome; or memory ran out. If the bytes of all
    // inputs are known, none is later.
    ensures first_fault { let call : Call = call_of I.told I.faults I.given I.started
        (map voice listeners.items) words.entry.now inputs.old inputs.new in
        (asked : PlainRequest) (all : List (List ℕ)) (which : AnyInput) (fault : AnyFault)
        → arguments_by (texts words.entry.now) ≡ requested asked
        → TellsFirst call.reading.told (places_of (row_of call asked).inputs) all
        → AreShortAfter call.reading (length all) (places_of (row_of call asked).inputs)
        → AreUnfailed call.reading (row_of call asked).inputs
        → FaultOfAll (asks_of (row_of call asked).inputs) all which fault
        → (Rose (S.faults sink.old) (S.faults sink.new) → ⊥) → (IsNoMemory result.outcome → ⊥)
        → result.outcome ≡ Outcome.Unreadable which fault }

    // If no call of the inputs is made to fail, and the bytes of all inputs that the arguments name are known, no fault count of
    // the inputs rises.
    ensures steady_inputs { Unfailing I.is_made_to_fail inputs.old
        → AsksForTold (call_of I.told I.faults I.given I.started
        (map voice listeners.items) words.entry.now inputs.old inputs.new)
        → SameCounts (I.faults inputs.old) (I.faults inputs.new) }

    // If no call of the sink is made to fail, and it has room for any answer to the call, its fault count does not rise.
    ensures steady_sink { (room : ℕ) → Unfailing S.is_made_to_fail sink.old → S.room sink.old ≡ Some room
        → HasRoom (call_of I.told I.faults I.given I.started
        (map voice listeners.items) words.entry.now inputs.old inputs.new) room
        → S.faults sink.new ≡ S.faults sink.old }

    // Unreadable: this input has this fault, by its length or by its bytes, and no input before it has one; lengths are checked
    // before all bytes. The text names both. If an input is too long, it is the one that was started last.
    ensures unreadable { let call : Call = call_of I.told I.faults I.given I.started
        (map voice listeners.items) words.entry.now inputs.old inputs.new in
        (which : AnyInput) (fault : AnyFault) → result.outcome ≡ Outcome.Unreadable which fault
        → Asks call (λ asked. IsFaulty call.reading (row_of call asked).inputs which fault)
        × Appends (S.held sink.old) (S.held sink.new) (unreadable_text which fault) }

    // Read fault: in this call the fault count rose for the name that the arguments give for this input, the input was started
    // last, and no input before it is known to have too many bytes.
    ensures read_fault { let call : Call = call_of I.told I.faults I.given I.started
        (map voice listeners.items) words.entry.now inputs.old inputs.new in
        (which : AnyInput) → result.outcome ≡ Outcome.ReadFault which
        → Asks call (λ asked. FailsToRead call.reading (places_of (row_of call asked).inputs) which)
        × Appends (S.held sink.old) (S.held sink.new) (read_fault_text which) }

    // The outcome is the usage exactly if the arguments are wrong, unless memory runs out or writing fails.
    ensures usage { result.outcome ≡ Outcome.Usage
        → (arguments_by (texts words.entry.now) ≡ usage) × Appends (S.held sink.old) (S.held sink.new) usage_text }
    ensures wrong_words { arguments_by (texts words.entry.now) ≡ usage
        → (result.outcome ≡ Outcome.Usage) ⊎ (IsNoMemory result.outcome ⊎ (result.outcome ≡ Outcome.WriteFault)) }

    // The outcome is the help exactly if the arguments request it or the version, unless memory runs out or writing fails. For the
    // version the text is that of `abi`.
    ensures help { result.outcome ≡ Outcome.Help → arguments_by (texts words.entry.now) ≢ version
        → (arguments_by (texts words.entry.now) ≡ help) × Appends (S.held sink.old) (S.held sink.new) usage_text }
    ensures help_words { arguments_by (texts words.entry.now) ≡ help
        → (result.outcome ≡ Outcome.Help) ⊎ (IsNoMemory result.outcome ⊎ (result.outcome ≡ Outcome.WriteFault)) }
    ensures version { result.outcome ≡ Outcome.Help → arguments_by (texts words.entry.now) ≡ version
        → Appends (S.held sink.old) (S.held sink.new) (version_text (codes "abi")) }
    ensures version_words { arguments_by (texts words.entry.now) ≡ version
        → (result.outcome ≡ Outcome.Help) ⊎ (IsNoMemory result.outcome ⊎ (result.outcome ≡ Outcome.WriteFault)) }

    // Write fault: a write failed in this call, after a prefix of a text that belongs to another possible outcome.
    ensures write_fault { result.outcome ≡ Outcome.WriteFault → Rose (S.faults sink.old) (S.faults sink.new) }
    ensures front { let call : Call = call_of I.told I.faults I.given I.started
        (map voice listeners.items) words.entry.now inputs.old inputs.new in
        result.outcome ≡ Outcome.WriteFault
        → (outcome : AnyOutcome) × (text : List ℕ) × Answers call outcome text
        × AppendsFront (S.held sink.old) (S.held sink.new) text }

    // If memory runs out, the sink is unchanged.
    ensures no_memory { IsNoMemory result.outcome → sink.new ≡ sink.old }

    // A limit comes only if the inputs of the command gave bytes that pass it: what they count is above what the table of limits
    // allows. So if the bytes of all inputs are known and pass no limit, memory runs out only where an allocation fails.
    ensures past { let call : Call = call_of I.told I.faults I.given I.started
        (map voice listeners.items) words.entry.now inputs.old inputs.new in
        (limit : AnyLimit) → result.outcome ≡ Outcome.NoMemory (Past limit) → PassesLimit call limit }
    ensures modest { let call : Call = call_of I.told I.faults I.given I.started
        (map voice listeners.items) words.entry.now inputs.old inputs.new in
        (asked : PlainRequest) (all : List (List ℕ)) → arguments_by (texts words.entry.now) ≡ requested asked
        → TellsEach call.reading.told (places_of (row_of call asked).inputs) all → IsModest (row_of call asked).passes all
        → (limit : AnyLimit) → result.outcome ≢ Outcome.NoMemory (Past limit) }

    // A verdict is on the bytes that were read: they are those that the inputs of the command gave, by their roles, and it is what the
    // command says about them.
    ensures read { let call : Call = call_of I.told I.faults I.given I.started
        (map voice listeners.items) words.entry.now inputs.old inputs.new in
        ReadsFor call result.read.roles.items (map items_of result.read.all.items) result.outcome
        (λ text. Appends (S.held sink.old) (S.held sink.new) text) }

    // The names of the inputs are those in the arguments, in the order of the command's row.
    ensures files { (asked : PlainRequest) → arguments_by (texts words.entry.now) ≡ requested asked
        → (IsNoMemory result.outcome → ⊥)
        → map plain_file result.files.items
        ≡ files_of (places_of (command_of (map voice listeners.items) asked).inputs) }
{
    a_file_may_replace_itself();
    compatible_is_that_accesses_agree();
    match answer_to(alloc, words, inputs, listeners) {
        Err(cause) => Ended {
            outcome: Outcome::NoMemory(cause),
            files: Vec::new(alloc),
            read: ReadInputs::none(alloc),
        },
        Ok(answer) => match write_all(sink, &answer.text) {
            Ok(()) => Ended {
                outcome: answer.outcome,
                files: answer.files,
                read: answer.read,
            },
            Err(_) => Ended {
                outcome: Outcome::WriteFault,
                files: answer.files,
                read: answer.read,
            },
        },
    }
}

// The answer to the arguments, built in memory.
fn answer_to<'a, I: Inputs>(
    alloc: Global,
    words: &'a [&'a str],
    inputs: &mut I,
    listeners: Vec<Box<dyn Listener>>,
) -> Result<Answer<'a>, NoMemory>
    requires { All (λ listener. heard listener ≡ []) listeners.items }
    ensures answers { let call : Call = call_of I.told I.faults I.given I.started
        (map voice listeners.items) words.entry.now inputs.old inputs.new in
        IfOk result (λ a. Answers call a.outcome a.text.items) }
    ensures steady { Unfailing I.is_made_to_fail inputs.old
        → AsksForTold (call_of I.told I.faults I.given I.started
        (map voice listeners.items) words.entry.now inputs.old inputs.new)
        → SameCounts (I.faults inputs.old) (I.faults inputs.new) }
    ensures files { IfOk result (λ a. (asked : PlainRequest) → arguments_by (texts words.entry.now) ≡ requested asked
        → map plain_file a.files.items ≡ files_of (places_of (command_of (map voice listeners.items) asked).inputs)) }
    ensures read { let call : Call = call_of I.told I.faults I.given I.started
        (map voice listeners.items) words.entry.now inputs.old inputs.new in
        IfOk result (λ a. ReadsFor call a.read.roles.items (map items_of a.read.all.items) a.outcome
        (λ text. text ≡ a.text.items)) }
    ensures past { let call : Call = call_of I.told I.faults I.given I.started
        (map voice listeners.items) words.entry.now inputs.old inputs.new in
        IfErr result (λ cause. OnLimit cause (PassesLimit call)) }
{
    a_trial_is_of_a_count();
    match parse_arguments(alloc, words)? {
        ParsedArguments::Request(request) => answer_of(alloc, request, inputs, listeners),
        ParsedArguments::Help => Ok(Answer {
            outcome: Outcome::Help,
            text: usage(alloc)?,
            files: Vec::new(alloc),
            read: ReadInputs::none(alloc),
        }),
        ParsedArguments::Version => Ok(Answer {
            outcome: Outcome::Help,
            text: version(alloc, "abi")?,
            files: Vec::new(alloc),
            read: ReadInputs::none(alloc),
        }),
        ParsedArguments::Usage => Ok(Answer {
            outcome: Outcome::Usage,
            text: usage(alloc)?,
            files: Vec::new(alloc),
            read: ReadInputs::none(alloc),
        }),
    }
}

// The inputs of a request and the sources of their bytes. It fails only if memory runs out.
fn places_in<'a>(alloc: Global, request: Request<'a>) -> Result<Vec<Place<'a>>, NoMemory>
    requires counted { (count : ℕ) → plain_request request ≡ trial count → (1 ≤ count) × (count ≤ most_functions) }
    ensures places { let row = command_of [] (plain_request request.entry) in
        IfOk result (λ places. map plain_place places.items ≡ places_of row.inputs) }
    ensures short { let row = command_of [] (plain_request request.entry) in AreOwnShort (places_of row.inputs) }
    ensures named { IfErr result (λ e. e ≡ Allocation) }
{
    match request {
        Request::Check(words) => Check { words }.places(alloc),
        Request::Verify(words) => Verify { words }.places(alloc),
        Request::Entries(library) => Entries { library }.places(alloc),
        Request::Exports(library) => Exports { library }.places(alloc),
        Request::Trial(count) => Trial { count }.places(alloc),
        Request::Migrate(words) => Migrate { words }.places(alloc),
        Request::Compose(words) => Compose { words }.places(alloc),
        Request::Layout(words) => Layout { words }.places(alloc),
        Request::App(words) => App { words }.places(alloc),
    }
}

// The answer to a request, which is that of its command.
fn answer_of<'a, I: Inputs>(
    alloc: Global,
    request: Request<'a>,
    inputs: &mut I,
    listeners: Vec<Box<dyn Listener>>,
) -> Result<Answer<'a>, NoMemory>
    requires counted { (count : ℕ) → plain_request request ≡ trial count → (1 ≤ count) × (count ≤ most_functions) }
    requires unheard { All (λ listener. heard listener ≡ []) listeners.items }
    ensures replies { let row = command_of (map voice listeners.items) (plain_request request.entry) in
        let reading = reading_of I.told I.faults I.given I.started inputs.old inputs.new in
        IfOk result (λ a. Replies reading row.inputs row.says a.outcome a.text.items) }
    ensures steady { let row = command_of (map voice listeners.items) (plain_request request.entry) in
        Unfailing I.is_made_to_fail inputs.old → AreTold (I.told inputs.old) (places_of row.inputs)
        → SameCounts (I.faults inputs.old) (I.faults inputs.new) }
    ensures files { let row = command_of (map voice listeners.items) (plain_request request.entry) in
        IfOk result (λ a. map plain_file a.files.items ≡ files_of (places_of row.inputs)) }
    ensures read { let row = command_of (map voice listeners.items) (plain_request request.entry) in
        let reading = reading_of I.told I.faults I.given I.started inputs.old inputs.new in
        IfOk result (λ a. IsOnRead reading row.inputs row.says a.read.roles.items (map items_of a.read.all.items)
        a.outcome a.text.items) }
    ensures past { let row = command_of (map voice listeners.items) (plain_request request.entry) in
        let reading = reading_of I.told I.faults I.given I.started inputs.old inputs.new in
        IfErr result (λ cause. OnLimit cause (λ limit. OnBytes reading row.inputs (λ all. row.passes all limit))) }
{
    let places = places_in(alloc, request)?;
    match request {
        Request::Check(words) => answer_with(alloc, &places, Check { words }, inputs, listeners),
        Request::Verify(words) => answer_with(alloc, &places, Verify { words }, inputs, listeners),
        Request::Entries(library) => {
            answer_with(alloc, &places, Entries { library }, inputs, listeners)
        }
        Request::Exports(library) => {
            answer_with(alloc, &places, Exports { library }, inputs, listeners)
        }
        Request::Trial(count) => answer_with(alloc, &places, Trial { count }, inputs, listeners),
        Request::Migrate(words) => {
            answer_with(alloc, &places, Migrate { words }, inputs, listeners)
        }
        Request::Compose(words) => {
            answer_with(alloc, &places, Compose { words }, inputs, listeners)
        }
        Request::Layout(words) => answer_with(alloc, &places, Layout { words }, inputs, listeners),
        Request::App(words) => answer_with(alloc, &places, App { words }, inputs, listeners),
    }
}
