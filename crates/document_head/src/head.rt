// The head of the document of a run: all members except the breaks.
ghost use Rattle.std.specs.Prelude.{◌≡◌, ◌++◌, [], ◌∷◌, codes, map, option_map, IfOk, OnOk, string_bytes};
ghost use Rattle.commands.specs.Commands.{items_of, plain_file};
ghost use Rattle.commands.specs.Outcomes.{exit_number};
ghost use Rattle.document_head.specs.Heads.{answer_word, command_word, fault_value, first_word, untyped_value, with_all, with_outcome, with_remarks, HasMember, HasText, IsTextMember};
ghost use Rattle.document_head.specs.Inputs.{AddsInputs, AreInputs, HasFacts, HasInputs, IsInput, facts_value, shown_of};
ghost use Rattle.document_head.specs.Notes.{AddsNotes, AreSentences, HasSentences, IsSentences, noted, texts_array};
ghost use Rattle.serde_json.specs.Data.{Data, number, object, put, string, unsigned};
ghost use Rattle.serde_json.specs.View.{members_view, view};

use crate::ending::{Ending, input_bytes};
use crate::libraries::{InputFacts, input_facts, text_value};
use crate::outcomes::{answer_word, fault_of, is_report, untyped_of};
use crate::places::TypeFacts;
use abi_base::NoMemory;
use cli_args::line_given;
use commands::{File, Input, Outcome};
use explain::{notes_on, other_input_sentence};
use serde_json::{Map, Value, put};
use std::alloc::{AllocError, Global};

// The version of the format. It changes if a member is removed or gets another meaning.
const FORMAT: u64 = 1;

// The bytes of the input that has a fault, or none.
fn faulty_bytes<'e>(ending: &Ending<'e>) -> &'e [u8] {
    match ending.outcome {
        Outcome::Unreadable(which, _) => input_bytes(ending, which),
        _ => &[],
    }
}

// Appends a sentence, if there is one.
fn push_other(sentences: &mut Vec<String>, other: Option<String>) -> Result<(), AllocError>
    ensures { OnOk result (map string_bytes sentences.new.items
        ≡ map string_bytes sentences.old.items ++ noted (option_map string_bytes other)) }
{
    match other {
        Some(sentence) => Ok(sentences.push(sentence)?),
        None => Ok(()),
    }
}

// The sentences beside the answer.
fn sentences_of(alloc: Global, ending: &Ending<'_>) -> Result<Vec<String>, NoMemory>
    ensures { IfOk result (λ sentences. AreSentences ending.now.outcome (map plain_file ending.now.files.now)
        ending.now.text.now (map string_bytes sentences.items)) }
{
    let Ending {
        outcome,
        files,
        text,
        ..
    } = *ending;
    let bytes = faulty_bytes(ending);
    let mut sentences = notes_on(alloc, outcome, files, bytes, "reading failed")?;
    let other = other_input_sentence(alloc, files, text)?;
    push_other(&mut sentences, other)?;
    Ok(sentences)
}

// Texts, as an array.
fn texts_value(alloc: Global, texts: &[String]) -> Result<Value, AllocError>
    ensures { IfOk result (λ value. view value ≡ texts_array (map string_bytes texts.now)) }
{
    let mut list = Vec::new(alloc);
    for text in texts {
        list.push(Value::try_from_str(alloc, text.as_str())?)?;
    }
    Ok(Value::Array(list))
}

// The sentences beside the answer, as an array.
fn sentences_value(alloc: Global, ending: &Ending<'_>) -> Result<Value, NoMemory>
    ensures { IfOk result (λ value. IsSentences ending.now.outcome (map plain_file ending.now.files.now)
        ending.now.text.now (view value)) }
{
    let sentences = sentences_of(alloc, ending)?;
    Ok(texts_value(alloc, &sentences)?)
}

// The breaks, parsed from the text that the listener made. It fails only if memory runs out.
fn breaks_in(alloc: Global, text: &[u8]) -> Result<Vec<Value>, NoMemory> {
    let parsed = match Value::from_slice(alloc, text) {
        Ok(parsed) => parsed,
        Err(error) => {
            if error.is_memory() {
                return Err(NoMemory::Allocation);
            }
            Value::Null
        }
    };
    match parsed {
        Value::Array(breaks) => Ok(breaks),
        _other => Ok(Vec::new(alloc)),
    }
}

// The facts about the types in breaks: their positions and their names, by library.
#[derive(Drop)]
struct TypeMembers {
    places: Map<String, Value>,
    names: Map<String, Value>,
}

// The members of a document about the inputs: their objects in order, and the facts about types.
#[derive(Drop)]
struct InputMembers {
    inputs: Vec<Value>,
    types: TypeMembers,
}

// Adds the facts of a library about the types that breaks name. A rule file and a certificate have none.
fn put_library(
    alloc: Global,
    members: &mut TypeMembers,
    which: Input,
    types: TypeFacts,
) -> Result<(), AllocError> {
    if which != Input::Old && which != Input::New {
        return Ok(());
    }
    let TypeFacts { places, names } = types;
    let word = which.word();
    put(&mut members.places, alloc, word, Value::Object(places))?;
    put(&mut members.names, alloc, word, Value::Object(names))
}

// Adds the members about an input.
fn push_input(
    alloc: Global,
    members: &mut InputMembers,
    ending: &Ending<'_>,
    file: File<'_>,
    breaks: &[Value],
) -> Result<(), NoMemory>
    ensures { let read = ending.now.read.now in
        let shown = shown_of ending.now.wanted.digests read.roles.items (map items_of read.all.items) in
        IfOk result (λ _. (value : Data) × IsInput shown (plain_file file.entry) value
        × (map view members.new.inputs.items ≡ map view members.old.inputs.items ++ value ∷ [])) }
{
    let with_digests = ending.wanted.digests;
    let InputFacts { input, types } = input_facts(alloc, file, ending.read, breaks, with_digests)?;
    members.inputs.push(input)?;
    put_library(alloc, &mut members.types, file.which, types)?;
    Ok(())
}

// The members about all inputs, by the text of the breaks.
fn input_members(
    alloc: Global,
    ending: &Ending<'_>,
    breaks: &[u8],
) -> Result<InputMembers, NoMemory>
    ensures { let read = ending.now.read.now in
        let shown = shown_of ending.now.wanted.digests read.roles.items (map items_of read.all.items) in
        IfOk result (λ members. AreInputs shown (map plain_file ending.now.files.now)
        (map view members.inputs.items)) }
{
    let breaks = breaks_in(alloc, breaks)?;
    let mut members = InputMembers {
        inputs: Vec::new(alloc),
        types: TypeMembers {
            places: Map::new(alloc),
            names: Map::new(alloc),
        },
    };
    for file in ending.files {
        push_input(alloc, &mut members, ending, *file, &breaks)?;
    }
    Ok(members)
}

// A map, if the answer is a report; else null.
fn of_report(outcome: Outcome, map: Map<String, Value>) -> Value
    ensures { view result ≡ facts_value outcome (members_view map.entries) }
{
    if is_report(outcome) {
        Value::Object(map)
    } else {
        Value::Null
    }
}

// The text that `abi` prints, or null if the breaks replace it.
fn text_of(alloc: Global, outcome: Outcome, text: &[u8]) -> Result<Value, AllocError>
    ensures { IfOk result (λ value. IsTextMember outcome text.now (view value)) }
{
    if is_report(outcome) {
        Ok(Value::Null)
    } else {
        text_value(alloc, text)
    }
}

// The first argument, and the empty text if there is none.
fn first_of<'e>(words: &[&'e str]) -> &'e str
    ensures { result.now ≡ first_word (map (λ word. word.now) words.now) }
{
    match words.first() {
        Some(word) => *word,
        None => "",
    }
}

// The word that stands where a command does, or the first argument if the arguments are no line.
fn command_of<'e>(alloc: Global, words: &'e [&'e str]) -> Result<&'e str, NoMemory>
    ensures { IfOk result (λ word. word.now ≡ command_word (map (λ word. word.now) words.entry.now)) }
{
    let first = first_of(words);
    let Some(line) = line_given(alloc, words)? else {
        return Ok(first);
    };
    Ok(line.command.unwrap_or(first))
}

// Adds the format of the document, the command and how it ended.
fn put_outcome(
    alloc: Global,
    head: &mut Map<String, Value>,
    ending: &Ending<'_>,
) -> Result<(), NoMemory>
    ensures { let command = command_word (map (λ word. word.now) ending.now.words.now) in
        OnOk result (members_view head.new.entries
        ≡ with_outcome command ending.now.outcome (members_view head.old.entries)) }
{
    let command = command_of(alloc, ending.words)?;
    let answer = answer_word(ending.outcome);
    let status = u64::from(ending.outcome.number());
    put(head, alloc, "format", Value::from(FORMAT))?;
    put(head, alloc, "command", Value::try_from_str(alloc, command)?)?;
    put(head, alloc, "answer", Value::try_from_str(alloc, answer)?)?;
    put(head, alloc, "status", Value::from(status))?;
    Ok(())
}

// Adds the fault of an input, and the number of exports without a type.
fn put_remarks(
    alloc: Global,
    head: &mut Map<String, Value>,
    outcome: Outcome,
) -> Result<(), AllocError>
    ensures { OnOk result (members_view head.new.entries ≡ with_remarks outcome (members_view head.old.entries)) }
{
    put(head, alloc, "fault", fault_of(alloc, outcome)?)?;
    put(head, alloc, "untyped", untyped_of(alloc, outcome)?)
}

// Adds the sentences beside the answer, and the notes on differences that no rule judges.
fn put_notes(
    alloc: Global,
    head: &mut Map<String, Value>,
    ending: &Ending<'_>,
    side_notes: Value,
) -> Result<(), NoMemory>
    ensures { let files = map plain_file ending.now.files.now in
        OnOk result (AddsNotes ending.now.outcome files ending.now.text.now (view side_notes)
        (members_view head.old.entries) (members_view head.new.entries)) }
{
    put(head, alloc, "notes", sentences_value(alloc, ending)?)?;
    put(head, alloc, "side_notes", side_notes)?;
    Ok(())
}

// Adds the sentence that says why there are no notes on differences, or null.
fn put_missing(
    alloc: Global,
    head: &mut Map<String, Value>,
    missing: Value,
) -> Result<(), AllocError>
    ensures { OnOk result (members_view head.new.entries
        ≡ put (codes "missing_side_notes") (view missing) (members_view head.old.entries)) }
{
    put(head, alloc, "missing_side_notes", missing)
}

// Adds the facts about the types in breaks.
fn put_types(
    alloc: Global,
    head: &mut Map<String, Value>,
    outcome: Outcome,
    types: TypeMembers,
) -> Result<(), AllocError>
    ensures { OnOk result (members_view head.new.entries
        ≡ put (codes "types") (facts_value outcome (members_view types.names.entries))
        (put (codes "places") (facts_value outcome (members_view types.places.entries))
        (members_view head.old.entries))) }
{
    let TypeMembers { places, names } = types;
    put(head, alloc, "places", of_report(outcome, places))?;
    put(head, alloc, "types", of_report(outcome, names))
}

// Adds the objects of the inputs, and the facts about the types in breaks.
fn put_inputs(
    alloc: Global,
    head: &mut Map<String, Value>,
    ending: &Ending<'_>,
    breaks: &[u8],
) -> Result<(), NoMemory>
    ensures { let files = map plain_file ending.now.files.now in let read = ending.now.read.now in
        let shown = shown_of ending.now.wanted.digests read.roles.items (map items_of read.all.items) in
        OnOk result (AddsInputs ending.now.outcome shown files
        (members_view head.old.entries) (members_view head.new.entries)) }
{
    let InputMembers { inputs, types } = input_members(alloc, ending, breaks)?;
    put_types(alloc, head, ending.outcome, types)?;
    put(head, alloc, "inputs", Value::Array(inputs))?;
    Ok(())
}

// The members about the outcome and the text, added to others.
fn with_ending(
    alloc: Global,
    others: Map<String, Value>,
    ending: &Ending<'_>,
    text: Value,
) -> Result<Value, NoMemory>
    ensures { let command = command_word (map (λ word. word.now) ending.now.words.now) in
        IfOk result (λ head. view head
        ≡ object (with_all command ending.now.outcome (view text) (members_view others.entries))) }
{
    let mut head = others;
    put_outcome(alloc, &mut head, ending)?;
    put_remarks(alloc, &mut head, ending.outcome)?;
    put(&mut head, alloc, "text", text)?;
    Ok(Value::Object(head))
}

/// All members except the breaks, given the array of the breaks as a text, and the notes on differences that no rule judges, with the
/// reason why there are none: the format of the document, the command's word, the answer in a word, the exit number, the fault of an
/// input, the numbers of exports without a type, the text that `abi` prints, the sentences beside the answer, and an object for each
/// input. Digests and sonames are those of the bytes that the run read. No clause says what the facts about types are.
pub fn head_of(
    alloc: Global,
    ending: &Ending<'_>,
    breaks: &[u8],
    side_notes: Value,
    missing: Value,
) -> Result<Value, NoMemory>
    ensures format { IfOk result (λ head. HasMember (codes "format") (number (unsigned 1)) (view head)) }
    ensures command { let command = command_word (map (λ word. word.now) ending.now.words.now) in
        IfOk result (λ head. HasMember (codes "command") (string command) (view head)) }
    ensures answer { let answer = answer_word ending.now.outcome in
        IfOk result (λ head. HasMember (codes "answer") (string answer) (view head)) }
    ensures status { let status = exit_number ending.now.outcome in
        IfOk result (λ head. HasMember (codes "status") (number (unsigned status)) (view head)) }
    ensures fault { let fault = fault_value ending.now.outcome in
        IfOk result (λ head. HasMember (codes "fault") fault (view head)) }
    ensures untyped { let untyped = untyped_value ending.now.outcome in
        IfOk result (λ head. HasMember (codes "untyped") untyped (view head)) }
    ensures text { IfOk result (λ head. HasText ending.now.outcome ending.now.text.now (view head)) }
    ensures notes { let files = map plain_file ending.now.files.now in
        IfOk result (λ head. HasSentences ending.now.outcome files ending.now.text.now (view head)) }
    ensures side_notes { IfOk result (λ head. HasMember (codes "side_notes") (view side_notes) (view head)) }
    ensures missing { IfOk result (λ head. HasMember (codes "missing_side_notes") (view missing) (view head)) }
    ensures inputs { let files = map plain_file ending.now.files.now in let read = ending.now.read.now in
        let shown = shown_of ending.now.wanted.digests read.roles.items (map items_of read.all.items) in
        IfOk result (λ head. HasInputs shown files (view head)) }
    ensures places { IfOk result (λ head. HasFacts (codes "places") ending.now.outcome (view head)) }
    ensures types { IfOk result (λ head. HasFacts (codes "types") ending.now.outcome (view head)) }
{
    let mut others = Map::new(alloc);
    put_missing(alloc, &mut others, missing)?;
    put_notes(alloc, &mut others, ending, side_notes)?;
    put_inputs(alloc, &mut others, ending, breaks)?;
    let text = text_of(alloc, ending.outcome, ending.text)?;
    Ok(with_ending(alloc, others, ending, text)?)
}
