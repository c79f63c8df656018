// Arguments that form no request.
ghost use Rattle.std.specs.Prelude.{◌≡◌, IfOk, IsTrue, codes, map, option_map, slice_get, slice_index_or, string_bytes};
ghost use Rattle.cli_args.specs.WrongWords.{plain_wrong};
ghost use Rattle.explain.specs.Lines.{is_one_line};
ghost use Rattle.explain.specs.NearCommands.{command_names, IsOffered, IsOfUnknown, arguments_of, count_words, is_named};
ghost use Rattle.explain.specs.Sentences.{SaysUnknown, SaysWrong, encoding_words, needless_words, said_of};

use crate::lines::{is_one, said};
use abi_base::NoMemory;
use cli_args::commands::IN_SENTENCES;
use cli_args::{OptionName, WrongWords};
use std::alloc::{AllocError, Global};
use strsim::generic_levenshtein;

// A word that is this many edits away from a command is not similar to it.
const FAR: usize = 3;

// A longer word is not similar to any command.
const LONGEST: usize = 16;

// The words for the arguments of an unknown command.
const OTHER_WORDS: &str = "other words";

// The words for an unknown command that no command is near, an unknown style, a number that no trial may have, and an unknown option.
const COMMAND_LIST: &str =
    "it is no command; the commands are check, app, verify, compose, migrate, exports, entries, layout and trial";

const UNKNOWN_STYLE: &str =
    "it is no style of reports; the styles are text, table, counts, first and own";

const WRONG_NUMBER: &str = "it is no number from 1 to 50000 in decimal";

const UNKNOWN_OPTION: &str = "it is no option; the options are --rules FILE and --report STYLE";

// The name of the command at a position of the table.
fn command_name(index: usize) -> Option<&'static str>
    ensures { option_map (λ name. name.now) result ≡ slice_get command_names index }
{
    match IN_SENTENCES.get(index) {
        Some(row) => Some(row.word),
        None => None,
    }
}

// The command that is most similar to a word, if one is similar.
fn near_command(alloc: Global, word: &str) -> Result<Option<&'static str>, AllocError>
    ensures { IfOk result (λ found. IsOffered word.now (option_map (λ name. name.now) found)) }
{
    let mut found = None;
    let mut least = FAR;
    if word.len() > LONGEST {
        return Ok(None);
    }
    for index in 0..IN_SENTENCES.len() {
        if let Some(name) = command_name(index) {
            let edits = generic_levenshtein(alloc, word.as_bytes(), name.as_bytes())?;
            if edits < least {
                found = Some(name);
                least = edits;
            }
        }
    }
    Ok(found)
}

// The arguments of the command at a position of the table, as the usage names them.
#[tactic(auto, unfolding(cli_args::specs::Commands::command_named))]
fn command_words(index: usize) -> &'static str
    ensures { result.now ≡ slice_index_or (map arguments_of command_names) index (codes "other words") }
{
    match IN_SENTENCES.get(index) {
        Some(row) => row.arguments,
        None => OTHER_WORDS,
    }
}

// Whether the command at a position of the table has this name.
fn is_command(index: usize, word: &str) -> bool
    ensures { result ≡ is_named (slice_get command_names index) word.now }
{
    match command_name(index) {
        Some(name) => name == word,
        None => false,
    }
}

// The arguments that a command takes.
fn words_behind(command: &str) -> &'static str
    ensures { result.now ≡ arguments_of command.now }
{
    for index in 0..IN_SENTENCES.len() {
        if is_command(index, command) {
            return command_words(index);
        }
    }
    OTHER_WORDS
}

// The words for an option that a command does not take.
fn needless_option(option: OptionName) -> &'static str
    ensures { result.now ≡ needless_words option }
{
    match option {
        OptionName::Rules => "it takes no --rules FILE",
        OptionName::Report => "it takes no --report STYLE",
    }
}

// The words for an unknown command.
fn unknown_command(alloc: Global, word: &str) -> Result<String, AllocError>
    ensures { IfOk result (λ words. IsOfUnknown word.now (string_bytes words)) }
{
    match near_command(alloc, word)? {
        Some(near) => format!(in alloc; "it is no command; did you mean {near}?"),
        None => String::from_str(alloc, COMMAND_LIST),
    }
}

// The words for a command with a wrong number of arguments.
fn wrong_count(alloc: Global, command: &str, given: usize) -> Result<String, AllocError>
    ensures { IfOk result (λ words. string_bytes words ≡ count_words command.now given) }
{
    let wanted = words_behind(command);
    if is_one(given) {
        format!(in alloc; "it takes {wanted}, and 1 word is given")
    } else {
        format!(in alloc; "it takes {wanted}, and {given} words are given")
    }
}

// A sentence with these words about an argument.
fn said_of_word(alloc: Global, word: &str, words: &str) -> Result<String, NoMemory>
    ensures says { IfOk result (λ text. string_bytes text ≡ said_of word.now words.now) }
    ensures line { IfOk result (λ text. IsTrue (is_one_line (string_bytes text))) }
{
    Ok(said(alloc, word, words)?)
}

// The sentence on an unknown command.
fn command_sentence(alloc: Global, word: &str) -> Result<String, NoMemory>
    ensures says { IfOk result (λ text. SaysUnknown word.now (string_bytes text)) }
    ensures line { IfOk result (λ text. IsTrue (is_one_line (string_bytes text))) }
{
    let words = unknown_command(alloc, word)?;
    said_of_word(alloc, word, words.as_str())
}

// The sentence on a command with a wrong number of arguments.
fn count_sentence(alloc: Global, command: &str, given: usize) -> Result<String, NoMemory>
    ensures says { IfOk result (λ text. string_bytes text ≡ said_of command.now (count_words command.now given)) }
    ensures line { IfOk result (λ text. IsTrue (is_one_line (string_bytes text))) }
{
    let words = wrong_count(alloc, command, given)?;
    said_of_word(alloc, command, words.as_str())
}

/// The sentence on arguments that form no request: what is wrong with the argument at fault, if there is one. It is one line,
/// whatever characters the argument has.
pub fn wrong_sentence(alloc: Global, wrong: WrongWords<'_>) -> Result<String, NoMemory>
    ensures says { IfOk result (λ text. SaysWrong (plain_wrong wrong.entry) (string_bytes text)) }
    ensures line { IfOk result (λ text. IsTrue (is_one_line (string_bytes text))) }
{
    match wrong {
        WrongWords::MissingCommand => Ok(String::from_str(alloc, "no command is given")?),
        WrongWords::UnknownCommand(word) => command_sentence(alloc, word),
        WrongWords::NeedlessOption(command, option) => {
            said_of_word(alloc, command, needless_option(option))
        }
        WrongWords::WrongCount { command, given, .. } => count_sentence(alloc, command, given),
        WrongWords::UnknownStyle(word) => said_of_word(alloc, word, UNKNOWN_STYLE),
        WrongWords::WrongNumber(word) => said_of_word(alloc, word, WRONG_NUMBER),
        WrongWords::UnknownOption(word) => said_of_word(alloc, word, UNKNOWN_OPTION),
        WrongWords::MissingValue(option) => said_of_word(alloc, option, "the option has no value"),
        WrongWords::RepeatedOption(option) => {
            said_of_word(alloc, option, "the option is given twice")
        }
        WrongWords::NeedlessValue(option) => {
            said_of_word(alloc, option, "the option takes no value")
        }
        WrongWords::OtherWords => Ok(String::from_str(alloc, "the words fit no command")?),
    }
}

/// The sentence on arguments of which one is not UTF-8. Rattle names files by texts, so it opens no file by such a name.
pub fn encoding_sentence(alloc: Global) -> Result<String, NoMemory>
    ensures { IfOk result (λ text. string_bytes text ≡ encoding_words) }
{
    Ok(String::from_str(
        alloc,
        "an argument is not UTF-8; only files whose names are UTF-8 can be given",
    )?)
}
