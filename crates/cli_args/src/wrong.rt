// What is wrong with arguments that form no request.
ghost use Rattle.std.specs.Prelude.{◌≡◌, ◌+◌, ◌<◌, ◌↔◌, IfOk, IsSome, count_by, drop, find, length, option_map};
ghost use Rattle.cli_args.specs.Commands.{IsRow, plain_word, row_of};
ghost use Rattle.cli_args.specs.ParsedArguments.{arguments_by, usage};
ghost use Rattle.cli_args.specs.PlainLines.{plain_line};
ghost use Rattle.cli_args.specs.Words.{texts};
ghost use Rattle.cli_args.specs.WrongWords.{NamesOne, plain_wrong, refused_by, without_value, wrong_in, wrong_on, wrong_trial};
ghost use Rattle.cli_args.specs.WrongWords as spec;

use crate::commands::{CommandRow, Makings, command_named, count_of};
use crate::judge::{needless_option, report_style_named, trial_count, word_at};
use crate::line::{Line, found_in, line_of};
use crate::release::asks_for_version;
use abi_base::NoMemory;
use clap::error::ErrorKind;
use std::alloc::Global;

/// The options of the commands.
#[derive(Clone, Copy)]
pub enum OptionName {
    /// `--rules FILE`
    Rules,
    /// `--report STYLE`
    Report,
}

/// What is wrong with arguments that form no request, with the argument at fault.
#[derive(Clone, Copy)]
pub enum WrongWords<'a> {
    /// No command is given.
    MissingCommand,
    /// The command is unknown.
    UnknownCommand(&'a str),
    /// The command does not take this option.
    NeedlessOption(&'a str, OptionName),
    /// The command takes a different number of arguments.
    WrongCount {
        command: &'a str,
        wanted: usize,
        given: usize,
    },
    /// The style of the report is unknown.
    UnknownStyle(&'a str),
    /// The number of a trial is not valid.
    WrongNumber(&'a str),
    /// The option is unknown.
    UnknownOption(&'a str),
    /// The option lacks its value.
    MissingValue(&'a str),
    /// The option is given twice.
    RepeatedOption(&'a str),
    /// The option takes no value.
    NeedlessValue(&'a str),
    /// The arguments are wrong in any other way.
    OtherWords,
}

/// What is wrong with the arguments after the program's name, and which argument it is. It is `None` exactly if they form a request,
/// the help or the version. It fails only if memory runs out.
pub fn wrong_words<'a>(
    alloc: Global,
    words: &'a [&'a str],
) -> Result<Option<WrongWords<'a>>, NoMemory>
    ensures wrong { IfOk result (λ found. option_map plain_wrong found ≡ wrong_in (texts words.entry.now)) }
    ensures exact { IfOk result (λ found. IsSome found ↔ (arguments_by (texts words.entry.now) ≡ usage)) }
    ensures named { IfOk result (λ found. NamesOne (texts words.entry.now) (option_map plain_wrong found)) }
{
    let found = wrong_among(alloc, words)?;
    Ok(found)
}

// What is wrong with the arguments.
fn wrong_among<'a>(alloc: Global, words: &'a [&'a str]) -> Result<Option<WrongWords<'a>>, NoMemory>
    ensures { IfOk result (λ found. option_map plain_wrong found ≡ wrong_in (texts words.entry.now)) }
{
    if asks_for_version(words) {
        return Ok(None);
    }
    match found_in(alloc, words) {
        Ok(matches) => Ok(wrong_line(line_of(&matches))),
        Err(kind) => match kind {
            ErrorKind::OutOfMemory => Err(NoMemory::Allocation),
            ErrorKind::DisplayHelp => Ok(None),
            _ => Ok(Some(refused_words(kind, words))),
        },
    }
}

// ---- lines that `clap` accepts

// What is wrong with a line that `clap` accepts.
fn wrong_line<'a>(line: Line<'_, 'a>) -> Option<WrongWords<'a>>
    ensures { option_map plain_wrong result ≡ wrong_on (plain_line line.entry) }
{
    let Some(command) = line.command else {
        return Some(WrongWords::MissingCommand);
    };
    let Some(row) = command_named(command) else {
        return Some(WrongWords::UnknownCommand(command));
    };
    if let Some(option) = needless_option(row, line.rules.is_some(), line.report.is_some()) {
        return Some(WrongWords::NeedlessOption(command, option));
    }
    wrong_count(row, command, line.files.unwrap_or(&[]), line.report)
}

// What is wrong with the number of a command's arguments, or with one of them.
fn wrong_count<'a>(
    row: CommandRow,
    command: &'a str,
    words: &[&'a str],
    report: Option<&'a str>,
) -> Option<WrongWords<'a>>
    requires { IsRow row }
    ensures { option_map plain_wrong result
        ≡ spec.wrong_count_of (row_of row.name) command.entry.now (texts words.now) (plain_word report.entry) }
{
    let wanted = count_of(row);
    let given = words.len();
    if given != wanted {
        return Some(WrongWords::WrongCount {
            command,
            wanted,
            given,
        });
    }
    match row.makings {
        Makings::Words => None,
        Makings::Style => wrong_style(report),
        Makings::Count => wrong_number(words),
    }
}

// The given style, if it is unknown.
fn wrong_style(report: Option<&str>) -> Option<WrongWords<'_>>
    ensures { option_map plain_wrong result ≡ spec.wrong_style (plain_word report.entry) }
{
    let word = report?;
    match report_style_named(word) {
        Some(_) => None,
        None => Some(WrongWords::UnknownStyle(word)),
    }
}

// The given number, if no trial may have it.
fn wrong_number<'a>(words: &[&'a str]) -> Option<WrongWords<'a>>
    ensures { option_map plain_wrong result ≡ wrong_trial (texts words.now) }
{
    let word = word_at(words, 0);
    match trial_count(word) {
        Some(_) => None,
        None => Some(WrongWords::WrongNumber(word)),
    }
}

// ---- arguments that `clap` refuses

// What is wrong with arguments that `clap` refuses for this cause.
fn refused_words<'a>(kind: ErrorKind, words: &'a [&'a str]) -> WrongWords<'a>
    ensures { plain_wrong result ≡ refused_by kind (texts words.entry.now) }
{
    match kind {
        ErrorKind::MissingRequiredArgument => WrongWords::MissingCommand,
        ErrorKind::UnknownArgument => match unknown_option(words) {
            Some(word) => WrongWords::UnknownOption(word),
            None => WrongWords::OtherWords,
        },
        ErrorKind::InvalidValue => match option_without_value(words) {
            Some(word) => WrongWords::MissingValue(word),
            None => WrongWords::OtherWords,
        },
        ErrorKind::ArgumentConflict => match repeated_option(words) {
            Some(word) => WrongWords::RepeatedOption(word),
            None => WrongWords::OtherWords,
        },
        ErrorKind::TooManyValues => match help_with_value(words) {
            Some(word) => WrongWords::NeedlessValue(word),
            None => WrongWords::OtherWords,
        },
        _ => WrongWords::OtherWords,
    }
}

// Whether a word is `--rules`, alone or with a value.
fn is_rules_word(word: &str) -> bool
    ensures { result ≡ spec.is_rules_word word.now }
{
    word == "--rules" || word.as_bytes().starts_with(b"--rules=")
}

// Whether a word is `--report`, alone or with a value.
fn is_report_word(word: &str) -> bool
    ensures { result ≡ spec.is_report_word word.now }
{
    word == "--report" || word.as_bytes().starts_with(b"--report=")
}

// Whether a word is `--help` with a value.
fn is_help_with_value(word: &str) -> bool
    ensures { result ≡ spec.is_help_with_value word.now }
{
    word.as_bytes().starts_with(b"--help=")
}

// Whether a word begins with `-`, and is longer.
fn is_like_option(word: &str) -> bool
    ensures { result ≡ spec.is_like_option word.now }
{
    word.as_bytes().starts_with(b"-") && word != "-"
}

// Whether a word looks like an option, but is neither one of the two options nor `--`.
fn is_unknown_option(word: &str) -> bool
    ensures { result ≡ spec.is_unknown_option word.now }
{
    is_like_option(word) && !(word == "--" || is_rules_word(word) || is_report_word(word))
}

// Whether a word is one of the two options, without a value.
fn is_bare_option(word: &str) -> bool
    ensures { result ≡ spec.is_bare_option word.now }
{
    word == "--rules" || word == "--report"
}

// The first word that looks like an option, but is unknown.
fn unknown_option<'a>(words: &[&'a str]) -> Option<&'a str>
    ensures { plain_word result ≡ find spec.is_unknown_option (texts words.now) }
{
    words.iter().find(|word| is_unknown_option(word)).copied()
}

// The first `--help` with a value.
fn help_with_value<'a>(words: &[&'a str]) -> Option<&'a str>
    ensures { plain_word result ≡ find spec.is_help_with_value (texts words.now) }
{
    words.iter().find(|word| is_help_with_value(word)).copied()
}

// Whether the first of these words is not a value.
fn lacks_value(words: &[&str]) -> bool
    ensures { result ≡ spec.lacks_value (texts words.now) }
{
    match words.first() {
        None => true,
        Some(word) => is_like_option(word),
    }
}

// Whether a word is an option without a value, and the next word is not a value.
fn is_without_value(word: &str, rest: &[&str]) -> bool
    ensures { result ≡ spec.is_without_value word.now (texts rest.now) }
{
    is_bare_option(word) && lacks_value(rest)
}

// The words after the one at a position.
fn words_behind<'w, 'a>(words: &'w [&'a str], index: usize) -> &'w [&'a str]
    requires { index < length words.now }
    ensures { result.now ≡ drop (index + 1) words.entry.now }
{
    &words[index + 1..]
}

// The first option that lacks its value.
fn option_without_value<'a>(words: &[&'a str]) -> Option<&'a str>
    ensures { plain_word result ≡ without_value (texts words.now) }
{
    for index in 0..words.len() {
        let word = words[index];
        if is_without_value(word, words_behind(words, index)) {
            return Some(word);
        }
    }
    None
}

// The number of words that are `--rules`, alone or with a value.
fn count_rules(words: &[&str]) -> usize
    ensures { result ≡ count_by spec.is_rules_word (texts words.now) }
{
    words.iter().filter(|word| is_rules_word(word)).count()
}

// The number of words that are `--report`, alone or with a value.
fn count_reports(words: &[&str]) -> usize
    ensures { result ≡ count_by spec.is_report_word (texts words.now) }
{
    words.iter().filter(|word| is_report_word(word)).count()
}

// Whether a word is one of the two options, and the option is given more than once.
fn is_repeated(words: &[&str], word: &str) -> bool
    ensures { result ≡ spec.is_repeated (texts words.now) word.now }
{
    is_rules_word(word) && count_rules(words) > 1
        || is_report_word(word) && count_reports(words) > 1
}

// The first option that is given more than once.
fn repeated_option<'a>(words: &[&'a str]) -> Option<&'a str>
    ensures { plain_word result ≡ find (spec.is_repeated (texts words.now)) (texts words.now) }
{
    words.iter().find(|word| is_repeated(words, word)).copied()
}
