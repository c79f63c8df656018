// The request of a line that `clap` accepts: it checks the command, the number of files, the options and the style.
ghost use Rattle.std.specs.Prelude.{◌≡◌, ◌==◌, ◌||◌, is_some, length, not, option_map};
ghost use Rattle.std.specs.Char.{is_ascii_digit};
ghost use Rattle.std.specs.List.{list_all};
ghost use Rattle.clap.specs.Words.{rows_of, found_of};
ghost use Rattle.cli_args.specs.Words.{texts};
ghost use Rattle.cli_args.specs.Line.{line_in};
ghost use Rattle.cli_args.specs.PlainLines.{plain_line};
ghost use Rattle.cli_args.specs.Trials.{trial_count_of};
ghost use Rattle.cli_args.specs.Trials as trials;
ghost use Rattle.cli_args.specs.Commands.{IsRow, plain_request, plain_word, row_of};
ghost use Rattle.cli_args.specs.Commands as commands_spec;
ghost use Rattle.cli_args.specs.ParsedArguments.{needless_of, request_of, request_on, request_or_usage};
ghost use Rattle.cli_args.specs.ParsedArguments as parsed_arguments_spec;
ghost use Rattle.cli_args.specs.Requests.{plain_asked};

use crate::commands::{CommandRow, Request, command_named, count_of, made, takes_report};
use crate::line::{Line, line_of};
use crate::parsed_arguments::ParsedArguments;
use crate::wrong::OptionName;
use clap::ArgMatches;
use report::styles::ReportStyle;

// The limits on the number of functions of a trial.
const LEAST_COUNT: u32 = 1;

const MOST_COUNT: u32 = 50_000;

/// The meaning of a line that `clap` accepted: a request, or the usage.
pub(crate) fn judged<'a>(matches: &ArgMatches<'a>) -> ParsedArguments<'a>
    ensures { plain_asked result ≡ request_or_usage (request_on (line_in (rows_of (found_of matches.now)))) }
{
    match request_in(line_of(matches)) {
        Some(request) => ParsedArguments::Request(request),
        None => ParsedArguments::Usage,
    }
}

// The request of a line.
fn request_in<'a>(line: Line<'_, 'a>) -> Option<Request<'a>>
    ensures { option_map plain_request result ≡ request_on (plain_line line.entry) }
{
    let row = command_named(line.command?)?;
    requested(row, line.files.unwrap_or(&[]), line.rules, line.report)
}

// The request of a command with these arguments and options: it takes all options that are given, and this many arguments.
fn requested<'a>(
    row: CommandRow,
    words: &[&'a str],
    rules: Option<&'a str>,
    report: Option<&'a str>,
) -> Option<Request<'a>>
    requires { IsRow row }
    ensures { option_map plain_request result
        ≡ request_of (row_of row.name) (texts words.now) (plain_word rules.entry) (plain_word report.entry) }
{
    if is_misfit(row, words, rules.is_some(), report.is_some()) {
        return None;
    }
    made(row.name, rules, style_of(report), words)
}

// Whether a command does not take one of the options that are given, or takes another number of arguments.
fn is_misfit(row: CommandRow, words: &[&str], has_rules: bool, has_report: bool) -> bool
    requires { IsRow row }
    ensures { result ≡ (is_some (needless_of (row_of row.name) has_rules has_report)
        || not (length (texts words.now) == length (row_of row.name).arguments)) }
{
    needless_option(row, has_rules, has_report).is_some() || words.len() != count_of(row)
}

/// The given option that a command does not take.
pub(crate) fn needless_option(
    row: CommandRow,
    has_rules: bool,
    has_report: bool,
) -> Option<OptionName>
    requires { IsRow row }
    ensures { result ≡ needless_of (row_of row.name) has_rules has_report }
{
    if has_report && !takes_report(row.makings) {
        Some(OptionName::Report)
    } else if has_rules && !row.takes_rules {
        Some(OptionName::Rules)
    } else {
        None
    }
}

/// The argument at a position, or an empty one if there are fewer.
pub(crate) fn word_at<'a>(words: &[&'a str], index: usize) -> &'a str
    ensures { result.now ≡ commands_spec.word_at (texts words.now) index }
{
    match words.get(index) {
        Some(word) => word,
        None => "",
    }
}

/// The style with this name.
#[tactic(auto, unfolding(crate::specs::ParsedArguments::report_style_named))]
pub(crate) fn report_style_named(word: &str) -> Option<ReportStyle>
    ensures { result ≡ parsed_arguments_spec.report_style_named word.now }
{
    if word == "text" {
        Some(ReportStyle::Text)
    } else if word == "table" {
        Some(ReportStyle::Table)
    } else if word == "counts" {
        Some(ReportStyle::Counts)
    } else if word == "first" {
        Some(ReportStyle::First)
    } else if word == "own" {
        Some(ReportStyle::Own)
    } else {
        None
    }
}

// The style that is given, or `text` if none is.
fn style_of(report: Option<&str>) -> Option<ReportStyle>
    ensures { result ≡ parsed_arguments_spec.style_of (plain_word report.entry) }
{
    match report {
        Some(word) => report_style_named(word),
        None => Some(ReportStyle::Text),
    }
}

// Whether the word has only decimal digits.
fn has_only_digits(word: &str) -> bool
    ensures { result ≡ list_all is_ascii_digit word.now }
{
    word.bytes().all(|byte| byte.is_ascii_digit())
}

// Whether the word is a decimal number without leading zeros.
fn is_decimal(word: &str) -> bool
    ensures { result ≡ trials.is_decimal word.now }
{
    has_only_digits(word) && word.as_bytes().first() != Some(&b'0')
}

/// The number with this decimal spelling, if a trial may have this many functions.
#[tactic(auto, unfolding(crate::specs::Trials::trial_count_of))]
pub(crate) fn trial_count(word: &str) -> Option<u32>
    ensures { result ≡ trial_count_of word.now }
{
    if !is_decimal(word) {
        return None;
    }
    let count = word.parse::<u32>().ok()?;
    if (LEAST_COUNT..=MOST_COUNT).contains(&count) {
        Some(count)
    } else {
        None
    }
}
