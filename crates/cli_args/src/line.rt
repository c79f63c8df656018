// The command line as it is described to `clap`, and the values that `clap` finds.
ghost use Rattle.std.specs.Prelude.{◌≡◌, map, codes, option_map, IfOk, false};
ghost use Rattle.clap.specs.Words.{app_of, rule_of, rows_of, found_of};
ghost use Rattle.cli_args.specs.Words.{texts};
ghost use Rattle.cli_args.specs.Line.{line_app, line_in, valued_rule, command_rule, files_rule, Answers, Finds};
ghost use Rattle.cli_args.specs.PlainLines.{plain_line};

use clap::error::ErrorKind;
use clap::{Arg, ArgAction, ArgMatches, Command};
use std::alloc::{AllocError, Global};

/// Why `clap` refuses arguments.
#[derive(Clone, Copy)]
pub(crate) enum Refused {
    /// They request its help.
    Help,
    /// They do not fit the command line.
    Wrong,
    /// Memory ran out.
    NoMemory,
}

/// The values in a line.
#[derive(Clone, Copy)]
pub(crate) struct Line<'m, 'a> {
    /// The command, if one is given.
    pub command: Option<&'a str>,
    /// The files, if any are given.
    pub files: Option<&'m [&'a str]>,
    /// The value of `--rules`.
    pub rules: Option<&'a str>,
    /// The value of `--report`.
    pub report: Option<&'a str>,
}

/// The values that `clap` finds, or the kind of its refusal.
pub(crate) fn found_in<'a>(alloc: Global, words: &'a [&'a str]) -> Result<ArgMatches<'a>, ErrorKind>
    ensures { Finds (texts words.entry.now) result }
{
    let Ok(command) = command_line(alloc) else {
        return Err(ErrorKind::OutOfMemory);
    };
    match command.try_get_matches_from(words) {
        Ok(matches) => Ok(matches),
        Err(error) => Err(error.kind()),
    }
}

/// The values that `clap` finds, or why it refuses the arguments.
pub(crate) fn matches_in<'a>(alloc: Global, words: &'a [&'a str]) -> Result<ArgMatches<'a>, Refused>
    ensures { Answers (texts words.entry.now) result }
{
    match found_in(alloc, words) {
        Ok(matches) => Ok(matches),
        Err(kind) => match kind {
            ErrorKind::OutOfMemory => Err(Refused::NoMemory),
            ErrorKind::DisplayHelp => Err(Refused::Help),
            _ => Err(Refused::Wrong),
        },
    }
}

/// The values in the line that `clap` found.
pub(crate) fn line_of<'m, 'a>(matches: &'m ArgMatches<'a>) -> Line<'m, 'a>
    ensures { plain_line result ≡ line_in (rows_of (found_of matches.now)) }
{
    Line {
        command: matches.get_str("command"),
        files: matches.get_raw("files"),
        rules: matches.get_str("rules"),
        report: matches.get_str("report"),
    }
}

// The command line of the program.
fn command_line<'a>(alloc: Global) -> Result<Command<'a>, AllocError>
    ensures { IfOk result (λ command. app_of command ≡ line_app) }
{
    let command = Command::new(alloc, "abi")
        .no_binary_name(true)
        .arg(valued(alloc, "rules"))?
        .arg(valued(alloc, "report"))?
        .arg(command_word(alloc))?;
    command.arg(files(alloc))
}

// An option with a value.
fn valued<'a>(alloc: Global, name: &'a str) -> Arg<'a>
    ensures rule { rule_of result ≡ valued_rule name.entry.now }
    ensures local { result.global ≡ false }
{
    Arg::new(alloc, name).long(name).action(ArgAction::Set)
}

// The command, which is required.
fn command_word<'a>(alloc: Global) -> Arg<'a>
    ensures rule { rule_of result ≡ command_rule }
    ensures local { result.global ≡ false }
{
    Arg::new(alloc, "command")
        .required(true)
        .action(ArgAction::Set)
}

// The files, in any number.
fn files<'a>(alloc: Global) -> Arg<'a>
    ensures rule { rule_of result ≡ files_rule }
    ensures local { result.global ≡ false }
{
    Arg::new(alloc, "files")
        .action(ArgAction::Append)
        .num_args(0..)
}
