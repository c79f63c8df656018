// The commands: the request of each, its row in the table of commands, and its line of the usage.
ghost use Rattle.std.specs.Prelude.{◌≡◌, ◌∷◌, [], IfErr, IfOk, IfSome, codes, if◌then◌else◌, length, map, option_map, string_bytes};
ghost use Rattle.std.specs.List.{AllByRecursion, concat};
ghost use Rattle.abi_base.specs.declared.fault.NoMemory.TheVariants.{Allocation};
ghost use Rattle.cli_args.specs.Commands.{IsRow, all_commands, plain_request, plain_word, row_of, usage_of, usage_text};
ghost use Rattle.cli_args.specs.Commands as spec;
ghost use Rattle.cli_args.specs.ParsedArguments.{made_of};
ghost use Rattle.cli_args.specs.Words.{texts};

use crate::judge::{trial_count, word_at};
use abi_base::NoMemory;
use report::styles::ReportStyle;
use std::alloc::{AllocError, Global};

/// The arguments of `check`, which answers whether the new library may replace the old one, with a report in this style if not.
#[derive(Clone, Copy)]
pub struct CheckWords<'a> {
    /// The name of the rule file, if there is one.
    pub rules: Option<&'a str>,
    /// The style of the report.
    pub report: ReportStyle,
    /// The name of the old library.
    pub old: &'a str,
    /// The name of the new library.
    pub new: &'a str,
}

/// The arguments of `verify` and `migrate`, which check and migrate the certificate for two libraries.
#[derive(Clone, Copy)]
pub struct CertificateWords<'a> {
    /// The name of the rule file, if there is one.
    pub rules: Option<&'a str>,
    /// The name of the old library.
    pub old: &'a str,
    /// The name of the new library.
    pub new: &'a str,
    /// The name of the certificate.
    pub certificate: &'a str,
}

/// The arguments of `compose`, which joins two certificates with a common middle library.
#[derive(Clone, Copy)]
pub struct ComposeWords<'a> {
    /// The name of the first library.
    pub first: &'a str,
    /// The name of the middle library.
    pub middle: &'a str,
    /// The name of the last library.
    pub last: &'a str,
    /// The name of the certificate for the first and the middle library.
    pub certificate1: &'a str,
    /// The name of the certificate for the middle and the last library.
    pub certificate2: &'a str,
}

/// The arguments of `layout`, which prints the layout of the structure with a tag.
#[derive(Clone, Copy)]
pub struct LayoutWords<'a> {
    /// The name of the library.
    pub library: &'a str,
    /// The tag of the structure.
    pub tag: &'a str,
}

/// The arguments of `app`, which answers whether the new library may replace the old one for an application, with a report in this
/// style if not.
#[derive(Clone, Copy)]
pub struct AppWords<'a> {
    /// The name of the rule file, if there is one.
    pub rules: Option<&'a str>,
    /// The style of the report.
    pub report: ReportStyle,
    /// The name of the application.
    pub program: &'a str,
    /// The name of the old library.
    pub old: &'a str,
    /// The name of the new library.
    pub new: &'a str,
}

/// A command with its options, and the names of its inputs as they are given.
#[derive(Clone, Copy)]
pub enum Request<'a> {
    /// Whether the new library may replace the old one.
    Check(CheckWords<'a>),
    /// Whether the certificate proves that the new library may replace the old one.
    Verify(CertificateWords<'a>),
    /// The debug entries of the library with this name.
    Entries(&'a str),
    /// The exports of the library with this name.
    Exports(&'a str),
    /// The check of two generated libraries with this many functions, from 1 to 50,000.
    Trial(u32),
    /// The certificate of version 2 to which this one of version 1 is migrated.
    Migrate(CertificateWords<'a>),
    /// The certificate that two certificates compose.
    Compose(ComposeWords<'a>),
    /// The layout of a structure.
    Layout(LayoutWords<'a>),
    /// Whether the new library may replace the old one for an application.
    App(AppWords<'a>),
}

/// The commands.
#[derive(Clone, Copy)]
pub(crate) enum CommandName {
    Check,
    Verify,
    Entries,
    Exports,
    Trial,
    Migrate,
    Compose,
    Layout,
    App,
}

/// What a request is made of, beside the rule file.
#[derive(Clone, Copy)]
pub(crate) enum Makings {
    /// The arguments.
    Words,
    /// The style of a report, and the arguments.
    Style,
    /// The only argument, which is a number.
    Count,
}

/// A command with its word and what it takes, from which its line of the usage is made.
#[derive(Clone, Copy)]
pub struct CommandRow {
    /// The command.
    pub(crate) name: CommandName,
    /// The word for it.
    pub word: &'static str,
    /// Whether it takes `--rules`.
    pub(crate) takes_rules: bool,
    /// What its request is made of. Only one that is made of a style takes `--report`.
    pub(crate) makings: Makings,
    /// Its arguments as the usage names them, with one space between each two.
    pub arguments: &'static str,
}

const CHECK: CommandRow = CommandRow {
    name: CommandName::Check,
    word: "check",
    takes_rules: true,
    makings: Makings::Style,
    arguments: "OLD NEW",
};

const VERIFY: CommandRow = CommandRow {
    name: CommandName::Verify,
    word: "verify",
    takes_rules: true,
    makings: Makings::Words,
    arguments: "OLD NEW CERT",
};

const ENTRIES: CommandRow = CommandRow {
    name: CommandName::Entries,
    word: "entries",
    takes_rules: false,
    makings: Makings::Words,
    arguments: "LIB",
};

const EXPORTS: CommandRow = CommandRow {
    name: CommandName::Exports,
    word: "exports",
    takes_rules: false,
    makings: Makings::Words,
    arguments: "LIB",
};

const TRIAL: CommandRow = CommandRow {
    name: CommandName::Trial,
    word: "trial",
    takes_rules: false,
    makings: Makings::Count,
    arguments: "N",
};

const MIGRATE: CommandRow = CommandRow {
    name: CommandName::Migrate,
    word: "migrate",
    takes_rules: true,
    makings: Makings::Words,
    arguments: "OLD NEW CERT",
};

const APP: CommandRow = CommandRow {
    name: CommandName::App,
    word: "app",
    takes_rules: true,
    makings: Makings::Style,
    arguments: "APP OLD NEW",
};

const COMPOSE: CommandRow = CommandRow {
    name: CommandName::Compose,
    word: "compose",
    takes_rules: false,
    makings: Makings::Words,
    arguments: "A B C CERT1 CERT2",
};

const LAYOUT: CommandRow = CommandRow {
    name: CommandName::Layout,
    word: "layout",
    takes_rules: false,
    makings: Makings::Words,
    arguments: "LIB TAG",
};

/// The commands, in the order of the usage.
pub const COMMANDS: [CommandRow; 9] = [
    CHECK, VERIFY, ENTRIES, EXPORTS, TRIAL, MIGRATE, APP, COMPOSE, LAYOUT,
];

/// The commands, in the order in which a sentence names them.
pub const IN_SENTENCES: [CommandRow; 9] = [
    CHECK, APP, VERIFY, COMPOSE, MIGRATE, EXPORTS, ENTRIES, LAYOUT, TRIAL,
];

// The rows of all commands.
fn command_rows() -> &'static [CommandRow]
    ensures names { map (λ row. row.name) result.now ≡ all_commands }
    ensures rows { AllByRecursion IsRow result.now }
{
    &COMMANDS
}

/// The row of the command with this name.
pub(crate) fn command_named(word: &str) -> Option<CommandRow>
    ensures name { option_map (λ row. row.name) result ≡ spec.command_named word.now }
    ensures row { IfSome result IsRow }
{
    command_rows().iter().find(|row| word == row.word).copied()
}

/// The number of a command's arguments, not counting its options.
pub(crate) fn count_of(row: CommandRow) -> usize
    requires { IsRow row }
    ensures { result ≡ length (row_of row.name).arguments }
{
    row.arguments.split(' ').count()
}

/// Whether a command takes `--report`, whose request is made of this.
pub(crate) fn takes_report(makings: Makings) -> bool
    ensures { result ≡ spec.takes_report makings }
{
    match makings {
        Makings::Words | Makings::Count => false,
        Makings::Style => true,
    }
}

/// The request of a command with as many arguments as it takes, and with no option that it does not take, if the style and the
/// number are valid.
pub(crate) fn made<'a>(
    name: CommandName,
    rules: Option<&'a str>,
    style: Option<ReportStyle>,
    words: &[&'a str],
) -> Option<Request<'a>>
    ensures { option_map plain_request result
        ≡ made_of (row_of name).making (plain_word rules.entry) style (texts words.now) }
{
    match name {
        CommandName::Check => Some(Request::Check(check(rules, style?, words))),
        CommandName::Verify => Some(Request::Verify(certificate(rules, words))),
        CommandName::Entries => Some(Request::Entries(word_at(words, 0))),
        CommandName::Exports => Some(Request::Exports(word_at(words, 0))),
        CommandName::Trial => Some(Request::Trial(trial_count(word_at(words, 0))?)),
        CommandName::Migrate => Some(Request::Migrate(certificate(rules, words))),
        CommandName::Compose => Some(Request::Compose(compose(words))),
        CommandName::Layout => Some(Request::Layout(layout(words))),
        CommandName::App => Some(Request::App(app(rules, style?, words))),
    }
}

// The arguments of `check`.
fn check<'a>(rules: Option<&'a str>, report: ReportStyle, words: &[&'a str]) -> CheckWords<'a>
    ensures { let given = texts words.now in
        plain_request (Request.Check result) ≡ spec.check (plain_word rules.entry) report (spec.word_at given 0) (spec.word_at given 1) }
{
    CheckWords {
        rules,
        report,
        old: word_at(words, 0),
        new: word_at(words, 1),
    }
}

// The arguments of `verify` or `migrate`.
fn certificate<'a>(rules: Option<&'a str>, words: &[&'a str]) -> CertificateWords<'a>
    ensures verify { let given = texts words.now in
        plain_request (Request.Verify result) ≡ spec.verify (plain_word rules.entry) (spec.word_at given 0) (spec.word_at given 1) (spec.word_at given 2) }
    ensures migrate { let given = texts words.now in
        plain_request (Request.Migrate result) ≡ spec.migrate (plain_word rules.entry) (spec.word_at given 0) (spec.word_at given 1) (spec.word_at given 2) }
{
    CertificateWords {
        rules,
        old: word_at(words, 0),
        new: word_at(words, 1),
        certificate: word_at(words, 2),
    }
}

// The arguments of `compose`.
fn compose<'a>(words: &[&'a str]) -> ComposeWords<'a>
    ensures { let given = texts words.now in
        plain_request (Request.Compose result) ≡ spec.compose (spec.word_at given 0) (spec.word_at given 1) (spec.word_at given 2) (spec.word_at given 3) (spec.word_at given 4) }
{
    ComposeWords {
        first: word_at(words, 0),
        middle: word_at(words, 1),
        last: word_at(words, 2),
        certificate1: word_at(words, 3),
        certificate2: word_at(words, 4),
    }
}

// The arguments of `layout`.
fn layout<'a>(words: &[&'a str]) -> LayoutWords<'a>
    ensures { let given = texts words.now in
        plain_request (Request.Layout result) ≡ spec.layout (spec.word_at given 0) (spec.word_at given 1) }
{
    LayoutWords {
        library: word_at(words, 0),
        tag: word_at(words, 1),
    }
}

// The arguments of `app`.
fn app<'a>(rules: Option<&'a str>, report: ReportStyle, words: &[&'a str]) -> AppWords<'a>
    ensures { let given = texts words.now in
        plain_request (Request.App result) ≡ spec.app (plain_word rules.entry) report (spec.word_at given 0) (spec.word_at given 1) (spec.word_at given 2) }
{
    AppWords {
        rules,
        report,
        program: word_at(words, 0),
        old: word_at(words, 1),
        new: word_at(words, 2),
    }
}

// The words of the usage for `--rules`, if a command takes it.
fn rules_words(takes: bool) -> &'static str
    ensures { result.now ≡ (if takes then codes " [--rules FILE]" else []) }
{
    if takes { " [--rules FILE]" } else { "" }
}

// The words of the usage for `--report`, if a command takes it.
fn report_words(takes: bool) -> &'static str
    ensures { result.now ≡ (if takes then codes " [--report text|table|counts|first|own]" else []) }
{
    if takes {
        " [--report text|table|counts|first|own]"
    } else {
        ""
    }
}

// The line of the usage for a command, behind this word.
fn usage_line(alloc: Global, head: &str, row: CommandRow) -> Result<String, AllocError>
    requires { IsRow row }
    ensures { IfOk result (λ line. string_bytes line
        ≡ concat (head.now ∷ usage_of (row_of row.name) ∷ (10 ∷ []) ∷ [])) }
{
    let word = row.word;
    let rules = rules_words(row.takes_rules);
    let report = report_words(takes_report(row.makings));
    let arguments = row.arguments;
    let line = format!(in alloc; "{head}abi {word}{rules}{report} {arguments}\n")?;
    Ok(line)
}

/// The usage text: a line for each command, with the options and the arguments that it takes.
pub fn usage(alloc: Global) -> Result<Vec<u8>, NoMemory>
    ensures text { IfOk result (λ text. text.items ≡ usage_text) }
    ensures named { IfErr result (λ e. e ≡ Allocation) }
{
    let mut text = String::new(alloc);
    let mut head = "usage: ";
    for row in command_rows() {
        let line = usage_line(alloc, head, *row)?;
        text.push_str(line.as_str())?;
        head = "       ";
    }
    Ok(text.into_bytes())
}
