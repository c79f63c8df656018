//! Laws of all command lines. Each law is the contract of a function that does nothing.
ghost use Rattle.std.specs.Prelude.{◌≡◌, ◌↔◌, ◌<◌, ◌≤◌, ◌^◌, ℕ, List, [], ◌∷◌, length, codes, Some, None, Option, IfSome};
ghost use Rattle.std.specs.List.{All, Any};
ghost use Rattle.std.specs.Fmt.{decimal};
ghost use Rattle.clap.specs.Words.{fault_of};
ghost use Rattle.report.specs.declared.styles.report_option.ReportStyle.TheVariants.{Text};
ghost use Rattle.cli_args.specs.Words.{AsksForHelp, LooksForHelp, IsNoOption};
ghost use Rattle.cli_args.specs.Line.{line_app, words_of};
ghost use Rattle.cli_args.specs.Trials.{most_count, trial_count_of};
ghost use Rattle.cli_args.specs.Commands.{check, verify, entries, exports, trial, migrate, compose, layout, app};
ghost use Rattle.cli_args.specs.ParsedArguments.{arguments_by, request_on, request_or_usage, request, help, version};

/// `clap` has at most one answer to a list of arguments.
pub fn one_answer()
    ensures { (words : List (List ℕ)) → length (fault_of line_app words) ≤ 1 }
{}

/// `--help` or `-h` alone requests the help.
pub fn help_alone_is_help()
    ensures long { arguments_by (codes "--help" ∷ []) ≡ help }
    ensures short { arguments_by (codes "-h" ∷ []) ≡ help }
{}

/// If arguments request the help, one of them is `--help`, with or without a value, or its first short option is `h`. So it begins
/// with `--help`, or with a single `-` and contains an `h`.
pub fn help_is_asked()
    ensures asks { (words : List (List ℕ)) → arguments_by words ≡ help → Any AsksForHelp words }
    ensures looks { (words : List (List ℕ)) → arguments_by words ≡ help → Any LooksForHelp words }
{}

/// The arguments request the version exactly if they are `--version` alone.
pub fn version_alone_is_version()
    ensures { (words : List (List ℕ)) → (arguments_by words ≡ version) ↔ (words ≡ codes "--version" ∷ []) }
{}

/// A trial has 1 to 50,000 functions.
pub fn a_trial_is_of_a_count()
    ensures { (words : List (List ℕ)) (n : ℕ) → arguments_by words ≡ request (trial n) → (1 ≤ n) × (n ≤ most_count) }
{}

/// A line in the order of the usage, COMMAND [--rules FILE] [--report STYLE] FILES.., is read as written, if none of its other
/// words begins with `-`.
pub fn a_line_as_the_usage_has_it_is_read()
    ensures { (command : List ℕ) (rules report : Option (List ℕ)) (files : List (List ℕ)) → IsNoOption command
        → IfSome rules IsNoOption → IfSome report IsNoOption → All IsNoOption files → length files < 2 ^ 64
        → arguments_by (words_of command rules report files)
        ≡ request_or_usage (request_on (record { command = Some command; files = files; rules = rules; report = report })) }
{}

/// `check` with the names of two files requests their check, with no rules and a report in lines of text.
pub fn check_takes_two_files()
    ensures { (old new : List ℕ) → IsNoOption old → IsNoOption new
        → arguments_by (codes "check" ∷ old ∷ new ∷ []) ≡ request (check None Text old new) }
{}

/// `verify` with the names of three files requests the verification of the certificate in the third one, with no rules.
pub fn verify_takes_three_files()
    ensures { (old new certificate : List ℕ) → IsNoOption old → IsNoOption new → IsNoOption certificate
        → arguments_by (codes "verify" ∷ old ∷ new ∷ certificate ∷ []) ≡ request (verify None old new certificate) }
{}

/// `entries` with the name of a file requests its entries.
pub fn entries_takes_one_file()
    ensures { (library : List ℕ) → IsNoOption library → arguments_by (codes "entries" ∷ library ∷ [])
        ≡ request (entries library) }
{}

/// `exports` with the name of a file requests its exports.
pub fn exports_takes_one_file()
    ensures { (library : List ℕ) → IsNoOption library → arguments_by (codes "exports" ∷ library ∷ [])
        ≡ request (exports library) }
{}

/// `trial` with a decimal number from 1 to 50,000 requests a trial of this many functions.
pub fn trial_takes_a_number()
    ensures { (n : ℕ) → 1 ≤ n → n ≤ most_count → arguments_by (codes "trial" ∷ decimal n ∷ []) ≡ request (trial n) }
{}

/// `migrate` with the names of three files requests the migration of the certificate in the third one, with no rules.
pub fn migrate_takes_three_files()
    ensures { (old new certificate : List ℕ) → IsNoOption old → IsNoOption new → IsNoOption certificate
        → arguments_by (codes "migrate" ∷ old ∷ new ∷ certificate ∷ []) ≡ request (migrate None old new certificate) }
{}

/// `compose` with the names of five files requests the composition of the certificates in the last two.
pub fn compose_takes_five_files()
    ensures { (first middle last certificate1 certificate2 : List ℕ) → IsNoOption first → IsNoOption middle
        → IsNoOption last → IsNoOption certificate1 → IsNoOption certificate2
        → arguments_by (codes "compose" ∷ first ∷ middle ∷ last ∷ certificate1 ∷ certificate2 ∷ []) ≡ request (compose first middle last certificate1 certificate2) }
{}

/// `layout` with the name of a file and a tag requests the layout of the structure with this tag.
pub fn layout_takes_a_file_and_a_tag()
    ensures { (library tag : List ℕ) → IsNoOption library → IsNoOption tag
        → arguments_by (codes "layout" ∷ library ∷ tag ∷ []) ≡ request (layout library tag) }
{}

/// `app` with the names of three files requests a check of whether the third one may replace the second for the application in the
/// first, with no rules and a report in lines of text.
pub fn app_takes_three_files()
    ensures { (program old new : List ℕ) → IsNoOption program → IsNoOption old → IsNoOption new
        → arguments_by (codes "app" ∷ program ∷ old ∷ new ∷ []) ≡ request (app None Text program old new) }
{}

/// A word that is read as the number of a trial is the decimal spelling of that number, without leading zeros or a sign.
pub fn a_count_is_written_in_decimal()
    ensures { (word : List ℕ) (n : ℕ) → trial_count_of word ≡ Some n → word ≡ decimal n }
{}
