// The values in a line, whatever its command is.
ghost use Rattle.std.specs.Prelude.{◌≡◌, IfErr, IfOk, option_map};
ghost use Rattle.abi_base.specs.declared.fault.NoMemory.TheVariants.{Allocation};
ghost use Rattle.cli_args.specs.Given.{given_in, plain_given};
ghost use Rattle.cli_args.specs.PlainLines.{plain_line};
ghost use Rattle.cli_args.specs.Words.{texts};

use crate::line::{Line, found_in, line_of};
use abi_base::NoMemory;
use clap::error::ErrorKind;
use std::alloc::Global;

/// The values in a line.
#[derive(Drop)]
pub struct GivenLine<'a> {
    /// The word that stands where a command does: of `--rules FILE check OLD NEW` it is `check`.
    pub command: Option<&'a str>,
    /// The arguments after it.
    pub files: Vec<&'a str>,
    /// The value of `--rules`.
    pub rules: Option<&'a str>,
    /// The value of `--report`.
    pub report: Option<&'a str>,
}

// The values in a line, with the arguments after its command in a list of their own.
fn given_of<'a>(alloc: Global, line: Line<'_, 'a>) -> Result<GivenLine<'a>, NoMemory>
    ensures given { IfOk result (λ given. plain_given given ≡ plain_line line.entry) }
    ensures named { IfErr result (λ e. e ≡ Allocation) }
{
    let files = match line.files {
        Some(files) => Vec::from_slice(alloc, files)?,
        None => Vec::new(alloc),
    };
    Ok(GivenLine {
        command: line.command,
        files,
        rules: line.rules,
        report: line.report,
    })
}

/// The values in a line, wherever its options stand and whatever its command is; `None` if the arguments are no line, as where an
/// option is unknown or no word stands where a command does. It fails only if memory runs out.
pub fn line_given<'a>(
    alloc: Global,
    words: &'a [&'a str],
) -> Result<Option<GivenLine<'a>>, NoMemory>
    ensures given { IfOk result (λ line. option_map plain_given line ≡ given_in (texts words.entry.now)) }
    ensures named { IfErr result (λ e. e ≡ Allocation) }
{
    match found_in(alloc, words) {
        Ok(matches) => Ok(Some(given_of(alloc, line_of(&matches))?)),
        Err(kind) => match kind {
            ErrorKind::OutOfMemory => Err(NoMemory::Allocation),
            _ => Ok(None),
        },
    }
}
