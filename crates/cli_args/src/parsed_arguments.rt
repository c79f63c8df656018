// The meaning of the arguments.
ghost use Rattle.std.specs.Prelude.{◌≡◌, IfErr, IfOk};
ghost use Rattle.abi_base.specs.declared.fault.NoMemory.TheVariants.{Allocation};
ghost use Rattle.cli_args.specs.Words.{texts};
ghost use Rattle.cli_args.specs.ParsedArguments.{arguments_by};
ghost use Rattle.cli_args.specs.Requests.{plain_asked};

use crate::commands::Request;
use crate::judge::judged;
use crate::line::{Refused, matches_in};
use crate::release::asks_for_version;
use abi_base::NoMemory;
use std::alloc::Global;

/// The meaning of the arguments.
#[derive(Clone, Copy)]
pub enum ParsedArguments<'a> {
    /// A request.
    Request(Request<'a>),
    /// The help.
    Help,
    /// The version.
    Version,
    /// An error, which is answered with the usage.
    Usage,
}

/// Parses the arguments after the program's name. It fails only if memory runs out.
pub fn parse_arguments<'a>(
    alloc: Global,
    words: &'a [&'a str],
) -> Result<ParsedArguments<'a>, NoMemory>
    ensures asked { IfOk result (λ asked. plain_asked asked ≡ arguments_by (texts words.entry.now)) }
    ensures named { IfErr result (λ e. e ≡ Allocation) }
{
    if asks_for_version(words) {
        return Ok(ParsedArguments::Version);
    }
    match matches_in(alloc, words) {
        Ok(matches) => Ok(judged(&matches)),
        Err(Refused::Help) => Ok(ParsedArguments::Help),
        Err(Refused::Wrong) => Ok(ParsedArguments::Usage),
        Err(Refused::NoMemory) => Err(NoMemory::Allocation),
    }
}
