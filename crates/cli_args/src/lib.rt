//! The arguments of the command line, parsed with `clap` as a single command. `specs/ParsedArguments.antt` defines their meaning,
//! based on the model of what `clap` answers.
#![tactic(auto)]

pub mod commands;
mod given;
mod judge;
pub mod laws;
mod line;
mod parsed_arguments;
mod release;
mod wrong;

pub use commands::{Request, usage};
pub use given::{GivenLine, line_given};
pub use parsed_arguments::{ParsedArguments, parse_arguments};
pub use release::{asks_for_version, version};
pub use wrong::{OptionName, WrongWords, wrong_words};
