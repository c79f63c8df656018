// The arguments of a run.
use abi_base::NoMemory;
use cli_args::line_given;
use std::alloc::Global;

// The arguments, as texts.
fn texts_of<'a>(alloc: Global, arguments: &'a [String]) -> Result<Vec<&'a str>, NoMemory> {
    let mut words: Vec<&'a str> = Vec::new(alloc);
    for argument in arguments {
        words.push(argument.as_str())?;
    }
    Ok(words)
}

// Whether the command of the arguments reports breaks, wherever the options stand.
fn are_for_report(alloc: Global, words: &[&str]) -> Result<bool, NoMemory> {
    let Some(line) = line_given(alloc, words)? else {
        return Ok(false);
    };
    Ok(line.command == Some("check") || line.command == Some("app"))
}

/// The arguments, after the option for this program's listener if their command reports breaks.
pub(crate) fn words_of<'a>(
    alloc: Global,
    arguments: &'a [String],
) -> Result<Vec<&'a str>, NoMemory> {
    let given = texts_of(alloc, arguments)?;
    if !are_for_report(alloc, &given)? {
        return Ok(given);
    }
    let mut words: Vec<&'a str> = Vec::new(alloc);
    words.push("--report")?;
    words.push("own")?;
    words.extend_from_slice(&given)?;
    Ok(words)
}
