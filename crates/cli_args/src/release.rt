// The version of a program.
ghost use Rattle.std.specs.Prelude.{◌≡◌, IfErr, IfOk};
ghost use Rattle.abi_base.specs.declared.fault.NoMemory.TheVariants.{Allocation};
ghost use Rattle.cli_args.specs.Release.{is_version_alone, version_text};
ghost use Rattle.cli_args.specs.Words.{texts};

use crate::judge::word_at;
use abi_base::NoMemory;
use std::alloc::Global;

// The release, the logic of the kit that proves it, and the formats: tests/python/test_version.py compares them with the places that
// name them.
const ABOUT: &str = " 0.2.0
proved with Rattle, logic dac8208d650f15bf
reads certificates of versions 1 and 2, writes version 2; documents of format 1
";

/// Whether the arguments after the program's name are `--version` alone.
pub fn asks_for_version(words: &[&str]) -> bool
    ensures { result ≡ is_version_alone (texts words.now) }
{
    words.len() == 1 && word_at(words, 0) == "--version"
}

/// The version text of the program with this name: its release, the logic with which it is proved, and the formats that it reads
/// and writes. It fails only if memory runs out.
pub fn version(alloc: Global, program: &str) -> Result<Vec<u8>, NoMemory>
    ensures text { IfOk result (λ text. text.items ≡ version_text program.now) }
    ensures named { IfErr result (λ e. e ≡ Allocation) }
{
    let about = ABOUT;
    Ok(format!(in alloc; "{program}{about}")?.into_bytes())
}
