// What a library offers: its soname and its exports.
ghost use Rattle.std.specs.Prelude.{◌≡◌, ◌∷◌, [], ◌<◌, ◌≤◌, ◌^◌, length, map, IfErr, IfOk};
ghost use Rattle.std.specs.List.{range_with_len};
ghost use Rattle.std.specs.Option.{option_copied};
ghost use Rattle.abi_base.specs.Limits.{input_limit};
ghost use Rattle.abi_base.specs.Outcome.{Judges, OnPast, first};
ghost use Rattle.abi_types.specs.Plain.{plain_exports};
ghost use Rattle.elf.specs.symbols.Dynamic.{soname_of};
ghost use Rattle.elf.specs.symbols.Plain.{plain_symbols};
ghost use Rattle.elf.specs.symbols.Symbols.{symbols_of};
ghost use Rattle.elf.specs.versions.Versions.{version_fault};
ghost use Rattle.elf_bind.specs.Exports.{export_fault};
ghost use Rattle.app_check.specs.Links.{symbol_versions, exports_of, library_fault, ExportsPass, LibraryPasses};

use abi_base::Refusal;
use abi_types::Export;
use elf::file::{ElfFile, read_elf};
use elf::symbols::{Symbol, soname, symbols};
use elf::versions::versions;
use elf_bind::exports;
use std::alloc::Global;

/// The soname and the exports of a library.
#[derive(Drop)]
pub(crate) struct Offered<'a> {
    /// The soname, if there is one.
    pub soname: Option<&'a [u8]>,
    /// The exports, in the order of their symbols, each without a type.
    pub exports: Vec<Export<'a>>,
}

// The exports among the symbols of a file.
#[tactic(auto, using(crate::proofs::LimitLemmas::versions_pass, crate::proofs::LimitLemmas::exports_pass), unfolding(crate::specs::Links::exports_of))]
fn exports_among<'a>(
    alloc: Global,
    file: &ElfFile<'a>,
    symbols: &[Symbol<'a>],
) -> Result<Vec<Export<'a>>, Refusal>
    requires symbols { plain_symbols symbols.now ≡ symbols_of file.now }
    requires numbered { map (λ s. s.number) (plain_symbols symbols.now) ≡ range_with_len 0 (length symbols.now) }
    requires few { length symbols.now < 2 ^ 32 }
    ensures judged { Judges result (first (version_fault file.now (length (symbols_of file.now))
        ∷ export_fault (symbols_of file.now) (symbol_versions file.now) ∷ [])) }
    ensures read { IfOk result (λ exports. plain_exports exports.items ≡ exports_of file.now) }
    ensures past { IfErr result (λ e. OnPast e (ExportsPass file.now)) }
{
    let versions = versions(alloc, file, symbols.len())?;
    exports(alloc, symbols, &versions)
}

/// What a library offers. Err is the first fault of the file, of its symbols, its dynamic table, its versions and its exports.
#[tactic(auto, using(crate::proofs::LimitLemmas::library_symbols_pass, crate::proofs::LimitLemmas::library_exports_pass), unfolding(crate::specs::Links::library_fault))]
pub(crate) fn read_offered<'a>(alloc: Global, bytes: &'a [u8]) -> Result<Offered<'a>, Refusal>
    requires { length bytes.now ≤ input_limit }
    ensures judged { Judges result (library_fault bytes.now) }
    ensures soname { IfOk result (λ offered. option_copied offered.soname ≡ soname_of bytes.now) }
    ensures exports { IfOk result (λ offered. plain_exports offered.exports.items ≡ exports_of bytes.now) }
    ensures past { IfErr result (λ e. OnPast e (LibraryPasses bytes.now)) }
{
    let file = read_elf(bytes)?;
    let symbols = symbols(alloc, &file)?;
    let soname = soname(&file)?;
    let exports = exports_among(alloc, &file, &symbols)?;
    Ok(Offered { soname, exports })
}
