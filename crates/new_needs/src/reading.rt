// Reads what a file needs.
ghost use Rattle.std.specs.Prelude.{◌≡◌, ◌≤◌, length, map, IfErr, IfOk};
ghost use Rattle.abi_base.specs.declared.fault.NoMemory.TheVariants.{Allocation};
ghost use Rattle.abi_base.specs.Limits.{input_limit};
ghost use Rattle.abi_base.specs.Outcome.{Judges, OnPast};
ghost use Rattle.elf.specs.symbols.Plain.{plain_symbol, plain_symbols};
ghost use Rattle.new_needs.specs.NeededFiles.{plain_names};
ghost use Rattle.elf_needs.specs.Plain.{plain_need};
ghost use Rattle.app_check.specs.Plain.{plain_import, plain_imports};
ghost use Rattle.new_needs.specs.Needs.{file_fault, file_needed, needs_of, needs_with, strong_symbols, symbol_needed, version_needed, FilePasses};
ghost use Rattle.new_needs.specs.Needs as spec;
ghost use Rattle.new_needs.specs.Versions.{plain_versions};
ghost use Rattle.new_needs.specs.Plain.{plain_all, plain_needed, plain_needs};

use crate::dynamic::needed_files;
use crate::kept::{FileNeeds, Needed};
use crate::versions::all_versions;
use abi_base::{INPUT_LIMIT, NoMemory, Refusal};
use app_check::{Import, read_app};
use elf::constants::{SHN_UNDEF, STB_GLOBAL};
use elf::file::{ElfFile, read_elf};
use elf::symbols::{Symbol, symbols};
use elf_needs::{Need, needs};
use std::alloc::Global;

// Whether some other file must define a symbol.
fn must_be_defined(symbol: &Symbol) -> bool
    ensures { result ≡ spec.must_be_defined (plain_symbol symbol.now) }
{
    symbol.section == SHN_UNDEF && symbol.binding == STB_GLOBAL
}

// The same of an import, by its symbol.
fn is_strong(symbols: &[Symbol], import: &Import) -> bool
    ensures { result ≡ spec.is_strong (plain_symbols symbols.now) (plain_import import.now) }
{
    match symbols.get(import.symbol as usize) {
        Some(symbol) => must_be_defined(symbol),
        None => false,
    }
}

// A symbol and its version.
fn symbol_of<'a>(import: &Import<'a>) -> Needed<'a>
    ensures { plain_needed result ≡ symbol_needed (plain_import import.now) }
{
    Needed {
        name: import.name,
        of: match import.need {
            Some(need) => need.version,
            None => b"",
        },
    }
}

// The symbols that must be defined, in order.
fn symbols_among<'a>(
    alloc: Global,
    symbols: &[Symbol],
    imports: &[Import<'a>],
) -> Result<Vec<Needed<'a>>, NoMemory>
    ensures read { IfOk result (λ needed. plain_all needed.items
        ≡ strong_symbols (plain_symbols symbols.now) (plain_imports imports.now)) }
    ensures named { IfErr result (λ e. e ≡ Allocation) }
{
    let mut needed = Vec::new(alloc);
    for import in imports {
        if is_strong(symbols, import) {
            needed.push(symbol_of(import))?;
        }
    }
    Ok(needed)
}

// A file.
fn file_of<'a>(name: &'a [u8]) -> Needed<'a>
    ensures { plain_needed result ≡ file_needed name.now }
{
    Needed { name, of: b"" }
}

// The files with these names.
fn files_of<'a>(alloc: Global, names: &[&'a [u8]]) -> Result<Vec<Needed<'a>>, NoMemory>
    ensures read { IfOk result (λ needed. plain_all needed.items ≡ map file_needed (plain_names names.now)) }
    ensures named { IfErr result (λ e. e ≡ Allocation) }
{
    let mut needed = Vec::new(alloc);
    for name in names {
        needed.push(file_of(*name))?;
    }
    Ok(needed)
}

// A version and its file.
fn version_of<'a>(need: &Need<'a>) -> Needed<'a>
    ensures { plain_needed result ≡ version_needed (plain_need need.now) }
{
    Needed {
        name: need.version,
        of: need.file,
    }
}

// These versions with their files.
fn versions_of<'a>(alloc: Global, needs: &[Need<'a>]) -> Result<Vec<Needed<'a>>, NoMemory>
    ensures read { IfOk result (λ needed. plain_all needed.items ≡ map version_needed (plain_versions needs.now)) }
    ensures named { IfErr result (λ e. e ≡ Allocation) }
{
    let mut needed = Vec::new(alloc);
    for need in needs {
        needed.push(version_of(need))?;
    }
    Ok(needed)
}

// What was read of a file: the names of files, the versions, the symbols and the imports.
fn needs_by<'a>(
    alloc: Global,
    names: &[&'a [u8]],
    versions: &[Need<'a>],
    symbols: &[Symbol],
    imports: &[Import<'a>],
) -> Result<FileNeeds<'a>, NoMemory>
    ensures read { IfOk result (λ needs. plain_needs needs
        ≡ needs_with (plain_names names.now) (plain_versions versions.now) (plain_symbols symbols.now) (plain_imports imports.now)) }
    ensures named { IfErr result (λ e. e ≡ Allocation) }
{
    Ok(FileNeeds {
        files: files_of(alloc, names)?,
        versions: versions_of(alloc, versions)?,
        symbols: symbols_among(alloc, symbols, imports)?,
    })
}

/// What a file needs of other files: files, versions of files, and symbols that must be defined. Err is the first fault of
/// `ShortFile` to `VersionDefinition`, of `VersionNeed` and of `ImportVersion`, then `DynamicTable` at a needed file whose name has
/// no end, or `Past`.
#[tactic(auto, using(crate::proofs::ReadLemmas::symbols_pass, crate::proofs::ReadLemmas::app_pass, crate::proofs::ReadLemmas::needs_pass, crate::proofs::ReadLemmas::names_pass))]
pub fn read_needs<'a>(alloc: Global, bytes: &'a [u8]) -> Result<FileNeeds<'a>, Refusal>
    requires { length bytes.now ≤ input_limit }
    ensures judged { Judges result (file_fault bytes.now) }
    ensures read { IfOk result (λ needs. plain_needs needs ≡ needs_of bytes.now) }
    ensures past { IfErr result (λ e. OnPast e (FilePasses bytes.now)) }
{
    let file = read_elf(bytes)?;
    let symbols = symbols(alloc, &file)?;
    let imports = read_app(alloc, bytes)?;
    let by_index = needs(alloc, &file)?;
    let names = needed_files(alloc, &file)?;
    let versions = all_versions(alloc, &by_index)?;
    let needs = needs_by(alloc, &names, &versions, &symbols, &imports)?;
    Ok(needs)
}
