// Reads the imports of an application.
ghost use Rattle.std.specs.Prelude.{◌≡◌, ◌≤◌, ◌<◌, ◌^◌, ◌+◌, ◌++◌, ◌∷◌, [], None, length, IfErr, IfOk, OnOk};
ghost use Rattle.std.specs.Option.{option_map};
ghost use Rattle.abi_base.specs.Budgets.{with_taken};
ghost use Rattle.abi_base.specs.Limits.{input_limit};
ghost use Rattle.abi_base.specs.Outcome.{Judges, OnLimit, OnPast, first};
ghost use Rattle.elf.specs.symbols.Plain.{plain_symbol, plain_symbols};
ghost use Rattle.elf.specs.symbols.Symbols.{symbols_of};
ghost use Rattle.elf.specs.versions.Versions.{version_fault};
ghost use Rattle.elf_needs.specs.Indexes.{indexes_of};
ghost use Rattle.elf_needs.specs.Needs.{needs_fault};
ghost use Rattle.elf_needs.specs.Plain.{plain_need, needed};
ghost use Rattle.app_check.specs.Imports.{index_in, need_by, need_bytes, all_need_bytes, most_need_bytes, imports_with, import_fault_of, import_fault_with, imports_fault, imports_of, app_fault, AppPasses, ImportsPass, PassesImportsWith};
ghost use Rattle.app_check.specs.Imports as spec;
ghost use Rattle.app_check.specs.Plain.{plain_import, plain_imports};

use crate::import::Import;
use abi_base::{Budget, Fault, FaultKind, INPUT_LIMIT, Limit, NoMemory, Refusal};
use elf::constants::{SHN_UNDEF, STB_GLOBAL, STB_GNU_UNIQUE, STB_WEAK, SYM_SIZE, VER_NDX_GLOBAL};
use elf::file::{ElfFile, read_elf};
use elf::symbols::{Symbol, soname, symbols};
use elf::versions::versions;
use elf_needs::{Indexes, Need, Needs, indexes, needs};
use std::alloc::Global;

// Whether other files may define a symbol, judged by its record.
fn is_linked(symbol: &Symbol) -> bool
    ensures { result ≡ spec.is_linked (plain_symbol symbol.now) }
{
    symbol.number != 0
        && matches!(symbol.binding, STB_GLOBAL | STB_WEAK | STB_GNU_UNIQUE)
        && symbol.name.len() != 0
}

// The version index of the symbol with this number.
fn index_of(indexes: &Indexes, number: u32) -> u16
    ensures { result ≡ index_in indexes.now number }
{
    match indexes.index_of(number as usize) {
        Some(index) => index,
        None => VER_NDX_GLOBAL,
    }
}

// The version and the file for a version index, or None at the indexes of symbols without a version.
fn need_with<'a>(needs: &Needs<'a>, index: u16) -> Option<Need<'a>>
    ensures { option_map plain_need result ≡ need_by (needed needs.now) index }
{
    if index <= VER_NDX_GLOBAL {
        return None;
    }
    needs.need_of(index)
}

// The import for a symbol, if it is one.
fn import_of<'a>(needs: &Needs<'a>, indexes: &Indexes, symbol: &Symbol<'a>) -> Option<Import<'a>>
    ensures { option_map plain_import result ≡ spec.import_of (needed needs.now) indexes.now (plain_symbol symbol.now) }
{
    let need = need_with(needs, index_of(indexes, symbol.number));
    if is_linked(symbol) && (symbol.section == SHN_UNDEF || need.is_some()) {
        Some(Import {
            symbol: symbol.number,
            name: symbol.name,
            need,
        })
    } else {
        None
    }
}

// The fault of an undefined symbol whose version index no auxiliary entry has.
fn fault_of(needs: &Needs, indexes: &Indexes, symbol: &Symbol) -> Option<Fault>
    ensures { result ≡ import_fault_of (needed needs.now) indexes.now (plain_symbol symbol.now) }
{
    let index = index_of(indexes, symbol.number);
    if is_linked(symbol)
        && symbol.section == SHN_UNDEF
        && index > VER_NDX_GLOBAL
        && needs.need_of(index).is_none()
    {
        Some(Fault {
            kind: FaultKind::ImportVersion,
            at: u64::from(symbol.number),
        })
    } else {
        None
    }
}

// The first fault of a symbol whose version index no auxiliary entry has.
fn import_fault(needs: &Needs, indexes: &Indexes, symbols: &[Symbol]) -> Option<Fault>
    ensures { result ≡ import_fault_with (needed needs.now) indexes.now (plain_symbols symbols.now) }
{
    for symbol in symbols {
        if let Some(fault) = fault_of(needs, indexes, symbol) {
            return Some(fault);
        }
    }
    None
}

// How many bytes the names of a version and of its file have.
fn bytes_of(need: &Need) -> usize
    ensures { result ≡ length need.now.version.now + length need.now.file.now }
{
    need.version.len() + need.file.len()
}

// How many bytes the names of the version and of the file have that an import needs.
fn need_len(import: &Import) -> usize
    ensures { result ≡ need_bytes (plain_import import.now) }
{
    match &import.need {
        Some(need) => bytes_of(need),
        None => 0,
    }
}

// Keeps an import behind those before it, as long as the budget allows the names of its version and of its file.
fn keep<'a>(
    imports: &mut Vec<Import<'a>>,
    import: Import<'a>,
    budget: &mut Budget,
) -> Result<(), NoMemory>
    ensures kept { OnOk result (imports.new.items ≡ imports.old.items ++ import.entry ∷ []) }
    ensures taken { OnOk result (budget.new ≡ with_taken budget.old (need_bytes (plain_import import.entry))) }
    ensures within { OnOk result (budget.old.taken + need_bytes (plain_import import.entry) ≤ budget.old.most) }
    ensures past { IfErr result (λ e. OnLimit e (λ l. (l ≡ budget.old.limit)
        × (budget.old.most < budget.old.taken + need_bytes (plain_import import.entry)))) }
{
    budget.take(need_len(&import))?;
    Ok(imports.push(import)?)
}

// The imports among these symbols, in order. Whoever looks for what they bind to compares the version and the file of each, which
// all of them may share, and which may have long names.
fn imports_in<'a>(
    alloc: Global,
    needs: &Needs<'a>,
    indexes: &Indexes,
    symbols: &[Symbol<'a>],
) -> Result<Vec<Import<'a>>, NoMemory>
    requires { length symbols.now < 2 ^ 32 }
    ensures read { IfOk result (λ imports. plain_imports imports.items
        ≡ imports_with (needed needs.now) indexes.now (plain_symbols symbols.now)) }
    ensures short { IfOk result (λ imports. all_need_bytes (plain_imports imports.items)
        ≤ most_need_bytes (length symbols.now)) }
    ensures past { IfErr result (λ e. OnLimit e
        (PassesImportsWith (needed needs.now) indexes.now (plain_symbols symbols.now))) }
{
    let mut imports = Vec::new(alloc);
    let mut budget = Budget::of(Limit::ImportNeeds, SYM_SIZE * symbols.len());
    for symbol in symbols {
        if let Some(import) = import_of(needs, indexes, symbol) {
            keep(&mut imports, import, &mut budget)?;
        }
    }
    Ok(imports)
}

/// The imports among the symbols of a file. Err is the first fault of its versions, its version needs and its imports. Where its
/// versions have no fault, the table of their indexes has none either.
#[tactic(auto, using(crate::proofs::LimitLemmas::definitions_pass, crate::proofs::LimitLemmas::needs_pass, crate::proofs::LimitLemmas::indexes_pass), unfolding(crate::specs::Imports::imports_of))]
pub(crate) fn imports_among<'a>(
    alloc: Global,
    file: &ElfFile<'a>,
    symbols: &[Symbol<'a>],
) -> Result<Vec<Import<'a>>, Refusal>
    requires symbols { plain_symbols symbols.now ≡ symbols_of file.now }
    requires few { length symbols.now < 2 ^ 32 }
    ensures judged { Judges result (first (version_fault file.now (length (symbols_of file.now))
        ∷ needs_fault file.now ∷ imports_fault file.now ∷ [])) }
    ensures read { IfOk result (λ imports. plain_imports imports.items ≡ imports_of file.now) }
    ensures short { IfOk result (λ imports. all_need_bytes (plain_imports imports.items)
        ≤ most_need_bytes (length (symbols_of file.now))) }
    ensures past { IfErr result (λ e. OnPast e (ImportsPass file.now)) }
{
    versions(alloc, file, symbols.len())?;
    let needs = needs(alloc, file)?;
    let indexes = indexes(alloc, file, symbols.len())?;
    if let Some(fault) = import_fault(&needs, &indexes, symbols) {
        return Err(Refusal::Fault(fault));
    }
    let imports = imports_in(alloc, &needs, &indexes, symbols)?;
    Ok(imports)
}

/// The imports of an application, in the order of their symbols. Err is the first fault of `ShortFile` to
/// `VersionDefinition`, of `VersionNeed` and of `ImportVersion`. Imports can share a version and a file with long names: where these
/// names, counted for each import, are more than the limit on them allows, the answer is `Past`.
#[tactic(auto, using(crate::proofs::LimitLemmas::symbols_pass, crate::proofs::LimitLemmas::imports_pass), unfolding(crate::specs::Imports::app_fault))]
pub fn read_app<'a>(alloc: Global, bytes: &'a [u8]) -> Result<Vec<Import<'a>>, Refusal>
    requires { length bytes.now ≤ input_limit }
    ensures judged { Judges result (app_fault bytes.now) }
    ensures read { IfOk result (λ imports. plain_imports imports.items ≡ imports_of bytes.now) }
    ensures short { IfOk result (λ imports. all_need_bytes (plain_imports imports.items)
        ≤ most_need_bytes (length (symbols_of bytes.now))) }
    ensures past { IfErr result (λ e. OnPast e (AppPasses bytes.now)) }
{
    let file = read_elf(bytes)?;
    let symbols = symbols(alloc, &file)?;
    soname(&file)?;
    let imports = imports_among(alloc, &file, &symbols)?;
    Ok(imports)
}
