// Remarks on how an application and a library fit together, beside the answer.
ghost use Rattle.std.specs.Prelude.{◌≡◌, ◌≤◌, length, map, filter, count_by, slice_get, if◌then◌else◌, [], IfErr, IfOk};
ghost use Rattle.std.specs.Option.{option_copied, option_map};
ghost use Rattle.abi_base.specs.declared.fault.NoMemory.TheVariants.{Allocation};
ghost use Rattle.abi_base.specs.Limits.{input_limit};
ghost use Rattle.abi_base.specs.Outcome.{Judges, OnLimit, OnPast};
ghost use Rattle.abi_types.specs.Plain.{plain_exports};
ghost use Rattle.elf.specs.symbols.Dynamic.{soname_of};
ghost use Rattle.elf.specs.symbols.Plain.{plain_symbol, plain_symbols};
ghost use Rattle.elf.specs.symbols.Symbols.{symbols_of};
ghost use Rattle.elf_bind.specs.Binding.{bind_to};
ghost use Rattle.app_check.specs.Imports.{imports_of};
ghost use Rattle.app_check.specs.Links.{is_bound, lacking_names, exports_of, library_fault, lists_soname as lists_it, bound_between, lacking_between, links_fault, LibraryPasses, LinksPass, OfferedPass, PassesSoname};
ghost use Rattle.app_check.specs.Links as spec;
ghost use Rattle.app_check.specs.Plain.{plain_import, plain_imports};
ghost use Rattle.app_check.specs.Used.{wanted_by as what_it_wants};

use crate::import::Import;
use crate::needed::lists_soname;
use crate::offered::{Offered, read_offered};
use crate::reading::imports_among;
use crate::using::{may_come_from, wanted_by};
use abi_base::{List, NoMemory, Refusal};
use abi_types::Export;
use elf::constants::{SHN_UNDEF, STB_WEAK};
use elf::file::{ElfFile, read_elf};
use elf::symbols::{Symbol, soname, symbols};
use elf_bind::bind_all;
use std::alloc::Global;

/// How an application and a library fit together.
#[derive(Drop)]
pub struct Links<'a> {
    /// The number of the application's imports that bind to the library.
    pub bound: usize,
    /// The names of the imports that the application needs from the library and that the library lacks.
    pub lacking: Vec<&'a [u8]>,
}

// Whether a program with this symbol fails to run if no library defines the symbol.
fn must_be_given(symbol: &Symbol) -> bool
    ensures { result ≡ spec.must_be_given (plain_symbol symbol.now) }
{
    symbol.section == SHN_UNDEF && symbol.binding != STB_WEAK
}

// Whether an import that binds to nothing is one that the library lacks.
fn is_missed(import: &Import, symbols: &[Symbol]) -> bool
    ensures { result ≡ spec.is_missed (plain_symbols symbols.now) (plain_import import.now) }
{
    if import.need.is_none() {
        return false;
    }
    match symbols.get(import.symbol as usize) {
        Some(symbol) => must_be_given(symbol),
        None => false,
    }
}

// The imports that the file with this soname may define. The file of each is compared: `read_app` bounds their bytes.
fn imports_from<'a>(
    alloc: Global,
    imports: &[Import<'a>],
    soname: Option<&[u8]>,
) -> Result<Vec<Import<'a>>, NoMemory>
    ensures read { IfOk result (λ those. plain_imports those.items
        ≡ spec.imports_from (option_copied soname.entry) (plain_imports imports.now)) }
    ensures named { IfErr result (λ e. e ≡ Allocation) }
{
    let mut those = Vec::new(alloc);
    for import in imports {
        if may_come_from(import, soname) {
            those.push(*import)?;
        }
    }
    Ok(those)
}

// The exports that these imports look for.
fn wanted<'a>(alloc: Global, imports: &[Import<'a>]) -> Result<Vec<Export<'a>>, NoMemory>
    ensures read { IfOk result (λ wanted. plain_exports wanted.items ≡ map what_it_wants (plain_imports imports.now)) }
    ensures named { IfErr result (λ e. e ≡ Allocation) }
{
    let mut wanted = Vec::new(alloc);
    for import in imports {
        wanted.push(wanted_by(import))?;
    }
    Ok(wanted)
}

// The place of the export that each import binds to.
fn places_of(
    alloc: Global,
    imports: &[Import],
    exports: &[Export],
) -> Result<List<Option<usize>>, NoMemory>
    ensures read { IfOk result (λ places. places
        ≡ map (spec.place_of (plain_exports exports.now)) (plain_imports imports.now)) }
    ensures named { IfErr result (λ e. e ≡ Allocation) }
{
    let wanted = wanted(alloc, imports)?;
    let places = bind_all(alloc, &wanted, exports)?;
    Ok(places)
}

// How many of these imports bind to one of these exports, and which ones a library with these exports lacks.
fn links_of<'a>(
    alloc: Global,
    imports: &[Import<'a>],
    exports: &[Export],
    symbols: &[Symbol],
) -> Result<Links<'a>, NoMemory>
    ensures bound { IfOk result (λ links. links.bound
        ≡ count_by (is_bound (plain_exports exports.now)) (plain_imports imports.now)) }
    ensures lacking { IfOk result (λ links. map (λ name. name.now) links.lacking.items
        ≡ lacking_names (plain_symbols symbols.now) (plain_exports exports.now) (plain_imports imports.now)) }
    ensures named { IfErr result (λ e. e ≡ Allocation) }
{
    let places = places_of(alloc, imports, exports)?;
    let places = places.as_slice();
    let mut bound = 0;
    let mut lacking = Vec::new(alloc);
    for index in 0..imports.len() {
        if places[index].is_some() {
            bound += 1;
        } else if is_missed(&imports[index], symbols) {
            lacking.push(imports[index].name)?;
        }
    }
    Ok(Links { bound, lacking })
}

// The links to a library that the application does not list as needed: it lacks no import.
fn unlisted<'a>(alloc: Global, links: &Links) -> Links<'a>
    ensures bound { result.bound ≡ links.now.bound }
    ensures lacking { result.lacking.items ≡ [] }
{
    Links {
        bound: links.bound,
        lacking: Vec::new(alloc),
    }
}

// How an application with these symbols and imports and what a library offers fit together.
fn links_to<'a>(
    alloc: Global,
    file: &ElfFile,
    symbols: &[Symbol],
    imports: &[Import<'a>],
    offered: &Offered,
) -> Result<Links<'a>, NoMemory>
    ensures bound { IfOk result (λ links. links.bound
        ≡ count_by (is_bound (plain_exports offered.now.exports.items)) (spec.imports_from (option_copied offered.now.soname) (plain_imports imports.now))) }
    ensures lacking { IfOk result (λ links. map (λ name. name.now) links.lacking.items
        ≡ (if lists_it file.now (option_copied offered.now.soname) then lacking_names (plain_symbols symbols.now) (plain_exports offered.now.exports.items) (spec.imports_from (option_copied offered.now.soname) (plain_imports imports.now)) else [])) }
    ensures past { IfErr result (λ e. OnLimit e (PassesSoname file.now (option_copied offered.now.soname))) }
{
    let imports = imports_from(alloc, imports, offered.soname)?;
    let links = links_of(alloc, &imports, &offered.exports, symbols)?;
    if lists_soname(file, offered.soname)? {
        Ok(links)
    } else {
        Ok(unlisted(alloc, &links))
    }
}

// How an application with these symbols and imports and a library fit together.
#[tactic(auto, using(crate::proofs::LimitLemmas::library_pass))]
fn links_with<'a>(
    alloc: Global,
    file: &ElfFile,
    symbols: &[Symbol],
    imports: &[Import<'a>],
    library: &[u8],
) -> Result<Links<'a>, Refusal>
    requires short { length library.now ≤ input_limit }
    requires symbols { plain_symbols symbols.now ≡ symbols_of file.now }
    requires imports { plain_imports imports.now ≡ imports_of file.now }
    ensures judged { Judges result (library_fault library.now) }
    ensures bound { IfOk result (λ links. links.bound ≡ bound_between file.now library.now) }
    ensures lacking { IfOk result (λ links. map (λ name. name.now) links.lacking.items
        ≡ lacking_between file.now library.now) }
    ensures past { IfErr result (λ e. OnPast e (OfferedPass file.now library.now)) }
{
    let offered = read_offered(alloc, library)?;
    Ok(links_to(alloc, file, symbols, imports, &offered)?)
}

/// How an application and a library fit together, from their bytes. `lacking` is empty if the application does not list the library
/// as needed. Err is the first fault of the application, else the first one of the library, or `NoMemory`.
#[tactic(auto, using(crate::proofs::LimitLemmas::app_symbols_pass, crate::proofs::LimitLemmas::app_imports_pass, crate::proofs::LimitLemmas::offered_pass), unfolding(crate::specs::Imports::app_fault))]
pub fn links_between<'a>(alloc: Global, app: &'a [u8], library: &[u8]) -> Result<Links<'a>, Refusal>
    requires app_short { length app.now ≤ input_limit }
    requires library_short { length library.now ≤ input_limit }
    ensures judged { Judges result (links_fault app.now library.now) }
    ensures bound { IfOk result (λ links. links.bound ≡ bound_between app.now library.now) }
    ensures lacking { IfOk result (λ links. map (λ name. name.now) links.lacking.items
        ≡ lacking_between app.now library.now) }
    ensures past { IfErr result (λ e. OnPast e (LinksPass app.now library.now)) }
{
    let file = read_elf(app)?;
    let symbols = symbols(alloc, &file)?;
    soname(&file)?;
    let imports = imports_among(alloc, &file, &symbols)?;
    links_with(alloc, &file, &symbols, &imports, library)
}
