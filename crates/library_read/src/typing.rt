// The types of exports.
ghost use Rattle.std.specs.Prelude.{◌≡◌, ◌<◌, ◌^◌, length, map, All, IfErr, IfOk, IfSome};
ghost use Rattle.abi_base.specs.Outcome.{Judges, OnLimit, OnPast};
ghost use Rattle.abi_base.specs.declared.fault.NoMemory.TheVariants.{Allocation};
ghost use Rattle.abi_types.specs.Plain.{plain_export, plain_exports};
ghost use Rattle.dwarf_entries.specs.Limits.{DebugPasses};
ghost use Rattle.dwarf_entries.specs.Pass.{dwarf_fault};
ghost use Rattle.type_reach.specs.Faults.{types_fault};
ghost use Rattle.type_reach.specs.Views as views;
ghost use Rattle.type_graph.specs.Nodes.{nodes_of};
ghost use Rattle.library_read.specs.Debug.{debug_of, sections_in};
ghost use Rattle.library_read.specs.Exports as exports_spec;
ghost use Rattle.library_read.specs.Faults.{debug_fault};
ghost use Rattle.library_read.specs.Limits.{DebugPass, PassesDeclared, TypedPass};

use abi_base::{Budget, Limit, List, NoMemory, Refusal};
use abi_types::{Export, Graph, Index, SymbolKind};
use dwarf_entries::{Dwarf, tree};
use dwarf_tree::EntryNumber;
use elf::file::ElfFile;
use elf::sections::debug_sections;
use std::alloc::Global;
use type_graph::raw_graph;

/// Exports with their types.
#[derive(Drop)]
pub(crate) struct Typed<'a, Ix: Index> {
    /// The exports, in the order of their symbols.
    pub exports: List<Export<'a>>,
    /// The types that they reach. Functions have no places of calls yet.
    pub graph: Graph<'a, Ix>,
}

// Whether the value of an export's symbol is its own address.
fn has_address(export: &Export) -> bool
    ensures { result ≡ exports_spec.has_address (plain_export export.now) }
{
    match export.kind {
        SymbolKind::Tls | SymbolKind::Ifunc => false,
        _ => !export.absolute,
    }
}

// The entry that says what an export is, where there is one.
#[tactic(auto, unfolding(crate::specs::Exports::entry_for))]
fn entry_for(dwarf: &Dwarf, export: &Export) -> Option<EntryNumber>
    ensures entry { result ≡ exports_spec.entry_for dwarf.now (plain_export export.now) }
    ensures inside { IfSome result (λ e. e < length dwarf.now.tree.entries) }
{
    if has_address(export) {
        dwarf.typed(export.value)
    } else {
        None
    }
}

// The name under which an export is declared, by its entry, or else that of its symbol.
fn declared_by<'a>(dwarf: &Dwarf<'a>, symbol: &'a [u8], entry: Option<EntryNumber>) -> &'a [u8]
    requires { IfSome entry (λ e. e < length dwarf.now.tree.entries) }
    ensures { result.now ≡ exports_spec.declared_by dwarf.now symbol.now entry }
{
    match entry {
        Some(e) => match dwarf.name_of(e) {
            Some(name) => name,
            None => symbol,
        },
        None => symbol,
    }
}

// The offset of an entry, and 0 where there is none.
fn offset_of(dwarf: &Dwarf, entry: Option<EntryNumber>) -> u64
    requires { IfSome entry (λ e. e < length dwarf.now.tree.entries) }
    ensures { result ≡ views.offset_of dwarf.now.tree entry }
{
    match entry {
        Some(e) => dwarf.offset(e).get(),
        None => 0,
    }
}

// The export, with what its entry says.
#[tactic(auto, unfolding(crate::specs::Exports::typed))]
fn with_type<'a>(dwarf: &Dwarf<'a>, export: &Export<'a>) -> Export<'a>
    ensures { plain_export result ≡ exports_spec.typed dwarf.now (plain_export export.now) }
{
    let entry = entry_for(dwarf, export);
    let wanted = &entry;
    Export {
        declared: declared_by(dwarf, export.name, *wanted),
        entry: offset_of(dwarf, *wanted),
        ..*export
    }
}

// The exports, each with what its entry says. The entries of all exports may have one long name, so names are counted: finding a
// name's end takes as many steps as the name has letters.
fn typed_exports<'a>(
    dwarf: &Dwarf<'a>,
    mut exports: Vec<Export<'a>>,
    bytes: usize,
) -> Result<List<Export<'a>>, NoMemory>
    requires { bytes < 2 ^ 38 }
    ensures typed { IfOk result (λ typed. plain_exports typed
        ≡ map (exports_spec.typed dwarf.now) (plain_exports exports.entry.items)) }
    ensures past { IfErr result (λ e. OnLimit e (PassesDeclared dwarf.now (plain_exports exports.entry.items) bytes)) }
{
    let mut letters = Budget::of(Limit::DeclaredNames, bytes);
    'exports: for k in 0..exports.len() {
        let export = with_type(dwarf, &exports[k]);
        letters.take(export.declared.len())?;
        exports[k] = export;
    }
    Ok(List::of(exports))
}

// The entries of exports, in the order of the exports.
#[tactic(auto, unfolding(crate::specs::Exports::roots_among))]
fn roots_among(
    alloc: Global,
    dwarf: &Dwarf,
    exports: &[Export],
) -> Result<Vec<EntryNumber>, NoMemory>
    ensures roots { IfOk result (λ roots. roots.items
        ≡ exports_spec.roots_among dwarf.now (plain_exports exports.now)) }
    ensures inside { IfOk result (λ roots. All (λ root. root < length dwarf.now.tree.entries) roots.items) }
    ensures named { IfErr result (λ e. e ≡ Allocation) }
{
    let mut roots = Vec::new(alloc);
    'exports: for k in 0..exports.len() {
        if let Some(root) = entry_for(dwarf, &exports[k]) {
            roots.push(root)?;
        }
    }
    Ok(roots)
}

// The debug information of a file.
#[tactic(auto, unfolding(crate::specs::Debug::debug_of), using(crate::proofs::DebugLemmas::sections_are))]
fn debug_information<'a>(alloc: Global, file: &ElfFile<'a>) -> Result<Dwarf<'a>, Refusal>
    ensures judged { Judges result (dwarf_fault (sections_in file.now)) }
    ensures read { IfOk result (λ dwarf. dwarf ≡ debug_of file.now) }
    ensures past { IfErr result (λ e. OnPast e (DebugPasses (sections_in file.now))) }
{
    tree(alloc, debug_sections(file))
}

// The exports with their types, by the debug information of their file, which has this many bytes.
#[tactic(auto, using(crate::proofs::LimitLemmas::graph_pass, crate::proofs::LimitLemmas::declared_pass))]
fn types_in<'a, Ix: Index>(
    alloc: Global,
    dwarf: &Dwarf<'a>,
    exports: Vec<Export<'a>>,
    bytes: usize,
) -> Result<Typed<'a, Ix>, Refusal>
    requires { bytes < 2 ^ 38 }
    ensures judged { Judges result (types_fault dwarf.now
        (exports_spec.roots_among dwarf.now (plain_exports exports.entry.items))) }
    ensures exports { IfOk result (λ typed. plain_exports typed.exports
        ≡ map (exports_spec.typed dwarf.now) (plain_exports exports.entry.items)) }
    ensures graph { IfOk result (λ typed. typed.graph
        ≡ nodes_of dwarf.now (exports_spec.roots_among dwarf.now (plain_exports exports.entry.items))) }
    ensures past { IfErr result (λ e. OnPast e (TypedPass dwarf.now (plain_exports exports.entry.items) bytes)) }
{
    let roots = roots_among(alloc, dwarf, exports.as_slice())?;
    let graph = match raw_graph(alloc, dwarf, roots.as_slice(), bytes) {
        Ok(graph) => graph,
        Err(refused) => return Err(refused),
    };
    let exports = typed_exports(dwarf, exports, bytes)?;
    Ok(Typed { exports, graph })
}

/// The exports of a file with their types, and its debug information. The fault is the first one of its units and entries, and
/// then of the types that the exports reach. The types and names borrow nothing from the debug information, which may be freed
/// before them. The limits are those for a file with this many bytes.
#[tactic(auto, using(crate::proofs::LimitLemmas::debug_pass, crate::proofs::LimitLemmas::typed_pass), unfolding(crate::specs::Faults::debug_fault))]
pub(crate) fn with_types<'a, Ix: Index>(
    alloc: Global,
    file: &ElfFile<'a>,
    exports: Vec<Export<'a>>,
    bytes: usize,
) -> Result<(Typed<'a, Ix>, Dwarf<'a>), Refusal>
    requires { bytes < 2 ^ 38 }
    ensures judged { Judges result (debug_fault file.now (plain_exports exports.entry.items)) }
    ensures exports { IfOk result (λ read. plain_exports read.0.exports
        ≡ map (exports_spec.typed (debug_of file.now)) (plain_exports exports.entry.items)) }
    ensures graph { IfOk result (λ read. read.0.graph
        ≡ nodes_of (debug_of file.now) (exports_spec.roots_among (debug_of file.now) (plain_exports exports.entry.items))) }
    ensures debug { IfOk result (λ read. read.1 ≡ debug_of file.now) }
    ensures past { IfErr result (λ e. OnPast e (DebugPass file.now (plain_exports exports.entry.items) bytes)) }
{
    let dwarf = match debug_information(alloc, file) {
        Ok(dwarf) => dwarf,
        Err(refused) => return Err(refused),
    };
    let typed = match types_in(alloc, &dwarf, exports, bytes) {
        Ok(typed) => typed,
        Err(refused) => return Err(refused),
    };
    Ok((typed, dwarf))
}
