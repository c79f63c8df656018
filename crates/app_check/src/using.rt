// The exports of a library that an application uses.
ghost use Rattle.std.specs.Prelude.{◌≡◌, ℕ, nat_eq, length, map, filter, IfErr, IfOk};
ghost use Rattle.abi_base.specs.declared.fault.NoMemory.TheVariants.{Allocation};
ghost use Rattle.std.specs.HashSet.{contains};
ghost use Rattle.std.specs.List.{range_with_len, list_any};
ghost use Rattle.std.specs.Option.{option_copied};
ghost use Rattle.abi_types.specs.Plain.{plain_export, plain_exports};
ghost use Rattle.app_check.specs.Plain.{plain_import, plain_imports};
ghost use Rattle.app_check.specs.Used.{wanted_by as what_it_wants, is_at, used_exports};
ghost use Rattle.app_check.specs.Used as spec;

use crate::import::Import;
use abi_base::NoMemory;
use abi_types::{Export, SymbolKind};
use elf_bind::{bind_all, same_name};
use std::alloc::Global;
use std::collections::HashSet;

/// The export that an import looks for. Binding reads only its name and its version.
pub(crate) fn wanted_by<'a>(import: &Import<'a>) -> Export<'a>
    ensures { plain_export result ≡ what_it_wants (plain_import import.now) }
{
    Export {
        symbol: import.symbol,
        name: import.name,
        version: match import.need {
            Some(need) => Some(need.version),
            None => None,
        },
        index: 0,
        hidden: false,
        kind: SymbolKind::NoType,
        absolute: false,
        value: 0,
        size: 0,
        declared: import.name,
        entry: 0,
    }
}

/// Whether the file with this soname may define an import.
pub(crate) fn may_come_from(import: &Import, soname: Option<&[u8]>) -> bool
    ensures { result ≡ spec.may_come_from (option_copied soname.entry) (plain_import import.now) }
{
    match import.need {
        Some(need) => same_name(Some(need.file), soname),
        None => true,
    }
}

// The exports that the imports look for, if the file with this soname may define them. The file of each is compared.
fn wanted_of<'a>(
    alloc: Global,
    imports: &[Import<'a>],
    soname: Option<&[u8]>,
) -> Result<Vec<Export<'a>>, NoMemory>
    ensures read { IfOk result (λ wanted. plain_exports wanted.items
        ≡ map what_it_wants (filter (spec.may_come_from (option_copied soname.entry)) (plain_imports imports.now))) }
    ensures named { IfErr result (λ e. e ≡ Allocation) }
{
    let mut wanted = Vec::new(alloc);
    for import in imports {
        if may_come_from(import, soname) {
            wanted.push(wanted_by(import))?;
        }
    }
    Ok(wanted)
}

// The set of the positions found.
fn found_places(alloc: Global, places: &[Option<usize>]) -> Result<HashSet<usize>, NoMemory>
    ensures read { IfOk result (λ found. (k : ℕ) → contains nat_eq found k ≡ list_any (is_at k) places.now) }
    ensures named { IfErr result (λ e. e ≡ Allocation) }
{
    let mut found = HashSet::new(alloc);
    for place in places {
        if let Some(place) = place {
            found.insert(*place)?;
        }
    }
    Ok(found)
}

// For each of this many positions, whether it was found.
#[tactic(auto, using(crate::proofs::Places::marked_more))]
fn marked(alloc: Global, found: &HashSet<usize>, count: usize) -> Result<Vec<bool>, NoMemory>
    ensures read { IfOk result (λ marked. marked.items ≡ map (contains nat_eq found.now) (range_with_len 0 count)) }
    ensures named { IfErr result (λ e. e ≡ Allocation) }
{
    let mut marked = Vec::new(alloc);
    for place in 0..count {
        marked.push(found.contains(&place))?;
    }
    Ok(marked)
}

/// For each export of a library, whether an import binds to it. An import without a version binds like an export without a version.
/// One with a version binds by name and version if its file is the library's soname. Each import is looked up in orders of the
/// exports, so its version and its file are compared, whose bytes `read_app` bounds for all imports together.
pub fn used(
    alloc: Global,
    imports: &[Import],
    soname: Option<&[u8]>,
    old: &[Export],
) -> Result<Vec<bool>, NoMemory>
    ensures used { IfOk result (λ used. used.items
        ≡ used_exports (plain_imports imports.now) (option_copied soname.entry) (plain_exports old.now)) }
    ensures named { IfErr result (λ e. e ≡ Allocation) }
{
    let wanted = wanted_of(alloc, imports, soname)?;
    let places = bind_all(alloc, &wanted, old)?;
    let found = found_places(alloc, places.as_slice())?;
    let used = marked(alloc, &found, old.len())?;
    Ok(used)
}
