// The binding of exports, by the positions of the exports offered of one name and of one version.
ghost use Rattle.std.specs.Prelude.{◌≡◌, ◌||◌, find, is_some, slice_get, count_by, IfOk, OnOk, IfErr};
ghost use Rattle.std.specs.Option.{option_copied};
ghost use Rattle.abi_base.specs.declared.fault.NoMemory.TheVariants.{Allocation};
ghost use Rattle.abi_types.specs.Names.{IsNameOrder};
ghost use Rattle.abi_types.specs.Plain.{plain_export, plain_exports};
ghost use Rattle.abi_types.specs.Versions.{IsVersionOrder};
ghost use Rattle.elf_bind.specs.Binding.{bind_each, bind_to};
ghost use Rattle.elf_bind.specs.Binding as spec;
ghost use Rattle.elf_bind.specs.Named.{passes_at, only_default_version_among, some_version_among, some_version_of, AreAnswers};

use abi_base::{List, NoMemory};
use abi_types::{Export, Index, Library, name_order_of, named_in, version_order_of, versioned_in};
use std::alloc::Global;
use std::collections::BTreeMap;

// The index of the first version of a library. Symbols that were linked before a library had versions bind to it.
const FIRST_VERSION: u16 = 2;

// Whether an export has this name and is of the first version of its library.
fn has_first_version(export: &Export, name: &[u8]) -> bool
    ensures { result ≡ spec.has_first_version name.now (plain_export export.now) }
{
    export.name == name && export.index == FIRST_VERSION
}

// Whether an export has this name and its version is the default one.
fn is_default_version(export: &Export, name: &[u8]) -> bool
    ensures { result ≡ spec.is_default_version name.now (plain_export export.now) }
{
    export.name == name && export.version.is_some() && !export.hidden
}

// Whether the export at a position has this name and is of the first version of its library.
#[tactic(auto, using(crate::proofs::NamedLemmas::reads))]
fn has_first_version_at(offered: &[Export], place: usize, name: &[u8]) -> bool
    ensures { result ≡ passes_at (spec.has_first_version name.now) (plain_exports offered.now) place }
{
    match offered.get(place) {
        Some(export) => has_first_version(export, name),
        None => false,
    }
}

// Whether the export at a position has this name and its version is the default one.
#[tactic(auto, using(crate::proofs::NamedLemmas::reads))]
fn is_default_version_at(offered: &[Export], place: usize, name: &[u8]) -> bool
    ensures { result ≡ passes_at (spec.is_default_version name.now) (plain_exports offered.now) place }
{
    match offered.get(place) {
        Some(export) => is_default_version(export, name),
        None => false,
    }
}

// The first of these positions whose export has this name and is of the first version.
fn place_of_first_version(offered: &[Export], places: &[usize], name: &[u8]) -> Option<usize>
    ensures { result ≡ find (passes_at (spec.has_first_version name.now) (plain_exports offered.now)) places.now }
{
    places
        .iter()
        .copied()
        .find(|place| has_first_version_at(offered, *place, name))
}

fn count_of_default_versions(offered: &[Export], places: &[usize], name: &[u8]) -> usize
    ensures { result ≡ count_by (passes_at (spec.is_default_version name.now) (plain_exports offered.now)) places.now }
{
    places
        .iter()
        .filter(|place| is_default_version_at(offered, **place, name))
        .count()
}

fn place_of_default_version(offered: &[Export], places: &[usize], name: &[u8]) -> Option<usize>
    ensures { result ≡ find (passes_at (spec.is_default_version name.now) (plain_exports offered.now)) places.now }
{
    places
        .iter()
        .copied()
        .find(|place| is_default_version_at(offered, *place, name))
}

// The only one of these positions whose export has this name and a default version.
fn place_of_only_default_version(offered: &[Export], places: &[usize], name: &[u8]) -> Option<usize>
    ensures { result ≡ only_default_version_among name.now places.now (plain_exports offered.now) }
{
    if count_of_default_versions(offered, places, name) == 1 {
        place_of_default_version(offered, places, name)
    } else {
        None
    }
}

// The one of these positions that an export without a version binds to, where each export there has a version.
fn place_of_some_version(offered: &[Export], places: &[usize], name: &[u8]) -> Option<usize>
    ensures { result ≡ some_version_among name.now places.now (plain_exports offered.now) }
{
    match place_of_first_version(offered, places, name) {
        Some(place) => Some(place),
        None => place_of_only_default_version(offered, places, name),
    }
}

// The first of some positions.
fn first_of(places: &[usize]) -> Option<usize>
    ensures { result ≡ slice_get places.now 0 }
{
    places.first().copied()
}

// Whether an export with or without a version binds to what has its name and its version, or to nothing.
fn is_settled(exact: Option<usize>, version: Option<&[u8]>) -> bool
    ensures { result ≡ (is_some exact || is_some (option_copied version.entry)) }
{
    exact.is_some() || version.is_some()
}

/// The place among the exports of a library that an export binds to, or none exactly where it binds to none: by name and version; an
/// export without a version binds to the one without a version of its name, else to the one of index 2, else to the only one whose
/// version is the default one. It takes no memory, and for an export with a version the time of two binary searches. For one without
/// a version it may look at each of the library's exports of that name.
pub fn bind_in<Ix: Index>(wanted: &Export, offered: &Library<Ix>) -> Option<usize>
    ensures { result ≡ bind_to offered.now.exports (plain_export wanted.now) }
{
    let exact = first_of(offered.exports_of_version(wanted.name, wanted.version));
    if is_settled(exact, wanted.version) {
        return exact;
    }
    let places = offered.exports_named(wanted.name);
    place_of_some_version(offered.exports(), places, wanted.name)
}

// The place that an export of this name without a version binds to, where each export of the name has a version. These exports are
// looked at once, however often the name is asked for: the answer stands under the position of the first of them.
fn place_of_some_version_once(
    offered: &[Export],
    name_order: &[usize],
    answers: &mut BTreeMap<usize, Option<usize>>,
    name: &[u8],
) -> Result<Option<usize>, NoMemory>
    requires names { IsNameOrder name_order.now (plain_exports offered.now) }
    requires known { AreAnswers answers.old (plain_exports offered.now) }
    ensures place { IfOk result (λ place. place ≡ some_version_of name.now (plain_exports offered.now)) }
    ensures known { OnOk result (AreAnswers answers.new (plain_exports offered.now)) }
    ensures named { IfErr result (λ e. e ≡ Allocation) }
{
    let places = named_in(offered, name_order, name);
    let Some(first) = first_of(places) else {
        return Ok(place_of_some_version(offered, places, name));
    };
    if let Some(answer) = answers.get(&first) {
        return Ok(*answer);
    }
    let answer = place_of_some_version(offered, places, name);
    answers.insert(first, answer)?;
    Ok(answer)
}

// The place among the exports offered, with their orders by name and by version, that an export binds to.
fn place_for(
    wanted: &Export,
    offered: &[Export],
    name_order: &[usize],
    version_order: &[usize],
    answers: &mut BTreeMap<usize, Option<usize>>,
) -> Result<Option<usize>, NoMemory>
    requires names { IsNameOrder name_order.now (plain_exports offered.now) }
    requires versions { IsVersionOrder version_order.now (plain_exports offered.now) }
    requires known { AreAnswers answers.old (plain_exports offered.now) }
    ensures place { IfOk result (λ place. place ≡ bind_to (plain_exports offered.now) (plain_export wanted.now)) }
    ensures known { OnOk result (AreAnswers answers.new (plain_exports offered.now)) }
    ensures named { IfErr result (λ e. e ≡ Allocation) }
{
    let versioned = versioned_in(offered, version_order, wanted.name, wanted.version);
    let exact = first_of(versioned);
    if is_settled(exact, wanted.version) {
        return Ok(exact);
    }
    let place = place_of_some_version_once(offered, name_order, answers, wanted.name)?;
    Ok(place)
}

/// What `bind_in` gives for each of the exports, in their order. It sorts the positions of the exports offered, so its time grows
/// little faster than the number of exports, whatever their names and versions are.
pub fn bind_all(
    alloc: Global,
    wanted: &[Export],
    offered: &[Export],
) -> Result<List<Option<usize>>, NoMemory>
    ensures places { IfOk result (λ places. places ≡ bind_each (plain_exports wanted.now) (plain_exports offered.now)) }
    ensures named { IfErr result (λ e. e ≡ Allocation) }
{
    let name_order = name_order_of(alloc, offered)?;
    let version_order = version_order_of(alloc, offered)?;
    let mut answers = BTreeMap::new(alloc);
    let mut places = List::new(alloc);
    for export in wanted {
        let place = place_for(export, offered, &name_order, &version_order, &mut answers)?;
        places.push(place)?;
    }
    Ok(places)
}
