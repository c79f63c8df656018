// The names of the types in breaks, and the source positions of their declarations.
ghost use Rattle.std.specs.Prelude.{◌≤◌, length};
ghost use Rattle.abi_base.specs.Limits.{input_limit};

use crate::names::{NamedEntries, TypeNames, Typedefs, lacks_tag, type_name, typedefs_in};
use abi_base::{Effort, Limit, NoMemory};
use dwarf_forms::DebugInfoOffset;
use elf::file::read_elf;
use elf::sections::debug_sections;
use entry_places::{EntryPlaces, PlaceReader};
use serde_json::{Map, Value, json, put};
use std::alloc::{AllocError, Global};
use std::collections::{HashMap, HashSet};
use std::str;

// A budget is 64 times a number of bytes (see `Effort`). Source positions may take eight bytes for each byte of the file, and a
// 32 mebibytes more, and so may the names of typedefs.
const FILE_BYTES: usize = 8;

const BYTES_BESIDE: usize = 524_288;

/// The source positions and the names of types, by the offsets of their entries.
#[derive(Drop)]
pub(crate) struct TypeFacts {
    /// The source positions.
    pub places: Map<String, Value>,
    /// The names.
    pub names: Map<String, Value>,
}

impl TypeFacts {
    /// No facts.
    pub(crate) fn none(alloc: Global) -> TypeFacts {
        TypeFacts {
            places: Map::new(alloc),
            names: Map::new(alloc),
        }
    }
}

// The budget for the source positions in a file of this length, or for the names of its typedefs.
fn effort_for(length: usize) -> Effort {
    let counted = (length / FILE_BYTES).saturating_add(BYTES_BESIDE);
    Effort::for_bytes(Limit::Report, counted)
}

// The object of a source position, or null.
fn place_value<'p>(
    alloc: Global,
    places: &mut PlaceReader<'p, 'p>,
    offset: DebugInfoOffset,
) -> Result<Value, NoMemory> {
    let Some(place) = places.place_of(alloc, offset)? else {
        return Ok(Value::Null);
    };
    match str::from_utf8(&place.file) {
        Ok(file) => Ok(json!(in alloc; {"file": file, "line": place.line})?),
        Err(_) => Ok(Value::Null),
    }
}

// Adds a fact about an entry under its offset.
fn put_fact(
    alloc: Global,
    map: &mut Map<String, Value>,
    offset: DebugInfoOffset,
    fact: Value,
) -> Result<(), AllocError> {
    let offset = offset.get();
    let key = format!(in alloc; "{offset}")?;
    put(map, alloc, key.as_str(), fact)
}

// Adds the source position of an entry under its offset, if it has one.
fn put_place<'p>(
    alloc: Global,
    map: &mut Map<String, Value>,
    places: &mut PlaceReader<'p, 'p>,
    offset: DebugInfoOffset,
) -> Result<(), NoMemory> {
    let place = place_value(alloc, places, offset)?;
    if place.is_null() {
        return Ok(());
    }
    put_fact(alloc, map, offset, place)?;
    Ok(())
}

// Adds the name of a type under the offset of its entry, if it has one.
fn put_name(
    alloc: Global,
    map: &mut Map<String, Value>,
    names: &mut TypeNames<'_>,
    offset: DebugInfoOffset,
) -> Result<(), NoMemory> {
    let Some(name) = type_name(alloc, names, offset)? else {
        return Ok(());
    };
    let name = Value::try_from_str(alloc, name.as_str())?;
    put_fact(alloc, map, offset, name)?;
    Ok(())
}

// The entries in a member of the breaks, each once.
fn entries_of(
    alloc: Global,
    breaks: &[Value],
    word: &str,
) -> Result<Vec<DebugInfoOffset>, NoMemory> {
    let mut known: HashSet<u64> = HashSet::new(alloc);
    let mut offsets = Vec::new(alloc);
    for row in breaks {
        if let Some(offset) = row.get(word).and_then(Value::as_u64) {
            if known.insert(offset)? {
                offsets.push(DebugInfoOffset::new(offset))?;
            }
        }
    }
    Ok(offsets)
}

// The typedefs of a library, if some type without a tag may have its name from one.
fn wanted_typedefs(
    alloc: Global,
    entries: &NamedEntries<'_>,
    offsets: &[DebugInfoOffset],
) -> Result<Typedefs, NoMemory> {
    for offset in offsets {
        if lacks_tag(entries, *offset) {
            return typedefs_in(alloc, entries.tree);
        }
    }
    Ok(HashMap::new(alloc))
}

// The source positions and the names of entries.
fn facts_by<'p>(
    alloc: Global,
    places: &mut PlaceReader<'p, 'p>,
    names: &mut TypeNames<'_>,
    offsets: &[DebugInfoOffset],
) -> Result<TypeFacts, NoMemory> {
    let mut facts = TypeFacts::none(alloc);
    for offset in offsets {
        put_place(alloc, &mut facts.places, places, *offset)?;
        put_name(alloc, &mut facts.names, names, *offset)?;
    }
    Ok(facts)
}

// The source positions and the names of entries of a library, given its entries and the length of its file.
fn facts_in(
    alloc: Global,
    places: &EntryPlaces<'_>,
    entries: NamedEntries<'_>,
    offsets: &[DebugInfoOffset],
    length: usize,
) -> Result<TypeFacts, NoMemory> {
    let typedefs = wanted_typedefs(alloc, &entries, offsets)?;
    let mut names = TypeNames {
        entries,
        typedefs,
        effort: effort_for(length),
    };
    let mut reader = PlaceReader::new(alloc, effort_for(length), places);
    facts_by(alloc, &mut reader, &mut names, offsets)
}

// The source positions and the names of entries of a library with these bytes.
fn facts_at(alloc: Global, bytes: &[u8], offsets: &[DebugInfoOffset]) -> Result<TypeFacts, NoMemory>
    requires { length bytes.now ≤ input_limit }
{
    let Ok(file) = read_elf(bytes) else {
        return Ok(TypeFacts::none(alloc));
    };
    let sections = debug_sections(&file);
    let line = file.section(b".debug_line").unwrap_or(&[]);
    let Some(places) = EntryPlaces::read(alloc, &sections, line)? else {
        return Ok(TypeFacts::none(alloc));
    };
    let entries = NamedEntries {
        tree: places.tree(),
        sections,
    };
    facts_in(alloc, &places, entries, offsets, bytes.len())
}

/// The source positions and the names of the entries in this member of the breaks, for a library with these bytes.
pub(crate) fn type_facts(
    alloc: Global,
    bytes: &[u8],
    breaks: &[Value],
    word: &str,
) -> Result<TypeFacts, NoMemory>
    requires { length bytes.now ≤ input_limit }
{
    let offsets = entries_of(alloc, breaks, word)?;
    if offsets.is_empty() {
        return Ok(TypeFacts::none(alloc));
    }
    facts_at(alloc, bytes, &offsets)
}
