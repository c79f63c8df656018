// The names of the types in breaks.
ghost use Rattle.std.specs.Prelude.{◌<◌, length};

use abi_base::dwarf::{
    DW_AT_name, DW_AT_str_offsets_base, DW_AT_type, DW_TAG_base_type, DW_TAG_enumeration_type,
    DW_TAG_structure_type, DW_TAG_typedef, DW_TAG_union_type,
};
use abi_base::{Effort, NoMemory};
use dwarf_forms::{DebugInfoOffset, Sections, Value as Attribute};
use dwarf_text::{Bases, text};
use dwarf_tree::{EntryNumber, Tree};
use std::alloc::{AllocError, Global};
use std::collections::HashMap;
use std::str;

/// The entries of a library, and the sections that hold their names.
#[derive(Clone, Copy)]
pub(crate) struct NamedEntries<'x> {
    /// The tree of entries.
    pub tree: &'x Tree<'x>,
    /// The sections.
    pub sections: Sections<'x>,
}

/// For each type that typedefs name, the first one of them: both by the offsets of their entries.
pub(crate) type Typedefs = HashMap<u64, u64>;

/// The names of a library's types, with a budget for those of typedefs: many typedefs can share one long name.
#[derive(Drop)]
pub(crate) struct TypeNames<'x> {
    /// The entries.
    pub entries: NamedEntries<'x>,
    /// The typedefs that can name types without a tag.
    pub typedefs: Typedefs,
    /// The budget.
    pub effort: Effort,
}

// The keyword in front of the name of a type with this tag in C; `None` if such a type has no name of its own.
fn keyword(tag: u64) -> Option<&'static str> {
    match tag {
        DW_TAG_structure_type => Some("struct "),
        DW_TAG_union_type => Some("union "),
        DW_TAG_enumeration_type => Some("enum "),
        DW_TAG_typedef | DW_TAG_base_type => Some(""),
        _ => None,
    }
}

// The bases of the strings in an entry's unit.
fn bases_of(tree: &Tree<'_>, e: EntryNumber) -> Bases
    requires { e < length tree.now.entries }
{
    tree.known();
    let root = tree.root(tree.unit(e));
    let str_offsets = match tree.own(root, DW_AT_str_offsets_base) {
        Some(Attribute::SectionOffset(place)) => Some(place),
        _ => None,
    };
    Bases {
        str_offsets,
        addr: None,
        rnglists: None,
        low: 0,
    }
}

// The name in an entry's own attributes.
fn own_name<'x>(entries: &NamedEntries<'x>, e: EntryNumber) -> Option<&'x [u8]>
    requires { e < length entries.now.tree.now.entries }
{
    let tree = entries.tree;
    let Some(value) = tree.own(e, DW_AT_name) else {
        return None;
    };
    let bases = bases_of(tree, e);
    match text(&value, &bases, &entries.sections, tree.offset(e)) {
        Ok(name) => Some(name),
        Err(_) => None,
    }
}

// The name of the first typedef of an entry. Its length is spent.
fn name_by_typedef<'x>(
    names: &mut TypeNames<'x>,
    offset: DebugInfoOffset,
) -> Result<Option<&'x [u8]>, NoMemory> {
    let Some(typedef) = names.typedefs.get(&offset.get()).copied() else {
        return Ok(None);
    };
    let Some(e) = names.entries.tree.find(DebugInfoOffset::new(typedef)) else {
        return Ok(None);
    };
    let Some(name) = own_name(&names.entries, e) else {
        return Ok(None);
    };
    names.effort.spend(name.len())?;
    Ok(Some(name))
}

// A name after its keyword, if the name is UTF-8.
fn written(alloc: Global, keyword: &str, name: &[u8]) -> Result<Option<String>, AllocError> {
    match str::from_utf8(name) {
        Ok(name) => Ok(Some(format!(in alloc; "{keyword}{name}")?)),
        Err(_) => Ok(None),
    }
}

/// Whether only a typedef can name the entry at an offset: it is a structure, a union or an enumeration without a tag.
pub(crate) fn lacks_tag(entries: &NamedEntries<'_>, offset: DebugInfoOffset) -> bool {
    let Some(e) = entries.tree.find(offset) else {
        return false;
    };
    keyword(entries.tree.tag(e)).is_some() && own_name(entries, e).is_none()
}

/// The C name of the type at an offset: a keyword and a tag, a typedef, or words such as `unsigned int`. It is `None` for types
/// without such a name, such as pointers and arrays.
pub(crate) fn type_name(
    alloc: Global,
    names: &mut TypeNames<'_>,
    offset: DebugInfoOffset,
) -> Result<Option<String>, NoMemory> {
    let entries = names.entries;
    let Some(e) = entries.tree.find(offset) else {
        return Ok(None);
    };
    let Some(keyword) = keyword(entries.tree.tag(e)) else {
        return Ok(None);
    };
    if let Some(name) = own_name(&entries, e) {
        return Ok(written(alloc, keyword, name)?);
    }
    match name_by_typedef(names, offset)? {
        Some(name) => Ok(written(alloc, "", name)?),
        None => Ok(None),
    }
}

// Records an entry, if it is the first typedef of its type.
fn keep_typedef(typedefs: &mut Typedefs, tree: &Tree<'_>, e: EntryNumber) -> Result<(), NoMemory>
    requires { e < length tree.now.entries }
{
    if tree.tag(e) != DW_TAG_typedef {
        return Ok(());
    }
    let value = tree.own(e, DW_AT_type);
    let target = match &value {
        Some(Attribute::Reference(target)) => target.get(),
        _ => return Ok(()),
    };
    if !typedefs.contains_key(&target) {
        typedefs.insert(target, tree.offset(e).get())?;
    }
    Ok(())
}

/// The first typedef of each type, among all entries.
pub(crate) fn typedefs_in(alloc: Global, tree: &Tree<'_>) -> Result<Typedefs, NoMemory> {
    let mut typedefs = HashMap::new(alloc);
    tree.known();
    for e in 0..tree.len() {
        keep_typedef(&mut typedefs, tree, EntryNumber::new(e as u32))?;
    }
    Ok(typedefs)
}
