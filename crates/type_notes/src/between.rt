// What differs between two types.
ghost use Rattle.std.specs.Prelude.{◌≡◌, ◌++◌, OnOk};
ghost use Rattle.dwarf_tree.specs.Trees.{entry_of};
ghost use Rattle.type_notes.specs.Between.{differences, entry_changes, node_changes, object_entry_changes, view_changes};
ghost use Rattle.type_notes.specs.Chains as chains;
ghost use Rattle.type_notes.specs.TypePairs.{AreNodes, new_node, new_nodes, new_view, old_node, old_nodes, old_view};

use crate::chain::core_at;
use crate::difference::{Difference, push_found};
use crate::entries::{EntryPair, push_changes, push_object_changes};
use crate::packing::packing_change;
use crate::padding::push_padding_changes;
use crate::type_names::name_change;
use crate::type_pair::TypePair;
use crate::unions::union_change;
use abi_base::{List, NoMemory};
use dwarf_entries::Dwarf;
use dwarf_forms::DebugInfoOffset;
use std::alloc::Global;

/// The debug entries of two libraries.
#[derive(Drop)]
pub struct DwarfPair<'x, 'd> {
    /// The entries of the old library.
    pub old: &'x Dwarf<'d>,
    /// The entries of the new library.
    pub new: &'x Dwarf<'d>,
}

// Adds the differences of two entries as types, if both exist.
fn push_entry_changes(
    alloc: Global,
    list: &mut List<Difference>,
    dwarfs: &DwarfPair,
    types: &TypePair,
) -> Result<(), NoMemory>
    requires { AreNodes types.now }
    ensures { OnOk result (list.new
        ≡ list.old ++ entry_changes dwarfs.now.old.now dwarfs.now.new.now (chains.core_at dwarfs.now.old.now.tree (old_node types.now).entry) (chains.core_at dwarfs.now.new.now.tree (new_node types.now).entry)) }
{
    let old = core_at(
        dwarfs.old,
        DebugInfoOffset::new(types.old_graph.entry_of(types.old)),
    );
    let new = core_at(
        dwarfs.new,
        DebugInfoOffset::new(types.new_graph.entry_of(types.new)),
    );
    match (old, new) {
        (Some(old), Some(new)) => {
            let pair = EntryPair {
                old_dwarf: dwarfs.old,
                new_dwarf: dwarfs.new,
                old,
                new,
            };
            push_changes(alloc, list, &pair)
        }
        _ => Ok(()),
    }
}

// Adds the differences of two entries as objects, if both exist.
fn push_object_entry_changes(
    alloc: Global,
    list: &mut List<Difference>,
    dwarfs: &DwarfPair,
    types: &TypePair,
) -> Result<(), NoMemory>
    requires { AreNodes types.now }
    ensures { OnOk result (list.new
        ≡ list.old ++ object_entry_changes dwarfs.now.old.now dwarfs.now.new.now (entry_of dwarfs.now.old.now.tree (old_node types.now).entry) (entry_of dwarfs.now.new.now.tree (new_node types.now).entry)) }
{
    let old = dwarfs
        .old
        .find(DebugInfoOffset::new(types.old_graph.entry_of(types.old)));
    let new = dwarfs
        .new
        .find(DebugInfoOffset::new(types.new_graph.entry_of(types.new)));
    match (old, new) {
        (Some(old), Some(new)) => {
            let pair = EntryPair {
                old_dwarf: dwarfs.old,
                new_dwarf: dwarfs.new,
                old,
                new,
            };
            push_object_changes(alloc, list, &pair)
        }
        _ => Ok(()),
    }
}

// Adds the differences between the views of two types.
fn push_view_changes(
    alloc: Global,
    list: &mut List<Difference>,
    types: &TypePair,
) -> Result<(), NoMemory>
    requires { AreNodes types.now }
    ensures { OnOk result (list.new
        ≡ list.old ++ view_changes (old_nodes types.now) (new_nodes types.now) (old_view types.now) (new_view types.now)) }
{
    let old = types.old_graph.view(types.old);
    let new = types.new_graph.view(types.new);
    push_found(list, union_change(alloc, old, new)?)?;
    push_padding_changes(alloc, list, types)
}

// Adds the differences in the names and the packing of two types.
fn push_node_changes(
    alloc: Global,
    list: &mut List<Difference>,
    types: &TypePair,
) -> Result<(), NoMemory>
    requires { AreNodes types.now }
    ensures { OnOk result (list.new
        ≡ list.old ++ node_changes (old_nodes types.now) (new_nodes types.now) types.now.old types.now.new) }
{
    push_found(list, name_change(alloc, types)?)?;
    push_found(list, packing_change(alloc, types)?)
}

/// Adds the differences between two types that no rule judges: those of their entries, in order of aspects; `const` or `volatile`
/// on only one of two objects; a union without members; new members in the padding of the old type; the names; and packing of only
/// one type.
#[tactic(auto, unfolding(crate::specs::Between::differences))]
pub fn push_differences(
    alloc: Global,
    list: &mut List<Difference>,
    dwarfs: &DwarfPair,
    types: &TypePair,
) -> Result<(), NoMemory>
    requires { AreNodes types.now }
    ensures { OnOk result (list.new
        ≡ list.old ++ differences dwarfs.now.old.now dwarfs.now.new.now (old_nodes types.now) (new_nodes types.now) types.now.old types.now.new) }
{
    push_entry_changes(alloc, list, dwarfs, types)?;
    push_object_entry_changes(alloc, list, dwarfs, types)?;
    push_view_changes(alloc, list, types)?;
    push_node_changes(alloc, list, types)
}
