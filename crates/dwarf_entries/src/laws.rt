//! Laws about debug information, as the contracts of functions with empty bodies.
ghost use Rattle.std.specs.Prelude.{◌≡◌, ◌<◌, ℕ, List, Some, None, true, false, is_some, length};
ghost use Rattle.dwarf_tree.specs.Trees.{PlainTree, IsOrdered, tree_of};
ghost use Rattle.abi_base.specs.Dwarf.{dw_at_name, dw_at_type};
ghost use Rattle.dwarf_entries.specs.Addresses.{is_typed_at, tag_at, typed_of};
ghost use Rattle.dwarf_entries.specs.Chains.{attribute_along, is_read_tag, name_of, signed_of};
ghost use Rattle.dwarf_entries.specs.Debug.{PlainDwarf};
ghost use Rattle.dwarf_entries.specs.First.{IsFirstEntry, IsOfFirstUnit};
ghost use Rattle.dwarf_entries.specs.Pass.{entry_fault};
ghost use Rattle.dwarf_entries.specs.Sound.{AreFaultless, IsSound, RefersThere};

use dwarf_units::laws::units_stand_one_after_another;

/// The entry for an address is the first entry at this address, and None means that there is none.
pub fn the_first_entry_stands_for_an_address()
    ensures found { (d : PlainDwarf) (address e : ℕ) → IsOrdered d.tree → typed_of d address ≡ Some e
        → IsFirstEntry d.tree (is_typed_at d address) e }
    ensures none { (d : PlainDwarf) (address e : ℕ) → typed_of d address ≡ None → e < length d.tree.entries
        → is_typed_at d address e ≡ false }
{}

/// The entry for a signature is the type entry of the first type unit with this signature.
pub fn the_first_unit_has_a_signature()
    ensures { (info abbrevs : List ℕ) (signature e : ℕ) → signed_of (tree_of info abbrevs) signature ≡ Some e
        → IsOfFirstUnit (tree_of info abbrevs) signature e }
{
    units_stand_one_after_another();
}

/// The name of an entry without a fault and with a supported tag is a string, the entries to which it refers exist, and its chain
/// has no more links than the limit.
pub fn an_entry_without_a_fault_is_sound()
    ensures { (d : PlainDwarf) (e : ℕ) → entry_fault d e ≡ None → is_read_tag (tag_at d.tree e) ≡ true → IsSound d e }
{}

/// If no entry has a fault, the type of an entry along its chain is an entry, and the entry has a name exactly when an entry of its
/// chain has one.
pub fn types_and_names_are_there()
    ensures types { (d : PlainDwarf) (e : ℕ) → AreFaultless d → e < length d.tree.entries
        → is_read_tag (tag_at d.tree e) ≡ true → RefersThere d.tree (attribute_along d.tree e dw_at_type) }
    ensures names { (d : PlainDwarf) (e : ℕ) → AreFaultless d → e < length d.tree.entries
        → is_read_tag (tag_at d.tree e) ≡ true → is_some (attribute_along d.tree e dw_at_name)
        ≡ is_some (name_of d e) }
{}
