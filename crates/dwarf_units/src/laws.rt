//! Laws about units and entries, as the contracts of functions with empty bodies.
ghost use Rattle.std.specs.Prelude.{◌≡◌, ◌↔◌, All, ℕ, List, Option, Some, None, Ok};
ghost use Rattle.dwarf_units.specs.HeaderLayout.{dwarf_4};
ghost use Rattle.abi_base.specs.Runs.{Chain, given};
ghost use Rattle.abi_base.specs.declared.fault.Fault.{Fault};
ghost use Rattle.dwarf_units.specs.declared.entry.Entry.{Entry};
ghost use Rattle.dwarf_units.specs.Grammar.{HasType, IsTree, TokenStands, faultless};
ghost use Rattle.dwarf_units.specs.HeaderRows.{AreWhole, IsFaultOfUnits};
ghost use Rattle.dwarf_units.specs.Rows.{IsFaultOf, IsWhole};
ghost use Rattle.dwarf_units.specs.Sequence.{UnitStands, begins_partial, unit_step, units_of};
ghost use Rattle.dwarf_units.specs.ValuePlaces.{IsTold};
ghost use Rattle.dwarf_units.specs.Units.{PlainUnit, State, entries_of, root_of, token_at, tokens_from};

use dwarf_forms::abbreviations::pairs_stand_where_told;
use dwarf_forms::laws::reading_moves_on_inside_the_unit;

/// A unit has these entries and no fault exactly when they are its tree by the grammar of entries: a root with a tag for its unit,
/// the entries below it, then only 0 bytes (DWARF 5, section 2.3 "Relationship of Debugging Information Entries"). In a type unit,
/// one of them must also be at the type offset of the header.
pub fn a_unit_is_one_tree()
    ensures { (u : PlainUnit) (entries : List Entry) → (entries_of u ≡ faultless entries) ↔ (IsTree u entries
        × HasType u entries) }
{
    reading_moves_on_inside_the_unit();
}

/// The units of a section follow one another, each inside it, up to the section's end or the first fault.
pub fn units_stand_one_after_another()
    ensures chain { (info abbrevs : List ℕ)
        → Chain (unit_step info abbrevs) 0 (units_of info abbrevs).items (units_of info abbrevs).end }
    ensures inside { (info abbrevs : List ℕ) (at : ℕ) (u : PlainUnit) (next : ℕ)
        → unit_step info abbrevs at ≡ Ok (u, next) → UnitStands info at u next }
{}

/// The tokens of a unit are its entries and the ends of its lists. They follow one another up to the unit's end or the first fault.
/// The unit's entries are the entries among them.
pub fn tokens_stand_one_after_another()
    ensures chain { (u : PlainUnit) (s : State) → Chain (token_at u) s (tokens_from u s).items (tokens_from u s).end }
    ensures there { (u : PlainUnit) (s : State) (x : Option Entry) (next : State) → token_at u s ≡ Ok (x, next)
        → TokenStands u s x next }
    ensures entries { (u : PlainUnit) → (entries_of u).items ≡ (given (tokens_from u (root_of u, None))).items }
{
    reading_moves_on_inside_the_unit();
}

/// A unit of version 4 is a partial unit exactly when its root has no fault and the tag `DW_TAG_partial_unit`. A unit whose root
/// has a fault has no entries.
pub fn a_root_says_whether_a_unit_is_partial()
    ensures { (info abbrevs : List ℕ) → All (λ (u : PlainUnit). u.version ≡ dwarf_4
        → u.partial ≡ begins_partial (entries_of u).items) (units_of info abbrevs).items }
{}

/// The units end with the fault of the first unit that is not whole: that of the first row of its header that holds, or else that
/// of its abbreviation table. Where they end without a fault, all are whole up to the section's end.
pub fn a_header_has_its_first_row()
    ensures fault { (info abbrevs : List ℕ) (f : Fault)
        → ((units_of info abbrevs).end ≡ Some f) ↔ IsFaultOfUnits info abbrevs f }
    ensures none { (info abbrevs : List ℕ) → ((units_of info abbrevs).end ≡ None) ↔ AreWhole info abbrevs }
{}

/// A unit's entries end with the fault of the first offset where a row holds, and there of the first row that does. From the root
/// up to that offset all is whole. A unit without a fault is whole.
pub fn a_fault_is_the_first_row_of_its_place()
    ensures fault { (u : PlainUnit) (f : Fault) → ((entries_of u).end ≡ Some f) ↔ IsFaultOf u f }
    ensures none { (u : PlainUnit) → ((entries_of u).end ≡ None) ↔ IsWhole u }
{
    reading_moves_on_inside_the_unit();
}

/// The values of an entry are those in the bytes after its code, by the attribute specifications at the offset in `.debug_abbrev`
/// that the entry gives.
pub fn values_stand_where_told()
    ensures info { (info abbrevs : List ℕ) → All (λ (u : PlainUnit). u.info ≡ info) (units_of info abbrevs).items }
    ensures told { (info abbrevs : List ℕ)
        → All (λ (u : PlainUnit). All (IsTold abbrevs u) (entries_of u).items) (units_of info abbrevs).items }
{
    pairs_stand_where_told();
    reading_moves_on_inside_the_unit();
}
