//! Laws about declaration places, as the contracts of functions with empty bodies.
ghost use Rattle.std.specs.Prelude.{◌≡◌, ℕ, List, Some, None};
ghost use Rattle.dwarf_forms.specs.declared.sections.Sections.{Sections};
ghost use Rattle.dwarf_tree.specs.Trees.{entry_of, own_of};
ghost use Rattle.entry_places.specs.Coordinates.{DebugBytes, PlainPlace, entries_in, number_of, place_of};
ghost use Rattle.entry_places.specs.Made.{IsMade};
ghost use Rattle.entry_places.specs.Plain.{debug_bytes};

/// An entry without a file or without a line has no place, and an offset at which no entry begins has none.
pub fn these_have_no_place()
    ensures no_entry { (s : DebugBytes) (offset : ℕ) → entry_of (entries_in s) offset ≡ None
        → place_of s offset ≡ None }
    ensures no_file { (s : DebugBytes) (offset e : ℕ) → entry_of (entries_in s) offset ≡ Some e
        → own_of (entries_in s) e 0x3a ≡ None → place_of s offset ≡ None }
    ensures no_line { (s : DebugBytes) (offset e : ℕ) → entry_of (entries_in s) offset ≡ Some e
        → own_of (entries_in s) e 0x3b ≡ None → place_of s offset ≡ None }
    ensures line_0 { (s : DebugBytes) (offset e : ℕ) → entry_of (entries_in s) offset ≡ Some e
        → number_of (own_of (entries_in s) e 0x3b) ≡ Some 0 → place_of s offset ≡ None }
{}

/// The file of a place is the name that the line program of the entry's unit has for the entry's file number, in the unit's
/// directory if that is known. The line is the entry's own.
pub fn a_place_is_told_by_its_entry_and_its_unit()
    ensures { (s : DebugBytes) (offset : ℕ) (place : PlainPlace) → place_of s offset ≡ Some place
        → IsMade s offset place }
{}

/// Places depend only on these five sections.
pub fn other_sections_change_nothing()
    ensures { (a b : Sections) (line : List ℕ) (offset : ℕ) → a.info.now ≡ b.info.now → a.abbrev.now ≡ b.abbrev.now
        → a.str.now ≡ b.str.now → a.line_str.now ≡ b.line_str.now
        → place_of (debug_bytes a line) offset ≡ place_of (debug_bytes b line) offset }
{}
