//! Laws about the names of files, as the contracts of functions with empty bodies.
ghost use Rattle.std.specs.Prelude.{◌≡◌, ◌≢◌, ◌+◌, ℕ, Bool, List, length, ◌∷◌, ◌++◌, Some, None, take};
ghost use Rattle.abi_base.specs.Numbers.{number_at};
ghost use Rattle.abi_base.specs.Runs.{Chain};
ghost use Rattle.dwarf_files.specs.declared.entries.Entry.{Entry};
ghost use Rattle.dwarf_files.specs.declared.formats.Pair.{Pair};
ghost use Rattle.dwarf_files.specs.declared.heads.Head.{Head};
ghost use Rattle.dwarf_files.specs.Heads.{head_of};
ghost use Rattle.dwarf_files.specs.Names.{file_name_of, joined};
ghost use Rattle.dwarf_files.specs.Standing.{IsMadeOfTextsAt, StandsFrom};
ghost use Rattle.dwarf_files.specs.Lists.{run_of, step_of};
ghost use Rattle.dwarf_files.specs.Tables.{entry_of, items, pair_of};

/// A table of version 5 has as many entries as its count, one after another, and a format has as many pairs as its count. The items
/// of a list of version 4 follow one another up to its 0 byte or to damage that ends it.
pub fn entries_stand_one_after_another()
    ensures entries { (bytes : List ℕ) (format : List Pair) (count at : ℕ) (entries : List Entry) (end : ℕ)
        → items (entry_of bytes format) count at ≡ Some (entries, end)
        → (length entries ≡ count) × StandsFrom (entry_of bytes format) at entries end }
    ensures read { (bytes : List ℕ) (format : List Pair) (at : ℕ) (entries : List Entry) (end : ℕ)
        → StandsFrom (entry_of bytes format) at entries end
        → items (entry_of bytes format) (length entries) at ≡ Some (entries, end) }
    ensures pairs { (bytes : List ℕ) (count at : ℕ) (pairs : List Pair) (end : ℕ)
        → items (pair_of bytes) count at ≡ Some (pairs, end)
        → (length pairs ≡ count) × StandsFrom (pair_of bytes) at pairs end }
    ensures lists { (files : Bool) (bytes : List ℕ) (at : ℕ)
        → Chain (step_of files bytes) at (run_of files bytes at).items (run_of files bytes at).end }
{}

/// Each name is a string of the header, `.debug_str` or `.debug_line_str`, in a directory that consists of such strings.
pub fn a_name_is_made_of_texts()
    ensures { (line str line_str : List ℕ) (at n : ℕ) (name : List ℕ)
        → file_name_of line str line_str at n ≡ Some name → IsMadeOfTextsAt line str line_str at name }
{}

/// A name that begins with a slash is unchanged.
pub fn an_absolute_name_stays()
    ensures { (directory others : List ℕ) → joined directory (47 ∷ others) ≡ 47 ∷ others }
{}

/// A header in the 64-bit DWARF format, or of a version other than 4 and 5, gives no name. Version 4 has no file 0.
pub fn these_give_no_name()
    ensures dwarf64 { (line str line_str : List ℕ) (at n : ℕ) → number_at 4 line at ≡ Some 0xffff_ffff
        → file_name_of line str line_str at n ≡ None }
    ensures versions { (line str line_str : List ℕ) (at n version : ℕ)
        → number_at 2 line (at + 4) ≡ Some version → version ≢ 4 → version ≢ 5
        → file_name_of line str line_str at n ≡ None }
    ensures file_0 { (line str line_str : List ℕ) (at : ℕ) → number_at 2 line (at + 4) ≡ Some 4
        → file_name_of line str line_str at 0 ≡ None }
{}

/// Names do not depend on the bytes after the header, if its first fields are the same.
pub fn bytes_behind_the_header_change_nothing()
    ensures same { (line other str line_str : List ℕ) (at n : ℕ) (head : Head) → head_of line at ≡ Some head
        → head_of other at ≡ Some head → take head.end line ≡ take head.end other
        → file_name_of line str line_str at n ≡ file_name_of other str line_str at n }
    ensures appended { (line others str line_str : List ℕ) (at n : ℕ) (name : List ℕ)
        → file_name_of line str line_str at n ≡ Some name
        → file_name_of (line ++ others) str line_str at n ≡ Some name }
{}
