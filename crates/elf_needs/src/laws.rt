//! Laws about the needs of a file, as the contracts of functions with empty bodies.
ghost use Rattle.std.specs.Prelude.{◌≡◌, ◌≢◌, ◌+◌, ◌<◌, ◌≤◌, ℕ, List, length, slice_get, Some, None};
ghost use Rattle.abi_base.specs.GnuVersions.{sht_gnu_versym, ver_ndx_global};
ghost use Rattle.elf.specs.file.Elf.{section_of_kind};
ghost use Rattle.elf_needs.specs.GnuNeeds.{verneed_size, vernaux_size};
ghost use Rattle.elf_needs.specs.Indexes.{symbol_index, indexes_of};
ghost use Rattle.elf_needs.specs.Needs.{place_of, file_at, entry_count, entry_place, index_at, version_at, need_table, need_strings, need_count, need_with, needs_fault};

/// The list of version indexes has the index of symbol i at i, and ends with the last symbol. Without a section of indexes,
/// each symbol has the index of global symbols without a version.
pub fn each_symbol_has_its_index()
    ensures kept { (f : List ℕ) (symbols : ℕ) (i : ℕ) → i < symbols
        → slice_get (indexes_of f symbols) i ≡ Some (symbol_index f i) }
    ensures past { (f : List ℕ) (symbols : ℕ) (i : ℕ) → symbols ≤ i → slice_get (indexes_of f symbols) i ≡ None }
    ensures unversioned { (f : List ℕ) (i : ℕ) → section_of_kind f sht_gnu_versym ≡ None
        → symbol_index f i ≡ ver_ndx_global }
{}

/// Without a fault each need and each of its auxiliary entries lies inside the section, and their names end in the string table.
pub fn each_need_is_whole()
    ensures inside { (f : List ℕ) (k : ℕ) → needs_fault f ≡ None → k < need_count f
        → place_of (need_table f) k + verneed_size ≤ length (need_table f) }
    ensures of_file { (f : List ℕ) (k : ℕ) → needs_fault f ≡ None → k < need_count f
        → file_at (need_table f) (need_strings f) k ≢ None }
    ensures entries { (f : List ℕ) (k : ℕ) (j : ℕ) → needs_fault f ≡ None → k < need_count f
        → j < entry_count (need_table f) k → entry_place (need_table f) k j + vernaux_size ≤ length (need_table f) }
    ensures named { (f : List ℕ) (k : ℕ) (j : ℕ) → needs_fault f ≡ None → k < need_count f
        → j < entry_count (need_table f) k → version_at (need_table f) (need_strings f) k j ≢ None }
{}

/// The index of each auxiliary entry is found, with a version and a file.
pub fn each_index_is_found()
    ensures { (f : List ℕ) (k : ℕ) (j : ℕ) → k < need_count f → j < entry_count (need_table f) k
        → need_with f (index_at (need_table f) k j) ≢ None }
{}
