//! Laws about versions, as the contracts of functions with empty bodies.
ghost use Rattle.std.specs.Prelude.{◌≡◌, ◌≢◌, ◌+◌, ◌<◌, ◌≤◌, ℕ, false, List, length, Some, None};
ghost use Rattle.elf.specs.file.Elf.{section_of_kind};
ghost use Rattle.abi_base.specs.GnuVersions.{sht_gnu_versym, ver_ndx_local, ver_ndx_global, verdef_size};
ghost use Rattle.elf.specs.versions.Definitions.{place_of, index_of, name_of, version_name, definition_table, definition_strings, definition_count};
ghost use Rattle.elf.specs.versions.Versions.{version_at, versions_of, version_in, version_fault};

use crate::constants::{VER_NDX_GLOBAL, VER_NDX_LOCAL};

/// The indexes of symbols without a version have their numbers of the Linux Standard Base, "Symbol Versioning".
pub fn indexes_have_their_numbers()
    ensures { (VER_NDX_LOCAL ≡ ver_ndx_local) × (VER_NDX_GLOBAL ≡ ver_ndx_global) }
{}

/// The list of all symbols' versions has the version of symbol i at i, and ends with the last symbol. Where the file has no table
/// of indexes, each symbol has the version of global symbols without a version.
pub fn each_symbol_has_its_version()
    ensures kept { (f : List ℕ) (symbols : ℕ) (i : ℕ) → version_in (versions_of f symbols) i ≡ version_at f symbols i }
    ensures unversioned { (f : List ℕ) (symbols : ℕ) (i : ℕ) → section_of_kind f sht_gnu_versym ≡ None
        → i < symbols → version_at f symbols i
        ≡ Some (record { name = None; index = ver_ndx_global; hidden = false }) }
{}

/// Without a fault each definition lies inside its section and has a name, no two share an index, and each index gives the
/// name of its own definition.
pub fn each_definition_names_its_index()
    ensures inside { (f : List ℕ) (symbols : ℕ) (k : ℕ) → version_fault f symbols ≡ None
        → k < definition_count f → place_of (definition_table f) k + verdef_size ≤ length (definition_table f) }
    ensures named { (f : List ℕ) (symbols : ℕ) (k : ℕ) → version_fault f symbols ≡ None → k < definition_count f
        → name_of (definition_table f) (definition_strings f) k ≢ None }
    ensures apart { (f : List ℕ) (symbols : ℕ) (j : ℕ) (k : ℕ) → version_fault f symbols ≡ None → j < k
        → k < definition_count f → index_of (definition_table f) j ≢ index_of (definition_table f) k }
    ensures found { (f : List ℕ) (symbols : ℕ) (k : ℕ) → version_fault f symbols ≡ None → k < definition_count f
        → version_name f (index_of (definition_table f) k)
        ≡ name_of (definition_table f) (definition_strings f) k }
{}
