//! What the absence of a fault means for the sections of a file. The laws are the contracts of functions with empty bodies.
ghost use Rattle.std.specs.Prelude.{◌≡◌, ◌+◌, ◌<◌, ◌≤◌, ℕ, List, length, true, false, Some, None};
ghost use Rattle.abi_base.specs.Elf.{sht_dynamic, sht_dynsym, sht_strtab};
ghost use Rattle.abi_base.specs.GnuVersions.{sht_gnu_verdef, sht_gnu_verneed, sht_gnu_versym};
ghost use Rattle.elf.specs.file.Elf.{elf_fault, table, section, section_name, holds_bytes, contents, is_compressed};

use crate::constants::{
    SHT_DYNAMIC, SHT_DYNSYM, SHT_GNU_VERDEF, SHT_GNU_VERNEED, SHT_GNU_VERSYM, SHT_STRTAB,
};

/// Each section type for look-ups has its number of the System V gABI, "Sections", and each GNU type that of GNU.
pub fn section_types_have_their_numbers()
    ensures { (SHT_STRTAB ≡ sht_strtab)
        × (SHT_DYNAMIC ≡ sht_dynamic)
        × (SHT_DYNSYM ≡ sht_dynsym)
        × (SHT_GNU_VERDEF ≡ sht_gnu_verdef)
        × (SHT_GNU_VERNEED ≡ sht_gnu_verneed)
        × (SHT_GNU_VERSYM ≡ sht_gnu_versym) }
{}

/// In a file without a fault each section that has bytes lies inside the file, and its contents have the size that its header
/// gives.
pub fn sections_lie_inside()
    ensures inside { (f : List ℕ) (i : ℕ) → elf_fault f ≡ None → i < (table f).count
        → holds_bytes i (section f i) ≡ true → (section f i).offset + (section f i).size ≤ length f }
    ensures whole { (f : List ℕ) (i : ℕ) → elf_fault f ≡ None → i < (table f).count
        → holds_bytes i (section f i) ≡ true → length (contents f i) ≡ (section f i).size }
{}

/// In a file without a fault each section has a name, and none is a compressed debug section by name or flags.
pub fn sections_have_names()
    ensures named { (f : List ℕ) (i : ℕ) → elf_fault f ≡ None → i < (table f).count
        → (name : List ℕ) × (section_name f i ≡ Some name) }
    ensures plain { (f name : List ℕ) (i : ℕ) → elf_fault f ≡ None → i < (table f).count
        → section_name f i ≡ Some name → is_compressed name (section f i).flags ≡ false }
{}
