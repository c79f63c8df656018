//! Laws about symbols and the soname, as the contracts of functions with empty bodies.
ghost use Rattle.std.specs.Prelude.{◌≡◌, ◌*◌, ◌<◌, ℕ, List, length, map, Some, None};
ghost use Rattle.std.specs.List.{range_with_len};
ghost use Rattle.elf.specs.symbols.Symbols.{symbol_fault, symbol_table, symbol_strings, symbols_of, symbol_in, name_in};
ghost use Rattle.elf.specs.symbols.Dynamic.{dynamic_fault, dynamic_table, soname_of, soname_entry, IsFirstSoname};
ghost use Rattle.abi_base.specs.Elf.{sym_size, stb_local, stb_global, stb_weak, stb_gnu_unique, stt_notype, stt_object, stt_func, stt_common, stt_tls, stt_gnu_ifunc, stv_default, stv_protected, shn_abs};

use crate::constants::{
    SHN_ABS, STB_GLOBAL, STB_GNU_UNIQUE, STB_LOCAL, STB_WEAK, STT_COMMON, STT_FUNC, STT_GNU_IFUNC,
    STT_NOTYPE, STT_OBJECT, STT_TLS, STV_DEFAULT, STV_PROTECTED,
};

/// Each constant for symbols has its number in the System V gABI, "Symbol Table", or in the GNU extensions.
pub fn symbols_have_their_numbers()
    ensures bindings { (STB_LOCAL ≡ stb_local)
        × (STB_GLOBAL ≡ stb_global)
        × (STB_WEAK ≡ stb_weak)
        × (STB_GNU_UNIQUE ≡ stb_gnu_unique) }
    ensures types { (STT_NOTYPE ≡ stt_notype)
        × (STT_OBJECT ≡ stt_object)
        × (STT_FUNC ≡ stt_func)
        × (STT_COMMON ≡ stt_common)
        × (STT_TLS ≡ stt_tls)
        × (STT_GNU_IFUNC ≡ stt_gnu_ifunc) }
    ensures visibilities { (STV_DEFAULT ≡ stv_default) × (STV_PROTECTED ≡ stv_protected) }
    ensures sections { SHN_ABS ≡ shn_abs }
{}

/// A symbol's number is its index. Without a fault the symbols fill the symbol table, and each has the name to which its record
/// refers in the string table.
pub fn symbols_fill_their_table()
    ensures numbered { (f : List ℕ) → map (λ s. s.number) (symbols_of f) ≡ range_with_len 0 (length (symbols_of f)) }
    ensures whole { (f : List ℕ) → symbol_fault f ≡ None → sym_size * length (symbols_of f) ≡ length (symbol_table f) }
    ensures named { (f : List ℕ) (i : ℕ) → symbol_fault f ≡ None → i < length (symbols_of f)
        → name_in (symbol_table f) (symbol_strings f) i
        ≡ Some (symbol_in (symbol_table f) (symbol_strings f) i).name }
{}

/// The soname comes from the first entry with tag SONAME before the end of the table. A file without a fault has no soname only
/// where there is no such entry.
pub fn the_soname_is_the_first_before_the_end()
    ensures found { (table : List ℕ) (i : ℕ) → soname_entry table ≡ Some i → IsFirstSoname table i }
    ensures missing { (f : List ℕ) → dynamic_fault f ≡ None → soname_of f ≡ None
        → soname_entry (dynamic_table f) ≡ None }
{}
