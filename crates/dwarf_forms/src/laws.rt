//! Laws about attribute values, as the contracts of functions with empty bodies.
ghost use Rattle.std.specs.Prelude.{◌≡◌, ◌≤◌, ℕ, ℤ, List, Ok};
ghost use Rattle.abi_base.specs.Dwarf.{dw_form_ref_addr, dw_form_ref1, dw_form_ref2, dw_form_ref4, dw_form_ref8, dw_form_ref_udata};
ghost use Rattle.dwarf_forms.specs.declared.values.Value.{Value};
ghost use Rattle.dwarf_forms.specs.Values.{FixedSizesEnd, value_at, Refers, RefersByUleb, absolute, from_unit};

/// The offset after a value is not before the value and not past the end of the unit.
pub fn reading_moves_on_inside_the_unit()
    ensures after { (form : ℕ) (implicit : ℤ) (unit end entry : ℕ) (bytes : List ℕ) (at : ℕ) (read : Value × ℕ)
        → value_at form implicit unit end entry bytes at ≡ Ok read → at ≤ read.1 }
    ensures inside { (form : ℕ) (implicit : ℤ) (unit end entry : ℕ) (bytes : List ℕ) (at : ℕ) (read : Value × ℕ)
        → value_at form implicit unit end entry bytes at ≡ Ok read → at ≤ end → read.1 ≤ end }
{}

/// `DW_FORM_ref_addr` is the offset in `.debug_info` itself. The other references count from the start of their unit, whose offset
/// is added modulo 2^64 (DWARF 5, section 7.5.5 "Classes and Forms", class reference).
pub fn references_count_from_their_unit()
    ensures ref_addr { Refers dw_form_ref_addr 4 absolute }
    ensures ref1 { Refers dw_form_ref1 1 from_unit }
    ensures ref2 { Refers dw_form_ref2 2 from_unit }
    ensures ref4 { Refers dw_form_ref4 4 from_unit }
    ensures ref8 { Refers dw_form_ref8 8 from_unit }
    ensures ref_udata { RefersByUleb dw_form_ref_udata from_unit }
{}

/// A value of a form with a fixed size ends that many bytes on, whatever the bytes, if it ends in the unit.
pub fn values_of_a_fixed_size_end_behind_it()
    ensures { FixedSizesEnd }
{}
