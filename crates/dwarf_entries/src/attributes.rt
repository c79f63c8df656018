// The attributes that apply only to an entry itself.
ghost use Rattle.std.specs.Prelude.{◌≡◌};
ghost use Rattle.dwarf_entries.specs.Chains.{is_own_attribute as speaks_of_itself};

use abi_base::dwarf::{
    DW_AT_declaration, DW_AT_entry_pc, DW_AT_location, DW_AT_low_pc, DW_AT_ranges,
};

// Whether an attribute is not inherited along the chain.
#[tactic(auto, unfolding(crate::specs::Chains::is_own_attribute))]
pub(crate) fn is_own_attribute(name: u64) -> bool
    ensures { result ≡ speaks_of_itself name }
{
    matches!(
        name,
        DW_AT_low_pc | DW_AT_ranges | DW_AT_entry_pc | DW_AT_location | DW_AT_declaration
    )
}
