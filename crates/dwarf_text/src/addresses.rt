// The addresses that attribute values denote.
ghost use Rattle.std.specs.Prelude.{◌≡◌};
ghost use Rattle.abi_base.specs.declared.fault.FaultKind.TheVariants as kind;
ghost use Rattle.dwarf_forms.specs.Values.{fault};
ghost use Rattle.dwarf_text.specs.Texts as spec;

use crate::bases::Bases;
use abi_base::{Fault, FaultKind, table_address};
use dwarf_forms::{DebugInfoOffset, Sections, Value};

fn no_address(entry: DebugInfoOffset) -> Fault
    ensures { result ≡ fault kind.Index entry }
{
    Fault {
        kind: FaultKind::Index,
        at: entry.get(),
    }
}

/// The address of an attribute value (DWARF 5, sections 7.5.5 "Classes and Forms" and 7.27 "Address Table"). The fault is `Index`,
/// at the entry, where the value is not an address, where it is an index for which the unit has no base, and where the index leads
/// outside `.debug_addr`.
pub fn address(
    value: &Value,
    bases: &Bases,
    sections: &Sections,
    entry: DebugInfoOffset,
) -> Result<u64, Fault>
    ensures { result ≡ spec.address_of sections.now.addr.now bases.now.addr entry value.now }
{
    match *value {
        Value::Address(address) => Ok(address),
        Value::AddressIndex(index) => match table_address(sections.addr, bases.addr, index) {
            Some(address) => Ok(address),
            None => Err(no_address(entry)),
        },
        _ => Err(no_address(entry)),
    }
}
