// Attribute values as numbers.
ghost use Rattle.std.specs.Prelude.{◌≡◌, ◌<◌, length};
ghost use Rattle.type_reach.specs.Values as spec;

use abi_base::dwarf::DW_OP_plus_uconst;
use abi_base::uleb;
use dwarf_entries::Dwarf;
use dwarf_forms::Value;
use dwarf_tree::EntryNumber;

/// A nonnegative constant (DWARF 5, section 7.5.5 "Classes and Forms", class constant), or None for any other value.
pub fn natural_of(value: Option<Value>) -> Option<u64>
    ensures { result ≡ spec.natural_of value }
{
    match value {
        Some(value) => value.number(),
        None => None,
    }
}

/// A signed or unsigned constant modulo 2^64, or None for any other value.
pub fn wrapped_of(value: Option<Value>) -> Option<u64>
    ensures { result ≡ spec.wrapped_of value }
{
    match value {
        Some(value) => value.word(),
        None => None,
    }
}

/// How many numbers there are from 0 through a constant, modulo 2^64, or None for any other value.
pub fn counted_to(value: Option<Value>) -> Option<u64>
    ensures { result ≡ spec.counted_to value }
{
    match value {
        Some(value) => value.count_up_to(),
        None => None,
    }
}

// The addend of an expression that is a single operation.
fn added_by(bytes: &[u8]) -> Option<u64>
    ensures { result ≡ spec.added_by bytes.now }
{
    match bytes.first() {
        Some(operation) if *operation == DW_OP_plus_uconst => {}
        _ => return None,
    }
    match uleb(bytes, 1) {
        Some((operand, after)) => {
            if after == bytes.len() {
                Some(operand)
            } else {
                None
            }
        }
        None => None,
    }
}

/// An offset in bytes: a constant, or the addend of an expression of one operation. None for any other value.
pub fn place_of(dwarf: &Dwarf, value: Option<Value>) -> Option<u64>
    ensures { result ≡ spec.place_of dwarf.now.sections.info value }
{
    match value {
        Some(value) => match dwarf.block(&value) {
            Some(bytes) => added_by(bytes),
            None => value.number(),
        },
        None => None,
    }
}

/// Whether an entry has an attribute, its own or inherited.
#[tactic(auto, unfolding(crate::specs::Values::is_there))]
pub fn is_there(dwarf: &Dwarf, e: EntryNumber, name: u64) -> bool
    requires { e < length dwarf.now.tree.entries }
    ensures { result ≡ spec.is_there dwarf.now.tree e name }
{
    dwarf.attr(e, name).is_some()
}

/// The number in an attribute of an entry, its own or inherited, or 0 where it has none.
#[tactic(auto, unfolding(crate::specs::Values::number_at))]
pub fn number_at(dwarf: &Dwarf, e: EntryNumber, name: u64) -> u64
    requires { e < length dwarf.now.tree.entries }
    ensures { result ≡ spec.number_at dwarf.now.tree e name }
{
    natural_of(dwarf.attr(e, name)).unwrap_or(0)
}
