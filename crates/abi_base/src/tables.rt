// Tables of numbers that are indexed from a base.
ghost use Rattle.std.specs.Prelude.{◌≡◌};
ghost use Rattle.abi_base.specs.Tables.{entry_of_table};

use crate::numbers::{u32_at, u64_at};

// The sizes of an offset and of an address.
const OFFSET_SIZE: u128 = 4;

const ADDRESS_SIZE: u128 = 8;

/// The four-byte offset with this index in the part of a table that begins at `base` (DWARF 5, sections 7.26 "String
/// Offsets Table" and 7.28 "Range List Table"). None exactly where there is no base or the bytes are not all in bounds. An
/// offset beyond 64 bits is out of bounds too.
pub fn table_offset(table: &[u8], base: Option<u64>, index: u64) -> Option<u32>
    ensures { result ≡ entry_of_table 4 table.now base index }
{
    match base {
        Some(base) => {
            let place = u128::from(base) + OFFSET_SIZE * u128::from(index);
            if place <= table.len() as u128 {
                u32_at(table, place as usize)
            } else {
                None
            }
        }
        None => None,
    }
}

/// The eight-byte address with this index in the part of a table that begins at `base` (DWARF 5, section 7.27 "Address Table").
/// None exactly where there is no base or the bytes are not all in bounds. An offset beyond 64 bits is out of bounds too.
pub fn table_address(table: &[u8], base: Option<u64>, index: u64) -> Option<u64>
    ensures { result ≡ entry_of_table 8 table.now base index }
{
    match base {
        Some(base) => {
            let place = u128::from(base) + ADDRESS_SIZE * u128::from(index);
            if place <= table.len() as u128 {
                u64_at(table, place as usize)
            } else {
                None
            }
        }
        None => None,
    }
}
