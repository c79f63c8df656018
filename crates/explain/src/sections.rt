// Names of sections, in files whose section table may have a fault.
ghost use Rattle.std.specs.Prelude.{◌≡◌};
ghost use Rattle.std.specs.Option.{option_copied};
ghost use Rattle.explain.specs.Faults.{header_offset};
ghost use Rattle.explain.specs.Faults as spec;

use crate::constants::{E_SHOFF, E_SHSTRNDX, HEADER_SIZE, SH_LINK, SH_OFFSET, SHN_XINDEX};
use crate::offsets::offset_at;
use abi_base::{text_at, u16_at, u32_at};

// The offset of a section's header.
#[tactic(auto, unfolding(crate::specs::Faults::header_offset))]
fn header_at(bytes: &[u8], index: usize) -> Option<usize>
    ensures { result ≡ header_offset bytes.now index }
{
    let table = offset_at(bytes, E_SHOFF)?;
    table.checked_add(index.checked_mul(HEADER_SIZE)?)
}

// The index of the section of names.
#[tactic(auto, unfolding(crate::specs::Faults::names_index))]
fn names_index(bytes: &[u8]) -> Option<usize>
    ensures { result ≡ spec.names_index bytes.now }
{
    match u16_at(bytes, E_SHSTRNDX)? {
        SHN_XINDEX => {
            let link = header_at(bytes, 0)?.checked_add(SH_LINK)?;
            usize::try_from(u32_at(bytes, link)?).ok()
        }
        index => Some(usize::from(index)),
    }
}

// The offset of the section of names.
#[tactic(auto, unfolding(crate::specs::Faults::names_offset))]
fn names_offset(bytes: &[u8]) -> Option<usize>
    ensures { result ≡ spec.names_offset bytes.now }
{
    let header = header_at(bytes, names_index(bytes)?)?;
    offset_at(bytes, header.checked_add(SH_OFFSET)?)
}

// The bytes from the section of names on, if it begins inside the file.
#[tactic(auto, unfolding(crate::specs::Faults::names_in))]
fn names_in(bytes: &[u8]) -> Option<&[u8]>
    ensures { option_copied result ≡ spec.names_in bytes.now }
{
    let start = names_offset(bytes)?;
    if start <= bytes.len() {
        Some(&bytes[start..])
    } else {
        None
    }
}

/// The name of the section with an index, or `None` if the table or the name lies outside the file.
#[tactic(auto, unfolding(crate::specs::Faults::section_name))]
pub(crate) fn section_name(bytes: &[u8], index: u64) -> Option<&[u8]>
    ensures { option_copied result ≡ spec.section_name bytes.now index }
{
    let header = header_at(bytes, index as usize)?;
    let name = u32_at(bytes, header)?;
    let names = names_in(bytes)?;
    text_at(names, u64::from(name))
}
