// Reads the version needs of a file.
ghost use Rattle.std.specs.Prelude.{◌≡◌, ℕ, IfErr, IfOk, OnOk};
ghost use Rattle.abi_base.specs.Outcome.{Judges, OnPast};
ghost use Rattle.elf_needs.specs.Needs.{needs_fault, need_with, AreFewNeeds, PassesNeeds};
ghost use Rattle.elf_needs.specs.Plain.{needed};

use crate::entries::{bad_need, needs_in};
use crate::kept::Needs;
use abi_base::Refusal;
use elf::constants::SHT_GNU_VERNEED;
use elf::file::ElfFile;
use std::alloc::Global;
use std::collections::HashMap;

/// The version needs of a file, empty where it has no section of needs. Err is the first fault of kind `VersionNeed`.
#[tactic(auto, unfolding(crate::specs::Needs::needs_fault, crate::specs::Needs::need_with, crate::specs::Needs::AreFewNeeds, crate::specs::Needs::PassesNeeds))]
pub fn needs<'a>(alloc: Global, file: &ElfFile<'a>) -> Result<Needs<'a>, Refusal>
    ensures judged { Judges result (needs_fault file.now) }
    ensures read { IfOk result (λ needs. (index : ℕ) → needed needs index ≡ need_with file.now index) }
    ensures few { OnOk result (AreFewNeeds file.now) }
    ensures past { IfErr result (λ e. OnPast e (PassesNeeds file.now)) }
{
    match file.section_of_kind(SHT_GNU_VERNEED) {
        None => Ok(Needs::of(HashMap::new(alloc))),
        Some(section) => match file.strings(section.link) {
            None => Err(bad_need(0)),
            Some(strings) => {
                let by_index = needs_in(alloc, section.bytes, strings, section.info)?;
                Ok(Needs::of(by_index))
            }
        },
    }
}
