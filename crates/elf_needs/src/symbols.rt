// Reads the version indexes of symbols, without the hidden bit.
ghost use Rattle.std.specs.Prelude.{◌≡◌, ◌*◌, ◌%◌, length, map, IfErr, IfOk, IfSome};
ghost use Rattle.std.specs.List.{range_with_len};
ghost use Rattle.std.specs.Option.{option_copied};
ghost use Rattle.abi_base.specs.declared.fault.NoMemory.TheVariants.{Allocation};
ghost use Rattle.abi_base.specs.GnuVersions.{versym_hidden, versym_size};
ghost use Rattle.abi_base.specs.Outcome.{Judges, OnPast};
ghost use Rattle.elf.specs.versions.Versions.{table_fault, index_in};
ghost use Rattle.elf_needs.specs.Indexes.{indexes_of};

use crate::numbered::Indexes;
use abi_base::{NoMemory, Refusal};
use elf::constants::VERSYM_HIDDEN;
use elf::file::ElfFile;
use elf::versions::{index_at, index_table};
use std::alloc::Global;

// The version indexes of the first `symbols` symbols, in order.
fn indexes_in(alloc: Global, table: Option<&[u8]>, symbols: usize) -> Result<Vec<u16>, NoMemory>
    requires { IfSome table (λ t. length t.now ≡ versym_size * symbols) }
    ensures read { IfOk result (λ all. all.items
        ≡ map (λ i. index_in (option_copied table.entry) i % versym_hidden) (range_with_len 0 symbols)) }
    ensures named { IfErr result (λ e. e ≡ Allocation) }
{
    let mut all = Vec::new(alloc);
    for symbol in 0..symbols {
        all.push(index_at(table, symbol) % VERSYM_HIDDEN)?;
    }
    Ok(all)
}

/// The version indexes of a file's dynamic symbols, of which there are `symbols`. Err is the fault `VersionTable`.
#[tactic(auto, unfolding(elf::specs::versions::Versions::version_index))]
pub fn indexes(alloc: Global, file: &ElfFile<'_>, symbols: usize) -> Result<Indexes, Refusal>
    ensures judged { Judges result (table_fault file.now symbols) }
    ensures read { IfOk result (λ indexes. indexes ≡ indexes_of file.now symbols) }
    ensures past { IfErr result (λ e. OnPast e (λ l. ⊥)) }
{
    let table = index_table(file, symbols)?;
    let all = indexes_in(alloc, table, symbols)?;
    Ok(Indexes::of(all))
}
