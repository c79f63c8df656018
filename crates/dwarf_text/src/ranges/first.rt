// The start of the first range of a list.
ghost use Rattle.std.specs.Prelude.{◌≡◌, ◌≤◌, ◌<◌, ◌+◌, IfErr, OnErr, OnOk};
ghost use Rattle.abi_base.specs.Budgets.{with_taken};
ghost use Rattle.abi_base.specs.declared.fault.FaultKind.TheVariants as kind;
ghost use Rattle.abi_base.specs.declared.fault.NoMemory.TheVariants.{Past};
ghost use Rattle.dwarf_text.specs.ranges.FirstBytes.{first_bytes_of, list_bytes, pair_bytes};
ghost use Rattle.dwarf_text.specs.ranges.RangeLists.{first_start, list_run, pair_run, place_of_list, first_address_of};

use crate::Bases;
use crate::ranges::entry::Source;
use crate::ranges::lists::ListAt;
use abi_base::{Budget, Fault, FaultKind, NoMemory, table_offset};
use dwarf_forms::{DebugInfoOffset, Sections};

// The offset of the list with this index: the entry of the unit's offset table, plus the unit's base.
fn place_of(rnglists: &[u8], base: Option<u64>, index: u64) -> Option<u64>
    ensures { result ≡ place_of_list rnglists.now base index }
{
    match base {
        Some(start) => match table_offset(rnglists, base, index) {
            Some(offset) => Some(start + u64::from(offset)),
            None => None,
        },
        None => None,
    }
}

// The start of the first range of the list at an offset in `.debug_rnglists`.
#[tactic(auto, using(crate::proofs::ranges_lemmas::ListLemmas::list_passes, crate::proofs::ranges_lemmas::ListLemmas::list_gives, crate::proofs::ranges_lemmas::ListLemmas::list_ends))]
fn first_in_list(source: &Source, place: u64, low: u64) -> Result<Option<u64>, Fault>
    ensures { result ≡ first_start (list_run source.now.addr.now source.now.addr_base source.now.entry
        source.now.bytes.now (place, low)) }
{
    let mut at = place as usize;
    let mut base = low;
    'walk: loop {
        match source.list_entry(at, base) {
            Ok(Some(entry)) => {
                if let Some(start) = entry.start {
                    return Ok(Some(start));
                }
                at = entry.after;
                base = entry.base;
            }
            Ok(None) => return Ok(None),
            Err(fault) => return Err(fault),
        }
    }
}

// The start of the first range of the pairs at an offset in `.debug_ranges`.
#[tactic(auto, using(crate::proofs::ranges_lemmas::ListLemmas::pair_passes, crate::proofs::ranges_lemmas::ListLemmas::pair_gives, crate::proofs::ranges_lemmas::ListLemmas::pair_ends))]
fn first_in_pairs(source: &Source, place: u64, low: u64) -> Result<Option<u64>, Fault>
    ensures { result ≡ first_start (pair_run source.now.entry source.now.bytes.now (place, low)) }
{
    let mut at = place as usize;
    let mut base = low;
    'walk: loop {
        match source.pair_entry(at, base) {
            Ok(Some(entry)) => {
                if let Some(start) = entry.start {
                    return Ok(Some(start));
                }
                at = entry.after;
                base = entry.base;
            }
            Ok(None) => return Ok(None),
            Err(fault) => return Err(fault),
        }
    }
}

/// The start of the first range of a list, even of an empty range, or None exactly where the list has no range (DWARF 5, sections
/// 2.17.3 "Non-Contiguous Address Ranges" and 7.25; for pairs DWARF 4, section 2.17.3). `bases` are those of the unit's parts of
/// `.debug_rnglists` and `.debug_addr`, and the first base of its ranges. Sums of addresses are modulo 2^64.
/// Nothing after the first range is read. Up to its end, the fault is `Ranges` where the list is not inside its section, or has a
/// number that does not fit 64 bits or an entry of an unknown kind, and `Index` where the index of the list or of an address has no
/// base or leads outside its section. Both are at the entry. The first fault in the order of the fields counts.
pub fn first_address(
    list: ListAt,
    bases: &Bases,
    sections: &Sections,
    entry: DebugInfoOffset,
) -> Result<Option<u64>, Fault>
    ensures { result ≡ first_address_of sections.now.rnglists.now bases.now.rnglists sections.now.ranges.now
        sections.now.addr.now bases.now.addr bases.now.low entry list }
{
    let lists = Source {
        bytes: sections.rnglists,
        addr: sections.addr,
        addr_base: bases.addr,
        entry,
    };
    match list {
        ListAt::Offset(place) => first_in_list(&lists, place, bases.low),
        ListAt::Index(index) => match place_of(sections.rnglists, bases.rnglists, index) {
            Some(place) => first_in_list(&lists, place, bases.low),
            None => Err(Fault {
                kind: FaultKind::Index,
                at: entry.get(),
            }),
        },
        ListAt::Pairs(place) => first_in_pairs(
            &Source {
                bytes: sections.ranges,
                ..lists
            },
            place,
            bases.low,
        ),
    }
}

// Takes the bytes of the entries from an offset in `.debug_rnglists` up to the first range.
fn take_list(source: &Source, place: u64, budget: &mut Budget) -> Result<(), NoMemory>
    requires { budget.old.taken ≤ budget.old.most }
    ensures taken { OnOk result (budget.new ≡ with_taken budget.old
        (list_bytes source.now.addr.now source.now.addr_base source.now.entry source.now.bytes.now place)) }
    ensures within { OnOk result (budget.old.taken
        + list_bytes source.now.addr.now source.now.addr_base source.now.entry source.now.bytes.now place
        ≤ budget.old.most) }
    ensures past { OnErr result (budget.old.most
        < budget.old.taken + list_bytes source.now.addr.now source.now.addr_base source.now.entry
        source.now.bytes.now place) }
    ensures named { IfErr result (λ e. e ≡ Past budget.old.limit) }
{
    let mut at = place as usize;
    'walk: while let Some(entry) = source.sized_list(at) {
        budget.take(entry.after - at)?;
        if entry.start.is_some() {
            return Ok(());
        }
        at = entry.after;
    }
    Ok(())
}

// Takes the bytes of the pairs from an offset in `.debug_ranges` up to the first range.
fn take_pairs(source: &Source, place: u64, budget: &mut Budget) -> Result<(), NoMemory>
    requires { budget.old.taken ≤ budget.old.most }
    ensures taken { OnOk result (budget.new ≡ with_taken budget.old
        (pair_bytes source.now.entry source.now.bytes.now place)) }
    ensures within { OnOk result (budget.old.taken + pair_bytes source.now.entry source.now.bytes.now place
        ≤ budget.old.most) }
    ensures past { OnErr result (budget.old.most
        < budget.old.taken + pair_bytes source.now.entry source.now.bytes.now place) }
    ensures named { IfErr result (λ e. e ≡ Past budget.old.limit) }
{
    let mut at = place as usize;
    'walk: while let Some(entry) = source.sized_pair(at) {
        budget.take(entry.after - at)?;
        if entry.start.is_some() {
            return Ok(());
        }
        at = entry.after;
    }
    Ok(())
}

/// Takes of the budget the bytes of a list that `first_address` reads: those of its entries up to the first range, or of a faulty
/// list those of the entries before the fault. Fails exactly where the budget has fewer.
pub fn take_first(
    list: ListAt,
    bases: &Bases,
    sections: &Sections,
    budget: &mut Budget,
) -> Result<(), NoMemory>
    requires { budget.old.taken ≤ budget.old.most }
    ensures taken { OnOk result (budget.new ≡ with_taken budget.old
        (first_bytes_of sections.now.rnglists.now bases.now.rnglists sections.now.ranges.now
        sections.now.addr.now bases.now.addr list)) }
    ensures within { OnOk result (budget.old.taken
        + first_bytes_of sections.now.rnglists.now bases.now.rnglists sections.now.ranges.now
        sections.now.addr.now bases.now.addr list ≤ budget.old.most) }
    ensures past { OnErr result (budget.old.most
        < budget.old.taken + first_bytes_of sections.now.rnglists.now bases.now.rnglists sections.now.ranges.now
        sections.now.addr.now bases.now.addr list) }
    ensures named { IfErr result (λ e. e ≡ Past budget.old.limit) }
{
    let lists = Source {
        bytes: sections.rnglists,
        addr: sections.addr,
        addr_base: bases.addr,
        entry: DebugInfoOffset::new(0),
    };
    match list {
        ListAt::Offset(place) => take_list(&lists, place, budget),
        ListAt::Index(index) => match place_of(sections.rnglists, bases.rnglists, index) {
            Some(place) => take_list(&lists, place, budget),
            None => budget.take(0),
        },
        ListAt::Pairs(place) => take_pairs(
            &Source {
                bytes: sections.ranges,
                ..lists
            },
            place,
            budget,
        ),
    }
}
