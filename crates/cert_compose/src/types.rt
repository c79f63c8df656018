// The types that are lost if the middle library is skipped.
ghost use Rattle.std.specs.Prelude.{◌≡◌, ◌<◌, ◌↔◌, ◌&&◌, ◌||◌, not, is_none, IsTrue, length, false, None, Some, Contains, IfErr, IfOk, OnOk, MatchOption};
ghost use Rattle.std.specs.Option.{option_map};
ghost use Rattle.std.specs.List.{list_all};
ghost use Rattle.std.specs.List.Sorted.{IsNonDecreasingBy, IsPermutation, IsSorted};
ghost use Rattle.std.specs.Ordering.{nat_cmp};
ghost use Rattle.abi_base.specs.declared.fault.NoMemory.TheVariants.{Allocation};
ghost use Rattle.abi_types.specs.Graphs.{node_at, node_of, view_at};
ghost use Rattle.cert_text.specs.Certs.{Ascend, PairLine, first_cmp, pair_cmp};
ghost use Rattle.cert_check.specs.Accepted.{class_in};
ghost use Rattle.cert_check.specs.Accepted as accepted;
ghost use Rattle.cert_compose.specs.CertifiedChain.{chain_of};
ghost use Rattle.cert_compose.specs.Joins.{first_of, line_first};
ghost use Rattle.cert_compose.specs.Losses.{FindsLeastEntry, no_breaks, keeps_new, FindsLeast};
ghost use Rattle.cert_compose.specs.Losses as losses;

use crate::certified_chain::CertifiedChain;
use crate::joins::through;
use abi_base::{List, NoMemory};
use abi_types::{Graph, Index, Library, NewIx, OldIx, View, Way};
use cert_check::{line_of, rep};
use cert_text::{alike_new_of, alike_old_of, pairs_of};
use pair_rules::holds;
use std::alloc::Global;

/// The node of an entry.
pub(crate) fn find<Ix: Index>(library: &Library<Ix>, entry: u64) -> Option<Ix>
    ensures node { option_map Ix.number_of result ≡ node_of library.now.graph entry }
    ensures inside { MatchOption result (node_of library.now.graph entry
        ≡ None) (λ ix. Ix.number_of ix < length library.now.graph) }
{
    library.graph().find(entry)
}

/// The view of a node.
pub(crate) fn view_of<'x, 'a, Ix: Index>(library: &'x Library<'a, Ix>, ix: Ix) -> &'x View<'a, Ix>
    requires { Ix.number_of ix < length library.now.graph }
    ensures { result.now ≡ view_at library.now.graph (Ix.number_of ix) }
{
    library.graph().view(ix)
}

// Whether an old type keeps all rules against a new one.
fn keeps_rules(old: &View<OldIx>, new: &View<NewIx>) -> bool
    ensures { result ≡ no_breaks old.now new.now }
{
    holds(old, new)
}

// Whether the middle type does not hide the other two, by being only declared where they are defined, and the first keeps all rules
// against the last.
fn keeps_views(first: &View<OldIx>, middle: &View<NewIx>, last: &View<NewIx>) -> bool
    ensures { result ≡ losses.keeps_views first.now middle.now last.now }
{
    if middle.declared_only && !first.declared_only && !last.declared_only {
        return false;
    }
    keeps_rules(first, last)
}

// The same for the types of three entries; true if an entry has no node.
fn keeps_entries(ground: &CertifiedChain, first: u64, middle: u64, last: u64) -> bool
    ensures { result ≡ losses.keeps_entries (chain_of ground.now) first middle last }
{
    let one = match find(ground.first, first) {
        None => return true,
        Some(one) => one,
    };
    let between = match find(ground.middle, middle) {
        None => return true,
        Some(between) => between,
    };
    match find(ground.last, last) {
        None => true,
        Some(other) => keeps_views(
            view_of(ground.first, one),
            view_of(ground.middle, between),
            view_of(ground.last, other),
        ),
    }
}

// Whether the types are kept for an old entry, a middle one, and each new entry of some lines.
fn all_keep(ground: &CertifiedChain, first: u64, middle: u64, lines: &[(u64, u64, Way)]) -> bool
    ensures { result ≡ list_all (keeps_new (chain_of ground.now) first middle) lines.now }
{
    for line in lines {
        if !keeps_entries(ground, first, middle, line.1) {
            return false;
        }
    }
    true
}

// Whether all types to which a line of the first certificate leads are kept, if its old entry has no alike line.
fn line_keeps(
    alloc: Global,
    ground: &CertifiedChain,
    middles: &[(u64, u64)],
    line: (u64, u64, Way),
) -> Result<bool, NoMemory>
    requires { IsNonDecreasingBy first_of middles.now }
    ensures keeps { IfOk result (λ keeps. keeps ≡ losses.line_keeps (chain_of ground.now) middles.now line) }
    ensures named { IfErr result (λ e. e ≡ Allocation) }
{
    match line_of(alike_old_of(ground.one), line.0) {
        Some(_) => return Ok(true),
        None => {}
    }
    let alike = alike_new_of(ground.other);
    let seconds = pairs_of(ground.other);
    let mut lines = List::new(alloc);
    through(&mut lines, alike, seconds, middles, line)?;
    Ok(all_keep(ground, line.0, line.1, lines.as_slice()))
}

// The old entries of the lines of the first certificate that lose a type.
fn lost_entries(
    alloc: Global,
    ground: &CertifiedChain,
    middles: &[(u64, u64)],
    lines: &[(u64, u64, Way)],
) -> Result<Vec<u64>, NoMemory>
    requires { IsNonDecreasingBy first_of middles.now }
    ensures lost { IfOk result (λ lost. lost.items ≡ losses.lost_entries (chain_of ground.now) middles.now lines.now) }
    ensures named { IfErr result (λ e. e ≡ Allocation) }
{
    let mut lost = Vec::new(alloc);
    for line in lines {
        if !line_keeps(alloc, ground, middles, *line)? {
            lost.push(line.0)?;
        }
    }
    Ok(lost)
}

fn sort(entries: &mut Vec<u64>)
    ensures moved { IsPermutation entries.old.items entries.new.items }
    ensures sorted { IsSorted nat_cmp entries.new.items }
{
    entries.sort_unstable();
}

// Whether an entry is in a sorted list.
fn is_among(entries: &[u64], entry: u64) -> bool
    requires { IsSorted nat_cmp entries.now }
    ensures { IsTrue result ↔ Contains entries.now entry }
{
    match entries.binary_search(&entry) {
        Ok(_) => true,
        Err(_) => false,
    }
}

// The entry of the node with a number.
fn entry_at<Ix: Index>(graph: &Graph<Ix>, number: usize) -> u64
    requires { number < length graph.now }
    ensures { result ≡ (node_at graph.now number).entry }
{
    graph.entry_of(Ix::of(number))
}

// Whether the representative of a node is in a sorted list of entries.
fn is_lost(alike: &[(u64, u64)], lost: &[u64], entry: u64) -> bool
    requires alike { Ascend first_cmp alike.now }
    requires lost { IsSorted nat_cmp lost.now }
    ensures { IsTrue result ↔ Contains lost.now (accepted.rep alike.now entry) }
{
    is_among(lost, rep(alike, entry))
}

// The least entry so far, after one more entry that may count.
fn next_least(least: Option<u64>, entry: u64, counts: bool) -> Option<u64>
    ensures { result ≡ losses.next_least least entry counts }
{
    if !counts {
        return least;
    }
    match least {
        None => Some(entry),
        Some(before) => {
            if before < entry {
                Some(before)
            } else {
                Some(entry)
            }
        }
    }
}

// The least entry of a node whose representative is in a sorted list of entries.
fn least_lost<Ix: Index>(graph: &Graph<Ix>, alike: &[(u64, u64)], lost: &[u64]) -> Option<u64>
    requires alike { Ascend first_cmp alike.now }
    requires lost { IsSorted nat_cmp lost.now }
    ensures { FindsLeast graph.now alike.now lost.now (length graph.now) result }
{
    let mut least = None;
    for number in 0..graph.len() {
        let entry = entry_at(graph, number);
        let counts = is_lost(alike, lost, entry);
        least = next_least(least, entry, counts);
    }
    least
}

/// The least entry of the first library whose type is lost if the middle library is skipped. It fails only where an allocation does.
pub fn least_entry(
    alloc: Global,
    ground: &CertifiedChain,
    middles: &[(u64, u64)],
) -> Result<Option<u64>, NoMemory>
    requires { IsNonDecreasingBy first_of middles.now }
    ensures found { IfOk result (λ found. FindsLeastEntry (chain_of ground.now) middles.now found) }
    ensures named { IfErr result (λ e. e ≡ Allocation) }
{
    let mut lost = lost_entries(alloc, ground, middles, pairs_of(ground.one))?;
    if lost.is_empty() {
        return Ok(None);
    }
    sort(&mut lost);
    Ok(least_lost(ground.first.graph(), alike_old_of(ground.one), &lost))
}
