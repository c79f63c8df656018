// The pair lines of a certificate: which types are reached in place of which.
ghost use Rattle.std.specs.Prelude.{◌≡◌, ◌^◌, List as Sequence, map, All, IfOk, IfErr};
ghost use Rattle.std.specs.List.Sorted.{IsPermutation, IsSorted};
ghost use Rattle.abi_base.specs.declared.fault.NoMemory.TheVariants.{Allocation};
ghost use Rattle.type_classes.specs.Classes.{PlainClasses};
ghost use Rattle.pair_explorer.specs.declared.visits.Visit.{Visit};
ghost use Rattle.cert_text.specs.Certs.{PairLine, IsPairBelow, pair_cmp};
ghost use Rattle.cert_text.specs.Certs as spec;
ghost use Rattle.cert_check.specs.Compatible.{Sides, task_of};
ghost use Rattle.pair_compare.specs.certificates.Lines.{ArePairLines};
ghost use Rattle.pair_compare.specs.certificates.LineLists.{AreInside, pair_line};
ghost use Rattle.pair_compare.specs.certificates.Searches.{AreClassesOf, IsUnbroken};

use abi_base::{List, NoMemory};
use abi_types::{Graph, NewIx, OldIx, Way};
use pair_explorer::Visits;
use pair_explorer::laws::{what_is_visited_has_a_visit, what_is_visited_is_reachable};
use pair_rules::laws::paths_lead_to_nodes;
use std::alloc::Global;
use type_classes::laws::classes_stand_by_their_least_entries;

fn is_pointer(way: Way) -> bool
    ensures { result ≡ spec.is_pointer way }
{
    match way {
        Way::Direct => false,
        Way::Pointer => true,
    }
}

// The line of each visit.
fn lines_of(
    alloc: Global,
    old: &Graph<OldIx>,
    new: &Graph<NewIx>,
    visits: &Visits,
) -> Result<Vec<(u64, u64, Way)>, NoMemory>
    requires { AreInside old.now new.now visits.now }
    ensures lines { IfOk result (λ lines. lines.items ≡ map (pair_line old.now new.now) visits.now) }
    ensures numbers { IfOk result (λ lines. All (IsPairBelow (2 ^ 64)) lines.items) }
    ensures named { IfErr result (λ e. e ≡ Allocation) }
{
    let mut lines = Vec::new(alloc);
    for number in 0..visits.len() {
        let visit = visits.visit(number);
        let old_entry = old.entry_of(visit.old);
        let new_entry = new.entry_of(visit.new);
        lines.push((old_entry, new_entry, visit.way))?;
    }
    Ok(lines)
}

fn sort(lines: &mut Vec<(u64, u64, Way)>)
    ensures moved { IsPermutation lines.old.items lines.new.items }
    ensures sorted { IsSorted pair_cmp lines.new.items }
{
    lines.sort_unstable_by_key(|line| (line.0, line.1, is_pointer(line.2)));
}

/// The line of each visit, in the order that a certificate requires.
pub fn pair_lines(
    alloc: Global,
    old: &Graph<OldIx>,
    new: &Graph<NewIx>,
    visits: &Visits,
) -> Result<List<(u64, u64, Way)>, NoMemory>
    requires { AreInside old.now new.now visits.now }
    ensures moved { IfOk result (IsPermutation (map (pair_line old.now new.now) visits.now)) }
    ensures sorted { IfOk result (IsSorted pair_cmp) }
    ensures numbers { IfOk result (All (IsPairBelow (2 ^ 64))) }
    ensures named { IfErr result (λ e. e ≡ Allocation) }
{
    let mut lines = lines_of(alloc, old, new, visits)?;
    sort(&mut lines);
    Ok(List::of(lines))
}

/// For a search without a break, the lines of its visits, in the order that a certificate requires, are the pair lines of the
/// certificate. The function does nothing.
pub fn visits_are_pair_lines()
    ensures { (s : Sides) (old new : PlainClasses) (visits : Sequence Visit) (lines : Sequence PairLine)
        → AreClassesOf s old new → IsUnbroken s old new visits
        → IsPermutation (map (pair_line s.old.graph s.new.graph) visits) lines → IsSorted pair_cmp lines → ArePairLines (task_of s) lines }
{
    classes_stand_by_their_least_entries();
    what_is_visited_is_reachable();
    what_is_visited_has_a_visit();
    paths_lead_to_nodes();
}
