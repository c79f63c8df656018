// The pair lines that two certificates compose.
ghost use Rattle.std.specs.Prelude.{◌≡◌, ◌≤◌, ◌++◌, ℕ, length, true, false, IfErr, IfOk, OnOk};
ghost use Rattle.std.proofs.Common.{ltb};
ghost use Rattle.std.specs.List.Sorted.{IsPartitionPoint, IsNonDecreasingBy};
ghost use Rattle.abi_base.specs.declared.fault.NoMemory.TheVariants.{Allocation};
ghost use Rattle.cert_text.specs.Certs.{Ascend, PairLine, first_cmp, pair_cmp};
ghost use Rattle.cert_compose.specs.Joins.{followed, followed_by, joins, first_of, line_first, same_way};
ghost use Rattle.cert_compose.specs.Joins as spec;

use abi_base::{List, NoMemory};
use abi_types::Way;
use cert_check::line_of;
use std::alloc::Global;

/// The pair lines of a certificate, and the alike lines of its outer library.
#[derive(Clone, Copy)]
pub struct Lines<'x> {
    /// The alike lines of the library that is not the middle one.
    pub alike: &'x [(u64, u64)],
    /// The pair lines.
    pub pairs: &'x [(u64, u64, Way)],
}

fn is_same_way(one: Way, other: Way) -> bool
    ensures { result ≡ same_way one other }
{
    match (one, other) {
        (Way::Direct, Way::Direct) | (Way::Pointer, Way::Pointer) => true,
        _ => false,
    }
}

/// The position of the first pair line whose old entry is not below a number.
pub(crate) fn lines_from(lines: &[(u64, u64, Way)], number: u64) -> usize
    requires { Ascend pair_cmp lines.now }
    ensures inside { result ≤ length lines.now }
    ensures parts { IsPartitionPoint (λ (line : PairLine). ltb (line_first line) number
        ≡ true) (λ (line : PairLine). ltb (line_first line) number ≡ false) lines.now result }
{
    lines.partition_point(|line| line.0 < number)
}

/// The position of the first pair of representatives whose first one is not below a number.
pub(crate) fn middles_from(middles: &[(u64, u64)], number: u64) -> usize
    requires { IsNonDecreasingBy first_of middles.now }
    ensures inside { result ≤ length middles.now }
    ensures parts { IsPartitionPoint (λ (middle : ℕ × ℕ). ltb (first_of middle) number
        ≡ true) (λ (middle : ℕ × ℕ). ltb (first_of middle) number ≡ false) middles.now result }
{
    middles.partition_point(|middle| middle.0 < number)
}

// Appends the line that a line of the second certificate gives for a key, if it gives one. A key is an old entry, a middle entry
// and a way.
fn put_followed(
    lines: &mut List<(u64, u64, Way)>,
    alike: &[(u64, u64)],
    key: (u64, u64, Way),
    line: (u64, u64, Way),
) -> Result<(), NoMemory>
    requires { Ascend first_cmp alike.now }
    ensures put { OnOk result (lines.new ≡ lines.old ++ followed_by alike.now key.0 key.1 key.2 line) }
    ensures named { IfErr result (λ e. e ≡ Allocation) }
{
    if line.0 == key.1 && is_same_way(line.2, key.2) && line_of(alike, line.1).is_none() {
        return lines.push((key.0, line.1, key.2));
    }
    Ok(())
}

// Appends the lines that the second certificate gives for a key.
fn follow(
    lines: &mut List<(u64, u64, Way)>,
    alike: &[(u64, u64)],
    seconds: &[(u64, u64, Way)],
    key: (u64, u64, Way),
) -> Result<(), NoMemory>
    requires alike { Ascend first_cmp alike.now }
    requires seconds { Ascend pair_cmp seconds.now }
    ensures appended { OnOk result (lines.new ≡ lines.old ++ followed alike.now seconds.now key.0 key.1 key.2) }
    ensures named { IfErr result (λ e. e ≡ Allocation) }
{
    let start = lines_from(seconds, key.1);
    for k in start..seconds.len() {
        let line = seconds[k];
        if line.0 != key.1 {
            return Ok(());
        }
        put_followed(lines, alike, key, line)?;
    }
    Ok(())
}

/// Appends the lines that go through the middle library from an old entry, given the middle entry with which it is paired. It fails only
/// where an allocation does.
pub fn through(
    lines: &mut List<(u64, u64, Way)>,
    alike: &[(u64, u64)],
    seconds: &[(u64, u64, Way)],
    middles: &[(u64, u64)],
    line: (u64, u64, Way),
) -> Result<(), NoMemory>
    requires alike { Ascend first_cmp alike.now }
    requires seconds { Ascend pair_cmp seconds.now }
    requires middles { IsNonDecreasingBy first_of middles.now }
    ensures appended { OnOk result (lines.new
        ≡ lines.old ++ spec.through alike.now seconds.now middles.now line.0 line.1 line.2) }
    ensures named { IfErr result (λ e. e ≡ Allocation) }
{
    let start = middles_from(middles, line.1);
    for k in start..middles.len() {
        let middle = middles[k];
        if middle.0 != line.1 {
            return Ok(());
        }
        follow(lines, alike, seconds, (line.0, middle.1, line.2))?;
    }
    Ok(())
}

/// The lines that the lines of the first certificate give, in the order in which they are found. It fails only where an allocation does.
pub fn join(
    alloc: Global,
    ones: &Lines,
    others: &Lines,
    middles: &[(u64, u64)],
) -> Result<List<(u64, u64, Way)>, NoMemory>
    requires alike_old { Ascend first_cmp ones.now.alike.now }
    requires alike_new { Ascend first_cmp others.now.alike.now }
    requires seconds { Ascend pair_cmp others.now.pairs.now }
    requires middles { IsNonDecreasingBy first_of middles.now }
    ensures joined { IfOk result (λ lines. lines
        ≡ joins ones.now.alike.now others.now.alike.now others.now.pairs.now middles.now ones.now.pairs.now) }
    ensures named { IfErr result (λ e. e ≡ Allocation) }
{
    let mut lines = List::new(alloc);
    for line in ones.pairs {
        if line_of(ones.alike, line.0).is_none() {
            through(&mut lines, others.alike, others.pairs, middles, *line)?;
        }
    }
    Ok(lines)
}
