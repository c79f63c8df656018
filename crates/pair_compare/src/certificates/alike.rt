// The alike lines of a certificate.
ghost use Rattle.std.specs.Prelude.{◌≡◌, ◌<◌, ◌^◌, length, All, IfOk, IfSome, IfErr};
ghost use Rattle.std.specs.List.Sorted.{IsPermutation, IsSorted};
ghost use Rattle.abi_base.specs.declared.fault.NoMemory.TheVariants.{Allocation};
ghost use Rattle.type_classes.specs.Classes.{AreCoarsest};
ghost use Rattle.cert_text.specs.Certs.{IsBelow, first_cmp};
ghost use Rattle.pair_compare.specs.certificates.Lines.{AreAlikeLines};
ghost use Rattle.pair_compare.specs.certificates.LineLists.{alike_below};
ghost use Rattle.pair_compare.specs.certificates.LineLists as spec;

use crate::certificates::lists::push_some;
use abi_base::{List, NoMemory};
use abi_types::{Graph, Index};
use cert_check::laws::lines_stand_in_the_order_of_their_numbers;
use std::alloc::Global;
use type_classes::Classes;
use type_classes::laws::classes_stand_by_their_least_entries;

// The line of a node, unless it stands for its class.
fn alike_line<Ix: Index>(
    graph: &Graph<Ix>,
    classes: &Classes<Ix>,
    number: usize,
) -> Option<(u64, u64)>
    requires nodes { classes.now.nodes ≡ graph.now }
    requires inside { number < length graph.now }
    ensures line { result ≡ spec.alike_line classes.now number }
    ensures numbers { IfSome result (IsBelow (2 ^ 64)) }
{
    let node = Ix::of(number);
    let least = classes.rep(node);
    if least.number() == number {
        return None;
    }
    Some((graph.entry_of(node), graph.entry_of(least)))
}

// The line of each node that does not stand for its class.
fn lines_of<Ix: Index>(
    alloc: Global,
    graph: &Graph<Ix>,
    classes: &Classes<Ix>,
) -> Result<List<(u64, u64)>, NoMemory>
    requires { classes.now.nodes ≡ graph.now }
    ensures lines { IfOk result (λ lines. lines ≡ alike_below classes.now (length graph.now)) }
    ensures numbers { IfOk result (All (IsBelow (2 ^ 64))) }
    ensures named { IfErr result (λ e. e ≡ Allocation) }
{
    lines_stand_in_the_order_of_their_numbers();
    let mut lines = List::new(alloc);
    for number in 0..graph.len() {
        let line = alike_line(graph, classes, number);
        push_some(&mut lines, line)?;
    }
    Ok(lines)
}

fn sort(lines: &mut Vec<(u64, u64)>)
    ensures moved { IsPermutation lines.old.items lines.new.items }
    ensures sorted { IsSorted first_cmp lines.new.items }
{
    lines.sort_unstable_by_key(|line| line.0);
}

/// Each entry that is not the least of those alike to it, with that least entry. The lines are in strictly ascending order.
pub fn alike_lines<Ix: Index>(
    alloc: Global,
    graph: &Graph<Ix>,
    classes: &Classes<Ix>,
) -> Result<List<(u64, u64)>, NoMemory>
    requires nodes { classes.now.nodes ≡ graph.now }
    requires coarsest { AreCoarsest classes.now }
    ensures lines { IfOk result (AreAlikeLines graph.now) }
    ensures numbers { IfOk result (All (IsBelow (2 ^ 64))) }
    ensures named { IfErr result (λ e. e ≡ Allocation) }
{
    classes_stand_by_their_least_entries();
    lines_stand_in_the_order_of_their_numbers();
    graph.known();
    classes.known();
    let mut lines = lines_of(alloc, graph, classes)?.into_vec();
    sort(&mut lines);
    Ok(List::of(lines))
}
