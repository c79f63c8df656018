// Equality of two graphs, of any libraries.
ghost use Rattle.std.specs.Prelude.{◌≡◌, ◌<◌, ◌↔◌, IsTrue, length, map};
ghost use Rattle.abi_types.specs.Graphs.{node_at};
ghost use Rattle.abi_types.specs.Parts.{plain_part};
ghost use Rattle.abi_types.specs.Plain.{plain_label};
ghost use Rattle.pair_rules.specs.Same as spec;
ghost use Rattle.type_classes.specs.Same.{HaveSameHeads};

use abi_types::{Call, Graph, Group, Index, Kind, Label, LabelKind, Part, Place, View};
use pair_rules::laws::the_same_are_equal;

fn same_bytes(one: &[u8], other: &[u8]) -> bool
    ensures { IsTrue result ↔ (one.now ≡ other.now) }
{
    one == other
}

fn same_kind(one: Kind, other: Kind) -> bool
    ensures { IsTrue result ↔ (one ≡ other) }
{
    one == other
}

fn same_group(one: Group, other: Group) -> bool
    ensures { IsTrue result ↔ (one ≡ other) }
{
    one == other
}

fn same_truth(one: bool, other: bool) -> bool
    ensures { IsTrue result ↔ (one ≡ other) }
{
    one == other
}

fn same_label_kind(one: LabelKind, other: LabelKind) -> bool
    ensures { IsTrue result ↔ (one ≡ other) }
{
    one == other
}

fn same_place(one: Place, other: Place) -> bool
    ensures { result ≡ spec.same_place one other }
{
    one == other
}

fn same_label(one: &Label, other: &Label) -> bool
    ensures { IsTrue result → plain_label one.now ≡ plain_label other.now }
{
    same_label_kind(one.kind, other.kind) && same_bytes(one.name, other.name)
}

fn same_labels(one: &[Label], other: &[Label]) -> bool
    ensures { IsTrue result → map plain_label one.now ≡ map plain_label other.now }
{
    if one.len() != other.len() {
        return false;
    }
    for k in 0..one.len() {
        if !same_label(&one[k], &other[k]) {
            return false;
        }
    }
    true
}

fn same_node<Ix: Index, Jx: Index>(one: Ix, other: Jx) -> bool
    ensures { IsTrue result ↔ (Ix.number_of one ≡ Jx.number_of other) }
{
    one.number() == other.number()
}

fn same_part<Ix: Index, Jx: Index>(one: &Part<Ix>, other: &Part<Jx>) -> bool
    ensures { IsTrue result → plain_part Ix.number_of one.now ≡ plain_part Jx.number_of other.now }
{
    match (one, other) {
        (
            Part::Member {
                name,
                bit,
                width,
                to,
            },
            Part::Member {
                name: other_name,
                bit: other_bit,
                width: other_width,
                to: other_to,
            },
        ) => {
            same_bytes(name, other_name)
                && *bit == *other_bit
                && *width == *other_width
                && same_node(*to, *other_to)
        }
        (
            Part::Enumerator { name, value },
            Part::Enumerator {
                name: other_name,
                value: other_value,
            },
        ) => same_bytes(name, other_name) && *value == *other_value,
        (Part::Target { to }, Part::Target { to: other_to }) => same_node(*to, *other_to),
        (Part::Element { to }, Part::Element { to: other_to }) => same_node(*to, *other_to),
        (Part::Outcome { to }, Part::Outcome { to: other_to }) => same_node(*to, *other_to),
        (Part::Param { to }, Part::Param { to: other_to }) => same_node(*to, *other_to),
        _ => false,
    }
}

fn same_parts<Ix: Index, Jx: Index>(one: &View<Ix>, other: &View<Jx>) -> bool
    ensures { IsTrue result → one.now.parts ≡ other.now.parts }
{
    if one.parts_len() != other.parts_len() {
        return false;
    }
    for k in 0..one.parts_len() {
        if !same_part(one.part(k), other.part(k)) {
            return false;
        }
    }
    true
}

// Whether two views are the same except for their parts and calls.
fn same_heads<Ix: Index, Jx: Index>(one: &View<Ix>, other: &View<Jx>) -> bool
    ensures { IsTrue result → HaveSameHeads one.now other.now }
{
    same_kind(one.kind, other.kind)
        && same_group(one.group, other.group)
        && same_truth(one.declared_only, other.declared_only)
        && same_truth(one.variadic, other.variadic)
        && same_bytes(one.tag, other.tag)
        && one.size == other.size
        && one.align == other.align
        && one.count == other.count
}

fn same_params(one: &[Place], other: &[Place]) -> bool
    ensures { IsTrue result → one.now ≡ other.now }
{
    the_same_are_equal();
    if one.len() != other.len() {
        return false;
    }
    for k in 0..one.len() {
        if !same_place(one[k], other[k]) {
            return false;
        }
    }
    true
}

fn same_call(one: &Call, other: &Call) -> bool
    ensures { IsTrue result → one.now ≡ other.now }
{
    the_same_are_equal();
    same_place(one.outcome(), other.outcome()) && same_params(one.params(), other.params())
}

fn same_view<Ix: Index, Jx: Index>(one: &View<Ix>, other: &View<Jx>) -> bool
    ensures { IsTrue result → one.now ≡ other.now }
{
    same_heads(one, other) && same_parts(one, other) && same_call(&one.call, &other.call)
}

// Whether the nodes with one number are the same.
fn same_at<Ix: Index, Jx: Index>(one: &Graph<Ix>, other: &Graph<Jx>, node: usize) -> bool
    requires one { node < length one.now }
    requires other { node < length other.now }
    ensures { IsTrue result → node_at one.now node ≡ node_at other.now node }
{
    let ix = Ix::of(node);
    let jx = Jx::of(node);
    one.entry_of(ix) == other.entry_of(jx)
        && one.rank(ix) == other.rank(jx)
        && same_view(one.view(ix), other.view(jx))
        && same_labels(one.labels(ix), other.labels(jx))
}

/// Whether two graphs have the same nodes under the same numbers. Stops at the first difference.
pub(crate) fn are_same<Ix: Index, Jx: Index>(one: &Graph<Ix>, other: &Graph<Jx>) -> bool
    ensures { IsTrue result → one.now ≡ other.now }
{
    if one.len() != other.len() {
        return false;
    }
    for node in 0..one.len() {
        if !same_at(one, other, node) {
            return false;
        }
    }
    true
}
