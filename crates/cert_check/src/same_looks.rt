// Whether two nodes look alike: they are equal except for the nodes that their parts name, and these are of one class.
ghost use Rattle.std.specs.Prelude.{◌≡◌, ◌<◌, ◌==◌, ◌↔◌, IsTrue, length, map};
ghost use Rattle.std.specs.Bool.{beq};
ghost use Rattle.std.specs.Str.{bytes_eq};
ghost use Rattle.abi_types.specs.Graphs.{node_at};
ghost use Rattle.abi_types.specs.Parts.{plain_part};
ghost use Rattle.abi_types.specs.Plain.{plain_label};
ghost use Rattle.abi_types.specs.ClassLooks.{look_of, part_seen};
ghost use Rattle.pair_rules.specs.Same as same;
ghost use Rattle.cert_text.specs.Certs.{Ascend, first_cmp};
ghost use Rattle.cert_check.specs.Accepted.{class_in};
ghost use Rattle.cert_check.specs.CertifiedPair.{NamesNodes};
ghost use Rattle.cert_check.specs.Looks.{NamesInside};
ghost use Rattle.cert_check.specs.Looks as looks;

use crate::lookups::rep;
use abi_types::{Call, Graph, Group, Index, Kind, Label, LabelKind, Part, Place, View};
use pair_rules::laws::the_same_are_equal;

fn same_bytes(one: &[u8], other: &[u8]) -> bool
    ensures { result ≡ bytes_eq one.now other.now }
{
    one == other
}

fn same_kind(one: Kind, other: Kind) -> bool
    ensures { result ≡ same.same_kind one other }
{
    one == other
}

fn same_group(one: Group, other: Group) -> bool
    ensures { result ≡ same.same_group one other }
{
    one == other
}

fn same_place(one: Place, other: Place) -> bool
    ensures { result ≡ same.same_place one other }
{
    one == other
}

fn same_truth(one: bool, other: bool) -> bool
    ensures { result ≡ beq one other }
{
    one == other
}

fn same_label_kind(one: LabelKind, other: LabelKind) -> bool
    ensures { result ≡ looks.same_label_kind one other }
{
    match (one, other) {
        (LabelKind::Structure, LabelKind::Structure)
        | (LabelKind::Union, LabelKind::Union)
        | (LabelKind::Enumeration, LabelKind::Enumeration)
        | (LabelKind::Typedef, LabelKind::Typedef)
        | (LabelKind::Builtin, LabelKind::Builtin) => true,
        _ => false,
    }
}

fn same_label(one: &Label, other: &Label) -> bool
    ensures { result ≡ looks.same_label (plain_label one.now) (plain_label other.now) }
{
    same_label_kind(one.kind, other.kind) && same_bytes(one.name, other.name)
}

// Whether two nodes have the same labels in the same order.
fn same_labels(one: &[Label], other: &[Label]) -> bool
    ensures { IsTrue result ↔ (map plain_label one.now ≡ map plain_label other.now) }
{
    if one.len() != other.len() {
        return false;
    }
    for k in 0..one.len() {
        if !same_label(&one[k], &other[k]) {
            return false;
        }
    }
    true
}

// The class of a node: the representative of its entry.
fn class_of<Ix: Index>(graph: &Graph<Ix>, lines: &[(u64, u64)], ix: Ix) -> u64
    requires inside { Ix.number_of ix < length graph.now }
    requires ascend { Ascend first_cmp lines.now }
    ensures { result ≡ class_in graph.now lines.now (Ix.number_of ix) }
{
    rep(lines, graph.entry_of(ix))
}

fn same_class<Ix: Index>(graph: &Graph<Ix>, lines: &[(u64, u64)], one: Ix, other: Ix) -> bool
    requires one { Ix.number_of one < length graph.now }
    requires other { Ix.number_of other < length graph.now }
    requires ascend { Ascend first_cmp lines.now }
    ensures { result ≡ (class_in graph.now lines.now (Ix.number_of one)
        == class_in graph.now lines.now (Ix.number_of other)) }
{
    class_of(graph, lines, one) == class_of(graph, lines, other)
}

// Whether two parts are equal except for the nodes that they name, and these are of one class.
fn same_part<Ix: Index>(
    graph: &Graph<Ix>,
    lines: &[(u64, u64)],
    one: &Part<Ix>,
    other: &Part<Ix>,
) -> bool
    requires one { NamesInside graph.now (plain_part Ix.number_of one.now) }
    requires other { NamesInside graph.now (plain_part Ix.number_of other.now) }
    requires ascend { Ascend first_cmp lines.now }
    ensures { result ≡ looks.same_part (class_in graph.now lines.now) (plain_part Ix.number_of one.now)
        (plain_part Ix.number_of other.now) }
{
    match (one, other) {
        (
            Part::Member {
                name,
                bit,
                width,
                to,
            },
            Part::Member {
                name: other_name,
                bit: other_bit,
                width: other_width,
                to: other_to,
            },
        ) => {
            same_bytes(name, other_name)
                && *bit == *other_bit
                && *width == *other_width
                && same_class(graph, lines, *to, *other_to)
        }
        (
            Part::Enumerator { name, value },
            Part::Enumerator {
                name: other_name,
                value: other_value,
            },
        ) => same_bytes(name, other_name) && *value == *other_value,
        (Part::Target { to }, Part::Target { to: peer }) => same_class(graph, lines, *to, *peer),
        (Part::Element { to }, Part::Element { to: peer }) => same_class(graph, lines, *to, *peer),
        (Part::Outcome { to }, Part::Outcome { to: peer }) => same_class(graph, lines, *to, *peer),
        (Part::Param { to }, Part::Param { to: peer }) => same_class(graph, lines, *to, *peer),
        _ => false,
    }
}

// Whether two views have the same parts, where each named node is replaced by its class.
fn same_parts<Ix: Index>(
    graph: &Graph<Ix>,
    lines: &[(u64, u64)],
    one: &View<Ix>,
    other: &View<Ix>,
) -> bool
    requires one { NamesNodes graph.now one.now }
    requires other { NamesNodes graph.now other.now }
    requires ascend { Ascend first_cmp lines.now }
    ensures { IsTrue result ↔ (map (part_seen (class_in graph.now lines.now)) one.now.parts
        ≡ map (part_seen (class_in graph.now lines.now)) other.now.parts) }
{
    if one.parts_len() != other.parts_len() {
        return false;
    }
    for k in 0..one.parts_len() {
        if !same_part(graph, lines, one.part(k), other.part(k)) {
            return false;
        }
    }
    true
}

// Whether two views are equal except for their parts and calls.
fn same_heads<Ix: Index>(one: &View<Ix>, other: &View<Ix>) -> bool
    ensures { result ≡ looks.same_heads one.now other.now }
{
    same_kind(one.kind, other.kind)
        && same_group(one.group, other.group)
        && same_truth(one.declared_only, other.declared_only)
        && same_truth(one.variadic, other.variadic)
        && same_bytes(one.tag, other.tag)
        && one.size == other.size
        && one.align == other.align
        && one.count == other.count
}

fn same_params(one: &[Place], other: &[Place]) -> bool
    ensures { IsTrue result ↔ (one.now ≡ other.now) }
{
    the_same_are_equal();
    if one.len() != other.len() {
        return false;
    }
    for k in 0..one.len() {
        if !same_place(one[k], other[k]) {
            return false;
        }
    }
    true
}

// Whether two calls have the same places.
fn same_call(one: &Call, other: &Call) -> bool
    ensures { IsTrue result ↔ (one.now ≡ other.now) }
{
    the_same_are_equal();
    same_place(one.outcome(), other.outcome()) && same_params(one.params(), other.params())
}

/// Whether two nodes have the same labels and equal views, except for the nodes that parts name; those at one position must be of
/// one class.
pub fn look_alike<Ix: Index>(graph: &Graph<Ix>, lines: &[(u64, u64)], one: Ix, other: Ix) -> bool
    requires one { Ix.number_of one < length graph.now }
    requires other { Ix.number_of other < length graph.now }
    requires ascend { Ascend first_cmp lines.now }
    ensures { IsTrue result ↔ (look_of (class_in graph.now lines.now) (node_at graph.now (Ix.number_of one))
        ≡ look_of (class_in graph.now lines.now) (node_at graph.now (Ix.number_of other))) }
{
    the_same_are_equal();
    graph.known();
    if !same_labels(graph.labels(one), graph.labels(other)) {
        return false;
    }
    let one = graph.view(one);
    let other = graph.view(other);
    if !same_heads(one, other) {
        return false;
    }
    if !same_parts(graph, lines, one, other) {
        return false;
    }
    same_call(&one.call, &other.call)
}
