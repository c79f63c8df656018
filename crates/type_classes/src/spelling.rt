// The spelling of a node's shape: the node without the nodes that its parts name, as numbers and letters.
ghost use Rattle.std.specs.Prelude.{◌≡◌, ◌<◌, ◌++◌, [], ◌∷◌, length, map, flat_map, IfOk, OnOk, IfErr};
ghost use Rattle.abi_base.specs.declared.fault.NoMemory.TheVariants.{Allocation};
ghost use Rattle.abi_types.specs.Plain.{plain_label};
ghost use Rattle.abi_types.specs.Parts.{plain_part};
ghost use Rattle.pair_rules.specs.Same as same;
ghost use Rattle.type_classes.specs.Shapes.{spelled_list, spelled_slot, spelled_place, spelled_call, spelled_part, spelled_label, spelled_numbers, spelled_view, spelled, letters_of_label, letters_of};
ghost use Rattle.type_classes.specs.Shapes as shapes_spec;
ghost use Rattle.type_classes.specs.Numbered.{AreOneSpelling, IsSpellingOf};
ghost use Rattle.type_classes.specs.declared.spelling.Spelling.{Spelling};

use abi_base::NoMemory;
use abi_types::{Call, Group, Index, Kind, Label, LabelKind, Part, Place, Slot, View};
use std::alloc::Global;

/// The spelling of a shape: its numbers, including the length of each name, and the letters of its names, one name after the other.
/// Spellings are ordered by their numbers, and then by their letters. A file chooses both, so spellings are kept in search trees: in a
/// table of hash codes a file could make them collide.
#[derive(PartialEq, Eq, PartialOrd, Ord, Drop)]
pub struct Spelling {
    pub numbers: Vec<u64>,
    pub letters: Vec<u8>,
}

// Each kind has its own number, as have groups, kinds of labels, slots, places and parts.

// The head of a view packs its kind, its group and two flags into one number. Each has a factor above the greatest sum of those
// before it. There are 9 kinds and 7 groups.
const GROUP_STEP: u64 = 9;
// 9 kinds times 7 groups.
const DECLARED_ONLY_STEP: u64 = 63;
// Twice that, for the flag `declared_only`.
const VARIADIC_STEP: u64 = 126;

// There are 5 sorts of slots. A slot's number is that of its register times 5, plus its sort.
const SLOT_STEP: u64 = 5;

// The number of eightbytes of a place in registers.
const EIGHTBYTES: u64 = 8;

// The first numbers of spelled places.
const NOTHING: u64 = 0;

const REGISTERS: u64 = 1;

const STACK: u64 = 2;

const HIDDEN: u64 = 3;

// The first numbers of spelled parts.
const MEMBER: u64 = 0;

const ENUMERATOR: u64 = 1;

const TARGET: u64 = 2;

const ELEMENT: u64 = 3;

const OUTCOME: u64 = 4;

const PARAM: u64 = 5;

fn kind_number(kind: Kind) -> u64
    ensures number { result ≡ same.kind_number kind }
    ensures small { result < 9 }
{
    match kind {
        Kind::Void => 0,
        Kind::Scalar => 1,
        Kind::Pointer => 2,
        Kind::Enumeration => 3,
        Kind::Structure => 4,
        Kind::Union => 5,
        Kind::Array => 6,
        Kind::Vector => 7,
        Kind::Function => 8,
    }
}

fn group_number(group: Group) -> u64
    ensures number { result ≡ same.group_number group }
    ensures small { result < 7 }
{
    match group {
        Group::Bool => 0,
        Group::Signed => 1,
        Group::Unsigned => 2,
        Group::Float => 3,
        Group::Quad => 4,
        Group::Complex => 5,
        Group::Decimal => 6,
    }
}

fn label_number(kind: LabelKind) -> u64
    ensures { result ≡ shapes_spec.label_number kind }
{
    match kind {
        LabelKind::Structure => 0,
        LabelKind::Union => 1,
        LabelKind::Enumeration => 2,
        LabelKind::Typedef => 3,
        LabelKind::Builtin => 4,
    }
}

fn push_pair(into: &mut Vec<u64>, one: u64, other: u64) -> Result<(), NoMemory>
    ensures appended { OnOk result (into.new.items ≡ into.old.items ++ one ∷ other ∷ []) }
    ensures named { IfErr result (λ e. e ≡ Allocation) }
{
    into.push(one)?;
    into.push(other)?;
    Ok(())
}

fn slot_number(slot: Slot) -> u64
    ensures { result ≡ shapes_spec.slot_number slot }
{
    match slot {
        Slot::Unused => 0,
        Slot::General(number) => SLOT_STEP * u64::from(number) + 1,
        Slot::Vector(number) => SLOT_STEP * u64::from(number) + 2,
        Slot::Upper(number) => SLOT_STEP * u64::from(number) + 3,
        Slot::X87(number) => SLOT_STEP * u64::from(number) + 4,
    }
}

// Appends the numbers as one slice, which is faster than one by one.
fn push_registers(into: &mut Vec<u64>, slots: &[Slot; 8]) -> Result<(), NoMemory>
    ensures appended { OnOk result (into.new.items ≡ into.old.items ++ 1 ∷ spelled_list spelled_slot slots.now) }
    ensures named { IfErr result (λ e. e ≡ Allocation) }
{
    into.extend_from_slice(&[
        REGISTERS,
        EIGHTBYTES,
        slot_number(slots[0]),
        slot_number(slots[1]),
        slot_number(slots[2]),
        slot_number(slots[3]),
        slot_number(slots[4]),
        slot_number(slots[5]),
        slot_number(slots[6]),
        slot_number(slots[7]),
    ])?;
    Ok(())
}

fn push_stack(into: &mut Vec<u64>, offset: u64, size: u64) -> Result<(), NoMemory>
    ensures appended { OnOk result (into.new.items ≡ into.old.items ++ 2 ∷ offset ∷ size ∷ []) }
    ensures named { IfErr result (λ e. e ≡ Allocation) }
{
    into.extend_from_slice(&[STACK, offset, size])?;
    Ok(())
}

fn push_number(into: &mut Vec<u64>, number: u64) -> Result<(), NoMemory>
    ensures appended { OnOk result (into.new.items ≡ into.old.items ++ number ∷ []) }
    ensures named { IfErr result (λ e. e ≡ Allocation) }
{
    into.push(number)?;
    Ok(())
}

#[tactic(auto, unfolding(crate::specs::Shapes::spelled_place))]
fn push_place(into: &mut Vec<u64>, place: &Place) -> Result<(), NoMemory>
    ensures appended { OnOk result (into.new.items ≡ into.old.items ++ spelled_place place.now) }
    ensures named { IfErr result (λ e. e ≡ Allocation) }
{
    match place {
        Place::Nothing => push_number(into, NOTHING),
        Place::Registers { eightbytes } => push_registers(into, eightbytes),
        Place::Stack { offset, size } => push_stack(into, *offset, *size),
        Place::Hidden => push_number(into, HIDDEN),
    }
}

fn push_places(into: &mut Vec<u64>, places: &[Place]) -> Result<(), NoMemory>
    ensures appended { OnOk result (into.new.items ≡ into.old.items ++ spelled_list spelled_place places.now) }
    ensures named { IfErr result (λ e. e ≡ Allocation) }
{
    into.push(places.len() as u64)?;
    'places: for i in 0..places.len() {
        push_place(into, &places[i])?;
    }
    Ok(())
}

fn push_member(into: &mut Vec<u64>, letters: usize, bit: u64, width: u64) -> Result<(), NoMemory>
    ensures appended { OnOk result (into.new.items ≡ into.old.items ++ 0 ∷ letters ∷ bit ∷ width ∷ []) }
    ensures named { IfErr result (λ e. e ≡ Allocation) }
{
    into.extend_from_slice(&[MEMBER, letters as u64, bit, width])?;
    Ok(())
}

fn push_enumerator(into: &mut Vec<u64>, letters: usize, value: u64) -> Result<(), NoMemory>
    ensures appended { OnOk result (into.new.items ≡ into.old.items ++ 1 ∷ letters ∷ value ∷ []) }
    ensures named { IfErr result (λ e. e ≡ Allocation) }
{
    into.extend_from_slice(&[ENUMERATOR, letters as u64, value])?;
    Ok(())
}

#[tactic(auto, unfolding(crate::specs::Shapes::spelled_part))]
fn push_part<Ix: Index>(into: &mut Vec<u64>, part: &Part<Ix>) -> Result<(), NoMemory>
    ensures appended { OnOk result (into.new.items
        ≡ into.old.items ++ spelled_part (plain_part Ix.number_of part.now)) }
    ensures named { IfErr result (λ e. e ≡ Allocation) }
{
    match part {
        Part::Member {
            name,
            bit,
            width,
            ..
        } => push_member(into, name.len(), *bit, *width),
        Part::Enumerator { name, value } => push_enumerator(into, name.len(), *value),
        Part::Target { .. } => push_number(into, TARGET),
        Part::Element { .. } => push_number(into, ELEMENT),
        Part::Outcome { .. } => push_number(into, OUTCOME),
        Part::Param { .. } => push_number(into, PARAM),
    }
}

fn push_parts<Ix: Index>(into: &mut Vec<u64>, parts: &[Part<Ix>]) -> Result<(), NoMemory>
    ensures appended { OnOk result (into.new.items
        ≡ into.old.items ++ spelled_list spelled_part (map (plain_part Ix.number_of) parts.now)) }
    ensures named { IfErr result (λ e. e ≡ Allocation) }
{
    into.push(parts.len() as u64)?;
    'parts: for i in 0..parts.len() {
        push_part(into, &parts[i])?;
    }
    Ok(())
}

fn push_label(into: &mut Vec<u64>, label: &Label) -> Result<(), NoMemory>
    ensures appended { OnOk result (into.new.items ≡ into.old.items ++ spelled_label (plain_label label.now)) }
    ensures named { IfErr result (λ e. e ≡ Allocation) }
{
    push_pair(into, label_number(label.kind), label.name.len() as u64)
}

fn push_labels(into: &mut Vec<u64>, labels: &[Label]) -> Result<(), NoMemory>
    ensures appended { OnOk result (into.new.items
        ≡ into.old.items ++ spelled_list spelled_label (map plain_label labels.now)) }
    ensures named { IfErr result (λ e. e ≡ Allocation) }
{
    into.push(labels.len() as u64)?;
    'labels: for i in 0..labels.len() {
        push_label(into, &labels[i])?;
    }
    Ok(())
}

#[tactic(auto, unfolding(crate::specs::Shapes::spelled_call))]
fn push_call(into: &mut Vec<u64>, call: &Call) -> Result<(), NoMemory>
    ensures appended { OnOk result (into.new.items ≡ into.old.items ++ spelled_call call.now) }
    ensures named { IfErr result (λ e. e ≡ Allocation) }
{
    push_place(into, &call.outcome())?;
    push_places(into, call.params())
}

fn head_number(kind: Kind, group: Group, declared_only: bool, variadic: bool) -> u64
    ensures { result ≡ shapes_spec.head_number kind group declared_only variadic }
{
    kind_number(kind)
        + GROUP_STEP * group_number(group)
        + DECLARED_ONLY_STEP * u64::from(declared_only)
        + VARIADIC_STEP * u64::from(variadic)
}

fn push_numbers<Ix: Index>(into: &mut Vec<u64>, view: &View<Ix>) -> Result<(), NoMemory>
    ensures appended { OnOk result (into.new.items ≡ into.old.items ++ spelled_numbers view.now) }
    ensures named { IfErr result (λ e. e ≡ Allocation) }
{
    let head = head_number(view.kind, view.group, view.declared_only, view.variadic);
    let letters = view.tag.len() as u64;
    into.extend_from_slice(&[head, view.size, view.align, view.count, letters])?;
    Ok(())
}

#[tactic(auto, unfolding(crate::specs::Shapes::spelled_view))]
fn push_view<Ix: Index>(into: &mut Vec<u64>, view: &View<Ix>) -> Result<(), NoMemory>
    ensures appended { OnOk result (into.new.items ≡ into.old.items ++ spelled_view view.now) }
    ensures named { IfErr result (λ e. e ≡ Allocation) }
{
    push_numbers(into, view)?;
    push_parts(into, view.parts.as_slice())?;
    push_call(into, &view.call)
}

// The letters of labels.
fn push_label_letters(into: &mut Vec<u8>, labels: &[Label]) -> Result<(), NoMemory>
    ensures appended { OnOk result (into.new.items
        ≡ into.old.items ++ flat_map letters_of_label (map plain_label labels.now)) }
    ensures named { IfErr result (λ e. e ≡ Allocation) }
{
    'labels: for i in 0..labels.len() {
        into.extend_from_slice(labels[i].name)?;
    }
    Ok(())
}

// The letters of a part.
fn letters_of_part<'a, Ix: Index>(part: &Part<'a, Ix>) -> &'a [u8]
    ensures { result.now ≡ shapes_spec.letters_of_part (plain_part Ix.number_of part.now) }
{
    match part {
        Part::Member { name, .. } | Part::Enumerator { name, .. } => *name,
        Part::Target { .. } | Part::Element { .. } | Part::Outcome { .. } | Part::Param { .. } => {
            b""
        }
    }
}

// The letters of parts.
fn push_part_letters<Ix: Index>(into: &mut Vec<u8>, parts: &[Part<Ix>]) -> Result<(), NoMemory>
    ensures appended { OnOk result (into.new.items
        ≡ into.old.items ++ flat_map shapes_spec.letters_of_part (map (plain_part Ix.number_of) parts.now)) }
    ensures named { IfErr result (λ e. e ≡ Allocation) }
{
    'parts: for i in 0..parts.len() {
        let letters = letters_of_part(&parts[i]);
        into.extend_from_slice(letters)?;
    }
    Ok(())
}

// The letters of a shape.
#[tactic(auto, unfolding(crate::specs::Shapes::letters_of))]
fn push_letters<Ix: Index>(
    into: &mut Vec<u8>,
    labels: &[Label],
    view: &View<Ix>,
) -> Result<(), NoMemory>
    ensures appended { OnOk result (into.new.items
        ≡ into.old.items ++ letters_of (record { labels = map plain_label labels.now; view = view.now })) }
    ensures named { IfErr result (λ e. e ≡ Allocation) }
{
    push_label_letters(into, labels)?;
    into.extend_from_slice(view.tag)?;
    push_part_letters(into, view.parts.as_slice())
}

/// Spells the shape of a node into a spelling whose contents it replaces.
#[tactic(auto, unfolding(crate::specs::Shapes::spelled))]
pub(crate) fn spell<Ix: Index>(
    into: &mut Spelling,
    labels: &[Label],
    view: &View<Ix>,
) -> Result<(), NoMemory>
    ensures spelled { OnOk result (IsSpellingOf into.new
        (record { labels = map plain_label labels.now; view = view.now })) }
    ensures named { IfErr result (λ e. e ≡ Allocation) }
{
    into.numbers.clear();
    into.letters.clear();
    push_labels(&mut into.numbers, labels)?;
    push_view(&mut into.numbers, view)?;
    push_letters(&mut into.letters, labels, view)
}

/// A copy of the spelling, without spare capacity.
pub(crate) fn copy(alloc: Global, spelling: &Spelling) -> Result<Spelling, NoMemory>
    ensures copied { IfOk result (λ copied. AreOneSpelling copied spelling.now) }
    ensures named { IfErr result (λ e. e ≡ Allocation) }
{
    Ok(Spelling {
        numbers: Vec::from_slice(alloc, spelling.numbers.as_slice())?,
        letters: Vec::from_slice(alloc, spelling.letters.as_slice())?,
    })
}
