// Which names of types the sections mark. Each name is judged once.
ghost use Rattle.std.specs.Prelude.{◌≡◌, IfErr, IfOk, OnOk, map};
ghost use Rattle.abi_base.specs.declared.fault.NoMemory.TheVariants.{Allocation};
ghost use Rattle.std.specs.Option.{option_copied};
ghost use Rattle.abi_types.specs.Plain.{plain_label};
ghost use Rattle.suppressions.specs.Names as spec;
ghost use Rattle.suppressions.specs.Known.{known_of, name_ways, names_ways, IsKnown};
ghost use Rattle.suppressions.specs.Known as known_spec;

use crate::ready_section::ReadyRules;
use crate::subject::Subject;
use abi_base::NoMemory;
use abi_types::{Label, LabelKind, Way};
use std::collections::BTreeMap;

/// Whether a type is marked, by how a program reaches it.
#[derive(Clone, Copy)]
pub struct MarkedByWay {
    /// Marked if it is reached by value.
    pub direct: bool,
    /// Marked if it is reached through a pointer.
    pub pointer: bool,
}

/// The number of a kind of names, from 0: search trees of names keep a name under its kind.
pub fn kind_number(kind: LabelKind) -> u8
    ensures { result ≡ known_spec.kind_number kind }
{
    match kind {
        LabelKind::Structure => 0,
        LabelKind::Union => 1,
        LabelKind::Enumeration => 2,
        LabelKind::Typedef => 3,
        LabelKind::Builtin => 4,
    }
}

// Judges a name: how the sections mark it.
fn judge_name(sections: &mut ReadyRules, soname: Option<&[u8]>, label: &Label) -> MarkedByWay
    ensures ways { result ≡ name_ways sections.old (option_copied soname.entry) (plain_label label.now) }
    ensures same { sections.new ≡ sections.old }
{
    let direct = sections.some_holds(&Subject::of_label(soname, Way::Direct, label));
    let pointer = sections.some_holds(&Subject::of_label(soname, Way::Pointer, label));
    MarkedByWay { direct, pointer }
}

// The answer for a name that was judged before.
fn known_name<'x>(
    known: &BTreeMap<(u8, &'x [u8]), MarkedByWay>,
    label: &Label<'x>,
) -> Option<MarkedByWay>
    ensures { result ≡ known_of known.now (plain_label label.now) }
{
    known.get(&(kind_number(label.kind), label.name)).copied()
}

// The name to judge. If no section tests names, it is empty, and one answer serves all names of a kind.
fn judged_label<'x>(sections: &ReadyRules, label: &Label<'x>) -> Label<'x>
    ensures { plain_label result ≡ spec.judged_label sections.now (plain_label label.now) }
{
    if sections.asks_names() {
        *label
    } else {
        Label {
            kind: label.kind,
            name: &[],
        }
    }
}

// The answer for a name, which is judged only the first time.
fn name_once<'x>(
    sections: &mut ReadyRules,
    known: &mut BTreeMap<(u8, &'x [u8]), MarkedByWay>,
    soname: Option<&[u8]>,
    label: &Label<'x>,
) -> Result<MarkedByWay, NoMemory>
    requires { IsKnown sections.old (option_copied soname) known.old }
    ensures ways { IfOk result (λ ways. ways
        ≡ name_ways sections.old (option_copied soname.entry) (plain_label label.now)) }
    ensures same { sections.new ≡ sections.old }
    ensures known { OnOk result (IsKnown sections.old (option_copied soname.entry) known.new) }
    ensures named { IfErr result (λ e. e ≡ Allocation) }
{
    let judged = judged_label(sections, label);
    if let Some(ways) = known_name(known, &judged) {
        return Ok(ways);
    }
    let ways = judge_name(sections, soname, &judged);
    known.insert((kind_number(judged.kind), judged.name), ways)?;
    Ok(ways)
}

/// Whether sections mark a type that has these names. `known` keeps the answers, so that each name is judged once.
pub fn names_once<'x>(
    sections: &mut ReadyRules,
    known: &mut BTreeMap<(u8, &'x [u8]), MarkedByWay>,
    soname: Option<&[u8]>,
    labels: &[Label<'x>],
) -> Result<MarkedByWay, NoMemory>
    requires { IsKnown sections.old (option_copied soname) known.old }
    ensures ways { IfOk result (λ ways. ways
        ≡ names_ways sections.old (option_copied soname.entry) (map plain_label labels.now)) }
    ensures same { sections.new ≡ sections.old }
    ensures known { OnOk result (IsKnown sections.old (option_copied soname.entry) known.new) }
    ensures named { IfErr result (λ e. e ≡ Allocation) }
{
    let mut direct = false;
    let mut pointer = false;
    for label in labels {
        let ways = name_once(sections, known, soname, label)?;
        direct = direct || ways.direct;
        pointer = pointer || ways.pointer;
    }
    Ok(MarkedByWay { direct, pointer })
}
