// The names of types, as C sees them.
ghost use Rattle.std.specs.Prelude.{◌≡◌, ◌++◌, map, IfOk, OnOk, string_bytes};
ghost use Rattle.std.specs.List.{flat_map};
ghost use Rattle.abi_types.specs.Plain.{plain_label};
ghost use Rattle.type_notes.specs.TypeNames.{label_behind, labels_text, shown_or_none};
ghost use Rattle.type_notes.specs.TypeNames as spec;
ghost use Rattle.type_notes.specs.TypePairs.{AreNodes, new_node, old_node};

use crate::difference::{Difference, differing};
use crate::note::NoteKind;
use crate::rest::rest_of;
use crate::type_pair::TypePair;
use abi_base::NoMemory;
use abi_types::{Label, LabelKind, push_shown};
use std::alloc::{AllocError, Global};

// The keyword in front of a name of a kind.
fn keyword(kind: LabelKind) -> &'static str
    ensures { result.now ≡ spec.keyword kind }
{
    match kind {
        LabelKind::Structure => "struct ",
        LabelKind::Union => "union ",
        LabelKind::Enumeration => "enum ",
        LabelKind::Typedef => "",
        LabelKind::Builtin => "",
    }
}

// Appends a name, or a note that the type has no tag.
fn push_shown_or_none(alloc: Global, text: &mut String, name: &[u8]) -> Result<(), AllocError>
    ensures { OnOk result (string_bytes text.new ≡ string_bytes text.old ++ shown_or_none name.now) }
{
    if name.is_empty() {
        return text.push_str("without a tag");
    }
    push_shown(alloc, text, name)
}

// Appends a name, with the separator in front.
fn push_label(alloc: Global, text: &mut String, label: &Label) -> Result<(), AllocError>
    ensures { OnOk result (string_bytes text.new ≡ string_bytes text.old ++ label_behind (plain_label label.now)) }
{
    text.push_str(" = ")?;
    text.push_str(keyword(label.kind))?;
    push_shown_or_none(alloc, text, label.name)
}

// Appends names, each with the separator in front.
fn push_labels(alloc: Global, text: &mut String, labels: &[Label]) -> Result<(), AllocError>
    ensures { OnOk result (string_bytes text.new
        ≡ string_bytes text.old ++ flat_map label_behind (map plain_label labels.now)) }
{
    for label in labels {
        push_label(alloc, text, label)?;
    }
    Ok(())
}

// The names of a type, as a text.
fn names_text(alloc: Global, labels: &[Label]) -> Result<Vec<u8>, NoMemory>
    ensures { IfOk result (λ text. text.items ≡ labels_text (map plain_label labels.now)) }
{
    let mut text = String::new(alloc);
    push_labels(alloc, &mut text, labels)?;
    Ok(rest_of(alloc, &text, 3)?)
}

// The difference between the names of two types.
#[tactic(auto, unfolding(crate::specs::TypeNames::name_change))]
pub(crate) fn name_change(alloc: Global, pair: &TypePair) -> Result<Option<Difference>, NoMemory>
    requires { AreNodes pair.now }
    ensures { IfOk result (λ found. found ≡ spec.name_change (old_node pair.now) (new_node pair.now)) }
{
    let was = names_text(alloc, pair.old_graph.labels(pair.old))?;
    let is = names_text(alloc, pair.new_graph.labels(pair.new))?;
    Ok(differing(NoteKind::TagOrName, was, is))
}
