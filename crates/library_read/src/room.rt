// Limits on the parts of a library's types and on the letters of their names. Each type counts all parts by which it is compared. A
// small file can have very many: each typedef of a structure is compared by all of its members, and names may share their bytes.
ghost use Rattle.std.specs.Prelude.{◌≡◌, ◌^◌, ◌<◌, ◌≤◌, length, map, IfErr, OnOk};
ghost use Rattle.abi_base.specs.Outcome.{OnLimit};
ghost use Rattle.abi_types.specs.Parts.{plain_part};
ghost use Rattle.abi_types.specs.Plain.{plain_label};
ghost use Rattle.type_graph.specs.Counts.{label_letters};
ghost use Rattle.type_graph.specs.Spending.{PassesBy, PassesEither, Takes};
ghost use Rattle.library_read.specs.Limits.{RoomPass, part_letters, view_letters};

use abi_base::{Budget, Limit, NoMemory};
use abi_types::{Graph, Index, Label, Part, View};

// How many letters the name of a part has.
fn letters_of<Ix: Index>(part: &Part<Ix>) -> usize
    ensures { result ≡ part_letters (plain_part Ix.number_of part.now) }
{
    match part {
        Part::Member { name, .. } | Part::Enumerator { name, .. } => name.len(),
        Part::Target { .. } | Part::Element { .. } | Part::Outcome { .. } | Part::Param { .. } => 0,
    }
}

// Takes the parts of a view, and the letters of its tag and of the names of its parts.
fn take_view<Ix: Index>(
    view: &View<Ix>,
    parts: &mut Budget,
    letters: &mut Budget,
) -> Result<(), NoMemory>
    requires sound { parts.old.taken ≤ parts.old.most }
    requires sound_letters { letters.old.taken ≤ letters.old.most }
    ensures parts { OnOk result (Takes parts.old parts.new (length view.now.parts)) }
    ensures letters { OnOk result (Takes letters.old letters.new (view_letters view.now)) }
    ensures past { IfErr result (λ e. OnLimit e
        (PassesEither parts.old (length view.now.parts) letters.old (view_letters view.now))) }
{
    let items = view.parts.as_slice();
    parts.take(items.len())?;
    letters.take(view.tag.len())?;
    for part in items {
        letters.take(letters_of(part))?;
    }
    Ok(())
}

// Takes the letters of labels.
fn take_labels(labels: &[Label], letters: &mut Budget) -> Result<(), NoMemory>
    requires sound { letters.old.taken ≤ letters.old.most }
    ensures letters { OnOk result (Takes letters.old letters.new (label_letters (map plain_label labels.now))) }
    ensures past { IfErr result (λ e. OnLimit e (PassesBy letters.old (label_letters (map plain_label labels.now)))) }
{
    for label in labels {
        letters.take(label.name.len())?;
    }
    Ok(())
}

/// Fails where the types of a file with this many bytes have more parts, or longer names, than they may have.
pub(crate) fn ask_room<Ix: Index>(bytes: usize, graph: &Graph<Ix>) -> Result<(), NoMemory>
    requires { bytes < 2 ^ 38 }
    ensures { IfErr result (λ e. OnLimit e (RoomPass graph.now bytes)) }
{
    let mut parts = Budget::of(Limit::Parts, bytes);
    let mut letters = Budget::of(Limit::Letters, bytes);
    for number in 0..graph.len() {
        let ix = Ix::of(number);
        take_view(graph.view(ix), &mut parts, &mut letters)?;
        take_labels(graph.labels(ix), &mut letters)?;
    }
    Ok(())
}
