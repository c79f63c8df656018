// The names of types, each once.
ghost use Rattle.std.specs.Prelude.{◌≡◌, ◌≤◌, ◌+◌, ◌∷◌, ◌++◌, [], length, map, sum_by, IfErr, IfOk, OnOk};
ghost use Rattle.abi_base.specs.declared.fault.NoMemory.TheVariants.{Allocation};
ghost use Rattle.abi_types.specs.Plain.{plain_label};
ghost use Rattle.idle_sections.specs.Idle.{all_labels, label_count};
ghost use Rattle.idle_sections.specs.Names.{is_seen, AreAlike, AreSeen};

use abi_base::NoMemory;
use abi_types::{Graph, Index, Label, OldIx};
use std::alloc::Global;
use std::collections::BTreeSet;
use suppressions::kind_number;

// Whether a name is in the set.
fn was_seen<'x>(seen: &BTreeSet<(u8, &'x [u8])>, label: &Label<'x>) -> bool
    ensures { result ≡ is_seen seen.now (plain_label label.now) }
{
    seen.contains(&(kind_number(label.kind), label.name))
}

// Adds a name, unless it is in the set.
fn push_once<'x>(
    seen: &mut BTreeSet<(u8, &'x [u8])>,
    names: &mut Vec<Label<'x>>,
    label: &Label<'x>,
) -> Result<(), NoMemory>
    requires { AreSeen seen.old (map plain_label names.old.items) }
    ensures seen { OnOk result (AreSeen seen.new (map plain_label names.new.items)) }
    ensures alike { OnOk result (AreAlike (map plain_label names.new.items)
        (map plain_label names.old.items ++ plain_label label.now ∷ [])) }
    ensures few { OnOk result (length names.new.items ≤ length names.old.items + 1) }
    ensures named { IfErr result (λ e. e ≡ Allocation) }
{
    if was_seen(seen, label) {
        return Ok(());
    }
    seen.insert((kind_number(label.kind), label.name))?;
    names.push(*label)?;
    Ok(())
}

// Adds the names that are not in the set.
fn push_names<'x>(
    seen: &mut BTreeSet<(u8, &'x [u8])>,
    names: &mut Vec<Label<'x>>,
    labels: &[Label<'x>],
) -> Result<(), NoMemory>
    requires { AreSeen seen.old (map plain_label names.old.items) }
    ensures seen { OnOk result (AreSeen seen.new (map plain_label names.new.items)) }
    ensures alike { OnOk result (AreAlike (map plain_label names.new.items)
        (map plain_label names.old.items ++ map plain_label labels.now)) }
    ensures few { OnOk result (length names.new.items ≤ length names.old.items + length labels.now) }
    ensures named { IfErr result (λ e. e ≡ Allocation) }
{
    for label in labels {
        push_once(seen, names, label)?;
    }
    Ok(())
}

/// The names of the types of a graph, each once.
pub fn names_of<'x>(alloc: Global, graph: &Graph<'x, OldIx>) -> Result<Vec<Label<'x>>, NoMemory>
    ensures alike { IfOk result (λ names. AreAlike (map plain_label names.items) (all_labels graph.now)) }
    ensures few { IfOk result (λ names. length names.items ≤ sum_by label_count graph.now) }
    ensures named { IfErr result (λ e. e ≡ Allocation) }
{
    let mut seen = BTreeSet::new(alloc);
    let mut names = Vec::new(alloc);
    for i in 0..graph.len() {
        push_names(&mut seen, &mut names, graph.labels(OldIx::of(i)))?;
    }
    Ok(names)
}
