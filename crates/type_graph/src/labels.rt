// The names of types.
ghost use Rattle.std.specs.Prelude.{◌≡◌, ◌<◌, ◌≤◌, ◌++◌, length, map, IfErr, IfOk, OnOk, IfSome, None};
ghost use Rattle.abi_base.specs.Outcome.{OnLimit};
ghost use Rattle.abi_types.specs.Plain.{plain_label};
ghost use Rattle.dwarf_entries.specs.Chains.{name_of};
ghost use Rattle.type_reach.specs.declared.role.Role.TheVariants as role;
ghost use Rattle.type_reach.specs.References as references;
ghost use Rattle.type_reach.specs.PeeledCores.{StandsForNone};
ghost use Rattle.type_reach.specs.TypeLaws.{IsShallow};
ghost use Rattle.type_reach.specs.Flat.{text_or_empty, own_label};
ghost use Rattle.type_reach.specs.Flat as flat;
ghost use Rattle.type_graph.specs.Counts.{label_letters};
ghost use Rattle.type_graph.specs.Spending.{PassesBy, Takes};

use abi_base::dwarf::{
    DW_TAG_base_type, DW_TAG_enumeration_type, DW_TAG_structure_type, DW_TAG_typedef,
    DW_TAG_union_type,
};
use abi_base::{Budget, List, NoMemory};
use abi_types::{Label, LabelKind};
use dwarf_entries::Dwarf;
use dwarf_tree::EntryNumber;
use std::alloc::Global;
use type_reach::laws::laws_of_types;
use type_reach::{Role, is_signed, role_of, type_of};

/// The name of an entry; empty where it has none.
pub(crate) fn name_or_empty<'a>(dwarf: &Dwarf<'a>, e: EntryNumber) -> &'a [u8]
    requires { e < length dwarf.now.tree.entries }
    ensures { result.now ≡ text_or_empty (name_of dwarf.now e) }
{
    match dwarf.name_of(e) {
        Some(name) => name,
        None => &[],
    }
}

// The kind of name that an entry of a tag gives; none where it gives no name.
#[tactic(auto, unfolding(type_reach::specs::Flat::label_kind))]
fn label_kind(tag: u64) -> Option<LabelKind>
    ensures { result ≡ flat.label_kind tag }
{
    match tag {
        DW_TAG_typedef => Some(LabelKind::Typedef),
        DW_TAG_structure_type => Some(LabelKind::Structure),
        DW_TAG_union_type => Some(LabelKind::Union),
        DW_TAG_enumeration_type => Some(LabelKind::Enumeration),
        DW_TAG_base_type => Some(LabelKind::Builtin),
        _ => None,
    }
}

// Appends the name that an entry gives itself, if any, and takes its letters.
#[tactic(auto, unfolding(type_reach::specs::Flat::own_label))]
fn push_label<'a>(
    dwarf: &Dwarf<'a>,
    labels: &mut Vec<Label<'a>>,
    e: EntryNumber,
    letters: &mut Budget,
) -> Result<(), NoMemory>
    requires inside { e < length dwarf.now.tree.entries }
    requires sound { letters.old.taken ≤ letters.old.most }
    ensures label { OnOk result (map plain_label labels.new.items
        ≡ map plain_label labels.old.items ++ own_label dwarf.now e) }
    ensures letters { OnOk result (Takes letters.old letters.new (label_letters (own_label dwarf.now e))) }
    ensures past { IfErr result (λ err. OnLimit err (PassesBy letters.old (label_letters (own_label dwarf.now e)))) }
{
    if is_signed(dwarf, e) {
        return Ok(());
    }
    match label_kind(dwarf.tag(e)) {
        Some(kind) => {
            let name = name_or_empty(dwarf, e);
            letters.take(name.len())?;
            // Most types have one name or none.
            labels.reserve_exact(1)?;
            labels.push(Label { kind, name })?;
        }
        None => {}
    }
    Ok(())
}

// The type that an entry stands for; none where it is a core.
fn passed_to(dwarf: &Dwarf, e: EntryNumber) -> Option<EntryNumber>
    requires { e < length dwarf.now.tree.entries }
    ensures passed { references.role_of dwarf.now.tree e ≡ role.Wrapper → result ≡ references.type_of dwarf.now.tree e }
    ensures last { StandsForNone dwarf.now e → result ≡ None }
    ensures inside { IfSome result (λ f. f < length dwarf.now.tree.entries) }
{
    match role_of(dwarf, e) {
        Role::Wrapper => type_of(dwarf, e),
        _ => None,
    }
}

/// The names of the typedefs from a type to its core, then the core's own. It takes their letters.
pub(crate) fn labels_of<'a>(
    alloc: Global,
    dwarf: &Dwarf<'a>,
    ty: Option<EntryNumber>,
    letters: &mut Budget,
) -> Result<List<Label<'a>>, NoMemory>
    requires shallow { IsShallow dwarf.now ty }
    requires inside { IfSome ty (λ e. e < length dwarf.now.tree.entries) }
    requires sound { letters.old.taken ≤ letters.old.most }
    ensures labels { IfOk result (λ labels. map plain_label labels ≡ flat.labels_of dwarf.now ty) }
    ensures letters { OnOk result (Takes letters.old letters.new (label_letters (flat.labels_of dwarf.now ty))) }
    ensures past { IfErr result (λ e. OnLimit e (PassesBy letters.old (label_letters (flat.labels_of dwarf.now ty)))) }
{
    laws_of_types();
    let mut labels = Vec::new(alloc);
    let mut next = ty;
    'passed: while let Some(e) = next {
        push_label(dwarf, &mut labels, e, letters)?;
        next = passed_to(dwarf, e);
    }
    Ok(List::of(labels))
}
