// The nodes of types.
ghost use Rattle.std.specs.Prelude.{◌≡◌, ◌<◌, ◌≤◌, ◌^◌, ℕ, false, length, Contains, IfErr, IfOk, IfSome, OnOk};
ghost use Rattle.abi_base.specs.Budgets.{allowed};
ghost use Rattle.abi_base.specs.Outcome.{OnLimit};
ghost use Rattle.abi_base.specs.declared.limit.Limit.TheVariants.{Letters, TypeNames};
ghost use Rattle.type_reach.specs.ByValue.{IsClosed};
ghost use Rattle.type_reach.specs.TypeReferences.{AreTypeReferences};
ghost use Rattle.type_reach.specs.Summaries.{AreSummaries};
ghost use Rattle.type_reach.specs.Sizes.{is_too_large};
ghost use Rattle.type_reach.specs.Views as views_spec;
ghost use Rattle.type_graph.specs.Counts.{type_letters};
ghost use Rattle.type_graph.specs.Limits.{names_in_all, type_letters_in_all, NodesPass};
ghost use Rattle.type_graph.specs.Spending.{PassesBy, Takes};
ghost use Rattle.type_graph.specs.Nodes.{made_nodes};
ghost use Rattle.type_graph.specs.Sharing.{first_node};
ghost use Rattle.type_graph.specs.Sharing as sharing_spec;

use crate::judged::JudgedTypes;
use crate::labels::labels_of;
use crate::sharing::share_parts;
use crate::views::view;
use abi_base::{Budget, Limit, List, NoMemory};
use abi_types::{Index, Node};
use dwarf_entries::Dwarf;
use dwarf_tree::EntryNumber;
use std::alloc::Global;
use type_reach::laws::laws_of_types;
use type_reach::summary_at;

// The offset of a type's entry; 0 for void.
fn offset_of(dwarf: &Dwarf, ty: Option<EntryNumber>) -> u64
    requires { IfSome ty (λ e. e < length dwarf.now.tree.entries) }
    ensures { result ≡ views_spec.offset_of dwarf.now.tree ty }
{
    match ty {
        Some(e) => dwarf.offset(e).get(),
        None => 0,
    }
}

// The node of a type. It has no parts yet where its core is another entry. It takes the letters of its tag and of its names.
fn node<'a, Ix: Index>(
    alloc: Global,
    types: &JudgedTypes<'_, 'a>,
    ty: Option<EntryNumber>,
    letters: &mut Budget,
) -> Result<Node<'a, Ix>, NoMemory>
    requires closed { IsClosed types.now.dwarf.now.tree types.now.found.now }
    requires leads { AreTypeReferences types.now.dwarf.now.tree types.now.found.now types.now.leads.now }
    requires summaries { AreSummaries types.now.dwarf.now types.now.found.now types.now.summaries.now }
    requires there { IfSome ty (λ e. Contains types.now.found.now e) }
    requires sound { letters.old.taken ≤ letters.old.most }
    requires fits { (e : ℕ) → Contains types.now.found.now e → is_too_large types.now.dwarf.now e ≡ false }
    ensures node { IfOk result (λ node. node ≡ first_node types.now.dwarf.now types.now.found.now ty) }
    ensures letters { OnOk result (Takes letters.old letters.new
        (type_letters (first_node types.now.dwarf.now types.now.found.now ty))) }
    ensures past { IfErr result (λ e. OnLimit e
        (PassesBy letters.old (type_letters (first_node types.now.dwarf.now types.now.found.now ty)))) }
{
    laws_of_types();
    let wanted = &ty;
    let own = summary_at(types.dwarf, types.found, types.summaries, *wanted);
    let entry = offset_of(types.dwarf, *wanted);
    let view = view(alloc, types, *wanted, &own)?;
    letters.take(view.tag.len())?;
    let labels = labels_of(alloc, types.dwarf, *wanted, letters)?;
    Ok(Node {
        entry,
        rank: own.rank,
        view,
        labels,
    })
}

// The nodes of void and of all that was found. A node whose core is another entry has no parts yet. Fails where they have more
// names, or their tags and names more letters, than the limits allow.
fn first_nodes<'a, Ix: Index>(
    alloc: Global,
    types: &JudgedTypes<'_, 'a>,
    bytes: usize,
) -> Result<List<Node<'a, Ix>>, NoMemory>
    requires closed { IsClosed types.now.dwarf.now.tree types.now.found.now }
    requires leads { AreTypeReferences types.now.dwarf.now.tree types.now.found.now types.now.leads.now }
    requires summaries { AreSummaries types.now.dwarf.now types.now.found.now types.now.summaries.now }
    requires fits { (e : ℕ) → Contains types.now.found.now e → is_too_large types.now.dwarf.now e ≡ false }
    requires small { bytes < 2 ^ 38 }
    requires few { length types.now.found.now < 2 ^ 38 }
    ensures nodes { IfOk result (λ nodes. nodes ≡ sharing_spec.first_nodes types.now.dwarf.now types.now.found.now) }
    ensures letters { OnOk result (type_letters_in_all types.now.dwarf.now types.now.found.now
        ≤ allowed Letters bytes) }
    ensures names { OnOk result (names_in_all types.now.dwarf.now types.now.found.now
        ≤ allowed TypeNames (length types.now.found.now)) }
    ensures past { IfErr result (λ e. OnLimit e (NodesPass types.now.dwarf.now types.now.found.now bytes)) }
{
    laws_of_types();
    let mut nodes = List::of(Vec::with_capacity(alloc, types.found.len() + 1)?);
    let mut letters = Budget::of(Limit::Letters, bytes);
    nodes.push(node(alloc, types, None, &mut letters)?)?;
    let mut names = Budget::of(Limit::TypeNames, types.found.len());
    'found: for number in 0..types.found.len() {
        let e = types.found.at(number);
        let made = node(alloc, types, Some(e), &mut letters)?;
        names.take(made.labels.as_slice().len())?;
        nodes.push(made)?;
    }
    Ok(nodes)
}

/// The nodes of void and of all that was found, in the order of the numbers. Fails where they have more names than the limit on names of
/// types allows, or their tags and names more letters than that on letters for a file with this many bytes.
// A structure, its typedefs, and these with `const` share one list of parts: otherwise most parts of a library would be copies.
pub(crate) fn nodes<'a, Ix: Index>(
    alloc: Global,
    types: &JudgedTypes<'_, 'a>,
    bytes: usize,
) -> Result<List<Node<'a, Ix>>, NoMemory>
    requires closed { IsClosed types.now.dwarf.now.tree types.now.found.now }
    requires leads { AreTypeReferences types.now.dwarf.now.tree types.now.found.now types.now.leads.now }
    requires summaries { AreSummaries types.now.dwarf.now types.now.found.now types.now.summaries.now }
    requires fits { (e : ℕ) → Contains types.now.found.now e → is_too_large types.now.dwarf.now e ≡ false }
    requires small { bytes < 2 ^ 38 }
    requires few { length types.now.found.now < 2 ^ 38 }
    ensures nodes { IfOk result (λ nodes. nodes ≡ made_nodes types.now.dwarf.now types.now.found.now) }
    ensures letters { OnOk result (type_letters_in_all types.now.dwarf.now types.now.found.now
        ≤ allowed Letters bytes) }
    ensures names { OnOk result (names_in_all types.now.dwarf.now types.now.found.now
        ≤ allowed TypeNames (length types.now.found.now)) }
    ensures past { IfErr result (λ e. OnLimit e (NodesPass types.now.dwarf.now types.now.found.now bytes)) }
{
    let first: List<Node<'a, Ix>> = first_nodes(alloc, types, bytes)?;
    let nodes = share_parts(types, first.into_vec())?;
    Ok(List::of(nodes))
}
