// The views of types.
ghost use Rattle.std.specs.Prelude.{◌≡◌, ◌<◌, [], ℕ, if◌then◌else◌, false, length, Contains, Some, IfOk, IfSome, IfErr};
ghost use Rattle.abi_base.specs.declared.fault.NoMemory.TheVariants.{Allocation};
ghost use Rattle.std.specs.List.{list_any};
ghost use Rattle.abi_types.specs.Graphs.{void_view};
ghost use Rattle.abi_types.specs.Forms as forms;
ghost use Rattle.type_reach.specs.References as references;
ghost use Rattle.type_reach.specs.ByValue.{IsClosed};
ghost use Rattle.type_reach.specs.TypeReferences.{AreTypeReferences};
ghost use Rattle.type_reach.specs.Facts.{facts_of};
ghost use Rattle.type_reach.specs.Summaries.{summary_of, AreSummaries};
ghost use Rattle.type_reach.specs.PeeledCores.{StandsForNone};
ghost use Rattle.dwarf_entries.specs.Chains.{name_of};
ghost use Rattle.type_reach.specs.Flat.{text_or_empty, flat_of};
ghost use Rattle.type_reach.specs.Sizes.{begins_beyond, is_too_large};
ghost use Rattle.type_reach.specs.Views.{group_for, core_view, view_by};
ghost use Rattle.type_reach.specs.Views as views;
ghost use Rattle.type_graph.specs.Nodes.{number_in};
ghost use Rattle.type_graph.specs.Sharing.{first_view};
ghost use Rattle.type_graph.specs.Sharing as sharing;
ghost use Rattle.type_reach.specs.Flat.{core_of};

use crate::enumerations::group_of;
use crate::judged::JudgedTypes;
use crate::labels::name_or_empty;
use crate::parts::parts_of_peeled;
use abi_base::NoMemory;
use abi_base::dwarf::{DW_AT_GNU_vector, DW_TAG_structure_type};
use abi_types::{Call, Group, Index, Kind, Parts, View};
use dwarf_entries::Dwarf;
use dwarf_tree::EntryNumber;
use std::alloc::Global;
use type_reach::laws::laws_of_types;
use type_reach::{Role, Summary, role_of, summary_by_number, variadic_at};

// Whether an array is a vector of the machine.
#[tactic(auto, unfolding(type_reach::specs::Views::is_vector))]
fn is_vector(dwarf: &Dwarf, c: EntryNumber) -> bool
    requires { c < length dwarf.now.tree.entries }
    ensures { result ≡ views.is_vector dwarf.now.tree c }
{
    dwarf.flag_value(c, DW_AT_GNU_vector)
}

// The kind of a core.
#[tactic(auto, unfolding(type_reach::specs::Views::kind_of))]
fn kind_of(dwarf: &Dwarf, c: EntryNumber, role: Role) -> Kind
    requires inside { c < length dwarf.now.tree.entries }
    requires role { role ≡ references.role_of dwarf.now.tree c }
    ensures { result ≡ views.kind_of dwarf.now.tree c }
{
    match role {
        Role::Aggregate => {
            if dwarf.tag(c) == DW_TAG_structure_type {
                Kind::Structure
            } else {
                Kind::Union
            }
        }
        Role::Function => Kind::Function,
        Role::Pointer => Kind::Pointer,
        Role::Array => {
            if is_vector(dwarf, c) {
                Kind::Vector
            } else {
                Kind::Array
            }
        }
        Role::Enumeration => Kind::Enumeration,
        Role::Base => Kind::Scalar,
        _ => Kind::Void,
    }
}

// Whether types of a kind have a tag.
fn has_tag(kind: Kind) -> bool
    ensures { result ≡ forms.has_tag kind }
{
    matches!(kind, Kind::Structure | Kind::Union | Kind::Enumeration)
}

// What the bits of a core of a size mean.
fn group(dwarf: &Dwarf, c: EntryNumber, role: Role, size: u64) -> Group
    requires inside { c < length dwarf.now.tree.entries }
    requires size { size ≡ (facts_of dwarf.now (Some c)).size }
    ensures { result ≡ group_for role dwarf.now c }
{
    match role {
        Role::Base => group_of(dwarf, c, size),
        _ => Group::Bool,
    }
}

// The tag of a core of a kind; empty where it has none.
fn tag<'a>(dwarf: &Dwarf<'a>, c: EntryNumber, kind: Kind) -> &'a [u8]
    requires { c < length dwarf.now.tree.entries }
    ensures { result.now ≡ (if forms.has_tag kind then text_or_empty (name_of dwarf.now c) else []) }
{
    if has_tag(kind) {
        name_or_empty(dwarf, c)
    } else {
        &[]
    }
}

// The view of void, with an explicit alignment.
fn view_of_void<'a, Ix: Index>(alloc: Global, align: u64) -> View<'a, Ix>
    ensures { result ≡ record void_view { align = align } }
{
    View {
        kind: Kind::Void,
        declared_only: false,
        tag: &[],
        size: 0,
        group: Group::Bool,
        align,
        count: 0,
        variadic: false,
        parts: Parts::new(alloc),
        call: Call::none(),
    }
}

// The view of a core, with the explicit alignment of a type. A type that is another entry than its core has no parts yet.
fn view_of_peeled<'a, Ix: Index>(
    alloc: Global,
    types: &JudgedTypes<'_, 'a>,
    c: EntryNumber,
    align: u64,
    other: bool,
) -> Result<View<'a, Ix>, NoMemory>
    requires closed { IsClosed types.now.dwarf.now.tree types.now.found.now }
    requires leads { AreTypeReferences types.now.dwarf.now.tree types.now.found.now types.now.leads.now }
    requires summaries { AreSummaries types.now.dwarf.now types.now.found.now types.now.summaries.now }
    requires there { Contains types.now.found.now c }
    requires last { StandsForNone types.now.dwarf.now c }
    requires near { list_any begins_beyond (flat_of types.now.dwarf.now (Some c)) ≡ false }
    ensures view { IfOk result (λ view. view
        ≡ first_view other (core_view (number_in types.now.found.now) types.now.dwarf.now align (Some c))) }
    ensures named { IfErr result (λ e. e ≡ Allocation) }
{
    let dwarf = types.dwarf;
    let number = types.found.number_of(c);
    let own = summary_by_number(dwarf, types.found, types.summaries, number, c);
    let role = role_of(dwarf, c);
    let kind = kind_of(dwarf, c, role);
    let variadic = variadic_at(dwarf, types.found, types.leads, number, c);
    let parts = if other {
        Parts::new(alloc)
    } else {
        parts_of_peeled(alloc, types, number, c, role)?
    };
    Ok(View {
        kind,
        declared_only: has_tag(kind) && dwarf.is_declaration(c),
        tag: tag(dwarf, c, kind),
        size: own.size,
        group: group(dwarf, c, role, own.size),
        align,
        count: own.count,
        variadic,
        parts,
        call: Call::none(),
    })
}

// Whether the core of a type is another entry.
fn is_other(core: Option<EntryNumber>, ty: Option<EntryNumber>) -> bool
    ensures { result ≡ sharing.is_other core ty }
{
    match (core, ty) {
        (Some(c), Some(e)) => c != e,
        _ => false,
    }
}

/// The view of a type. It has no parts yet where its core is another entry.
#[tactic(auto, unfolding(type_reach::specs::Views::view_by))]
pub(crate) fn view<'a, Ix: Index>(
    alloc: Global,
    types: &JudgedTypes<'_, 'a>,
    ty: Option<EntryNumber>,
    own: &Summary,
) -> Result<View<'a, Ix>, NoMemory>
    requires closed { IsClosed types.now.dwarf.now.tree types.now.found.now }
    requires leads { AreTypeReferences types.now.dwarf.now.tree types.now.found.now types.now.leads.now }
    requires summaries { AreSummaries types.now.dwarf.now types.now.found.now types.now.summaries.now }
    requires own { own.now ≡ summary_of (facts_of types.now.dwarf.now ty) }
    requires there { IfSome ty (λ e. Contains types.now.found.now e) }
    requires fits { (e : ℕ) → Contains types.now.found.now e → is_too_large types.now.dwarf.now e ≡ false }
    ensures view { IfOk result (λ view. view
        ≡ first_view (sharing.is_other (core_of types.now.dwarf.now ty) ty) (view_by (number_in types.now.found.now) types.now.dwarf.now ty)) }
    ensures named { IfErr result (λ e. e ≡ Allocation) }
{
    laws_of_types();
    match own.core {
        None => Ok(view_of_void(alloc, own.align)),
        Some(c) => {
            let other = is_other(own.core, ty);
            view_of_peeled(alloc, types, c, own.align, other)
        }
    }
}
