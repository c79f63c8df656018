// The flat members of structures and unions.
ghost use Rattle.std.specs.Prelude.{◌≡◌, ◌≤◌, ◌+◌, ◌∷◌, ◌++◌, [], map, Contains, Some, OnOk, IfErr};
ghost use Rattle.abi_base.specs.declared.fault.NoMemory.TheVariants.{Allocation};
ghost use Rattle.abi_base.specs.Limits.{depth_limit};
ghost use Rattle.type_reach.specs.ByValue.{IsClosed};
ghost use Rattle.type_reach.specs.TypeReferences.{AreTypeReferences};
ghost use Rattle.type_reach.specs.Facts.{facts_of};
ghost use Rattle.type_reach.specs.Summaries.{AreSummaries};
ghost use Rattle.type_reach.specs.PeeledCores.{StandsForNone};
ghost use Rattle.type_reach.specs.Flat.{moved, flat_of};
ghost use Rattle.type_graph.specs.Placed.{plain_members};
ghost use Rattle.type_graph.specs.Placed as spec;

use crate::judged::JudgedTypes;
use abi_base::NoMemory;
use dwarf_tree::EntryNumber;
use type_reach::laws::laws_of_types;
use type_reach::{
    Start, Summary, member_type, members_among, parts_at, role_of, summary_at, types_at, width_of,
};

/// A flat member: the bit at which it begins, how wide it is as a bit field, and its type.
#[derive(Clone, Copy)]
pub(crate) struct Placed<'a> {
    pub(crate) name: &'a [u8],
    pub(crate) bit: i128,
    pub(crate) width: u64,
    pub(crate) to: Option<EntryNumber>,
}

/// The structure or union whose members replace a nameless member, from the summary of its type.
pub(crate) fn replacing(of_type: &Summary) -> Option<EntryNumber>
    ensures { result ≡ spec.replacing of_type.now }
{
    if of_type.aggregate {
        of_type.core
    } else {
        None
    }
}

// Appends an item.
fn push_item<T: Drop>(items: &mut Vec<T>, item: T) -> Result<(), NoMemory>
    ensures items { OnOk result (items.new.items ≡ items.old.items ++ item ∷ []) }
    ensures named { IfErr result (λ e. e ≡ Allocation) }
{
    items.push(item)?;
    Ok(())
}

/// Appends the flat members of a structure or a union that begins at `base`.
pub(crate) fn push_flat<'a>(
    types: &JudgedTypes<'_, 'a>,
    out: &mut Vec<Placed<'a>>,
    c: EntryNumber,
    base: Start,
) -> Result<(), NoMemory>
    requires closed { IsClosed types.now.dwarf.now.tree types.now.found.now }
    requires leads { AreTypeReferences types.now.dwarf.now.tree types.now.found.now types.now.leads.now }
    requires summaries { AreSummaries types.now.dwarf.now types.now.found.now types.now.summaries.now }
    requires there { Contains types.now.found.now c }
    requires last { StandsForNone types.now.dwarf.now c }
    requires low { base.depth + (facts_of types.now.dwarf.now (Some c)).rank ≤ depth_limit }
    ensures members { OnOk result (plain_members out.new.items
        ≡ plain_members out.old.items ++ map (moved base.bit) (flat_of types.now.dwarf.now (Some c))) }
    ensures named { IfErr result (λ e. e ≡ Allocation) }
{
    laws_of_types();
    let dwarf = types.dwarf;
    let number = types.found.number_of(c);
    let parts = parts_at(dwarf, types.found, types.leads, number, c);
    let leads_to = types_at(dwarf, types.found, types.leads, number, c);
    let members = members_among(dwarf, c, role_of(dwarf, c), parts);
    'members: for k in 0..members.len() {
        let m = members[k];
        let to = member_type(dwarf, c, members, leads_to, k);
        let target = &to;
        let of_type = summary_at(dwarf, types.found, types.summaries, *target);
        let start = base.later(dwarf, m, of_type.size);
        if let Some(name) = dwarf.name_of(m) {
            let width = width_of(dwarf, m);
            let member = Placed {
                name,
                bit: start.bit,
                width,
                to: *target,
            };
            push_item(out, member)?;
            continue;
        }
        match replacing(&of_type) {
            Some(inner) => push_flat(types, out, inner, start)?,
            None => {}
        }
    }
    Ok(())
}
