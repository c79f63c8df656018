// The breaks of an exploration that have a row, and these rows.
ghost use Rattle.std.specs.Prelude.{◌≡◌, ◌<◌, ◌++◌, length, map, slice_get, Some, IfOk, OnOk, IfErr};
ghost use Rattle.abi_base.specs.declared.fault.NoMemory.TheVariants.{Allocation};
ghost use Rattle.abi_base.specs.Outcome.{OnLimit};
ghost use Rattle.abi_types.specs.Graphs.{view_at};
ghost use Rattle.report.specs.Details.{IsInside};
ghost use Rattle.report.specs.TypeRows as spec;
ghost use Rattle.cert_check.specs.Compatible.{task_of};
ghost use Rattle.pair_compare.specs.BoundPair.{sides_of};
ghost use Rattle.pair_compare.specs.reports.Keys.{plain_key, key_of};
ghost use Rattle.pair_compare.specs.Limits.{row_size};
ghost use Rattle.pair_compare.specs.reports.Readable.{AreReadable, IsReadable};
ghost use Rattle.pair_compare.specs.reports.Reports.{row_of};
ghost use Rattle.pair_compare.specs.reports.Rooms.{DetailsPass, IsTaken, TypeRowsPass};
ghost use Rattle.pair_compare.specs.reports.TypeFindings.{finding_of, told_breaks, type_rows};
ghost use Rattle.pair_explorer.specs.Visits.{AreEarlier};

use crate::bound_pair::BoundPair;
use crate::reports::paths::{label_at, steps_text};
use crate::reports::rows::{Rows, bytes_with, room_for};
use abi_base::{List, NoMemory};
use abi_types::laws::rules_have_places_of_their_own;
use abi_types::{Index, NewIx, OldIx, View};
use pair_explorer::laws::parents_spell_paths;
use pair_explorer::{Explored, Visits, route_to};
use pair_rules::Broken;
use report::{Row, Trail, type_detail, type_row};
use std::alloc::Global;
use std::collections::BTreeSet;

// The detail of the row about a break of two types.
fn detail_of(
    alloc: Global,
    broken: &Broken,
    old: &View<OldIx>,
    new: &View<NewIx>,
) -> Result<Vec<u8>, NoMemory>
    requires { IsInside old.now broken.now }
    ensures text { IfOk result (λ text. text.items ≡ spec.type_detail broken.now.rule old.now new.now broken.now.part) }
    ensures named { IfErr result (λ e. e ≡ Allocation) }
{
    let text = type_detail(alloc, broken, old, new)?;
    Ok(text.into_bytes())
}

// The key that distinguishes the row of a break.
fn key_at(
    alloc: Global,
    ground: &BoundPair,
    visits: &Visits,
    number: usize,
    broken: &Broken,
) -> Result<(u8, usize, usize, Vec<u8>), NoMemory>
    requires { IsReadable (sides_of ground.now) visits.now (number, broken.now) }
    ensures key { IfOk result (λ key. plain_key key
        ≡ key_of (task_of (sides_of ground.now)) (finding_of visits.now (number, broken.now))) }
    ensures named { IfErr result (λ e. e ≡ Allocation) }
{
    let visit = visits.visit(number);
    let old = ground.old.graph().view(visit.old);
    let new = ground.new.graph().view(visit.new);
    let text = detail_of(alloc, broken, old, new)?;
    let place = broken.rule.place();
    Ok((place, visit.old.number(), visit.new.number(), text))
}

// The breaks of an exploration, without those whose row an earlier one has.
fn told(
    alloc: Global,
    ground: &BoundPair,
    explored: &Explored,
) -> Result<List<(usize, Broken)>, NoMemory>
    requires { AreReadable (sides_of ground.now) explored.now.visits explored.now.breaks }
    ensures told { IfOk result (λ told. told
        ≡ told_breaks (task_of (sides_of ground.now)) explored.now.visits explored.now.breaks) }
    ensures past { IfErr result (λ e. OnLimit e
        (DetailsPass (sides_of ground.now) explored.now.visits explored.now.breaks)) }
{
    // A file chooses the texts of the keys, so they stand in a search tree: no choice makes one costlier than others.
    let mut keys: BTreeSet<(u8, usize, usize, Vec<u8>)> = BTreeSet::new(alloc);
    let mut told = List::new(alloc);
    let mut room = room_for(ground);
    let breaks = explored.breaks.as_slice();
    for found in breaks {
        let key = key_at(alloc, ground, &explored.visits, found.0, &found.1)?;
        room.take(bytes_with(key.3.as_slice().len()))?;
        let is_new = keys.insert(key)?;
        if is_new {
            told.push(*found)?;
        }
    }
    Ok(told)
}

// The row of a break at a visit.
fn row_at(
    alloc: Global,
    ground: &BoundPair,
    visits: &Visits,
    number: usize,
    broken: &Broken,
) -> Result<Row, NoMemory>
    requires readable { IsReadable (sides_of ground.now) visits.now (number, broken.now) }
    requires earlier { AreEarlier visits.now }
    ensures row { IfOk result (λ row. row ≡ row_of (sides_of ground.now) (finding_of visits.now (number, broken.now))) }
    ensures named { IfErr result (λ e. e ≡ Allocation) }
{
    parents_spell_paths();
    let visit = visits.visit(number);
    let route = route_to(alloc, visits, number)?;
    let export = label_at(alloc, ground.old, route.export)?;
    let path = steps_text(alloc, ground.old, &route)?;
    let old = ground.old.graph();
    let new = ground.new.graph();
    type_row(
        alloc,
        broken,
        Trail { export, path },
        (old.entry_of(visit.old), old.view(visit.old)),
        (new.entry_of(visit.new), new.view(visit.new)),
    )
}

/// Adds the rows on types. Of the breaks with one rule and one detail at the same types only the first gets a row. The path of a
/// row is spelled only once the row is known to be needed.
pub(crate) fn push_type_rows(
    alloc: Global,
    rows: &mut Rows,
    ground: &BoundPair,
    explored: &Explored,
) -> Result<(), NoMemory>
    requires readable { AreReadable (sides_of ground.now) explored.now.visits explored.now.breaks }
    requires counted { IsTaken rows.old.room.most row_size rows.old.list rows.old.room }
    ensures appended { OnOk result (rows.new.list
        ≡ rows.old.list ++ type_rows (sides_of ground.now) explored.now.visits explored.now.breaks) }
    ensures past { IfErr result (λ e. OnLimit e
        (TypeRowsPass (sides_of ground.now) rows.old.room.most rows.old.list explored.now.visits
        explored.now.breaks)) }
{
    rules_have_places_of_their_own();
    let told = told(alloc, ground, explored)?;
    let breaks = told.as_slice();
    for found in breaks {
        let row = row_at(alloc, ground, &explored.visits, found.0, &found.1)?;
        rows.push(row)?;
    }
    Ok(())
}
