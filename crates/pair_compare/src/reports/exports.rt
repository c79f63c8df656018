// The rows on sonames and exports.
ghost use Rattle.std.specs.Prelude.{◌≡◌, ◌<◌, ◌++◌, [], length, OnOk, IfErr};
ghost use Rattle.std.specs.List.{list_any};
ghost use Rattle.std.specs.Option.{option_copied};
ghost use Rattle.abi_base.specs.declared.fault.NoMemory.TheVariants.{Allocation};
ghost use Rattle.abi_base.specs.Outcome.{OnLimit};
ghost use Rattle.abi_types.specs.Plain.{plain_export};
ghost use Rattle.elf_bind.specs.Binding.{bind_to};
ghost use Rattle.elf_bind.specs.Binding as binding;
ghost use Rattle.pair_compare.specs.BoundPair.{IsBinding, sides_of};
ghost use Rattle.pair_compare.specs.reports.ExportRows.{changed_rows, gone_rows, row_if, rows_at, rows_for, rows_upto, soname_rows};
ghost use Rattle.pair_compare.specs.reports.ExportRows as export_rows_spec;
ghost use Rattle.pair_compare.specs.Limits.{row_size};
ghost use Rattle.pair_compare.specs.reports.Rooms.{IsTaken, RowsPass};

use crate::bound_pair::BoundPair;
use crate::reports::lookups::{is_compared, partner};
use crate::reports::rows::{Rows, take_rows};
use abi_base::{List, NoMemory};
use abi_types::{Export, Library, NewIx, Rule};
use cert_check::library_exports::find_at;
use elf_bind::same_name;
use pair_rules::export_breaks;
use report::{Row, export_row, soname_row};
use std::alloc::Global;

// Adds the row on sonames, if they differ.
#[tactic(auto, unfolding(crate::specs::reports::ExportRows::soname_rows))]
fn push_soname_rows(
    alloc: Global,
    rows: &mut List<Row>,
    old: Option<&[u8]>,
    new: Option<&[u8]>,
) -> Result<(), NoMemory>
    ensures appended { OnOk result (rows.new
        ≡ rows.old ++ soname_rows (option_copied old.entry) (option_copied new.entry)) }
    ensures named { IfErr result (λ e. e ≡ Allocation) }
{
    if same_name(old, new) {
        return Ok(());
    }
    let row = soname_row(alloc, old, new)?;
    rows.push(row)
}

// ---- one old export

// Adds the row of an export that binds to none.
#[tactic(auto, unfolding(crate::specs::reports::ExportRows::gone_rows))]
fn push_gone(
    alloc: Global,
    rows: &mut List<Row>,
    export: &Export,
    is_named: bool,
) -> Result<(), NoMemory>
    ensures appended { OnOk result (rows.new ≡ rows.old ++ gone_rows is_named (plain_export export.now)) }
    ensures named { IfErr result (λ e. e ≡ Allocation) }
{
    let rule = if is_named {
        Rule::ExportVersion
    } else {
        Rule::ExportPresence
    };
    let beside = *export;
    let row = export_row(alloc, rule, export, &beside)?;
    rows.push(row)
}

/// An old export, and the new one to which it binds.
#[derive(Clone, Copy)]
struct BoundExport<'x, 'o, 'n> {
    export: &'x Export<'o>,
    partner: &'x Export<'n>,
}

// Adds the row of a rule, if it is broken.
fn push_if(
    alloc: Global,
    rows: &mut List<Row>,
    is_broken: bool,
    rule: Rule,
    bound: &BoundExport,
) -> Result<(), NoMemory>
    ensures appended { OnOk result (rows.new
        ≡ rows.old ++ row_if is_broken (export_rows_spec.export_row rule (plain_export bound.now.export.now) (plain_export bound.now.partner.now))) }
    ensures named { IfErr result (λ e. e ≡ Allocation) }
{
    if !is_broken {
        return Ok(());
    }
    let row = export_row(alloc, rule, bound.export, bound.partner)?;
    rows.push(row)
}

// Adds the rows of an export that binds to another.
#[tactic(auto, unfolding(crate::specs::reports::ExportRows::changed_rows))]
fn push_changed(alloc: Global, rows: &mut List<Row>, bound: &BoundExport) -> Result<(), NoMemory>
    ensures appended { OnOk result (rows.new
        ≡ rows.old ++ changed_rows (plain_export bound.now.export.now) (plain_export bound.now.partner.now)) }
    ensures named { IfErr result (λ e. e ≡ Allocation) }
{
    let [kind_breaks, size_breaks, type_breaks] = export_breaks(bound.export, bound.partner);
    push_if(alloc, rows, kind_breaks, Rule::ExportKind, bound)?;
    push_if(alloc, rows, size_breaks, Rule::ExportSize, bound)?;
    push_if(alloc, rows, type_breaks, Rule::ExportType, bound)
}

// Whether some export of a library has a name.
fn is_named(library: &Library<NewIx>, name: &[u8]) -> bool
    ensures { result ≡ list_any (binding.is_named name.now) library.now.exports }
{
    !library.exports_named(name).is_empty()
}

// Adds the rows of an old export, given the position of the new one to which it binds.
fn push_bound(
    alloc: Global,
    rows: &mut List<Row>,
    ground: &BoundPair,
    export: &Export,
    place: Option<usize>,
) -> Result<(), NoMemory>
    requires { place ≡ bind_to ground.now.new.now.exports (plain_export export.now) }
    ensures appended { OnOk result (rows.new ≡ rows.old ++ rows_for (sides_of ground.now) (plain_export export.now)) }
    ensures named { IfErr result (λ e. e ≡ Allocation) }
{
    match partner(ground.new, place) {
        Some(partner) => push_changed(alloc, rows, &BoundExport { export, partner }),
        None => push_gone(alloc, rows, export, is_named(ground.new, export.name)),
    }
}

// ---- all old exports

// Adds the rows of the old export at a position.
fn push_at(
    alloc: Global,
    rows: &mut List<Row>,
    ground: &BoundPair,
    k: usize,
) -> Result<(), NoMemory>
    requires inside { k < length ground.now.old.now.exports }
    requires bound { IsBinding ground.now }
    ensures appended { OnOk result (rows.new ≡ rows.old ++ rows_at (sides_of ground.now) k) }
    ensures named { IfErr result (λ e. e ≡ Allocation) }
{
    if !is_compared(ground.marks, k) {
        return Ok(());
    }
    match find_at(ground.old, k) {
        None => Ok(()),
        Some(export) => push_bound(alloc, rows, ground, export, ground.bound[k]),
    }
}

/// Adds the row on sonames, if they differ, and then the rows of each compared old export. An export that is gone costs two binary
/// searches.
pub(crate) fn push_export_rows(
    alloc: Global,
    rows: &mut Rows,
    ground: &BoundPair,
) -> Result<(), NoMemory>
    requires bound { IsBinding ground.now }
    requires none { rows.old.list ≡ [] }
    requires counted { IsTaken rows.old.room.most row_size rows.old.list rows.old.room }
    ensures appended { OnOk result (rows.new.list
        ≡ rows.old.list ++ export_rows_spec.export_rows (sides_of ground.now)) }
    ensures counted { OnOk result (IsTaken rows.old.room.most row_size rows.new.list rows.new.room) }
    ensures past { IfErr result (λ e. OnLimit e
        (RowsPass rows.old.room.most (rows.old.list ++ export_rows_spec.export_rows (sides_of ground.now)))) }
{
    push_soname_rows(
        alloc,
        &mut rows.list,
        ground.old.soname(),
        ground.new.soname(),
    )?;
    take_rows(&mut rows.room, rows.list.as_slice(), 0)?;
    let count = ground.old.exports().len();
    'exports: for k in 0..count {
        let first = rows.list.as_slice().len();
        push_at(alloc, &mut rows.list, ground, k)?;
        take_rows(&mut rows.room, rows.list.as_slice(), first)?;
    }
    Ok(())
}
