// The rows of a report.
ghost use Rattle.std.specs.Prelude.{◌≡◌, ◌↔◌, [], IfOk, IfErr};
ghost use Rattle.abi_base.specs.declared.limit.Limit.TheVariants.{Report};
ghost use Rattle.abi_base.specs.Outcome.{OnLimit};
ghost use Rattle.cert_check.specs.Compatible.{IsCompatible, task_of};
ghost use Rattle.pair_compare.specs.BoundPair.{IsBinding, sides_of};
ghost use Rattle.pair_compare.specs.Limits.{ReportPasses};
ghost use Rattle.pair_compare.specs.reports.Reports.{IsRightReport};
ghost use Rattle.pair_compare.specs.reports.TypeFindings.{IsExplored};

use crate::bound_pair::BoundPair;
use crate::reports::exports::push_export_rows;
use crate::reports::laws::{no_row_is_compatible, rows_can_be_read, told_rows_are_right};
use crate::reports::rows::Rows;
use crate::reports::type_findings::push_type_rows;
use abi_base::{List, NoMemory};
use pair_explorer::Explored;
use report::Row;
use std::alloc::Global;

/// The rows of all breaks between two libraries. `explored` is the result of an exploration of their types over the classes of
/// alike ones. This is the only right report, and it has no row exactly where the new library may replace the old one.
pub fn report_rows(
    alloc: Global,
    pair: &BoundPair,
    explored: &Explored,
) -> Result<List<Row>, NoMemory>
    requires bound { IsBinding pair.now }
    requires explored { IsExplored (task_of (sides_of pair.now)) explored.now.visits explored.now.breaks }
    ensures right { IfOk result (λ rows. IsRightReport (sides_of pair.now) rows) }
    ensures none { IfOk result (λ rows. (rows ≡ []) ↔ IsCompatible (sides_of pair.now)) }
    ensures past { IfErr result (λ e. OnLimit e (λ l. (l ≡ Report) × ReportPasses (sides_of pair.now))) }
{
    rows_can_be_read();
    told_rows_are_right();
    no_row_is_compatible();
    let mut rows = Rows::new(alloc, pair);
    push_export_rows(alloc, &mut rows, pair)?;
    push_type_rows(alloc, &mut rows, pair, explored)?;
    Ok(rows.list)
}
