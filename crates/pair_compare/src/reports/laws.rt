//! What rows made from an exploration report, and that they are complete and unique. Each law is the contract of a function that
//! only cites the laws below it.
ghost use Rattle.std.specs.Prelude.{◌≡◌, ◌↔◌, ◌++◌, [], ℕ, List};
ghost use Rattle.abi_types.specs.Graphs.{IsGraph};
ghost use Rattle.abi_types.specs.Types.{PlainNode};
ghost use Rattle.report.specs.declared.row.Row.{Row};
ghost use Rattle.cert_check.specs.Compatible.{Sides, IsCompatible, task_of, typed_roots};
ghost use Rattle.type_classes.specs.Classes.{PlainClasses, AreCoarsest, AreSound};
ghost use Rattle.pair_rules.specs.declared.rules.Broken.{Broken};
ghost use Rattle.pair_rules.specs.Paths.{Path, PathLeadsTo};
ghost use Rattle.pair_rules.specs.Steps.{PlainRoot, Triple};
ghost use Rattle.pair_explorer.specs.declared.visits.Visit.{Visit};
ghost use Rattle.pair_explorer.specs.Scopes.{Scope, IsScope, scope};
ghost use Rattle.pair_explorer.specs.Explorations.{IsExploration};
ghost use Rattle.pair_compare.specs.reports.ExportRows.{export_rows};
ghost use Rattle.pair_compare.specs.reports.PathTexts.{end_of, IsWalk};
ghost use Rattle.pair_compare.specs.reports.Readable.{AreReadable};
ghost use Rattle.pair_compare.specs.reports.Reports.{AreRight, AreRightRows, IsRightReport};
ghost use Rattle.pair_compare.specs.reports.TypeFindings.{IsCoarse, IsExplored, findings_of, type_rows};

use abi_types::laws::rules_have_places_of_their_own;
use pair_explorer::laws::{
    breaks_are_told_in_order, breaks_by_representatives, no_break_is_compatible,
    parents_spell_paths, paths_are_ordered,
};
use pair_rules::laws::{
    breaks_are_where_their_rules_say, paths_lead_to_nodes, steps_lead_to_nodes,
};
use report::laws::texts_see_no_nodes;
use type_classes::laws::{alike_is_an_equivalence, alike_nodes_break_the_same_rules};

/// The breaks of an exploration over the classes of alike nodes, without those that repeat an earlier one about the same types, are
/// right findings: they are true, complete, by the first paths, and in order.
pub fn told_breaks_are_right()
    ensures { (s : Scope) (visits : List Visit) (broken : List (ℕ × Broken)) → IsCoarse s
        → IsExploration s visits broken →
        AreRight s.task (findings_of s.task visits broken) }
{
    rules_have_places_of_their_own();
    texts_see_no_nodes();
    breaks_by_representatives();
    breaks_are_told_in_order();
    parents_spell_paths();
    paths_are_ordered();
    paths_lead_to_nodes();
}

/// Their rows are right rows of the two libraries.
pub fn told_rows_are_right()
    ensures { (s : Sides) (visits : List Visit) (broken : List (ℕ × Broken)) → IsExplored (task_of s) visits broken
        → AreRightRows s (type_rows s visits broken) }
{
    rules_have_places_of_their_own();
    texts_see_no_nodes();
    breaks_by_representatives();
    breaks_are_told_in_order();
    parents_spell_paths();
    paths_are_ordered();
    paths_lead_to_nodes();
}

/// The report has no row exactly where the new library may replace the old one.
pub fn no_row_is_compatible()
    ensures { (s : Sides) (visits : List Visit) (broken : List (ℕ × Broken)) → IsExplored (task_of s) visits broken →
        (export_rows s ++ type_rows s visits broken ≡ []) ↔ IsCompatible s }
{
    rules_have_places_of_their_own();
    no_break_is_compatible();
}

/// A path that leads from the typed pairs to two types ends, followed in the old library alone, at the old one of them, and all
/// nodes and parts along it exist.
pub fn paths_end_where_they_lead()
    ensures ends { (s : Sides) (path : Path) (x : Triple) → PathLeadsTo (task_of s) path x → end_of s.old path ≡ x.old }
    ensures walks { (s : Sides) (path : Path) (x : Triple) → IsGraph s.old.graph → IsGraph s.new.graph
        → PathLeadsTo (task_of s) path x → IsWalk s.old path }
{
    steps_lead_to_nodes();
    paths_lead_to_nodes();
}

/// Everything from which the rows of an exploration's breaks are made exists.
pub fn rows_can_be_read()
    ensures { (s : Sides) (visits : List Visit) (broken : List (ℕ × Broken)) → IsExplored (task_of s) visits broken
        → AreReadable s visits broken }
{
    paths_end_where_they_lead();
    breaks_by_representatives();
    parents_spell_paths();
    breaks_are_where_their_rules_say();
}

/// Two libraries and marks have at most one right report: their bytes determine the printed text.
pub fn a_right_report_is_one()
    ensures { (s : Sides) (first other : List Row) → IsGraph s.old.graph → IsGraph s.new.graph → IsRightReport s first
        → IsRightReport s other → first ≡ other }
{
    alike_is_an_equivalence();
    alike_nodes_break_the_same_rules();
    paths_are_ordered();
    paths_lead_to_nodes();
}

/// An exploration from the types of the compared exports, over the classes of alike nodes, is an exploration of the two libraries.
pub fn alike_types_are_explored()
    ensures { (s : Sides) (old_nodes new_nodes : List PlainNode) (roots : List PlainRoot)
        (old new : PlainClasses) (visits : List Visit) (broken : List (ℕ × Broken))
        → old_nodes ≡ s.old.graph → new_nodes ≡ s.new.graph → roots ≡ typed_roots s → IsGraph old_nodes → IsGraph new_nodes
        → AreSound old → AreSound new → AreCoarsest old → AreCoarsest new
        → IsScope (scope old_nodes new_nodes roots s.marks old new) → IsExploration (scope old_nodes new_nodes roots s.marks old new) visits broken
        → IsExplored (task_of s) visits broken }
{}
