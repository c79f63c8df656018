// The comparison of two libraries.
ghost use Rattle.std.specs.Prelude.{◌≡◌, ◌≤◌, ◌+◌, IfOk, IfErr};
ghost use Rattle.abi_base.specs.declared.limit.Limit.{Limit as AnyLimit};
ghost use Rattle.abi_base.specs.declared.limit.Limit.TheVariants.{Report};
ghost use Rattle.abi_base.specs.Outcome.{OnLimit};
ghost use Rattle.pair_explorer.specs.GraphPairs.{scope_of};
ghost use Rattle.cert_check.specs.Compatible.{Sides, sides, typed_roots};
ghost use Rattle.pair_compare.specs.BoundPair.{IsBinding, sides_of};
ghost use Rattle.pair_compare.specs.Compared.{IsComparison, sides_in};
ghost use Rattle.pair_compare.specs.Explored.{most_steps};
ghost use Rattle.pair_compare.specs.Explored as explored_spec;
ghost use Rattle.pair_compare.specs.Marking.{AreMarksOf};
ghost use Rattle.pair_compare.specs.Judged.{IsFitting, IsRight};
ghost use Rattle.pair_compare.specs.Limits.{ComparisonPasses, ReportPasses, VerdictPasses, ViewPasses};
ghost use Rattle.pair_compare.specs.reports.TypeFindings.{IsCoarse};

use crate::bound_pair::BoundPair;
use crate::certificates::make_cert;
use crate::finished::Compared;
use crate::laws::typed_pairs_can_be_explored;
use crate::reports::report_rows;
use crate::typed::roots;
use abi_base::{List, NoMemory};
use abi_types::{Library, Marks, NewIx, OldIx};
use cert_text::Cert;
use elf_bind::bind_all;
use pair_explorer::laws::no_break_is_compatible;
use pair_explorer::{GraphPair, Root, explore};
use pair_rules::Steps;
use report::Row;
use std::alloc::Global;
use std::sync::ledger::Ledger;
use type_classes::{alike, alike_beside};

// ---- one comparison

/// What is made of a finished comparison.
pub trait View {
    /// What it makes.
    type Shown;

    /// Whether this is what it shows of two libraries with marks.
    ghost shows: { Self → Sides → Self.Shown → Type 0 };

    /// Which limits are passed where it shows two libraries with marks.
    ghost passes: { Self → Sides → AnyLimit → Type 0 };

    /// What it shows of a comparison. It compares nothing again.
    fn view(&self, alloc: Global, compared: &Compared) -> Result<Self::Shown, NoMemory>
        requires { IsComparison compared.now }
        ensures shown { IfOk result (shows self.now (sides_in compared.now)) }
        ensures past { IfErr result (λ e. OnLimit e (passes self.now (sides_in compared.now))) };
}

// What a view shows of two libraries, by graphs, roots and classes that are theirs.
#[tactic(auto, using(crate::proofs::Passing::types_pass, crate::proofs::Passing::view_passes))]
fn viewed<'x, 'c, 'o, 'n, V: View, L: Ledger>(
    alloc: Global,
    pair: &'x BoundPair<'x, 'o, 'n>,
    graphs: &'x GraphPair<'x, 'o, 'n, 'c, 'o, 'c, 'n>,
    view: &V,
    steps: &mut Steps<L>,
) -> Result<V::Shown, NoMemory>
    requires bound { IsBinding pair.now }
    requires marks { AreMarksOf pair.now.old.now pair.now.marks.now }
    requires scope { scope_of graphs.now
        ≡ explored_spec.scope_of (sides_of pair.now) graphs.now.old_classes.now graphs.now.new_classes.now }
    requires coarse { IsCoarse (scope_of graphs.now) }
    ensures shown { IfOk result (V.shows view.now (sides_of pair.now)) }
    ensures bound { steps.new ≤ steps.old + most_steps (sides_of pair.now) }
    ensures past { IfErr result (λ e. OnLimit e (ViewPasses (V.passes view.now) (sides_of pair.now))) }
{
    let explored = explore(alloc, graphs, steps)?;
    let compared = Compared {
        pair,
        graphs,
        explored: &explored,
    };
    view.view(alloc, &compared)
}

// What a view shows of two libraries whose exports are bound, by the roots of their types. The types are classified first.
fn viewed_from<'x, 'o, 'n, V: View, L: Ledger>(
    alloc: Global,
    pair: &'x BoundPair<'x, 'o, 'n>,
    roots: &'x [Root],
    view: &V,
    steps: &mut Steps<L>,
) -> Result<V::Shown, NoMemory>
    requires bound { IsBinding pair.now }
    requires marks { AreMarksOf pair.now.old.now pair.now.marks.now }
    requires roots { roots.now ≡ typed_roots (sides_of pair.now) }
    ensures shown { IfOk result (V.shows view.now (sides_of pair.now)) }
    ensures bound { steps.new ≤ steps.old + most_steps (sides_of pair.now) }
    ensures past { IfErr result (λ e. OnLimit e (ViewPasses (V.passes view.now) (sides_of pair.now))) }
{
    typed_pairs_can_be_explored();
    let old_graph = pair.old.graph();
    let new_graph = pair.new.graph();
    old_graph.known();
    new_graph.known();
    let old_classes = alike(alloc, old_graph)?;
    let new_classes = alike_beside(alloc, new_graph, &old_classes)?;
    old_classes.known();
    new_classes.known();
    let graphs = GraphPair {
        old: old_graph,
        new: new_graph,
        roots,
        marks: pair.marks,
        old_classes: &old_classes,
        new_classes: &new_classes,
    };
    viewed(alloc, pair, &graphs, view, steps)
}

// What a view shows of two libraries whose exports are bound.
fn viewed_of<'x, 'o, 'n, V: View, L: Ledger>(
    alloc: Global,
    pair: &'x BoundPair<'x, 'o, 'n>,
    view: &V,
    steps: &mut Steps<L>,
) -> Result<V::Shown, NoMemory>
    requires bound { IsBinding pair.now }
    requires marks { AreMarksOf pair.now.old.now pair.now.marks.now }
    ensures shown { IfOk result (V.shows view.now (sides_of pair.now)) }
    ensures bound { steps.new ≤ steps.old + most_steps (sides_of pair.now) }
    ensures past { IfErr result (λ e. OnLimit e (ViewPasses (V.passes view.now) (sides_of pair.now))) }
{
    let roots = roots(alloc, pair)?;
    viewed_from(alloc, pair, roots.as_slice(), view, steps)
}

/// What a view shows of two libraries. They are compared once: their exports are bound, their types classified, and all pairs of
/// types explored to which the compared exports lead. Each comparison of two types is a step; even where memory runs out, there are
/// at most as many steps as pairs of an old and a new type at two ways.
pub fn compare_by<V: View, L: Ledger>(
    alloc: Global,
    old: &Library<OldIx>,
    new: &Library<NewIx>,
    marks: &Marks,
    view: &V,
    steps: &mut Steps<L>,
) -> Result<V::Shown, NoMemory>
    requires { AreMarksOf old.now marks.now }
    ensures shown { IfOk result (V.shows view.now (sides old.now new.now marks.now)) }
    ensures bound { steps.new ≤ steps.old + most_steps (sides old.now new.now marks.now) }
    ensures past { IfErr result (λ e. OnLimit e (ViewPasses (V.passes view.now) (sides old.now new.now marks.now))) }
{
    let bound = bind_all(alloc, old.exports(), new.exports())?;
    let pair = BoundPair {
        old,
        new,
        marks,
        bound: bound.as_slice(),
    };
    viewed_of(alloc, &pair, view, steps)
}

// ---- the verdict

/// The result of comparing two libraries.
#[derive(Drop)]
pub enum Comparison {
    /// The new library may replace the old one; this certificate proves it.
    Compatible(Cert),
    /// The new library may not replace the old one; these are the rows of the report, one for each break.
    Broken(List<Row>),
}

/// Whether the new library of a comparison may replace the old one: the certificate if it may, else the rows of the report.
pub fn verdict_of(alloc: Global, compared: &Compared) -> Result<Comparison, NoMemory>
    requires { IsComparison compared.now }
    ensures right { IfOk result (IsRight (sides_in compared.now)) }
    ensures fits { IfOk result (IsFitting (sides_in compared.now)) }
    ensures past { IfErr result (λ e. OnLimit e (λ l. (l ≡ Report) × ReportPasses (sides_in compared.now))) }
{
    no_break_is_compatible();
    let rows = report_rows(alloc, compared.pair, compared.explored)?;
    if !rows.as_slice().is_empty() {
        return Ok(Comparison::Broken(rows));
    }
    let graphs = compared.graphs;
    let cert = make_cert(
        alloc,
        compared.pair,
        graphs.old_classes,
        graphs.new_classes,
        &compared.explored.visits,
    )?;
    Ok(Comparison::Compatible(cert))
}

/// The view that shows the verdict.
#[derive(Clone, Copy)]
pub struct Verdict;

impl View for Verdict {
    type Shown = Comparison;

    ghost shows = { λ v s shown. IsRight s shown × IsFitting s shown };

    ghost passes = { λ v. VerdictPasses };

    fn view(&self, alloc: Global, compared: &Compared) -> Result<Comparison, NoMemory> {
        verdict_of(alloc, compared)
    }
}

/// Whether the new library may replace the old one in all that is unmarked: the certificate if it may, else the rows of the report.
/// Pass `unmarked` to mark nothing. The checker has room for the certificate. Each comparison of two types is a step; even where memory runs out, there are at most as many
/// steps as pairs of an old and a new type at two ways.
pub fn compare<L: Ledger>(
    alloc: Global,
    old: &Library<OldIx>,
    new: &Library<NewIx>,
    marks: &Marks,
    steps: &mut Steps<L>,
) -> Result<Comparison, NoMemory>
    requires { AreMarksOf old.now marks.now }
    ensures right { IfOk result (IsRight (sides old.now new.now marks.now)) }
    ensures fits { IfOk result (IsFitting (sides old.now new.now marks.now)) }
    ensures bound { steps.new ≤ steps.old + most_steps (sides old.now new.now marks.now) }
    ensures past { IfErr result (λ e. OnLimit e (ComparisonPasses (sides old.now new.now marks.now))) }
{
    compare_by(alloc, old, new, marks, &Verdict, steps)
}
