// Whether a new library may replace an old one for one application, given their bytes and those of a rule file.
ghost use Rattle.std.specs.Prelude.{◌≡◌, ◌≤◌, ◌++◌, [], ◌∷◌, None, Some, length, map, All, OnOk, IfOk, IfErr, string_bytes, if◌then◌else◌};
ghost use Rattle.abi_base.specs.declared.fault.NoMemory.TheVariants.{Allocation};
ghost use Rattle.abi_base.specs.Limits.{input_limit};
ghost use Rattle.abi_base.specs.Outcome.{OnLimit};
ghost use Rattle.abi_types.specs.Plain.{plain_export, plain_exports};
ghost use Rattle.app_check.specs.Imports.{AppPasses as ImportsPass, app_fault, imports_of};
ghost use Rattle.app_check.specs.Plain.{plain_imports};
ghost use Rattle.app_check.specs.Used.{narrowed_marks};
ghost use Rattle.cert_check.specs.Compatible.{sides};
ghost use Rattle.commands.specs.Faults.{AreReadable, StopsAt, StopsOn};
ghost use Rattle.commands.specs.declared.input.Input.TheVariants as input;
ghost use Rattle.pair_compare.specs.Marking.{AreMarksOf};
ghost use Rattle.suppressions.specs.Limits.{MarksPass};
ghost use Rattle.suppressions.specs.Marks.{marks_of};
ghost use Rattle.library_check.specs.Applications.{IsSaidOfUsed, sides_used, use_line, use_lines, used_by, uses_text};
ghost use Rattle.library_check.specs.Limits.{UsedPass};
ghost use Rattle.library_check.specs.Remarks.{remark_of};
ghost use Rattle.library_check.specs.Rows.App.{app_asks, app_passes, app_says};

use crate::checking::{Inputs, read_inputs};
use crate::judging::{compared, marks_by, report};
use crate::remarks::remark;
use abi_base::NoMemory;
use abi_types::{Export, Library, Marks, OldIx, push_label};
use app_check::{Import, narrow, read_app, used};
use commands::{Input, Judgement, Stop, Verdict, stop_at};
use pair_compare::Comparison;
use report::Listener;
use std::alloc::{AllocError, Global};
use std::marker::Brand;
use std::sync::ledger::Blank;
use suppression_text::Rules;

/// The bytes of an application, an old and a new library, and a rule file.
#[derive(Clone, Copy)]
pub(crate) struct AppFiles<'x> {
    /// The application.
    pub(crate) app: &'x [u8],
    /// The library that it uses.
    pub(crate) old: &'x [u8],
    /// The library that may replace the old one.
    pub(crate) new: &'x [u8],
    /// The rule file.
    pub(crate) rules: &'x [u8],
}

// The imports of the application.
fn read_imports(alloc: Global, bytes: &[u8]) -> Result<Vec<Import<'_>>, Stop>
    requires { length bytes.now ≤ input_limit }
    ensures readable { OnOk result (app_fault bytes.now ≡ None) }
    ensures imports { IfOk result (λ imports. plain_imports imports.items ≡ imports_of bytes.now) }
    ensures stops { IfErr result (StopsOn input.App (app_fault bytes.now) (ImportsPass bytes.now)) }
{
    match read_app(alloc, bytes) {
        Ok(imports) => Ok(imports),
        Err(refusal) => Err(stop_at(Input::App, refusal)),
    }
}

// For each old export, whether an import binds to it. It fails only where an allocation fails, as `used` does.
fn used_of(alloc: Global, imports: &[Import], old: &Library<OldIx>) -> Result<Vec<bool>, NoMemory>
    ensures used { IfOk result (λ used. used.items ≡ used_by (plain_imports imports.now) old.now) }
    ensures named { IfErr result (λ e. e ≡ Allocation) }
{
    used(alloc, imports, old.soname(), old.exports())
}

// The exports and types of the old library that are not compared: those that a rule file suppresses, and each export to which no
// import binds.
fn marks_for(
    alloc: Global,
    imports: &[Import],
    rules: &Rules,
    old: &Library<OldIx>,
) -> Result<Marks, NoMemory>
    ensures marks { IfOk result (λ marks. marks
        ≡ narrowed_marks (marks_of rules.now old.now) (used_by (plain_imports imports.now) old.now)) }
    ensures even { IfOk result (λ marks. AreMarksOf old.now marks) }
    ensures past { IfErr result (λ e. OnLimit e (MarksPass rules.now old.now)) }
{
    let marks = marks_by(alloc, rules, old)?;
    let used = used_of(alloc, imports, old)?;
    let narrowed = narrow(alloc, &marks, &used)?;
    Ok(narrowed)
}

// Appends the line of a used export, or nothing for a dropped one.
fn push_use(
    alloc: Global,
    text: &mut String,
    export: &Export,
    dropped: bool,
) -> Result<(), AllocError>
    ensures { OnOk result (string_bytes text.new
        ≡ string_bytes text.old ++ (if dropped then [] else use_line (plain_export export.now))) }
{
    if dropped {
        return Ok(());
    }
    text.push_str("use ")?;
    push_label(alloc, text, export)?;
    text.push_str("\n")
}

// Appends the lines of the exports that are not dropped.
fn push_uses(
    alloc: Global,
    text: &mut String,
    exports: &[Export],
    dropped: &[bool],
) -> Result<(), AllocError>
    requires { length dropped.now ≡ length exports.now }
    ensures { OnOk result (string_bytes text.new
        ≡ string_bytes text.old ++ use_lines (plain_exports exports.now) dropped.now) }
{
    for place in 0..exports.len() {
        push_use(alloc, text, &exports[place], dropped[place])?;
    }
    Ok(())
}

// The text of a yes: a line for each compared old export.
fn uses(alloc: Global, old: &Library<OldIx>, marks: &Marks) -> Result<Vec<u8>, NoMemory>
    requires { AreMarksOf old.now marks.now }
    ensures made { IfOk result (λ text. (new : _) → text.items ≡ uses_text (sides old.now new marks.now)) }
    ensures named { IfErr result (λ e. e ≡ Allocation) }
{
    let mut text = String::from_str(alloc, "yes app\n")?;
    push_uses(alloc, &mut text, old.exports(), marks.exports.as_slice())?;
    Ok(text.into_bytes())
}

// What `app` says about imports, two libraries and a rule file after they are read.
#[tactic(auto, using(crate::proofs::LimitLemmas::marks_used, crate::proofs::LimitLemmas::comparison_used))]
fn judge_used(
    alloc: Global,
    imports: &[Import],
    inputs: &Inputs,
    listeners: Vec<Box<dyn Listener>>,
) -> Result<Judgement, NoMemory>
    requires { All (λ listener. heard listener ≡ []) listeners.items }
    ensures said { IfOk result (λ j. IsSaidOfUsed (map voice listeners.items)
        (sides_used (plain_imports imports.now) inputs.now.pair.old inputs.now.pair.new inputs.now.rules)
        j.verdict j.text.items) }
    ensures remark { IfOk result (λ j. j.untyped ≡ Some (remark_of inputs.now.pair.old inputs.now.pair.new)) }
    ensures past { IfErr result (λ e. OnLimit e
        (UsedPass (plain_imports imports.now) inputs.now.pair.old inputs.now.pair.new inputs.now.rules)) }
{
    let old = &inputs.pair.old;
    let new = &inputs.pair.new;
    let untyped = Some(remark(old, new));
    let marks = marks_for(alloc, imports, &inputs.rules, old)?;
    match compared::<Brand>(alloc, Blank::new(1), old, new, &marks)? {
        Comparison::Compatible(_) => Ok(Judgement {
            verdict: Verdict::Yes,
            untyped,
            text: uses(alloc, old, &marks)?,
        }),
        Comparison::Broken(rows) => Ok(Judgement {
            verdict: Verdict::No,
            untyped,
            text: report(alloc, listeners, rows.as_slice())?,
        }),
    }
}

/// Whether a new library may replace an old one for one application, in all that a rule file does not suppress, given their bytes:
/// yes with the exports that the application uses, or no with the texts that listeners make of every break of these. A fault is
/// that of the first input that has one, in the order app, old, new, rules.
#[tactic(auto, using(crate::proofs::StopLemmas::imports_stop_app, crate::proofs::StopLemmas::inputs_stop_app, crate::proofs::StopLemmas::used_stops_app))]
pub(crate) fn app(
    alloc: Global,
    files: &AppFiles,
    listeners: Vec<Box<dyn Listener>>,
) -> Result<Judgement, Stop>
    requires app_short { length files.now.app.now ≤ input_limit }
    requires old_short { length files.now.old.now ≤ input_limit }
    requires new_short { length files.now.new.now ≤ input_limit }
    requires unheard { All (λ listener. heard listener ≡ []) listeners.items }
    ensures readable { OnOk result (AreReadable app_asks
        (files.now.app.now ∷ files.now.old.now ∷ files.now.new.now ∷ files.now.rules.now ∷ [])) }
    ensures said { IfOk result (λ j. app_says (map voice listeners.items)
        (files.now.app.now ∷ files.now.old.now ∷ files.now.new.now ∷ files.now.rules.now ∷ [])
        j.verdict j.untyped j.text.items) }
    ensures stops { IfErr result (StopsAt app_asks app_passes
        (files.now.app.now ∷ files.now.old.now ∷ files.now.new.now ∷ files.now.rules.now ∷ [])) }
{
    let imports = read_imports(alloc, files.app)?;
    let inputs = read_inputs(alloc, files.old, files.new, files.rules)?;
    let judgement = judge_used(alloc, &imports, &inputs, listeners)?;
    Ok(judgement)
}
