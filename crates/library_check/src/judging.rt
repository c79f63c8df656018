// What is said about two libraries after they are read.
ghost use Rattle.std.specs.Prelude.{◌≡◌, ◌<◌, [], Some, map, All, IfErr, IfOk};
ghost use Rattle.abi_base.specs.declared.fault.NoMemory.TheVariants.{Allocation};
ghost use Rattle.abi_base.specs.Outcome.{OnLimit};
ghost use Rattle.cert_check.specs.Compatible.{sides};
ghost use Rattle.cert_text.specs.Grammar.{IsSpelled};
ghost use Rattle.pair_compare.specs.Judged.{IsRight};
ghost use Rattle.pair_compare.specs.Limits.{ComparisonPasses};
ghost use Rattle.pair_compare.specs.Marking.{AreMarksOf};
ghost use Rattle.suppressions.specs.Limits.{MarksPass};
ghost use Rattle.suppressions.specs.Marks.{marks_of};
ghost use Rattle.library_check.specs.Judgements.{IsJudged, IsReport};
ghost use Rattle.library_check.specs.Limits.{JudgementPasses};
ghost use Rattle.library_check.specs.Remarks.{remark_of};

use crate::remarks::remark;
use abi_base::NoMemory;
use abi_types::{Library, Marks, NewIx, OldIx};
use cert_text::{Cert, write_cert};
use commands::{Judgement, Verdict};
use pair_compare::{Comparison, compare};
use pair_rules::Steps;
use report::{Listener, Row, tell_all};
use std::alloc::Global;
use std::marker::Brand;
use std::sync::ledger::{Blank, Ledger};
use suppression_text::Rules;
use suppressions::marks;

// The exports and types of the old library that a rule file suppresses.
pub(crate) fn marks_by(
    alloc: Global,
    rules: &Rules,
    old: &Library<OldIx>,
) -> Result<Marks, NoMemory>
    ensures marks { IfOk result (λ marks. marks ≡ marks_of rules.now old.now) }
    ensures even { IfOk result (λ marks. AreMarksOf old.now marks) }
    ensures past { IfErr result (λ e. OnLimit e (MarksPass rules.now old.now)) }
{
    marks(alloc, rules, old)
}

/// The line `no`, and the texts of the listeners.
pub(crate) fn report(
    alloc: Global,
    listeners: Vec<Box<dyn Listener>>,
    rows: &[Row],
) -> Result<Vec<u8>, NoMemory>
    requires { All (λ listener. heard listener ≡ []) listeners.items }
    ensures told { IfOk result (λ text. IsReport (map voice listeners.items) rows.now text.items) }
    ensures named { IfErr result (λ e. e ≡ Allocation) }
{
    let mut text = Vec::new(alloc);
    text.extend_from_slice(b"no\n")?;
    tell_all(listeners, rows, &mut text)?;
    Ok(text)
}

/// The result of comparing two libraries, with a step counter of its own.
pub(crate) fn compared<L: Ledger>(
    alloc: Global,
    blank: Blank,
    old: &Library<OldIx>,
    new: &Library<NewIx>,
    marks: &Marks,
) -> Result<Comparison, NoMemory>
    requires name { blank.name ≡ L.name }
    requires parts { blank.parts ≡ L.parts }
    requires some { 0 < blank.parts }
    requires marks { AreMarksOf old.now marks.now }
    ensures right { IfOk result (IsRight (sides old.now new.now marks.now)) }
    ensures past { IfErr result (λ e. OnLimit e (ComparisonPasses (sides old.now new.now marks.now))) }
{
    let mut steps = Steps::<L>::new(blank);
    compare(alloc, old, new, marks, &mut steps)
}

/// The text of a certificate. It fails only where an allocation fails, as writing a certificate does.
pub(crate) fn certificate_text(alloc: Global, cert: &Cert) -> Result<Vec<u8>, NoMemory>
    ensures spelled { IfOk result (λ text. IsSpelled text.items cert.now) }
    ensures named { IfErr result (λ e. e ≡ Allocation) }
{
    write_cert(alloc, cert)
}

/// What `check` says about two libraries and a rule file after they are read: yes with the certificate, or no with the texts that
/// listeners make of every break. It fails only if memory runs out, or if a limit on the rule file or on the comparison is passed.
#[tactic(auto, using(crate::proofs::LimitLemmas::marks_pass, crate::proofs::LimitLemmas::comparison_passes))]
pub fn judge(
    alloc: Global,
    old: &Library<OldIx>,
    new: &Library<NewIx>,
    rules: &Rules,
    listeners: Vec<Box<dyn Listener>>,
) -> Result<Judgement, NoMemory>
    requires { All (λ listener. heard listener ≡ []) listeners.items }
    ensures judged { IfOk result (λ j. IsJudged
        (map voice listeners.items) old.now new.now rules.now j.verdict j.text.items) }
    ensures remark { IfOk result (λ j. j.untyped ≡ Some (remark_of old.now new.now)) }
    ensures past { IfErr result (λ e. OnLimit e (JudgementPasses old.now new.now rules.now)) }
{
    let untyped = Some(remark(old, new));
    let marks = marks_by(alloc, rules, old)?;
    match compared::<Brand>(alloc, Blank::new(1), old, new, &marks)? {
        Comparison::Compatible(cert) => Ok(Judgement {
            verdict: Verdict::Yes,
            untyped,
            text: certificate_text(alloc, &cert)?,
        }),
        Comparison::Broken(rows) => Ok(Judgement {
            verdict: Verdict::No,
            untyped,
            text: report(alloc, listeners, rows.as_slice())?,
        }),
    }
}
