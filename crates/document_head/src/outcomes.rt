// The members about the outcome of a run.
ghost use Rattle.std.specs.Prelude.{◌≡◌, IfOk};
ghost use Rattle.document_head.specs.Heads as spec;
ghost use Rattle.document_head.specs.Heads.{fault_object, sized_object};
ghost use Rattle.serde_json.specs.View.{view};

use abi_base::{Fault, Remark, SizedExports};
use commands::{Input, Outcome, Verdict};
use serde_json::{Value, json};
use std::alloc::{AllocError, Global};

// The word for an outcome.
pub(crate) fn answer_word(outcome: Outcome) -> &'static str
    ensures { result.now ≡ spec.answer_word outcome }
{
    match outcome {
        Outcome::Judged(Verdict::Yes, _) => "yes",
        Outcome::Judged(Verdict::No, _) => "no",
        Outcome::Judged(Verdict::Refused, _) => "refused",
        Outcome::Judged(Verdict::Done, _) => "done",
        Outcome::Unreadable(_, _) => "unreadable",
        Outcome::ReadFault(_) => "read fault",
        Outcome::Help => "help",
        Outcome::Usage => "usage",
        Outcome::NoMemory(_) => "no memory",
        Outcome::WriteFault => "write fault",
    }
}

// The object of a fault.
fn fault_value(alloc: Global, which: Input, fault: Fault) -> Result<Value, AllocError>
    ensures { IfOk result (λ value. view value ≡ fault_object which fault) }
{
    json!(in alloc; {
        "input": which.word(),
        "number": fault.kind.number(),
        "name": fault.kind.name(),
        "at": fault.at
    })
}

// The fault of an outcome, or null.
pub(crate) fn fault_of(alloc: Global, outcome: Outcome) -> Result<Value, AllocError>
    ensures { IfOk result (λ value. view value ≡ spec.fault_value outcome) }
{
    match outcome {
        Outcome::Unreadable(which, fault) => fault_value(alloc, which, fault),
        _ => Ok(Value::Null),
    }
}

// The numbers of a library's exports with a size: of all, and of those without a type.
fn sized_value(alloc: Global, exports: SizedExports) -> Result<Value, AllocError>
    ensures { IfOk result (λ value. view value ≡ sized_object exports) }
{
    json!(in alloc; {"all": exports.all as u64, "untyped": exports.untyped as u64})
}

// The numbers of both libraries' exports with a size.
fn remark_value(alloc: Global, remark: Remark) -> Result<Value, AllocError>
    ensures { IfOk result (λ value. view value ≡ spec.remark_value (Some remark)) }
{
    let old = sized_value(alloc, remark.old)?;
    let new = sized_value(alloc, remark.new)?;
    json!(in alloc; {"old": old, "new": new})
}

// The number of exports of both libraries without a type, or null.
pub(crate) fn untyped_of(alloc: Global, outcome: Outcome) -> Result<Value, AllocError>
    ensures { IfOk result (λ value. view value ≡ spec.untyped_value outcome) }
{
    match outcome {
        Outcome::Judged(_, Some(remark)) => remark_value(alloc, remark),
        _ => Ok(Value::Null),
    }
}

// Whether the text is a report, which has the array of the breaks.
pub(crate) fn is_report(outcome: Outcome) -> bool
    ensures { result ≡ spec.is_report outcome }
{
    match outcome {
        Outcome::Judged(Verdict::No, _) => true,
        _ => false,
    }
}
