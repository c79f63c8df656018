// The marks for one application.
ghost use Rattle.std.specs.Prelude.{◌≡◌, ◌||◌, not, length, IfErr, IfOk};
ghost use Rattle.abi_base.specs.declared.fault.NoMemory.TheVariants.{Allocation};
ghost use Rattle.app_check.specs.Used.{narrowed_marks};
ghost use Rattle.app_check.specs.Used as spec;

use abi_base::{List, NoMemory};
use abi_types::Marks;
use std::alloc::Global;

// Whether an export is dropped.
fn is_left_out(dropped: bool, used: bool) -> bool
    ensures { result ≡ (dropped || not used) }
{
    dropped || !used
}

// Drops each export that is dropped already or is not used.
fn narrowed(alloc: Global, dropped: &[bool], used: &[bool]) -> Result<List<bool>, NoMemory>
    requires { length dropped.now ≡ length used.now }
    ensures read { IfOk result (λ exports. exports ≡ spec.narrowed dropped.now used.now) }
    ensures named { IfErr result (λ e. e ≡ Allocation) }
{
    let mut exports = List::new(alloc);
    for place in 0..dropped.len() {
        exports.push(is_left_out(dropped[place], used[place]))?;
    }
    Ok(exports)
}

/// These marks, which also drop each export that is not used. Everything else is kept. Fails only where an allocation does.
pub fn narrow(alloc: Global, marks: &Marks, used: &[bool]) -> Result<Marks, NoMemory>
    requires { length marks.now.exports ≡ length used.now }
    ensures read { IfOk result (λ narrowed. narrowed ≡ narrowed_marks marks.now used.now) }
    ensures named { IfErr result (λ e. e ≡ Allocation) }
{
    Ok(Marks {
        digest: marks.digest,
        exports: narrowed(alloc, marks.exports.as_slice(), used)?,
        direct: List::copy_of(alloc, marks.direct.as_slice())?,
        pointer: List::copy_of(alloc, marks.pointer.as_slice())?,
    })
}
