// The bind lines of a certificate.
ghost use Rattle.std.specs.Prelude.{◌≡◌, ◌<◌, false, length, IfOk, slice_index_or, IfErr};
ghost use Rattle.abi_base.specs.declared.fault.NoMemory.TheVariants.{Allocation};
ghost use Rattle.cert_check.specs.Compatible.{sides};
ghost use Rattle.pair_compare.specs.certificates.Lines as spec;

use crate::certificates::lists::push_some;
use abi_base::{List, NoMemory};
use abi_types::{Library, Marks, NewIx, OldIx};
use cert_check::laws::lines_stand_in_the_order_of_their_numbers;
use cert_check::library_exports::{bound_to, export_at, export_count};
use std::alloc::Global;

// Whether the old export at a position is excluded from the comparison.
fn is_dropped(marks: &Marks, k: usize) -> bool
    ensures { result ≡ slice_index_or marks.now.exports k false }
{
    match marks.exports.as_slice().get(k) {
        Some(dropped) => *dropped,
        None => false,
    }
}

// The line of the old export at a position, if it is compared and binds.
fn bind_line(
    old: &Library<OldIx>,
    new: &Library<NewIx>,
    marks: &Marks,
    k: usize,
) -> Option<(u32, u32)>
    requires { k < length old.now.exports }
    ensures { result ≡ spec.bind_line (sides old.now new.now marks.now) k }
{
    if is_dropped(marks, k) {
        return None;
    }
    let export = export_at(old, k);
    match bound_to(export, new) {
        None => None,
        Some(partner) => Some((export.symbol, partner.symbol)),
    }
}

/// The symbol of each old export that is compared and binds, with the symbol of the new export to which it binds.
pub fn bind_lines(
    alloc: Global,
    old: &Library<OldIx>,
    new: &Library<NewIx>,
    marks: &Marks,
) -> Result<List<(u32, u32)>, NoMemory>
    ensures lines { IfOk result (λ lines. lines ≡ spec.bind_lines (sides old.now new.now marks.now)) }
    ensures named { IfErr result (λ e. e ≡ Allocation) }
{
    lines_stand_in_the_order_of_their_numbers();
    let mut lines = List::new(alloc);
    for k in 0..export_count(old) {
        let line = bind_line(old, new, marks, k);
        push_some(&mut lines, line)?;
    }
    Ok(lines)
}
