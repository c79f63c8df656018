// Remarks beside the answer: how many exports were compared without types.
ghost use Rattle.std.specs.Prelude.{◌≡◌, count_by};
ghost use Rattle.abi_types.specs.Plain.{plain_exports};
ghost use Rattle.library_check.specs.Remarks.{has_size, has_size_alone, remark_of, sized_exports};

use abi_base::{Remark, SizedExports};
use abi_types::{Export, Library, NewIx, OldIx};

// The number of exports with a size.
#[tactic(auto, using(crate::proofs::RemarkLemmas::counted_plain))]
fn count_sized(exports: &[Export]) -> usize
    ensures { result ≡ count_by has_size (plain_exports exports.now) }
{
    exports.iter().filter(|export| export.size > 0).count()
}

// The number of exports with a size, but without a type.
#[tactic(auto, using(crate::proofs::RemarkLemmas::counted_plain))]
fn count_untyped(exports: &[Export]) -> usize
    ensures { result ≡ count_by has_size_alone (plain_exports exports.now) }
{
    exports
        .iter()
        .filter(|export| export.size > 0 && export.entry == 0)
        .count()
}

// The number of exports of a library with a size, and the number of those without a type.
fn sized(exports: &[Export]) -> SizedExports
    ensures { result ≡ sized_exports (plain_exports exports.now) }
{
    SizedExports {
        all: count_sized(exports),
        untyped: count_untyped(exports),
    }
}

/// The remark on two libraries.
pub(crate) fn remark(old: &Library<OldIx>, new: &Library<NewIx>) -> Remark
    ensures { result ≡ remark_of old.now new.now }
{
    Remark {
        old: sized(old.exports()),
        new: sized(new.exports()),
    }
}
