//! The exports of libraries: by position, what they bind to, whether they have a type, and whether one keeps the rules against
//! another.
ghost use Rattle.std.specs.Prelude.{◌≡◌, ◌<◌, ◌↔◌, IsTrue, length, option_and_then, MatchOption, slice_get, None, Some};
ghost use Rattle.abi_types.specs.Plain.{plain_export};
ghost use Rattle.elf_bind.specs.Binding.{bind_to};
ghost use Rattle.cert_check.specs.Compatible.{KeepsExport};
ghost use Rattle.cert_check.specs.Compatible as compatible;

use abi_types::{Export, Index, Library, NewIx};
use elf_bind::bind_in;
use pair_rules::export_breaks;

/// The number of exports of a library.
pub fn export_count<Ix: Index>(library: &Library<Ix>) -> usize
    ensures { result ≡ length library.now.exports }
{
    library.exports().len()
}

/// The export of a library at a position.
#[tactic(auto, using(crate::proofs::ExportLemmas::export_read))]
pub fn export_at<'x, 'a, Ix: Index>(library: &'x Library<'a, Ix>, k: usize) -> &'x Export<'a>
    requires { k < length library.now.exports }
    ensures { slice_get library.now.exports k ≡ Some (plain_export result.now) }
{
    let exports = library.exports();
    &exports[k]
}

/// The export of a library at a position, or `None` past the end.
#[tactic(auto, using(crate::proofs::ExportLemmas::none_read))]
pub fn find_at<'x, 'a, Ix: Index>(
    library: &'x Library<'a, Ix>,
    place: usize,
) -> Option<&'x Export<'a>>
    ensures { MatchOption result (slice_get library.now.exports place
        ≡ None) (λ export. slice_get library.now.exports place ≡ Some (plain_export export.now)) }
{
    library.exports().get(place)
}

/// The export of a library to which another one binds, or `None` if it binds to none.
#[tactic(auto, using(crate::proofs::ExportLemmas::bound_none, crate::proofs::ExportLemmas::bound_at))]
pub fn bound_to<'x, 'n>(export: &Export, new: &'x Library<'n, NewIx>) -> Option<&'x Export<'n>>
    ensures { MatchOption result (option_and_then (slice_get new.now.exports)
        (bind_to new.now.exports (plain_export export.now)) ≡ None)
        (λ partner. option_and_then (slice_get new.now.exports) (bind_to new.now.exports (plain_export export.now)) ≡ Some (plain_export partner.now)) }
{
    match bind_in(export, new) {
        None => None,
        Some(place) => find_at(new, place),
    }
}

/// Whether two exports, of which the first binds to the second, break no rule.
pub fn keeps_export(old: &Export, new: &Export) -> bool
    ensures { IsTrue result ↔ KeepsExport (plain_export old.now) (plain_export new.now) }
{
    export_breaks(old, new) == [false, false, false]
}

/// Whether an export has a type.
pub fn is_typed(export: &Export) -> bool
    ensures { result ≡ compatible.is_typed (plain_export export.now) }
{
    export.entry != 0
}
