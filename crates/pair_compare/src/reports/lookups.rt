// Lookups by position in libraries and marks.
ghost use Rattle.std.specs.Prelude.{◌≡◌, not, false, slice_get, slice_index_or, option_and_then, Some, None, MatchOption};
ghost use Rattle.abi_types.specs.Plain.{plain_export};

use abi_types::{Export, Library, Marks, NewIx};
use cert_check::library_exports::find_at;

/// The new export at a position, or `None` where there is no position or nothing at it.
pub fn partner<'x, 'n>(
    library: &'x Library<'n, NewIx>,
    place: Option<usize>,
) -> Option<&'x Export<'n>>
    ensures { MatchOption result (option_and_then (slice_get library.now.exports) place
        ≡ None) (λ export. option_and_then (slice_get library.now.exports) place ≡ Some (plain_export export.now)) }
{
    match place {
        None => None,
        Some(place) => find_at(library, place),
    }
}

/// Whether the old export at a position is compared, that is, no suppression drops it.
pub fn is_compared(marks: &Marks, k: usize) -> bool
    ensures { result ≡ not (slice_index_or marks.now.exports k false) }
{
    match marks.exports.as_slice().get(k) {
        Some(dropped) => !*dropped,
        None => true,
    }
}
