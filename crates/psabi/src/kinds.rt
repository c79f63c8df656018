// Kinds of objects.
ghost use Rattle.std.specs.Prelude.{◌≡◌};
ghost use Rattle.abi_types.specs.Forms as spec;

use abi_types::Kind;

/// Whether objects of the kind consist of other objects.
pub fn is_aggregate(kind: Kind) -> bool
    ensures { result ≡ spec.is_aggregate kind }
{
    matches!(kind, Kind::Structure | Kind::Union | Kind::Array)
}

/// Whether objects of the kind are leaves.
pub fn is_leaf(kind: Kind) -> bool
    ensures { result ≡ spec.is_leaf kind }
{
    matches!(
        kind,
        Kind::Scalar | Kind::Pointer | Kind::Enumeration | Kind::Vector
    )
}

/// Whether the kind is that of functions.
pub fn is_function(kind: Kind) -> bool
    ensures { result ≡ spec.is_function kind }
{
    matches!(kind, Kind::Function)
}
