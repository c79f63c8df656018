// The rules on an old export and the new one to which it binds.
ghost use Rattle.std.specs.Prelude.{◌≡◌};
ghost use Rattle.abi_types.specs.Plain.{plain_export};
ghost use Rattle.pair_rules.specs.ExportRules.{breaks_kind, breaks_size, breaks_type};
ghost use Rattle.pair_rules.specs.ExportRules as spec;

use abi_types::{Export, SymbolKind};

// Whether a symbol is a function, with or without a resolver.
fn is_function(kind: SymbolKind) -> bool
    ensures { result ≡ spec.is_function kind }
{
    matches!(kind, SymbolKind::Func | SymbolKind::Ifunc)
}

// Whether a symbol is a data object or a common block.
fn is_object(kind: SymbolKind) -> bool
    ensures { result ≡ spec.is_object kind }
{
    matches!(kind, SymbolKind::Object | SymbolKind::Common)
}

fn kinds_agree(old: SymbolKind, new: SymbolKind) -> bool
    ensures { result ≡ spec.kinds_agree old new }
{
    match (old, new) {
        (SymbolKind::Tls, SymbolKind::Tls) => true,
        (SymbolKind::Tls, _) | (_, SymbolKind::Tls) => false,
        (SymbolKind::NoType, _) | (_, SymbolKind::NoType) => true,
        (old, new) => is_function(old) == is_function(new),
    }
}

/// Whether an old export and the new one to which it binds break X4, X5 and X6. X4: their kinds agree. X5: the sizes of objects are
/// equal. X6: an export that had a type still has one.
pub fn export_breaks(old: &Export, new: &Export) -> [bool; 3]
    ensures { result ≡ spec.export_breaks (plain_export old.now) (plain_export new.now) }
{
    let both_objects = is_object(old.kind) && is_object(new.kind);
    [
        !kinds_agree(old.kind, new.kind),
        both_objects && old.size != new.size,
        old.entry != 0 && new.entry == 0 && new.kind != SymbolKind::Ifunc,
    ]
}
