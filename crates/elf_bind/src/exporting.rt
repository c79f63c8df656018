// The export that a symbol is.
ghost use Rattle.std.specs.Prelude.{◌≡◌, ◌↔◌, IsTrue};
ghost use Rattle.std.specs.Option.{option_copied, option_map};
ghost use Rattle.abi_types.specs.Plain.{plain_export};
ghost use Rattle.elf.specs.symbols.Plain.{plain_symbol};
ghost use Rattle.elf.specs.versions.Plain.{plain_version};
ghost use Rattle.elf_bind.specs.Exports as spec;

use abi_types::{Export, SymbolKind};
use elf::constants::{
    SHN_ABS, STT_COMMON, STT_FUNC, STT_GNU_IFUNC, STT_OBJECT, STT_TLS, VER_NDX_LOCAL,
};
use elf::symbols::Symbol;
use elf::versions::Version;

/// Whether two names are equal, or both are missing.
pub fn same_name(one: Option<&[u8]>, other: Option<&[u8]>) -> bool
    ensures same { result ≡ spec.same_name (option_copied one.entry) (option_copied other.entry) }
    ensures equal { IsTrue result ↔ (option_copied one.entry ≡ option_copied other.entry) }
{
    match (one, other) {
        (None, None) => true,
        (Some(one), Some(other)) => one == other,
        _ => false,
    }
}

// What a symbol is, by its type.
fn kind_of(kind: u8) -> SymbolKind
    ensures { result ≡ spec.kind_of kind }
{
    match kind {
        STT_OBJECT => SymbolKind::Object,
        STT_FUNC => SymbolKind::Func,
        STT_COMMON => SymbolKind::Common,
        STT_TLS => SymbolKind::Tls,
        STT_GNU_IFUNC => SymbolKind::Ifunc,
        _ => SymbolKind::NoType,
    }
}

// Whether a symbol stands for its version alone.
fn is_marker(symbol: &Symbol, version: &Version) -> bool
    ensures { result ≡ spec.is_marker (plain_symbol symbol.now) (plain_version version.now) }
{
    symbol.section == SHN_ABS && same_name(Some(symbol.name), version.name)
}

// The export of a symbol and its version.
fn export_with<'a>(symbol: &Symbol<'a>, version: &Version<'a>) -> Export<'a>
    ensures { plain_export result ≡ spec.export_with (plain_symbol symbol.now) (plain_version version.now) }
{
    Export {
        symbol: symbol.number,
        name: symbol.name,
        version: version.name,
        index: version.index,
        hidden: version.hidden,
        kind: kind_of(symbol.kind),
        absolute: symbol.section == SHN_ABS,
        value: symbol.value,
        size: symbol.size,
        declared: symbol.name,
        entry: 0,
    }
}

/// The export that a symbol with this version is, or None if it is not an export.
pub fn export_of<'a>(symbol: &Symbol<'a>, version: Option<Version<'a>>) -> Option<Export<'a>>
    ensures { option_map plain_export result
        ≡ spec.export_of (plain_symbol symbol.now) (option_map plain_version version.entry) }
{
    match version {
        None => None,
        Some(version) => {
            if symbol.is_exported()
                && version.index != VER_NDX_LOCAL
                && !is_marker(symbol, &version)
            {
                Some(export_with(symbol, &version))
            } else {
                None
            }
        }
    }
}
