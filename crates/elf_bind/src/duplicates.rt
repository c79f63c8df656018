// Exports of one name and one version.
ghost use Rattle.std.specs.Prelude.{◌≡◌, IfOk, List, [], ◌++◌, ◌∷◌};
ghost use Rattle.std.specs.List.{list_any};
ghost use Rattle.abi_base.specs.Outcome.{first};
ghost use Rattle.abi_types.specs.Exports.{PlainExport};
ghost use Rattle.abi_types.specs.Plain.{plain_export, plain_exports};
ghost use Rattle.elf_bind.specs.Exports.{duplicate_faults, is_same};
ghost use Rattle.elf_bind.specs.EarlierExports.{EarlierExports};

use crate::codes::code_of;
use abi_base::{Fault, FaultKind};
use abi_types::Export;
use std::alloc::{AllocError, Global};
use std::collections::BTreeSet;

// Adds an export to those that stood before, and says whether one of them has its name and its version, or its name and
// no version.
fn stood_before<'a>(
    unversioned: &mut BTreeSet<(u64, &'a [u8])>,
    versioned: &mut BTreeSet<(u64, &'a [u8], &'a [u8])>,
    export: &Export<'a>,
) -> Result<bool, AllocError>
    ensures says { IfOk result (λ stood. (before : List PlainExport)
        → EarlierExports unversioned.old versioned.old before
        → stood ≡ list_any (is_same (plain_export export.now)) before) }
    ensures adds { IfOk result (λ stood. (before : List PlainExport)
        → EarlierExports unversioned.old versioned.old before
        → EarlierExports unversioned.new versioned.new (before ++ plain_export export.now ∷ [])) }
{
    let code = code_of(export.name);
    let is_new = match export.version {
        None => unversioned.insert((code, export.name))?,
        Some(version) => versioned.insert((code, export.name, version))?,
    };
    Ok(!is_new)
}

/// The fault of the first export that has the name and the version of an earlier one.
pub fn duplicate_fault(alloc: Global, exports: &[Export]) -> Result<Option<Fault>, AllocError>
    ensures { IfOk result (λ fault. fault ≡ first (duplicate_faults [] (plain_exports exports.now))) }
{
    let mut unversioned = BTreeSet::new(alloc);
    let mut versioned = BTreeSet::new(alloc);
    for export in exports {
        if stood_before(&mut unversioned, &mut versioned, export)? {
            return Ok(Some(Fault {
                kind: FaultKind::DuplicateExport,
                at: u64::from(export.symbol),
            }));
        }
    }
    Ok(None)
}
