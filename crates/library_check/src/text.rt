// The lines about certificates.
ghost use Rattle.std.specs.Prelude.{◌≡◌, IfErr, IfOk};
ghost use Rattle.abi_base.specs.declared.fault.NoMemory.TheVariants.{Allocation};
ghost use Rattle.library_check.specs.Text.{accepted_text, refused_first_text, refused_second_text, refused_text};

use abi_base::NoMemory;
use cert_check::Refused;
use std::alloc::Global;

/// The line about an accepted certificate.
pub(crate) fn accepted(alloc: Global) -> Result<Vec<u8>, NoMemory>
    ensures made { IfOk result (λ text. text.items ≡ accepted_text) }
    ensures named { IfErr result (λ e. e ≡ Allocation) }
{
    Ok(String::from_str(alloc, "accepted\n")?.into_bytes())
}

/// The line that names the first condition that a certificate does not meet.
pub(crate) fn refused(alloc: Global, refused: Refused) -> Result<Vec<u8>, NoMemory>
    ensures made { IfOk result (λ text. text.items ≡ refused_text refused) }
    ensures named { IfErr result (λ e. e ≡ Allocation) }
{
    let number = refused.kind.number();
    let name = refused.kind.name();
    let at = refused.at;
    Ok(format!(in alloc; "refused {number} {name} {at}\n")?.into_bytes())
}

/// The line that names the first condition that the first of two certificates does not meet.
pub(crate) fn refused_first(alloc: Global, refused: Refused) -> Result<Vec<u8>, NoMemory>
    ensures made { IfOk result (λ text. text.items ≡ refused_first_text refused) }
    ensures named { IfErr result (λ e. e ≡ Allocation) }
{
    let number = refused.kind.number();
    let name = refused.kind.name();
    let at = refused.at;
    Ok(format!(in alloc; "refused first {number} {name} {at}\n")?.into_bytes())
}

/// The line that names the first condition that the second of two certificates does not meet.
pub(crate) fn refused_second(alloc: Global, refused: Refused) -> Result<Vec<u8>, NoMemory>
    ensures made { IfOk result (λ text. text.items ≡ refused_second_text refused) }
    ensures named { IfErr result (λ e. e ≡ Allocation) }
{
    let number = refused.kind.number();
    let name = refused.kind.name();
    let at = refused.at;
    Ok(format!(in alloc; "refused second {number} {name} {at}\n")?.into_bytes())
}
