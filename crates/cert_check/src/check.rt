// The whole check.
ghost use Rattle.std.specs.Prelude.{OnOk};
ghost use Rattle.pair_rules.specs.Stable.{AreEven};
ghost use Rattle.cert_check.specs.Accepted.{Settles, asked, places};
ghost use Rattle.cert_check.specs.Agreed.{IsAgreed};
ghost use Rattle.cert_check.specs.Compatible.{sides, task_of};

use crate::alike::{check_alike_lines_of_new, check_alike_lines_of_old};
use crate::bindings::check_bindings;
use crate::certified_pair::CertifiedPair;
use crate::exports::{check_roots, check_rules};
use crate::heads::check_heads;
use crate::laws::{an_accepted_certificate_is_a_proof, compatible_is_that_accesses_agree};
use crate::pairs::check_pairs;
use crate::refused::Refused;
use abi_types::{Library, Marks, NewIx, OldIx};
use cert_text::Cert;

/// Checks whether a certificate proves that the new library may replace the old one, except for what the rules suppress. Returns Ok
/// exactly if all its conditions hold, else the first that fails. On Ok, if old nodes with equal labels are marked alike, a program
/// that was compiled against the old library reaches the same in the new one. It takes no memory.
pub fn check_cert(
    old: &Library<OldIx>,
    new: &Library<NewIx>,
    marks: &Marks,
    cert: &Cert,
) -> Result<(), Refused>
    ensures settles { Settles (asked old.now new.now marks.now cert.now)
        (places (asked old.now new.now marks.now cert.now)) result }
    ensures agreed { OnOk result (AreEven (task_of (sides old.now new.now marks.now))
        → IsAgreed (sides old.now new.now marks.now)) }
{
    an_accepted_certificate_is_a_proof();
    compatible_is_that_accesses_agree();
    old.known();
    new.known();
    old.graph().known();
    new.graph().known();
    check_conditions(old, new, marks, cert)
}

// Checks each condition, in order.
fn check_conditions(
    old: &Library<OldIx>,
    new: &Library<NewIx>,
    marks: &Marks,
    cert: &Cert,
) -> Result<(), Refused>
    ensures { Settles (asked old.now new.now marks.now cert.now)
        (places (asked old.now new.now marks.now cert.now)) result }
{
    let ground = CertifiedPair {
        old,
        new,
        marks,
        cert,
    };
    if let Err(refused) = check_heads(&ground) {
        return Err(refused);
    }
    if let Err(refused) = check_bindings(&ground) {
        return Err(refused);
    }
    if let Err(refused) = check_rules(&ground) {
        return Err(refused);
    }
    if let Err(refused) = check_alike_lines_of_old(&ground) {
        return Err(refused);
    }
    if let Err(refused) = check_alike_lines_of_new(&ground) {
        return Err(refused);
    }
    if let Err(refused) = check_roots(&ground) {
        return Err(refused);
    }
    check_pairs(&ground)
}
