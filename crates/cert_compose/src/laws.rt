//! What composed certificates prove. Each law is the contract of a function that only cites the laws below it.
ghost use Rattle.std.specs.Prelude.{◌≡◌};
ghost use Rattle.cert_text.specs.Certs.{PlainCert};
ghost use Rattle.cert_check.specs.declared.refused.Refused.{Refused};
ghost use Rattle.cert_check.specs.Accepted.{IsAccepted};
ghost use Rattle.cert_check.specs.Compatible.{IsCompatible};
ghost use Rattle.cert_compose.specs.Chains.{PlainChain, IsChain, far, far_case};
ghost use Rattle.cert_compose.specs.Composed.{IsComposed};
ghost use Rattle.cert_compose.specs.Between.{NothingBetween};
ghost use Rattle.cert_compose.specs.Refusals.{IsLost};

use cert_check::laws::{
    an_accepted_certificate_is_a_proof, lines_are_found_where_they_stand,
    the_relation_of_an_accepted_certificate_is_closed, what_is_accepted_keeps_all,
};
use pair_rules::laws::{parts_meet_in_the_middle, steps_lead_to_nodes};

/// If nothing is lost between them, the certificate that two accepted ones compose is accepted.
pub fn what_is_composed_is_accepted()
    ensures accepted { (ch : PlainChain) (c : PlainCert) → IsChain ch → NothingBetween ch → IsComposed ch c
        → IsAccepted (far_case ch c) }
    ensures compatible { (ch : PlainChain) (c : PlainCert) → IsChain ch → NothingBetween ch → IsComposed ch c
        → IsCompatible (far ch) }
{
    what_is_accepted_keeps_all();
    lines_are_found_where_they_stand();
    the_relation_of_an_accepted_certificate_is_closed();
    an_accepted_certificate_is_a_proof();
    steps_lead_to_nodes();
    parts_meet_in_the_middle();
}

/// Two certificates compose at most one certificate.
pub fn what_is_composed_is_one()
    ensures { (ch : PlainChain) (c d : PlainCert) → IsComposed ch c → IsComposed ch d → c ≡ d }
{}

/// At most one loss is the first, and there is none where nothing is lost.
pub fn one_thing_is_lost_first()
    ensures one { (ch : PlainChain) (lost other : Refused) → IsLost ch lost.kind lost.at
        → IsLost ch other.kind other.at → lost ≡ other }
    ensures none { (ch : PlainChain) (lost : Refused) → NothingBetween ch → IsLost ch lost.kind lost.at → ⊥ }
{}
