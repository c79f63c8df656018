//! What the certificate of two libraries is. Each law is the contract of a function that only cites the laws below it.
ghost use Rattle.std.specs.Prelude.{◌≡◌};
ghost use Rattle.cert_text.specs.Certs.{PlainCert};
ghost use Rattle.cert_check.specs.Compatible.{Sides, IsCompatible, task_of};
ghost use Rattle.cert_check.specs.Accepted.{IsAccepted};
ghost use Rattle.type_classes.specs.Classes.{PlainClasses, AreSound, AreCoarsest};
ghost use Rattle.pair_explorer.specs.Scopes.{IsScope};
ghost use Rattle.pair_compare.specs.certificates.Searches.{scope_of, AreMarksOf};
ghost use Rattle.pair_compare.specs.certificates.Certificates.{IsCertificateOf, AreLibraries, AreMarkedAlike};

use cert_check::laws::{
    lines_are_found_where_they_stand, lines_stand_in_the_order_of_their_numbers,
    roots_are_typed_pairs, what_is_accepted_keeps_all,
};
use pair_rules::laws::{
    closed_relations_hold_what_is_reachable, partners_name_nodes, parts_see_no_nodes,
    paths_lead_to_nodes, steps_lead_to_nodes,
};
use type_classes::laws::{
    alike_is_an_equivalence, alike_nodes_break_the_same_rules, alike_nodes_look_the_same,
};

/// Two libraries have at most one certificate.
pub fn a_certificate_is_one()
    ensures { (s : Sides) (one other : PlainCert) → IsCertificateOf s one → IsCertificateOf s other → one ≡ other }
{}

/// Where the new library may replace the old one, and alike nodes are marked alike, the checker accepts the certificate of the two.
pub fn the_certificate_of_the_compatible_is_accepted()
    ensures { (s : Sides) (c : PlainCert) → AreLibraries s → AreMarkedAlike (task_of s) → IsCompatible s
        → IsCertificateOf s c
        → IsAccepted (record { sides = s; cert = c }) }
{
    what_is_accepted_keeps_all();
    lines_are_found_where_they_stand();
    lines_stand_in_the_order_of_their_numbers();
    roots_are_typed_pairs();
    alike_is_an_equivalence();
    alike_nodes_break_the_same_rules();
    alike_nodes_look_the_same();
    steps_lead_to_nodes();
    partners_name_nodes();
    paths_lead_to_nodes();
    closed_relations_hold_what_is_reachable();
    parts_see_no_nodes();
}

/// The typed pairs of two libraries, with the classes of alike nodes, may be explored if nodes with equal labels are marked alike.
pub fn typed_pairs_may_be_explored()
    ensures { (s : Sides) (old new : PlainClasses) → old.nodes ≡ s.old.graph → new.nodes ≡ s.new.graph → AreSound old
        → AreCoarsest old → AreMarksOf s
        → IsScope (scope_of s old new) }
{
    roots_are_typed_pairs();
}
