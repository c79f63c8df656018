//! What an accepted certificate proves. Each law is the contract of a function that does nothing.
ghost use Rattle.std.specs.Prelude.{◌≡◌, ◌<◌, ◌↔◌, ℕ, true, List, Option, Some, None, Contains, slice_get};
ghost use Rattle.abi_types.specs.declared.library.Marks.{Marks};
ghost use Rattle.abi_types.specs.Graphs.{IsGraph};
ghost use Rattle.abi_types.specs.Libraries.{AreNumbered};
ghost use Rattle.pair_rules.specs.Steps.{PlainRoot};
ghost use Rattle.pair_rules.specs.Stable.{AreEven};
ghost use Rattle.pair_rules.specs.Closed.{IsClosed, HoldsRoots};
ghost use Rattle.accesses.specs.LeafPlaces.{LeavesStay};
ghost use Rattle.cert_text.specs.Certs.{PairLine, PlainCert, PlainCert1};
ghost use Rattle.cert_check.specs.Agreed.{AreValid, IsAgreed};
ghost use Rattle.cert_check.specs.Compatible.{Sides, IsCompatible, sides, task_of, typed_roots};
ghost use Rattle.cert_check.specs.TypedPairs.{IsTypedPair, HasTypes};
ghost use Rattle.cert_check.specs.Accepted.{Case, Place, IsAccepted, IsFirstFailing, is_line, line_of, places};
ghost use Rattle.cert_check.specs.Given.{StandInOrder};
ghost use Rattle.cert_check.specs.ProvedConditions.{KeepsAll};
ghost use Rattle.cert_check.specs.Relation.{relation_of};
ghost use Rattle.cert_check.specs.FirstVersion.{AreOneMark, IsAccepted1, migrated_case};
ghost use Rattle.cert_check.specs.Unmarked.{MarkNothing};

use accesses::laws::{compatible_is_that_all_accesses_land, leaves_stay};
use pair_rules::laws::{steps_lead_to_nodes, what_stands_for_classes_closes};

/// If old nodes with equal labels are marked alike at each way, an accepted certificate proves that the new library may replace the
/// old one.
pub fn an_accepted_certificate_is_a_proof()
    ensures { (c : Case) → AreNumbered c.sides.old.exports → IsGraph c.sides.old.graph → IsGraph c.sides.new.graph
        → AreEven (task_of c.sides) → IsAccepted c → IsCompatible c.sides }
{
    what_stands_for_classes_closes();
}

/// The new library may replace the old one exactly if the sonames agree, each compared old export binds and keeps the rules of
/// exports, and every open access from the types of these exports lands in agreement. Then each leaf on which an open access lands
/// stays at its offset, unless it lies under a place that is marked at its way, or under one that is declared only in the new
/// library.
pub fn compatible_is_that_accesses_agree()
    ensures exact { (s : Sides) → AreValid s → IsCompatible s ↔ IsAgreed s }
    ensures leaves { (s : Sides) → AreValid s → IsCompatible s → LeavesStay (task_of s) }
{
    compatible_is_that_all_accesses_land();
    leaves_stay();
}

/// Under the same premises, the relation of an accepted certificate is one that the theorem requires: it is closed, and holds the
/// types of all compared exports, by value.
pub fn the_relation_of_an_accepted_certificate_is_closed()
    ensures closed { (c : Case) → IsGraph c.sides.old.graph → IsGraph c.sides.new.graph → AreEven (task_of c.sides)
        → IsAccepted c
        → IsClosed (task_of c.sides) (relation_of c) }
    ensures roots { (c : Case) → IsGraph c.sides.old.graph → IsGraph c.sides.new.graph → AreEven (task_of c.sides)
        → IsAccepted c
        → HoldsRoots (task_of c.sides) (relation_of c) }
{
    what_stands_for_classes_closes();
}

/// At most one place is the first that fails.
pub fn one_place_fails_first()
    ensures { (c : Case) (one other : Place) → IsFirstFailing c (places c) one → IsFirstFailing c (places c) other
        → one ≡ other }
{}

/// A certificate is accepted exactly if all its conditions hold.
pub fn what_is_accepted_keeps_all()
    ensures { (c : Case) → IsAccepted c ↔ KeepsAll c }
{}

/// The second number that is found for a number is on a line with it; if none is found, no line begins with the number. A pair line
/// is found exactly if it is one of the lines.
pub fn lines_are_found_where_they_stand()
    ensures found { (lines : List (ℕ × ℕ)) (n m : ℕ) → line_of lines n ≡ Some m → Contains lines (n, m) }
    ensures missing { (lines : List (ℕ × ℕ)) (n m : ℕ) → line_of lines n ≡ None → Contains lines (n, m) → ⊥ }
    ensures pairs { (lines : List PairLine) (line : PairLine) → (is_line lines line ≡ true) ↔ Contains lines line }
{}

/// Lines that are given for numbers are in the order of the numbers.
pub fn lines_stand_in_the_order_of_their_numbers()
    ensures { (line : ℕ → Option (ℕ × ℕ)) → StandInOrder line }
{}

/// The explored roots are exactly the typed pairs, in strictly ascending order of their exports, and they name nodes.
pub fn roots_are_typed_pairs()
    ensures exact { (s : Sides) (root : PlainRoot) → Contains (typed_roots s) root ↔ IsTypedPair s root }
    ensures ascending { (s : Sides) (j k : ℕ) (first later : PlainRoot) → j < k
        → slice_get (typed_roots s) j ≡ Some first → slice_get (typed_roots s) k ≡ Some later → first.export < later.export }
    ensures nodes { (s : Sides) (root : PlainRoot) → IsTypedPair s root → HasTypes s root }
{}

/// If the rules mark the same nodes at both ways, an accepted certificate of version 1 is also accepted after it is migrated.
pub fn a_migrated_certificate_is_accepted()
    ensures { (s : Sides) (c : PlainCert1) → AreOneMark s → IsAccepted1 s c → IsAccepted (migrated_case s c) }
{
    steps_lead_to_nodes();
}

/// A certificate that is accepted with marks that mark nothing is accepted with any other marks that mark nothing, if they have the
/// digest of the same rule text.
pub fn marks_of_nothing_are_alike()
    ensures { (s : Sides) (m : Marks) (c : PlainCert) → MarkNothing s.marks → MarkNothing m → s.marks.digest ≡ m.digest
        → IsAccepted (record { sides = s; cert = c }) → IsAccepted (record { sides = sides s.old s.new m; cert = c }) }
{
    steps_lead_to_nodes();
}
