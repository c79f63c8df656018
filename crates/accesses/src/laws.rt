//! Laws about accesses, as the contracts of functions that only cite the laws below them.
ghost use Rattle.std.specs.Prelude.{◌≡◌, ◌↔◌, ◌⊎◌, ℕ, Bool, true, false, List, [], Some, Contains};
ghost use Rattle.abi_types.specs.Types.{PlainView};
ghost use Rattle.abi_types.specs.Forms.{HasForm};
ghost use Rattle.abi_types.specs.Graphs.{part_at, to_of, view_at};
ghost use Rattle.abi_types.specs.Libraries.{HasPlaces};
ghost use Rattle.pair_rules.specs.declared.rules.Broken.{Broken};
ghost use Rattle.pair_rules.specs.Matching.{match_of};
ghost use Rattle.pair_rules.specs.TypeRules.{breaks};
ghost use Rattle.pair_rules.specs.Steps.{PlainRoot, Task, Triple, is_marked, breaks_of};
ghost use Rattle.pair_rules.specs.Paths.{Path, PathLeadsTo};
ghost use Rattle.pair_rules.specs.Closed.{AreCompatible, IsClosed, HoldsRoots};
ghost use Rattle.accesses.specs.Accesses.{Moves, Then, Spot, old_spot, new_spot, IsOpen};
ghost use Rattle.accesses.specs.Agreement.{Agree, MemberBreaks};
ghost use Rattle.accesses.specs.Compared.{AreCompared};
ghost use Rattle.accesses.specs.Landing.{AllLand, IsOpenAccess, Lands, Misses};
ghost use Rattle.accesses.specs.LeafPlaces.{LeavesStay};
ghost use Rattle.accesses.specs.Moves.{Move, named, IsNamed, move_at};
ghost use Rattle.accesses.specs.Readings.{AllLandBeside, IsAccessed};

use abi_types::laws::leaves_are_ends_of_walks;
use pair_rules::laws::{
    breaks_are_where_their_rules_say, parts_match_in_order, steps_lead_to_nodes, the_same_are_equal,
};

/// A move names the part with its sort, its name and its number among the parts with both. Each part that names a type has a move
/// that names it. The part of another type that the same move names is its match.
pub fn moves_name_parts()
    ensures exact { (v : PlainView) (move : Move) (i : ℕ) → (named v move ≡ Some i) ↔ IsNamed v move i }
    ensures each { (v : PlainView) (i to : ℕ) → HasForm v → to_of (part_at v i) ≡ Some to
        → named v (move_at v i) ≡ Some i }
    ensures matches { (v w : PlainView) (move : Move) (i : ℕ) → named v move ≡ Some i → named w move ≡ match_of v w i }
{}

/// Each path is an open access that leads to the same pair of types in the same way.
pub fn paths_are_accesses()
    ensures { (t : Task) (path : Path) (x : Triple) → AreCompared t → PathLeadsTo t path x → IsAccessed t x }
{
    parts_match_in_order();
    steps_lead_to_nodes();
    breaks_are_where_their_rules_say();
    the_same_are_equal();
}

/// An access that lands has the same offset in bits and the same width in both libraries at every step. No open access goes on from
/// a type that is marked for its way, or that lacks a definition in either library.
pub fn landing_is_side_by_side()
    ensures beside { (t : Task) (root : PlainRoot) (moves : Moves) (old new : Spot) → old_spot t root moves ≡ Some old
        → new_spot t root moves ≡ Some new
        → Lands t root moves → (old.bit ≡ new.bit) × (old.width ≡ new.width) }
    ensures fronts { (t : Task) (root : PlainRoot) (moves : Moves) (move : Move) (s : Spot)
        → old_spot t root moves ≡ Some s → IsOpenAccess t root (Then moves move) → IsOpenAccess t root moves }
    ensures marked { (t : Task) (root : PlainRoot) (moves : Moves) (move : Move) (s : Spot)
        → old_spot t root moves ≡ Some s → is_marked t s.node s.way ≡ true → IsOpen t root (Then moves move) → ⊥ }
    ensures old_declared { (t : Task) (root : PlainRoot) (moves : Moves) (move : Move) (s : Spot)
        → old_spot t root moves ≡ Some s → (view_at t.old s.node).declared_only ≡ true
        → IsOpen t root (Then moves move) → ⊥ }
    ensures new_declared { (t : Task) (root : PlainRoot) (moves : Moves) (move : Move) (s n : Spot)
        → old_spot t root moves ≡ Some s → new_spot t root moves ≡ Some n
        → (view_at t.new n.node).declared_only ≡ true → IsOpen t root (Then moves move) → ⊥ }
{}

/// An open access may be defined with or without the demand that each step before its last exists in the new library. Both
/// definitions agree on whether all accesses land: where such a step does not exist, the access that ends with it is open and does
/// not land.
pub fn both_readings_of_open_are_one()
    ensures { (t : Task) → AllLand t ↔ AllLandBeside t }
{}

/// Two types that break no rule agree, if they have the forms of their kinds and places for their parameters. Whatever their forms,
/// two types that agree break only rules on members: one is missing, or has another offset or width.
pub fn agreement_is_no_break_but_of_members()
    ensures agree { (v w : PlainView) → HasForm v → HasForm w → HasPlaces v → HasPlaces w → breaks v w ≡ []
        → Agree v w }
    ensures members { (v w : PlainView) (b : Broken) → Contains (breaks v w) b → (Agree v w → ⊥)
        ⊎ MemberBreaks v w b.part }
{
    breaks_are_where_their_rules_say();
    parts_match_in_order();
    steps_lead_to_nodes();
    the_same_are_equal();
}

/// If a closed relation contains the types of all compared exports, every open access lands in agreement.
pub fn open_accesses_land()
    ensures closed { (t : Task) (r : Triple → Bool) → AreCompared t → IsClosed t r → HoldsRoots t r → AllLand t }
    ensures compatible { (t : Task) → AreCompared t → AreCompatible t → AllLand t }
{
    breaks_are_where_their_rules_say();
    parts_match_in_order();
    steps_lead_to_nodes();
    the_same_are_equal();
}

/// For each rule that a reachable triple breaks, where its old node is not marked for its way, there is an open access that does
/// not land. So if every open access lands in agreement, none of these triples breaks a rule.
pub fn breaks_are_missed()
    ensures missed { (t : Task) (path : Path) (x : Triple) (b : Broken) → AreCompared t → PathLeadsTo t path x
        → is_marked t x.old x.way ≡ false → Contains (breaks_of t x) b → Misses t }
    ensures none { (t : Task) (path : Path) (x : Triple) → AreCompared t → AllLand t → PathLeadsTo t path x
        → is_marked t x.old x.way ≡ false → breaks_of t x ≡ [] }
{
    breaks_are_where_their_rules_say();
    parts_match_in_order();
    steps_lead_to_nodes();
    the_same_are_equal();
}

/// The types of two libraries are compatible exactly if every open access lands in agreement.
pub fn compatible_is_that_all_accesses_land()
    ensures { (t : Task) → AreCompared t → AreCompatible t ↔ AllLand t }
{
    breaks_are_where_their_rules_say();
    parts_match_in_order();
    steps_lead_to_nodes();
    the_same_are_equal();
}

/// If the types are compatible, and an open access leads to an object, each leaf of the object is a leaf of its counterpart in the
/// new library, unless a type on the way to the leaf is marked for its way or lacks a definition in the new library.
pub fn leaves_stay()
    ensures { (t : Task) → AreCompared t → AreCompatible t → LeavesStay t }
{
    leaves_are_ends_of_walks();
    breaks_are_where_their_rules_say();
    parts_match_in_order();
    steps_lead_to_nodes();
    the_same_are_equal();
}
