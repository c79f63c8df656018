//! Laws about matches, rules, partners and steps, as the contracts of functions with empty bodies.
ghost use Rattle.std.specs.Prelude.{◌≡◌, ◌<◌, ◌≤◌, ◌↔◌, ℕ, Bool, true, false, List, [], length, take, filter, Some, None, Contains, slice_get};
ghost use Rattle.std.specs.Option.{option_map};
ghost use Rattle.abi_types.specs.declared.kind.Kind.{Kind};
ghost use Rattle.abi_types.specs.declared.kind.Group.{Group};
ghost use Rattle.abi_types.specs.declared.kind.Way.{Way};
ghost use Rattle.abi_types.specs.declared.place.Place.{Place};
ghost use Rattle.abi_types.specs.Types.{PlainView};
ghost use Rattle.abi_types.specs.Forms.{HasForm};
ghost use Rattle.abi_types.specs.Graphs.{part_at, view_at, IsGraph};
ghost use Rattle.abi_types.specs.Parts.{like};
ghost use Rattle.abi_types.specs.ClassLooks.{part_seen, view_seen};
ghost use Rattle.pair_rules.specs.declared.rules.Broken.{Broken};
ghost use Rattle.pair_rules.specs.BreakOrder.{IsBrokenBefore};
ghost use Rattle.pair_rules.specs.Same.{same_kind, same_group, same_place};
ghost use Rattle.pair_rules.specs.Matching.{match_of, number_of, IsMatch};
ghost use Rattle.pair_rules.specs.TypeRules.{bit_at, params_of, value_at, width_at, rules_asked, breaks, IsBroken};
ghost use Rattle.pair_rules.specs.Partners.{partner_at, IsPartner};
ghost use Rattle.pair_rules.specs.Middles.{MeetInTheMiddle};
ghost use Rattle.pair_rules.specs.Steps.{PlainRoot, Task, Triple, is_marked, breaks_of, next_of, step, IsStep};
ghost use Rattle.pair_rules.specs.Stable.{AreClasses, StandsFor, IsInside, LeadsLike, classed, related};
ghost use Rattle.pair_rules.specs.Paths.{Path, Then, PathLeadsTo, root_triple};
ghost use Rattle.pair_rules.specs.Closed.{IsClosed, HoldsRoots};

/// The k-th part of a sort and a name matches the k-th one of the same sort and name. A part has no match exactly where the
/// new type has no more such parts than the old one has before it.
pub fn parts_match_in_order()
    ensures found { (v w : PlainView) (i j : ℕ) → (match_of v w i ≡ Some j) ↔ IsMatch v w i j }
    ensures missing { (v w : PlainView) (i : ℕ) → (match_of v w i ≡ None)
        ↔ (length (filter (like (part_at v i)) w.parts) ≤ length (filter (like (part_at v i)) (take i v.parts))) }
{}

/// The comparisons of kinds, groups and places agree with equality.
pub fn the_same_are_equal()
    ensures kinds { (a b : Kind) → (same_kind a b ≡ true) ↔ (a ≡ b) }
    ensures groups { (a b : Group) → (same_group a b ≡ true) ↔ (a ≡ b) }
    ensures places { (a b : Place) → (same_place a b ≡ true) ↔ (a ≡ b) }
{}

/// The list of broken rules contains a rule at a position exactly where the rule is checked and broken there. A rule on parts is
/// broken only at existing parts.
pub fn breaks_are_where_their_rules_say()
    ensures { (v w : PlainView) (b : Broken) → Contains (breaks v w) b ↔ (Contains (rules_asked v w) b.rule
        × IsBroken v w b) }
{}

/// The list of broken rules is ordered by rule, and by part where a rule is broken at several.
pub fn breaks_stand_in_order()
    ensures { (v w : PlainView) (m n : ℕ) (b c : Broken) → m < n → slice_get (breaks v w) m ≡ Some b
        → slice_get (breaks v w) n ≡ Some c → IsBrokenBefore b c }
{}

/// A type breaks no rule against itself, whatever its view.
pub fn a_type_may_replace_itself()
    ensures { (v : PlainView) → breaks v v ≡ [] }
{}

/// Two positions are those of partners exactly where both types have definitions and the same kind, the old part exists and names
/// a node, and the new part is its match. The new part then exists and names a node too.
pub fn partners_name_nodes()
    ensures partners { (v w : PlainView) (i j : ℕ) → (partner_at v w i ≡ Some (i, j)) ↔ IsPartner v w i j }
    ensures place { (v w : PlainView) (i : ℕ) (p : ℕ × ℕ) → partner_at v w i ≡ Some p → p.0 ≡ i }
{}

/// If a type breaks no rule against a middle type with a definition, each of its parts with a partner in a third type has one in
/// the middle type too, which has the same partner in the third.
pub fn parts_meet_in_the_middle()
    ensures { (v u w : PlainView) (i j : ℕ) → HasForm v → HasForm u → u.declared_only ≡ false → breaks v u ≡ []
        → IsPartner v w i j
        → MeetInTheMiddle v u w i j }
{}

/// A part leads from one triple to another exactly where the old node is not marked for its way, the part exists and has a
/// partner, and the two parts name the nodes of the other triple. In graphs these nodes exist.
pub fn steps_lead_to_nodes()
    ensures exact { (t : Task) (x y : Triple) (i : ℕ) → (step t x i ≡ Some y) ↔ IsStep t x i y }
    ensures inside { (t : Task) (x y : Triple) (i : ℕ) → IsGraph t.old → IsGraph t.new → step t x i ≡ Some y
        → IsInside t y }
{}

/// In graphs a path from roots that are nodes leads to nodes, and each of its positions is that of an existing part.
pub fn paths_lead_to_nodes()
    ensures nodes { (t : Task) (path : Path) (x : Triple) → IsGraph t.old → IsGraph t.new
        → ((k : ℕ) (root : PlainRoot) → slice_get t.roots k ≡ Some root → IsInside t (root_triple root))
        → PathLeadsTo t path x → IsInside t x }
    ensures parts { (t : Task) (path : Path) (part : ℕ) (y : Triple) → PathLeadsTo t (Then path part) y
        → (x : Triple) × PathLeadsTo t path x × (part < length (view_at t.old x.old).parts) }
{}

/// A closed relation that contains the roots contains everything to which a path leads.
pub fn closed_relations_hold_what_is_reachable()
    ensures { (t : Task) (r : Triple → Bool) (path : Path) (x : Triple) → IsClosed t r → HoldsRoots t r
        → PathLeadsTo t path x → r x ≡ true }
{}

/// Rules, partners and steps depend only on the identity of the nodes that parts name: if nodes get other numbers, the
/// same rules are broken, the same parts are partners, and steps lead to the nodes with the other numbers.
pub fn rules_see_no_nodes()
    ensures breaks { (f g : ℕ → ℕ) (v w : PlainView) → breaks (view_seen f v) (view_seen g w) ≡ breaks v w }
    ensures partners { (f g : ℕ → ℕ) (v w : PlainView) (i : ℕ)
        → partner_at (view_seen f v) (view_seen g w) i ≡ partner_at v w i }
    ensures steps { (f g : ℕ → ℕ) (v w : PlainView) (way : Way) (i : ℕ) →
        next_of (view_seen f v) (view_seen g w) way i ≡ option_map (classed f g) (next_of v w way i) }
{}

/// The values of parts, their numbers among parts of the same name, and their matches do not depend on the nodes that parts name.
pub fn parts_see_no_nodes()
    ensures parts { (f : ℕ → ℕ) (v : PlainView) (i : ℕ) → part_at (view_seen f v) i ≡ part_seen f (part_at v i) }
    ensures numbers { (f : ℕ → ℕ) (v : PlainView) (i : ℕ) → number_of (view_seen f v) i ≡ number_of v i }
    ensures matches { (f g : ℕ → ℕ) (v w : PlainView) (i : ℕ)
        → match_of (view_seen f v) (view_seen g w) i ≡ match_of v w i }
    ensures bits { (f : ℕ → ℕ) (v : PlainView) (i : ℕ) → bit_at (view_seen f v) i ≡ bit_at v i }
    ensures widths { (f : ℕ → ℕ) (v : PlainView) (i : ℕ) → width_at (view_seen f v) i ≡ width_at v i }
    ensures values { (f : ℕ → ℕ) (v : PlainView) (i : ℕ) → value_at (view_seen f v) i ≡ value_at v i }
    ensures params { (f : ℕ → ℕ) (v : PlainView) → params_of (view_seen f v) ≡ params_of v }
{}

/// With stable classes and even marks, triples of the same classes are marked alike, break the same rules, and lead to triples
/// of the same classes.
pub fn triples_of_the_same_classes()
    ensures marks { (t : Task) (old new : ℕ → ℕ) (x y : Triple) → AreClasses t old new → IsInside t x → IsInside t y
        → classed old new x ≡ classed old new y → is_marked t x.old x.way ≡ is_marked t y.old y.way }
    ensures breaks { (t : Task) (old new : ℕ → ℕ) (x y : Triple) → AreClasses t old new → IsInside t x → IsInside t y
        → classed old new x ≡ classed old new y → breaks_of t x ≡ breaks_of t y }
    ensures steps { (t : Task) (old new : ℕ → ℕ) (x y z : Triple) (i : ℕ) → AreClasses t old new → IsInside t x
        → IsInside t y
        → classed old new x ≡ classed old new y → step t y i ≡ Some z → LeadsLike t old new x i z }
{}

/// With stable classes and even marks: if a representative stands for each triple of nodes whose classes are listed, then the
/// triples of nodes whose classes are listed are a closed relation.
pub fn what_stands_for_classes_closes()
    ensures { (t : Task) (old new : ℕ → ℕ) (listed : Triple → Bool) → AreClasses t old new
        → ((x : Triple) → IsInside t x → listed (classed old new x) ≡ true → StandsFor t old new listed x)
        → IsClosed t (related t old new listed) }
{}
