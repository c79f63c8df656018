//! What an exploration proves about two libraries, although it looks at one node of each class only. Each law is the contract of a
//! function that only cites the laws below it.
ghost use Rattle.std.specs.Prelude.{◌≡◌, ◌<◌, ◌↔◌, ℕ, true, false, [], List, Some, Contains, slice_get};
ghost use Rattle.pair_rules.specs.declared.rules.Broken.{Broken};
ghost use Rattle.pair_rules.specs.Steps.{Triple, is_marked, breaks_of};
ghost use Rattle.pair_rules.specs.Paths.{Path, PathLeadsTo, IsReachable, IsBefore, IsNotAfter};
ghost use Rattle.pair_rules.specs.Closed.{AreCompatible, IsClosed, HoldsRoots};
ghost use Rattle.pair_explorer.specs.declared.visits.Visit.{Visit};
ghost use Rattle.pair_explorer.specs.Scopes.{Scope, rep, LeadsByRep};
ghost use Rattle.pair_explorer.specs.Visits.{Along, AreEarlier, has, IsVisit};
ghost use Rattle.pair_explorer.specs.Routes.{path_at};
ghost use Rattle.pair_explorer.specs.Explorations.{IsExploration};
ghost use Rattle.pair_explorer.specs.ByClass.{IsSound, IsTold, IsToldBy, IsToldBefore, IsReached, covers};

use pair_rules::laws::{
    breaks_stand_in_order, closed_relations_hold_what_is_reachable, rules_see_no_nodes,
};

/// The types are compatible exactly where an exploration finds no break. Where it finds none, the triples of nodes whose
/// representatives it visited are a closed relation that holds all roots; where it finds one, no closed relation holds them.
pub fn no_break_is_compatible()
    ensures { (s : Scope) (visits : List Visit) (broken : List (ℕ × Broken)) → IsSound s
        → IsExploration s visits broken →
        (broken ≡ []) ↔ AreCompatible s.task }
{
    rules_see_no_nodes();
    closed_relations_hold_what_is_reachable();
}

/// Without a break, the triples of nodes whose representatives were visited are a closed relation that holds all roots.
pub fn what_is_visited_is_closed()
    ensures closed { (s : Scope) (visits : List Visit) → IsSound s → IsExploration s visits []
        → IsClosed s.task (covers s visits) }
    ensures roots { (s : Scope) (visits : List Visit) → IsSound s → IsExploration s visits []
        → HoldsRoots s.task (covers s visits) }
{
    rules_see_no_nodes();
}

/// The triples that an exploration visits are exactly the representatives of reachable triples. So each reachable triple is
/// covered, and for each covered triple some triple of the same classes and the same way is reachable.
pub fn what_is_visited_is_reachable()
    ensures exact { (s : Scope) (visits : List Visit) (broken : List (ℕ × Broken)) (z : Triple) → IsSound s
        → IsExploration s visits broken →
        (has visits z ≡ true) ↔ IsReached s z }
    ensures covered { (s : Scope) (visits : List Visit) (broken : List (ℕ × Broken)) (x : Triple) → IsSound s
        → IsExploration s visits broken →
        IsReachable s.task x → covers s visits x ≡ true }
{
    rules_see_no_nodes();
}

/// A triple is visited exactly where one of the visits is of it.
pub fn what_is_visited_has_a_visit()
    ensures { (visits : List Visit) (x : Triple) → (has visits x ≡ true) ↔ IsVisit visits x }
{}

/// A path over nodes is also one over representatives, to the representatives of the nodes where it leads; and the other way round.
pub fn paths_by_representatives()
    ensures goes { (s : Scope) (path : Path) (x : Triple) → IsSound s → PathLeadsTo s.task path x
        → LeadsByRep s path (rep s x) }
    ensures comes { (s : Scope) (path : Path) (z : Triple) → IsSound s → LeadsByRep s path z →
        (x : Triple) × PathLeadsTo s.task path x × (rep s x ≡ z) }
{
    rules_see_no_nodes();
}

/// Triples with the same representatives are marked alike and break the same rules. Each break that an exploration reports is, with
/// the path to its visit, a break of nodes to which that path leads. And each reachable triple of nodes whose old node is unmarked
/// at its way has all its breaks among them, at the visit of its representatives.
pub fn breaks_by_representatives()
    ensures marks { (s : Scope) (x y : Triple) → IsSound s → rep s x ≡ rep s y
        → is_marked s.task x.old x.way ≡ is_marked s.task y.old y.way }
    ensures breaks { (s : Scope) (x y : Triple) → IsSound s → rep s x ≡ rep s y
        → breaks_of s.task x ≡ breaks_of s.task y }
    ensures sound { (s : Scope) (visits : List Visit) (broken : List (ℕ × Broken)) (n : ℕ) (b : Broken) (path : Path)
        → IsSound s → IsExploration s visits broken →
        Contains broken (n, b) → Along visits n path → IsToldBy s visits n b path }
    ensures complete { (s : Scope) (visits : List Visit) (broken : List (ℕ × Broken)) (x : Triple) (b : Broken)
        → IsSound s → IsExploration s visits broken →
        IsReachable s.task x → is_marked s.task x.old x.way ≡ false → Contains (breaks_of s.task x) b → IsTold s visits broken x b }
{
    rules_see_no_nodes();
}

/// The breaks of an exploration are in order of their visits, and those of one visit in the order of the rules.
pub fn breaks_are_told_in_order()
    ensures { (s : Scope) (visits : List Visit) (broken : List (ℕ × Broken)) (m n : ℕ) (p q : ℕ × Broken)
        → IsExploration s visits broken →
        m < n → slice_get broken m ≡ Some p → slice_get broken n ≡ Some q → IsToldBefore p q }
{
    breaks_stand_in_order();
}

/// The parents of a visit spell exactly one path.
pub fn parents_spell_paths()
    ensures along { (visits : List Visit) (n : ℕ) (v : Visit) → AreEarlier visits → slice_get visits n ≡ Some v
        → Along visits n (path_at visits n) }
    ensures one { (visits : List Visit) (n : ℕ) (p q : Path) → Along visits n p → Along visits n q → p ≡ q }
{}

/// Paths are strictly ordered.
pub fn paths_are_ordered()
    ensures transitive { (p q r : Path) → IsBefore p q → IsBefore q r → IsBefore p r }
    ensures not_after { (p q r : Path) → IsNotAfter p q → IsNotAfter q r → IsNotAfter p r }
    ensures irreflexive { (p : Path) → IsBefore p p → ⊥ }
{}
