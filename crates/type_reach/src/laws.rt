//! Laws about reached types, as the contracts of functions with empty bodies.
ghost use Rattle.std.specs.Prelude.{◌≡◌, ◌↔◌, ◌<◌, ◌≤◌, ◌*◌, ◌||◌, ℕ, List, true, Some, map, length, Contains};
ghost use Rattle.std.specs.List.{list_any};
ghost use Rattle.dwarf_tree.specs.Trees.{PlainTree};
ghost use Rattle.dwarf_entries.specs.Debug.{PlainDwarf};
ghost use Rattle.type_reach.specs.References.{Type_, types_of, type_of, role_of};
ghost use Rattle.type_reach.specs.Reached.{IsReached, IsWalk};
ghost use Rattle.type_reach.specs.ReachedList.{is_reached, reached_of};
ghost use Rattle.type_reach.specs.VisitedEntries.{by_offset};
ghost use Rattle.type_reach.specs.ByValue.{steps_from, StepsOn, IsTooDeep, IsClosed};
ghost use Rattle.type_reach.specs.Facts.{facts_from, facts_of};
ghost use Rattle.type_reach.specs.Flat.{Flat, core_of, labels_made, labels_of, flat_made, flat_of};
ghost use Rattle.type_reach.specs.PeeledCores.{IsPeeledCore, IsFound, IsLower};
ghost use Rattle.abi_base.specs.Limits.{depth_limit};
ghost use Rattle.abi_types.specs.Limits.{size_limit};
ghost use Rattle.type_reach.specs.declared.role.Role.TheVariants as role;
ghost use Rattle.type_reach.specs.Sizes.{begins_beyond, has_member_beyond};
ghost use Rattle.type_reach.specs.TypeLaws.{TypeLaws};
ghost use Rattle.type_reach.specs.Faults.{steps_on};

/// Each type to which a reached entry leads is reached.
pub fn reached_leads_on()
    ensures { (t : PlainTree) (roots : List ℕ) (e f : ℕ) → IsReached t roots e → Contains (types_of t e) (Some f)
        → IsReached t roots f }
{}

/// The test that the list uses holds exactly where a chain of references leads from a root to the entry.
pub fn reached_by_a_chain()
    ensures { (t : PlainTree) (roots : List ℕ) → ((e : ℕ) → Contains roots e → e < length t.entries) → (f : ℕ)
        → (is_reached t roots f ≡ true) ↔ IsReached t roots f }
{}

/// The entries that a walk finds, by offset, are the list of the definition.
pub fn walks_find_the_list()
    ensures { (t : PlainTree) (roots found : List ℕ) → ((e : ℕ) → Contains roots e → e < length t.entries)
        → IsWalk t roots found → by_offset found (length t.entries) ≡ reached_of t roots }
{}

/// The list of the definition has exactly the reached entries, each once, and with each entry all types to which it leads.
pub fn the_list_holds_the_reached()
    ensures walk { (t : PlainTree) (roots : List ℕ) → ((e : ℕ) → Contains roots e → e < length t.entries)
        → IsWalk t roots (reached_of t roots) }
    ensures closed { (t : PlainTree) (roots : List ℕ) → ((e : ℕ) → Contains roots e → e < length t.entries)
        → IsClosed t (reached_of t roots) }
{}

/// The test of depth holds exactly where there is a chain of this many steps by value.
pub fn depth_is_a_chain()
    ensures { (t : PlainTree) (n : ℕ) (r : Type_) → (steps_on t n r ≡ true) ↔ StepsOn t n r }
{}

/// A type has a higher rank than each type that it holds by value, and no rank exceeds the limit.
pub fn ranks_fall()
    ensures shallow { (t : PlainTree) (r s : Type_) → (IsTooDeep t r → ⊥) → Contains (steps_from t r) s
        → IsTooDeep t s → ⊥ }
    ensures bound { (d : PlainDwarf) (r : Type_) → (IsTooDeep d.tree r → ⊥) → (facts_of d r).rank ≤ depth_limit }
    ensures falls { (d : PlainDwarf) (r s : Type_) → (IsTooDeep d.tree r → ⊥) → Contains (steps_from d.tree r) s
        → (facts_of d s).rank < (facts_of d r).rank }
{}

/// The facts of a type follow from those of the types that it holds by value.
pub fn facts_recur()
    ensures { (d : PlainDwarf) (r : Type_) → (IsTooDeep d.tree r → ⊥)
        → facts_of d r ≡ facts_from d r (map (facts_of d) (steps_from d.tree r)) }
{}

/// The labels of a type are its own and those of the type that it stands for.
pub fn labels_recur()
    ensures { (d : PlainDwarf) (r : Type_) → (IsTooDeep d.tree r → ⊥)
        → labels_of d r ≡ labels_made d r (map (labels_of d) (steps_from d.tree r)) }
{}

/// Flat members follow from those of the members' types: those of a nameless aggregate are moved by the offset of the aggregate.
pub fn flat_members_recur()
    ensures { (d : PlainDwarf) (r : Type_) → (IsTooDeep d.tree r → ⊥)
        → flat_of d r ≡ flat_made d r (map (flat_of d) (steps_from d.tree r)) }
{}

/// The core of a type is not a typedef, qualifier or variable, and has the size, the count and the flat members of the type.
pub fn cores_are_last()
    ensures { (d : PlainDwarf) (r : Type_) → (IsTooDeep d.tree r → ⊥) → IsPeeledCore d r (core_of d r) }
{}

/// If the found entries include all types to which they lead, they include each type's core.
pub fn cores_are_found()
    ensures { (d : PlainDwarf) (found : List ℕ) (r : Type_) → IsClosed d.tree found → (IsTooDeep d.tree r → ⊥)
        → IsFound found r → IsFound found (core_of d r) }
{}

/// If a type was found, so was the type of each of its flat members, which has a lower rank.
pub fn flat_members_are_lower()
    ensures { (d : PlainDwarf) (found : List ℕ) → IsClosed d.tree found → (r : Type_) → (IsTooDeep d.tree r → ⊥)
        → IsFound found r → (m : Flat) → Contains (flat_of d r) m → IsLower d found r m }
{}

/// The size of an array within the size limit is that of its elements together.
pub fn arrays_are_whole()
    ensures { (d : PlainDwarf) (e : ℕ) → (IsTooDeep d.tree (Some e) → ⊥) → role_of d.tree e ≡ role.Array
        → (facts_of d (Some e)).size ≤ size_limit → (facts_of d (Some e)).size
        ≡ (facts_of d (Some e)).count * (facts_of d (type_of d.tree e)).size }
{}

/// The facts of a type record exactly whether a member of its core is out of range, as declared or as a flat member.
pub fn facts_tell_bits_beyond()
    ensures { (d : PlainDwarf) (r : Type_) → (IsTooDeep d.tree r → ⊥)
        → (facts_of d r).beyond ≡ (has_member_beyond d (core_of d r) || list_any begins_beyond (flat_of d r)) }
{}

/// All laws of types in one contract.
pub fn laws_of_types()
    ensures { (d : PlainDwarf) → TypeLaws d }
{}
