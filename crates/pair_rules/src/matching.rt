// Matches between the parts of an old and a new type, and the pairs of parts that lead further.
ghost use Rattle.std.specs.Prelude.{◌≡◌, ◌<◌, length, slice_get, IfSome};
ghost use Rattle.abi_types.specs.Parts.{plain_part};
ghost use Rattle.pair_rules.specs.Matching as matching;
ghost use Rattle.pair_rules.specs.TypeRules as type_rules;
ghost use Rattle.pair_rules.specs.Partners.{partners};
ghost use Rattle.pair_rules.specs.Partners as partners_spec;
ghost use Rattle.pair_rules.specs.Same as same;
ghost use Rattle.pair_rules.specs.Ways as ways;

use abi_types::{Index, Kind, NewIx, OldIx, Part, View, Way};

/// How many parts before part `i` are like it: with its sort and, where that sort has names, its name.
pub fn number_of<Ix: Index>(view: &View<Ix>, i: usize) -> usize
    requires { i < length view.now.parts }
    ensures number { result ≡ matching.number_of view.now i }
    ensures few { result < length view.now.parts }
{
    view.parts.like_before(i)
}

/// The position of the new part that matches the old part `i`: the k-th one of a sort and name matches the k-th one.
#[tactic(auto, unfolding(crate::specs::Matching::match_of))]
pub fn match_of(old: &View<OldIx>, new: &View<NewIx>, i: usize) -> Option<usize>
    requires { i < length old.now.parts }
    ensures place { result ≡ matching.match_of old.now new.now i }
    ensures inside { IfSome result (λ j. j < length new.now.parts) }
{
    new.parts.nth_like(old.part(i), number_of(old, i))
}

// Whether two kinds are the same.
pub(crate) fn same_kind(old: Kind, new: Kind) -> bool
    ensures { result ≡ same.same_kind old new }
{
    old == new
}

// Whether both types have definitions and the same kind.
pub(crate) fn are_compared(old: &View<OldIx>, new: &View<NewIx>) -> bool
    ensures { result ≡ type_rules.are_compared old.now new.now }
{
    same_kind(old.kind, new.kind) && !(old.declared_only || new.declared_only)
}

/// The positions of the old part `i` and of its partner, the new part that matches it. None where the old part names no node, the
/// kinds differ, or one type has no definition.
#[tactic(auto, unfolding(crate::specs::Partners::partner_at))]
pub fn partner_at(old: &View<OldIx>, new: &View<NewIx>, i: usize) -> Option<(usize, usize)>
    requires { i < length old.now.parts }
    ensures places { result ≡ partners_spec.partner_at old.now new.now i }
    ensures inside { IfSome result (λ p. (p.0 < length old.now.parts) × (p.1 < length new.now.parts)) }
{
    if !are_compared(old, new) {
        return None;
    }
    match old.part(i) {
        Part::Enumerator { .. } => None,
        _ => match match_of(old, new, i) {
            None => None,
            Some(j) => Some((i, j)),
        },
    }
}

/// The positions of the partners with number `k`, counted from 0 in the order of old parts. To get all partners, call
/// `partner_at` for each old part.
pub fn partner(old: &View<OldIx>, new: &View<NewIx>, k: usize) -> Option<(usize, usize)>
    ensures places { result ≡ slice_get (partners old.now new.now) k }
    ensures inside { IfSome result (λ p. (p.0 < length old.now.parts) × (p.1 < length new.now.parts)) }
{
    let mut left = k;
    'walk: for i in 0..old.parts_len() {
        if let Some(found) = partner_at(old, new, i) {
            if left == 0 {
                return Some(found);
            }
            left -= 1;
        }
    }
    None
}

/// The way in which the type that a part names is reached, given the `way` of the part's type: a target through its pointer, a
/// result and a parameter by value from their call, and anything else in the way of what contains it.
pub fn after<Ix: Index>(way: Way, part: &Part<Ix>) -> Way
    ensures { result ≡ ways.after way (plain_part Ix.number_of part.now) }
{
    match part {
        Part::Target { .. } => Way::Pointer,
        Part::Outcome { .. } | Part::Param { .. } => Way::Direct,
        Part::Member { .. } | Part::Enumerator { .. } | Part::Element { .. } => way,
    }
}
