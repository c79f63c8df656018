// Pairs of types with their way.
ghost use Rattle.std.specs.Prelude.{◌++◌};
ghost use Rattle.std.proofs.Common.{rules};
ghost use Rattle.std.specs.Hash as fed;
ghost use Rattle.std.specs.Cmp.Rules.{hashing};
ghost use Rattle.pair_rules.specs.Steps as spec;

use abi_types::{Index, NewIx, OldIx, Way};
use std::hash::{Hash, Hasher};
use std::marker::Model;

/// An old type, the new type in its place, and the way in which they are reached.
#[derive(Clone, Copy, Debug, PartialEq, Eq)]
pub struct Triple {
    /// The old type.
    pub old: OldIx,
    /// The new type in its place.
    pub new: NewIx,
    /// The way in which they are reached.
    pub way: Way,
}

impl Model for Triple {
    ghost use Rattle.pair_rules.specs.Steps.{Triple as PlainTriple};

    ghost Value = { PlainTriple };

    ghost view = { λ x. record { old = x.old; new = x.new; way = x.way } };

    ghost inverse = { λ x. record { old = x.old; new = x.new; way = x.way } };
}

impl Hash for Triple {
    ghost hash_input = { λ x. fed.usize x.old ++ fed.usize x.new ++ fed.bool (spec.is_pointer x.way) };

    ghost respects_eq = { Prim.search (hashing, rules) };

    fn hash<H: Hasher>(&self, state: &mut H) {
        self.old.number().hash(state);
        self.new.number().hash(state);
        matches!(self.way, Way::Pointer).hash(state);
    }
}
