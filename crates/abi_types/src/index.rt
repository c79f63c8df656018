// Node numbers, typed by the library that the nodes belong to.
ghost use Rattle.std.specs.Prelude.{◌≡◌, ℕ};
ghost use Rattle.std.proofs.Common.{rules};
ghost use Rattle.abi_types.specs.PartSize.{PartFits};

use std::marker::Model;

/// The number of a node in a graph. The two libraries' graphs have distinct index types, `OldIx` and `NewIx`, so that the compiler
/// keeps them apart.
pub trait Index: Copy {
    ghost number_of: { Self → ℕ };

    /// The number of the node.
    fn number(self) -> usize
        ensures { result ≡ number_of self };

    /// The node with this number.
    fn of(number: usize) -> Self
        ensures { number_of result ≡ number };

    /// Two nodes with the same number are the same.
    ghost same: { (x y : Self) → number_of x ≡ number_of y → x ≡ y };

    /// A part with such a node fits in memory.
    ghost part_fits: { PartFits Self.row };
}

/// A node of the old library.
#[derive(Clone, Copy, Debug, PartialEq, Eq)]
pub struct OldIx {
    number: usize,
}

impl Model for OldIx {
    ghost Value = { ℕ };

    ghost view = { λ ix. ix.number };

    ghost inverse = { λ n. record { number = n } };
}

impl Index for OldIx {
    ghost number_of = { λ ix. ix };

    fn number(self) -> usize {
        self.number
    }

    fn of(number: usize) -> OldIx {
        OldIx { number }
    }

    ghost same = { λ x y e. e };

    ghost part_fits = { Prim.search rules };
}

/// A node of the new library.
#[derive(Clone, Copy, Debug, PartialEq, Eq)]
pub struct NewIx {
    number: usize,
}

impl Model for NewIx {
    ghost Value = { ℕ };

    ghost view = { λ ix. ix.number };

    ghost inverse = { λ n. record { number = n } };
}

impl Index for NewIx {
    ghost number_of = { λ ix. ix };

    fn number(self) -> usize {
        self.number
    }

    fn of(number: usize) -> NewIx {
        NewIx { number }
    }

    ghost same = { λ x y e. e };

    ghost part_fits = { Prim.search rules };
}
