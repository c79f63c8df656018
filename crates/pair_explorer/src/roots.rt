// Where an exploration begins.
use abi_types::{NewIx, OldIx};
use std::marker::Model;

/// The types of an old export and of the new one that it binds to.
#[derive(Clone, Copy)]
pub struct Root {
    /// The position of the export among the old ones.
    pub export: u32,
    /// The type of the old export.
    pub old: OldIx,
    /// The type of the new export.
    pub new: NewIx,
}

impl Model for Root {
    ghost use Rattle.pair_rules.specs.Steps.{PlainRoot};

    ghost Value = { PlainRoot };

    ghost view = { λ root. record { export = root.export; old = root.old; new = root.new } };

    ghost inverse = { λ root. record { export = root.export; old = root.old; new = root.new } };
}
