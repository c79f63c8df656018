// The classes of an object's eightbytes while its leaves are merged, one after another.
ghost use Rattle.std.specs.Prelude.{◌≡◌, ◌<◌, ◌≤◌, ◌+◌, ◌∷◌, []};
ghost use Rattle.abi_types.specs.Limits.{size_limit};
ghost use Rattle.psabi.specs.Psabi.{eightbyte_limit, object_bits};
ghost use Rattle.psabi.specs.Touching as spec;
ghost use Rattle.psabi.specs.Merging.{MergesLeaves, merge_leaf, nothing_merged};

use crate::class::{Class, merge};
use crate::sizes::EIGHTBYTES;
use crate::touching::{class_in, is_aligned, touches};
use abi_types::Leaf;

/// The classes of the eightbytes so far, and whether all leaves so far are aligned.
#[derive(Clone, Copy)]
pub struct Eightbytes {
    pub classes: [Class; 8],
    pub aligned: bool,
}

// The class of an eightbyte after one more leaf.
#[tactic(auto, unfolding(crate::specs::Merging::merge_leaf))]
fn with_leaf(class: Class, leaf: &Leaf, k: usize) -> Class
    requires size { leaf.now.size ≤ size_limit }
    requires room { leaf.now.bit + spec.bits_of leaf.now ≤ object_bits }
    requires k { k < eightbyte_limit }
    ensures { result ≡ merge_leaf k class leaf.now }
{
    if !touches(leaf, k) {
        return class;
    }
    merge(class, class_in(leaf, k))
}

impl Eightbytes {
    /// The state before any leaf.
    pub fn new() -> Eightbytes
        ensures { result ≡ nothing_merged }
    {
        Eightbytes {
            classes: [Class::NoClass; 8],
            aligned: true,
        }
    }

    /// Merges one more leaf.
    pub fn add(&mut self, leaf: Leaf)
        requires size { leaf.size ≤ size_limit }
        requires room { leaf.bit + spec.bits_of leaf ≤ object_bits }
        ensures { MergesLeaves (leaf ∷ []) self.old self.new }
    {
        let before = *self;
        for k in 0..EIGHTBYTES {
            self.classes[k] = with_leaf(before.classes[k], &leaf, k);
        }
        self.aligned = before.aligned && is_aligned(&leaf);
    }
}
