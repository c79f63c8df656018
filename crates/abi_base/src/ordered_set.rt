// Keys, each once, in the order of their first insertion.
ghost use Rattle.std.specs.Prelude.{◌≡◌, [], length, not, IfOk, IfErr, OnOk, OnErr};
ghost use Rattle.std.specs.List.{list_any};
ghost use Rattle.abi_base.specs.Lists.{with_first};
ghost use Rattle.abi_base.specs.OrderedSets.{same_by};
ghost use Rattle.abi_base.specs.declared.fault.NoMemory.TheVariants.{Allocation};

use crate::NoMemory;
use std::alloc::Global;
use std::collections::BTreeSet;
use std::marker::Model;

/// Keys, each once, in the order in which they were first added. Contracts see them as the list of the keys. A look-up takes the time
/// of a search in a tree, whatever the keys are: a file may choose them, and could make the hash codes of its keys collide.
#[derive(Drop)]
pub struct OrderedSet<K: Ord> {
    list: Vec<K>,
    known: BTreeSet<K>,
}

impl<K: Ord> Model for OrderedSet<K> {
    ghost use Rattle.std.specs.Prelude.{List};
    ghost use Rattle.abi_base.specs.OrderedSets.{AreKeys};

    ghost Value = { List K };

    ghost view = { λ set. set.list.items };

    ghost invariant = { λ set. AreKeys K.cmp set.known set.list.items };
}

impl<K: Ord + Copy> OrderedSet<K> {
    /// No keys. Allocates nothing.
    pub fn new(alloc: Global) -> OrderedSet<K>
        ensures { result ≡ [] }
    {
        OrderedSet {
            list: Vec::new(alloc),
            known: BTreeSet::new(alloc),
        }
    }

    /// Whether a key is one of these.
    pub fn has(&self, key: &K) -> bool
        ensures { result ≡ list_any (same_by K.cmp key.now) self.now }
    {
        self.known.contains(key)
    }

    /// Adds a key last, where it is new, and answers whether it is. Fails only where an allocation does; then the keys are unchanged.
    pub fn add(&mut self, key: K) -> Result<bool, NoMemory>
        ensures new { IfOk result (λ new. new ≡ not (list_any (same_by K.cmp key) self.old)) }
        ensures ok { OnOk result (self.new ≡ with_first (same_by K.cmp) self.old key) }
        ensures err { OnErr result (self.new ≡ self.old) }
        ensures named { IfErr result (λ e. e ≡ Allocation) }
    {
        // This room is reserved first, so that nothing can fail once the key is in the tree.
        self.list.reserve(1)?;
        let new = self.known.insert(key)?;
        if new {
            self.list.push(key)?;
        }
        Ok(new)
    }

    /// The number of keys.
    pub fn len(&self) -> usize
        ensures { result ≡ length self.now }
    {
        self.list.len()
    }

    /// The keys.
    pub fn as_slice(&self) -> &[K]
        ensures { result.now ≡ self.now }
    {
        self.list.as_slice()
    }
}
