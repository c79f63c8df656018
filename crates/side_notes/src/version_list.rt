// Versions, each once.
ghost use Rattle.std.specs.Prelude.{◌≡◌, [], ℕ, List, map, IfErr, OnOk, OnErr};
ghost use Rattle.std.specs.Borrow.{Bor};
ghost use Rattle.std.specs.List.{list_any};
ghost use Rattle.std.specs.Str.{bytes_eq};
ghost use Rattle.abi_base.specs.Lists.{with_first};
ghost use Rattle.abi_base.specs.declared.fault.NoMemory.TheVariants.{Allocation};

use abi_base::NoMemory;
use std::alloc::Global;
use std::collections::BTreeSet;
use std::marker::Model;

/// Versions, each once, in the order in which they were first added. Contracts see them as the list of their letters.
#[derive(Drop)]
pub struct VersionList<'a> {
    list: Vec<&'a [u8]>,
    // A file chooses the names of its versions, and could make their hash codes collide, so the names stand in a search tree.
    known: BTreeSet<&'a [u8]>,
}

impl<'a> Model for VersionList<'a> {
    ghost use Rattle.std.specs.Prelude.{ℕ, List, map};
    ghost use Rattle.std.specs.Borrow.{Bor};
    ghost use Rattle.side_notes.specs.VersionNames.{AreNamed};

    ghost Value = { List (List ℕ) };

    ghost view = { λ versions. map (λ (v : Bor (List ℕ)). v.now) versions.list.items };

    ghost invariant = { λ versions. AreNamed versions.known (map (λ (v : Bor (List ℕ)). v.now) versions.list.items) };
}

impl<'a> VersionList<'a> {
    /// No versions.
    pub fn new(alloc: Global) -> VersionList<'a>
        ensures { result ≡ [] }
    {
        VersionList {
            list: Vec::new(alloc),
            known: BTreeSet::new(alloc),
        }
    }

    /// Whether a version is one of these.
    pub fn has(&self, version: &[u8]) -> bool
        ensures { result ≡ list_any (bytes_eq version.now) self.now }
    {
        self.known.contains(version)
    }

    /// Adds a version last, where it is new. After `NoMemory` the list is unchanged.
    pub fn add(&mut self, version: &'a [u8]) -> Result<(), NoMemory>
        ensures ok { OnOk result (self.new ≡ with_first bytes_eq self.old version.now) }
        ensures err { OnErr result (self.new ≡ self.old) }
        ensures named { IfErr result (λ e. e ≡ Allocation) }
    {
        // This room is reserved first, so that nothing can fail once the version is in the tree.
        self.list.reserve(1)?;
        if self.known.insert(version)? {
            self.list.push(version)?;
        }
        Ok(())
    }

    /// The versions.
    pub fn as_slice(&self) -> &[&'a [u8]]
        ensures { map (λ (v : Bor (List ℕ)). v.now) result.now ≡ self.now }
    {
        self.list.as_slice()
    }
}
