// The triples reached so far, in a search tree, so that one is found without a scan.
ghost use Rattle.std.specs.Prelude.{◌≡◌, ◌<◌, List, [], not, length, slice_get, Some, OnOk, OnErr, IfOk, IfErr};
ghost use Rattle.abi_base.specs.declared.fault.NoMemory.TheVariants.{Past};
ghost use Rattle.abi_base.specs.declared.limit.Limit.TheVariants.{Pairs};
ghost use Rattle.abi_base.specs.Outcome.{OnLimit};
ghost use Rattle.pair_explorer.specs.declared.visits.Visit.{Visit as PlainVisit};
ghost use Rattle.pair_explorer.specs.Adding.{added};
ghost use Rattle.pair_explorer.specs.Keys.{AreKnown};
ghost use Rattle.pair_explorer.specs.Keys as spec;
ghost use Rattle.pair_explorer.specs.Spending.{HasWideNumber};
ghost use Rattle.pair_explorer.specs.Visits.{has, seen};

use abi_base::{Limit, NoMemory};
use abi_types::{Index, NewIx, OldIx, Way};
use pair_rules::Triple;
use std::alloc::Global;
use std::collections::BTreeSet;
use std::marker::Model;

/// What led to a triple.
#[derive(Clone, Copy, Debug, PartialEq, Eq)]
pub enum Parent {
    /// An export, by its position among the old ones.
    Root { export: u32 },
    /// A part of the old type of an earlier visit: the number of that visit, and the position of the part.
    Step { visit: usize, part: usize },
}

/// A triple that was reached, and what led to it first.
#[derive(Clone, Copy, Debug, PartialEq, Eq)]
pub struct Visit {
    /// The old type.
    pub old: OldIx,
    /// The new type.
    pub new: NewIx,
    /// How the types are reached: by value, or through a pointer.
    pub way: Way,
    /// What led to the triple.
    pub parent: Parent,
}

impl Visit {
    /// The triple that was reached.
    pub fn triple(&self) -> Triple
        ensures { result ≡ seen self.now }
    {
        Triple {
            old: self.old,
            new: self.new,
            way: self.way,
        }
    }
}

/// The visits of an exploration, each of a different triple, in the order in which they were made. Contracts see them as a list.
#[derive(Drop)]
pub struct Visits {
    // The visits.
    list: Vec<Visit>,
    // The keys of their triples. A file decides which types meet, and could make the hash codes of their triples collide, so they
    // stand in a search tree.
    known: BTreeSet<(u32, u32, bool)>,
}

impl Model for Visits {
    ghost use Rattle.std.specs.Prelude.{◌≡◌, List, length};
    ghost use Rattle.pair_explorer.specs.declared.visits.Visit.{Visit};

    ghost Value = { List Visit };

    ghost use Rattle.pair_explorer.specs.Keys.{AreKnown};

    ghost view = { λ visits. visits.list.items };

    ghost invariant = { λ visits. AreKnown visits.known visits.list.items };
}

// The key of a visit's triple, in few bytes, since there may be very many. It fails where the number of a type takes more than 32
// bits, which no file that can be read has.
fn key_of(visit: &Visit) -> Result<(u32, u32, bool), NoMemory>
    ensures key { IfOk result (λ key. key ≡ spec.key_of (seen visit.now)) }
    ensures past { IfErr result (λ e. (e ≡ Past Pairs) × HasWideNumber visit.now) }
{
    let Ok(old) = u32::try_from(visit.old.number()) else {
        return Err(NoMemory::Past(Limit::Pairs));
    };
    let Ok(new) = u32::try_from(visit.new.number()) else {
        return Err(NoMemory::Past(Limit::Pairs));
    };
    Ok((old, new, matches!(visit.way, Way::Pointer)))
}

// Puts the key of a visit's triple among the known ones, and returns whether it is new.
fn put(known: &mut BTreeSet<(u32, u32, bool)>, visit: &Visit) -> Result<bool, NoMemory>
    ensures is_new { IfOk result (λ is_new. (visits : List PlainVisit) → AreKnown known.old visits
        → is_new ≡ not (has visits (seen visit.now))) }
    ensures known { OnOk result ((visits : List PlainVisit) → AreKnown known.old visits
        → AreKnown known.new (added visits visit.now)) }
    ensures err { OnErr result ((visits : List PlainVisit) → AreKnown known.old visits → AreKnown known.new visits) }
    ensures past { IfErr result (λ e. OnLimit e (λ l. (l ≡ Pairs) × HasWideNumber visit.now)) }
{
    let key = key_of(visit)?;
    let is_new = known.insert(key)?;
    Ok(is_new)
}

impl Visits {
    /// An empty list. It takes no memory yet.
    pub(crate) fn new(alloc: Global) -> Visits
        ensures { result ≡ [] }
    {
        Visits {
            list: Vec::new(alloc),
            known: BTreeSet::new(alloc),
        }
    }

    /// The number of visits.
    pub fn len(&self) -> usize
        ensures { result ≡ length self.now }
    {
        self.list.len()
    }

    /// The visit with a number, or `None` where there are fewer.
    pub fn get(&self, number: usize) -> Option<Visit>
        ensures { result ≡ slice_get self.now number }
    {
        match self.list.get(number) {
            Some(visit) => Some(*visit),
            None => None,
        }
    }

    /// The visit with a number that is in range.
    pub fn visit(&self, number: usize) -> Visit
        requires { number < length self.now }
        ensures { slice_get self.now number ≡ Some result }
    {
        self.get(number).unwrap()
    }

    /// Adds a visit if its triple is new.
    pub(crate) fn add(&mut self, visit: &Visit) -> Result<(), NoMemory>
        ensures added { OnOk result (self.new ≡ added self.old visit.now) }
        ensures past { IfErr result (λ e. OnLimit e (λ l. (l ≡ Pairs) × HasWideNumber visit.now)) }
    {
        // This room is reserved first, so that nothing can fail once the key is in the set.
        self.list.reserve(1)?;
        if put(&mut self.known, visit)? {
            self.list.push(*visit)?;
        }
        Ok(())
    }
}
