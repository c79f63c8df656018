// The numbers of visits, by what they visit.
ghost use Rattle.std.specs.Prelude.{◌≡◌, [], cond, Some, IfErr, IfOk, OnOk};
ghost use Rattle.std.specs.Option.{option_copied};
ghost use Rattle.abi_base.specs.declared.fault.NoMemory.TheVariants.{Allocation};
ghost use Rattle.pair_rules.specs.Steps.{Triple as PlainTriple};
ghost use Rattle.pair_explorer.specs.Keys.{at_triple};
ghost use Rattle.pair_explorer.specs.Keys as keys;
ghost use Rattle.leading_exports.specs.Numbers.{AreNumbers, number_in};

use abi_base::NoMemory;
use abi_types::{Index, Way};
use pair_explorer::Visits;
use pair_rules::Triple;
use std::alloc::Global;
use std::collections::BTreeMap;
use std::marker::Model;

/// The numbers of visits. Contracts see them as a list of triples with their numbers.
#[derive(Drop)]
pub struct Numbers {
    // The numbers, by the keys of triples. A search tree, since a file could make the hash codes of its triples collide.
    by_key: BTreeMap<(usize, usize, bool), usize>,
}

impl Model for Numbers {
    ghost use Rattle.std.specs.Prelude.{ℕ, List, map};
    ghost use Rattle.pair_rules.specs.Steps.{Triple};
    ghost use Rattle.leading_exports.specs.Numbers.{numbered};

    ghost Value = { List (Triple × ℕ) };

    ghost view = { λ numbers. map numbered numbers.by_key.entries };
}

// The key of a triple, with numbers as wide as those of types, so that it never fails.
fn key_of(triple: &Triple) -> (usize, usize, bool)
    ensures { result ≡ keys.key_of triple.now }
{
    (
        triple.old.number(),
        triple.new.number(),
        matches!(triple.way, Way::Pointer),
    )
}

impl Numbers {
    // No numbers.
    fn new(alloc: Global) -> Numbers
        ensures { result ≡ [] }
    {
        Numbers {
            by_key: BTreeMap::new(alloc),
        }
    }

    /// The number of a triple, if it has one.
    pub fn get(&self, triple: &Triple) -> Option<usize>
        ensures { result ≡ number_in self.now triple.now }
    {
        let key = key_of(triple);
        self.by_key.get(&key).copied()
    }

    // Gives a triple a number.
    fn insert(&mut self, triple: &Triple, number: usize) -> Result<(), NoMemory>
        ensures ok { OnOk result ((q : PlainTriple) → number_in self.new q
            ≡ cond (at_triple triple.now q) (Some number) (number_in self.old q)) }
        ensures named { IfErr result (λ e. e ≡ Allocation) }
    {
        self.by_key.insert(key_of(triple), number)?;
        Ok(())
    }
}

/// The number of a visit of each triple that was visited.
pub fn numbers_of(alloc: Global, visits: &Visits) -> Result<Numbers, NoMemory>
    ensures ok { IfOk result (AreNumbers visits.now) }
    ensures named { IfErr result (λ e. e ≡ Allocation) }
{
    let mut numbers = Numbers::new(alloc);
    'visits: for number in 0..visits.len() {
        let visit = visits.visit(number);
        numbers.insert(&visit.triple(), number)?;
    }
    Ok(numbers)
}
