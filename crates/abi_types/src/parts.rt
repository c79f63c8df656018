// The parts of a type, in their order.
ghost use Rattle.std.specs.Prelude.{◌≡◌, ◌==◌, ◌<◌, [], ◌∷◌, length, map, slice_index_or, IfSome, IfErr, IfOk};
ghost use Rattle.abi_base.specs.declared.fault.NoMemory.TheVariants.{Allocation};
ghost use Rattle.abi_types.specs.Graphs.{no_part};
ghost use Rattle.std.specs.Option.{ForSome};
ghost use Rattle.abi_types.specs.Parts.{plain_part, like};
ghost use Rattle.abi_types.specs.Parts as spec;
ghost use Rattle.abi_types.specs.Lookups.{IsLookup};

use crate::alike::{count_like, place_of};
use crate::index::Index;
use crate::lookup::{Lookup, lookup_of, place_in};
use crate::part::Part;
use abi_base::{List, NoMemory};
use std::alloc::Global;
use std::marker::Model;
use std::rc::Rc;
use std::slice;

// Several parts, with an index of them where there are many.
#[derive(Drop)]
struct Several<'a, Ix: Index> {
    items: List<Part<'a, Ix>>,
    lookup: Option<Box<Lookup<'a>>>,
}

// The storage for the parts of a type. Pointers and arrays have one part, which is stored inline without an allocation. Several
// parts are shared among the types that have the same ones: a structure, its typedefs, and these with `const`.
#[derive(Drop)]
enum PartStorage<'a, Ix: Index> {
    Nothing,
    One(Part<'a, Ix>),
    Many(Rc<Several<'a, Ix>>),
}

/// The parts of a type, in order, with a fast search by sort and name. Contracts see them as a list.
#[derive(Drop)]
pub struct Parts<'a, Ix: Index> {
    kept: PartStorage<'a, Ix>,
}

impl<'a, Ix: Index> Model for Parts<'a, Ix> {
    ghost use Rattle.std.specs.Prelude.{List};
    ghost use Rattle.abi_types.specs.Types.{PlainPart};

    ghost Value = { List PlainPart };

    ghost use Rattle.abi_types.specs.KeptParts.{parts_in, HasLookup};

    ghost view = { λ parts. parts_in Ix.number_of parts.kept };

    ghost invariant = { λ parts. HasLookup Ix.number_of parts.kept };
}

// Up to this many parts are searched one by one. An index of them would cost more than it saves, since few of a library's types
// are ever compared. Longer lists have an index.
const SHORT: usize = 16;

// The index of a longer list.
fn kept_lookup<'a, Ix: Index>(
    alloc: Global,
    items: &[Part<'a, Ix>],
) -> Result<Option<Box<Lookup<'a>>>, NoMemory>
    ensures lookup { IfOk result (λ lookup. ForSome lookup
        (λ kept. IsLookup kept.value (map (plain_part Ix.number_of) items.now))) }
    ensures named { IfErr result (λ e. e ≡ Allocation) }
{
    if items.len() <= SHORT {
        return Ok(None);
    }
    Ok(Some(Box::new(alloc, lookup_of(alloc, items)?)?))
}

impl<'a, Ix: Index> Parts<'a, Ix> {
    /// No parts. Allocates nothing.
    pub fn new(alloc: Global) -> Parts<'a, Ix>
        ensures { result ≡ [] }
    {
        Parts {
            kept: PartStorage::Nothing,
        }
    }

    /// One part. Allocates nothing: most types are pointers.
    pub fn one(part: Part<'a, Ix>) -> Parts<'a, Ix>
        ensures { result ≡ plain_part Ix.number_of part.entry ∷ [] }
    {
        Parts {
            kept: PartStorage::One(part),
        }
    }

    // Several parts.
    fn many(alloc: Global, items: Vec<Part<'a, Ix>>) -> Result<Parts<'a, Ix>, NoMemory>
        ensures parts { IfOk result (λ parts. parts ≡ map (plain_part Ix.number_of) items.entry.items) }
        ensures named { IfErr result (λ e. e ≡ Allocation) }
    {
        let lookup = kept_lookup(alloc, items.as_slice())?;
        let items = List::of(items);
        let several = Rc::new(alloc, Several { items, lookup })?;
        Ok(Parts {
            kept: PartStorage::Many(several),
        })
    }

    /// These parts, in order. With a single part the vector is freed.
    pub fn of(alloc: Global, mut items: Vec<Part<'a, Ix>>) -> Result<Parts<'a, Ix>, NoMemory>
        ensures parts { IfOk result (λ parts. parts ≡ map (plain_part Ix.number_of) items.entry.items) }
        ensures named { IfErr result (λ e. e ≡ Allocation) }
    {
        if items.len() > 1 {
            return Parts::many(alloc, items);
        }
        match items.pop() {
            Some(part) => Ok(Parts::one(part)),
            None => Ok(Parts::new(alloc)),
        }
    }

    /// The same parts, shared without a copy. Fails only where too many types share them.
    pub fn shared(&self) -> Result<Parts<'a, Ix>, NoMemory>
        ensures parts { IfOk result (λ parts. parts ≡ self.now) }
        ensures named { IfErr result (λ e. e ≡ Allocation) }
    {
        match &self.kept {
            PartStorage::Nothing => Ok(Parts {
                kept: PartStorage::Nothing,
            }),
            PartStorage::One(part) => match Some(part).copied() {
                Some(part) => Ok(Parts::one(part)),
                None => unreachable!(),
            },
            PartStorage::Many(several) => Ok(Parts {
                kept: PartStorage::Many(several.clone()?),
            }),
        }
    }

    /// The number of parts.
    pub fn len(&self) -> usize
        ensures { result ≡ length self.now }
    {
        self.as_slice().len()
    }

    /// Whether there are no parts.
    pub fn is_empty(&self) -> bool
        ensures { result ≡ (length self.now == 0) }
    {
        self.as_slice().is_empty()
    }

    /// All parts, in order.
    pub fn as_slice(&self) -> &[Part<'a, Ix>]
        ensures { map (plain_part Ix.number_of) result.now ≡ self.now }
    {
        match &self.kept {
            PartStorage::Nothing => &[],
            PartStorage::One(part) => slice::from_ref(part),
            PartStorage::Many(several) => several.items.as_slice(),
        }
    }

    /// The part at a position.
    pub fn at(&self, k: usize) -> &Part<'a, Ix>
        requires { k < length self.now }
        ensures { plain_part Ix.number_of result.now ≡ slice_index_or self.now k no_part }
    {
        &self.as_slice()[k]
    }

    // The index of the parts, if there is one.
    fn lookup(&self) -> Option<&Lookup<'a>>
        ensures { IfSome result (λ lookup. IsLookup lookup.now self.now) }
    {
        match &self.kept {
            PartStorage::Many(several) => match &several.lookup {
                Some(lookup) => Some(lookup),
                None => None,
            },
            _ => None,
        }
    }

    /// The position of the k-th part like `part`, counted from 0: with its sort and, where that sort has names, its name.
    pub fn nth_like<'b, Jx: Index>(&self, part: &Part<'b, Jx>, k: usize) -> Option<usize>
        ensures place { result ≡ spec.place_of (like (plain_part Jx.number_of part.now)) k self.now }
        ensures inside { IfSome result (λ i. i < length self.now) }
    {
        match self.lookup() {
            None => place_of(self.as_slice(), part, k),
            Some(lookup) => place_in(lookup, part, k),
        }
    }

    /// How many parts before position `i` are like the part at `i`.
    pub fn like_before(&self, i: usize) -> usize
        requires { i < length self.now }
        ensures { result ≡ spec.like_before self.now (slice_index_or self.now i no_part) i }
    {
        match self.lookup() {
            None => {
                let items = self.as_slice();
                count_like(&items[..i], &items[i])
            }
            Some(lookup) => lookup.numbers[i],
        }
    }
}
