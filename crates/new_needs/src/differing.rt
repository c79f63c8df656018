// What is needed in a second list and not in a first one.
ghost use Rattle.std.specs.Prelude.{◌≡◌, ◌++◌, ◌∷◌, [], List, not, IfErr, IfOk, OnOk};
ghost use Rattle.abi_base.specs.declared.fault.NoMemory.TheVariants.{Allocation};
ghost use Rattle.new_needs.specs.Lacking.{is_among};
ghost use Rattle.new_needs.specs.Lacking as spec;
ghost use Rattle.new_needs.specs.Needed.{PlainNeeded};
ghost use Rattle.new_needs.specs.Plain.{plain_all, plain_needed};
ghost use Rattle.new_needs.specs.Seen.{AreSeen};

use crate::kept::Needed;
use abi_base::NoMemory;
use std::alloc::Global;
use std::collections::BTreeSet;

// Names, each with what it is of. Files choose both, and could make hash codes collide, so they stand in a search tree.
type Seen<'a> = BTreeSet<(&'a [u8], &'a [u8])>;

// Puts what is needed to what was seen. The answer is whether it is new.
fn see<'a>(seen: &mut Seen<'a>, needed: &Needed<'a>) -> Result<bool, NoMemory>
    ensures new { IfOk result (λ new. (those : List PlainNeeded) → AreSeen those seen.old
        → new ≡ not (is_among those (plain_needed needed.now))) }
    ensures seen { OnOk result ((those : List PlainNeeded) → AreSeen those seen.old
        → AreSeen (those ++ plain_needed needed.now ∷ []) seen.new) }
    ensures named { IfErr result (λ e. e ≡ Allocation) }
{
    let new = seen.insert((needed.name, needed.of))?;
    Ok(new)
}

// What a list has.
fn all_of<'a>(alloc: Global, list: &[Needed<'a>]) -> Result<Seen<'a>, NoMemory>
    ensures all { IfOk result (AreSeen (plain_all list.now)) }
    ensures named { IfErr result (λ e. e ≡ Allocation) }
{
    let mut seen = BTreeSet::new(alloc);
    for needed in list {
        see(&mut seen, needed)?;
    }
    Ok(seen)
}

/// What is needed in a new list and not in an old one, in the order of the new list, each once. It takes the time of sorting both
/// lists. Fails only where an allocation does.
pub fn lacking<'a>(
    alloc: Global,
    old: &[Needed<'a>],
    new: &[Needed<'a>],
) -> Result<Vec<Needed<'a>>, NoMemory>
    ensures ok { IfOk result (λ kept. plain_all kept.items ≡ spec.lacking (plain_all old.now) (plain_all new.now)) }
    ensures named { IfErr result (λ e. e ≡ Allocation) }
{
    let mut seen = all_of(alloc, old)?;
    let mut kept = Vec::new(alloc);
    for needed in new {
        if see(&mut seen, needed)? {
            kept.push(*needed)?;
        }
    }
    Ok(kept)
}
