// How much a composition joins and compares, counted before it is done. Each of many types may be paired with one middle type, and that
// with each of many others, so two small certificates can join in very many lines.
ghost use Rattle.std.specs.Prelude.{◌≡◌, ◌+◌, OnOk, IfErr};
ghost use Rattle.std.specs.List.Sorted.{IsNonDecreasingBy};
ghost use Rattle.abi_base.specs.Budgets.{fresh};
ghost use Rattle.abi_base.specs.Outcome.{OnLimit};
ghost use Rattle.abi_base.specs.declared.limit.Limit.TheVariants.{PairLines};
ghost use Rattle.cert_compose.specs.CertifiedChain.{chain_of};
ghost use Rattle.cert_compose.specs.Joins.{first_of};
ghost use Rattle.cert_compose.specs.Limits.{JoinsPass, line_looks, line_parts, lines_units, seconds_looks, seconds_parts, types_weight};
ghost use Rattle.cert_compose.specs.Spending.{RoomPasses, TakesAtMost, room_of};

use crate::certified_chain::CertifiedChain;
use crate::joins::{lines_from, middles_from};
use crate::types::{find, view_of};
use abi_base::{Budget, Limit, NoMemory};
use abi_types::Way;
use cert_text::pairs_of;
use pair_rules::{part_budget, weight_between};

// How much the first and the last type of two entries count, if both libraries have them.
fn weight_of(ground: &CertifiedChain, old: u64, new: u64) -> usize
    ensures { result ≡ types_weight (chain_of ground.now) old new }
{
    let Some(old) = find(ground.first, old) else {
        return 0;
    };
    let Some(new) = find(ground.last, new) else {
        return 0;
    };
    weight_between(view_of(ground.first, old), view_of(ground.last, new))
}

// What the limit on joined lines allows for two certificates. In certificates of libraries that were built from one source each line
// joins one other.
fn look_budget(ground: &CertifiedChain) -> Budget
    ensures { result ≡ fresh PairLines (lines_units (chain_of ground.now)) }
{
    let lines = pairs_of(ground.one)
        .len()
        .saturating_add(pairs_of(ground.other).len());
    Budget::of_many(Limit::PairLines, lines)
}

// The looks that may still be taken at lines, and the parts of types that may still be compared.
#[derive(Drop)]
struct Room {
    looks: Budget,
    parts: Budget,
}

impl Room {
    // The room for the joins of two certificates.
    fn beside(ground: &CertifiedChain) -> Room
        ensures { result ≡ room_of (chain_of ground.now) }
    {
        Room {
            looks: look_budget(ground),
            parts: part_budget(ground.first.graph(), ground.last.graph()),
        }
    }

    // Takes one look at a line, and this many parts of types that are compared there.
    fn take(&mut self, parts: usize) -> Result<(), NoMemory>
        ensures taken { OnOk result (TakesAtMost self.old self.new 1 parts) }
        ensures past { IfErr result (λ e. OnLimit e (RoomPasses self.old 1 parts)) }
    {
        self.looks.take(1)?;
        self.parts.take(parts)?;
        Ok(())
    }
}

// Takes the room of all lines of the second certificate that begin with a middle entry.
fn take_seconds(
    room: &mut Room,
    ground: &CertifiedChain,
    old: u64,
    middle: u64,
) -> Result<(), NoMemory>
    ensures taken { OnOk result (TakesAtMost room.old room.new
        (seconds_looks (chain_of ground.now) middle) (seconds_parts (chain_of ground.now) old middle)) }
    ensures past { IfErr result (λ e. OnLimit e (RoomPasses room.old
        (seconds_looks (chain_of ground.now) middle) (seconds_parts (chain_of ground.now) old middle))) }
{
    ground.other.known();
    let seconds = pairs_of(ground.other);
    let start = lines_from(seconds, middle);
    for k in start..seconds.len() {
        let line = seconds[k];
        if line.0 != middle {
            return Ok(());
        }
        room.take(weight_of(ground, old, line.1))?;
    }
    Ok(())
}

// Takes the room of a line of the first certificate at a middle entry: a look at that, and the lines of the second certificate.
fn take_middle(
    room: &mut Room,
    ground: &CertifiedChain,
    old: u64,
    middle: u64,
) -> Result<(), NoMemory>
    ensures taken { OnOk result (TakesAtMost room.old room.new
        (1 + seconds_looks (chain_of ground.now) middle) (seconds_parts (chain_of ground.now) old middle)) }
    ensures past { IfErr result (λ e. OnLimit e (RoomPasses room.old
        (1 + seconds_looks (chain_of ground.now) middle) (seconds_parts (chain_of ground.now) old middle))) }
{
    room.take(0)?;
    take_seconds(room, ground, old, middle)?;
    Ok(())
}

// Takes the room of a line of the first certificate.
fn take_line(
    room: &mut Room,
    ground: &CertifiedChain,
    middles: &[(u64, u64)],
    line: (u64, u64, Way),
) -> Result<(), NoMemory>
    requires { IsNonDecreasingBy first_of middles.now }
    ensures taken { OnOk result (TakesAtMost room.old room.new
        (line_looks (chain_of ground.now) middles.now line) (line_parts (chain_of ground.now) middles.now line)) }
    ensures past { IfErr result (λ e. OnLimit e (RoomPasses room.old
        (line_looks (chain_of ground.now) middles.now line) (line_parts (chain_of ground.now) middles.now line))) }
{
    let start = middles_from(middles, line.1);
    for k in start..middles.len() {
        let middle = middles[k];
        if middle.0 != line.1 {
            return Ok(());
        }
        take_middle(room, ground, line.0, middle.1)?;
    }
    Ok(())
}

/// Fails where the composition of two certificates would join too many lines, or compare types of too many parts, and names that limit.
pub(crate) fn ask_joins(ground: &CertifiedChain, middles: &[(u64, u64)]) -> Result<(), NoMemory>
    requires { IsNonDecreasingBy first_of middles.now }
    ensures past { IfErr result (λ e. OnLimit e (JoinsPass (chain_of ground.now) middles.now)) }
{
    let mut room = Room::beside(ground);
    let lines = pairs_of(ground.one);
    for line in lines {
        take_line(&mut room, ground, middles, *line)?;
    }
    Ok(())
}
