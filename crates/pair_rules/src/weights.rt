// The budget for the parts of the types that are compared in pairs.
ghost use Rattle.std.specs.Prelude.{◌≡◌, ◌<◌, ◌≤◌, ◌+◌, ◌-◌, ◌/◌, ◌^◌, length, min, IfErr, OnOk, OnErr};
ghost use Rattle.abi_base.specs.Budgets.{fresh, with_taken};
ghost use Rattle.abi_base.specs.declared.fault.NoMemory.TheVariants.{Past};
ghost use Rattle.abi_base.specs.declared.limit.Limit.TheVariants.{PairParts};
ghost use Rattle.abi_types.specs.Parts.{plain_part};
ghost use Rattle.pair_rules.specs.Weights.{graph_weight, pair_weight, view_weight, weight_units};
ghost use Rattle.pair_rules.specs.Weights as spec;

use abi_base::{Budget, Limit, NoMemory};
use abi_types::{Graph, Index, NewIx, OldIx, Part, View};

// How many letters of a name count as much as a part.
const LETTERS_A_PART: usize = 64;

// The letters of the name of a part.
fn letters_of<Ix: Index>(part: &Part<Ix>) -> usize
    ensures { result ≡ spec.letters_of (plain_part Ix.number_of part.now) }
{
    match part {
        Part::Member { name, .. } => name.len(),
        Part::Enumerator { name, .. } => name.len(),
        _ => 0,
    }
}

// How much the parts of a type count: each one, and each 64 letters of its name.
fn weight_of<Ix: Index>(view: &View<Ix>) -> usize
    ensures { result ≡ min (view_weight view.now) (2 ^ 64 - 1) }
{
    let mut weight: usize = 0;
    'parts: for k in 0..view.parts_len() {
        let letters = letters_of(view.part(k));
        weight = weight.saturating_add(1 + letters / LETTERS_A_PART);
    }
    weight
}

// How much the parts of all types of a graph count.
fn weight_in<Ix: Index>(graph: &Graph<Ix>) -> usize
    ensures { result ≡ min (graph_weight graph.now) (2 ^ 64 - 1) }
{
    let mut weight: usize = 0;
    'nodes: for number in 0..graph.len() {
        let ix = Ix::of(number);
        weight = weight.saturating_add(weight_of(graph.view(ix)));
    }
    weight
}

/// What the limit on the parts of pairs of types allows for two graphs, by the parts of their types. Two types can meet in all pairs
/// of their typedefs, so a small file can ask for very many comparisons of many parts each.
pub fn part_budget(old: &Graph<OldIx>, new: &Graph<NewIx>) -> Budget
    ensures { result ≡ fresh PairParts (weight_units old.now new.now) }
{
    let weight = weight_in(old).saturating_add(weight_in(new));
    Budget::of_many(Limit::PairParts, weight)
}

/// How much two types count that are compared.
pub fn weight_between(old: &View<OldIx>, new: &View<NewIx>) -> usize
    ensures { result ≡ pair_weight old.now new.now }
{
    weight_of(old).saturating_add(weight_of(new))
}

/// Takes the parts of two types that are compared. Fails exactly where they count more than is left, and names the limit.
pub fn take_parts(budget: &mut Budget, old: &View<OldIx>, new: &View<NewIx>) -> Result<(), NoMemory>
    ensures taken { OnOk result (budget.new ≡ with_taken budget.old (pair_weight old.now new.now)) }
    ensures within { OnOk result (budget.old.taken + pair_weight old.now new.now ≤ budget.old.most) }
    ensures past { OnErr result (budget.old.most < budget.old.taken + pair_weight old.now new.now) }
    ensures named { IfErr result (λ e. e ≡ Past budget.old.limit) }
    ensures kept { OnErr result (budget.new ≡ budget.old) }
{
    budget.take(weight_between(old, new))
}
