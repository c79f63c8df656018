// Whether a new library may replace an old one, given their bytes and those of a rule file.
ghost use Rattle.std.specs.Prelude.{◌≡◌, ◌≤◌, [], ◌∷◌, None, length, map, All, OnOk, IfOk, IfErr};
ghost use Rattle.abi_base.specs.Limits.{input_limit};
ghost use Rattle.abi_base.specs.declared.fault.NoMemory.TheVariants.{Allocation};
ghost use Rattle.commands.specs.Faults.{AreReadable, StopsAt, StopsOn};
ghost use Rattle.commands.specs.declared.input.Input.TheVariants as input;
ghost use Rattle.library_read.specs.Faults.{library_fault};
ghost use Rattle.library_read.specs.Libraries.{library_of};
ghost use Rattle.library_read.specs.Limits.{LibraryPasses};
ghost use Rattle.suppression_text.specs.Classes.{PassesClasses};
ghost use Rattle.suppression_text.specs.Faults.{rule_fault};
ghost use Rattle.suppression_text.specs.Rules.{rules_of};
ghost use Rattle.library_check.specs.Inputs.{check_asks, pair_asks};
ghost use Rattle.library_check.specs.Limits.{inputs_pass, pair_passes};
ghost use Rattle.library_check.specs.Rows.Check.{check_passes, check_says};

use crate::judging::judge;
use crate::laws::{an_accepted_certificate_tells_such_a_relation, no_rules_are_readable};
use abi_base::{NoMemory, Refusal};
use abi_types::{Index, Library, NewIx, OldIx};
use commands::{Input, Judgement, Stop, stop_at};
use library_read::copy::copied;
use library_read::read_library;
use report::Listener;
use std::alloc::Global;
use suppression_text::{Rules, read_rules};

/// Two libraries. Their types borrow names from the files' bytes.
#[derive(Drop)]
pub struct Pair<'a> {
    /// The old library.
    pub old: Library<'a, OldIx>,
    /// The new library.
    pub new: Library<'a, NewIx>,
}

/// The inputs that `check` and `verify` share.
#[derive(Drop)]
pub(crate) struct Inputs<'a> {
    /// The two libraries.
    pub(crate) pair: Pair<'a>,
    /// The rule file.
    pub(crate) rules: Rules,
}

/// Reads the library of an input.
pub(crate) fn read_at<Ix: Index>(
    alloc: Global,
    which: Input,
    bytes: &[u8],
) -> Result<Library<'_, Ix>, Stop>
    requires { length bytes.now ≤ input_limit }
    ensures readable { OnOk result (library_fault bytes.now ≡ None) }
    ensures library { IfOk result (λ library. library ≡ library_of bytes.now) }
    ensures stops { IfErr result (StopsOn which (library_fault bytes.now) (LibraryPasses bytes.now)) }
{
    match read_library(alloc, bytes) {
        Ok(library) => Ok(library),
        Err(refusal) => Err(stop_at(which, refusal)),
    }
}

// How many parts the types of a library may have if it is copied: a number for each byte of its file, and some more. Types of one
// library share their parts, and those of a copy do not.
const BYTES_A_COPIED_PART: usize = 8;

const COPIED_PARTS_AT_LEAST: usize = 65_536;

/// Whether the types of a library have few enough parts that a copy takes less than reading the file again.
pub(crate) fn is_copied<Ix: Index>(library: &Library<Ix>) -> bool {
    let graph = library.graph();
    let mut parts: usize = 0;
    for number in 0..graph.len() {
        parts = parts.saturating_add(graph.view(Ix::of(number)).parts_len());
    }
    parts <= library.file().len() / BYTES_A_COPIED_PART + COPIED_PARTS_AT_LEAST
}

// Reads the new library, after the old one. If both files have the same bytes, it copies the old library, so that the bytes are
// read only once, unless a copy would take too much memory.
fn read_beside<'a>(
    alloc: Global,
    library: &Library<'a, OldIx>,
    old: &[u8],
    new: &'a [u8],
) -> Result<Library<'a, NewIx>, Stop>
    requires old_readable { library_fault old.now ≡ None }
    requires old_library { library.now ≡ library_of old.now }
    requires new_short { length new.now ≤ input_limit }
    ensures readable { OnOk result (library_fault new.now ≡ None) }
    ensures library { IfOk result (λ library. library ≡ library_of new.now) }
    ensures stops { IfErr result (StopsOn input.New (library_fault new.now) (LibraryPasses new.now)) }
{
    if old != new || !is_copied(library) {
        return read_at(alloc, Input::New, new);
    }
    Ok(copied(alloc, library)?)
}

/// Reads the old and the new library. A fault of the old one is reported before one of the new one.
#[tactic(auto, using(crate::proofs::StopLemmas::old_stops, crate::proofs::StopLemmas::new_stops))]
pub fn read_pair<'a>(alloc: Global, old: &'a [u8], new: &'a [u8]) -> Result<Pair<'a>, Stop>
    requires old_short { length old.now ≤ input_limit }
    requires new_short { length new.now ≤ input_limit }
    ensures readable { OnOk result (AreReadable pair_asks (old.now ∷ new.now ∷ [])) }
    ensures old { IfOk result (λ pair. pair.old ≡ library_of old.now) }
    ensures new { IfOk result (λ pair. pair.new ≡ library_of new.now) }
    ensures stops { IfErr result (StopsAt pair_asks pair_passes (old.now ∷ new.now ∷ [])) }
{
    let old_library = read_at(alloc, Input::Old, old)?;
    let new_library = read_beside(alloc, &old_library, old, new)?;
    Ok(Pair {
        old: old_library,
        new: new_library,
    })
}

// Reads the rule file.
fn read_rule_file(alloc: Global, bytes: &[u8]) -> Result<Rules, Stop>
    ensures readable { OnOk result (rule_fault bytes.now ≡ None) }
    ensures rules { IfOk result (λ rules. rules ≡ rules_of bytes.now) }
    ensures stops { IfErr result (StopsOn input.Rules (rule_fault bytes.now) (PassesClasses bytes.now)) }
{
    match read_rules(alloc, bytes) {
        Ok(rules) => Ok(rules),
        Err(refusal) => Err(stop_at(Input::Rules, refusal)),
    }
}

/// The contents of an empty rule file, which passes no limit. It fails only where an allocation does.
pub(crate) fn no_rules(alloc: Global) -> Result<Rules, NoMemory>
    ensures rules { IfOk result (λ rules. rules ≡ rules_of []) }
    ensures named { IfErr result (λ e. e ≡ Allocation) }
{
    no_rules_are_readable();
    match read_rules(alloc, b"") {
        Ok(rules) => Ok(rules),
        Err(Refusal::Fault(_)) => unreachable!(),
        Err(Refusal::NoMemory(_)) => Err(NoMemory::Allocation),
    }
}

// Reads both libraries and the rule file, in this order.
#[tactic(auto, using(crate::proofs::StopLemmas::pair_stops, crate::proofs::StopLemmas::rules_stop))]
pub(crate) fn read_inputs<'a>(
    alloc: Global,
    old: &'a [u8],
    new: &'a [u8],
    rules: &[u8],
) -> Result<Inputs<'a>, Stop>
    requires old_short { length old.now ≤ input_limit }
    requires new_short { length new.now ≤ input_limit }
    ensures readable { OnOk result (AreReadable check_asks (old.now ∷ new.now ∷ rules.now ∷ [])) }
    ensures old { IfOk result (λ inputs. inputs.pair.old ≡ library_of old.now) }
    ensures new { IfOk result (λ inputs. inputs.pair.new ≡ library_of new.now) }
    ensures rules { IfOk result (λ inputs. inputs.rules ≡ rules_of rules.now) }
    ensures stops { IfErr result (StopsAt check_asks inputs_pass (old.now ∷ new.now ∷ rules.now ∷ [])) }
{
    let pair = read_pair(alloc, old, new)?;
    let rules = read_rule_file(alloc, rules)?;
    Ok(Inputs { pair, rules })
}

/// Whether a new library may replace an old one in all that a rule file does not suppress, given their bytes: yes with the
/// certificate, or no with the texts that listeners make of every break. A fault is that of the first input that has one, in the
/// order old, new, rules.
#[tactic(auto, using(crate::proofs::StopLemmas::inputs_stop_check, crate::proofs::StopLemmas::judgement_stops_check))]
pub(crate) fn check(
    alloc: Global,
    old: &[u8],
    new: &[u8],
    rules: &[u8],
    listeners: Vec<Box<dyn Listener>>,
) -> Result<Judgement, Stop>
    requires old_short { length old.now ≤ input_limit }
    requires new_short { length new.now ≤ input_limit }
    requires unheard { All (λ listener. heard listener ≡ []) listeners.items }
    ensures readable { OnOk result (AreReadable check_asks (old.now ∷ new.now ∷ rules.now ∷ [])) }
    ensures said { IfOk result (λ j. check_says (map voice listeners.items)
        (old.now ∷ new.now ∷ rules.now ∷ []) j.verdict j.untyped j.text.items) }
    ensures stops { IfErr result (StopsAt check_asks check_passes (old.now ∷ new.now ∷ rules.now ∷ [])) }
{
    an_accepted_certificate_tells_such_a_relation();
    let inputs = read_inputs(alloc, old, new, rules)?;
    let judgement = judge(
        alloc,
        &inputs.pair.old,
        &inputs.pair.new,
        &inputs.rules,
        listeners,
    )?;
    Ok(judgement)
}
