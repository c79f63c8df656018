// Sections that match nothing.
ghost use Rattle.std.specs.Prelude.{◌≡◌, ◌≤◌, ◌+◌, ◌*◌, not, length, map, IfErr, IfOk};
ghost use Rattle.abi_base.specs.declared.fault.NoMemory.TheVariants.{Allocation};
ghost use Rattle.abi_base.specs.Outcome.{OnLimit};
ghost use Rattle.std.specs.Borrow.{Bor};
ghost use Rattle.std.specs.List.{list_any};
ghost use Rattle.std.specs.Option.{option_copied};
ghost use Rattle.abi_types.specs.Plain.{plain_exports, plain_label};
ghost use Rattle.suppression_text.specs.Rules.{PlainSection};
ghost use Rattle.idle_sections.specs.Idle.{all_labels, holds_in, holds_of_export, holds_of_label, idle_of, PassesTests};
ghost use Rattle.idle_sections.specs.Names.{AreAlike};

use crate::names::names_of;
use abi_base::{Budget, Limit, List, NoMemory};
use abi_types::{Export, Label, Library, OldIx, Way};
use std::alloc::Global;
use suppression_text::{Rules, Section};
use suppressions::compiled::CompiledSection;
use suppressions::ready_section::ReadySection;
use suppressions::subject::Subject;

// The most tests that one section takes: one for each export, and two for each name.
fn tests_of(old: &Library<OldIx>, names: &[Label]) -> usize
    ensures { result ≤ length old.now.exports + 2 * length names.now }
{
    let exports = old.exports().len();
    exports.saturating_add(names.len().saturating_mul(2))
}

// Whether a section matches an export.
fn holds_of_exports(ready: &mut ReadySection, soname: Option<&[u8]>, exports: &[Export]) -> bool
    ensures holds { result ≡ list_any (holds_of_export ready.old (option_copied soname.entry))
        (plain_exports exports.now) }
    ensures same { ready.new ≡ ready.old }
{
    for export in exports {
        if ready.holds(&Subject::of_export(soname, export)) {
            return true;
        }
    }
    false
}

// Whether a section matches a name of a type, by value or through a pointer.
fn holds_of_name(ready: &mut ReadySection, soname: Option<&[u8]>, label: &Label) -> bool
    ensures holds { result ≡ holds_of_label ready.old (option_copied soname.entry) (plain_label label.now) }
    ensures same { ready.new ≡ ready.old }
{
    ready.holds(&Subject::of_label(soname, Way::Direct, label))
        || ready.holds(&Subject::of_label(soname, Way::Pointer, label))
}

// Whether a section matches one of these names.
fn holds_of_names(ready: &mut ReadySection, soname: Option<&[u8]>, names: &[Label]) -> bool
    ensures holds { result ≡ list_any (holds_of_label ready.old (option_copied soname.entry))
        (map plain_label names.now) }
    ensures same { ready.new ≡ ready.old }
{
    for label in names {
        if holds_of_name(ready, soname, label) {
            return true;
        }
    }
    false
}

// Whether a section matches nothing in a library whose types have these names.
#[tactic(auto, unfolding(crate::specs::Idle::holds_in))]
fn is_idle(
    alloc: Global,
    section: &Section,
    old: &Library<OldIx>,
    names: &[Label],
) -> Result<bool, NoMemory>
    requires { AreAlike (map plain_label names.now) (all_labels old.now.graph) }
    ensures is { IfOk result (λ idle. idle ≡ not (holds_in old.now section.now)) }
    ensures named { IfErr result (λ e. e ≡ Allocation) }
{
    let compiled = CompiledSection::of(alloc, section)?;
    let mut ready = ReadySection::of(alloc, &compiled)?;
    let soname = old.soname();
    if holds_of_exports(&mut ready, soname, old.exports()) {
        return Ok(false);
    }
    Ok(!holds_of_names(&mut ready, soname, names))
}

/// The sections of a rule file that match nothing in a library, in the order of the file: no export, and no name of a type, by
/// value or through a pointer. Returns `NoMemory` if memory runs out, or if the sections would take too many tests.
#[tactic(auto, unfolding(crate::specs::Idle::idle_of))]
pub fn idle_sections<'r>(
    alloc: Global,
    rules: &'r Rules,
    old: &Library<OldIx>,
) -> Result<List<&'r Section>, NoMemory>
    ensures is { IfOk result (λ idle. map (λ (section : Bor PlainSection). section.now) idle
        ≡ idle_of rules.now old.now) }
    ensures past { IfErr result (λ e. OnLimit e (PassesTests rules.now old.now)) }
{
    let names = names_of(alloc, old.graph())?;
    let tests = tests_of(old, names.as_slice());
    let units = rules.sections().len().saturating_add(tests);
    let mut budget = Budget::of_many(Limit::IdleSections, units);
    let mut idle = List::new(alloc);
    for section in rules.sections() {
        budget.take(tests)?;
        if is_idle(alloc, section, old, names.as_slice())? {
            idle.push(section)?;
        }
    }
    Ok(idle)
}
