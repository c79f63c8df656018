// What a rule file suppresses: an export, a type, and all exports and types of a library.
ghost use Rattle.std.specs.Prelude.{◌≡◌, ◌||◌, IfErr, IfOk, OnOk, false, length, map};
ghost use Rattle.abi_base.specs.declared.fault.NoMemory.TheVariants.{Allocation};
ghost use Rattle.abi_base.specs.Outcome.{OnLimit};
ghost use Rattle.std.specs.Option.{option_copied};
ghost use Rattle.abi_types.specs.Plain.{plain_export, plain_exports, plain_label};
ghost use Rattle.abi_types.specs.Types.{PlainNode};
ghost use Rattle.suppressions.specs.Flags.{AreFlags, AreEither, AreOfOneSize, either as either_of};
ghost use Rattle.suppressions.specs.Limits.{AreModest, MarksPass, PassesCompiled, PassesHandles};
ghost use Rattle.suppressions.specs.Marks.{marks_of, AreEvenMarks};
ghost use Rattle.suppressions.specs.Meaning.{drops, marks_names, is_dropped, is_marked, some_section_holds};
ghost use Rattle.suppressions.specs.Subjects.{kind_subject};
ghost use Rattle.suppression_text.specs.declared.key.SectionKind.TheVariants.{Functions, Variables};
ghost use Rattle.suppressions.specs.Names.{chosen, some_ask};

use crate::accessed_through::names_once;
use crate::block::block_end;
use crate::compiled::CompiledSections;
use crate::limits::{check_letters, check_soname, check_weight};
use crate::ready_section::ReadyRules;
use crate::subject::{Subject, section_of_symbol};
use abi_base::{List, NoMemory};
use abi_types::{Export, Graph, Index, Label, Library, Marks, OldIx, Way};
use std::alloc::Global;
use std::collections::BTreeMap;
use suppression_text::{Rules, Section, SectionKind};

// Whether one of two flags is set.
fn one_of(one: bool, other: bool) -> bool
    ensures { result ≡ (one || other) }
{
    one || other
}

// Whether compiled sections drop an export.
fn compiled_drop(
    alloc: Global,
    compiled: &CompiledSections,
    soname: Option<&[u8]>,
    export: &Export,
) -> Result<bool, NoMemory>
    ensures is { IfOk result (λ drop. drop
        ≡ drops compiled.now (option_copied soname.entry) (plain_export export.now)) }
    ensures past { IfErr result (λ e. OnLimit e (PassesCompiled compiled.now)) }
{
    let mut ready = ReadyRules::of(alloc, compiled)?;
    Ok(ready.some_holds(&Subject::of_export(soname, export)))
}

// Whether the chosen sections drop an export: with `asking` those that test names, else the others.
fn chosen_drop(
    alloc: Global,
    sections: &[Section],
    asking: bool,
    soname: Option<&[u8]>,
    export: &Export,
) -> Result<bool, NoMemory>
    ensures is { IfOk result (λ drop. drop
        ≡ drops (chosen asking sections.now) (option_copied soname.entry) (plain_export export.now)) }
    ensures past { IfErr result (λ e. OnLimit e (PassesHandles sections.now)) }
{
    let compiled = CompiledSections::chosen(alloc, sections, asking)?;
    compiled_drop(alloc, &compiled, soname, export)
}

/// Whether a rule file drops an export of a library that has this soname.
#[tactic(auto, unfolding(crate::specs::Meaning::is_dropped))]
pub fn drops_export(
    alloc: Global,
    rules: &Rules,
    soname: Option<&[u8]>,
    export: &Export,
) -> Result<bool, NoMemory>
    ensures is { IfOk result (λ drops. drops
        ≡ is_dropped rules.now (option_copied soname.entry) (plain_export export.now)) }
    ensures past { IfErr result (λ e. OnLimit e (PassesHandles rules.now.sections)) }
{
    let named = chosen_drop(alloc, rules.sections(), true, soname, export)?;
    let others = chosen_drop(alloc, rules.sections(), false, soname, export)?;
    Ok(one_of(named, others))
}

// Whether sections mark a type that has these names.
fn marks_labels(
    sections: &mut ReadyRules,
    soname: Option<&[u8]>,
    labels: &[Label],
    way: Way,
) -> bool
    ensures { result ≡ marks_names sections.old (option_copied soname.entry) way (map plain_label labels.now) }
{
    for label in labels {
        if sections.some_holds(&Subject::of_label(soname, way, label)) {
            return true;
        }
    }
    false
}

// Whether compiled sections mark a type that has these names.
fn compiled_mark(
    alloc: Global,
    compiled: &CompiledSections,
    soname: Option<&[u8]>,
    labels: &[Label],
    way: Way,
) -> Result<bool, NoMemory>
    ensures is { IfOk result (λ mark. mark
        ≡ marks_names compiled.now (option_copied soname.entry) way (map plain_label labels.now)) }
    ensures past { IfErr result (λ e. OnLimit e (PassesCompiled compiled.now)) }
{
    let mut ready = ReadyRules::of(alloc, compiled)?;
    Ok(marks_labels(&mut ready, soname, labels, way))
}

/// The names of a type of a library with a soname, and how a program reaches the type.
#[derive(Drop)]
struct Reached<'x> {
    soname: Option<&'x [u8]>,
    labels: &'x [Label<'x>],
    way: Way,
}

// Whether the chosen sections mark a type: with `asking` those that test names, else the others.
fn chosen_mark(
    alloc: Global,
    sections: &[Section],
    asking: bool,
    reached: &Reached,
) -> Result<bool, NoMemory>
    ensures is { IfOk result (λ mark. mark
        ≡ marks_names (chosen asking sections.now) (option_copied reached.now.soname) reached.now.way (map plain_label reached.now.labels.now)) }
    ensures past { IfErr result (λ e. OnLimit e (PassesHandles sections.now)) }
{
    let compiled = CompiledSections::chosen(alloc, sections, asking)?;
    compiled_mark(
        alloc,
        &compiled,
        reached.soname,
        reached.labels,
        reached.way,
    )
}

/// Whether a rule file marks a type that has these names, if a program reaches it in this way. The library has this soname.
#[tactic(auto, unfolding(crate::specs::Meaning::is_marked))]
pub fn drops_labels(
    alloc: Global,
    rules: &Rules,
    soname: Option<&[u8]>,
    labels: &[Label],
    way: Way,
) -> Result<bool, NoMemory>
    ensures is { IfOk result (λ drops. drops
        ≡ is_marked rules.now (option_copied soname.entry) (map plain_label labels.now) way) }
    ensures past { IfErr result (λ e. OnLimit e (PassesHandles rules.now.sections)) }
{
    let reached = Reached {
        soname,
        labels,
        way,
    };
    let named = chosen_mark(alloc, rules.sections(), true, &reached)?;
    let others = chosen_mark(alloc, rules.sections(), false, &reached)?;
    Ok(one_of(named, others))
}

// Whether sections that test no name drop an export. They drop all functions or none, and all variables or none.
fn kind_flag(
    sections: &mut ReadyRules,
    soname: Option<&[u8]>,
    functions: bool,
    variables: bool,
    export: &Export,
) -> bool
    requires asks { some_ask sections.old ≡ false }
    requires functions { functions ≡ some_section_holds sections.old (kind_subject (option_copied soname) Functions) }
    requires variables { variables ≡ some_section_holds sections.old (kind_subject (option_copied soname) Variables) }
    ensures drops { result ≡ drops sections.old (option_copied soname.entry) (plain_export export.now) }
    ensures same { sections.new ≡ sections.old }
{
    match section_of_symbol(export.kind) {
        SectionKind::Functions => functions,
        SectionKind::Variables => variables,
        SectionKind::Types => sections.some_holds(&Subject::of_export(soname, export)),
    }
}

// For each export, whether the sections that test no name drop it. All exports of a kind have one answer.
fn kind_flags(
    alloc: Global,
    sections: &mut ReadyRules,
    soname: Option<&[u8]>,
    exports: &[Export],
) -> Result<List<bool>, NoMemory>
    requires { some_ask sections.old ≡ false }
    ensures flags { IfOk result (λ flags. flags
        ≡ map (drops sections.old (option_copied soname.entry)) (plain_exports exports.now)) }
    ensures same { sections.new ≡ sections.old }
    ensures named { IfErr result (λ e. e ≡ Allocation) }
{
    let functions = sections.some_holds(&Subject::of_kind(soname, SectionKind::Functions));
    let variables = sections.some_holds(&Subject::of_kind(soname, SectionKind::Variables));
    let mut flags = List::new(alloc);
    for export in exports {
        flags.push(kind_flag(sections, soname, functions, variables, export))?;
    }
    Ok(flags)
}

// For each export, whether sections drop it.
fn export_flags(
    alloc: Global,
    sections: &mut ReadyRules,
    soname: Option<&[u8]>,
    exports: &[Export],
) -> Result<List<bool>, NoMemory>
    ensures flags { IfOk result (λ flags. flags
        ≡ map (drops sections.old (option_copied soname.entry)) (plain_exports exports.now)) }
    ensures same { sections.new ≡ sections.old }
    ensures named { IfErr result (λ e. e ≡ Allocation) }
{
    if !sections.asks_names() {
        return kind_flags(alloc, sections, soname, exports);
    }
    let mut flags = List::new(alloc);
    for export in exports {
        flags.push(sections.some_holds(&Subject::of_export(soname, export)))?;
    }
    Ok(flags)
}

/// For each node of a graph, whether it is marked if it is reached by value, and if it is reached through a pointer.
#[derive(Drop)]
struct NodeFlags {
    direct: List<bool>,
    pointer: List<bool>,
}

// For each node of a graph, whether sections mark it.
fn node_flags(
    alloc: Global,
    sections: &mut ReadyRules,
    soname: Option<&[u8]>,
    graph: &Graph<OldIx>,
) -> Result<NodeFlags, NoMemory>
    ensures direct { IfOk result (λ flags. flags.direct
        ≡ map (λ (n : PlainNode). marks_names sections.old (option_copied soname.entry) Way.Direct n.labels) graph.now) }
    ensures pointer { IfOk result (λ flags. flags.pointer
        ≡ map (λ (n : PlainNode). marks_names sections.old (option_copied soname.entry) Way.Pointer n.labels) graph.now) }
    ensures named { IfErr result (λ e. e ≡ Allocation) }
{
    let mut known = BTreeMap::new(alloc);
    let mut direct = List::new(alloc);
    let mut pointer = List::new(alloc);
    for i in 0..graph.len() {
        let ways = names_once(sections, &mut known, soname, graph.labels(OldIx::of(i)))?;
        direct.push(ways.direct)?;
        pointer.push(ways.pointer)?;
    }
    Ok(NodeFlags { direct, pointer })
}

/// For each export of a library, whether sections drop it. For each node, whether they mark it if it is reached by value, and if it
/// is reached through a pointer.
#[derive(Drop)]
pub struct Flags {
    exports: List<bool>,
    direct: List<bool>,
    pointer: List<bool>,
}

// The flags of sections that are ready.
fn ready_flags(
    alloc: Global,
    sections: &mut ReadyRules,
    old: &Library<OldIx>,
) -> Result<Flags, NoMemory>
    ensures is { IfOk result (AreFlags sections.old old.now) }
    ensures named { IfErr result (λ e. e ≡ Allocation) }
{
    let soname = old.soname();
    let exports = export_flags(alloc, sections, soname, old.exports())?;
    let NodeFlags { direct, pointer } = node_flags(alloc, sections, soname, old.graph())?;
    Ok(Flags {
        exports,
        direct,
        pointer,
    })
}

// The flags of compiled sections.
fn compiled_flags(
    alloc: Global,
    compiled: &CompiledSections,
    old: &Library<OldIx>,
) -> Result<Flags, NoMemory>
    ensures is { IfOk result (AreFlags compiled.now old.now) }
    ensures past { IfErr result (λ e. OnLimit e (PassesCompiled compiled.now)) }
{
    let mut ready = ReadyRules::of(alloc, compiled)?;
    ready_flags(alloc, &mut ready, old)
}

// The flags of the chosen sections: with `asking` those that test names, else the others.
fn chosen_flags(
    alloc: Global,
    sections: &[Section],
    asking: bool,
    old: &Library<OldIx>,
) -> Result<Flags, NoMemory>
    ensures is { IfOk result (AreFlags (chosen asking sections.now) old.now) }
    ensures past { IfErr result (λ e. OnLimit e (PassesHandles sections.now)) }
{
    let compiled = CompiledSections::chosen(alloc, sections, asking)?;
    compiled_flags(alloc, &compiled, old)
}

// Sets each flag that is set in another list.
fn set_flags(flags: &mut [bool], other: &[bool])
    requires { length flags.old ≡ length other.now }
    ensures { flags.new ≡ either_of flags.old other.now }
{
    for i in 0..other.len() {
        flags[i] = one_of(flags[i], other[i]);
    }
}

// For each position, whether the flag there is set in one of two lists.
fn either(one: List<bool>, other: &[bool]) -> List<bool>
    requires { length one ≡ length other.now }
    ensures { result ≡ either_of one other.now }
{
    let mut flags = one.into_vec();
    set_flags(flags.as_mut_slice(), other);
    List::of(flags)
}

// Joins the flags of two lists of sections.
fn either_flags(one: Flags, other: &Flags) -> Flags
    requires { AreOfOneSize one other.now }
    ensures { AreEither one other.now result }
{
    Flags {
        exports: either(one.exports, other.exports.as_slice()),
        direct: either(one.direct, other.direct.as_slice()),
        pointer: either(one.pointer, other.pointer.as_slice()),
    }
}

// The flags of the chosen sections: with `asking` those that test names, else the others. It takes the sections block by block, so
// that only one block's compiled patterns are in memory at a time.
#[tactic(auto, using(crate::proofs::CrowdLemmas::front_passes, crate::proofs::CrowdLemmas::part_passes))]
fn flags_of(
    alloc: Global,
    sections: &[Section],
    asking: bool,
    old: &Library<OldIx>,
) -> Result<Flags, NoMemory>
    ensures is { IfOk result (AreFlags (chosen asking sections.now) old.now) }
    ensures past { IfErr result (λ e. OnLimit e (PassesHandles sections.now)) }
{
    let mut end = block_end(sections, 0, asking);
    let mut flags = chosen_flags(alloc, &sections[..end], asking, old)?;
    'parts: while end < sections.len() {
        let start = end;
        end = block_end(sections, start, asking);
        let more = chosen_flags(alloc, &sections[start..end], asking, old)?;
        flags = either_flags(flags, &more);
    }
    Ok(flags)
}

// The flags of all sections.
fn all_flags(alloc: Global, sections: &[Section], old: &Library<OldIx>) -> Result<Flags, NoMemory>
    ensures is { IfOk result (AreFlags sections.now old.now) }
    ensures past { IfErr result (λ e. OnLimit e (PassesHandles sections.now)) }
{
    let named = flags_of(alloc, sections, true, old)?;
    let others = flags_of(alloc, sections, false, old)?;
    Ok(either_flags(named, &others))
}

// Fails exactly where the soname or the patterns exceed a limit.
fn check_limits(rules: &Rules, old: &Library<OldIx>) -> Result<(), NoMemory>
    ensures within { OnOk result (AreModest rules.now old.now) }
    ensures past { IfErr result (λ e. OnLimit e (MarksPass rules.now old.now)) }
{
    let sections = rules.sections();
    check_soname(old.soname())?;
    check_weight(sections)?;
    check_letters(sections, old)?;
    Ok(())
}

/// What a rule file suppresses in a library: the exports that it drops, and the nodes that it marks, by value and through a
/// pointer. Nodes with equal labels have equal marks. Returns `NoMemory` if memory runs out, or if the soname or the patterns
/// exceed a limit of `docs/manual/LIMITS.md`.
#[tactic(auto, unfolding(crate::specs::Marks::marks_of, crate::specs::Meaning::is_dropped, crate::specs::Meaning::is_marked))]
pub fn marks(alloc: Global, rules: &Rules, old: &Library<OldIx>) -> Result<Marks, NoMemory>
    ensures marks { IfOk result (λ marks. marks ≡ marks_of rules.now old.now) }
    ensures even { IfOk result (AreEvenMarks old.now) }
    ensures within { OnOk result (AreModest rules.now old.now) }
    ensures past { IfErr result (λ e. OnLimit e (MarksPass rules.now old.now)) }
{
    check_limits(rules, old)?;
    let flags = all_flags(alloc, rules.sections(), old)?;
    let Flags {
        exports,
        direct,
        pointer,
    } = flags;
    Ok(Marks {
        digest: rules.digest(),
        exports,
        direct,
        pointer,
    })
}
