// The lines of exports.
ghost use Rattle.std.specs.Prelude.{◌≡◌, ◌<◌, ◌≤◌, ◌+◌, ◌++◌, flat_map, length, IfErr, IfOk, OnOk, string_bytes};
ghost use Rattle.abi_base.specs.Outcome.{OnLimit};
ghost use Rattle.abi_base.specs.declared.fault.NoMemory.TheVariants.{Allocation};
ghost use Rattle.abi_types.specs.Plain.{plain_export, plain_exports};
ghost use Rattle.listings.specs.exports.ExportLines.{LinesPass, call_text, entry_text, export_line, exports_text, place_behind, places_text, type_text};

use abi_base::{Budget, NoMemory};
use abi_types::{Call, Export, Graph, Index, Kind, Library, Place, View, push_label};
use report::{kind_word, push_place};
use std::alloc::{AllocError, Global};
use std::fmt::Write;

// Appends a comma and a place.
#[tactic(auto, unfolding(crate::specs::exports::ExportLines::place_behind))]
fn push_next(text: &mut String, place: &Place) -> Result<(), AllocError>
    ensures { OnOk result (string_bytes text.new ≡ string_bytes text.old ++ place_behind place.now) }
{
    text.push_str(",")?;
    push_place(text, place)
}

// Appends each place after a comma.
fn push_behind(text: &mut String, places: &[Place]) -> Result<(), AllocError>
    ensures { OnOk result (string_bytes text.new ≡ string_bytes text.old ++ flat_map place_behind places.now) }
{
    for place in places {
        push_next(text, place)?;
    }
    Ok(())
}

// Appends the places joined by commas, or a dash.
fn push_places(text: &mut String, places: &[Place]) -> Result<(), AllocError>
    ensures { OnOk result (string_bytes text.new ≡ string_bytes text.old ++ places_text places.now) }
{
    match places {
        [] => text.push_str("-"),
        [first, others @ ..] => {
            push_place(text, first)?;
            push_behind(text, others)
        }
    }
}

// Appends where a call passes its arguments and its result.
fn push_call(text: &mut String, call: &Call) -> Result<(), AllocError>
    ensures { OnOk result (string_bytes text.new ≡ string_bytes text.old ++ call_text call.now) }
{
    text.push_str(" params ")?;
    push_places(text, call.params())?;
    text.push_str(" result ")?;
    push_place(text, &call.outcome())
}

// Appends the description of a type.
#[tactic(auto, unfolding(crate::specs::exports::ExportLines::type_text))]
fn push_type<Ix: Index>(text: &mut String, view: &View<Ix>) -> Result<(), AllocError>
    ensures { OnOk result (string_bytes text.new ≡ string_bytes text.old ++ type_text view.now) }
{
    if view.kind == Kind::Function {
        push_call(text, &view.call)
    } else {
        text.push_str(" is ")?;
        text.push_str(kind_word(view.kind))
    }
}

// Appends the description of an entry's type.
#[tactic(auto, unfolding(crate::specs::exports::ExportLines::entry_text))]
fn push_entry<Ix: Index>(text: &mut String, graph: &Graph<Ix>, entry: u64) -> Result<(), AllocError>
    ensures { OnOk result (string_bytes text.new ≡ string_bytes text.old ++ entry_text graph.now entry) }
{
    if entry == 0 {
        return text.push_str(" untyped");
    }
    match graph.find(entry) {
        None => text.push_str(" untyped"),
        Some(ix) => push_type(text, graph.view(ix)),
    }
}

// Appends the line of an export.
#[tactic(auto, unfolding(crate::specs::exports::ExportLines::export_line))]
fn push_line<Ix: Index>(
    alloc: Global,
    text: &mut String,
    graph: &Graph<Ix>,
    export: &Export,
) -> Result<(), AllocError>
    ensures { OnOk result (string_bytes text.new
        ≡ string_bytes text.old ++ export_line graph.now (plain_export export.now)) }
{
    let symbol = export.symbol;
    let kind = export.kind.word();
    let size = export.size;
    write!(text, "{symbol} ")?;
    push_label(alloc, text, export)?;
    write!(text, " {kind} {size}")?;
    push_entry(text, graph, export.entry)?;
    text.push_str("\n")
}

// Appends the lines of exports, and takes their bytes of the budget.
fn push_lines<Ix: Index>(
    alloc: Global,
    text: &mut String,
    graph: &Graph<Ix>,
    exports: &[Export],
    budget: &mut Budget,
) -> Result<(), NoMemory>
    requires { budget.old.taken ≤ budget.old.most }
    ensures lines { OnOk result (string_bytes text.new
        ≡ string_bytes text.old ++ flat_map (export_line graph.now) (plain_exports exports.now)) }
    ensures within { OnOk result (budget.old.taken
        + length (flat_map (export_line graph.now) (plain_exports exports.now)) ≤ budget.old.most) }
    ensures past { IfErr result (λ e. OnLimit e
        (LinesPass (flat_map (export_line graph.now) (plain_exports exports.now)) budget.old)) }
{
    for export in exports {
        let before = text.len();
        push_line(alloc, text, graph, export)?;
        budget.take(text.len() - before)?;
    }
    Ok(())
}

/// The line of each export of a library, in the order of their symbols: the number of its symbol, its label, its kind, its size in
/// bytes, and a description of its type: for a function the places of its arguments and of its result, for any other type its kind,
/// or `untyped` where it has none. Exports can share the parameters of one function, so the lines can be far longer than the file:
/// their bytes are taken of the budget, and the answer is `Past` only where they are more than it has.
#[tactic(auto, unfolding(crate::specs::exports::ExportLines::exports_text))]
pub fn export_lines<Ix: Index>(
    alloc: Global,
    library: &Library<Ix>,
    budget: &mut Budget,
) -> Result<String, NoMemory>
    requires { budget.old.taken ≤ budget.old.most }
    ensures lines { IfOk result (λ text. string_bytes text ≡ exports_text library.now) }
    ensures within { OnOk result (budget.old.taken + length (exports_text library.now) ≤ budget.old.most) }
    ensures past { IfErr result (λ e. OnLimit e (LinesPass (exports_text library.now) budget.old)) }
{
    let mut text = String::new(alloc);
    push_lines(alloc, &mut text, library.graph(), library.exports(), budget)?;
    Ok(text)
}
