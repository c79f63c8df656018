// The texts of paths.
ghost use Rattle.std.specs.Prelude.{◌≡◌, ◌<◌, ◌++◌, length, IfOk, OnOk, string_bytes, unwrap_or, IfErr};
ghost use Rattle.abi_base.specs.declared.fault.NoMemory.TheVariants.{Allocation};
ghost use Rattle.abi_types.specs.Graphs.{part_at, to_of};
ghost use Rattle.abi_types.specs.Plain.{plain_export};
ghost use Rattle.abi_types.specs.Shown.{label};
ghost use Rattle.report.specs.Steps.{step_text};
ghost use Rattle.pair_explorer.specs.Routes as routes;
ghost use Rattle.pair_compare.specs.reports.PathTexts.{between, IsWalk};
ghost use Rattle.pair_compare.specs.reports.PathTexts as path_texts;

use abi_base::NoMemory;
use abi_types::{Export, Index, Library, OldIx, View, push_label};
use cert_check::library_exports::find_at;
use pair_explorer::Route;
use report::push_step;
use std::alloc::{AllocError, Global};

// The label of an export.
fn label_of(alloc: Global, export: &Export) -> Result<String, NoMemory>
    ensures label { IfOk result (λ text. string_bytes text ≡ label (plain_export export.now)) }
    ensures named { IfErr result (λ e. e ≡ Allocation) }
{
    let mut text = String::new(alloc);
    push_label(alloc, &mut text, export)?;
    Ok(text)
}

/// The label of the old export at a position.
pub fn label_at(alloc: Global, library: &Library<OldIx>, export: u32) -> Result<String, NoMemory>
    ensures label { IfOk result (λ text. string_bytes text ≡ path_texts.label_at library.now export) }
    ensures named { IfErr result (λ e. e ≡ Allocation) }
{
    match find_at(library, export as usize) {
        None => Ok(String::new(alloc)),
        Some(export) => label_of(alloc, export),
    }
}

// The type of the old export at a position; void where there is none.
fn type_of(library: &Library<OldIx>, export: u32) -> OldIx
    ensures { result ≡ path_texts.type_of library.now export }
{
    match find_at(library, export as usize) {
        None => OldIx::of(0),
        Some(export) => match library.graph().find(export.entry) {
            None => OldIx::of(0),
            Some(node) => node,
        },
    }
}

// The type that a part names; void where it names none.
fn next_node(view: &View<OldIx>, part: usize) -> OldIx
    requires { part < length view.now.parts }
    ensures { result ≡ unwrap_or (to_of (part_at view.now part)) 0 }
{
    match view.part(part).to() {
        None => OldIx::of(0),
        Some(to) => to,
    }
}

// Appends the separator in front of a step that has this many before it.
fn push_between(text: &mut String, before: usize) -> Result<(), AllocError>
    ensures { OnOk result (string_bytes text.new ≡ string_bytes text.old ++ between before) }
{
    if before == 0 {
        return Ok(());
    }
    text.push_str(" / ")
}

// Appends a step that has this many before it.
fn push_one(
    alloc: Global,
    text: &mut String,
    view: &View<OldIx>,
    part: usize,
    before: usize,
) -> Result<(), AllocError>
    requires { part < length view.now.parts }
    ensures { OnOk result (string_bytes text.new
        ≡ string_bytes text.old ++ (between before ++ step_text view.now part)) }
{
    push_between(text, before)?;
    push_step(alloc, text, view, part)
}

/// The text of the steps of a path in the old library. It takes one pass over them.
pub fn steps_text(
    alloc: Global,
    library: &Library<OldIx>,
    route: &Route,
) -> Result<String, NoMemory>
    requires { IsWalk library.now (routes.path_of route.now.export route.now.parts) }
    ensures text { IfOk result (λ text. string_bytes text
        ≡ path_texts.steps_text library.now (routes.path_of route.now.export route.now.parts)) }
    ensures named { IfErr result (λ e. e ≡ Allocation) }
{
    let graph = library.graph();
    let parts = route.parts.as_slice();
    let mut node = type_of(library, route.export);
    let mut text = String::new(alloc);
    'walk: for k in 0..parts.len() {
        let view = graph.view(node);
        let part = parts[k];
        push_one(alloc, &mut text, view, part, k)?;
        node = next_node(view, part);
    }
    Ok(text)
}
