// The lines of exports, of nodes and of their parts.
ghost use Rattle.std.specs.Prelude.{◌<◌, length};
ghost use Rattle.abi_types.specs.Graphs.{view_at};

use crate::words::{group_word, kind_word, label_word};
use abi_types::{Export, Graph, Index, Kind, Label, OldIx, Part, View, push_label, push_shown};
use std::alloc::{AllocError, Global};

// Appends the printed form of a name, or `-` for an empty one.
fn push_name(alloc: Global, text: &mut String, name: &[u8]) -> Result<(), AllocError> {
    if name.is_empty() {
        return text.push('-');
    }
    push_shown(alloc, text, name)
}

// Appends the line of an export.
fn push_export(alloc: Global, text: &mut String, export: &Export<'_>) -> Result<(), AllocError> {
    let entry = export.entry;
    text.push_str("export ")?;
    push_label(alloc, text, export)?;
    write!(text, " entry {entry} named ")?;
    push_name(alloc, text, export.declared)?;
    text.push('\n')
}

/// Appends a line for each export.
pub(crate) fn push_exports(
    alloc: Global,
    text: &mut String,
    exports: &[Export<'_>],
) -> Result<(), AllocError> {
    for export in exports {
        push_export(alloc, text, export)?;
    }
    Ok(())
}

// Appends a word and a name.
fn push_named(alloc: Global, text: &mut String, word: &str, name: &[u8]) -> Result<(), AllocError> {
    text.push_str(word)?;
    push_name(alloc, text, name)
}

// Appends a part that names the entry at `to`.
fn push_part(
    alloc: Global,
    text: &mut String,
    part: &Part<'_, OldIx>,
    to: u64,
) -> Result<(), AllocError> {
    match part {
        Part::Member {
            name,
            bit,
            width,
            ..
        } => {
            push_named(alloc, text, "member ", name)?;
            writeln!(text, " bit {bit} width {width} to {to}")
        }
        Part::Enumerator { name, value } => {
            push_named(alloc, text, "enumerator ", name)?;
            writeln!(text, " {value}")
        }
        Part::Target { .. } => writeln!(text, "target {to}"),
        Part::Element { .. } => writeln!(text, "element {to}"),
        Part::Outcome { .. } => writeln!(text, "result {to}"),
        Part::Param { .. } => writeln!(text, "param {to}"),
    }
}

// The offset of the entry that a part of a node names, or 0 if it names none.
fn named(graph: &Graph<'_, OldIx>, ix: OldIx, k: usize) -> u64
    requires node { ix < length graph.now }
    requires part { k < length (view_at graph.now ix).parts }
{
    graph.known();
    match graph.view(ix).part(k).to() {
        Some(to) => graph.entry_of(to),
        None => 0,
    }
}

// Appends the labels of a node.
fn push_labels(alloc: Global, text: &mut String, labels: &[Label<'_>]) -> Result<(), AllocError> {
    for label in labels {
        let kind = label_word(label.kind);
        write!(text, " {kind}:")?;
        push_name(alloc, text, label.name)?;
    }
    Ok(())
}

// Appends the flags of a view.
fn push_flags(text: &mut String, view: &View<'_, OldIx>) -> Result<(), AllocError> {
    match view.kind {
        Kind::Scalar => {
            let group = group_word(view.group);
            write!(text, " group {group}")?;
        }
        _ => {}
    }
    if view.declared_only {
        text.push_str(" declared")?;
    }
    if view.variadic {
        text.push_str(" variadic")?;
    }
    Ok(())
}

// Appends the line of a node.
fn push_head(
    alloc: Global,
    text: &mut String,
    graph: &Graph<'_, OldIx>,
    ix: OldIx,
) -> Result<(), AllocError>
    requires { ix < length graph.now }
{
    let entry = graph.entry_of(ix);
    let view = graph.view(ix);
    let kind = kind_word(view.kind);
    let (size, align, count) = (view.size, view.align, view.count);
    write!(
        text,
        "node {entry} {kind} size {size} align {align} count {count}"
    )?;
    push_flags(text, view)?;
    text.push_str(" tag ")?;
    push_name(alloc, text, view.tag)?;
    text.push_str(" labels")?;
    push_labels(alloc, text, graph.labels(ix))?;
    text.push('\n')
}

// Appends the lines of a node.
fn push_node(
    alloc: Global,
    text: &mut String,
    graph: &Graph<'_, OldIx>,
    ix: OldIx,
) -> Result<(), AllocError>
    requires { ix < length graph.now }
{
    push_head(alloc, text, graph, ix)?;
    let view = graph.view(ix);
    for k in 0..view.parts_len() {
        push_part(alloc, text, view.part(k), named(graph, ix, k))?;
    }
    Ok(())
}

/// Appends the lines of all nodes.
pub(crate) fn push_graph(
    alloc: Global,
    text: &mut String,
    graph: &Graph<'_, OldIx>,
) -> Result<(), AllocError> {
    for number in 0..graph.len() {
        push_node(alloc, text, graph, OldIx::of(number))?;
    }
    Ok(())
}
