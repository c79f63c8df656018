// Which listeners hear the report.
ghost use Rattle.std.specs.Prelude.{◌≡◌, [], List, map, filter, All, IfErr, IfOk};
ghost use Rattle.abi_base.specs.declared.fault.NoMemory.TheVariants.{Allocation};
ghost use Rattle.report.specs.styles.Wanted.{wanted_voices};
ghost use Rattle.report.specs.styles.Wanted as spec;

use crate::{Listener, Style};
use abi_base::NoMemory;
use std::alloc::Global;

/// Which report the caller wants.
#[derive(Clone, Copy, Debug, PartialEq, Eq)]
pub enum ReportStyle {
    /// A line for each row.
    Text,
    /// A line for each row, in columns.
    Table,
    /// The number of rows of each rule.
    Counts,
    /// Only the first rows.
    First,
    /// A style that a listener itself defines.
    Own,
}

// Whether the caller wants a listener of the style.
fn is_wanted(wanted: ReportStyle, style: Style) -> bool
    ensures { result ≡ spec.is_wanted wanted style }
{
    match (wanted, style) {
        (ReportStyle::Text, Style::Text) => true,
        (ReportStyle::Table, Style::Table) => true,
        (ReportStyle::Counts, Style::Counts) => true,
        (ReportStyle::First, Style::First(_)) => true,
        (ReportStyle::Own, Style::Own) => true,
        _ => false,
    }
}

// Calls the method, with its clause stated for a box.
fn style(listener: &Box<dyn Listener>) -> Style
    ensures { result ≡ (voice listener.now).style }
{
    listener.style()
}

/// The listeners of the wanted style, in order. The others are dropped. It fails only if memory runs out.
pub fn wanted_listeners(
    alloc: Global,
    listeners: Vec<Box<dyn Listener>>,
    wanted: ReportStyle,
) -> Result<Vec<Box<dyn Listener>>, NoMemory>
    requires { All (λ listener. heard listener ≡ []) listeners.items }
    ensures unheard { IfOk result (λ kept. All (λ listener. heard listener ≡ []) kept.items) }
    ensures kept { IfOk result (λ kept. kept.items
        ≡ filter (λ listener. spec.is_wanted wanted (voice listener).style) listeners.items) }
    ensures voices { IfOk result (λ kept. map voice kept.items ≡ wanted_voices wanted (map voice listeners.items)) }
    ensures named { IfErr result (λ e. e ≡ Allocation) }
{
    let mut waiting = listeners;
    let mut kept = Vec::new(alloc);
    'listeners: while !waiting.is_empty() {
        let listener = waiting.remove(0);
        if is_wanted(wanted, style(&listener)) {
            kept.push(listener)?;
        }
    }
    Ok(kept)
}
