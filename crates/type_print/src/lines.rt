// The text of a layout.
ghost use Rattle.std.specs.Prelude.{◌≡◌, ◌<◌, ◌++◌, length, IfOk, IfErr, OnOk, flat_map, string_bytes};
ghost use Rattle.std.specs.List.{list_any};
ghost use Rattle.abi_base.specs.declared.fault.NoMemory.TheVariants.{Allocation};
ghost use Rattle.abi_types.specs.Parts.{plain_part};
ghost use Rattle.abi_types.specs.Sorts as sorts;
ghost use Rattle.type_print.specs.Rows as rows_spec;
ghost use Rattle.type_print.specs.Texts.{bits_text, head_line, layout_text, marked, name_at, numbered, row_line, AreInside, IsInside};

use crate::row::LayoutRow;
use abi_base::NoMemory;
use abi_types::{Index, Part, View, push_shown};
use std::alloc::{AllocError, Global};
use std::fmt::Write;

// The name of a part, or an empty one.
fn name_of<'a, Ix: Index>(part: &Part<'a, Ix>) -> &'a [u8]
    ensures { result.now ≡ sorts.name_of (plain_part Ix.number_of part.now) }
{
    match part {
        Part::Member { name, .. } => name,
        Part::Enumerator { name, .. } => name,
        _ => b"",
    }
}

// Appends the number of a member among those of its name, from the second on.
fn push_number(text: &mut String, before: usize) -> Result<(), AllocError>
    ensures { OnOk result (string_bytes text.new ≡ string_bytes text.old ++ numbered before) }
{
    if before == 0 {
        return Ok(());
    }
    let number = before as u128 + 1;
    write!(text, "#{number}")
}

// Appends the name of the member with this index.
#[tactic(auto, unfolding(crate::specs::Texts::name_at))]
fn push_name<Ix: Index>(
    alloc: Global,
    text: &mut String,
    view: &View<Ix>,
    k: usize,
) -> Result<(), AllocError>
    requires { k < length view.now.parts }
    ensures { OnOk result (string_bytes text.new ≡ string_bytes text.old ++ name_at view.now k) }
{
    push_shown(alloc, text, name_of(view.part(k)))?;
    push_number(text, view.parts.like_before(k))
}

// Appends a range of bits, and ends the line.
fn push_bits(text: &mut String, bit: u64, width: u64) -> Result<(), AllocError>
    ensures { OnOk result (string_bytes text.new ≡ string_bytes text.old ++ bits_text bit width) }
{
    writeln!(text, " bit {bit} width {width}")
}

// Appends the line of a row.
#[tactic(auto, unfolding(crate::specs::Texts::row_line))]
fn push_row<Ix: Index>(
    alloc: Global,
    text: &mut String,
    view: &View<Ix>,
    row: &LayoutRow,
) -> Result<(), AllocError>
    requires { IsInside view.now row.now }
    ensures { OnOk result (string_bytes text.new ≡ string_bytes text.old ++ row_line view.now row.now) }
{
    match row {
        LayoutRow::Member { part, bit, width } => {
            text.push_str("member ")?;
            push_name(alloc, text, view, *part)?;
            push_bits(text, *bit, *width)
        }
        LayoutRow::Hole { bit, width } => {
            text.push_str("hole")?;
            push_bits(text, *bit, *width)
        }
        LayoutRow::Padding { bit, width } => {
            text.push_str("padding")?;
            push_bits(text, *bit, *width)
        }
        LayoutRow::Overlap { part, with, bit } => {
            text.push_str("overlap ")?;
            push_name(alloc, text, view, *part)?;
            text.push_str(" ")?;
            push_name(alloc, text, view, *with)?;
            writeln!(text, " bit {bit}")
        }
        LayoutRow::Outside { part } => {
            text.push_str("outside ")?;
            push_name(alloc, text, view, *part)?;
            text.push_str("\n")
        }
    }
}

// Whether the row is an overlap or a member that ends outside.
fn is_clash(row: &LayoutRow) -> bool
    ensures { result ≡ rows_spec.is_clash row.now }
{
    match row {
        LayoutRow::Overlap { .. } => true,
        LayoutRow::Outside { .. } => true,
        _ => false,
    }
}

// Whether one of the rows is an overlap or a member that ends outside.
fn has_clash(rows: &[LayoutRow]) -> bool
    ensures { result ≡ list_any rows_spec.is_clash rows.now }
{
    rows.iter().any(|row| is_clash(row))
}

// Appends the mark of a layout with such a row.
fn push_mark(text: &mut String, rows: &[LayoutRow]) -> Result<(), AllocError>
    ensures { OnOk result (string_bytes text.new ≡ string_bytes text.old ++ marked rows.now) }
{
    if has_clash(rows) {
        text.push_str(" overlaps")
    } else {
        Ok(())
    }
}

// Appends the first line.
#[tactic(auto, unfolding(crate::specs::Texts::head_line))]
fn push_head<Ix: Index>(
    alloc: Global,
    text: &mut String,
    view: &View<Ix>,
    rows: &[LayoutRow],
) -> Result<(), AllocError>
    ensures { OnOk result (string_bytes text.new ≡ string_bytes text.old ++ head_line view.now rows.now) }
{
    let size = view.size;
    text.push_str("layout ")?;
    push_shown(alloc, text, view.tag)?;
    write!(text, " size {size}")?;
    push_mark(text, rows)?;
    text.push_str("\n")
}

// Appends the line of each row.
fn push_rows<Ix: Index>(
    alloc: Global,
    text: &mut String,
    view: &View<Ix>,
    rows: &[LayoutRow],
) -> Result<(), AllocError>
    requires { AreInside view.now rows.now }
    ensures { OnOk result (string_bytes text.new ≡ string_bytes text.old ++ flat_map (row_line view.now) rows.now) }
{
    for row in rows {
        push_row(alloc, text, view, row)?;
    }
    Ok(())
}

/// The lines of a layout: first the tag and the size in bytes of the structure, marked if members overlap or end outside; then each
/// row. Names are printed as in the paths of reports. Fails only where memory runs out.
#[tactic(auto, unfolding(crate::specs::Texts::layout_text))]
pub fn layout_lines<Ix: Index>(
    alloc: Global,
    view: &View<Ix>,
    rows: &[LayoutRow],
) -> Result<String, NoMemory>
    requires { AreInside view.now rows.now }
    ensures text { IfOk result (λ text. string_bytes text ≡ layout_text view.now rows.now) }
    ensures named { IfErr result (λ e. e ≡ Allocation) }
{
    let mut text = String::new(alloc);
    push_head(alloc, &mut text, view, rows)?;
    push_rows(alloc, &mut text, view, rows)?;
    Ok(text)
}
