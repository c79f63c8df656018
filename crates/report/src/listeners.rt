// The listeners of the program, one for each style except `Own`.
ghost use Rattle.std.specs.Prelude.{◌≡◌, [], ◌∷◌, ◌++◌, take, IfErr, OnOk, OnErr};
ghost use Rattle.abi_base.specs.declared.fault.NoMemory.TheVariants.{Allocation};
ghost use Rattle.report.specs.Listening.{styled};
ghost use Rattle.report.specs.declared.style.Style.TheVariants.{Text, Table, Counts, First};

use crate::listener::Listener;
use crate::render::{counts_text, lines_text, table_text};
use crate::row::Row;
use crate::style::{More, Style};
use abi_base::{List, NoMemory};
use std::alloc::Global;

// Appends a copy of a row.
fn keep(alloc: Global, rows: &mut List<Row>, row: &Row) -> Result<(), NoMemory>
    ensures kept { OnOk result (rows.new ≡ rows.old ++ row.now ∷ []) }
    ensures none { OnErr result (rows.new ≡ rows.old) }
    ensures named { IfErr result (λ e. e ≡ Allocation) }
{
    let copy = row.copy(alloc)?;
    rows.push(copy)
}

/// Prints a line for each row.
#[derive(Drop)]
pub struct TextListener {
    alloc: Global,
    rows: List<Row>,
}

impl TextListener {
    /// A listener that has heard nothing.
    pub fn new(alloc: Global) -> TextListener
        ensures heard { ⟦<TextListener as Listener>⟧.heard result ≡ [] }
        ensures voice { ⟦<TextListener as Listener>⟧.voice result ≡ styled Text }
    {
        TextListener {
            alloc,
            rows: List::new(alloc),
        }
    }
}

impl Listener for TextListener {
    ghost heard = { λ l. l.rows };

    ghost voice = { λ l. styled Text };

    fn style(&self) -> Style {
        Style::Text
    }

    fn tell(&mut self, row: &Row) -> Result<More, NoMemory> {
        keep(self.alloc, &mut self.rows, row)?;
        Ok(More::Go)
    }

    fn close(&self) -> Result<Vec<u8>, NoMemory> {
        lines_text(self.alloc, self.rows.as_slice())
    }
}

/// Prints a line for each row, in columns.
#[derive(Drop)]
pub struct TableListener {
    alloc: Global,
    rows: List<Row>,
}

impl TableListener {
    /// A listener that has heard nothing.
    pub fn new(alloc: Global) -> TableListener
        ensures heard { ⟦<TableListener as Listener>⟧.heard result ≡ [] }
        ensures voice { ⟦<TableListener as Listener>⟧.voice result ≡ styled Table }
    {
        TableListener {
            alloc,
            rows: List::new(alloc),
        }
    }
}

impl Listener for TableListener {
    ghost heard = { λ l. l.rows };

    ghost voice = { λ l. styled Table };

    fn style(&self) -> Style {
        Style::Table
    }

    fn tell(&mut self, row: &Row) -> Result<More, NoMemory> {
        keep(self.alloc, &mut self.rows, row)?;
        Ok(More::Go)
    }

    fn close(&self) -> Result<Vec<u8>, NoMemory> {
        table_text(self.alloc, self.rows.as_slice())
    }
}

/// Prints the number of rows of each rule.
#[derive(Drop)]
pub struct CountsListener {
    alloc: Global,
    rows: List<Row>,
}

impl CountsListener {
    /// A listener that has heard nothing.
    pub fn new(alloc: Global) -> CountsListener
        ensures heard { ⟦<CountsListener as Listener>⟧.heard result ≡ [] }
        ensures voice { ⟦<CountsListener as Listener>⟧.voice result ≡ styled Counts }
    {
        CountsListener {
            alloc,
            rows: List::new(alloc),
        }
    }
}

impl Listener for CountsListener {
    ghost heard = { λ l. l.rows };

    ghost voice = { λ l. styled Counts };

    fn style(&self) -> Style {
        Style::Counts
    }

    fn tell(&mut self, row: &Row) -> Result<More, NoMemory> {
        keep(self.alloc, &mut self.rows, row)?;
        Ok(More::Go)
    }

    fn close(&self) -> Result<Vec<u8>, NoMemory> {
        counts_text(self.alloc, self.rows.as_slice())
    }
}

/// Prints a line for each of the first rows, up to a limit.
#[derive(Drop)]
pub struct FirstListener {
    alloc: Global,
    limit: u32,
    rows: List<Row>,
}

impl FirstListener {
    /// A listener that has heard nothing, and prints at most `limit` rows.
    pub fn new(alloc: Global, limit: u32) -> FirstListener
        ensures heard { ⟦<FirstListener as Listener>⟧.heard result ≡ [] }
        ensures voice { ⟦<FirstListener as Listener>⟧.voice result ≡ styled (First limit) }
    {
        FirstListener {
            alloc,
            limit,
            rows: List::new(alloc),
        }
    }
}

// The first rows, up to a limit.
fn first_rows(rows: &[Row], limit: u32) -> &[Row]
    ensures { result.now ≡ take limit rows.now }
{
    if rows.len() <= limit as usize {
        rows
    } else {
        &rows[..limit as usize]
    }
}

impl Listener for FirstListener {
    ghost heard = { λ l. l.rows };

    ghost voice = { λ l. styled (First l.limit) };

    fn style(&self) -> Style {
        Style::First(self.limit)
    }

    fn tell(&mut self, row: &Row) -> Result<More, NoMemory> {
        keep(self.alloc, &mut self.rows, row)?;
        if self.rows.as_slice().len() >= self.limit as usize {
            Ok(More::Enough)
        } else {
            Ok(More::Go)
        }
    }

    fn close(&self) -> Result<Vec<u8>, NoMemory> {
        lines_text(self.alloc, first_rows(self.rows.as_slice(), self.limit))
    }
}
