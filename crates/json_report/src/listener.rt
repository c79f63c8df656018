// The listener that closes with an array of JSON.
ghost use Rattle.std.specs.Prelude.{◌≡◌, []};
ghost use Rattle.json_report.specs.Breaks.{json_voice};

use crate::breaks::breaks_text;
use abi_base::{List, NoMemory};
use report::{Listener, More, Row, Style};
use std::alloc::Global;

/// A listener that closes with a JSON array: an object for each row that it heard, in order. Its style is `Own`.
#[derive(Drop)]
pub struct JsonListener {
    alloc: Global,
    rows: List<Row>,
}

impl JsonListener {
    /// A listener that has heard nothing.
    pub fn new(alloc: Global) -> JsonListener
        ensures heard { ⟦<JsonListener as Listener>⟧.heard result ≡ [] }
        ensures voice { ⟦<JsonListener as Listener>⟧.voice result ≡ json_voice }
    {
        JsonListener {
            alloc,
            rows: List::new(alloc),
        }
    }
}

impl Listener for JsonListener {
    ghost heard = { λ l. l.rows };

    ghost voice = { λ l. json_voice };

    fn style(&self) -> Style {
        Style::Own
    }

    fn tell(&mut self, row: &Row) -> Result<More, NoMemory> {
        let copy = row.copy(self.alloc)?;
        self.rows.push(copy)?;
        Ok(More::Go)
    }

    fn close(&self) -> Result<Vec<u8>, NoMemory> {
        breaks_text(self.alloc, self.rows.as_slice())
    }
}
