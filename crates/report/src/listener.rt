// Listeners, which hear rows and make a text of them.
ghost use Rattle.std.specs.Prelude.{◌≡◌, [], ◌∷◌, ◌++◌, List, ℕ, length, take, map, All, IfErr, IfOk, OnOk, OnErr};
ghost use Rattle.std.specs.List.{concat};
ghost use Rattle.abi_base.specs.declared.fault.NoMemory.TheVariants.{Allocation};
ghost use Rattle.report.specs.Listening.{heard_of, IsEnough, Reports, IsText, Voice};
ghost use Rattle.report.specs.declared.row.Row.{Row};

use crate::row::Row;
use crate::style::{More, Style};
use abi_base::NoMemory;

/// A listener hears the rows of a report, one by one, and closes with a text. It fails only where an allocation fails.
pub trait Listener: Drop {
    /// The rows that it has heard.
    ghost heard: { Self → List Row };

    /// The style of its text, and the text that it makes of rows, if that is known.
    ghost voice: { Self → Voice };

    /// The style of its text.
    fn style(&self) -> Style
        ensures { result ≡ (voice self.now).style };

    /// Hears a row. Returns `Enough` exactly if its style is `First` and it has heard that many rows. After `NoMemory` it has heard
    /// only the rows before this one.
    fn tell(&mut self, row: &Row) -> Result<More, NoMemory>
        ensures heard { OnOk result (heard self.new ≡ heard self.old ++ row.now ∷ []) }
        ensures voice { voice self.new ≡ voice self.old }
        ensures enough { IfOk result (IsEnough (voice self.old).style (length (heard self.new))) }
        ensures err { OnErr result (heard self.new ≡ heard self.old) }
        ensures named { IfErr result (λ e. e ≡ Allocation) };

    /// The text of the rows that it has heard: in its style, and the one that its voice gives.
    fn close(&self) -> Result<Vec<u8>, NoMemory>
        ensures made { IfOk result (λ text. IsText (voice self.now) (heard self.now) text.items) }
        ensures named { IfErr result (λ e. e ≡ Allocation) };
}

/// Appends a listener that has heard nothing to a list of boxed listeners.
pub fn add_listener(
    listeners: &mut Vec<Box<dyn Listener>>,
    listener: Box<dyn Listener>,
) -> Result<(), NoMemory>
    requires listener { heard listener ≡ [] }
    requires listeners { All (λ listener. heard listener ≡ []) listeners.old.items }
    ensures unheard { All (λ listener. heard listener ≡ []) listeners.new.items }
    ensures added { OnOk result (listeners.new.items ≡ listeners.old.items ++ listener ∷ []) }
    ensures named { IfErr result (λ e. e ≡ Allocation) }
{
    listeners.push(listener)?;
    Ok(())
}

/// For each listener in turn: tells it the rows from the first on, until it has heard enough or there are no more, closes it,
/// appends its text to `out`, and drops it. After `NoMemory` all listeners are dropped, and only the whole texts of the first ones
/// are appended.
pub fn tell_all(
    listeners: Vec<Box<dyn Listener>>,
    rows: &[Row],
    out: &mut Vec<u8>,
) -> Result<(), NoMemory>
    requires { All (λ listener. heard listener ≡ []) listeners.items }
    // The texts stand in the order of the listeners.
    ensures ok { OnOk result ((texts : List (List ℕ)) × Reports (map voice listeners.items) rows.now texts
        × (out.new.items ≡ out.old.items ++ concat texts)) }
    // If memory runs out, only the whole texts of the first listeners are appended.
    ensures err { OnErr result ((n : ℕ) × (texts : List (List ℕ))
        × Reports (take n (map voice listeners.items)) rows.now texts
        × (out.new.items ≡ out.old.items ++ concat texts)) }
    ensures named { IfErr result (λ e. e ≡ Allocation) }
{
    let mut waiting = listeners;
    while !waiting.is_empty() {
        let text = tell_one(waiting.remove(0), rows)?;
        out.extend_from_slice(&text)?;
    }
    Ok(())
}

// Tells one listener the rows until it has heard enough, and closes it.
fn tell_one(listener: Box<dyn Listener>, rows: &[Row]) -> Result<Vec<u8>, NoMemory>
    requires { heard listener ≡ [] }
    ensures made { IfOk result (λ text. IsText (voice listener) (heard_of (voice listener).style rows.now) text.items) }
    ensures named { IfErr result (λ e. e ≡ Allocation) }
{
    let mut listener = listener;
    for row in rows {
        match tell(&mut listener, row)? {
            More::Enough => return close(&listener),
            More::Go => {}
        }
    }
    close(&listener)
}

// Calls the method, with its clauses stated for a box.
fn tell(listener: &mut Box<dyn Listener>, row: &Row) -> Result<More, NoMemory>
    ensures heard { OnOk result (heard listener.new ≡ heard listener.old ++ row.now ∷ []) }
    ensures voice { voice listener.new ≡ voice listener.old }
    ensures enough { IfOk result (IsEnough (voice listener.old).style (length (heard listener.new))) }
    ensures named { IfErr result (λ e. e ≡ Allocation) }
{
    listener.tell(row)
}

// Calls the method, with its clause stated for a box.
fn close(listener: &Box<dyn Listener>) -> Result<Vec<u8>, NoMemory>
    ensures made { IfOk result (λ text. IsText (voice listener.now) (heard listener.now) text.items) }
    ensures named { IfErr result (λ e. e ≡ Allocation) }
{
    listener.close()
}
