// Listeners that are written outside the crate of reports: they hear their rows, and are closed and dropped, in order.
ghost use Rattle.std.specs.Prelude.{◌≡◌, [], All, IfOk};

use abi_base::NoMemory;
use abi_types::{Export, Rule, SymbolKind};
use report::{
    CountsListener, FirstListener, Listener, More, Row, Style, TableListener, TextListener,
    add_listener, export_row, tell_all,
};
use std::alloc::Global;
use std::cell::RefCell;
use std::process::Abort;
use std::rc::Rc;
use std::test::Fail;

// A list of what happens to listeners: a letter for each row that a listener hears, and its capital letter when it is dropped.
type Log = Rc<RefCell<Vec<u8>>>;

// Writes what happens to a listener to the log.
struct Note {
    letter: u8,
    log: Log,
}

impl Note {
    fn say(&self, letter: u8) {
        if let Ok(mut log) = self.log.try_borrow_mut() {
            let _ = log.push(letter);
        }
    }
}

impl Drop for Note {
    fn drop(self) {
        self.say(self.letter.to_ascii_uppercase());
        let Note { letter: _, log: _ } = self;
    }
}

// Keeps this many rows, returns `NoMemory` for more, and closes with their number.
#[derive(Drop)]
struct Counting {
    alloc: Global,
    most: usize,
    rows: Vec<Row>,
    note: Note,
}

impl Listener for Counting {
    ghost use Rattle.report.specs.Listening.{styled};
    ghost use Rattle.report.specs.declared.style.Style.TheVariants.{Own};

    ghost heard = { λ l. l.rows.items };

    ghost voice = { λ _. styled Own };

    fn style(&self) -> Style {
        Style::Own
    }

    fn tell(&mut self, row: &Row) -> Result<More, NoMemory> {
        self.note.say(self.note.letter);
        if self.rows.len() >= self.most {
            return Err(NoMemory::Allocation);
        }
        self.rows.push(row.copy(self.alloc)?)?;
        Ok(More::Go)
    }

    fn close(&self) -> Result<Vec<u8>, NoMemory> {
        let number = self.rows.len();
        Ok(format!(in self.alloc; "{number}")?.into_bytes())
    }
}

// An object with a version and a size.
fn export<'a>(name: &'a [u8], size: u64) -> Export<'a> {
    Export {
        symbol: 1,
        name,
        version: Some(b"V1"),
        index: 2,
        hidden: true,
        kind: SymbolKind::Object,
        absolute: false,
        value: 0x1000,
        size,
        declared: name,
        entry: 0,
    }
}

// The rows about an export that is gone, and about an object that grew.
fn two_rows(alloc: Global) -> Result<Vec<Row>, NoMemory> {
    let mut rows = Vec::new(alloc);
    rows.push(export_row(
        alloc,
        Rule::ExportPresence,
        &export(b"f", 4),
        &export(b"f", 4),
    )?)?;
    rows.push(export_row(
        alloc,
        Rule::ExportSize,
        &export(b"len", 4),
        &export(b"len", 8),
    )?)?;
    Ok(rows)
}

// A listener of each style in the library. None has heard anything yet.
fn of_each_style(alloc: Global) -> Result<Vec<Box<dyn Listener>>, NoMemory>
    ensures { IfOk result (λ listeners. All (λ listener. heard listener ≡ []) listeners.items) }
{
    let mut listeners: Vec<Box<dyn Listener>> = Vec::new(alloc);
    add_listener(&mut listeners, Box::new(alloc, TextListener::new(alloc))?)?;
    add_listener(&mut listeners, Box::new(alloc, TableListener::new(alloc))?)?;
    add_listener(&mut listeners, Box::new(alloc, CountsListener::new(alloc))?)?;
    add_listener(
        &mut listeners,
        Box::new(alloc, FirstListener::new(alloc, 1))?,
    )?;
    add_listener(
        &mut listeners,
        Box::new(alloc, FirstListener::new(alloc, 0))?,
    )?;
    Ok(listeners)
}

// A listener with this letter that may keep this many rows, and has kept none yet.
fn keeping(alloc: Global, letter: u8, most: usize, log: &Log) -> Result<Counting, Fail>
    ensures { IfOk result (λ listener. listener.rows.items ≡ []) }
{
    let note = Note {
        letter,
        log: log.clone()?,
    };
    Ok(Counting {
        alloc,
        most,
        rows: Vec::new(alloc),
        note,
    })
}

// How telling listeners that have heard nothing ends, and a text with what they write after it.
fn told(
    alloc: Global,
    listeners: Vec<Box<dyn Listener>>,
    rows: &[Row],
    before: &[u8],
) -> Result<(Result<(), NoMemory>, Vec<u8>), NoMemory>
    requires { All (λ listener. heard listener ≡ []) listeners.items }
{
    let mut out = Vec::from_slice(alloc, before)?;
    let ended = tell_all(listeners, rows, &mut out);
    Ok((ended, out))
}

// The text of a listener of each style, and of one of these tests.
fn each_text(
    alloc: Global,
    rows: &[Row],
    log: &Log,
) -> Result<(Result<(), NoMemory>, Vec<u8>), Fail> {
    let mut listeners = of_each_style(alloc)?;
    add_listener(
        &mut listeners,
        Box::new(alloc, keeping(alloc, b'a', 2, log)?)?,
    )?;
    Ok(told(alloc, listeners, rows, b"")?)
}

// The texts of three listeners, of which the second has room for one row.
fn short_text(
    alloc: Global,
    rows: &[Row],
    log: &Log,
) -> Result<(Result<(), NoMemory>, Vec<u8>), Fail> {
    let mut listeners: Vec<Box<dyn Listener>> = Vec::new(alloc);
    add_listener(
        &mut listeners,
        Box::new(alloc, keeping(alloc, b'a', 2, log)?)?,
    )?;
    add_listener(
        &mut listeners,
        Box::new(alloc, keeping(alloc, b'b', 1, log)?)?,
    )?;
    add_listener(
        &mut listeners,
        Box::new(alloc, keeping(alloc, b'c', 2, log)?)?,
    )?;
    Ok(told(alloc, listeners, rows, b"no\n")?)
}

fn check_each(rt: &impl Abort, alloc: Global, log: &Log) -> Result<(), Fail> {
    let rows = two_rows(alloc)?;
    let (ended, out) = each_text(alloc, &rows, log)?;
    let wanted = b"\
X2 f@V1: gone
X5 len@V1: object size 4, now 8
X2   f@V1                             -: gone
X5   len@V1                           -: object size 4, now 8
X2         1
X5         1
all        2
X2 f@V1: gone
2";
    assert_eq!(rt; ended, Ok(()));
    assert_eq!(rt; out.as_slice(), wanted.as_slice());
    Ok(())
}

fn check_short(rt: &impl Abort, alloc: Global, log: &Log) -> Result<(), Fail> {
    let rows = two_rows(alloc)?;
    let (ended, out) = short_text(alloc, &rows, log)?;
    assert_eq!(rt; ended, Err(NoMemory::Allocation));
    assert_eq!(rt; out.as_slice(), b"no\n2".as_slice());
    Ok(())
}

#[test]
fn each_style_has_its_text(rt: HostRuntime) -> Result<(), Fail> {
    let log = Rc::new(rt.alloc(), RefCell::new(Vec::new(rt.alloc())))?;
    check_each(&rt, rt.alloc(), &log)
}

#[test]
fn the_texts_before_it_stay_where_memory_runs_out(rt: HostRuntime) -> Result<(), Fail> {
    let log = Rc::new(rt.alloc(), RefCell::new(Vec::new(rt.alloc())))?;
    check_short(&rt, rt.alloc(), &log)?;
    // Each is dropped once, before the next one hears.
    assert_eq!(rt; log.try_borrow()?.as_slice(), b"aaAbbBC".as_slice());
    Ok(())
}
