// The handle of a section: the exact name by which it is found, or that it has a pattern for names.
ghost use Rattle.std.specs.Prelude.{◌≡◌};
ghost use Rattle.std.specs.Option.{option_copied};
ghost use Rattle.suppressions.specs.Handles.{handle_cmp};
ghost use Rattle.suppressions.specs.Handles as spec;
ghost use Rattle.suppressions.specs.PlainHandles.{plain_handle, class_of};

use std::cmp::Ordering;
use suppression_text::{Key, Section};

/// How a section is found. A section with `name` or `symbol_name` can match only that name.
#[derive(Clone, Copy)]
pub enum Handle<'x> {
    /// None of the other properties: the section can match any name.
    Any,
    /// The value of `name`.
    Name(&'x [u8]),
    /// The value of `symbol_name`, in a section without `name`.
    Symbol(&'x [u8]),
    /// A pattern for a name or for the name of a symbol, in a section without either name.
    Pattern,
}

// The number of a kind of handles.
fn class(handle: Handle) -> u8
    ensures { result ≡ class_of handle.entry }
{
    match handle {
        Handle::Any => 0,
        Handle::Name(_) => 1,
        Handle::Symbol(_) => 2,
        Handle::Pattern => 3,
    }
}

/// A pattern that must match a name of what the section matches: that of `name_regexp`, or else that of `symbol_name_regexp`.
pub fn gate_of(section: &Section) -> Option<&[u8]>
    ensures { option_copied result ≡ spec.gate_of section.now }
{
    match section.value(Key::NameRegexp) {
        Some(text) => Some(text),
        None => section.value(Key::SymbolNameRegexp),
    }
}

impl<'x> Handle<'x> {
    /// The handle of a section.
    pub fn of(section: &'x Section) -> Handle<'x>
        ensures { plain_handle result ≡ spec.handle_of section.now }
    {
        if let Some(name) = section.value(Key::Name) {
            return Handle::Name(name);
        }
        match section.value(Key::SymbolName) {
            Some(name) => Handle::Symbol(name),
            None => Handle::unnamed(section),
        }
    }

    // The handle of a section without `name` and `symbol_name`.
    fn unnamed(section: &Section) -> Handle<'x>
        ensures { plain_handle result ≡ spec.pattern_handle (spec.gate_of section.now) }
    {
        match gate_of(section) {
            Some(_) => Handle::Pattern,
            None => Handle::Any,
        }
    }

    // The name, or no bytes where there is none.
    fn name(self) -> &'x [u8]
        ensures { result.now ≡ (plain_handle self.entry).1 }
    {
        match self {
            Handle::Any | Handle::Pattern => &[],
            Handle::Name(name) => name,
            Handle::Symbol(name) => name,
        }
    }

    /// Compares two handles by their kinds, and then by their names.
    pub fn order(self, other: Handle) -> Ordering
        ensures { result ≡ handle_cmp (plain_handle self.entry) (plain_handle other.entry) }
    {
        class(self)
            .cmp(&class(other))
            .then(self.name().cmp(other.name()))
    }
}
