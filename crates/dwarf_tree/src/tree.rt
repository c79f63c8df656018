// The tree of entries.
ghost use Rattle.std.specs.Prelude.{◌≡◌, ◌<◌, ◌≤◌, ℕ, [], ◌∷◌, ◌++◌, All, filter, length, Contains, IfErr, IfOk, IfSome, None, OnOk, Some, false};
ghost use Rattle.std.specs.Option.{ForSome};
ghost use Rattle.abi_base.specs.declared.fault.NoMemory.TheVariants.{Allocation};
ghost use Rattle.abi_base.specs.Outcome.{Judges, OnPast};
ghost use Rattle.dwarf_forms.specs.declared.values.Value.TheVariants as value;
ghost use Rattle.dwarf_units.specs.Limits.{HaveFewAttributes, UnitsPass};
ghost use Rattle.dwarf_units.specs.Sequence.{entries_fault};
ghost use Rattle.dwarf_tree.specs.Keeping.{IsLayout, LooksFrom, asked_value, end_below};
ghost use Rattle.dwarf_tree.specs.LongTexts.{IsLongText};
ghost use Rattle.dwarf_tree.specs.Trees.{IsOrdered, PlainTree, children_of, entry_at, entry_of, head_at, is_tagged, next_child_of, own_of, root_of, tree_of};

use crate::attribute_source::{
    AttributeSource, may_have, short_reference_of, short_text_of, value_of,
};
use crate::ends::ends_of;
use crate::entry_number::EntryNumber;
use crate::entry_records::{AbbreviationLayout, EntryRecord, Slot};
use crate::head::Head;
use crate::hints::{hint_for, hints_of};
use crate::laws::a_section_is_in_order;
use crate::long_texts::{LongText, long_texts_of};
use crate::reading::read_all;
use crate::roots::roots_of;
use crate::searches::place_near;
use crate::tree_builder::TreeBuilder;
use abi_base::{NoMemory, Refusal};
use dwarf_forms::{DebugInfoOffset, DebugStrOffset, Sections, Value};
use std::alloc::Global;
use std::marker::Model;

/// The entries of all units of `.debug_info`, ordered by offset. Contracts see it as a `PlainTree`. The numbers of entries are those
/// below `len`. The tree stores no attribute values: look-ups read them from the bytes.
#[derive(Drop)]
pub struct Tree<'a> {
    info: &'a [u8],
    abbrevs: &'a [u8],
    units: Vec<Head>,
    // The shapes of entries.
    shapes: Vec<AbbreviationLayout>,
    slots: Vec<Slot>,
    entries: Vec<EntryRecord>,
    // For each entry the position where its subtree ends.
    ends: Vec<u32>,
    // For each unit its root.
    roots: Vec<EntryNumber>,
    // Hints for the search of the entry at an offset. They only save time.
    hints: Vec<u32>,
    // The long texts of the section, so that look-ups do not read them.
    long_texts: Vec<LongText>,
}

impl<'a> Model for Tree<'a> {
    ghost use Rattle.dwarf_tree.specs.Trees.{PlainTree};

    ghost Value = { PlainTree };

    ghost use Rattle.dwarf_tree.specs.Keeping.{decoder, kept_tree, IsKept};

    ghost view = { λ t. kept_tree t.units.items t.shapes.items (decoder t.info.now t.abbrevs.now t.units.items) t.entries.items };

    ghost invariant = { λ t. IsKept t.info.now t.abbrevs.now t.units.items t.shapes.items t.slots.items t.entries.items t.ends.items t.roots.items t.long_texts.items };
}

// The tree of the entries that were read, without unused capacity.
fn finished<'a>(alloc: Global, mut growing: TreeBuilder<'a>) -> Result<Tree<'a>, NoMemory>
    requires { IsOrdered growing.tree }
    ensures tree { IfOk result (λ t. t ≡ growing.entry.tree) }
    ensures named { IfErr result (λ e. e ≡ Allocation) }
{
    growing.shrink();
    let ends = ends_of(alloc, &growing)?;
    let roots = roots_of(alloc, &growing)?;
    let hints = hints_of(alloc, &growing.entries)?;
    let long_texts = long_texts_of(alloc, growing.info)?;
    let TreeBuilder {
        info,
        abbrevs,
        units,
        shapes,
        entries,
    } = growing;
    let (shapes, slots) = shapes.into_lists();
    Ok(Tree {
        info,
        abbrevs,
        units,
        shapes,
        slots,
        entries,
        ends,
        roots,
        hints,
        long_texts,
    })
}

/// The tree of the entries of a file's units. Err is the first fault of units and entries, or `NoMemory`. That a limit is passed is
/// answered only where the abbreviation tables of all units count more than allowed, or the attributes of one unit.
pub fn read_tree<'a>(alloc: Global, sections: &Sections<'a>) -> Result<Tree<'a>, Refusal>
    ensures judged { Judges result (entries_fault sections.now.info.now sections.now.abbrev.now) }
    ensures read { IfOk result (λ t. t ≡ tree_of sections.now.info.now sections.now.abbrev.now) }
    ensures within { OnOk result (HaveFewAttributes sections.now.info.now sections.now.abbrev.now) }
    ensures past { IfErr result (λ e. OnPast e (UnitsPass sections.now.info.now sections.now.abbrev.now)) }
{
    a_section_is_in_order();
    match read_all(alloc, sections) {
        Ok(growing) => Ok(finished(alloc, growing)?),
        Err(refused) => Err(refused),
    }
}

// The place of an entry in the list, if there is an entry.
fn place_of(e: Option<EntryNumber>) -> Option<usize>
    ensures { result ≡ e }
{
    match e {
        Some(e) => Some(e.index()),
        None => None,
    }
}

impl<'a> Tree<'a> {
    /// The number of entries.
    pub fn len(&self) -> usize
        ensures { result ≡ length self.now.entries }
    {
        self.entries.len()
    }

    /// The offset of an entry in `.debug_info`.
    pub fn offset(&self, e: EntryNumber) -> DebugInfoOffset
        requires { e < length self.now.entries }
        ensures { result ≡ (entry_at self.now e).offset }
    {
        let stored = self.entries[e.index()];
        DebugInfoOffset::new(u64::from(stored.offset))
    }

    /// The depth of an entry: the number of entries above it. The root of a unit has 0.
    pub fn depth(&self, e: EntryNumber) -> u32
        requires { e < length self.now.entries }
        ensures { result ≡ (entry_at self.now e).depth }
    {
        self.depth_at(e.index())
    }

    // The depth of the entry at a place of the list.
    fn depth_at(&self, e: usize) -> u32
        requires { e < length self.now.entries }
        ensures { result ≡ (entry_at self.now e).depth }
    {
        let stored = self.entries[e];
        stored.depth
    }

    /// The tag of an entry, `DW_TAG_..`.
    pub fn tag(&self, e: EntryNumber) -> u64
        requires { e < length self.now.entries }
        ensures { result ≡ (entry_at self.now e).tag }
    {
        let stored = self.entries[e.index()];
        self.shapes[stored.shape as usize].tag
    }

    /// The number of an entry's unit.
    pub fn unit(&self, e: EntryNumber) -> usize
        requires { e < length self.now.entries }
        ensures { result ≡ (entry_at self.now e).unit }
    {
        let stored = self.entries[e.index()];
        self.shapes[stored.shape as usize].unit as usize
    }

    /// Whether an entry may have an attribute. If not, it does not have it; if so, nothing follows. The call only saves time: `own`
    /// answers in all cases.
    #[inline(always)]
    pub fn may_have(&self, e: EntryNumber, name: u64) -> bool
        requires { e < length self.now.entries }
        ensures { result ≡ false → own_of self.now e name ≡ None }
    {
        let place = e.index();
        let stored = self.entries[place];
        may_have(self.shapes[stored.shape as usize].names, name)
    }

    // What the attributes of an entry are read from.
    #[inline(always)]
    fn asked(&self, e: EntryNumber) -> AttributeSource<'_>
        requires { e < length self.now.entries }
        ensures inside { result.head.now.end ≤ length result.info.now }
        ensures shape { IsLayout result.abbrevs.now result.slots.now result.shape.now }
        ensures texts { All (IsLongText result.info.now) result.long_texts.now }
        ensures own { (name : ℕ) → asked_value result name ≡ own_of self.now e name }
    {
        let stored = self.entries[e.index()];
        let shape = &self.shapes[stored.shape as usize];
        AttributeSource {
            info: self.info,
            abbrevs: self.abbrevs,
            slots: self.slots.as_slice(),
            long_texts: self.long_texts.as_slice(),
            head: &self.units[shape.unit as usize],
            shape,
            stored,
        }
    }

    /// The first value of an attribute of an entry itself, or None where it has none. Reads it from the bytes.
    #[inline(always)]
    pub fn own(&self, e: EntryNumber, name: u64) -> Option<Value>
        requires { e < length self.now.entries }
        ensures { result ≡ own_of self.now e name }
    {
        if !self.may_have(e, name) {
            return None;
        }
        self.read_own(e, name)
    }

    // Reads it from the bytes, with a contract on them.
    #[inline(never)]
    fn read_own(&self, e: EntryNumber, name: u64) -> Option<Value>
        requires { e < length self.now.entries }
        ensures { result ≡ own_of self.now e name }
    {
        value_of(&self.asked(e), name)
    }

    /// The offset of the entry to which an attribute of an entry itself refers, if the attribute has the form `DW_FORM_ref4` and
    /// the abbreviation fixes the offset of its value, as for most references. The call only saves time: None means nothing, and
    /// `own` answers in all cases.
    #[inline(always)]
    pub fn short_reference(&self, e: EntryNumber, name: u64) -> Option<DebugInfoOffset>
        requires { e < length self.now.entries }
        ensures { IfSome result (λ offset. own_of self.now e name ≡ Some (value.Reference offset)) }
    {
        if !self.may_have(e, name) {
            return None;
        }
        self.read_reference(e, name)
    }

    // Reads it from the bytes, with a contract on them.
    #[inline(never)]
    fn read_reference(&self, e: EntryNumber, name: u64) -> Option<DebugInfoOffset>
        requires { e < length self.now.entries }
        ensures { IfSome result (λ offset. own_of self.now e name ≡ Some (value.Reference offset)) }
    {
        short_reference_of(&self.asked(e), name)
    }

    /// The offset in `.debug_str` of the string of an attribute of an entry itself, if the attribute has the form `DW_FORM_strp`
    /// and the abbreviation fixes the offset of its value. The call only saves time: None means nothing, and `own` answers in all
    /// cases.
    #[inline(always)]
    pub fn short_text(&self, e: EntryNumber, name: u64) -> Option<DebugStrOffset>
        requires { e < length self.now.entries }
        ensures { IfSome result (λ place. own_of self.now e name ≡ Some (value.StrOffset place)) }
    {
        if !self.may_have(e, name) {
            return None;
        }
        self.read_text(e, name)
    }

    // Reads it from the bytes, with a contract on them.
    #[inline(never)]
    fn read_text(&self, e: EntryNumber, name: u64) -> Option<DebugStrOffset>
        requires { e < length self.now.entries }
        ensures { IfSome result (λ place. own_of self.now e name ≡ Some (value.StrOffset place)) }
    {
        short_text_of(&self.asked(e), name)
    }

    /// The number of units.
    pub fn units_len(&self) -> usize
        ensures { result ≡ length self.now.units }
    {
        self.units.len()
    }

    /// The header of the unit with this number.
    pub fn head(&self, unit: usize) -> Head
        requires { unit < length self.now.units }
        ensures { result ≡ head_at self.now unit }
    {
        self.units[unit]
    }

    /// The root of the unit with this number.
    pub fn root(&self, unit: usize) -> EntryNumber
        requires { unit < length self.now.units }
        ensures root { root_of self.now unit ≡ Some result }
        ensures inside { result < length self.now.entries }
    {
        self.roots[unit]
    }

    // The place where the subtree of the entry at a place ends.
    fn end(&self, e: usize) -> usize
        requires { e < length self.now.entries }
        ensures end { result ≡ end_below self.now e }
        ensures ordered { IsOrdered self.now }
    {
        self.ends[e] as usize
    }

    // A place behind an entry, such that no child that comes after `after` is before it.
    fn start(&self, e: usize, after: Option<usize>) -> usize
        requires { e < length self.now.entries }
        ensures { LooksFrom self.now e after result }
    {
        let end = self.end(e);
        let Some(place) = after else {
            return e + 1;
        };
        if place >= end {
            return end;
        }
        if place > e { self.end(place) } else { e + 1 }
    }

    // The place of the first child of the entry at a place, or of the next one after a place. Takes one step from a child to the
    // next.
    fn next_place(&self, e: usize, after: Option<usize>) -> Option<usize>
        requires { e < length self.now.entries }
        ensures next { result ≡ next_child_of self.now e after }
        ensures child { IfSome result (λ next. Contains (children_of self.now e) next) }
        ensures inside { IfSome result (λ next. next < length self.now.entries) }
        ensures later { IfSome result (λ next. ForSome after (λ place. place < next)) }
    {
        let end = self.end(e);
        let depth = self.depth_at(e);
        let mut next = self.start(e, after);
        'below: while next < end {
            if self.depth_at(next) == depth + 1 {
                return Some(next);
            }
            next = self.end(next);
        }
        None
    }

    // The entry at a place of the list, if there is a place.
    fn at_place(&self, place: Option<usize>) -> Option<EntryNumber>
        requires { IfSome place (λ e. e < length self.now.entries) }
        ensures { result ≡ place }
    {
        self.known();
        match place {
            Some(e) => Some(EntryNumber::new(e as u32)),
            None => None,
        }
    }

    /// The first child of an entry, or the next one after an entry. None exactly where there is no other. Takes one step from a
    /// child to the next.
    pub fn next_child(&self, e: EntryNumber, after: Option<EntryNumber>) -> Option<EntryNumber>
        requires { e < length self.now.entries }
        ensures next { result ≡ next_child_of self.now e after }
        ensures child { IfSome result (λ next. Contains (children_of self.now e) next) }
        ensures inside { IfSome result (λ next. next < length self.now.entries) }
        ensures later { IfSome result (λ next. ForSome after (λ place. place < next)) }
    {
        self.at_place(self.next_place(e.index(), place_of(after)))
    }

    /// The invariants of each tree as a contract: the order of its entries, and a bound on their number. Does nothing.
    pub fn known(&self)
        ensures { IsOrdered self.now }
    {
        let _ = &self.entries;
    }

    // The place of the entry at an offset.
    fn place_of_offset(&self, offset: u64) -> Option<usize>
        ensures found { result ≡ entry_of self.now offset }
        ensures inside { IfSome result (λ e. e < length self.now.entries) }
    {
        let hint = hint_for(&self.hints, offset);
        place_near(self.entries.as_slice(), offset, hint)
    }

    /// The entry at an offset. None exactly where no entry begins there.
    pub fn find(&self, offset: DebugInfoOffset) -> Option<EntryNumber>
        ensures found { result ≡ entry_of self.now offset }
        ensures inside { IfSome result (λ e. e < length self.now.entries) }
    {
        self.at_place(self.place_of_offset(offset.get()))
    }
}
