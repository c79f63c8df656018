// Entries as the tree stores them.
ghost use Rattle.std.specs.Prelude.{◌≡◌};
ghost use Rattle.dwarf_tree.specs.Keeping as spec;

// The form in a slot whose attribute has the form `DW_FORM_implicit_const`, since a slot does not store the constant. No form has
// this number.
pub(crate) const FORM_UNKNOWN: u8 = 0;

// An attribute specification and the offset of its value. The offset is fixed, because all values before it have forms with fixed
// sizes.
#[derive(Clone, Copy)]
pub(crate) struct Slot {
    pub attribute: u8,
    // The form of the value, or `FORM_UNKNOWN`.
    pub form: u8,
    // The offset of the value, from the end of the entry's code.
    pub from: u16,
}

// The shape of entries: what an abbreviation gives for all its entries in one unit, stored once. Almost every unit has
// abbreviations of its own. A unit number in the shape therefore adds few shapes, and saves one in each entry.
#[derive(Clone, Copy)]
pub(crate) struct AbbreviationLayout {
    pub tag: u64,
    // The bits of its attributes. All attributes that readers do not use share one bit.
    pub names: u64,
    // The offset of its attribute specifications in `.debug_abbrev`.
    pub specs_from: u32,
    // Its slots, in the list of all slots: from this index up to `slots_to`.
    pub slots_from: u32,
    pub slots_to: u32,
    // The number of the unit.
    pub unit: u32,
}

// The record of an entry, with the number of its shape.
#[derive(Clone, Copy)]
pub(crate) struct EntryRecord {
    pub offset: u32,
    pub shape: u32,
    pub depth: u32,
}

// An entry without its attributes: they are specified in `.debug_abbrev` at `specs_from`, and their values follow the entry's code.
#[derive(Clone, Copy)]
pub(crate) struct EntryHead {
    pub tag: u64,
    pub offset: u32,
    pub specs_from: u32,
    pub depth: u32,
    pub unit: u32,
    pub names: u64,
}

// A stored entry, completed from its shape.
#[inline(always)]
pub(crate) fn shaped(shape: AbbreviationLayout, stored: EntryRecord) -> EntryHead
    ensures { result ≡ spec.shaped shape stored }
{
    EntryHead {
        tag: shape.tag,
        offset: stored.offset,
        specs_from: shape.specs_from,
        depth: stored.depth,
        unit: shape.unit,
        names: shape.names,
    }
}

// The number of a stored entry's unit.
pub(crate) fn unit_in(shapes: &[AbbreviationLayout], stored: EntryRecord) -> u32
    ensures { result ≡ spec.unit_in shapes.now stored }
{
    match shapes.get(stored.shape as usize) {
        Some(shape) => shape.unit,
        None => 0,
    }
}
