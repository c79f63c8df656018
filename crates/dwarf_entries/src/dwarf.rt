// The debug information of a file.
ghost use Rattle.std.specs.Prelude.{◌≡◌, ◌<◌, None, filter, length, All, Contains, IfErr, IfOk, IfSome, OnOk};
ghost use Rattle.std.specs.Option.{option_copied, option_map_or, ForSome};
ghost use Rattle.abi_base.specs.declared.fault.NoMemory.TheVariants.{Allocation};
ghost use Rattle.abi_base.specs.Outcome.{Judges, OnPast};
ghost use Rattle.dwarf_entries.specs.Limits.{DebugPasses, IsWithinLimits};
ghost use Rattle.dwarf_tree.specs.Trees.{entry_at, own_of, entry_of, children_of, next_child_of, IsOrdered, is_tagged};
ghost use Rattle.dwarf_entries.specs.Debug.{plain_sections, dwarf_of};
ghost use Rattle.dwarf_entries.specs.Chains.{attribute_along, origin_of, signed_of, target_of};
ghost use Rattle.dwarf_entries.specs.Chains as spec;
ghost use Rattle.dwarf_entries.specs.Addresses.{entry_address_of, is_declared_only as only_declares, typed_of};
ghost use Rattle.dwarf_entries.specs.Pass.{dwarf_fault};
ghost use Rattle.dwarf_entries.specs.FlagsAndBlocks.{block_of, flag_value_along};
ghost use Rattle.dwarf_entries.specs.Sound.{AreFaultless};

use crate::addresses::{entry_address, is_declared_only, is_true, part};
use crate::names::name;
use crate::pass::own_fault;
use crate::places::place_of;
use crate::range_bytes::take_for_ranges;
use crate::source::Source;
use crate::typed::entries_by_address;
use abi_base::{NoMemory, Refusal};
use dwarf_forms::{DebugInfoOffset, Sections, Value};
use dwarf_tree::laws::children_stand_one_deeper;
use dwarf_tree::{EntryNumber, read_tree};
use std::alloc::Global;
use std::collections::BTreeMap;
use std::marker::Model;

/// The debug information of a file, in which no entry has a fault. Contracts see it as a `PlainDwarf`. The numbers
/// of its entries are those below `len`.
#[derive(Drop)]
pub struct Dwarf<'a> {
    source: Source<'a>,
    // the first entry at each address
    typed: BTreeMap<u64, EntryNumber>,
}

impl<'a> Model for Dwarf<'a> {
    ghost use Rattle.dwarf_entries.specs.Debug.{PlainDwarf};

    ghost Value = { PlainDwarf };

    ghost use Rattle.dwarf_entries.specs.Whole.{IsWhole};

    ghost view = { λ d. d.source };

    ghost invariant = { λ d. IsWhole d.typed d.source };
}

/// The debug information of a file: all entries of all units, by offset. Err is the first fault in the structure of units and
/// entries or, if there is none, the first fault by offset in the attributes of entries. That a limit is passed is answered only
/// where abbreviation tables, the attributes of a unit or range lists count more than allowed.
#[tactic(auto, using(crate::proofs::LimitLemmas::units_pass), unfolding(crate::specs::Pass::dwarf_fault))]
pub fn tree<'a>(alloc: Global, sections: Sections<'a>) -> Result<Dwarf<'a>, Refusal>
    ensures judged { Judges result (dwarf_fault (plain_sections sections.entry)) }
    ensures read { IfOk result (λ d. d ≡ dwarf_of (plain_sections sections.entry)) }
    ensures within { OnOk result (IsWithinLimits (plain_sections sections.entry)) }
    ensures past { IfErr result (λ e. OnPast e (DebugPasses (plain_sections sections.entry))) }
{
    let entries = match read_tree(alloc, &sections) {
        Ok(entries) => entries,
        Err(refused) => return Err(refused),
    };
    let source = Source::of(alloc, sections, entries)?;
    take_for_ranges(&source)?;
    match own_fault(&source) {
        Some(fault) => return Err(Refusal::Fault(fault)),
        None => {}
    }
    let typed = entries_by_address(alloc, &source)?;
    Ok(Dwarf { source, typed })
}

impl<'a> Dwarf<'a> {
    /// The number of entries.
    pub fn len(&self) -> usize
        ensures { result ≡ length self.now.tree.entries }
    {
        self.source.len()
    }

    /// The offset of an entry in `.debug_info`.
    pub fn offset(&self, e: EntryNumber) -> DebugInfoOffset
        requires { e < length self.now.tree.entries }
        ensures { result ≡ (entry_at self.now.tree e).offset }
    {
        self.source.tree().offset(e)
    }

    /// The tag of an entry, `DW_TAG_..`.
    pub fn tag(&self, e: EntryNumber) -> u64
        requires { e < length self.now.tree.entries }
        ensures { result ≡ (entry_at self.now.tree e).tag }
    {
        self.source.tree().tag(e)
    }

    /// The first child of an entry, or the first one after an entry. None exactly where there is no other.
    pub fn next_child(&self, e: EntryNumber, after: Option<EntryNumber>) -> Option<EntryNumber>
        requires { e < length self.now.tree.entries }
        ensures next { result ≡ next_child_of self.now.tree e after }
        ensures child { IfSome result (λ next. Contains (children_of self.now.tree e) next) }
        ensures inside { IfSome result (λ next. next < length self.now.tree.entries) }
        ensures later { IfSome result (λ next. ForSome after (λ child. child < next)) }
    {
        self.source.tree().next_child(e, after)
    }

    /// The children of an entry with a tag, in order.
    pub fn tagged(
        &self,
        alloc: Global,
        e: EntryNumber,
        tag: u64,
    ) -> Result<Vec<EntryNumber>, NoMemory>
        requires { e < length self.now.tree.entries }
        ensures children { IfOk result (λ list. list.items
            ≡ filter (is_tagged self.now.tree tag) (children_of self.now.tree e)) }
        ensures inside { IfOk result (λ list. All (λ child. child < length self.now.tree.entries) list.items) }
        ensures named { IfErr result (λ e. e ≡ Allocation) }
    {
        children_stand_one_deeper();
        self.source.tree().tagged(alloc, e, tag)
    }

    /// The invariants of all debug information that was read, as a contract: its sections have no fault, and it is that of its
    /// sections. Offsets of its entries ascend, and none is 0. There are fewer than 2^32 entries, none with a fault. Does nothing.
    pub fn known(&self)
        ensures faultless { dwarf_fault self.now.sections ≡ None }
        ensures read { self.now ≡ dwarf_of self.now.sections }
        ensures ordered { IsOrdered self.now.tree }
        ensures entries { AreFaultless self.now }
    {
        self.source.tree().known();
    }

    /// The first value of an attribute of an entry itself, or None where it has none.
    pub fn own(&self, e: EntryNumber, name: u64) -> Option<Value>
        requires { e < length self.now.tree.entries }
        ensures { result ≡ own_of self.now.tree e name }
    {
        self.source.tree().own(e, name)
    }

    /// The entry at an offset. None exactly where no entry begins there.
    pub fn find(&self, offset: DebugInfoOffset) -> Option<EntryNumber>
        ensures found { result ≡ entry_of self.now.tree offset }
        ensures inside { IfSome result (λ e. e < length self.now.tree.entries) }
    {
        self.source.tree().find(offset)
    }

    /// The entry to which a value refers: the one at its offset, or the type entry of the first type unit with its signature. None
    /// exactly where there is no such entry, and where the value is not a reference.
    pub fn target(&self, value: &Value) -> Option<EntryNumber>
        ensures found { result ≡ target_of self.now.tree value.now }
        ensures inside { IfSome result (λ e. e < length self.now.tree.entries) }
    {
        self.source.links().target(value)
    }

    /// The value of an attribute of an entry, its own or inherited. The chain of inheritance follows
    /// `DW_AT_abstract_origin`, or else `DW_AT_specification`. `DW_AT_low_pc`, `DW_AT_ranges`, `DW_AT_entry_pc`,
    /// `DW_AT_location` and `DW_AT_declaration` apply to the entry itself, and are not inherited.
    #[inline(always)]
    pub fn attr(&self, e: EntryNumber, name: u64) -> Option<Value>
        requires { e < length self.now.tree.entries }
        ensures { result ≡ attribute_along self.now.tree e name }
    {
        self.source.links().attr(e, name)
    }

    /// The entry to which the value of an attribute refers: `target` of `attr`, but faster. None exactly where there is no such
    /// value, or it refers to no entry.
    pub fn attr_target(&self, e: EntryNumber, name: u64) -> Option<EntryNumber>
        requires { e < length self.now.tree.entries }
        ensures found { result ≡ option_map_or (target_of self.now.tree) (attribute_along self.now.tree e name) None }
        ensures inside { IfSome result (λ f. f < length self.now.tree.entries) }
    {
        self.source.links().attr_target(e, name)
    }

    /// Whether an entry has a flag that is set, its own or inherited. A value of another class does not count.
    pub fn flag_value(&self, e: EntryNumber, name: u64) -> bool
        requires { e < length self.now.tree.entries }
        ensures { result ≡ flag_value_along self.now.tree e name }
    {
        is_true(self.attr(e, name))
    }

    /// Whether an entry itself has a flag that marks it as a declaration. A value of another class does not count.
    pub fn is_declaration(&self, e: EntryNumber) -> bool
        requires { e < length self.now.tree.entries }
        ensures { result ≡ only_declares self.now.tree e }
    {
        is_declared_only(self.source.tree(), e)
    }

    /// The bytes of a block or an expression, borrowed from the file. None exactly where the value is neither.
    pub fn block(&self, value: &Value) -> Option<&'a [u8]>
        ensures { option_copied result ≡ block_of self.now.sections.info value.now }
    {
        match *value {
            Value::Block { from, to } => Some(part(self.info(), from, to)),
            _ => None,
        }
    }

    /// The last entry of an entry's chain, which is the entry itself where it has no links.
    pub fn origin(&self, e: EntryNumber) -> EntryNumber
        requires { e < length self.now.tree.entries }
        ensures found { result ≡ origin_of self.now.tree e }
        ensures inside { result < length self.now.tree.entries }
    {
        self.source.links().origin(e)
    }

    /// The name of an entry, its own or inherited, as bytes of the file without the 0 byte. None exactly where no entry of the
    /// chain has a name, or the first name is not a string and belongs to an entry with an unsupported tag.
    pub fn name_of(&self, e: EntryNumber) -> Option<&'a [u8]>
        requires { e < length self.now.tree.entries }
        ensures { option_copied result ≡ spec.name_of self.now e }
    {
        name(&self.source, e)
    }

    /// The address of a function's entry point or of a variable, from the attributes of the entry itself. None exactly where they
    /// give no address or have a fault.
    pub fn entry_address(&self, e: EntryNumber) -> Option<u64>
        requires { e < length self.now.tree.entries }
        ensures { result ≡ entry_address_of self.now e }
    {
        entry_address(&self.source, e)
    }

    /// The bytes of `.debug_info`.
    pub fn info(&self) -> &'a [u8]
        ensures { result.now ≡ self.now.sections.info }
    {
        self.source.sections().info
    }

    /// The first entry at an address: a function or a variable directly in its unit, not a declaration, in a unit that is not
    /// written in assembler.
    pub fn typed(&self, address: u64) -> Option<EntryNumber>
        ensures found { result ≡ typed_of self.now address }
        ensures inside { IfSome result (λ e. e < length self.now.tree.entries) }
    {
        place_of(&self.typed, address)
    }

    /// The type entry of the first type unit with a signature. None exactly where no unit has it.
    pub fn by_signature(&self, signature: u64) -> Option<EntryNumber>
        ensures found { result ≡ signed_of self.now.tree signature }
        ensures inside { IfSome result (λ e. e < length self.now.tree.entries) }
    {
        self.source.links().by_signature(signature)
    }
}
