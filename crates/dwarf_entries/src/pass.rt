// The faults in the attributes of entries.
ghost use Rattle.std.specs.Prelude.{◌≡◌, ◌<◌, [], ◌∷◌, true, false, length, map, None};
ghost use Rattle.std.specs.Option.{option_copied, option_or};
ghost use Rattle.abi_base.specs.Outcome.{first};
ghost use Rattle.abi_base.specs.declared.fault.FaultKind.TheVariants as kind;
ghost use Rattle.dwarf_entries.specs.Pass.{of_kind as if_of_kind, name_fault as fault_of_name, entry_pc_address as address_of_entry_pc, ranges_fault as fault_of_ranges, address_faults, function_faults, refers_nowhere as leads_nowhere, is_signed as has_signature, lacks_unit as has_no_unit, has_bad_reference as refers_badly, entry_rows, entry_fault as fault_of_entry, own_fault as fault_of_entries};
ghost use Rattle.dwarf_text.specs.Texts as spec;
ghost use Rattle.dwarf_entries.specs.Chains.{link_by};
ghost use Rattle.dwarf_tree.specs.Trees.{own_of};
ghost use Rattle.dwarf_entries.specs.Rows.{are_addresses_asked, name_rows, reference_rows, rows_behind_name};
ghost use Rattle.abi_base.specs.Dwarf.{dw_at_abstract_origin, dw_at_specification, dw_at_type};

use crate::addresses::{address_where_there, first_range, is_defined, low_pc, variable_address};
use crate::constants::ROOT;
use crate::link::Link;
use crate::links::Links;
use crate::source::Source;
use crate::tags::is_read_tag;
use abi_base::dwarf::{
    DW_AT_abstract_origin, DW_AT_entry_pc, DW_AT_low_pc, DW_AT_name, DW_AT_signature,
    DW_AT_specification, DW_AT_type, DW_TAG_enumeration_type, DW_TAG_structure_type,
    DW_TAG_subprogram, DW_TAG_union_type,
};
use abi_base::{Fault, FaultKind};
use dwarf_forms::Value;
use dwarf_tree::{EntryNumber, Tree};

// The first fault of each kind that addresses can have.
#[derive(Clone, Copy)]
struct AddressFaults {
    index: Option<Fault>,
    ranges: Option<Fault>,
}

// The fault of what was read, if any.
fn fault_of(read: Result<Option<u64>, Fault>) -> Option<Fault>
    ensures { result ≡ spec.fault_of read }
{
    match read {
        Ok(_) => None,
        Err(fault) => Some(fault),
    }
}

// The fault, if it has this kind.
fn of_kind(kind: FaultKind, fault: Option<Fault>) -> Option<Fault>
    ensures { result ≡ if_of_kind kind fault }
{
    match fault {
        Some(fault) => {
            if fault.kind.number() == kind.number() {
                Some(fault)
            } else {
                None
            }
        }
        None => None,
    }
}

// Whether an entry's own name is a string of `.debug_str`, as for most entries. Then the name has no fault; otherwise nothing
// follows. The call only saves time: `name_fault` answers in all cases.
#[inline(always)]
#[tactic(auto, using(crate::proofs::TextLemmas::short_sound))]
fn has_short_name(source: &Source, e: EntryNumber) -> bool
    requires { e < length source.now.tree.entries }
    ensures { result ≡ true → fault_of_name source.now e ≡ None }
{
    match source.tree().short_text(e, DW_AT_name) {
        Some(place) => source.has_str_text(place.get()),
        None => false,
    }
}

// The fault of an entry's own name.
fn name_fault(source: &Source, e: EntryNumber) -> Option<Fault>
    requires { e < length source.now.tree.entries }
    ensures { result ≡ fault_of_name source.now e }
{
    match source.tree().own(e, DW_AT_name) {
        Some(value) => source.text_fault(e, &value),
        None => None,
    }
}

// The first of the rows on an entry's name, if its kind is `Text` or `Index`.
fn name_row(source: &Source, e: EntryNumber) -> Option<Fault>
    requires { e < length source.now.tree.entries }
    ensures { result ≡ first (name_rows source.now e) }
{
    if has_short_name(source, e) {
        return None;
    }
    let name = name_fault(source, e);
    if name.is_none() {
        return None;
    }
    of_kind(FaultKind::Text, name).or(of_kind(FaultKind::Index, name))
}

// The value of `DW_AT_entry_pc`, if it is an address.
fn entry_pc_address(value: Option<Value>) -> Option<Value>
    ensures { result ≡ address_of_entry_pc value }
{
    match value {
        Some(Value::Address(_)) => value,
        Some(Value::AddressIndex(_)) => value,
        _ => None,
    }
}

// The fault of the ranges, which count only where there is no `DW_AT_low_pc`.
fn ranges_fault(source: &Source, e: EntryNumber) -> Option<Fault>
    requires { e < length source.now.tree.entries }
    ensures { result ≡ fault_of_ranges source.now e }
{
    if source.tree().own(e, DW_AT_low_pc).is_some() {
        return None;
    }
    fault_of(first_range(source, e))
}

// No faults.
const NO_FAULTS: AddressFaults = AddressFaults {
    index: None,
    ranges: None,
};

impl AddressFaults {
    // These faults, and one more.
    fn with(self, fault: Option<Fault>) -> AddressFaults
        ensures index { result.index ≡ option_or self.index (if_of_kind kind.Index fault) }
        ensures ranges { result.ranges ≡ option_or self.ranges (if_of_kind kind.Ranges fault) }
    {
        AddressFaults {
            index: self.index.or(of_kind(FaultKind::Index, fault)),
            ranges: self.ranges.or(of_kind(FaultKind::Ranges, fault)),
        }
    }
}

// The faults of all attributes that determine the address of a function.
#[tactic(auto, using(crate::proofs::PassLemmas::first_three))]
fn faults_of_function(source: &Source, e: EntryNumber) -> AddressFaults
    requires { e < length source.now.tree.entries }
    ensures index { result.index ≡ first (map (if_of_kind kind.Index) (function_faults source.now e)) }
    ensures ranges { result.ranges ≡ first (map (if_of_kind kind.Ranges) (function_faults source.now e)) }
{
    let low = fault_of(low_pc(source, e));
    let ranges = ranges_fault(source, e);
    let entry_pc = entry_pc_address(source.tree().own(e, DW_AT_entry_pc));
    let entry = fault_of(address_where_there(source, e, entry_pc));
    NO_FAULTS.with(low).with(ranges).with(entry)
}

// Whether an entry has addresses to check. Most entries have none.
fn has_addresses(tree: &Tree<'_>, e: EntryNumber) -> bool
    requires { e < length tree.now.entries }
    ensures { result ≡ are_addresses_asked tree.now e }
{
    tree.depth(e) == ROOT || is_defined(tree, e)
}

// The faults of the addresses of an entry.
#[tactic(auto, unfolding(crate::specs::Pass::address_faults))]
fn faults_of_addresses(source: &Source, e: EntryNumber) -> AddressFaults
    requires inside { e < length source.now.tree.entries }
    requires asked { are_addresses_asked source.now.tree e ≡ true }
    ensures index { result.index ≡ first (map (if_of_kind kind.Index) (address_faults source.now e)) }
    ensures ranges { result.ranges ≡ first (map (if_of_kind kind.Ranges) (address_faults source.now e)) }
{
    let tree = source.tree();
    if tree.depth(e) == ROOT {
        return NO_FAULTS.with(fault_of(low_pc(source, e)));
    }
    if tree.tag(e) == DW_TAG_subprogram {
        return faults_of_function(source, e);
    }
    NO_FAULTS.with(fault_of(variable_address(source, e)))
}

// Whether an entry's own attribute refers to no entry.
#[inline(always)]
fn refers_nowhere(links: &Links<'_>, e: EntryNumber, name: u64) -> bool
    requires { e < length links.now.entries }
    ensures { result ≡ leads_nowhere links.now (own_of links.now e name) }
{
    if let Some(offset) = links.tree().short_reference(e, name) {
        return links.tree().find(offset).is_none();
    }
    match links.own(e, name) {
        Some(value) => links.target(&value).is_none(),
        None => false,
    }
}

// Whether an entry with a tag may be defined in a type unit, by signature.
fn is_signed(tag: u64) -> bool
    ensures { result ≡ has_signature tag }
{
    tag == DW_TAG_structure_type || tag == DW_TAG_union_type || tag == DW_TAG_enumeration_type
}

// Whether a value is a signature that no type unit has.
fn lacks_unit(links: &Links<'_>, value: Option<Value>) -> bool
    ensures { result ≡ has_no_unit links.now value }
{
    match value {
        Some(Value::Signature(signature)) => links.by_signature(signature).is_none(),
        _ => false,
    }
}

// Whether an attribute of an entry refers to no entry, given the entry's own two links.
#[tactic(auto, unfolding(crate::specs::Pass::has_bad_reference), using(crate::proofs::PassLemmas::nowhere_by_link))]
fn has_bad_reference(links: &Links<'_>, e: EntryNumber, origin: &Link, specification: &Link) -> bool
    requires inside { e < length links.now.entries }
    requires origin { origin.now ≡ link_by links.now e dw_at_abstract_origin }
    requires specification { specification.now ≡ link_by links.now e dw_at_specification }
    ensures { result ≡ refers_badly links.now e }
{
    if refers_nowhere(links, e, DW_AT_type) {
        return true;
    }
    if origin.is_nowhere() {
        return true;
    }
    if specification.is_nowhere() {
        return true;
    }
    if !is_signed(links.tree().tag(e)) {
        return false;
    }
    lacks_unit(links, links.own(e, DW_AT_signature))
}

// Whether an entry has no type of its own, or has one that exists, by a short reference. False means nothing: the call only saves
// time, and `refers_nowhere` answers in all cases.
#[inline(always)]
fn has_plain_type(links: &Links<'_>, e: EntryNumber) -> bool
    requires { e < length links.now.entries }
    ensures { result ≡ true → leads_nowhere links.now (own_of links.now e dw_at_type) ≡ false }
{
    let tree = links.tree();
    if !tree.may_have(e, DW_AT_type) {
        return true;
    }
    match tree.short_reference(e, DW_AT_type) {
        Some(offset) => tree.find(offset).is_some(),
        None => false,
    }
}

// Whether an entry has no link and no signature, and its type exists, as for most entries. Then none of its references has a fault.
// False means nothing: the call only saves time, and `linked_row` answers in all cases.
#[inline(always)]
#[tactic(auto, using(crate::proofs::PassLemmas::plain_rows))]
fn refers_plainly(links: &Links<'_>, e: EntryNumber) -> bool
    requires { e < length links.now.entries }
    ensures { result ≡ true → first (reference_rows links.now e) ≡ None }
{
    let tree = links.tree();
    if tree.may_have(e, DW_AT_abstract_origin) {
        return false;
    }
    if tree.may_have(e, DW_AT_specification) {
        return false;
    }
    if tree.may_have(e, DW_AT_signature) {
        return false;
    }
    has_plain_type(links, e)
}

// The first of the rows on an entry's references, link by link.
#[inline(never)]
#[tactic(auto, using(crate::proofs::PassLemmas::deep_by_links))]
fn linked_row(links: &Links<'_>, e: EntryNumber) -> Option<Fault>
    requires { e < length links.now.entries }
    ensures { result ≡ first (reference_rows links.now e) }
{
    let origin = links.link_by(e, DW_AT_abstract_origin);
    let specification = links.link_by(e, DW_AT_specification);
    if has_bad_reference(links, e, &origin, &specification) {
        return Some(Fault {
            kind: FaultKind::Reference,
            at: links.tree().offset(e).get(),
        });
    }
    if links.is_too_deep(origin, specification) {
        return Some(Fault {
            kind: FaultKind::OriginTooDeep,
            at: links.tree().offset(e).get(),
        });
    }
    None
}

// The first of the rows on an entry's references.
#[inline(always)]
fn reference_row(links: &Links<'_>, e: EntryNumber) -> Option<Fault>
    requires { e < length links.now.entries }
    ensures { result ≡ first (reference_rows links.now e) }
{
    if refers_plainly(links, e) {
        return None;
    }
    linked_row(links, e)
}

// The first of the rows after the one on the name, for an entry with addresses.
fn row_with_addresses(source: &Source, e: EntryNumber) -> Option<Fault>
    requires inside { e < length source.now.tree.entries }
    requires asked { are_addresses_asked source.now.tree e ≡ true }
    ensures { result ≡ first (rows_behind_name source.now e) }
{
    let addresses = faults_of_addresses(source, e);
    if let Some(fault) = addresses.index {
        return Some(fault);
    }
    if let Some(fault) = reference_row(source.links(), e) {
        return Some(fault);
    }
    addresses.ranges
}

// The first of the rows after the one on the name.
#[tactic(auto, using(crate::proofs::PassLemmas::without_addresses))]
fn row_behind_name(source: &Source, e: EntryNumber) -> Option<Fault>
    requires { e < length source.now.tree.entries }
    ensures { result ≡ first (rows_behind_name source.now e) }
{
    if has_addresses(source.tree(), e) {
        row_with_addresses(source, e)
    } else {
        reference_row(source.links(), e)
    }
}

// The first of the rows of an entry with a supported tag.
#[tactic(auto, using(crate::proofs::PassLemmas::name_sound))]
fn first_row(source: &Source, e: EntryNumber) -> Option<Fault>
    requires { e < length source.now.tree.entries }
    ensures { result ≡ first (entry_rows source.now e) }
{
    match name_row(source, e) {
        Some(fault) => Some(fault),
        None => row_behind_name(source, e),
    }
}

// An entry's own fault.
#[tactic(auto, unfolding(crate::specs::Pass::entry_fault))]
fn entry_fault(source: &Source, e: EntryNumber) -> Option<Fault>
    requires { e < length source.now.tree.entries }
    ensures { result ≡ fault_of_entry source.now e }
{
    if is_read_tag(source.tree().tag(e)) {
        first_row(source, e)
    } else {
        None
    }
}

// The fault of the entry with a number.
fn fault_of_number(source: &Source, number: usize) -> Option<Fault>
    requires { number < length source.now.tree.entries }
    ensures { result ≡ fault_of_entry source.now number }
{
    source.tree().known();
    entry_fault(source, EntryNumber::new(number as u32))
}

// The first fault of entries.
#[tactic(auto, unfolding(crate::specs::Pass::own_fault))]
pub(crate) fn own_fault(source: &Source) -> Option<Fault>
    ensures { result ≡ fault_of_entries source.now }
{
    for e in 0..source.len() {
        match fault_of_number(source, e) {
            Some(fault) => return Some(fault),
            None => {}
        }
    }
    None
}
