// The tree of entries, and the references between its entries.
ghost use Rattle.std.specs.Prelude.{◌≡◌, ◌<◌, Some, None, length, is_some, find, IfErr, IfSome, IfOk};
ghost use Rattle.abi_base.specs.declared.fault.NoMemory.TheVariants.{Allocation};
ghost use Rattle.std.specs.Option.{option_map, option_map_or};
ghost use Rattle.abi_base.specs.Limits.{chain_limit};
ghost use Rattle.dwarf_tree.specs.Trees.{PlainTree, entry_at, head_at, own_of, entry_of};
ghost use Rattle.dwarf_entries.specs.Places.{HoldUnits};
ghost use Rattle.dwarf_entries.specs.Chains.{signed_of, target_of, link_of, linked, either_link, after_links, chain_within, holder_of, attribute_along, origin_of};
ghost use Rattle.dwarf_entries.specs.Chains as spec;

use crate::attributes::is_own_attribute;
use crate::constants::CHAIN_LINKS;
use crate::link::Link;
use crate::places::{keep_first, place_of};
use crate::tags::is_read_tag;
use abi_base::NoMemory;
use abi_base::dwarf::{DW_AT_abstract_origin, DW_AT_specification};
use dwarf_forms::Value;
use dwarf_tree::{EntryNumber, Tree};
use std::alloc::Global;
use std::collections::BTreeMap;
use std::marker::Model;

// A tree, with the first unit of each signature. Contracts see it as the tree.
#[derive(Drop)]
pub(crate) struct Links<'a> {
    tree: Tree<'a>,
    signed: BTreeMap<u64, usize>,
}

impl<'a> Model for Links<'a> {
    ghost use Rattle.dwarf_tree.specs.Trees.{PlainTree};

    ghost Value = { PlainTree };

    ghost use Rattle.dwarf_entries.specs.Places.{HoldUnits};

    ghost view = { λ l. l.tree };

    ghost invariant = { λ l. HoldUnits l.signed l.tree };
}

impl<'a> Links<'a> {
    // The links of a tree.
    pub(crate) fn of(alloc: Global, tree: Tree<'a>) -> Result<Links<'a>, NoMemory>
        ensures links { IfOk result (λ l. l ≡ tree.entry) }
        ensures named { IfErr result (λ e. e ≡ Allocation) }
    {
        let signed = units_by_signature(alloc, &tree)?;
        Ok(Links { tree, signed })
    }

    // The tree itself.
    pub(crate) fn tree(&self) -> &Tree<'a>
        ensures { result.now ≡ self.now }
    {
        &self.tree
    }

    // The first value of an attribute of an entry itself.
    pub(crate) fn own(&self, e: EntryNumber, name: u64) -> Option<Value>
        requires { e < length self.now.entries }
        ensures { result ≡ own_of self.now e name }
    {
        self.tree.own(e, name)
    }

    // The type entry of the type unit with a signature.
    pub(crate) fn by_signature(&self, signature: u64) -> Option<EntryNumber>
        ensures found { result ≡ signed_of self.now signature }
        ensures inside { IfSome result (λ e. e < length self.now.entries) }
    {
        match place_of(&self.signed, signature) {
            Some(unit) => self.tree.find(self.tree.head(unit).type_entry),
            None => None,
        }
    }

    // The entry to which a value refers.
    pub(crate) fn target(&self, value: &Value) -> Option<EntryNumber>
        ensures found { result ≡ target_of self.now value.now }
        ensures inside { IfSome result (λ e. e < length self.now.entries) }
    {
        match *value {
            Value::Reference(offset) => self.tree.find(offset),
            Value::Signature(signature) => self.by_signature(signature),
            _ => None,
        }
    }

    // The link that an attribute makes, to an entry or nowhere.
    #[inline(always)]
    fn link_to(&self, target: Option<EntryNumber>) -> Link
        requires { IfSome target (λ f. f < length self.now.entries) }
        ensures found { result ≡ spec.link_to self.now target }
        ensures inside { IfSome (linked result) (λ f. f < length self.now.entries) }
    {
        match target {
            Some(to) => {
                if is_read_tag(self.tree.tag(to)) {
                    Link::To(to)
                } else {
                    Link::Missing
                }
            }
            None => Link::Nowhere,
        }
    }

    // The link that an attribute of an entry makes. The entry may have the attribute.
    #[inline(never)]
    fn read_link(&self, e: EntryNumber, name: u64) -> Link
        requires { e < length self.now.entries }
        ensures found { result ≡ spec.link_by self.now e name }
        ensures inside { IfSome (linked result) (λ f. f < length self.now.entries) }
    {
        if let Some(offset) = self.tree.short_reference(e, name) {
            return self.link_to(self.tree.find(offset));
        }
        match self.tree.own(e, name) {
            Some(value) => self.link_to(self.target(&value)),
            None => Link::Missing,
        }
    }

    // The link that an attribute of an entry makes. Inlined into its callers, since most entries lack the attribute.
    #[inline(always)]
    pub(crate) fn link_by(&self, e: EntryNumber, name: u64) -> Link
        requires { e < length self.now.entries }
        ensures found { result ≡ spec.link_by self.now e name }
        ensures inside { IfSome (linked result) (λ f. f < length self.now.entries) }
    {
        if self.tree.may_have(e, name) {
            self.read_link(e, name)
        } else {
            Link::Missing
        }
    }

    // The next entry of the chain.
    #[inline(always)]
    #[tactic(auto, unfolding(crate::specs::Chains::link_of))]
    fn link(&self, e: EntryNumber) -> Option<EntryNumber>
        requires { e < length self.now.entries }
        ensures found { result ≡ link_of self.now e }
        ensures inside { IfSome result (λ f. f < length self.now.entries) }
    {
        match self.link_by(e, DW_AT_abstract_origin) {
            Link::To(to) => Some(to),
            Link::Nowhere => None,
            Link::Missing => self.link_by(e, DW_AT_specification).entry(),
        }
    }

    // Whether an entry has a next entry after this many links.
    fn leads_on(&self, e: EntryNumber, links: usize) -> bool
        requires { e < length self.now.entries }
        ensures { result ≡ is_some (after_links self.now e links) }
    {
        let mut at = e;
        'chain: for followed in 0..links {
            match self.link(at) {
                Some(to) => at = to,
                None => return false,
            }
        }
        true
    }

    // Whether the chain of an entry has more links than the limit, given the entry's own two links.
    pub(crate) fn is_too_deep(&self, origin: Link, specification: Link) -> bool
        requires origin { IfSome (linked origin) (λ f. f < length self.now.entries) }
        requires specification { IfSome (linked specification) (λ f. f < length self.now.entries) }
        ensures { result ≡ is_some (option_map_or (λ f. after_links self.now f chain_limit)
            (either_link origin specification) None) }
    {
        match origin.entry_or(specification) {
            Some(to) => self.leads_on(to, CHAIN_LINKS),
            None => false,
        }
    }

    // The last entry of the chain.
    pub(crate) fn origin(&self, e: EntryNumber) -> EntryNumber
        requires { e < length self.now.entries }
        ensures found { result ≡ origin_of self.now e }
        ensures inside { result < length self.now.entries }
    {
        let mut at = e;
        'chain: for followed in 0..CHAIN_LINKS {
            match self.link(at) {
                Some(to) => at = to,
                None => return at,
            }
        }
        at
    }

    // The first of this many entries of the chain that has an attribute, and its value.
    #[inline(never)]
    fn held_within(&self, e: EntryNumber, entries: usize, name: u64) -> Option<(EntryNumber, Value)>
        requires { e < length self.now.entries }
        ensures holder { option_map (λ held. held.0) result
            ≡ find (λ f. is_some (own_of self.now f name)) (chain_within self.now e entries) }
        ensures value { IfSome result (λ held. own_of self.now held.0 name ≡ Some held.1) }
        ensures inside { IfSome result (λ held. held.0 < length self.now.entries) }
    {
        let mut at = e;
        'chain: for followed in 0..entries {
            match self.own(at, name) {
                Some(value) => return Some((at, value)),
                None => match self.link(at) {
                    Some(to) => at = to,
                    None => return None,
                },
            }
        }
        None
    }

    // The first entry of the chain that has an attribute, and its value, where the entry itself lacks the attribute. Inlined into
    // its callers, since most entries have no link.
    #[inline(always)]
    fn held_behind(&self, e: EntryNumber, name: u64) -> Option<(EntryNumber, Value)>
        requires inside { e < length self.now.entries }
        requires lacks { own_of self.now e name ≡ None }
        ensures holder { option_map (λ held. held.0) result ≡ holder_of self.now e name }
        ensures value { IfSome result (λ held. own_of self.now held.0 name ≡ Some held.1) }
        ensures inside { IfSome result (λ held. held.0 < length self.now.entries) }
    {
        match self.link(e) {
            Some(to) => self.held_within(to, CHAIN_LINKS, name),
            None => None,
        }
    }

    // The first entry of the chain that has an attribute, and its value.
    #[tactic(auto, using(crate::proofs::ChainLemmas::holder_here))]
    pub(crate) fn held(&self, e: EntryNumber, name: u64) -> Option<(EntryNumber, Value)>
        requires { e < length self.now.entries }
        ensures holder { option_map (λ held. held.0) result ≡ holder_of self.now e name }
        ensures value { IfSome result (λ held. own_of self.now held.0 name ≡ Some held.1) }
        ensures inside { IfSome result (λ held. held.0 < length self.now.entries) }
    {
        match self.own(e, name) {
            Some(value) => Some((e, value)),
            None => self.held_behind(e, name),
        }
    }

    // The value of an attribute of an entry: its own if the attribute is not inherited, else that of the chain.
    #[inline(always)]
    #[tactic(auto, using(crate::proofs::ChainLemmas::along_here))]
    pub(crate) fn attr(&self, e: EntryNumber, name: u64) -> Option<Value>
        requires { e < length self.now.entries }
        ensures { result ≡ attribute_along self.now e name }
    {
        if let Some(value) = self.tree.own(e, name) {
            return Some(value);
        }
        if is_own_attribute(name) {
            return None;
        }
        match self.held_behind(e, name) {
            Some((_, value)) => Some(value),
            None => None,
        }
    }

    // The entry to which the value of an attribute refers, where the value is that of `attr`.
    #[tactic(auto, using(crate::proofs::ChainLemmas::along_here))]
    pub(crate) fn attr_target(&self, e: EntryNumber, name: u64) -> Option<EntryNumber>
        requires { e < length self.now.entries }
        ensures found { result ≡ option_map_or (target_of self.now) (attribute_along self.now e name) None }
        ensures inside { IfSome result (λ f. f < length self.now.entries) }
    {
        if let Some(offset) = self.tree.short_reference(e, name) {
            return self.tree.find(offset);
        }
        match self.attr(e, name) {
            Some(value) => self.target(&value),
            None => None,
        }
    }
}

// The first unit of each signature.
fn units_by_signature(alloc: Global, tree: &Tree<'_>) -> Result<BTreeMap<u64, usize>, NoMemory>
    ensures units { IfOk result (λ places. HoldUnits places tree.now) }
    ensures named { IfErr result (λ e. e ≡ Allocation) }
{
    let mut places = BTreeMap::new(alloc);
    for unit in 0..tree.units_len() {
        let head = tree.head(unit);
        keep_first(&mut places, head.signature, unit)?;
    }
    Ok(places)
}
