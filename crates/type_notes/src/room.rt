// A limit on notes. Types can share their names and parts, types can meet in all pairs, and a path is as long as the chain along
// which it goes, so notes on a small file can take far more work and text than it has bytes. The names and parts from which a text
// is made are counted before the text is made.
ghost use Rattle.std.specs.Prelude.{◌≡◌, ◌<◌, length, All, IfErr, IfSome};
ghost use Rattle.abi_base.specs.declared.fault.NoMemory.TheVariants.{Past};
ghost use Rattle.abi_base.specs.declared.limit.Limit.TheVariants.{Notes};

use crate::chain::{ENTRIES, core_at};
use crate::definition_texts::parts_of;
use crate::difference::Difference;
use crate::elsewhere::Kin;
use crate::noted_pair::NotedPair;
use abi_base::dwarf::{
    DW_TAG_enumerator, DW_TAG_formal_parameter, DW_TAG_member, DW_TAG_subrange_type,
};
use abi_base::{Budget, Limit, NoMemory};
use abi_types::{Graph, Index, Label};
use dwarf_entries::Dwarf;
use dwarf_forms::DebugInfoOffset;
use dwarf_tree::EntryNumber;
use pair_explorer::Visit;
use std::alloc::Global;
use type_reach::{body_of, type_of};

// What a part, a name or a step of a chain takes besides its letters.
const PART: usize = 32;

// What each child takes, whatever its tag, since it is passed over more than once.
const CHILD: usize = 4;

// What a note takes besides its texts.
const NOTE: usize = 128;

// The number of parts of a type.
fn parts_in<Ix: Index>(graph: &Graph<Ix>, ix: Ix) -> usize
    requires { Ix.number_of ix < length graph.now }
{
    graph.view(ix).parts_len()
}

/// The memory of the notes, and the budget for the bytes of their names and texts. The notes on two builds of one source take less
/// than one byte for each byte of the files.
#[derive(Drop)]
pub(crate) struct NoteRoom {
    /// The allocator of the notes.
    pub alloc: Global,
    budget: Budget,
    ghost counts_notes: { budget.limit ≡ Notes },
}

impl NoteRoom {
    /// The room for the notes on two libraries, by the sizes of their files.
    pub(crate) fn beside(alloc: Global, ground: &NotedPair) -> NoteRoom {
        let old = ground.pair.old.file().len();
        let new = ground.pair.new.file().len();
        NoteRoom {
            alloc,
            budget: Budget::of_many(Limit::Notes, old.saturating_add(new)),
        }
    }

    // Takes this many bytes. It fails where fewer are left, and names the limit.
    fn take(&mut self, bytes: usize) -> Result<(), NoMemory>
        ensures { IfErr result (λ e. e ≡ Past Notes) }
    {
        self.budget.take(bytes)
    }

    /// Takes the letters of a name. It fails where less room is left, and names the limit.
    pub(crate) fn take_letters(&mut self, name: &[u8]) -> Result<(), NoMemory>
        ensures { IfErr result (λ e. e ≡ Past Notes) }
    {
        self.take(name.len())
    }

    // Takes a name, and a fixed amount for the part or type that it names.
    fn take_name(&mut self, name: Option<&[u8]>) -> Result<(), NoMemory> {
        let letters = name.unwrap_or(&[]).len();
        self.take(letters.saturating_add(PART))
    }

    // Takes the names of the children with a tag.
    fn take_tagged(&mut self, dwarf: &Dwarf, e: EntryNumber, tag: u64) -> Result<(), NoMemory>
        requires { e < length dwarf.now.tree.entries }
    {
        let children = dwarf.tagged(self.alloc, e, tag)?;
        for k in 0..children.len() {
            self.take_name(dwarf.name_of(children[k]))?;
        }
        Ok(())
    }

    // Takes the children of an entry, whatever their tags: those with a tag are found by passing over all of them.
    fn take_children(&mut self, dwarf: &Dwarf, e: EntryNumber) -> Result<(), NoMemory>
        requires { e < length dwarf.now.tree.entries }
    {
        let mut next = dwarf.next_child(e, None);
        'children: while let Some(child) = next {
            self.take(CHILD)?;
            next = dwarf.next_child(e, Some(child));
        }
        Ok(())
    }

    // Takes the parameters, members, enumerators and dimensions of an entry.
    fn take_entry(&mut self, dwarf: &Dwarf, e: EntryNumber) -> Result<(), NoMemory>
        requires { e < length dwarf.now.tree.entries }
    {
        let body = body_of(dwarf, e);
        if body != e {
            self.take_children(dwarf, body)?;
        }
        self.take_children(dwarf, e)?;
        self.take_tagged(dwarf, body, DW_TAG_formal_parameter)?;
        self.take_tagged(dwarf, e, DW_TAG_member)?;
        self.take_tagged(dwarf, e, DW_TAG_enumerator)?;
        self.take_tagged(dwarf, e, DW_TAG_subrange_type)
    }

    // Takes the names of a type.
    fn take_labels(&mut self, labels: &[Label]) -> Result<(), NoMemory> {
        for label in labels {
            self.take(label.name.len().saturating_add(PART))?;
        }
        Ok(())
    }

    // Takes a type: its names, and the parts of the entry behind it.
    fn take_type<Ix: Index>(
        &mut self,
        dwarf: &Dwarf,
        graph: &Graph<Ix>,
        ix: Ix,
    ) -> Result<(), NoMemory>
        requires { Ix.number_of ix < length graph.now }
    {
        self.take_labels(graph.labels(ix))?;
        match core_at(dwarf, DebugInfoOffset::new(graph.entry_of(ix))) {
            Some(e) => self.take_entry(dwarf, e),
            None => Ok(()),
        }
    }

    /// Takes the two types of a visit, and a comparison of each new member with each old one.
    pub(crate) fn take_visit(&mut self, ground: &NotedPair, visit: &Visit) -> Result<(), NoMemory>
        requires old { visit.now.old < length ground.now.pair.old.now.graph }
        requires new { visit.now.new < length ground.now.pair.new.now.graph }
    {
        let old = ground.pair.old.graph();
        let new = ground.pair.new.graph();
        self.take_type(ground.old_dwarf, old, visit.old)?;
        self.take_type(ground.new_dwarf, new, visit.new)?;
        self.take(parts_in(old, visit.old).saturating_mul(parts_in(new, visit.new)))
    }

    // Takes the chain of types of a member, with the dimensions of its arrays.
    fn take_chain(&mut self, dwarf: &Dwarf, m: EntryNumber) -> Result<(), NoMemory>
        requires { m < length dwarf.now.tree.entries }
    {
        let mut at = Some(m);
        'chain: for _passed in 0..ENTRIES {
            match at {
                None => return Ok(()),
                Some(e) => {
                    self.take_name(dwarf.name_of(e))?;
                    self.take_tagged(dwarf, e, DW_TAG_subrange_type)?;
                    at = type_of(dwarf, e);
                }
            }
        }
        Ok(())
    }

    // Takes the members or enumerators of a definition.
    fn take_definition(&mut self, dwarf: &Dwarf, e: EntryNumber) -> Result<(), NoMemory>
        requires { e < length dwarf.now.tree.entries }
    {
        self.take(PART)?;
        let parts = parts_of(self.alloc, dwarf, e)?;
        for k in 0..parts.len() {
            self.take_chain(dwarf, parts[k])?;
        }
        Ok(())
    }

    // Takes definitions.
    fn take_definitions(&mut self, dwarf: &Dwarf, entries: &[EntryNumber]) -> Result<(), NoMemory>
        requires { All (λ e. e < length dwarf.now.tree.entries) entries.now }
    {
        for k in 0..entries.len() {
            self.take_definition(dwarf, entries[k])?;
        }
        Ok(())
    }

    /// Takes all definitions of a tag and a name in two libraries.
    pub(crate) fn take_kin(&mut self, kin: &Kin) -> Result<(), NoMemory>
        requires old { All (λ e. e < length kin.now.old_dwarf.now.tree.entries) kin.now.old.now }
        requires new { All (λ e. e < length kin.now.new_dwarf.now.tree.entries) kin.now.new.now }
    {
        self.take_definitions(kin.old_dwarf, kin.old)?;
        self.take_definitions(kin.new_dwarf, kin.new)
    }

    /// Takes the notes on differences under an export and a path.
    pub(crate) fn take_notes(
        &mut self,
        export: &str,
        path: &str,
        found: &[Difference],
    ) -> Result<(), NoMemory> {
        let place = export.len().saturating_add(path.len());
        for difference in found {
            let texts = difference
                .was
                .as_slice()
                .len()
                .saturating_add(difference.is.as_slice().len());
            self.take(place.saturating_add(texts).saturating_add(NOTE))?;
        }
        Ok(())
    }
}
