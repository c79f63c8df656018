// The children of an entry with a tag.
ghost use Rattle.std.specs.Prelude.{◌≡◌, ◌<◌, [], ◌∷◌, ◌++◌, filter, length, IfErr, IfOk, OnOk};
ghost use Rattle.abi_base.specs.declared.fault.NoMemory.TheVariants.{Allocation};
ghost use Rattle.dwarf_tree.specs.Trees.{children_of, is_tagged};

use crate::entry_number::EntryNumber;
use crate::tree::Tree;
use abi_base::NoMemory;
use std::alloc::Global;

impl<'a> Tree<'a> {
    /// The children of an entry with a tag, in order.
    pub fn tagged(
        &self,
        alloc: Global,
        e: EntryNumber,
        tag: u64,
    ) -> Result<Vec<EntryNumber>, NoMemory>
        requires { e < length self.now.entries }
        ensures children { IfOk result (λ list. list.items ≡ filter (is_tagged self.now tag) (children_of self.now e)) }
        ensures named { IfErr result (λ e. e ≡ Allocation) }
    {
        let mut list = Vec::new(alloc);
        let mut next = self.next_child(e, None);
        'children: while let Some(child) = next {
            self.take_tagged(&mut list, child, tag)?;
            next = self.next_child(e, Some(child));
        }
        Ok(list)
    }

    // Appends a child if it has the tag.
    fn take_tagged(
        &self,
        list: &mut Vec<EntryNumber>,
        child: EntryNumber,
        tag: u64,
    ) -> Result<(), NoMemory>
        requires { child < length self.now.entries }
        ensures taken { OnOk result (list.new.items ≡ list.old.items ++ filter (is_tagged self.now tag) (child ∷ [])) }
        ensures named { IfErr result (λ e. e ≡ Allocation) }
    {
        if self.tag(child) == tag {
            list.push(child)?;
        }
        Ok(())
    }
}
