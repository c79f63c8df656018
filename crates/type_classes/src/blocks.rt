// A partition of numbers into classes, refined by marks.
ghost use Rattle.std.specs.Prelude.{◌≡◌, ◌≢◌, ◌≤◌, ◌<◌, ◌+◌, ◌==◌, ◌||◌, ◌↔◌, ◌⊎◌, ℕ, nat_lt, nat_le, ◌&&◌, if◌then◌else◌, length, IfOk, OnOk, IsTrue, Contains, IfErr};
ghost use Rattle.abi_base.specs.declared.fault.NoMemory.TheVariants.{Allocation};
ghost use Rattle.type_classes.specs.Blocks.{at, block_at, first_at, middle_at, end_at, len_of, count_of, class_in, is_marked, AreBlocks, ListsMarks, HasNoMarks, KeepsTogether, IsWhole, IsSplitAt, IsAdvanced, IsSwapped, IsSplitOf};

use abi_base::NoMemory;
use std::alloc::Global;

/// The places of one class in the order of numbers.
#[derive(Clone, Copy)]
pub struct Block {
    /// The place of its first number.
    pub first: usize,
    /// The place after its marked numbers, which come first.
    pub middle: usize,
    /// The place after its last number.
    pub end: usize,
}

/// The numbers below a bound, partitioned into classes. Numbers are marked one by one; `split` then separates the marked numbers of
/// each class from its others. The time grows only with the number of marks.
#[derive(Drop)]
pub struct Blocks {
    // The numbers, those of one class side by side.
    order: Vec<usize>,
    // For each number its place in the order.
    place: Vec<usize>,
    // For each number its class.
    class: Vec<usize>,
    // For each class its places.
    blocks: Vec<Block>,
    // The classes with marks.
    touched: Vec<usize>,
}

// The larger and the smaller of the two parts into which its marks split a block, both without marks.
fn halves(block: Block) -> (Block, Block)
    requires low { block.first ≤ block.middle }
    requires high { block.middle ≤ block.end }
    ensures { IsSplitOf block result.0 result.1 }
{
    let marked = Block {
        first: block.first,
        middle: block.first,
        end: block.middle,
    };
    let others = Block {
        first: block.middle,
        middle: block.middle,
        end: block.end,
    };
    if block.middle - block.first <= block.end - block.middle {
        (others, marked)
    } else {
        (marked, others)
    }
}

// Whether a block has only marked numbers or none.
fn is_whole(block: Block) -> bool
    ensures { IsTrue result ↔ IsWhole block }
{
    block.middle == block.first || block.middle == block.end
}

impl Blocks {
    /// All numbers below a bound, in one class.
    pub fn one(alloc: Global, len: usize) -> Result<Blocks, NoMemory>
        requires { 0 < len }
        ensures len { IfOk result (λ b. len_of b ≡ len) }
        ensures blocks { IfOk result AreBlocks }
        ensures listed { IfOk result ListsMarks }
        ensures unmarked { IfOk result HasNoMarks }
        ensures classes { IfOk result (λ b. (x : ℕ) → x < len → class_in b x ≡ 0) }
        ensures named { IfErr result (λ e. e ≡ Allocation) }
    {
        let mut order = Vec::with_capacity(alloc, len)?;
        let mut place = Vec::with_capacity(alloc, len)?;
        let mut class = Vec::with_capacity(alloc, len)?;
        for number in 0..len {
            order.push(number)?;
            place.push(number)?;
            class.push(0)?;
        }
        let mut blocks = Vec::new(alloc);
        let whole = Block {
            first: 0,
            middle: 0,
            end: len,
        };
        blocks.push(whole)?;
        Ok(Blocks {
            order,
            place,
            class,
            blocks,
            touched: Vec::new(alloc),
        })
    }

    /// The number of classes.
    pub fn count(&self) -> usize
        ensures { result ≡ count_of self.now }
    {
        self.blocks.len()
    }

    /// The class of a number.
    pub fn class_of(&self, number: usize) -> usize
        requires blocks { AreBlocks self.now }
        requires inside { number < len_of self.now }
        ensures { result ≡ class_in self.now number }
    {
        self.class[number]
    }

    /// The numbers of a class.
    pub fn members(&self, class: usize) -> &[usize]
        requires blocks { AreBlocks self.now }
        requires inside { class < count_of self.now }
        ensures some { 0 < length result.now }
        ensures all { (x : ℕ) → Contains result.now x ↔ ((x < len_of self.now) × (class_in self.now x ≡ class)) }
    {
        let block = self.blocks[class];
        &self.order.as_slice()[block.first..block.end]
    }

    /// Marks a number.
    pub fn mark(&mut self, number: usize) -> Result<(), NoMemory>
        requires blocks { AreBlocks self.old }
        requires listed { ListsMarks self.old }
        requires inside { number < len_of self.old }
        ensures blocks { OnOk result (AreBlocks self.new) }
        ensures listed { OnOk result (ListsMarks self.new) }
        ensures len { OnOk result (len_of self.new ≡ len_of self.old) }
        ensures count { OnOk result (count_of self.new ≡ count_of self.old) }
        ensures classes { OnOk result ((x : ℕ) → class_in self.new x ≡ class_in self.old x) }
        ensures marks { OnOk result ((x : ℕ) → x < len_of self.old
            → is_marked self.new x ≡ (is_marked self.old x || x == number)) }
        ensures named { IfErr result (λ e. e ≡ Allocation) }
    {
        let class = self.class[number];
        let place = self.place[number];
        let block = self.blocks[class];
        if place < block.middle {
            return Ok(());
        }
        self.touch(class)?;
        self.swap(place, block.middle);
        self.advance(class);
        Ok(())
    }

    // Lists a class that has no marks yet.
    fn touch(&mut self, class: usize) -> Result<(), NoMemory>
        requires { class < count_of self.old }
        ensures order { OnOk result (self.new.order ≡ self.old.order) }
        ensures place { OnOk result (self.new.place ≡ self.old.place) }
        ensures class { OnOk result (self.new.class ≡ self.old.class) }
        ensures blocks { OnOk result (self.new.blocks ≡ self.old.blocks) }
        ensures kept { OnOk result ((c : ℕ) → Contains self.old.touched.items c → Contains self.new.touched.items c) }
        ensures listed { OnOk result (middle_at self.old.blocks.items class ≡ first_at self.old.blocks.items class
            → Contains self.new.touched.items class) }
        ensures inside { OnOk result ((c : ℕ) → Contains self.new.touched.items c → Contains self.old.touched.items c
            ⊎ (c ≡ class)) }
        ensures named { IfErr result (λ e. e ≡ Allocation) }
    {
        let block = self.blocks[class];
        if block.middle == block.first {
            self.touched.push(class)?;
        }
        Ok(())
    }

    // Moves the middle of a class up by one.
    fn advance(&mut self, class: usize)
        requires inside { class < count_of self.old }
        requires fits { middle_at self.old.blocks.items class < len_of self.old }
        ensures { IsAdvanced self.old self.new class }
    {
        let block = &mut self.blocks[class];
        block.middle += 1;
    }

    // Swaps the numbers at two places.
    fn swap(&mut self, one: usize, other: usize)
        requires blocks { AreBlocks self.old }
        requires one { one < len_of self.old }
        requires other { other < len_of self.old }
        ensures { IsSwapped self.old self.new one other }
    {
        let number = self.order[one];
        let moved = self.order[other];
        self.order[one] = moved;
        self.order[other] = number;
        self.place[moved] = one;
        self.place[number] = other;
    }

    // Assigns the numbers at the places of a block to a class.
    fn put_into(&mut self, block: Block, class: usize)
        requires blocks { (i : ℕ) → i < length self.old.order.items
            → at self.old.order.items i < length self.old.class.items }
        requires placed { (i : ℕ) → i < length self.old.order.items
            → at self.old.place.items (at self.old.order.items i) ≡ i }
        requires ordered { (x : ℕ) → x < length self.old.order.items
            → at self.old.order.items (at self.old.place.items x) ≡ x }
        requires rising { block.first ≤ block.end }
        requires inside { block.end ≤ length self.old.order.items }
        ensures order { self.new.order ≡ self.old.order }
        ensures place { self.new.place ≡ self.old.place }
        ensures blocks { self.new.blocks ≡ self.old.blocks }
        ensures touched { self.new.touched ≡ self.old.touched }
        ensures len { length self.new.class.items ≡ length self.old.class.items }
        ensures classes { (x : ℕ) → x < length self.old.order.items → class_in self.new x ≡
            (if nat_le block.first (at self.old.place.items x) && nat_lt (at self.old.place.items x) block.end then class else class_in self.old x) }
    {
        for place in block.first..block.end {
            let number = self.order[place];
            self.class[number] = class;
        }
    }

    // Removes the marks of a class if all its numbers are marked or none is.
    fn unmark(&mut self, class: usize)
        requires blocks { AreBlocks self.old }
        requires inside { class < count_of self.old }
        requires whole { IsWhole (block_at self.old.blocks.items class) }
        ensures { IsSplitAt self.old self.new class }
    {
        let block = &mut self.blocks[class];
        block.middle = block.first;
    }

    // Makes the smaller of the marked numbers of a class and the others a class of its own.
    fn cut(&mut self, class: usize) -> Result<(), NoMemory>
        requires blocks { AreBlocks self.old }
        requires inside { class < count_of self.old }
        requires parted { IsWhole (block_at self.old.blocks.items class) → ⊥ }
        ensures split { OnOk result (IsSplitAt self.old self.new class) }
        ensures named { IfErr result (λ e. e ≡ Allocation) }
    {
        let number = self.blocks.len();
        let (kept, parted) = halves(self.blocks[class]);
        self.blocks.push(parted)?;
        self.blocks[class] = kept;
        self.put_into(parted, number);
        Ok(())
    }

    // Splits a class into its marked numbers and the others, if it has both, and removes the marks.
    fn split_class(&mut self, class: usize) -> Result<(), NoMemory>
        requires blocks { AreBlocks self.old }
        requires inside { class < count_of self.old }
        ensures split { OnOk result (IsSplitAt self.old self.new class) }
        ensures named { IfErr result (λ e. e ≡ Allocation) }
    {
        if is_whole(self.blocks[class]) {
            self.unmark(class);
            return Ok(());
        }
        self.cut(class)
    }

    /// Splits each class into its marked numbers and the others, if it has both, and removes all marks.
    pub fn split(&mut self) -> Result<(), NoMemory>
        requires blocks { AreBlocks self.old }
        requires listed { ListsMarks self.old }
        ensures blocks { OnOk result (AreBlocks self.new) }
        ensures listed { OnOk result (ListsMarks self.new) }
        ensures unmarked { OnOk result (HasNoMarks self.new) }
        ensures keeps { OnOk result (KeepsTogether self.old self.new) }
        ensures named { IfErr result (λ e. e ≡ Allocation) }
    {
        'touched: while let Some(class) = self.touched.pop() {
            self.split_class(class)?;
        }
        Ok(())
    }
}
