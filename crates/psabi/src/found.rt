// Results for types, stored so that a type in many others is computed only once.
ghost use Rattle.std.specs.Prelude.{◌≡◌, ◌<◌, ℕ, length, slice_index_or, IfErr, IfOk, IfSome};
ghost use Rattle.abi_base.specs.declared.fault.NoMemory.TheVariants.{Allocation};
ghost use Rattle.psabi.specs.Alignment.{align_of};
ghost use Rattle.psabi.specs.Classes.{classes_of};
ghost use Rattle.psabi.specs.Found.{IsRight};
ghost use Rattle.psabi.specs.Found as spec;
ghost use Rattle.psabi.specs.Past.{ends_past};

use crate::class::Class;
use abi_base::NoMemory;
use abi_types::{Graph, Index};
use std::alloc::Global;

/// The results for a node's object so far.
#[derive(Clone, Copy)]
pub struct Found {
    /// Its alignment in bytes.
    pub align: Option<u64>,
    /// Whether a member of it, or of an aggregate inside it, ends past the aggregate that contains it.
    pub ends_past: Option<bool>,
    /// The classes of its eightbytes.
    pub classes: Option<[Class; 8]>,
}

// No results yet.
fn nothing_found() -> Found
    ensures { result ≡ spec.nothing_found }
{
    Found {
        align: None,
        ends_past: None,
        classes: None,
    }
}

/// A table for this many nodes by number, without results.
pub fn room_for(alloc: Global, len: usize) -> Result<Vec<Found>, NoMemory>
    ensures found { IfOk result (λ found. (i : ℕ) → slice_index_or found.items i spec.nothing_found
        ≡ spec.nothing_found) }
    ensures named { IfErr result (λ e. e ≡ Allocation) }
{
    let mut found = Vec::new(alloc);
    for _k in 0..len {
        found.push(nothing_found())?;
    }
    Ok(found)
}

/// The results for a node: none if the table has no entry for it.
pub fn found_at<Ix: Index>(ix: Ix, found: &[Found]) -> Found
    ensures { result ≡ slice_index_or found.now (Ix.number_of ix) spec.nothing_found }
{
    let number = ix.number();
    if number < found.len() {
        return found[number];
    }
    nothing_found()
}

/// Stores the node's alignment, if the table has an entry for the node, and returns it.
pub fn keep_align<Ix: Index>(graph: &Graph<Ix>, ix: Ix, align: u64, found: &mut [Found]) -> u64
    requires right { IsRight graph.now found.now }
    requires align { align ≡ align_of graph.now (Ix.number_of ix) }
    ensures right { IsRight graph.now found.new }
    ensures align { result ≡ align_of graph.now (Ix.number_of ix) }
{
    let number = ix.number();
    if number < found.len() {
        found[number].align = Some(align);
    }
    align
}

/// Stores whether a member ends past its aggregate, if the table has an entry for the node, and returns it.
pub fn keep_past<Ix: Index>(graph: &Graph<Ix>, ix: Ix, past: bool, found: &mut [Found]) -> bool
    requires right { IsRight graph.now found.now }
    requires past { past ≡ ends_past graph.now (Ix.number_of ix) }
    ensures right { IsRight graph.now found.new }
    ensures past { result ≡ ends_past graph.now (Ix.number_of ix) }
{
    let number = ix.number();
    if number < found.len() {
        found[number].ends_past = Some(past);
    }
    past
}

/// Stores the classes of the node's object, if the table has an entry for the node, and returns them.
pub fn keep_classes<Ix: Index>(
    graph: &Graph<Ix>,
    ix: Ix,
    classes: [Class; 8],
    found: &mut [Found],
) -> [Class; 8]
    requires right { IsRight graph.now found.now }
    requires classes { classes ≡ classes_of graph.now (Ix.number_of ix) }
    ensures right { IsRight graph.now found.new }
    ensures classes { result ≡ classes_of graph.now (Ix.number_of ix) }
{
    let number = ix.number();
    if number < found.len() {
        found[number].classes = Some(classes);
    }
    classes
}
