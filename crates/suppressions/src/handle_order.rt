// The order of sections by their handles, in which a binary search finds the sections of a handle.
ghost use Rattle.std.specs.Prelude.{◌≡◌, ◌≤◌, ◌-◌, false, true, length, take, drop, map, IfErr, IfOk, OnErr};
ghost use Rattle.std.specs.List.{range_with_len};
ghost use Rattle.std.specs.List.Sorted.{IsPartitionPoint};
ghost use Rattle.std.specs.Ordering.{is_lt, is_le};
ghost use Rattle.abi_base.specs.declared.fault.NoMemory.TheVariants.{Allocation, Past};
ghost use Rattle.abi_base.specs.declared.limit.Limit.TheVariants.{BlockSections};
ghost use Rattle.suppressions.specs.Handles.{handle_cmp, handles_of, place_cmp, IsHandleOrder, AreAt};
ghost use Rattle.suppressions.specs.Handles as spec;
ghost use Rattle.suppressions.specs.Limits.{IsCrowded, IsCrowdedBy};
ghost use Rattle.suppressions.specs.PlainHandles.{plain_handle, plain_handles};

use crate::compiled::CompiledSection;
use crate::handle::Handle;
use abi_base::{Limit, NoMemory};
use std::alloc::Global;
use std::cmp::Ordering;

// The handle at a position. Past the end it is `Any`.
fn handle_at<'x>(handles: &[Handle<'x>], k: usize) -> Handle<'x>
    ensures { plain_handle result ≡ spec.handle_at (plain_handles handles.now) k }
{
    if k < handles.len() {
        handles[k]
    } else {
        Handle::Any
    }
}

// Compares the handles at two positions.
fn place_order(handles: &[Handle], a: usize, b: usize) -> Ordering
    ensures { result ≡ place_cmp (plain_handles handles.now) a b }
{
    handle_at(handles, a).order(handle_at(handles, b))
}

// Whether the handle at a position is less than a handle.
fn stands_before(handles: &[Handle], k: usize, handle: Handle) -> bool
    ensures { result ≡ is_lt (handle_cmp (spec.handle_at (plain_handles handles.now) k) (plain_handle handle.entry)) }
{
    handle_at(handles, k).order(handle).is_lt()
}

// Whether the handle at a position is at most a handle.
fn stands_upto(handles: &[Handle], k: usize, handle: Handle) -> bool
    ensures { result ≡ is_le (handle_cmp (spec.handle_at (plain_handles handles.now) k) (plain_handle handle.entry)) }
{
    handle_at(handles, k).order(handle).is_le()
}

// The handles of the sections.
fn handles_in<'r>(
    alloc: Global,
    sections: &[CompiledSection<'r>],
) -> Result<Vec<Handle<'r>>, NoMemory>
    ensures is { IfOk result (λ handles. plain_handles handles.items ≡ handles_of sections.now) }
    ensures named { IfErr result (λ e. e ≡ Allocation) }
{
    let mut handles = Vec::with_capacity(alloc, sections.len())?;
    for section in sections {
        handles.push(Handle::of(section.section()))?;
    }
    Ok(handles)
}

// The numbers below a count, in order.
fn numbers_below(alloc: Global, count: usize) -> Result<Vec<usize>, NoMemory>
    ensures is { IfOk result (λ numbers. numbers.items ≡ range_with_len 0 count) }
    ensures named { IfErr result (λ e. e ≡ Allocation) }
{
    let mut numbers = Vec::with_capacity(alloc, count)?;
    for i in 0..count {
        numbers.push(i)?;
    }
    Ok(numbers)
}

// The positions of all handles, in the order of the handles.
fn places_of(alloc: Global, handles: &[Handle]) -> Result<Vec<usize>, NoMemory>
    ensures is { IfOk result (λ places. IsHandleOrder places.items (plain_handles handles.now)) }
    ensures named { IfErr result (λ e. e ≡ Allocation) }
{
    let mut places = numbers_below(alloc, handles.len())?;
    places.sort_unstable_by(|a, b| place_order(handles, *a, *b));
    Ok(places)
}

// The number of positions whose handle is less than this one.
fn count_before(handles: &[Handle], places: &[usize], handle: Handle) -> usize
    requires { IsHandleOrder places.now (plain_handles handles.now) }
    ensures inside { result ≤ length places.now }
    ensures parts { IsPartitionPoint (λ k. is_lt
        (handle_cmp (spec.handle_at (plain_handles handles.now) k) (plain_handle handle.entry)) ≡ true)
        (λ k. is_lt (handle_cmp (spec.handle_at (plain_handles handles.now) k) (plain_handle handle.entry))
        ≡ false) places.now result }
{
    places.partition_point(|k| stands_before(handles, *k, handle))
}

// The number of positions whose handle is at most this one.
fn count_upto(handles: &[Handle], places: &[usize], handle: Handle) -> usize
    requires { IsHandleOrder places.now (plain_handles handles.now) }
    ensures inside { result ≤ length places.now }
    ensures parts { IsPartitionPoint (λ k. is_le
        (handle_cmp (spec.handle_at (plain_handles handles.now) k) (plain_handle handle.entry)) ≡ true)
        (λ k. is_le (handle_cmp (spec.handle_at (plain_handles handles.now) k) (plain_handle handle.entry))
        ≡ false) places.now result }
{
    places.partition_point(|k| stands_upto(handles, *k, handle))
}

// The positions from a start up to an end.
fn between(places: &[usize], start: usize, end: usize) -> &[usize]
    requires rises { start ≤ end }
    requires inside { end ≤ length places.now }
    ensures { result.now ≡ take (end - start) (drop start places.now) }
{
    &places[start..end]
}

// The positions of a handle, by two binary searches.
fn places_in<'a>(handles: &[Handle], places: &'a [usize], handle: Handle) -> &'a [usize]
    requires { IsHandleOrder places.now (plain_handles handles.now) }
    ensures { AreAt (plain_handles handles.now) (plain_handle handle.entry) result.now }
{
    let start = count_before(handles, places, handle);
    let end = count_upto(handles, places, handle);
    between(places, start, end)
}

/// The handles of sections, and the numbers of the sections in the order of their handles. Contracts see the list of the handles.
#[derive(Drop)]
pub struct HandleOrder<'r> {
    handles: Vec<Handle<'r>>,
    places: Vec<usize>,
}

impl<'r> std::marker::Model for HandleOrder<'r> {
    ghost use Rattle.std.specs.Prelude.{List};
    ghost use Rattle.suppressions.specs.Handles.{PlainHandle, IsHandleOrder};
    ghost use Rattle.suppressions.specs.PlainHandles.{plain_handles};

    ghost Value = { List PlainHandle };

    ghost view = { λ o. plain_handles o.handles.items };

    ghost invariant = { λ o. IsHandleOrder o.places.items (plain_handles o.handles.items) };
}

// Whether some handle is that of more sections than this. Equal handles follow each other in the order of the handles.
fn is_crowded(handles: &[Handle], places: &[usize], most: usize) -> bool
    requires { IsHandleOrder places.now (plain_handles handles.now) }
    ensures { result ≡ true → IsCrowdedBy most (plain_handles handles.now) }
{
    for at in most..places.len() {
        if place_order(handles, places[at - most], places[at]).is_eq() {
            return true;
        }
    }
    false
}

impl<'r> HandleOrder<'r> {
    /// Sorts sections by their handles.
    pub fn of(alloc: Global, sections: &[CompiledSection<'r>]) -> Result<HandleOrder<'r>, NoMemory>
        ensures is { IfOk result (λ order. order ≡ handles_of sections.now) }
        ensures named { IfErr result (λ e. e ≡ Allocation) }
    {
        let handles = handles_in(alloc, sections)?;
        let places = places_of(alloc, handles.as_slice())?;
        Ok(HandleOrder { handles, places })
    }

    /// Returns `NoMemory` if too many sections have one handle, since each of them is tested with each name that has this handle.
    pub fn check_limit(&self) -> Result<(), NoMemory>
        ensures named { IfErr result (λ e. e ≡ Past BlockSections) }
        ensures past { OnErr result (IsCrowded self.now) }
    {
        let most = Limit::BlockSections.rate().base as usize;
        if is_crowded(self.handles.as_slice(), self.places.as_slice(), most) {
            return Err(NoMemory::Past(Limit::BlockSections));
        }
        Ok(())
    }

    /// The numbers of the sections that have this handle.
    pub fn find(&self, handle: Handle) -> &[usize]
        ensures { AreAt self.now (plain_handle handle.entry) result.now }
    {
        places_in(self.handles.as_slice(), self.places.as_slice(), handle)
    }
}
