// The post-merger cleanup of an object's classes (psABI, section 3.2.3 "Parameter Passing", "post merger cleanup").
ghost use Rattle.std.specs.Prelude.{◌≡◌, ◌<◌, ◌≤◌, ◌-◌};
ghost use Rattle.std.specs.List.{list_all, range_with_len};
ghost use Rattle.psabi.specs.Cleanup.{has_lone_x87_up as one_is_lone, is_vector as they_are_a_vector};
ghost use Rattle.psabi.specs.Cleanup as spec;
ghost use Rattle.psabi.specs.Psabi.{eightbyte_limit, object_limit};

use crate::class::{Class, has_memory};
use crate::rows::all_memory_class;
use crate::sizes::{EIGHTBYTE, EIGHTBYTES, PAIR_LIMIT};

// Whether the eightbyte is X87UP without X87 before it.
fn is_lone_x87_up(classes: &[Class; 8], k: usize) -> bool
    requires { k < eightbyte_limit }
    ensures { result ≡ spec.is_lone_x87_up classes.now k }
{
    match classes[k] {
        Class::X87Up => {
            if k == 0 {
                return true;
            }
            match classes[k - 1] {
                Class::X87 => false,
                _ => true,
            }
        }
        _ => false,
    }
}

#[tactic(auto, unfolding(crate::specs::Cleanup::has_lone_x87_up))]
fn has_lone_x87_up(classes: &[Class; 8]) -> bool
    ensures { result ≡ one_is_lone classes.now }
{
    for k in 0..EIGHTBYTES {
        if is_lone_x87_up(classes, k) {
            return true;
        }
    }
    false
}

fn is_upper(classes: &[Class; 8], k: usize) -> bool
    requires { k < eightbyte_limit }
    ensures { result ≡ spec.is_upper_at classes.now k }
{
    match classes[k] {
        Class::SseUp => true,
        _ => false,
    }
}

// Whether the first `count` eightbytes, except the very first, are SSEUP.
fn rest_are_upper(classes: &[Class; 8], count: usize) -> bool
    requires some { 1 ≤ count }
    requires few { count ≤ eightbyte_limit }
    ensures { result ≡ list_all (spec.is_upper_at classes.now) (range_with_len 1 (count - 1)) }
{
    for k in 1..count {
        if !is_upper(classes, k) {
            return false;
        }
    }
    true
}

// Whether the first `count` eightbytes form one vector.
#[tactic(auto, unfolding(crate::specs::Cleanup::is_vector))]
fn is_vector(classes: &[Class; 8], count: usize) -> bool
    requires some { 1 ≤ count }
    requires few { count ≤ eightbyte_limit }
    ensures { result ≡ they_are_a_vector classes.now count }
{
    match classes[0] {
        Class::Sse => rest_are_upper(classes, count),
        _ => false,
    }
}

// The number of eightbytes of an object with this size.
fn eightbytes_of(size: u64) -> usize
    requires { size ≤ object_limit }
    ensures { result ≡ spec.eightbytes_of size }
{
    ((size + (EIGHTBYTE - 1)) / EIGHTBYTE) as usize
}

#[tactic(auto, unfolding(crate::specs::Cleanup::becomes_memory_class))]
fn becomes_memory_class(classes: &[Class; 8], size: u64) -> bool
    requires { size ≤ object_limit }
    ensures { result ≡ spec.becomes_memory_class classes.now size }
{
    if has_memory(classes) {
        return true;
    }
    if has_lone_x87_up(classes) {
        return true;
    }
    if size <= PAIR_LIMIT {
        return false;
    }
    !is_vector(classes, eightbytes_of(size))
}

// The class of an eightbyte. An SSEUP that follows neither SSE nor SSEUP becomes SSE.
fn grounded(classes: &[Class; 8], k: usize) -> Class
    requires { k < eightbyte_limit }
    ensures { result ≡ spec.grounded classes.now k }
{
    match classes[k] {
        Class::SseUp => {
            if k == 0 {
                return Class::Sse;
            }
            match classes[k - 1] {
                Class::Sse | Class::SseUp => Class::SseUp,
                _ => Class::Sse,
            }
        }
        _ => classes[k],
    }
}

/// The classes of an aggregate of at most 64 bytes, from the merged classes of its leaves.
pub fn cleaned_up(classes: &[Class; 8], size: u64) -> [Class; 8]
    requires { size ≤ object_limit }
    ensures { result ≡ spec.cleaned_up classes.now size }
{
    if becomes_memory_class(classes, size) {
        return all_memory_class();
    }
    let mut cleaned = *classes;
    for k in 0..EIGHTBYTES {
        cleaned[k] = grounded(classes, k);
    }
    cleaned
}
