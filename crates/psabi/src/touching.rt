// The leaves in each eightbyte of an object (psABI, section 3.2.3 "Parameter Passing", "Classification").
ghost use Rattle.std.specs.Prelude.{◌≡◌, ◌<◌, ◌≤◌, ◌+◌};
ghost use Rattle.abi_types.specs.Limits.{size_limit};
ghost use Rattle.psabi.specs.Psabi.{eightbyte_limit, object_bits};
ghost use Rattle.psabi.specs.Touching as spec;

use crate::alignment::natural_align;
use crate::class::Class;
use crate::rows::row;
use crate::sizes::{BYTE_BITS, EIGHTBYTE, EIGHTBYTE_BITS};
use abi_types::Leaf;

/// The size of a leaf in bits.
pub fn bits_of(leaf: &Leaf) -> u64
    requires { leaf.now.size ≤ size_limit }
    ensures { result ≡ spec.bits_of leaf.now }
{
    if leaf.width == 0 {
        BYTE_BITS * leaf.size
    } else {
        leaf.width
    }
}

/// Whether the leaf has a bit in the eightbyte.
#[tactic(auto, unfolding(crate::specs::Touching::touches))]
pub fn touches(leaf: &Leaf, k: usize) -> bool
    requires size { leaf.now.size ≤ size_limit }
    requires room { leaf.now.bit + spec.bits_of leaf.now ≤ object_bits }
    requires k { k < eightbyte_limit }
    ensures { result ≡ spec.touches leaf.now k }
{
    let from = EIGHTBYTE_BITS * (k as u64);
    if leaf.bit >= from + EIGHTBYTE_BITS {
        return false;
    }
    from < leaf.bit + bits_of(leaf)
}

/// The class of the leaf in an eightbyte that it touches.
#[tactic(auto, unfolding(crate::specs::Touching::class_in, crate::specs::Touching::touches))]
pub fn class_in(leaf: &Leaf, k: usize) -> Class
    requires size { leaf.now.size ≤ size_limit }
    requires room { leaf.now.bit + spec.bits_of leaf.now ≤ object_bits }
    requires k { k < eightbyte_limit }
    ensures { result ≡ spec.class_in leaf.now k }
{
    if leaf.width != 0 {
        return Class::Integer;
    }
    let first = leaf.bit / BYTE_BITS;
    let from = first.max(EIGHTBYTE * (k as u64));
    let own = (from - first) / EIGHTBYTE;
    let row = row(leaf.kind, leaf.group, leaf.size);
    row[own as usize]
}

/// Whether the leaf is a bit field, or its offset is a multiple of its natural alignment.
#[tactic(auto, unfolding(crate::specs::Touching::is_aligned))]
pub fn is_aligned(leaf: &Leaf) -> bool
    requires { leaf.now.size ≤ size_limit }
    ensures { result ≡ spec.is_aligned leaf.now }
{
    if leaf.width != 0 {
        return true;
    }
    leaf.bit % (BYTE_BITS * natural_align(leaf.kind, leaf.group, leaf.size)) == 0
}
