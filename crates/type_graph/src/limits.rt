// The limits of types.
/// The number that no size, place or alignment reaches.
pub(crate) const VALUE_LIMIT: u64 = 0x8000_0000_0000_0000;

/// The greatest size in bytes, and the greatest count of elements.
pub(crate) const SIZE_LIMIT: u64 = 0x1000_0000_0000_0000;

/// The greatest weight.
pub(crate) const WEIGHT_LIMIT: u64 = 1_048_576;

/// The greatest explicit alignment.
pub(crate) const ALIGN_LIMIT: u64 = 0x1_0000_0000;

/// The greatest sum of the rooms of a function's parameters, in bytes.
pub(crate) const ROOMS_LIMIT: u64 = 0x4000_0000_0000_0000;

/// The size of a floating-point number of 128 bits, in bytes.
pub(crate) const QUAD_SIZE: u64 = 16;
