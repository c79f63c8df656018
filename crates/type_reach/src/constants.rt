// Limits of types.

/// The most nested steps by value from an entry.
pub const DEPTH_LIMIT: u32 = 512;

/// The upper bound, exclusive, for the offset of a member in bits.
pub const BIT_LIMIT: i128 = 0x8000_0000_0000_0000;

/// The stack space that is counted for the alignment of a parameter, in bytes.
pub const ALIGN_ROOM: u64 = 0x2_0000_0000;

/// The size of an address of x86-64, in bytes.
pub const POINTER_SIZE: u64 = 8;
