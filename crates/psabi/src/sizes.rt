// The sizes of types in bytes (System V psABI for x86-64, section 3.1.2 "Data Representation", figure "Scalar Types").

/// `char`.
pub const CHAR: u64 = 1;

/// `short`.
pub const SHORT: u64 = 2;

/// `int`.
pub const INT: u64 = 4;

/// `long`, `long long` and pointers.
pub const LONG: u64 = 8;

/// `__int128`.
pub const INT128: u64 = 16;

/// `_Float16`.
pub const FLOAT16: u64 = 2;

/// `float`.
pub const FLOAT: u64 = 4;

/// `double`.
pub const DOUBLE: u64 = 8;

/// `long double`, whose value takes 10 of these bytes.
pub const LONG_DOUBLE: u64 = 16;

/// `__float128`.
pub const FLOAT128: u64 = 16;

/// `_Decimal32`.
pub const DECIMAL32: u64 = 4;

/// `_Decimal64`.
pub const DECIMAL64: u64 = 8;

/// `_Decimal128`.
pub const DECIMAL128: u64 = 16;

/// A complex number of two `_Float16`.
pub const COMPLEX_FLOAT16: u64 = 2 * FLOAT16;

/// A complex number of two `float`.
pub const COMPLEX_FLOAT: u64 = 2 * FLOAT;

/// A complex number of two `double`.
pub const COMPLEX_DOUBLE: u64 = 2 * DOUBLE;

/// A complex number of two `long double`.
pub const COMPLEX_LONG_DOUBLE: u64 = 2 * LONG_DOUBLE;

/// The vector type `__m64`.
pub const M64: u64 = 8;

/// The vector type `__m128`.
pub const M128: u64 = 16;

/// The vector type `__m256`.
pub const M256: u64 = 32;

/// The vector type `__m512`.
pub const M512: u64 = 64;

/// The number of bits in a byte.
pub const BYTE_BITS: u64 = 8;

/// The number of bytes in an eightbyte.
pub const EIGHTBYTE: u64 = 8;

/// The number of bits in an eightbyte.
pub const EIGHTBYTE_BITS: u64 = 64;

/// The most eightbytes of an object in registers.
pub const EIGHTBYTES: usize = 8;

/// The greatest size of an object in registers, in bytes.
pub const OBJECT_LIMIT: u64 = 64;

/// The greatest size in bytes of an aggregate in registers that is not a vector: two eightbytes.
pub const PAIR_LIMIT: u64 = 16;
