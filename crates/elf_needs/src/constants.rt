//! The constants of version requirements under their standard names (Linux Standard Base, "Symbol Versioning").

/// The size of a version need, `Elf64_Verneed`.
pub const VERNEED_SIZE: usize = 16;

/// The offset in a need of the version of its format.
pub const VN_VERSION: usize = 0;

/// The offset in a need of the number of its auxiliary entries.
pub const VN_CNT: usize = 2;

/// The offset in a need of the offset of its file's name in the string table.
pub const VN_FILE: usize = 4;

/// The offset in a need of the offset of its first auxiliary entry, which counts from the need.
pub const VN_AUX: usize = 8;

/// The offset in a need of the offset of the next need, which counts from this one.
pub const VN_NEXT: usize = 12;

/// The only version of the format of needs.
pub const VER_NEED_CURRENT: u16 = 1;

/// The size of an auxiliary entry, `Elf64_Vernaux`.
pub const VERNAUX_SIZE: usize = 16;

/// The offset in an auxiliary entry of its version index, in the 15 low bits.
pub const VNA_OTHER: usize = 6;

/// The offset in an auxiliary entry of the offset of its version's name in the string table.
pub const VNA_NAME: usize = 8;

/// The offset in an auxiliary entry of the offset of the next one, which counts from this one.
pub const VNA_NEXT: usize = 12;
