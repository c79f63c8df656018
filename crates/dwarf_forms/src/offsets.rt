// Offsets in sections, each section with a type of its own. Contracts see an offset as a number.
ghost use Rattle.std.specs.Prelude.{◌≡◌};

use std::marker::Model;

/// An offset in `.debug_info`, in bytes.
#[derive(Clone, Copy, Debug, PartialEq, Eq)]
pub struct DebugInfoOffset {
    bytes: u64,
}

impl Model for DebugInfoOffset {
    ghost use Rattle.std.specs.Prelude.{ℕ};
    ghost use Rattle.std.specs.Coded.{coded_ℕ};

    ghost Value = { ℕ };

    ghost coded = { coded_ℕ };

    ghost view = { λ o. o.bytes };

    ghost inverse = { λ n. record { bytes = n } };
}

impl DebugInfoOffset {
    /// The offset after this many bytes.
    #[inline(always)]
    pub const fn new(bytes: u64) -> DebugInfoOffset
        ensures { result ≡ bytes }
    {
        DebugInfoOffset { bytes }
    }

    /// The number of bytes before the offset.
    #[inline(always)]
    pub fn get(self) -> u64
        ensures { result ≡ self }
    {
        self.bytes
    }
}

/// An offset in `.debug_abbrev`, in bytes.
#[derive(Clone, Copy, Debug, PartialEq, Eq)]
pub struct DebugAbbrevOffset {
    bytes: u64,
}

impl Model for DebugAbbrevOffset {
    ghost use Rattle.std.specs.Prelude.{ℕ};
    ghost use Rattle.std.specs.Coded.{coded_ℕ};

    ghost Value = { ℕ };

    ghost coded = { coded_ℕ };

    ghost view = { λ o. o.bytes };

    ghost inverse = { λ n. record { bytes = n } };
}

impl DebugAbbrevOffset {
    /// The offset after this many bytes.
    #[inline(always)]
    pub const fn new(bytes: u64) -> DebugAbbrevOffset
        ensures { result ≡ bytes }
    {
        DebugAbbrevOffset { bytes }
    }

    /// The number of bytes before the offset.
    #[inline(always)]
    pub fn get(self) -> u64
        ensures { result ≡ self }
    {
        self.bytes
    }
}

/// An offset in `.debug_str`, in bytes.
#[derive(Clone, Copy, Debug, PartialEq, Eq)]
pub struct DebugStrOffset {
    bytes: u64,
}

impl Model for DebugStrOffset {
    ghost use Rattle.std.specs.Prelude.{ℕ};
    ghost use Rattle.std.specs.Coded.{coded_ℕ};

    ghost Value = { ℕ };

    ghost coded = { coded_ℕ };

    ghost view = { λ o. o.bytes };

    ghost inverse = { λ n. record { bytes = n } };
}

impl DebugStrOffset {
    /// The offset after this many bytes.
    #[inline(always)]
    pub const fn new(bytes: u64) -> DebugStrOffset
        ensures { result ≡ bytes }
    {
        DebugStrOffset { bytes }
    }

    /// The number of bytes before the offset.
    #[inline(always)]
    pub fn get(self) -> u64
        ensures { result ≡ self }
    {
        self.bytes
    }
}

/// An offset in `.debug_line_str`, in bytes.
#[derive(Clone, Copy, Debug, PartialEq, Eq)]
pub struct DebugLineStrOffset {
    bytes: u64,
}

impl Model for DebugLineStrOffset {
    ghost use Rattle.std.specs.Prelude.{ℕ};
    ghost use Rattle.std.specs.Coded.{coded_ℕ};

    ghost Value = { ℕ };

    ghost coded = { coded_ℕ };

    ghost view = { λ o. o.bytes };

    ghost inverse = { λ n. record { bytes = n } };
}

impl DebugLineStrOffset {
    /// The offset after this many bytes.
    #[inline(always)]
    pub const fn new(bytes: u64) -> DebugLineStrOffset
        ensures { result ≡ bytes }
    {
        DebugLineStrOffset { bytes }
    }

    /// The number of bytes before the offset.
    #[inline(always)]
    pub fn get(self) -> u64
        ensures { result ≡ self }
    {
        self.bytes
    }
}
