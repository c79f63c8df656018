// The debug sections of a file.
ghost use Rattle.std.specs.Prelude.{◌≤◌, length};
ghost use Rattle.abi_base.specs.Limits.{input_limit};

/// The bytes of a file's debug sections (DWARF 5, section 7.3 "Executable Objects and Shared Objects"; `.debug_ranges` is
/// from DWARF 4). A missing section is empty. None is longer than the limit on inputs.
#[derive(Clone, Copy)]
pub struct Sections<'a> {
    /// `.debug_info`
    pub info: &'a [u8],
    /// `.debug_abbrev`
    pub abbrev: &'a [u8],
    /// `.debug_str`
    pub str: &'a [u8],
    /// `.debug_line_str`
    pub line_str: &'a [u8],
    /// `.debug_str_offsets`
    pub str_offsets: &'a [u8],
    /// `.debug_addr`
    pub addr: &'a [u8],
    /// `.debug_rnglists`
    pub rnglists: &'a [u8],
    /// `.debug_ranges`
    pub ranges: &'a [u8],
    pub ghost info_small: { length info.now ≤ input_limit },
    pub ghost abbrev_small: { length abbrev.now ≤ input_limit },
    pub ghost str_small: { length str.now ≤ input_limit },
    pub ghost line_str_small: { length line_str.now ≤ input_limit },
    pub ghost str_offsets_small: { length str_offsets.now ≤ input_limit },
    pub ghost addr_small: { length addr.now ≤ input_limit },
    pub ghost rnglists_small: { length rnglists.now ≤ input_limit },
    pub ghost ranges_small: { length ranges.now ≤ input_limit },
}
