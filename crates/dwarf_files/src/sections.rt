// The sections from which names of files are read.

/// The sections with line programs and the strings of their names.
#[derive(Clone, Copy)]
pub struct LineSections<'a> {
    /// `.debug_line`
    pub line: &'a [u8],
    /// `.debug_str`
    pub str: &'a [u8],
    /// `.debug_line_str`
    pub line_str: &'a [u8],
}
