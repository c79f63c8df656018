// A declaration place in the source.

/// A source file, and a line in it.
#[derive(Drop)]
pub struct DeclarationPlace {
    /// The name of the file, absolute if the debug information has it so.
    pub file: Vec<u8>,
    /// The line, counted from 1.
    pub line: u64,
}
