// What the roots of units say of files.

// The line program of a unit, and its directory.
#[derive(Clone, Copy)]
pub(crate) struct UnitFiles<'a> {
    // the offset of the line program
    pub(crate) program: Option<u64>,
    // the directory in which the unit was compiled, where the line program does not give it
    pub(crate) directory: Option<&'a [u8]>,
}
