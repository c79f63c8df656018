// The bits of a structure's member.
ghost use Rattle.std.specs.Prelude.{◌≡◌, ◌+◌};

/// The bits of a structure's member.
#[derive(Clone, Copy, Debug, PartialEq, Eq)]
pub struct Extent {
    /// The index of the member in its structure.
    pub part: usize,
    /// Its offset in the structure, in bits.
    pub bit: u64,
    /// Its width in bits.
    pub width: u64,
}

impl Extent {
    /// The bit after its last one.
    pub fn end(&self) -> u128
        ensures { result ≡ self.now.bit + self.now.width }
    {
        self.bit as u128 + self.width as u128
    }
}
