// The version of a symbol.

/// The version of a symbol: its name if it has one, its index, and whether it is hidden, that is, not the default one of its
/// symbol.
#[derive(Clone, Copy, Debug)]
pub struct Version<'a> {
    /// Its name, or None for a symbol without a version.
    pub name: Option<&'a [u8]>,
    /// `VER_NDX_LOCAL`, `VER_NDX_GLOBAL`, or the index of a definition.
    pub index: u16,
    /// Whether it is hidden.
    pub hidden: bool,
}
