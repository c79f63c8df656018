// The limits on what is read, made and compared, and how many each allows.
ghost use Rattle.std.specs.Prelude.{◌≡◌, ◌<◌, ◌≤◌, ◌^◌};
ghost use Rattle.abi_base.specs.Budgets.{rate_of};

/// What a limit counts. Records, names and types can share their bytes, so a small file can ask for far more work or memory than it
/// has bytes. Each crate counts its own share, and says what the limit is.
#[derive(Clone, Copy, Debug, PartialEq, Eq)]
pub enum Limit {
    /// The bytes of dynamic symbols and of their names, for each byte of their tables.
    Symbols,
    /// The bytes of version definitions and of their names, for each byte of their tables.
    VersionDefinitions,
    /// The bytes of version needs, of their auxiliary entries and of their names, for each byte of their tables.
    VersionNeeds,
    /// The bytes of the names of versions and files that imports need, for each byte of the symbol table.
    ImportNeeds,
    /// The bytes of the names of needed files that are compared, for each byte of their tables.
    NeededFiles,
    /// The bytes of the names of exports and of their versions, for each byte of the symbol table.
    ExportNames,
    /// The bytes of the names under which exports are declared, for each byte of the file.
    DeclaredNames,
    /// The bytes of range lists up to their first ranges, for each byte of their sections.
    RangeLists,
    /// The bytes of abbreviation tables, for each byte of their section.
    Abbreviations,
    /// The attributes of the entries of a unit, for each byte of the unit.
    Attributes,
    /// The types that exports reach, for each byte of the file.
    Types,
    /// The members and parameters of these types, for each byte of the file.
    Members,
    /// The enumerators of these types, for each byte of the file.
    Enumerators,
    /// The parts by which types are compared, for each byte of the file.
    Parts,
    /// The letters of the names of types and of their parts, for each byte of the file.
    Letters,
    /// The names of types, for each type.
    TypeNames,
    /// The steps from types that are passed by value to their leaves, for each type.
    Leaves,
    /// The pairs of types that are compared, for each type of both libraries.
    Pairs,
    /// The parts of the pairs of types that are compared, for each part of both libraries.
    PairParts,
    /// The broken rules of the pairs of types that are compared, for each type of both libraries.
    Breaks,
    /// The bytes of the rows of a report, for each byte of both files.
    Report,
    /// The bytes that the places in the source of a report take, for each byte of the file.
    SourcePlaces,
    /// The letters of the names of typedefs in a report, for each byte of the file.
    TypedefNames,
    /// The bytes of the lines of exports, for each byte of the file.
    Listing,
    /// The letters of the names of the members of a layout, for each byte of the file.
    LayoutNames,
    /// The bytes of the soname to which a rule file is applied.
    Soname,
    /// The weight of the patterns of a rule file.
    Patterns,
    /// The classes in the values of a rule file.
    PatternClasses,
    /// The letters of names that patterns may read, times the weight of the patterns, for each export and each name of a type.
    PatternLetters,
    /// The sections of a block that test names and are found by one name, or by none.
    BlockSections,
    /// The lines that the composition of two certificates joins, for each pair line of both.
    PairLines,
    /// The pair lines of a composed certificate.
    ComposedLines,
    /// The bytes of a composed certificate.
    Certificate,
    /// The work and the bytes of notes, for each byte of the files that they are on.
    Notes,
    /// The tests that find the idle sections of a rule file, for each section and each test of a section.
    IdleSections,
    /// The bytes of the notes on exports that reach a break, for each byte of the old file.
    AffectedExports,
    /// The visits and arrows along which these exports are found, for each byte of the old file.
    AffectedSteps,
}

/// How many a limit allows: `each` for each whole group of `units`, and `base` besides.
#[derive(Clone, Copy, Debug, PartialEq, Eq)]
pub struct Rate {
    /// How many for each group of units.
    pub each: u64,
    /// How many units are a group.
    pub units: u64,
    /// How many besides.
    pub base: u64,
}

impl Rate {
    fn of(each: u64, units: u64, base: u64) -> Rate
        ensures { result ≡ record { each = each; units = units; base = base } }
    {
        Rate { each, units, base }
    }
}

impl Limit {
    /// How many this limit allows.
    pub fn rate(self) -> Rate
        ensures is { result ≡ rate_of self }
        ensures each { result.each ≤ 2 ^ 24 }
        ensures units { 0 < result.units }
        ensures base { result.base ≤ 2 ^ 30 }
    {
        match self {
            Limit::Symbols => Rate::of(64, 1, 0),
            Limit::VersionDefinitions => Rate::of(64, 1, 0),
            Limit::VersionNeeds => Rate::of(64, 1, 0),
            Limit::ImportNeeds => Rate::of(64, 1, 0),
            Limit::NeededFiles => Rate::of(64, 1, 0),
            Limit::ExportNames => Rate::of(64, 1, 0),
            Limit::DeclaredNames => Rate::of(64, 1, 0),
            Limit::RangeLists => Rate::of(64, 1, 0),
            Limit::Abbreviations => Rate::of(64, 1, 0),
            Limit::Attributes => Rate::of(64, 1, 0),
            Limit::Types => Rate::of(1, 16, 131_072),
            Limit::Members => Rate::of(1, 8, 524_288),
            Limit::Enumerators => Rate::of(1, 8, 524_288),
            Limit::Parts => Rate::of(1, 2, 1_048_576),
            Limit::Letters => Rate::of(32, 1, 33_554_432),
            Limit::TypeNames => Rate::of(16, 1, 1_048_576),
            Limit::Leaves => Rate::of(64, 1, 16_777_216),
            Limit::Pairs => Rate::of(5, 1, 262_144),
            Limit::PairParts => Rate::of(16, 1, 2_097_152),
            Limit::Breaks => Rate::of(4, 1, 1_048_576),
            Limit::Report => Rate::of(8, 1, 67_108_864),
            Limit::SourcePlaces => Rate::of(8, 1, 33_554_432),
            Limit::TypedefNames => Rate::of(8, 1, 33_554_432),
            Limit::Listing => Rate::of(8, 1, 33_554_432),
            Limit::LayoutNames => Rate::of(2, 1, 4_194_304),
            Limit::Soname => Rate::of(0, 1, 4_096),
            Limit::Patterns => Rate::of(0, 1, 262_144),
            Limit::PatternClasses => Rate::of(0, 1, 4_096),
            Limit::PatternLetters => Rate::of(16_777_216, 1, 1_073_741_824),
            Limit::BlockSections => Rate::of(0, 1, 1_024),
            Limit::PairLines => Rate::of(16, 1, 2_097_152),
            Limit::ComposedLines => Rate::of(0, 1, 16_777_216),
            Limit::Certificate => Rate::of(0, 1, 268_435_456),
            Limit::Notes => Rate::of(16, 1, 33_554_432),
            Limit::IdleSections => Rate::of(64, 1, 268_435_456),
            Limit::AffectedExports => Rate::of(16, 1, 33_554_432),
            Limit::AffectedSteps => Rate::of(64, 1, 16_777_216),
        }
    }
}
