// The rules that a new library may break.
ghost use Rattle.std.specs.Prelude.{◌≡◌};
ghost use Rattle.abi_types.specs.Rules.{all_rules, rule_name, rule_place, rule_word};

/// A rule that a new library may break. `X1` to `X6` compare exports, `L1` to `L14` an old type with a new one.
/// Each variant's line says what the rule requires.
#[derive(Clone, Copy, Debug, PartialEq, Eq)]
pub enum Rule {
    /// The sonames agree.
    LibrarySoname,
    /// The export is still there.
    ExportPresence,
    /// The export still has its version.
    ExportVersion,
    /// The kinds of symbols agree.
    ExportKind,
    /// The sizes of objects agree.
    ExportSize,
    /// The export still has a type.
    ExportType,
    /// Both types have the same kind. Where they do not, no other rule is checked.
    KindOfType,
    /// Scalars, enumerations, structures, unions, arrays and vectors have equal sizes.
    TypeSize,
    /// Both scalars are in the same group, so that their bits mean the same. Their names do not count.
    ScalarGroup,
    /// The explicit alignments are equal. Not checked for functions and void.
    TypeAlignment,
    /// Where one side is a declaration, the tags are equal. Only L1 and this rule are checked then.
    DeclarationTag,
    /// Each old member has a match: the new member with its name and its number among the members with that name.
    MemberPresence,
    /// A matched member has the same offset in bits.
    MemberOffset,
    /// A matched member is a bit field of the same width, or is not a bit field on both sides.
    BitFieldWidth,
    /// Each old enumerator has a match, found as for members.
    EnumeratorPresence,
    /// A matched enumerator has the same value modulo 2^n, where n is the number of bits of its enumeration.
    EnumeratorValue,
    /// Arrays and vectors have the same number of elements.
    ElementCount,
    /// Functions have the same number of parameters.
    ParameterCount,
    /// Both functions take variable arguments, or neither does.
    VariadicArguments,
    /// The result, and each parameter that both functions have, is passed in the same place.
    PassingPlace,
}

// All rules, each at its place.
static ALL_RULES: [Rule; 20] = [
    Rule::LibrarySoname,
    Rule::ExportPresence,
    Rule::ExportVersion,
    Rule::ExportKind,
    Rule::ExportSize,
    Rule::ExportType,
    Rule::KindOfType,
    Rule::TypeSize,
    Rule::ScalarGroup,
    Rule::TypeAlignment,
    Rule::DeclarationTag,
    Rule::MemberPresence,
    Rule::MemberOffset,
    Rule::BitFieldWidth,
    Rule::EnumeratorPresence,
    Rule::EnumeratorValue,
    Rule::ElementCount,
    Rule::ParameterCount,
    Rule::VariadicArguments,
    Rule::PassingPlace,
];

impl Rule {
    /// All rules, each at its place.
    #[tactic(auto, unfolding(crate::specs::Rules::all_rules))]
    pub fn all() -> &'static [Rule]
        ensures { result.now ≡ all_rules }
    {
        &ALL_RULES
    }

    /// The place in the order of rules, counted from 0: rules of exports first, each group by its numbers.
    pub fn place(self) -> u8
        ensures { result ≡ rule_place self }
    {
        self as u8
    }

    // The word for the rule, and the name of its break.
    fn texts(self) -> (&'static str, &'static str)
        ensures word { result.0.now ≡ rule_word self }
        ensures name { result.1.now ≡ rule_name self }
    {
        match self {
            Rule::LibrarySoname => ("X1", "soname changed"),
            Rule::ExportPresence => ("X2", "export gone"),
            Rule::ExportVersion => ("X3", "version gone"),
            Rule::ExportKind => ("X4", "symbol kind changed"),
            Rule::ExportSize => ("X5", "object size changed"),
            Rule::ExportType => ("X6", "type information gone"),
            Rule::KindOfType => ("L1", "kind of type changed"),
            Rule::TypeSize => ("L2", "size changed"),
            Rule::ScalarGroup => ("L3", "sort of scalar changed"),
            Rule::TypeAlignment => ("L4", "alignment changed"),
            Rule::DeclarationTag => ("L5", "tag changed"),
            Rule::MemberPresence => ("L6", "member gone"),
            Rule::MemberOffset => ("L7", "member moved"),
            Rule::BitFieldWidth => ("L8", "bit field width changed"),
            Rule::EnumeratorPresence => ("L9", "enumerator gone"),
            Rule::EnumeratorValue => ("L10", "enumerator value changed"),
            Rule::ElementCount => ("L11", "element count changed"),
            Rule::ParameterCount => ("L12", "parameter count changed"),
            Rule::VariadicArguments => ("L13", "variadic arguments changed"),
            Rule::PassingPlace => ("L14", "passing place changed"),
        }
    }

    /// The word for the rule in printed text.
    pub fn word(self) -> &'static str
        ensures { result.now ≡ rule_word self }
    {
        self.texts().0
    }

    /// The plain name of the rule's break.
    pub fn name(self) -> &'static str
        ensures { result.now ≡ rule_name self }
    {
        self.texts().1
    }
}
