// Sections of a rule file and their properties, by name.
ghost use Rattle.std.specs.Prelude.{◌≡◌};
ghost use Rattle.std.specs.Str.{bytes_eq};
ghost use Rattle.suppression_text.specs.Keys.{has_key, takes_value};
ghost use Rattle.suppression_text.specs.Keys as spec;

/// The kind of a section: what it suppresses.
#[derive(Clone, Copy, Debug, PartialEq, Eq)]
pub enum SectionKind {
    /// Functions: `[suppress_function]`.
    Functions,
    /// Variables: `[suppress_variable]`.
    Variables,
    /// Types: `[suppress_type]`.
    Types,
}

/// A property of a section, by its name.
#[derive(Clone, Copy, Debug, PartialEq, Eq)]
pub enum Key {
    /// `label`: a title of the section, which selects nothing.
    Label,
    /// `name`: the declared name of an export, or the name of a type.
    Name,
    /// `name_regexp`: a pattern that must match in that name.
    NameRegexp,
    /// `name_not_regexp`: a pattern that must not match in that name.
    NameNotRegexp,
    /// `symbol_name`: the name of a symbol.
    SymbolName,
    /// `symbol_name_regexp`: a pattern that must match in the name of a symbol.
    SymbolNameRegexp,
    /// `symbol_version`: the name of a symbol's version.
    SymbolVersion,
    /// `symbol_version_regexp`: a pattern that must match in the name of a symbol's version.
    SymbolVersionRegexp,
    /// `soname_regexp`: a pattern that must match in the old library's soname.
    SonameRegexp,
    /// `type_kind`: the kind of a type.
    TypeKind,
    /// `accessed_through`: how a program reaches a type, directly or through a pointer.
    AccessedThrough,
}

// Whether two texts are equal.
fn is_same(one: &[u8], other: &[u8]) -> bool
    ensures { result ≡ bytes_eq one.now other.now }
{
    one == other
}

/// The kind of section that has a name, or `None` for an unknown name.
#[tactic(auto, unfolding(crate::specs::Keys::section_named))]
pub fn section_named(name: &[u8]) -> Option<SectionKind>
    ensures { result ≡ spec.section_named name.now }
{
    if is_same(name, b"suppress_function") {
        return Some(SectionKind::Functions);
    }
    if is_same(name, b"suppress_variable") {
        return Some(SectionKind::Variables);
    }
    if is_same(name, b"suppress_type") {
        return Some(SectionKind::Types);
    }
    None
}

/// The property that has a name, or `None` for an unknown name.
#[tactic(auto, unfolding(crate::specs::Keys::key_named))]
pub fn key_named(name: &[u8]) -> Option<Key>
    ensures { result ≡ spec.key_named name.now }
{
    if is_same(name, b"label") {
        return Some(Key::Label);
    }
    if is_same(name, b"name") {
        return Some(Key::Name);
    }
    if is_same(name, b"name_regexp") {
        return Some(Key::NameRegexp);
    }
    if is_same(name, b"name_not_regexp") {
        return Some(Key::NameNotRegexp);
    }
    if is_same(name, b"symbol_name") {
        return Some(Key::SymbolName);
    }
    if is_same(name, b"symbol_name_regexp") {
        return Some(Key::SymbolNameRegexp);
    }
    if is_same(name, b"symbol_version") {
        return Some(Key::SymbolVersion);
    }
    if is_same(name, b"symbol_version_regexp") {
        return Some(Key::SymbolVersionRegexp);
    }
    if is_same(name, b"soname_regexp") {
        return Some(Key::SonameRegexp);
    }
    if is_same(name, b"type_kind") {
        return Some(Key::TypeKind);
    }
    if is_same(name, b"accessed_through") {
        return Some(Key::AccessedThrough);
    }
    None
}

/// Whether the value of a property is a pattern.
pub fn has_pattern(key: Key) -> bool
    ensures { result ≡ spec.has_pattern key }
{
    match key {
        Key::NameRegexp
        | Key::NameNotRegexp
        | Key::SymbolNameRegexp
        | Key::SymbolVersionRegexp
        | Key::SonameRegexp => true,
        _ => false,
    }
}

/// Whether sections of a kind may have a property.
pub fn may_have(kind: SectionKind, key: Key) -> bool
    ensures { result ≡ has_key kind key }
{
    match (kind, key) {
        (SectionKind::Types, Key::SymbolName)
        | (SectionKind::Types, Key::SymbolNameRegexp)
        | (SectionKind::Types, Key::SymbolVersion)
        | (SectionKind::Types, Key::SymbolVersionRegexp)
        | (SectionKind::Functions, Key::TypeKind)
        | (SectionKind::Functions, Key::AccessedThrough)
        | (SectionKind::Variables, Key::TypeKind)
        | (SectionKind::Variables, Key::AccessedThrough) => false,
        _ => true,
    }
}

// Whether a word names a kind of type.
#[tactic(auto, unfolding(crate::specs::Keys::is_type_word))]
fn is_type_word(word: &[u8]) -> bool
    ensures { result ≡ spec.is_type_word word.now }
{
    is_same(word, b"struct")
        || is_same(word, b"union")
        || is_same(word, b"enum")
        || is_same(word, b"typedef")
        || is_same(word, b"builtin")
}

// Whether a word names a way.
#[tactic(auto, unfolding(crate::specs::Keys::is_way_word))]
fn is_way_word(word: &[u8]) -> bool
    ensures { result ≡ spec.is_way_word word.now }
{
    is_same(word, b"direct") || is_same(word, b"pointer")
}

/// Whether a property may have a value. For a property that takes any text or a pattern, every value passes here.
pub fn may_be(key: Key, value: &[u8]) -> bool
    ensures { result ≡ takes_value key value.now }
{
    match key {
        Key::TypeKind => is_type_word(value),
        Key::AccessedThrough => is_way_word(value),
        _ => true,
    }
}
