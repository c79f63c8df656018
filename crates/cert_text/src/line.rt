// The lines of a certificate after the first four.
ghost use Rattle.std.specs.Prelude.{◌≡◌, Some};
ghost use Rattle.cert_text.specs.Faults.{before_then};
ghost use Rattle.cert_text.specs.Faults as spec;

use abi_types::Way;

/// The versions of certificates.
#[derive(Clone, Copy, Debug, PartialEq, Eq)]
pub enum Version {
    /// Pair lines have no way.
    One,
    /// Pair lines have a way.
    Two,
}

/// A line after the first four.
#[derive(Clone, Copy, Debug, PartialEq, Eq)]
pub enum Line {
    /// The symbols of an old export and of the new one to which it binds.
    Bind { old: u32, new: u32 },
    /// An old entry, and the representative of its class.
    AlikeOld { entry: u64, rep: u64 },
    /// A new entry, and the representative of its class.
    AlikeNew { entry: u64, rep: u64 },
    /// An old entry, and a new one that may stand for it if a program reaches them by this way.
    Pair { old: u64, new: u64, way: Way },
    /// The last line.
    End,
}

// The position of a line's kind in the order of kinds.
fn rank(line: Line) -> u8
    ensures { result ≡ spec.rank line }
{
    match line {
        Line::Bind { .. } => 0,
        Line::AlikeOld { .. } => 1,
        Line::AlikeNew { .. } => 2,
        Line::Pair { .. } => 3,
        Line::End => 4,
    }
}

/// Whether a line is the last one.
pub fn is_end(line: Line) -> bool
    ensures { result ≡ spec.is_end (Some line) }
{
    matches!(line, Line::End)
}

fn way_before(one: Way, other: Way) -> bool
    ensures { result ≡ spec.way_before one other }
{
    match (one, other) {
        (Way::Direct, Way::Pointer) => true,
        _ => false,
    }
}

fn pair_before(one: (u64, u64, Way), other: (u64, u64, Way)) -> bool
    ensures { result ≡ before_then one.0 other.0 (before_then one.1 other.1 (spec.way_before one.2 other.2)) }
{
    if one.0 != other.0 {
        return one.0 < other.0;
    }
    if one.1 != other.1 {
        return one.1 < other.1;
    }
    way_before(one.2, other.2)
}

// Whether the second of two lines of one kind is strictly above the first.
fn is_above(before: Line, line: Line) -> bool
    ensures { result ≡ spec.is_above before line }
{
    match (before, line) {
        (Line::Bind { old: one, .. }, Line::Bind { old: other, .. }) => one < other,
        (Line::AlikeOld { entry: one, .. }, Line::AlikeOld { entry: other, .. }) => one < other,
        (Line::AlikeNew { entry: one, .. }, Line::AlikeNew { entry: other, .. }) => one < other,
        (
            Line::Pair {
                old: e,
                new: f,
                way: v,
            },
            Line::Pair {
                old: g,
                new: h,
                way: w,
            },
        ) => pair_before((e, f, v), (g, h, w)),
        _ => false,
    }
}

/// Whether the second line may follow the first: it is of a later kind, or of the same kind and strictly above it.
#[tactic(auto, unfolding(crate::specs::Faults::may_follow))]
pub fn may_follow(before: Line, line: Line) -> bool
    ensures { result ≡ spec.may_follow before line }
{
    if rank(before) != rank(line) {
        return rank(before) < rank(line);
    }
    is_above(before, line)
}
