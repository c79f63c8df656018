// Names without the digits and underscores at their ends.
ghost use Rattle.std.specs.Prelude.{◌≡◌, ◌<◌, ◌≤◌, ◌-◌, true, false, length, take};
ghost use Rattle.side_notes.specs.Stems as spec;

// Whether a byte is a digit or an underscore.
fn is_counting(byte: u8) -> bool
    ensures { result ≡ spec.is_counting byte }
{
    matches!(byte, b'0'..=b'9' | b'_')
}

// Whether the first bytes of a name end in a digit or an underscore.
fn ends_in_count(name: &[u8], left: usize) -> bool
    requires { left ≤ length name.now }
    ensures some { result ≡ true → 0 < left }
    ensures counted { result ≡ true → spec.stem (take left name.now) ≡ spec.stem (take (left - 1) name.now) }
    ensures done { result ≡ false → spec.stem (take left name.now) ≡ take left name.now }
{
    if left == 0 {
        return false;
    }
    is_counting(name[left - 1])
}

/// The name without the digits and the underscores at its end.
pub fn stem(name: &[u8]) -> &[u8]
    ensures { result.now ≡ spec.stem name.now }
{
    let mut left = name.len();
    'bytes: while ends_in_count(name, left) {
        left -= 1;
    }
    &name[..left]
}
