// LEB128 numbers, DWARF's variable-length encoding.
ghost use Rattle.std.specs.Prelude.{◌≡◌, ◌+◌, ◌-◌, ◌^◌, ◌<◌, ◌≤◌, ◌-ℤ◌, pos, length, take, drop, position, if◌then◌else◌, nat_lt, Some, None, IfSome};
ghost use Rattle.abi_base.specs.Numbers.{number_of};
ghost use Rattle.abi_base.specs.Leb.{leb_length, low_digits, signed_sum, sleb_at, uleb_at};
ghost use Rattle.abi_base.specs.Leb as spec;

// A byte of this value or more continues the number. The low seven bits of each byte are a digit.
const MORE: u8 = 0x80;

// The base of the digits.
const BASE: u64 = 128;

const WIDE_BASE: u128 = 128;

// This bit of the last byte is the sign of a signed number.
const NEGATIVE: u8 = 0x40;

// Ten bytes hold any number of 64 bits.
const MOST_BYTES: usize = 10;

// The bytes from `at` on, at most ten.
fn ten_from(bytes: &[u8], at: usize) -> &[u8]
    ensures { result.now ≡ take 10 (drop at bytes.now) }
{
    if at > bytes.len() {
        return &[];
    }
    let rest = &bytes[at..];
    if rest.len() > MOST_BYTES {
        &rest[..MOST_BYTES]
    } else {
        rest
    }
}

fn last_in(front: &[u8]) -> Option<usize>
    ensures found { result ≡ position spec.is_last front.now }
    ensures inside { IfSome result (λ k. k < length front.now) }
{
    front.iter().position(|b| *b < MORE)
}

// The length in bytes of the LEB128 at `at`.
#[tactic(auto, using(crate::proofs::ReadNumbers::slices), unfolding(crate::specs::Leb::leb_length))]
fn leb_len(bytes: &[u8], at: usize) -> Option<usize>
    ensures found { result ≡ leb_length bytes.now at }
    ensures some { IfSome result (λ n. 0 < n) }
    ensures few { IfSome result (λ n. n ≤ 10) }
    ensures inside { IfSome result (λ n. at + n ≤ length bytes.now) }
{
    match last_in(ten_from(bytes, at)) {
        Some(more) => Some(more + 1),
        None => None,
    }
}

// The number with these seven-bit digits, lowest first.
fn digits_value(digits: &[u8]) -> Option<u64>
    ensures { result ≡ (let value = number_of 128 (low_digits digits.now) in if nat_lt value (2 ^ 64)
        then Some value else None) }
{
    let mut value = 0u64;
    let mut left = digits.len();
    while left > 0 {
        if value >= 1 << 57 {
            return None;
        }
        left -= 1;
        value = value * BASE + u64::from(digits[left] % MORE);
    }
    Some(value)
}

// The unsigned LEB128 at `at`, of any length.
#[tactic(auto, unfolding(crate::specs::Leb::uleb_at))]
fn uleb_of_any_length(bytes: &[u8], at: usize) -> Option<(u64, usize)>
    ensures found { result ≡ uleb_at bytes.now at }
    ensures after { IfSome result (λ r. at < r.1) }
    ensures inside { IfSome result (λ r. r.1 ≤ length bytes.now) }
{
    match leb_len(bytes, at) {
        Some(len) => match digits_value(&bytes[at..at + len]) {
            Some(value) => Some((value, at + len)),
            None => None,
        },
        None => None,
    }
}

/// The unsigned LEB128 number at `at`, and the offset after it (DWARF 5, section 7.6). Padding bytes are allowed. None
/// exactly where none of the ten bytes from `at` on ends the number (is below 128), or the number is 2^64 or more.
pub fn uleb(bytes: &[u8], at: usize) -> Option<(u64, usize)>
    ensures found { result ≡ uleb_at bytes.now at }
    ensures after { IfSome result (λ r. at < r.1) }
    ensures inside { IfSome result (λ r. r.1 ≤ length bytes.now) }
{
    // A fast path, since most numbers have one byte.
    match bytes.get(at) {
        Some(byte) if *byte < MORE => Some((u64::from(*byte), at + 1)),
        _ => uleb_of_any_length(bytes, at),
    }
}

// The number with these seven-bit digits, lowest first, and 128 to the power of their count.
fn digits_sum(digits: &[u8]) -> (u128, u128)
    requires { length digits.now ≤ 10 }
    ensures sum { result.0 ≡ number_of 128 (low_digits digits.now) }
    ensures scale { result.1 ≡ 128 ^ length digits.now }
    ensures below { result.0 < result.1 }
    ensures few { result.1 ≤ 2 ^ 70 }
{
    let mut sum = 0u128;
    let mut scale = 1u128;
    let mut left = digits.len();
    while left > 0 {
        left -= 1;
        sum = sum * WIDE_BASE + u128::from(digits[left] % MORE);
        scale *= WIDE_BASE;
    }
    (sum, scale)
}

// The negative number that lies `below` below 0.
fn minus(below: u64) -> i64
    requires some { 0 < below }
    requires fits { below ≤ 2 ^ 63 }
    ensures { result ≡ pos 0 -ℤ pos below }
{
    -((below - 1) as i64) - 1
}

fn signed_value(last: u8, digits: &[u8]) -> Option<i64>
    requires { length digits.now ≤ 10 }
    ensures { result ≡ signed_sum last (length digits.now) (number_of 128 (low_digits digits.now)) }
{
    let (sum, scale) = digits_sum(digits);
    if last >= NEGATIVE {
        let below = scale - sum;
        if below <= 1 << 63 {
            Some(minus(below as u64))
        } else {
            None
        }
    } else if sum < 1 << 63 {
        Some(sum as i64)
    } else {
        None
    }
}

/// The signed LEB128 number at `at`, and the offset after it (DWARF 5, section 7.6). Padding bytes are allowed. None
/// exactly where none of the ten bytes from `at` on ends the number (is below 128), or the number does not fit 64 bits.
#[tactic(auto, unfolding(crate::specs::Leb::sleb_at))]
pub fn sleb(bytes: &[u8], at: usize) -> Option<(i64, usize)>
    ensures found { result ≡ sleb_at bytes.now at }
    ensures after { IfSome result (λ r. at < r.1) }
    ensures inside { IfSome result (λ r. r.1 ≤ length bytes.now) }
{
    match leb_len(bytes, at) {
        Some(len) => {
            let after = at + len;
            match signed_value(bytes[after - 1], &bytes[at..after]) {
                Some(value) => Some((value, after)),
                None => None,
            }
        }
        None => None,
    }
}
