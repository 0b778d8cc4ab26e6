// The number that digits of a base write.
ghost use Rattle.std.specs.Prelude.{◌≡◌, ◌≤◌, length};
ghost use Rattle.mps_numerals.specs.Reading.{digit_of, is_canonical, value_in, number_in};

/// What a digit represents, by its byte: up to 15 for `f`; 16 for a byte that is no digit.
static DIGIT_VALUES: [u8; 256] = [
    16, 16, 16, 16, 16, 16, 16, 16, 16, 16, 16, 16, 16, 16, 16, 16, 16, 16, 16, 16, 16, 16, 16, 16,
    16, 16, 16, 16, 16, 16, 16, 16, 16, 16, 16, 16, 16, 16, 16, 16, 16, 16, 16, 16, 16, 16, 16, 16,
    0, 1, 2, 3, 4, 5, 6, 7, 8, 9, 16, 16, 16, 16, 16, 16, 16, 16, 16, 16, 16, 16, 16, 16, 16, 16,
    16, 16, 16, 16, 16, 16, 16, 16, 16, 16, 16, 16, 16, 16, 16, 16, 16, 16, 16, 16, 16, 16, 16, 10,
    11, 12, 13, 14, 15, 16, 16, 16, 16, 16, 16, 16, 16, 16, 16, 16, 16, 16, 16, 16, 16, 16, 16, 16,
    16, 16, 16, 16, 16, 16, 16, 16, 16, 16, 16, 16, 16, 16, 16, 16, 16, 16, 16, 16, 16, 16, 16, 16,
    16, 16, 16, 16, 16, 16, 16, 16, 16, 16, 16, 16, 16, 16, 16, 16, 16, 16, 16, 16, 16, 16, 16, 16,
    16, 16, 16, 16, 16, 16, 16, 16, 16, 16, 16, 16, 16, 16, 16, 16, 16, 16, 16, 16, 16, 16, 16, 16,
    16, 16, 16, 16, 16, 16, 16, 16, 16, 16, 16, 16, 16, 16, 16, 16, 16, 16, 16, 16, 16, 16, 16, 16,
    16, 16, 16, 16, 16, 16, 16, 16, 16, 16, 16, 16, 16, 16, 16, 16, 16, 16, 16, 16, 16, 16, 16, 16,
    16, 16, 16, 16, 16, 16, 16, 16, 16, 16, 16, 16, 16, 16,
];

/// What a digit represents, up to 15 for `f`; 16 for a byte that is no digit.
fn digit_of(byte: u8) -> u64
    ensures value { result ≡ digit_of byte }
    ensures at_most { result ≤ 16 }
{
    u64::from(DIGIT_VALUES[byte as usize])
}

/// Whether there are one byte or more, and no leading zero but in `0`.
fn is_canonical(digits: &[u8]) -> bool
    ensures { result ≡ is_canonical digits.now }
{
    match digits {
        [] => false,
        [_] => true,
        [first, _, ..] => *first != b'0',
    }
}

/// The same of at most 15 digits of a base up to 16, which write no number too large.
fn value_of_few(base: u64, digits: &[u8]) -> Option<u64>
    requires base { (1 ≤ base) × (base ≤ 16) }
    requires few { length digits.now ≤ 15 }
    ensures { result ≡ value_in base digits.now }
{
    let mut n: u64 = 0;
    for b in digits {
        let next = digit_of(*b);
        if next >= base {
            return None;
        }
        n = n * base + next;
    }
    Some(n)
}

/// The same of any digits.
fn value_of_any(base: u64, digits: &[u8]) -> Option<u64>
    requires { 1 ≤ base }
    ensures { result ≡ value_in base digits.now }
{
    let mut n: u64 = 0;
    for b in digits {
        let next = digit_of(*b);
        if next >= base {
            return None;
        }
        n = n.checked_mul(base)?.checked_add(next)?;
    }
    Some(n)
}

/// The number that digits of a base write; None if a byte is no digit, or the number is 2^64 or more.
fn value_in(base: u64, digits: &[u8]) -> Option<u64>
    requires { 1 ≤ base }
    ensures { result ≡ value_in base digits.now }
{
    if base <= 16 && digits.len() <= 15 {
        value_of_few(base, digits)
    } else {
        value_of_any(base, digits)
    }
}

/// The number that digits of a base write, if they are in the right form.
pub fn number_in(base: u64, digits: &[u8]) -> Option<u64>
    requires { 1 ≤ base }
    ensures { result ≡ number_in base digits.now }
{
    if is_canonical(digits) {
        value_in(base, digits)
    } else {
        None
    }
}
