// Numbers, as words and at the beginning of a line.
ghost use Rattle.std.specs.Prelude.{◌≡◌, None, Some, MatchOption};
ghost use Rattle.mps_numerals.specs.Decimal.{decimal_number as decimal_of};
ghost use Rattle.mps_line_words.specs.Number.{prefixed_hexadecimal, number_of, number_within};
ghost use Rattle.mps_line_words.specs.Reading.{headed};
ghost use Rattle.mps_line_words.specs.Word.{words, word_at, after_word};

use crate::words::{after_spaces, after_word};
use mps_numerals::{decimal_number, hexadecimal_number};

/// A hexadecimal number, after `0x`.
pub fn prefixed_hexadecimal(word: &[u8]) -> Option<u64>
    ensures { result ≡ prefixed_hexadecimal word.now }
{
    match word {
        [b'0', b'x', digits @ ..] => hexadecimal_number(digits),
        _ => None,
    }
}

/// A number, decimal or hexadecimal.
pub fn number_of(word: &[u8]) -> Option<u64>
    ensures { result ≡ number_of word.now }
{
    match decimal_number(word) {
        Some(n) => Some(n),
        None => prefixed_hexadecimal(word),
    }
}

/// A decimal number in a range.
pub fn number_within(low: u64, high: u64, word: &[u8]) -> Option<u64>
    ensures { result ≡ number_within low high word.now }
{
    let n = decimal_number(word)?;
    if low <= n && n <= high { Some(n) } else { None }
}

/// The word at the beginning as a decimal number, and what stands after it. Most have one digit, which needs no loop.
#[inline(always)]
pub fn decimal_at(bytes: &[u8]) -> Option<(u64, &[u8])>
    ensures { MatchOption result (decimal_of (word_at bytes.now) ≡ None)
        (λ p. (decimal_of (word_at bytes.now) ≡ Some p.0) × (p.1.now ≡ after_word bytes.now)) }
{
    match bytes {
        [digit @ b'0'..=b'9'] => Some((u64::from(*digit - b'0'), &bytes[1..])),
        [digit @ b'0'..=b'9', b' ', ..] => Some((u64::from(*digit - b'0'), &bytes[1..])),
        _ => long_decimal_at(bytes),
    }
}

/// The same of any word.
#[inline(always)]
fn long_decimal_at(bytes: &[u8]) -> Option<(u64, &[u8])>
    ensures { MatchOption result (decimal_of (word_at bytes.now) ≡ None)
        (λ p. (decimal_of (word_at bytes.now) ≡ Some p.0) × (p.1.now ≡ after_word bytes.now)) }
{
    let rest = after_word(bytes);
    let n = decimal_number(&bytes[..bytes.len() - rest.len()])?;
    Some((n, rest))
}

/// The word at the beginning as a number, decimal or hexadecimal, and what stands after it. Either begins with a digit.
#[inline(always)]
fn value_at(bytes: &[u8]) -> Option<(u64, &[u8])>
    ensures { MatchOption result (number_of (word_at bytes.now) ≡ None)
        (λ p. (number_of (word_at bytes.now) ≡ Some p.0) × (p.1.now ≡ after_word bytes.now)) }
{
    match bytes {
        [digit @ b'0'..=b'9'] => Some((u64::from(*digit - b'0'), &bytes[1..])),
        [digit @ b'0'..=b'9', b' ', ..] => Some((u64::from(*digit - b'0'), &bytes[1..])),
        [b'0'..=b'9', ..] => long_value_at(bytes),
        _ => None,
    }
}

/// The same of any word.
#[inline(always)]
fn long_value_at(bytes: &[u8]) -> Option<(u64, &[u8])>
    ensures { MatchOption result (number_of (word_at bytes.now) ≡ None)
        (λ p. (number_of (word_at bytes.now) ≡ Some p.0) × (p.1.now ≡ after_word bytes.now)) }
{
    let rest = after_word(bytes);
    let n = number_of(&bytes[..bytes.len() - rest.len()])?;
    Some((n, rest))
}

/// The first word as a decimal number, and what stands after it.
#[inline(always)]
pub fn next_decimal(bytes: &[u8]) -> Option<(u64, &[u8])>
    ensures { MatchOption result (headed decimal_of (words bytes.now) ≡ None)
        (λ p. headed decimal_of (words bytes.now) ≡ Some (p.0, words p.1.now)) }
{
    decimal_at(after_spaces(bytes))
}

/// The first word as a number, decimal or hexadecimal, and what stands after it.
#[inline(always)]
pub fn next_value(bytes: &[u8]) -> Option<(u64, &[u8])>
    ensures { MatchOption result (headed number_of (words bytes.now) ≡ None)
        (λ p. headed number_of (words bytes.now) ≡ Some (p.0, words p.1.now)) }
{
    value_at(after_spaces(bytes))
}
