// Hexadecimal numbers in texts: lower case, without leading zeros.

ghost use Rattle.std.specs.Prelude.{◌≡◌, ◌<◌, ◌≤◌, ◌+◌, ◌∷◌, ◌++◌, ◌^◌, ℕ, false, length, take, drop, IfSome};
ghost use Rattle.std.specs.Fmt.{digit_glyph};
ghost use Rattle.mps_numerals.specs.Hexadecimal.{hexadecimal};
ghost use Rattle.mps_numerals.specs.Reading.{number_in as number_of};

use crate::reading::number_in;

/// The digits, by their numbers.
static GLYPHS: [u8; 16] = *b"0123456789abcdef";

/// The digit of a number below 16.
fn glyph(digit: u64) -> u8
    requires { digit < 16 }
    ensures { result ≡ digit_glyph false digit }
{
    GLYPHS[digit as usize]
}

/// How many digits a number has: one for each four bits from its highest set bit down.
fn digit_count(number: u64) -> usize
    ensures value { result ≡ length (hexadecimal number) }
    ensures at_most { result ≤ 16 }
{
    (67 - number.max(1).leading_zeros() as usize) / 4
}

/// Writes a digit at the index `at`.
fn write_digit(digit: u64, out: &mut [u8], at: usize)
    requires { (digit < 16) × (at < length out.old) }
    ensures written { drop at out.new ≡ digit_glyph false digit ∷ drop (at + 1) out.old }
    ensures before { take at out.new ≡ take at out.old }
{
    out[at] = glyph(digit);
}

/// Writes the digits of a number so that they end before the index `end`, and returns the index of the first one.
fn write_digits(number: u64, out: &mut [u8], end: usize) -> usize
    requires { (length (hexadecimal number) ≤ end) × (end ≤ length out.old) }
    ensures start { result + length (hexadecimal number) ≡ end }
    ensures written { drop result out.new ≡ hexadecimal number ++ drop end out.old }
    ensures before { take result out.new ≡ take result out.old }
{
    let mut left = number;
    let mut at = end;
    while left >= 16 {
        write_digit(left % 16, out, at - 1);
        left /= 16;
        at -= 1;
    }
    write_digit(left, out, at - 1);
    at - 1
}

/// Writes the number at the index `at`, and returns the index after it. The bytes before and after it are unchanged.
pub fn put_hexadecimal(number: u64, out: &mut [u8], at: usize) -> usize
    requires { at + 16 ≤ length out.old }
    ensures end { result ≡ at + length (hexadecimal number) }
    ensures at_most { result ≤ at + 16 }
    ensures text { take result out.new ≡ take at out.old ++ hexadecimal number }
    ensures unchanged { drop result out.new ≡ drop result out.old }
{
    let end = at + digit_count(number);
    let _ = write_digits(number, out, end);
    end
}

/// The number that the text writes in lower case without leading zeros; None if it is in another form, or has more
/// than 16 digits.
pub fn hexadecimal_number(text: &[u8]) -> Option<u64>
    ensures value { result ≡ number_of 16 text.now }
    // What is read was written so.
    ensures sound { IfSome result (λ n. text.now ≡ hexadecimal n) }
    // What is written is read.
    ensures complete { (n : ℕ) → n < 2 ^ 64 → text.now ≡ hexadecimal n → result ≡ Some n }
{
    number_in(16, text)
}
