// Decimal numbers in texts: `0`, or a digit 1 to 9 and then digits, below 2^64.
ghost use Rattle.std.specs.Prelude.{◌≡◌, ℕ, ◌+◌, ◌^◌, ◌<◌, ◌≤◌, ◌++◌, length, take, drop, decimal, IfSome};
ghost use Rattle.mps_numerals.specs.Decimal.{decimal_number as number_of};

use crate::reading::number_in;
use itoa::write_digits;

/// The number that the text writes; None if it is no decimal number below 2^64.
pub fn decimal_number(text: &[u8]) -> Option<u64>
    ensures value { result ≡ number_of text.now }
    // What is read was written so.
    ensures sound { IfSome result (λ n. text.now ≡ decimal n) }
    // What is written is read.
    ensures complete { (n : ℕ) → n < 2 ^ 64 → text.now ≡ decimal n → result ≡ Some n }
{
    number_in(10, text)
}

/// How many digits a number below 10,000 has.
fn short_digit_count(number: u64) -> usize
    requires { number < 10000 }
    ensures value { result ≡ length (decimal number) }
    ensures at_most { result ≤ 4 }
{
    if number < 10 {
        1
    } else if number < 100 {
        2
    } else if number < 1000 {
        3
    } else {
        4
    }
}

/// How many digits a number has.
fn digit_count(number: u64) -> usize
    ensures value { result ≡ length (decimal number) }
    ensures at_most { result ≤ 20 }
{
    let mut count = 0;
    let mut left = number;
    while left >= 10_000 {
        left /= 10_000;
        count += 4;
    }
    count + short_digit_count(left)
}

/// Writes the number at the index `at`, and returns the index after it. The bytes before and after it are unchanged.
pub fn put_decimal(number: u64, out: &mut [u8], at: usize) -> usize
    requires { at + 20 ≤ length out.old }
    ensures end { result ≡ at + length (decimal number) }
    ensures at_most { result ≤ at + 20 }
    ensures text { take result out.new ≡ take at out.old ++ decimal number }
    ensures unchanged { drop result out.new ≡ drop result out.old }
{
    let end = at + digit_count(number);
    let _ = write_digits(number, out, end);
    end
}
