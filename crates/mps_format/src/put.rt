// Texts with a letter, colons and numbers, written to the start of a buffer.
ghost use Rattle.std.specs.Prelude.{◌≡◌, ◌+◌, ◌≤◌, ◌∷◌, ◌++◌, take, drop, length, decimal};
ghost use Rattle.mps_format.specs.HeadText.{labelled, labelled_pair};

use mps_numerals::put_decimal;

/// Writes `LETTER:NUMBER`, and returns its length.
pub fn put_single(letter: u8, number: u64, out: &mut [u8]) -> usize
    requires { 22 ≤ length out.old }
    ensures at_most { result ≤ 22 }
    ensures text { take result out.new ≡ labelled letter number }
    ensures unchanged { drop result out.new ≡ drop result out.old }
{
    out[0] = letter;
    out[1] = b':';
    put_decimal(number, out, 2)
}

/// Writes `:NUMBER` at the index `at`, and returns the index after it.
fn put_second(number: u64, out: &mut [u8], at: usize) -> usize
    requires { at + 21 ≤ length out.old }
    ensures at_least { at ≤ result }
    ensures at_most { result ≤ at + 21 }
    ensures text { take result out.new ≡ take at out.old ++ 58 ∷ decimal number }
    ensures unchanged { drop result out.new ≡ drop result out.old }
{
    out[at] = b':';
    put_decimal(number, out, at + 1)
}

/// Writes `LETTER:NUMBER:NUMBER`, and returns its length.
pub fn put_pair(letter: u8, first: u64, second: u64, out: &mut [u8]) -> usize
    requires { 43 ≤ length out.old }
    ensures at_most { result ≤ 43 }
    ensures text { take result out.new ≡ labelled_pair letter first second }
    ensures unchanged { drop result out.new ≡ drop result out.old }
{
    let at = put_single(letter, first, out);
    put_second(second, out, at)
}
