// The numbers in a head text, after its letter and a colon.
ghost use Rattle.std.specs.Prelude.{◌≡◌, List, ℕ, ◌^◌, ◌<◌, ◌∷◌, ◌++◌, decimal, IfSome, IsSome};

use mps_base::find_byte;
use mps_numerals::decimal_number;

/// Two decimal numbers, each in its text.
fn two_texts(first: &[u8], second: &[u8]) -> Option<(u64, u64)>
    ensures sound { IfSome result (λ p. (first.now ≡ decimal p.0) × (second.now ≡ decimal p.1)) }
    ensures complete { (a b : ℕ) → a < 2 ^ 64 → b < 2 ^ 64 → first.now ≡ decimal a → second.now ≡ decimal b → result ≡ Some (a, b) }
{
    match (decimal_number(first), decimal_number(second)) {
        (Some(a), Some(b)) => Some((a, b)),
        _ => None,
    }
}

/// Two decimal numbers with a colon between them.
fn two_numbers(text: &[u8]) -> Option<(u64, u64)>
    ensures sound { IfSome result (λ p. text.now ≡ decimal p.0 ++ 58 ∷ decimal p.1) }
    ensures complete { (a b : ℕ) → a < 2 ^ 64 → b < 2 ^ 64 → text.now ≡ decimal a ++ 58 ∷ decimal b → result ≡ Some (a, b) }
{
    match find_byte(b':', text) {
        Some(colon) => two_texts(&text[..colon], &text[colon + 1..]),
        None => None,
    }
}

/// The rest of a text that begins with this letter and a colon.
fn rest_after(letter: u8, text: &[u8]) -> Option<&[u8]>
    ensures sound { IfSome result (λ rest. text.now ≡ letter ∷ 58 ∷ rest.now) }
    ensures complete { (rest : List ℕ) → text.now ≡ letter ∷ 58 ∷ rest → IsSome result }
{
    match text {
        [first, b':', rest @ ..] if *first == letter => Some(rest),
        _ => None,
    }
}

/// The number of the text `LETTER:NUMBER`.
pub fn number_after(letter: u8, text: &[u8]) -> Option<u64>
    ensures sound { IfSome result (λ n. text.now ≡ letter ∷ 58 ∷ decimal n) }
    ensures complete { (n : ℕ) → n < 2 ^ 64 → text.now ≡ letter ∷ 58 ∷ decimal n → result ≡ Some n }
{
    match rest_after(letter, text) {
        Some(rest) => decimal_number(rest),
        None => None,
    }
}

/// The numbers of the text `LETTER:NUMBER:NUMBER`.
pub fn pair_after(letter: u8, text: &[u8]) -> Option<(u64, u64)>
    ensures sound { IfSome result (λ p. text.now ≡ letter ∷ 58 ∷ (decimal p.0 ++ 58 ∷ decimal p.1)) }
    ensures complete { (a b : ℕ) → a < 2 ^ 64 → b < 2 ^ 64
        → text.now ≡ letter ∷ 58 ∷ (decimal a ++ 58 ∷ decimal b) → result ≡ Some (a, b) }
{
    match rest_after(letter, text) {
        Some(rest) => two_numbers(rest),
        None => None,
    }
}
