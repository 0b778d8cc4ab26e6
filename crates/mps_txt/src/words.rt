// Texts that are split at a byte.

ghost use Rattle.std.specs.Prelude.{◌≡◌, ◌<◌, ◌+◌, length, take, drop, IfSome, IfNone, option_copied, ◌++◌, ◌∷◌};
ghost use Rattle.mps_txt.specs.Separators.{Lacks, separated};

use mps_base::find_byte;

/// Where a byte stands first, so that it splits the text.
pub(crate) fn index_of(byte: u8, text: &[u8]) -> Option<usize>
    ensures in_bounds { IfSome result (λ index. index < length text.now) }
    ensures sound { IfSome result (λ index. text.now ≡ take index text.now ++ byte ∷ drop (index + 1) text.now) }
    ensures first { IfSome result (λ index. Lacks byte (take index text.now)) }
    ensures complete { IfNone result (Lacks byte text.now) }
{
    find_byte(byte, text)
}

/// What stands before the first space, and what stands after it.
pub(crate) fn split_word(text: &[u8]) -> (&[u8], Option<&[u8]>)
    ensures text { text.now ≡ result.0.now ++ separated 32 (option_copied result.1) }
    ensures word { Lacks 32 result.0.now }
{
    match index_of(b' ', text) {
        None => (text, None),
        Some(end) => (&text[..end], Some(&text[end + 1..])),
    }
}
