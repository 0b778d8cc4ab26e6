// Head texts as words.
ghost use Rattle.std.specs.Prelude.{◌≡◌, IfSome};
ghost use Rattle.mps_format.specs.HeadText.{text_of};
ghost use Rattle.mps_line_words.specs.Head.{head_in, head_of};
ghost use Rattle.mps_line_words.specs.Reading.{single};
ghost use Rattle.mps_line_words.specs.Word.{words, word_at};

use crate::words::{after_spaces, only_word};
use mps_format::Head;

/// The head that a text writes, with any numbers. Most are short.
#[inline(always)]
fn parsed(text: &[u8]) -> Option<Head>
    ensures { result ≡ head_in text.now }
{
    match short_head(text) {
        Some(head) => Some(head),
        None => parsed_long(text),
    }
}

/// The head of the format `front` that a text writes with two numbers of one digit, which need no loop. Such a text has no space.
#[inline(always)]
fn short_head(text: &[u8]) -> Option<Head>
    ensures { IfSome result (λ h. (Some h ≡ head_in text.now) × (word_at text.now ≡ text.now)) }
{
    match text {
        [
            b'f',
            b':',
            size @ b'0'..=b'9',
            b':',
            references @ b'0'..=b'9',
        ] => Some(Head::Front {
            size: u64::from(*size - b'0'),
            references: u64::from(*references - b'0'),
        }),
        _ => None,
    }
}

/// The same of any text. It is read from just the text that is written for it.
#[inline(never)]
fn parsed_long(text: &[u8]) -> Option<Head>
    ensures head { result ≡ head_in text.now }
    ensures written { IfSome result (λ h. text.now ≡ text_of h) }
{
    Head::parse(text)
}

/// The head word that a head text represents, 0 if its numbers break the rules of its format.
#[inline(always)]
fn head_of(word: &[u8]) -> Option<u64>
    ensures { result ≡ head_of word.now }
{
    let head = parsed(word)?;
    Some(head.word())
}

/// The head word of the one head that is left, 0 if its numbers break the rules of its format. None unless the rest of the
/// line is exactly one head. A short head at the end of the line takes a fast path.
#[inline(always)]
pub fn only_head(bytes: &[u8]) -> Option<u64>
    ensures { result ≡ single head_of (words bytes.now) }
{
    let line = after_spaces(bytes);
    match short_head(line) {
        Some(head) => Some(head.word()),
        None => head_of(only_word(line)?),
    }
}
