// Heads as texts and as words.
ghost use Rattle.std.specs.Prelude.{◌≡◌, ◌≤◌, take, drop, length};
ghost use Rattle.mps_format.specs.HeadText.{head_text, front_word, mapped_word, leaf_word};

use crate::head_word::{FRONT, LEAF, MAPPED, MAX_WORDS, extra_of_head, size_of_head, tag_of_head};
use crate::pair::{number_after, pair_after};
use crate::put::{put_pair, put_single};
use crate::{Format, Front, Leaf, Mapped};

/// A head as its text has it. Its numbers are any below 2^64, and only those that keep the rules of the format give a
/// valid head.
#[derive(Clone, Copy, Debug, PartialEq, Eq)]
pub enum Head {
    /// `f:SIZE:REFERENCES`, a head of the format `front`. The size is in words and counts the head.
    Front { size: u64, references: u64 },
    /// `m:SIZE:MASK`, a head of the format `mapped`.
    Mapped { size: u64, mask: u64 },
    /// `l:SIZE`, a head of the format `leaf`.
    Leaf { size: u64 },
}

impl Head {
    ghost use Rattle.std.specs.Prelude.{◌≡◌, ◌≤◌, take, drop, length, IfSome};
    ghost use Rattle.mps_format.specs.declared.head.Head.{Head};
    ghost use Rattle.mps_format.specs.HeadText.{text_of, word_of, IsInWords, head_of_word};

    /// The most bytes that a head text has.
    pub const MAX_TEXT_BYTES: usize = 43;

    /// The head whose text this is, or None if it is no head text.
    pub fn parse(text: &[u8]) -> Option<Head>
        ensures sound { IfSome result (λ h. text.now ≡ text_of h) }
        ensures complete { (h : Head) → IsInWords h → text.now ≡ text_of h → result ≡ Some h }
    {
        if let Some((size, references)) = pair_after(b'f', text) {
            return Some(Head::Front { size, references });
        }
        if let Some((size, mask)) = pair_after(b'm', text) {
            return Some(Head::Mapped { size, mask });
        }
        match number_after(b'l', text) {
            Some(size) => Some(Head::Leaf { size }),
            None => None,
        }
    }

    /// The head word, or 0, which is no head, if the numbers break the rules of the format.
    pub fn word(&self) -> u64
        ensures { result ≡ word_of self.now }
    {
        match *self {
            Head::Front { size, references } => word_of_front(size, references),
            Head::Mapped { size, mask } => word_of_mapped(size, mask),
            Head::Leaf { size } => word_of_leaf(size),
        }
    }

    /// The head that the word is, or None exactly if no format accepts it.
    pub fn of_word(word: u64) -> Option<Head>
        ensures { result ≡ head_of_word word }
    {
        let size = u64::from(size_of_head(word));
        let extra = u64::from(extra_of_head(word));
        if Front.accepts(word) {
            Some(Head::Front {
                size,
                references: extra,
            })
        } else if Mapped.accepts(word) {
            Some(Head::Mapped { size, mask: extra })
        } else if Leaf.accepts(word) {
            Some(Head::Leaf { size })
        } else {
            None
        }
    }

    /// Writes the text to the start of `out`, and returns its length in bytes.
    pub fn put_text(&self, out: &mut [u8]) -> usize
        requires { Self.MAX_TEXT_BYTES ≤ length out.old }
        ensures text { take result out.new ≡ text_of self.now }
        ensures unchanged { drop result out.new ≡ drop result out.old }
        ensures at_most { result ≤ Self.MAX_TEXT_BYTES }
    {
        match *self {
            Head::Front { size, references } => put_pair(b'f', size, references, out),
            Head::Mapped { size, mask } => put_pair(b'm', size, mask, out),
            Head::Leaf { size } => put_single(b'l', size, out),
        }
    }
}

/// Writes the text of a head word to the start of `out`, and returns its length in bytes. The tag decides the form of
/// the text, so a word that is no head has a text too.
pub fn put_head_text(word: u64, out: &mut [u8]) -> usize
    requires { Head.MAX_TEXT_BYTES ≤ length out.old }
    ensures text { take result out.new ≡ head_text word }
    ensures unchanged { drop result out.new ≡ drop result out.old }
    ensures at_most { result ≤ Head.MAX_TEXT_BYTES }
{
    let size = u64::from(size_of_head(word));
    let extra = u64::from(extra_of_head(word));
    match tag_of_head(word) {
        FRONT => put_pair(b'f', size, extra, out),
        MAPPED => put_pair(b'm', size, extra, out),
        _ => put_single(b'l', size, out),
    }
}

/// The word of `f:SIZE:REFERENCES`.
fn word_of_front(size: u64, references: u64) -> u64
    ensures { result ≡ front_word size references }
{
    if 2 <= size && size <= u64::from(MAX_WORDS) && references < size {
        FRONT + 0x100 * size + 0x1_0000_0000 * references
    } else {
        0
    }
}

/// The word of `m:SIZE:MASK`.
fn word_of_mapped(size: u64, mask: u64) -> u64
    ensures { result ≡ mapped_word size mask }
{
    if 2 <= size && size <= 32 && mask % 2 == 0 && mask < 1 << size {
        MAPPED + 0x100 * size + 0x1_0000_0000 * mask
    } else {
        0
    }
}

/// The word of `l:SIZE`.
fn word_of_leaf(size: u64) -> u64
    ensures { result ≡ leaf_word size }
{
    if 2 <= size && size <= u64::from(MAX_WORDS) {
        LEAF + 0x100 * size
    } else {
        0
    }
}
