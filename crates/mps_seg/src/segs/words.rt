// The words of the arena: read, written, cleared, copied and borrowed.
#![tactic(auto)]

ghost use Rattle.std.specs.Prelude.{◌≡◌, ℕ, ◌+◌, ◌%◌, ◌<◌, ◌≤◌, Some, length, take, drop, Contains, slice_get, slice_index, slice_set, slice_range};
ghost use Rattle.mps_base.specs.Address.{bytes_of_word, word_of, max_block_words};
ghost use Rattle.mps_base.specs.Segment.{Segment, segment_over};
ghost use Rattle.mps_arena.specs.Arena.{cleared_words, copied_words};
ghost use Rattle.std.specs.Borrow.{sem};
ghost use Rattle.mps_seg.specs.Lending.{LendsSegmentWords, LendsHeldWords};
ghost use Rattle.mps_seg.specs.Segs.{LiesIn, held_runs};

use super::Segs;
use mps_base::Addr;

impl Segs {
    /// The word of a number, which is its address divided by 8; none if the arena has no such word.
    #[inline(always)]
    pub fn item(&self, word: usize) -> Option<u64>
        ensures { result ≡ slice_get self.now.words word }
    {
        self.arena.item(word)
    }

    /// The words from one in a segment on: all that the arena has there, or at least as many as a block may have.
    pub fn words_from(&self, at: Addr) -> &[u64]
        requires held { (t : Segment) × (segment_over self.now.segments at.0 ≡ Some t) }
        ensures value { result.now ≡ take (length result.now) (drop (word_of at.0) self.now.words) }
        ensures complete { (n : ℕ) → n ≤ max_block_words → word_of at.0 + n ≤ length self.now.words → n ≤ length result.now }
    {
        self.arena.words_from(at)
    }

    /// As `words_from`, to be written. It touches no memory but what the borrower writes.
    pub fn words_from_mut(&mut self, at: Addr) -> &mut [u64]
        requires held { LiesIn (held_runs self.old) (record { from = word_of at.0; count = 1 }) }
        ensures* writes_back { sem 𝓛 (LendsHeldWords self.entry at.0 result) }
        ensures value { result.now ≡ take (length result.now) (drop (word_of at.0) self.old.words) }
        ensures complete { (n : ℕ) → n ≤ max_block_words → word_of at.0 + n ≤ length self.old.words → n ≤ length result.now }
    {
        self.arena.words_from_mut(at)
    }

    /// The word at an address.
    pub fn word(&self, at: Addr) -> u64
        requires { word_of at.0 < length self.now.words }
        ensures { result ≡ slice_index self.now.words (word_of at.0) }
    {
        self.arena.word(at)
    }

    /// Writes the word at an address.
    pub fn set_word(&mut self, at: Addr, word: u64)
        requires { word_of at.0 < length self.old.words }
        ensures { self.new ≡ record self.old { words = slice_set self.old.words (word_of at.0) word } }
    {
        self.arena.set_word(at, word);
    }

    /// The word at an address in a segment.
    #[inline(always)]
    pub fn held_word(&self, at: Addr) -> u64
        requires { (t : Segment) × (segment_over self.now.segments at.0 ≡ Some t) }
        ensures { result ≡ slice_index self.now.words (word_of at.0) }
    {
        self.arena.held_word(at)
    }

    /// Writes the word at an address in a segment.
    #[inline(always)]
    pub fn set_held_word(&mut self, at: Addr, word: u64)
        requires { (t : Segment) × (segment_over self.old.segments at.0 ≡ Some t) }
        ensures { self.new ≡ record self.old { words = slice_set self.old.words (word_of at.0) word } }
    {
        self.arena.set_held_word(at, word);
    }

    /// Writes 0 in the `words` words from `at` on.
    #[inline(always)]
    pub fn clear(&mut self, at: Addr, words: u32)
        requires { word_of at.0 + words ≤ length self.old.words }
        ensures { self.new ≡ record self.old { words = cleared_words self.old.words (word_of at.0) words } }
    {
        self.arena.clear(at, words);
    }

    /// Copies the `words` words from `from` on to `to` and the words after it. The two may overlap.
    pub fn copy(&mut self, from: Addr, to: Addr, words: u32)
        requires from_in_arena { word_of from.0 + words ≤ length self.old.words }
        requires to_in_arena { word_of to.0 + words ≤ length self.old.words }
        ensures { self.new ≡ record self.old { words = copied_words self.old.words (word_of from.0) (word_of to.0) words } }
    {
        self.arena.copy(from, to, words);
    }

    /// The `words` words of the block that begins at `at`.
    pub fn lend(&self, at: Addr, words: u32) -> &[u64]
        requires aligned { at.0 % bytes_of_word ≡ 0 }
        requires block { Contains self.now.blocks (record { from = word_of at.0; count = words }) }
        ensures { result.now ≡ slice_range self.now.words (word_of at.0) (word_of at.0 + words) }
    {
        self.extents.blocks_are_covered();
        self.arena.lend(at, words)
    }

    /// The `words` words from `at` on, to be written.
    pub fn lend_mut(&mut self, at: Addr, words: u32) -> &mut [u64]
        requires aligned { at.0 % bytes_of_word ≡ 0 }
        requires in_arena { word_of at.0 + words ≤ length self.old.words }
        ensures* writes_back { sem 𝓛 (LendsSegmentWords self.entry at.0 result) }
        ensures value { result.now ≡ slice_range self.old.words (word_of at.0) (word_of at.0 + words) }
    {
        self.arena.lend_mut(at, words)
    }
}
