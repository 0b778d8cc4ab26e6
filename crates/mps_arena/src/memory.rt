// The words of an arena in memory.
#![tactic(auto)]

ghost use Rattle.std.specs.Prelude.{◌≡◌, ℕ, ◌+◌, ◌<◌, ◌≤◌, length, take, drop, replicate, min, max, IfOk, slice_get, slice_index, slice_range, slice_set};
ghost use Rattle.std.specs.Borrow.{sem};
ghost use Rattle.mps_base.specs.Address.{max_block_words};
ghost use Rattle.mps_arena.specs.Arena.{cleared_words, copied_words};
ghost use Rattle.mps_arena.specs.Memory.{with_stored_word, with_copy};
ghost use Rattle.mps_arena.specs.MemoryLending.{LendsMemoryWords, LendsStoredWords};

use std::alloc::{AllocError, Global};
use std::marker::Model;

/// The most words that a block may have.
const MAX_BLOCK_WORDS: usize = 65_536;

/// The `size` words of an arena: those before `stored.len()` are stored, and those after them are 0. Memory for all of them is reserved
/// when it is made, and touched only as far as words were stored.
#[derive(Drop)]
pub(crate) struct Memory {
    stored: Vec<u64>,
    size: usize,
}

impl Model for Memory {
    ghost use Rattle.std.specs.Prelude.{◌≤◌, vec_len, vec_capacity};
    ghost use Rattle.mps_arena.specs.Memory.{StoredWords, memory_with};

    ghost Value = { StoredWords };

    ghost view = { λ m. memory_with m.size m.stored.items };

    ghost invariant = { λ m. (vec_len m.stored ≤ m.size) × (m.size ≤ vec_capacity m.stored) };
}

impl Memory {
    /// Memory for `size` words, which are 0.
    pub(crate) fn new(alloc: Global, size: usize) -> Result<Memory, AllocError>
        ensures { IfOk result (λ memory. memory ≡ record { words = replicate size 0; stored = 0 }) }
    {
        let stored = Vec::with_capacity(alloc, size)?;
        Ok(Memory { stored, size })
    }

    /// Stores the `count` words from a word on, and all words before them. It can't fail: there is memory for all words.
    pub(crate) fn grow(&mut self, from: usize, count: usize)
        requires { from + count ≤ length self.old.words }
        ensures { self.new ≡ record self.old { stored = max self.old.stored (from + count) } }
    {
        let stored = self.stored.len();
        let end = from + count;
        if stored < end {
            let Ok(()) = self.stored.resize(end, 0) else {
                unreachable!()
            };
        }
    }

    /// Stores the words before `end`, and as many after them as a block may have, or all that there are.
    pub(crate) fn store_run(&mut self, end: usize)
        requires { end ≤ length self.old.words }
        ensures { self.new ≡ record self.old { stored = max self.old.stored (min (length self.old.words) (end + max_block_words)) } }
    {
        let end = self.size.min(end + MAX_BLOCK_WORDS);
        self.grow(0, end);
    }

    /// The word of a number; none if there is no such word.
    #[inline(always)]
    pub(crate) fn item(&self, word: usize) -> Option<u64>
        ensures { result ≡ slice_get self.now.words word }
    {
        if word < self.stored.len() {
            Some(self.stored[word])
        } else if word < self.size {
            Some(0)
        } else {
            None
        }
    }

    /// A word that there is.
    #[inline(always)]
    pub(crate) fn word(&self, word: usize) -> u64
        requires { word < length self.now.words }
        ensures { result ≡ slice_index self.now.words word }
    {
        if word < self.stored.len() {
            self.stored[word]
        } else {
            0
        }
    }

    /// Writes a word.
    #[inline(always)]
    pub(crate) fn set_word(&mut self, word: usize, value: u64)
        requires { word < length self.old.words }
        ensures { self.new ≡ with_stored_word self.old word value }
    {
        if word < self.stored.len() {
            self.stored[word] = value;
        } else {
            self.store_word(word, value);
        }
    }

    /// A word that is stored.
    #[inline(always)]
    pub(crate) fn stored_word(&self, word: usize) -> u64
        requires { word < self.now.stored }
        ensures { result ≡ slice_index self.now.words word }
    {
        self.stored[word]
    }

    /// Writes a word that is stored.
    #[inline(always)]
    pub(crate) fn set_stored_word(&mut self, word: usize, value: u64)
        requires { word < self.old.stored }
        ensures { self.new ≡ record self.old { words = slice_set self.old.words word value } }
    {
        self.stored[word] = value;
    }

    /// Writes a word after those that are stored.
    #[cold]
    #[inline(never)]
    fn store_word(&mut self, word: usize, value: u64)
        requires { word < length self.old.words }
        ensures { self.new ≡ with_stored_word self.old word value }
    {
        self.grow(word, 1);
        self.stored[word] = value;
    }

    /// Writes 0 in the `count` words from a word on. The words that aren't stored are 0 already.
    #[inline(always)]
    pub(crate) fn clear(&mut self, from: usize, count: usize)
        requires { from + count ≤ length self.old.words }
        ensures { self.new ≡ record self.old { words = cleared_words self.old.words from count } }
    {
        let end = self.stored.len().min(from + count);
        if from < end {
            write_zeros(&mut self.stored, from, end - from);
        }
    }

    /// Copies the `count` words from `from` on to `to` and the words after it. The two may overlap.
    pub(crate) fn copy(&mut self, from: usize, to: usize, count: usize)
        requires from_within { from + count ≤ length self.old.words }
        requires to_within { to + count ≤ length self.old.words }
        ensures { self.new ≡ with_copy self.old from to count }
    {
        self.grow(from.max(to), count);
        self.copy_many(from, to, count);
    }

    /// Copies the `count` stored words from `from` on to other stored words, from `to` on. The two may overlap. A few are copied without
    /// a loop.
    #[inline(always)]
    pub(crate) fn copy_stored(&mut self, from: usize, to: usize, count: usize)
        requires from_stored { from + count ≤ self.old.stored }
        requires to_stored { to + count ≤ self.old.stored }
        ensures { self.new ≡ record self.old { words = copied_words self.old.words from to count } }
    {
        if count < 2 || count > 4 {
            self.copy_many(from, to, count);
        } else {
            copy_few(&mut self.stored, from, to, count);
        }
    }

    /// The same, for any number of words.
    #[inline(never)]
    fn copy_many(&mut self, from: usize, to: usize, count: usize)
        requires from_stored { from + count ≤ self.old.stored }
        requires to_stored { to + count ≤ self.old.stored }
        ensures { self.new ≡ record self.old { words = copied_words self.old.words from to count } }
    {
        self.stored.copy_within(from..from + count, to);
    }

    /// The stored words from `from` up to `end`.
    pub(crate) fn slice(&self, from: usize, end: usize) -> &[u64]
        requires ordered { from ≤ end }
        requires stored { end ≤ self.now.stored }
        ensures { result.now ≡ slice_range self.now.words from end }
    {
        &self.stored[from..end]
    }

    /// The words from `from` up to `end`, to be written. All words are stored first, so that what the borrower leaves lies within them.
    pub(crate) fn slice_mut(&mut self, from: usize, end: usize) -> &mut [u64]
        requires ordered { from ≤ end }
        requires within { end ≤ length self.old.words }
        ensures* writes_back { sem 𝓛 (LendsMemoryWords self.entry from result) }
        ensures value { result.now ≡ slice_range self.old.words from end }
    {
        let size = self.size;
        self.grow(0, size);
        self.stored.slice_mut(from..end)
    }

    /// The stored words from a word on.
    pub(crate) fn words_from(&self, from: usize) -> &[u64]
        requires { from ≤ self.now.stored }
        ensures value { result.now ≡ take (length result.now) (drop from self.now.words) }
        ensures len { from + length result.now ≡ self.now.stored }
    {
        &self.stored[from..]
    }

    /// The stored words from a word on, to be written. No more words are stored.
    pub(crate) fn words_from_mut(&mut self, from: usize) -> &mut [u64]
        requires { from ≤ self.old.stored }
        ensures* writes_back { sem 𝓛 (LendsStoredWords self.entry from result) }
        ensures value { result.now ≡ take (length result.now) (drop from self.old.words) }
        ensures len { from + length result.now ≡ self.old.stored }
    {
        self.stored.slice_mut(from..)
    }
}

/// Writes 0 in `count` words from the word `from` on. Where they are few they are written from both ends, without a loop.
#[inline(always)]
pub(crate) fn write_zeros(words: &mut [u64], from: usize, count: usize)
    requires { from + count ≤ length words.old }
    ensures { words.new ≡ cleared_words words.old from count }
{
    match count {
        2..=3 => write_both_ends(words, from, count, 2),
        4..=8 => write_both_ends(words, from, count, 4),
        _ => write_run(words, from, count),
    }
}

/// Writes 0 in the first `part` words of a run of words and in the last.
#[inline(always)]
fn write_both_ends(words: &mut [u64], from: usize, count: usize, part: usize)
    requires within { from + count ≤ length words.old }
    requires at_most { part ≤ count }
    requires meet { count ≤ part + part }
    ensures { words.new ≡ cleared_words words.old from count }
{
    write_run(words, from, part);
    write_run(words, from + (count - part), part);
}

/// Writes 0 in a run of words, one after the other.
#[inline(always)]
fn write_run(words: &mut [u64], from: usize, count: usize)
    requires { from + count ≤ length words.old }
    ensures { words.new ≡ cleared_words words.old from count }
{
    for i in 0..count {
        words[from + i] = 0;
    }
}

/// Copies two to four words: the first two, and the last two, of which some may be the same. All are read before one is written.
#[inline(always)]
fn copy_few(words: &mut [u64], from: usize, to: usize, count: usize)
    requires at_least { 2 ≤ count }
    requires at_most { count ≤ 4 }
    requires from_within { from + count ≤ length words.old }
    requires to_within { to + count ≤ length words.old }
    ensures { words.new ≡ copied_words words.old from to count }
{
    let first = words[from];
    let second = words[from + 1];
    let third = words[from + (count - 2)];
    let last = words[from + (count - 1)];
    words[to] = first;
    words[to + 1] = second;
    words[to + (count - 2)] = third;
    words[to + (count - 1)] = last;
}
