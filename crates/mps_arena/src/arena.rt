// The arena.
#![tactic(auto)]

ghost use Rattle.std.specs.Prelude.{◌≡◌, ℕ, ◌+◌, ◌*◌, ◌/◌, ◌%◌, ◌<◌, ◌≤◌, length, take, drop, IfOk, IfErr, OnOk, Contains, slice_get, slice_index, slice_set, slice_range, MatchResult};
ghost use Rattle.mps_base.specs.Run.{total, with_run, without_run};
ghost use Rattle.mps_base.specs.Address.{bytes_of_word, bytes_of_grain, grain_of, word_of, words_of_grain, max_grains, max_block_words};
ghost use Rattle.mps_arena.specs.Arena.{ArenaMemory, AreHeldWords, new_arena, placement_in, answer_of_placement, held_after, cleared_words, copied_words};
ghost use Rattle.std.specs.Borrow.{sem};
ghost use Rattle.mps_arena.specs.Lending.{LendsArenaWords, LendsHeldWords};

use crate::grains::{FreeRun, lowest_free};
use crate::memory::Memory;
use mps_base::{Addr, BYTES_OF_GRAIN, BYTES_OF_WORD, Refusal, WORDS_OF_GRAIN};
use std::alloc::{AllocError, Global};
use std::marker::Model;

/// The words of an arena, and which runs of its grains are held. Clauses see its words, its size and its limit in grains, and the runs.
#[derive(Drop)]
pub struct Arena {
    memory: Memory,
    runs: Vec<u32>,
    // All grains below this one are held, so a search for free ones begins at it.
    held_below: u32,
    committed: u32,
    limit: u32,
}

impl Model for Arena {
    ghost use Rattle.mps_arena.specs.Arena.{ArenaMemory};
    ghost use Rattle.std.specs.Prelude.{length};
    ghost use Rattle.mps_arena.specs.Grains.{runs_in};
    ghost use Rattle.mps_arena.specs.Inside.{memory_of, IsSoundArena, AreStored, AreHeldBelow};

    ghost Value = { ArenaMemory };

    ghost view = { λ a. memory_of a.memory.words a.runs.items a.limit };

    ghost invariant = { λ a. IsSoundArena a.memory.words a.runs.items a.committed a.limit
        × AreStored (runs_in a.runs.items) (length a.memory.words) a.memory.stored × AreHeldBelow a.runs.items a.held_below };
}

impl Arena {
    /// An arena of the grains 1 to `grains`, whose words are all 0, with a commit limit in grains. This is the only call that allocates.
    pub fn new(alloc: Global, grains: u32, limit: u32) -> Result<Arena, AllocError>
        requires nonzero { 0 < grains }
        requires at_most { grains ≤ max_grains }
        ensures { IfOk result (λ arena. arena ≡ new_arena grains limit) }
    {
        let runs = vec![in alloc; 0u32; grains as usize + 1]?;
        let memory = Memory::new(alloc, WORDS_OF_GRAIN * (grains as usize + 1))?;
        Ok(Arena {
            memory,
            runs,
            held_below: 1,
            committed: 0,
            limit,
        })
    }

    /// Takes the lowest run of `grains` free grains and returns its address. Refuses `CommitLimit` if more grains would be held than
    /// the limit allows, and `NoRun` if the limit allows them and no free run is that long.
    #[inline(always)]
    pub fn take_run(&mut self, grains: u32) -> Result<Addr, Refusal>
        requires { 0 < grains }
        ensures value { result ≡ answer_of_placement (placement_in self.old grains) }
        ensures state { self.new ≡ record self.old { held = held_after (placement_in self.old grains) self.old.held } }
    {
        if grains > self.limit - self.committed {
            return Err(Refusal::CommitLimit {
                committed: self.committed,
                need: grains,
                limit: self.limit,
            });
        }
        match lowest_free(&self.runs, self.held_below, grains) {
            Ok(FreeRun { grain, held_below }) => {
                self.memory
                    .store_run(WORDS_OF_GRAIN * (grain as usize + grains as usize));
                self.runs[grain as usize] = grains;
                self.held_below = held_below;
                self.committed += grains;
                Ok(Addr(BYTES_OF_GRAIN * grain as u64))
            }
            Err(longest) => Err(Refusal::NoRun {
                need: grains,
                longest,
            }),
        }
    }

    /// Gives back a run that was taken, the whole of it. Its words stay as they are.
    pub fn give_run(&mut self, base: Addr, grains: u32)
        requires aligned { base.0 % bytes_of_grain ≡ 0 }
        requires held { Contains self.old.held (record { from = grain_of base.0; count = grains }) }
        ensures { self.new ≡ record self.old { held = without_run (grain_of base.0) self.old.held } }
    {
        let grain = (base.0 / BYTES_OF_GRAIN) as usize;
        self.runs[grain] = 0;
        self.held_below = self.held_below.min(grain as u32);
        self.committed -= grains;
    }

    /// Sets the commit limit, in grains. Refuses `BelowCommitted` if more grains than that are held.
    pub fn set_limit(&mut self, limit: u32) -> Result<(), Refusal>
        ensures state { MatchResult result (λ _. self.new ≡ record self.old { limit = limit }) (λ _. self.new ≡ self.old) }
        ensures sound { OnOk result (total self.old.held ≤ limit) }
        ensures refuses { IfErr result (λ why. (why ≡ Refusal.BelowCommitted) × (limit < total self.old.held)) }
    {
        if limit < self.committed {
            return Err(Refusal::BelowCommitted);
        }
        self.limit = limit;
        Ok(())
    }

    /// How many grains are held.
    pub fn committed(&self) -> u32
        ensures { result ≡ total self.now.held }
    {
        self.committed
    }

    /// How many grains the arena has: its grains are those from 1 up to this one, and its words those of these grains and of grain 0.
    pub fn grains(&self) -> u32
        ensures value { result ≡ self.now.grains }
        ensures at_most { self.now.grains ≤ max_grains }
        ensures size { length self.now.words ≡ words_of_grain * (self.now.grains + 1) }
    {
        self.runs.len() as u32 - 1
    }

    /// The word of a number, which is its address divided by 8; none if the arena has no such word.
    #[inline(always)]
    pub fn item(&self, word: usize) -> Option<u64>
        ensures { result ≡ slice_get self.now.words word }
    {
        self.memory.item(word)
    }

    /// The words from a held one on: all that the arena has there, or at least as many as a block may have.
    pub fn words_from(&self, at: Addr) -> &[u64]
        requires held { AreHeldWords self.now.held (word_of at.0) 1 }
        ensures value { result.now ≡ take (length result.now) (drop (word_of at.0) self.now.words) }
        ensures complete { (n : ℕ) → n ≤ max_block_words → word_of at.0 + n ≤ length self.now.words → n ≤ length result.now }
    {
        self.memory.words_from(at.word())
    }

    /// As `words_from`, to be written. It touches no memory but what the borrower writes.
    pub fn words_from_mut(&mut self, at: Addr) -> &mut [u64]
        requires held { AreHeldWords self.old.held (word_of at.0) 1 }
        ensures* writes_back { sem 𝓛 (LendsHeldWords self.entry at.0 result) }
        ensures value { result.now ≡ take (length result.now) (drop (word_of at.0) self.old.words) }
        ensures complete { (n : ℕ) → n ≤ max_block_words → word_of at.0 + n ≤ length self.old.words → n ≤ length result.now }
    {
        self.memory.words_from_mut(at.word())
    }

    /// Writes a word, a number of words from a held one on. It touches no memory but that word.
    #[inline(always)]
    pub fn set_word_from(&mut self, at: Addr, cell: u32, word: u64)
        requires held { AreHeldWords self.old.held (word_of at.0) 1 }
        requires at_most { cell < max_block_words }
        requires inside { word_of at.0 + cell < length self.old.words }
        ensures { self.new ≡ record self.old { words = slice_set self.old.words (word_of at.0 + cell) word } }
    {
        let memory = self.words_from_mut(at);
        memory[cell as usize] = word;
    }

    /// The `words` words from `at` on, which are held.
    pub fn lend(&self, at: Addr, words: u32) -> &[u64]
        requires aligned { at.0 % bytes_of_word ≡ 0 }
        requires held { AreHeldWords self.now.held (word_of at.0) words }
        ensures { result.now ≡ slice_range self.now.words (word_of at.0) (word_of at.0 + words) }
    {
        let from = (at.0 / BYTES_OF_WORD) as usize;
        self.memory.slice(from, from + words as usize)
    }

    /// The `words` words from `at` on, to be written. The first such call touches all memory of the arena, `set_word` and `copy` only
    /// what they write and what lies before it.
    pub fn lend_mut(&mut self, at: Addr, words: u32) -> &mut [u64]
        requires aligned { at.0 % bytes_of_word ≡ 0 }
        requires in_arena { word_of at.0 + words ≤ length self.old.words }
        ensures* writes_back { sem 𝓛 (LendsArenaWords self.entry at.0 result) }
        ensures value { result.now ≡ slice_range self.old.words (word_of at.0) (word_of at.0 + words) }
    {
        let from = (at.0 / BYTES_OF_WORD) as usize;
        self.memory.slice_mut(from, from + words as usize)
    }

    /// The word at an address.
    pub fn word(&self, at: Addr) -> u64
        requires { word_of at.0 < length self.now.words }
        ensures { result ≡ slice_index self.now.words (word_of at.0) }
    {
        self.memory.word(at.word())
    }

    /// Writes the word at an address.
    pub fn set_word(&mut self, at: Addr, word: u64)
        requires { word_of at.0 < length self.old.words }
        ensures { self.new ≡ record self.old { words = slice_set self.old.words (word_of at.0) word } }
    {
        self.memory.set_word(at.word(), word);
    }

    /// The word at an address in a held grain. It costs no test, as `word` does.
    #[inline(always)]
    pub fn held_word(&self, at: Addr) -> u64
        requires { AreHeldWords self.now.held (word_of at.0) 1 }
        ensures { result ≡ slice_index self.now.words (word_of at.0) }
    {
        self.memory.stored_word(at.word())
    }

    /// Writes the word at an address in a held grain.
    #[inline(always)]
    pub fn set_held_word(&mut self, at: Addr, word: u64)
        requires { AreHeldWords self.old.held (word_of at.0) 1 }
        ensures { self.new ≡ record self.old { words = slice_set self.old.words (word_of at.0) word } }
    {
        self.memory.set_stored_word(at.word(), word);
    }

    /// Writes 0 in the `words` words from `at` on.
    #[inline(always)]
    pub fn clear(&mut self, at: Addr, words: u32)
        requires { word_of at.0 + words ≤ length self.old.words }
        ensures { self.new ≡ record self.old { words = cleared_words self.old.words (word_of at.0) words } }
    {
        self.memory.clear(at.word(), words as usize);
    }

    /// Copies the `words` words from `from` on to `to` and the words after it. The two may overlap.
    pub fn copy(&mut self, from: Addr, to: Addr, words: u32)
        requires from_in_arena { word_of from.0 + words ≤ length self.old.words }
        requires to_in_arena { word_of to.0 + words ≤ length self.old.words }
        ensures { self.new ≡ record self.old { words = copied_words self.old.words (word_of from.0) (word_of to.0) words } }
    {
        self.memory.copy(from.word(), to.word(), words as usize);
    }

    /// Copies the `words` words from `from` on to `to` and the words after it. All of them are held. The two may overlap.
    #[inline(always)]
    pub fn copy_held(&mut self, from: Addr, to: Addr, words: u32)
        requires from_held { AreHeldWords self.old.held (word_of from.0) words }
        requires to_held { AreHeldWords self.old.held (word_of to.0) words }
        ensures { self.new ≡ record self.old { words = copied_words self.old.words (word_of from.0) (word_of to.0) words } }
    {
        self.memory
            .copy_stored(from.word(), to.word(), words as usize);
    }
}
