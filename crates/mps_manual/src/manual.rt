// The manual pools.
#![tactic(auto)]

ghost use Rattle.std.specs.Prelude.{◌≡◌, ℕ, ◌+◌, ◌%◌, ◌<◌, ◌≤◌, [], ◌∷◌, ◌++◌, List, length, option_map, slice_get, slice_index, slice_range, MatchResult, Contains};
ghost use Rattle.std.specs.Borrow.{sem};
ghost use Rattle.mps_base.specs.Address.{word_of, bytes_of_word};
ghost use Rattle.mps_base.specs.Segment.{segment_over};
ghost use Rattle.mps_base.specs.Trail.{with_move};
ghost use Rattle.mps_base.specs.declared.names.Rank.TheVariants.{Exact};
ghost use Rattle.mps_seg.specs.Lending.{LendsSegmentWords};
ghost use Rattle.mps_seg.specs.Placing.{placement_in_gaps};
ghost use Rattle.mps_manual.specs.Manual.{has_blocks_of, answer_of_alloc, segs_after_alloc, moves_allocated, segs_after_free, moves_freed, given_back, moves_given_back};

use mps_base::{Addr, Move, Rank, Refusal, Trail};
use mps_seg::Segs;
use std::alloc::{AllocError, Global};
use std::marker::Model;

/// The most words that a block may have.
const MAX_BLOCK_WORDS: u64 = 65_536;

/// In place of a size: the pool has blocks of any sizes.
const ANY_SIZE: u32 = 0;

/// The sizes of the blocks of manual pools. Clauses see the list, by the number of the pool.
#[derive(Drop)]
pub struct Manual {
    sizes: Vec<u32>,
}

impl Model for Manual {
    ghost use Rattle.std.specs.Prelude.{List, ℕ};

    ghost Value = { List ℕ };

    ghost view = { λ m. m.sizes.items };
}

impl Manual {
    /// No pools. Takes no memory.
    pub fn new(alloc: Global) -> Manual
        ensures { result ≡ [] }
    {
        Manual {
            sizes: Vec::new(alloc),
        }
    }

    /// How many pools have a number.
    pub fn pools(&self) -> usize
        ensures { result ≡ length self.now }
    {
        self.sizes.len()
    }

    /// Whether the pool with a number has blocks of `words` words; None if no pool has the number.
    pub fn takes(&self, pool: u32, words: u64) -> Option<bool>
        ensures { result ≡ option_map (λ size. has_blocks_of size words) (slice_get self.now pool) }
    {
        let size = *self.sizes.get(pool as usize)?;
        Some(is_allowed(size, words))
    }

    /// One more pool, whose blocks have `size` words, or any sizes if that is 0. A pool that isn't manual takes a number too; its
    /// size is never used.
    pub fn add(&mut self, size: u32) -> Result<(), AllocError>
        ensures { MatchResult result (λ _. self.new ≡ self.old ++ size ∷ []) (λ _. self.new ≡ self.old) }
    {
        self.sizes.push(size)?;
        Ok(())
    }

    /// Takes the last pool off again.
    pub fn remove_last(&mut self)
        requires nonzero { 0 < length self.old }
        ensures { (sizes : List ℕ) → (size : ℕ) → self.old ≡ sizes ++ size ∷ [] → self.new ≡ sizes }
    {
        let last = self.sizes.len() - 1;
        self.sizes.truncate(last);
    }

    /// Makes a block of `words` words in the lowest gap of the pool that fits, else in a new segment, and returns where it begins. Its
    /// words are 0. Refuses `BadSize` if the pool has no blocks of this size, and then `CommitLimit` and `NoRun` as
    /// `Segs::take` does.
    pub fn alloc(
        &self,
        segs: &mut Segs,
        trail: &mut Trail,
        pool: u32,
        words: u32,
    ) -> Result<Addr, Refusal>
        requires listed { pool < length self.now }
        requires fits { 1 < trail.old.spare }
        ensures value { result ≡ answer_of_alloc (slice_index self.now pool) segs.old pool words }
        ensures state { MatchResult result (λ at. segs.new ≡ segs_after_alloc segs.old pool words at) (λ _. segs.new ≡ segs.old) }
        ensures moves { MatchResult result (λ at. trail.new ≡ moves_allocated segs.old trail.old pool words at)
            (λ _. trail.new ≡ trail.old) }
    {
        if !is_allowed(self.sizes[pool as usize], u64::from(words)) {
            return Err(Refusal::BadSize);
        }
        let at = segs.place(trail, pool, Rank::Exact, words)?;
        segs.commit_block(at, words);
        let _ = segs.grains(); // its words have the block
        segs.clear(at, words);
        trail.push(Move::Alloc { at, words, pool });
        Ok(at)
    }

    /// Lends the words of the block that begins at `at`, and no others.
    pub fn lend(segs: &Segs, at: Addr) -> &[u64]
        requires aligned { at.0 % bytes_of_word ≡ 0 }
        requires block { (words : ℕ) × Contains segs.now.blocks (record { from = word_of at.0; count = words }) }
        ensures whole { Contains segs.now.blocks (record { from = word_of at.0; count = length result.now }) }
        ensures value { result.now ≡ slice_range segs.now.words (word_of at.0) (word_of at.0 + length result.now) }
    {
        let words = segs.block_words(at);
        segs.lend(at, words)
    }

    /// Lends the words of the block that begins at `at`, and no others, to be written.
    pub fn lend_mut(segs: &mut Segs, at: Addr) -> &mut [u64]
        requires aligned { at.0 % bytes_of_word ≡ 0 }
        requires block { (words : ℕ) × Contains segs.old.blocks (record { from = word_of at.0; count = words }) }
        ensures* writes_back { sem 𝓛 (LendsSegmentWords segs.entry at.0 result) }
        ensures whole { Contains segs.old.blocks (record { from = word_of at.0; count = length result.now }) }
        ensures value { result.now ≡ slice_range segs.old.words (word_of at.0) (word_of at.0 + length result.now) }
    {
        let words = segs.block_words(at);
        segs.lend_mut(at, words)
    }

    /// Frees the block that begins at `at`. In a pool of any sizes its segment is given back if nothing is left in it.
    pub fn free(&self, segs: &mut Segs, trail: &mut Trail, pool: u32, at: Addr)
        requires listed { pool < length self.now }
        requires block { (words : ℕ) × Contains segs.old.blocks (record { from = word_of at.0; count = words }) }
        requires fits { 1 < trail.old.spare }
        ensures state { segs.new ≡ segs_after_free (slice_index self.now pool) segs.old at.0 }
        ensures moves { trail.new ≡ moves_freed (slice_index self.now pool) segs.old trail.old at }
    {
        let words = segs.block_words(at);
        segs.drop_block(at, words);
        trail.push(Move::Free { at });
        if self.sizes[pool as usize] == ANY_SIZE {
            give_empty(segs, trail, at);
        }
    }
}

/// Whether a pool whose blocks have this size has blocks of n words.
fn is_allowed(size: u32, words: u64) -> bool
    ensures { result ≡ has_blocks_of size words }
{
    1 <= words && words <= MAX_BLOCK_WORDS && (size == ANY_SIZE || words == u64::from(size))
}

/// Gives back the segment in which an address lies, if nothing is left in it.
fn give_empty(segs: &mut Segs, trail: &mut Trail, at: Addr)
    requires { 0 < trail.old.spare }
    ensures state { segs.new ≡ given_back segs.old (segment_over segs.old.segments at.0) }
    ensures moves { trail.new ≡ moves_given_back segs.old.covered (segment_over segs.old.segments at.0) trail.old }
{
    let Some(base) = segs.segment_of(at) else {
        return;
    };
    if segs.is_empty(base) {
        segs.give(trail, base);
    }
}
