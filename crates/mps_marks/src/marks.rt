// The marks of a collection, by the words at which blocks begin.
#![tactic(auto)]

ghost use Rattle.std.specs.Prelude.{◌≡◌, ℕ, true, false, ◌+◌, ◌*◌, ◌^◌, ◌<◌, ◌≤◌, ◌||◌, length, replicate, slice_set, count_by, IfOk, IfSome, IfNone};
ghost use Rattle.mps_base.specs.Address.{words_of_grain};
ghost use Rattle.mps_bits.specs.Table.{bit, next_set_below};
ghost use Rattle.mps_marks.specs.Marks.{MarkTables, no_marks, grey_of, with_grey, after_blacken, without_marks};

use crate::grey_blocks::GreyBlocks;
use mps_base::{Rank, WORDS_OF_GRAIN};
use mps_bits::Bits;
use std::alloc::{AllocError, Global};
use std::marker::Model;

/// Which blocks a collection keeps, and which are grey, by the words at which they begin. The grey blocks of each rank have a table of
/// their own. Clauses see lists of a bit for each word.
#[derive(Drop)]
pub struct Marks {
    kept: Bits,
    // Whether a block was kept since all marks were clear.
    is_any_kept: bool,
    exact: GreyBlocks,
    weak: GreyBlocks,
}

impl Model for Marks {
    ghost use Rattle.std.specs.Prelude.{◌≡◌, length};
    ghost use Rattle.mps_marks.specs.Marks.{MarkTables};
    ghost use Rattle.mps_marks.specs.Inside.{IsNoted};

    ghost Value = { MarkTables };

    ghost view = { λ m. record { kept = m.kept; exact = m.exact; weak = m.weak } };

    ghost invariant = { λ m. (length m.exact ≡ length m.kept) × (length m.weak ≡ length m.kept)
        × IsNoted m.kept m.is_any_kept };
}

impl Marks {
    /// Marks for the blocks that begin in the words of `grains` grains; none is set. This is the only call that allocates.
    pub fn new(alloc: Global, grains: usize) -> Result<Marks, AllocError>
        requires { words_of_grain * grains < 2 ^ 32 }
        ensures { IfOk result (λ marks. marks ≡ no_marks (words_of_grain * grains)) }
    {
        Ok(Marks {
            kept: Bits::new(alloc, WORDS_OF_GRAIN * grains)?,
            is_any_kept: false,
            exact: GreyBlocks::new(alloc, grains)?,
            weak: GreyBlocks::new(alloc, grains)?,
        })
    }

    /// How many words have marks.
    pub fn words(&self) -> usize
        ensures { result ≡ length self.now.kept }
    {
        self.kept.len()
    }

    /// The table of kept blocks, with a bit for each word.
    #[inline(always)]
    pub fn kept(&self) -> &Bits
        ensures { result.now ≡ self.now.kept }
    {
        &self.kept
    }

    /// The collection keeps the block that begins at a word.
    pub fn keep(&mut self, word: usize)
        requires { word < length self.old.kept }
        ensures { self.new ≡ record self.old { kept = slice_set self.old.kept word true } }
    {
        self.kept.set(word);
        self.is_any_kept = true;
    }

    /// Whether the collection keeps the block that begins at a word.
    pub fn is_kept(&self, word: usize) -> bool
        requires { word < length self.now.kept }
        ensures { result ≡ bit self.now.kept word }
    {
        self.kept.test(word)
    }

    /// The block that begins at a word becomes grey, as one of a rank.
    #[inline(always)]
    pub fn set_grey(&mut self, word: usize, rank: Rank)
        requires { word < length self.old.kept }
        ensures { self.new ≡ with_grey rank word self.old }
    {
        match rank {
            Rank::Exact => self.exact.set(word),
            Rank::Weak => self.weak.set(word),
        }
    }

    /// Whether the block that begins at a word is grey, as one of either rank.
    pub fn is_grey(&self, word: usize) -> bool
        requires { word < length self.now.kept }
        ensures { result ≡ (bit self.now.exact word || bit self.now.weak word) }
    {
        self.exact.test(word) || self.weak.test(word)
    }

    /// The block that begins at a word is no longer grey.
    pub fn blacken(&mut self, word: usize)
        requires { word < length self.old.kept }
        ensures { self.new ≡ after_blacken word self.old }
    {
        self.exact.clear(word);
        self.weak.clear(word);
    }

    /// Clears all marks at a word.
    #[tactic(auto, using(crate::proofs::Tally::noted_still))]
    pub fn clear(&mut self, word: usize)
        requires { word < length self.old.kept }
        ensures { self.new ≡ without_marks word self.old }
    {
        self.kept.clear(word);
        self.blacken(word);
    }

    /// No block is kept. Its table is gone over only if one was.
    fn clear_kept(&mut self)
        ensures { self.new ≡ record self.old { kept = replicate (length self.old.kept) false } }
    {
        if self.is_any_kept {
            self.kept.clear_all();
            self.is_any_kept = false;
        }
    }

    /// Clears all marks: the collection ends.
    pub fn clear_all(&mut self)
        ensures { self.new ≡ no_marks (length self.old.kept) }
    {
        self.clear_kept();
        self.exact.clear_all();
        self.weak.clear_all();
    }

    /// Whether a block is grey, of either rank.
    #[inline(always)]
    pub fn is_any_grey(&self) -> bool
        ensures some { result ≡ true → 0 < count_by (λ b. b) self.now.exact + count_by (λ b. b) self.now.weak }
        ensures none { result ≡ false → (count_by (λ b. b) self.now.exact ≡ 0) × (count_by (λ b. b) self.now.weak ≡ 0) }
    {
        if self.exact.count() > 0 {
            return true;
        }
        self.weak.count() > 0
    }

    /// How many blocks of a rank are grey.
    pub fn grey_count(&self, rank: Rank) -> usize
        ensures { result ≡ count_by (λ b. b) (grey_of rank self.now) }
    {
        match rank {
            Rank::Exact => self.exact.count(),
            Rank::Weak => self.weak.count(),
        }
    }

    /// The word at which a grey block of a rank begins; None if no block of that rank is grey. Which one it is is open.
    pub fn next_grey(&mut self, rank: Rank) -> Option<usize>
        ensures unchanged { self.new ≡ self.old }
        ensures sound { IfSome result (λ word. bit (grey_of rank self.old) word ≡ true) }
        ensures complete { IfNone result ((word : ℕ) → bit (grey_of rank self.old) word ≡ false) }
    {
        match rank {
            Rank::Exact => self.exact.next(),
            Rank::Weak => self.weak.next(),
        }
    }

    /// The lowest word from `from` up to, but not at, `to` at which a grey block of a rank begins.
    pub fn grey_in(&self, rank: Rank, from: usize, to: usize) -> Option<usize>
        requires { to ≤ length self.now.kept }
        ensures { result ≡ next_set_below (grey_of rank self.now) from to }
    {
        match rank {
            Rank::Exact => self.exact.lowest_in(from, to),
            Rank::Weak => self.weak.lowest_in(from, to),
        }
    }
}
