// The grey blocks of one rank.
#![tactic(auto)]

ghost use Rattle.std.specs.Prelude.{◌≡◌, ℕ, true, false, None, ◌+◌, ◌*◌, ◌/◌, ◌^◌, ◌<◌, ◌≤◌, length, replicate, slice_set, count_by, IfOk, IfSome, IfNone};
ghost use Rattle.mps_base.specs.Address.{words_of_grain};
ghost use Rattle.mps_bits.specs.Table.{bit, next_set_below};

use mps_base::WORDS_OF_GRAIN;
use mps_bits::Bits;
use std::alloc::{AllocError, Global};
use std::marker::Model;

/// The most hints that wait.
const MAX_HINTS: usize = 1_024;

/// Which blocks of one rank are grey, by the words at which they begin. Clauses see the list of a bit for each word.
#[derive(Drop)]
pub(crate) struct GreyBlocks {
    blocks: Bits,
    grains: Bits,
    count: usize,
    // Whether a block was made grey since all bits were clear.
    is_any_marked: bool,
    hints: Vec<u32>,
    cursor: usize,
}

impl Model for GreyBlocks {
    ghost use Rattle.std.specs.Prelude.{List, Bool, ◌≤◌, vec_capacity};
    ghost use Rattle.mps_marks.specs.Inside.{IsTallied};

    ghost Value = { List Bool };

    ghost view = { λ g. g.blocks };

    ghost invariant = { λ g. IsTallied g.blocks g.grains g.count × (1024 ≤ vec_capacity g.hints) };
}

impl GreyBlocks {
    /// None is grey of the blocks that begin in the words of `grains` grains. This is the only call that allocates.
    #[tactic(auto, using(crate::proofs::Tally::no_tally))]
    pub(crate) fn new(alloc: Global, grains: usize) -> Result<GreyBlocks, AllocError>
        requires { words_of_grain * grains < 2 ^ 32 }
        ensures { IfOk result (λ grey. grey ≡ replicate (words_of_grain * grains) false) }
    {
        Ok(GreyBlocks {
            blocks: Bits::new(alloc, WORDS_OF_GRAIN * grains)?,
            grains: Bits::new(alloc, grains)?,
            count: 0,
            is_any_marked: false,
            hints: Vec::with_capacity(alloc, MAX_HINTS)?,
            cursor: 0,
        })
    }

    /// Whether the block that begins at a word is grey.
    pub(crate) fn test(&self, word: usize) -> bool
        requires { word < length self.now }
        ensures { result ≡ bit self.now word }
    {
        self.blocks.test(word)
    }

    /// How many blocks are grey.
    pub(crate) fn count(&self) -> usize
        ensures { result ≡ count_by (λ b. b) self.now }
    {
        self.count
    }

    /// The block that begins at a word becomes grey.
    #[inline(always)]
    pub(crate) fn set(&mut self, word: usize)
        requires { word < length self.old }
        ensures { self.new ≡ slice_set self.old word true }
    {
        self.mark(word);
        if self.hints.len() < MAX_HINTS {
            self.hints.push_reserved(word as u32);
        }
    }

    /// The block that begins at a word becomes grey, without a hint.
    #[tactic(auto, using(crate::proofs::Tally::set_again, crate::proofs::Tally::one_more))]
    fn mark(&mut self, word: usize)
        requires { word < length self.old }
        ensures { self.new ≡ slice_set self.old word true }
    {
        if self.blocks.test(word) {
            return;
        }
        self.blocks.set(word);
        self.grains.set(word / WORDS_OF_GRAIN);
        self.count += 1;
        self.is_any_marked = true;
    }

    /// The block that begins at a word is no longer grey. The bit of its grain stays until a search finds no grey block there.
    #[inline(always)]
    #[tactic(auto, using(crate::proofs::Tally::set_again, crate::proofs::Tally::clear_where_none, crate::proofs::Tally::one_fewer))]
    pub(crate) fn clear(&mut self, word: usize)
        requires { word < length self.old }
        ensures { self.new ≡ slice_set self.old word false }
    {
        if self.count == 0 {
            return;
        }
        if !self.blocks.test(word) {
            return;
        }
        self.blocks.clear(word);
        self.count -= 1;
    }

    /// No block is grey.
    #[tactic(auto, using(crate::proofs::Tally::none_counted))]
    pub(crate) fn clear_all(&mut self)
        ensures { self.new ≡ replicate (length self.old) false }
    {
        self.hints.clear();
        self.cursor = 0;
        self.clear_blocks();
        self.clear_grains();
    }

    /// No block is grey. Their table is gone over only where one is.
    #[tactic(auto, using(crate::proofs::Tally::all_blocks_cleared, crate::proofs::Tally::all_clear))]
    fn clear_blocks(&mut self)
        ensures { self.new ≡ replicate (length self.old) false }
    {
        if self.count > 0 {
            self.blocks.clear_all();
            self.count = 0;
        }
    }

    /// Where no block is grey: takes away the bits that are left of grains.
    #[tactic(auto, using(crate::proofs::Tally::all_grains_cleared))]
    fn clear_grains(&mut self)
        requires { count_by (λ b. b) self.old ≡ 0 }
        ensures { self.new ≡ self.old }
    {
        if self.is_any_marked {
            self.grains.clear_all();
            self.is_any_marked = false;
        }
    }

    /// The lowest grey block among those that begin from the word `from` up to, but not at, the word `to`. Grains whose bit is clear are
    /// passed over 64 a step, and each other one is searched by itself.
    #[tactic(auto, using(crate::proofs::Tally::no_grain, crate::proofs::Tally::grain_within))]
    pub(crate) fn lowest_in(&self, from: usize, to: usize) -> Option<usize>
        requires { to ≤ length self.now }
        ensures { result ≡ next_set_below self.now from to }
    {
        if self.count == 0 {
            return None;
        }
        let end = to.div_ceil(WORDS_OF_GRAIN);
        let mut at = from;
        while at < to {
            let grain = self.grains.next_set_below(at / WORDS_OF_GRAIN, end)?;
            let low = WORDS_OF_GRAIN * grain;
            let high = to.min(low + WORDS_OF_GRAIN);
            if let Some(word) = self.blocks.next_set_below(at.max(low), high) {
                return Some(word);
            }
            at = high;
        }
        None
    }

    /// A grey block: the latest hint that still is one, else the next from the cursor on.
    #[tactic(auto, using(crate::proofs::Tally::clear_where_none))]
    pub(crate) fn next(&mut self) -> Option<usize>
        ensures unchanged { self.new ≡ self.old }
        ensures sound { IfSome result (λ word. bit self.old word ≡ true) }
        ensures complete { IfNone result ((word : ℕ) → bit self.old word ≡ false) }
    {
        if let Some(word) = self.hinted() {
            return Some(word);
        }
        if self.count == 0 {
            return None;
        }
        self.cursor = self.search()?;
        Some(self.cursor)
    }

    /// The latest hint that is a grey block. Takes it and the later ones away.
    fn hinted(&mut self) -> Option<usize>
        ensures unchanged { self.new ≡ self.old }
        ensures sound { IfSome result (λ word. bit self.old word ≡ true) }
    {
        while let Some(hint) = self.hints.pop() {
            let word = hint as usize;
            if word < self.blocks.len() && self.blocks.test(word) {
                return Some(word);
            }
        }
        None
    }

    /// The lowest grey block from the cursor on, or else the lowest of all.
    #[cold]
    #[inline(never)]
    #[tactic(auto, using(crate::proofs::Tally::search_sound))]
    fn search(&mut self) -> Option<usize>
        ensures unchanged { self.new ≡ self.old }
        ensures sound { IfSome result (λ word. bit self.old word ≡ true) }
        ensures complete { IfNone result ((word : ℕ) → bit self.old word ≡ false) }
    {
        let grain = self.cursor / WORDS_OF_GRAIN;
        let end = WORDS_OF_GRAIN.saturating_mul(grain + 1);
        if let Some(word) = self.lowest_in(self.cursor, end.min(self.blocks.len())) {
            return Some(word);
        }
        if let Some(word) = self.lowest_from(grain + 1) {
            return Some(word);
        }
        self.lowest_from(0)
    }

    /// The lowest grey block among those of the grains from `first` on. Takes the bit away of each grain where it finds none.
    #[tactic(auto, using(crate::proofs::Tally::search_sound, crate::proofs::Tally::grain_within))]
    fn lowest_from(&mut self, first: usize) -> Option<usize>
        ensures unchanged { self.new ≡ self.old }
        ensures sound { IfSome result (λ word. bit self.old word ≡ true) }
        ensures complete { IfNone result ((word : ℕ) → words_of_grain * first ≤ word → bit self.old word ≡ false) }
    {
        let end = self.grains.len();
        let mut from = first;
        while let Some(grain) = self.grains.next_set_below(from, end) {
            let low = WORDS_OF_GRAIN * grain;
            if let Some(word) = self.blocks.next_set_below(low, low + WORDS_OF_GRAIN) {
                return Some(word);
            }
            self.grains.clear(grain);
            from = grain + 1;
        }
        None
    }
}
