// Which words are covered, as tables of bits.
#![tactic(auto)]

ghost use Rattle.std.specs.Prelude.{◌≡◌, ℕ, ◌+◌, ◌^◌, ◌<◌, ◌≤◌, true, [], length, IfOk, IfSome, IfNone, Contains};
ghost use Rattle.mps_base.specs.Run.{Run, IsAscending, with_run, without_run, gaps, lowest_fitting, runs_within, total};
ghost use Rattle.mps_extents.specs.Extents.{ExtentLists, nothing_covered, is_covered, run_over, first_run, IsFirstWithin, IsLowestUncovered, AreWhole};

mod sweeping;

use mps_bits::Bits;
use std::alloc::{AllocError, Global};
use std::marker::Model;

/// Which words blocks and reservations cover, by the numbers of the words. Clauses see lists of runs of words, in ascending order.
#[derive(Drop)]
pub struct Extents {
    covered: Bits,
    // Where blocks begin, and where reservations do.
    blocks: Bits,
    opens: Bits,
    // The last word of each extent. A bit is of no account where nothing is covered: who covers words writes the bits of all of them.
    ends: Bits,
    live_blocks: usize,
    live_words: usize,
}

impl Model for Extents {
    ghost use Rattle.mps_extents.specs.Extents.{ExtentLists};
    ghost use Rattle.mps_extents.specs.Inside.{extents, either, lists_of, AreSoundTables, AreApart, IsTally};

    ghost Value = { ExtentLists };

    ghost view = { λ e. lists_of (either e.opens e.blocks) e.ends e.blocks };

    ghost invariant = { λ e. AreSoundTables e.covered (either e.opens e.blocks) e.ends e.blocks
        × AreApart e.opens e.blocks
        × IsTally (extents e.blocks e.ends) e.live_blocks e.live_words };
}

impl Extents {
    /// `size` words, of which none is covered. This is the only call that allocates.
    pub fn new(alloc: Global, size: usize) -> Result<Extents, AllocError>
        requires { size < 2 ^ 32 }
        ensures { IfOk result (λ extents. extents ≡ nothing_covered size) }
    {
        Ok(Extents {
            covered: Bits::new(alloc, size)?,
            blocks: Bits::new(alloc, size)?,
            opens: Bits::new(alloc, size)?,
            ends: Bits::new(alloc, size)?,
            live_blocks: 0,
            live_words: 0,
        })
    }

    /// Covers `words` words from `at` on by a reservation.
    #[inline(always)]
    pub fn cover(&mut self, at: usize, words: usize)
        requires nonzero { 0 < words }
        requires free { IsAscending 0 self.old.size (with_run (record { from = at; count = words }) self.old.covered) }
        ensures { self.new ≡ record self.old {
          covered = with_run (record { from = at; count = words }) self.old.covered;
          reservations = with_run (record { from = at; count = words }) self.old.reservations;
        } }
    {
        self.covered.set_range(at, at + words);
        self.ends.end_run(at, at + words);
        self.opens.set(at);
    }

    /// Removes the reservation of `words` words that begins at `at`.
    pub fn uncover(&mut self, at: usize, words: usize)
        requires { Contains self.old.reservations (record { from = at; count = words }) }
        ensures state { self.new ≡ record self.old {
          covered = without_run at self.old.covered;
          reservations = without_run at self.old.reservations;
        } }
        ensures was_covered { Contains self.old.covered (record { from = at; count = words }) }
    {
        self.covered.clear_range(at, at + words); // a gap again
        self.opens.clear(at); // and no reservation
    }

    /// Covers `words` words from `at` on by a block.
    #[inline(always)]
    pub fn commit_block(&mut self, at: usize, words: usize)
        requires nonzero { 0 < words }
        requires free { IsAscending 0 self.old.size (with_run (record { from = at; count = words }) self.old.covered) }
        ensures { self.new ≡ record self.old {
          covered = with_run (record { from = at; count = words }) self.old.covered;
          blocks = with_run (record { from = at; count = words }) self.old.blocks;
        } }
    {
        self.covered.set_range(at, at + words);
        self.ends.end_run(at, at + words); // its only end
        self.blocks.set(at);
        self.live_blocks += 1;
        self.live_words += words;
    }

    /// The reservation of `words` words that begins at `at` becomes a block.
    #[inline(always)]
    pub fn commit(&mut self, at: usize, words: usize)
        requires { Contains self.old.reservations (record { from = at; count = words }) }
        ensures state { self.new ≡ record self.old {
          blocks = with_run (record { from = at; count = words }) self.old.blocks;
          reservations = without_run at self.old.reservations;
        } }
        ensures covered { Contains self.old.covered (record { from = at; count = words }) }
    {
        self.opens.clear(at);
        self.blocks.set(at);
        self.live_blocks += 1;
        self.live_words += words;
    }

    /// Removes the block of `words` words that begins at `at`.
    #[inline(always)]
    pub fn drop_block(&mut self, at: usize, words: usize)
        requires { Contains self.old.blocks (record { from = at; count = words }) }
        ensures state { self.new ≡ record self.old {
          covered = without_run at self.old.covered;
          blocks = without_run at self.old.blocks;
        } }
        ensures was_covered { Contains self.old.covered (record { from = at; count = words }) }
    {
        self.covered.clear_range(at, at + words);
        self.blocks.clear(at);
        self.live_blocks -= 1;
        self.live_words -= words;
    }

    /// The block of `words` words that begins at `from` begins at `to` from now on, on words that nothing else covers. There are as many
    /// blocks as before, with as many words.
    #[inline(always)]
    pub fn move_block(&mut self, from: usize, to: usize, words: usize)
        requires nonzero { 0 < words }
        requires block { Contains self.old.blocks (record { from = from; count = words }) }
        requires free { IsAscending 0 self.old.size (with_run (record { from = to; count = words }) (without_run from self.old.covered)) }
        ensures { self.new ≡ record self.old {
          covered = with_run (record { from = to; count = words }) (without_run from self.old.covered);
          blocks = with_run (record { from = to; count = words }) (without_run from self.old.blocks);
        } }
    {
        self.covered.move_run(&mut self.ends, from, to, words);
        self.blocks.clear(from);
        self.blocks.set(to);
    }

    /// How many blocks there are.
    pub fn live_blocks(&self) -> usize
        ensures { result ≡ length self.now.blocks }
    {
        self.live_blocks
    }

    /// How many words the blocks have together.
    pub fn live_words(&self) -> usize
        ensures { result ≡ total self.now.blocks }
    {
        self.live_words
    }

    /// Blocks are covered: a block is among the runs that blocks and reservations cover.
    #[inline(always)]
    pub fn blocks_are_covered(&self)
        ensures { (r : Run) → Contains self.now.blocks r → Contains self.now.covered r }
    {
        let _ = &self.covered;
    }

    /// Does nothing: a caller knows that the blocks are in ascending order.
    #[inline(always)]
    #[tactic(auto, using(crate::proofs::Tally::blocks_ascend))]
    pub fn blocks_are_in_order(&self)
        ensures { IsAscending 0 self.now.size self.now.blocks }
    {
        let _ = &self.covered;
    }

    /// How many words the block has that begins at `at`.
    pub fn block_words(&self, at: usize) -> usize
        requires { (words : ℕ) × Contains self.now.blocks (record { from = at; count = words }) }
        ensures sound { Contains self.now.blocks (record { from = at; count = result }) }
        ensures at_most { at + result ≤ self.now.size }
    {
        let last = self.ends.next_set(at).unwrap();
        last - at + 1
    }

    /// Where the block begins that covers a word.
    pub fn block_over(&self, word: usize) -> Option<usize>
        ensures { result ≡ run_over self.now.blocks word }
    {
        if word >= self.covered.len() {
            return None;
        }
        if !self.covered.test(word) {
            return None;
        }
        let at = self.blocks.previous_set(word)?;
        let last = self.ends.next_set(at).unwrap();
        if word <= last { Some(at) } else { None }
    }

    /// Where the lowest block begins among those that begin from `low` on and below `high`.
    pub fn first_block(&self, low: usize, high: usize) -> Option<usize>
        requires { high ≤ self.now.size }
        ensures value { result ≡ first_run low high self.now.blocks }
        ensures first { IfSome result (λ at. IsFirstWithin low high self.now.blocks at) }
        ensures none { IfNone result (runs_within low high self.now.blocks ≡ []) }
    {
        self.blocks.next_set_below(low, high)
    }

    /// Where the lowest block or reservation begins among those that begin from `low` on and below `high`.
    pub fn first_covered(&self, low: usize, high: usize) -> Option<usize>
        requires { high ≤ self.now.size }
        ensures value { result ≡ first_run low high self.now.covered }
        ensures first { IfSome result (λ at. IsFirstWithin low high self.now.covered at) }
        ensures none { IfNone result (runs_within low high self.now.covered ≡ []) }
    {
        let block = self.blocks.next_set_below(low, high);
        let open = self.opens.next_set_below(low, block.unwrap_or(high));
        open.or(block)
    }

    /// Whether blocks have all words from `low` on and below `high`: none of these is free, and no reservation begins there.
    pub fn are_dense(&self, low: usize, high: usize) -> bool
        requires ordered { low ≤ high }
        requires in_table { high ≤ self.now.size }
        requires whole { AreWhole low high self.now.covered }
        ensures sound { result ≡ true
            → (word : ℕ) → low ≤ word → word < high → is_covered (runs_within low high self.now.blocks) word ≡ true }
        ensures complete { ((word : ℕ) → low ≤ word → word < high → is_covered (runs_within low high self.now.blocks) word ≡ true)
            → result ≡ true }
    {
        if low % 64 == 0 && high % 64 == 0 {
            return self.covered.are_all_set_unless(&self.opens, low, high);
        }
        self.opens.next_set_below(low, high).is_none() && self.covered.are_all_set(low, high)
    }

    /// The lowest word from `low` on and below `high` that no block has: it is free, or a reservation has it.
    pub fn first_without_block(&self, low: usize, high: usize) -> Option<usize>
        requires ordered { low ≤ high }
        requires in_table { high ≤ self.now.size }
        requires whole { AreWhole low high self.now.covered }
        ensures sound { IfSome result (λ at. IsLowestUncovered low high self.now.blocks at) }
        ensures complete { IfNone result ((word : ℕ) → low ≤ word → word < high → is_covered self.now.blocks word ≡ true) }
    {
        let open = self.opens.next_set_below(low, high);
        let end = open.unwrap_or(high);
        self.covered.lowest_clear_run(low, end, 1).or(open)
    }

    /// Where the lowest gap of at least `words` words begins among the words from `low` on and below `high`.
    pub fn lowest_gap(&self, low: usize, high: usize, words: usize) -> Option<usize>
        requires nonzero { 0 < words }
        requires ordered { low ≤ high }
        requires in_table { high ≤ self.now.size }
        requires whole { AreWhole low high self.now.covered }
        ensures value { result ≡ lowest_fitting words (gaps low high (runs_within low high self.now.covered)) }
        ensures fits { IfSome result (λ at. at + words ≤ high) }
    {
        self.covered.lowest_clear_run(low, high, words)
    }
}
