// The blocks that a collection didn't keep are dropped.
#![tactic(auto)]

ghost use Rattle.std.specs.Prelude.{◌≡◌, ◌≢◌, ◌-◌, ◌%◌, ◌^◌, ◌<◌, ◌≤◌, true, false, [], length};
ghost use Rattle.mps_bits.specs.OpenRuns.{is_one};
ghost use Rattle.mps_extents.specs.Extents.{AreWhole};
ghost use Rattle.mps_extents.specs.Lost.{lost_runs, without_runs, frees, freed_at, passing, begins_lost};

use super::Extents;
use mps_base::{Addr, BYTES_OF_WORD, Move, Trail};
use mps_bits::{Bits, lowest_one, without_bit};

impl Extents {
    /// Whether a block that begins from `low` on and below `high` isn't kept: its bit in `kept` is clear. 64 words are one step.
    pub fn is_any_lost(&self, kept: &Bits, low: usize, high: usize) -> bool
        requires in_words { (low % 64 ≡ 0) × (high % 64 ≡ 0) }
        requires ordered { low ≤ high }
        requires in_table { high ≤ self.now.size }
        requires in_kept { high ≤ length kept.now }
        ensures some { result ≡ true → lost_runs low high kept.now self.now.blocks ≢ [] }
        ensures none { result ≡ false → lost_runs low high kept.now self.now.blocks ≡ [] }
    {
        !self.blocks.is_subset_of(kept, low, high)
    }

    /// Removes the blocks that begin from `low` on and below `high` and whose bits in `kept` are clear, 64 words a step. They have a Free
    /// each in the trail, in ascending order.
    pub fn drop_lost(&mut self, kept: &Bits, low: usize, high: usize, trail: &mut Trail)
        requires in_words { (low % 64 ≡ 0) × (high % 64 ≡ 0) }
        requires ordered { low ≤ high }
        requires in_table { high ≤ self.old.size }
        requires in_kept { high ≤ length kept.now }
        requires whole { AreWhole low high self.old.covered }
        requires fits { length (lost_runs low high kept.now self.old.blocks) ≤ trail.old.spare }
        ensures state { self.new ≡ record self.old {
          covered = without_runs (lost_runs low high kept.now self.old.blocks) self.old.covered;
          blocks = without_runs (lost_runs low high kept.now self.old.blocks) self.old.blocks;
        } }
        ensures moves { trail.new ≡ frees (lost_runs low high kept.now self.old.blocks) trail.old }
    {
        free_lost(trail, &self.blocks, kept, low, high);
        let words = self
            .covered
            .clear_runs(&self.blocks, kept, &self.ends, low, high);
        let blocks = self.blocks.clear_unless(kept, low, high);
        self.live_words -= words;
        self.live_blocks -= blocks;
    }
}

/// Appends a Free for each block that begins at a bit from `low` on and below `high` that is clear in `kept`.
fn free_lost(trail: &mut Trail, blocks: &Bits, kept: &Bits, low: usize, high: usize)
    requires in_words { (low % 64 ≡ 0) × (high % 64 ≡ 0) }
    requires ordered { low ≤ high }
    requires small { high < 2 ^ 32 }
    requires in_blocks { high ≤ length blocks.now }
    requires in_kept { high ≤ length kept.now }
    requires fits { length (passing (begins_lost blocks.now kept.now) low (high - low)) ≤ trail.old.spare }
    ensures { trail.new ≡ freed_at (passing (begins_lost blocks.now kept.now) low (high - low)) trail.old }
{
    let mut at = low;
    while at < high {
        free_in_word(trail, at, blocks.word_unless(kept, at));
        at += 64;
    }
}

/// Appends a Free for each block that begins at a bit of `lost`, whose lowest bit is that of the word `from`.
fn free_in_word(trail: &mut Trail, from: usize, lost: u64)
    requires small { from < 2 ^ 32 }
    requires fits { length (passing (λ i. is_one lost (i - from)) from 64) ≤ trail.old.spare }
    ensures { trail.new ≡ freed_at (passing (λ i. is_one lost (i - from)) from 64) trail.old }
{
    let mut left = lost;
    while left != 0 {
        let index = lowest_one(left);
        left = without_bit(left, index);
        trail.push(Move::Free {
            at: Addr(BYTES_OF_WORD * (from + index) as u64),
        });
    }
}
