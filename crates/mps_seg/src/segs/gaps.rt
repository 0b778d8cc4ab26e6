// The lowest gap that fits, and where a block or a reservation is placed.
#![tactic(auto)]

ghost use Rattle.std.specs.Prelude.{◌≡◌, ℕ, ◌+◌, ◌^◌, ◌<◌, ◌≤◌, false, List, IfSome, IfOk, map, option_map};
ghost use Rattle.mps_base.specs.Run.{IsAscending, lowest_fitting};
ghost use Rattle.mps_base.specs.Address.{word_of, max_grains, max_block_words};
ghost use Rattle.mps_base.specs.Segment.{same_rank, gaps_of, grains_of_segment};
ghost use Rattle.mps_arena.specs.Arena.{ArenaMemory, answer_of_placement};
ghost use Rattle.mps_seg.specs.Table.{segments_in, is_open_entry, IsHeld, AreGapsBounded, IsWholeAt, gaps_at};
ghost use Rattle.mps_seg.specs.Segs.{at_word, segments_after, noted_for, moves_after, CanCover, IsOpenRun, LiesInOpen};
ghost use Rattle.mps_seg.specs.Placing.{placement_in_gaps};

use super::Segs;
use crate::entry::Entry;
use mps_base::{Addr, BYTES_OF_WORD, Rank, Refusal, Trail, WORDS_OF_GRAIN};
use mps_extents::Extents;
use mps_gaps::GapBounds;

impl Segs {
    /// The lowest gap of at least `words` words in the segments of a pool and a rank. Segments whose gaps are known to be shorter are
    /// passed over, 32 grains a step if that holds of all that begin there.
    pub fn lowest_gap(&self, pool: u32, rank: Rank, words: u32) -> Option<Addr>
        requires { 0 < words }
        ensures value { result ≡ option_map at_word (lowest_fitting words (gaps_of self.now.covered self.now.segments pool rank)) }
        ensures free { IfSome result (λ at. CanCover self.now (record { from = word_of at.0; count = words })) }
        ensures in_segment { IfSome result (λ at. LiesInOpen self.now.segments pool rank at.0) }
    {
        let mut from = 0;
        while let Some(grain) = self.bounds.lowest_with(words, from) {
            let entry = self.table[grain];
            if let Some(word) = gap_after(&self.extents, grain, entry, pool, rank, words) {
                return Some(Addr(BYTES_OF_WORD * word as u64));
            }
            from = grain + 1;
        }
        None
    }

    /// The same. Besides, from now on it is known of each segment that was searched in vain that its gaps are shorter.
    fn note_lowest_gap(&mut self, pool: u32, rank: Rank, words: u32) -> Option<Addr>
        requires { 0 < words }
        ensures value { result ≡ option_map at_word (lowest_fitting words (gaps_of self.old.covered self.old.segments pool rank)) }
        ensures free { IfSome result (λ at. CanCover self.old (record { from = word_of at.0; count = words })) }
        ensures unchanged { self.new ≡ self.old }
    {
        let word = search(
            &self.table,
            &self.extents,
            &mut self.bounds,
            pool,
            rank,
            words,
        )?;
        Some(Addr(BYTES_OF_WORD * word as u64))
    }

    /// Finds `words` words in the lowest gap of a pool and a rank that fits, else at the base of a new segment, and returns where they
    /// begin. Nothing covers them yet. Refuses `CommitLimit` and `NoRun` as `take` does.
    pub fn place(
        &mut self,
        trail: &mut Trail,
        pool: u32,
        rank: Rank,
        words: u32,
    ) -> Result<Addr, Refusal>
        requires nonzero { 0 < words }
        requires at_most { words ≤ max_block_words }
        requires fits { 0 < trail.old.spare }
        ensures value { result ≡ answer_of_placement (placement_in_gaps self.old pool rank words) }
        ensures state { self.new ≡ record self.old {
          segments = segments_after (placement_in_gaps self.old pool rank words) pool 0 rank self.old.segments;
          condemned = noted_for (placement_in_gaps self.old pool rank words) false self.old.condemned;
          summaries = noted_for (placement_in_gaps self.old pool rank words) 0 self.old.summaries;
        } }
        ensures moves { trail.new ≡ moves_after (placement_in_gaps self.old pool rank words) pool 0 trail.old }
        ensures free { IfOk result (λ at. CanCover self.new (record { from = word_of at.0; count = words })) }
    {
        match self.note_lowest_gap(pool, rank, words) {
            Some(at) => Ok(at),
            None => self.take(trail, pool, words, 0, rank),
        }
    }
}

/// Where the lowest gap of at least `words` words begins in the segments of a pool and a rank. The bound of each such segment that is
/// searched in vain becomes `words - 1`.
fn search(
    table: &[Entry],
    extents: &Extents,
    bounds: &mut GapBounds,
    pool: u32,
    rank: Rank,
    words: u32,
) -> Option<usize>
    requires nonzero { 0 < words }
    requires sound { (arena : ArenaMemory) × (firsts : List ℕ) × IsHeld arena table.now extents.now
        × AreGapsBounded arena.held (arena.grains + 1) firsts bounds.old extents.now.covered }
    ensures value { result ≡ lowest_fitting words (gaps_of extents.now.covered (segments_in table.now) pool rank) }
    ensures free { IfSome result (λ word. (arena : ArenaMemory) → IsHeld arena table.now extents.now
        → IsOpenRun arena.grains (map grains_of_segment (segments_in table.now)) extents.now.covered
        (record { from = word; count = words })) }
    ensures at_most { IfSome result (λ word. word < 2 ^ 32) }
    ensures bounded { (arena : ArenaMemory) (firsts : List ℕ) → IsHeld arena table.now extents.now
        → AreGapsBounded arena.held (arena.grains + 1) firsts bounds.old extents.now.covered
        → AreGapsBounded arena.held (arena.grains + 1) firsts bounds.new extents.now.covered }
{
    let mut from = 0;
    while let Some(grain) = bounds.lowest_with(words, from) {
        let entry = table[grain];
        if let Some(word) = gap_after(extents, grain, entry, pool, rank, words) {
            return Some(word);
        }
        if is_open(entry, pool, rank) {
            bounds.set(grain, words - 1);
        }
        from = grain + 1;
    }
    None
}

/// Whether a segment of the pool and the rank begins at a grain with this entry.
fn is_open(entry: Entry, pool: u32, rank: Rank) -> bool
    ensures { result ≡ is_open_entry pool rank entry }
{
    match entry {
        Entry::First {
            pool: of,
            rank: at,
            ..
        } => of == pool && is_same_rank(at, rank),
        Entry::Free => false,
    }
}

/// Whether two ranks are the same.
fn is_same_rank(a: Rank, b: Rank) -> bool
    ensures { result ≡ same_rank a b }
{
    match (a, b) {
        (Rank::Exact, Rank::Exact) | (Rank::Weak, Rank::Weak) => true,
        _ => false,
    }
}

/// Where the lowest gap of at least `words` words begins in the segment at a grain; None also where it is of another pool or rank.
fn gap_after(
    extents: &Extents,
    grain: usize,
    entry: Entry,
    pool: u32,
    rank: Rank,
    words: u32,
) -> Option<usize>
    requires nonzero { 0 < words }
    requires in_arena { grain ≤ max_grains }
    requires at_most { extents.now.size < 2 ^ 32 }
    requires whole { IsWholeAt grain entry extents.now }
    ensures value { result ≡ lowest_fitting words (gaps_at grain entry pool rank extents.now) }
    ensures at_most { IfSome result (λ word. word < 2 ^ 32) }
{
    match entry {
        Entry::First { grains, .. } if is_open(entry, pool, rank) => {
            let low = WORDS_OF_GRAIN * grain;
            extents.lowest_gap(low, low + WORDS_OF_GRAIN * grains as usize, words as usize)
        }
        _ => None,
    }
}
