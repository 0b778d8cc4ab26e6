// The segments: an arena, a table by grain, and the extents of their words.
#![tactic(auto)]

ghost use Rattle.std.specs.Prelude.{◌≡◌, ℕ, true, false, ◌+◌, ◌*◌, ◌<◌, ◌≤◌, IfOk, IfErr, OnOk, MatchResult, Contains, option_map, length};
ghost use Rattle.mps_base.specs.Run.{Run, IsAscending, with_run, without_run, total};
ghost use Rattle.mps_base.specs.Address.{words_of_grain, word_of, grains_needed, max_grains, max_block_words};
ghost use Rattle.mps_base.specs.Segment.{Segment, end_of_segment, segment_over, without_segment};
ghost use Rattle.mps_base.specs.Trail.{with_move};
ghost use Rattle.mps_arena.specs.Arena.{answer_of_placement};
ghost use Rattle.mps_extents.specs.Extents.{run_over, first_run, AreWhole};
ghost use Rattle.mps_marks.specs.Marks.{without_marks};
ghost use Rattle.mps_seg.specs.Segs.{new_segments, placement_for, segments_after, noted_for, moves_after, held_runs, at_word, base_address, IsEmptyAt, IsUsed, CanCover, LiesIn};
ghost use Rattle.mps_seg.specs.Table.{IsMarked};
ghost use Rattle.mps_gen.specs.State.{max_pools, max_generations};
ghost use Rattle.mps_seg.specs.Counting.{grains_held_by};

mod collecting;
mod freeing;
mod gaps;
mod moving;
mod words;

use crate::SegmentInfo;
use crate::entry::{CondemnedSegment, Entry, allow_any_gap, note_grains};
use crate::grain_counts::GrainCounts;
pub use freeing::Hole;
use mps_arena::Arena;
use mps_base::{Addr, BYTES_OF_GRAIN, BYTES_OF_WORD, Move, Rank, Refusal, Trail, WORDS_OF_GRAIN};
use mps_bits::Bits;
use mps_extents::Extents;
use mps_gaps::GapBounds;
use mps_marks::Marks;
use std::alloc::{AllocError, Global};
use std::marker::Model;

/// The segments of an arena, and the words in them that blocks and reservations cover.
#[derive(Drop)]
pub struct Segs {
    arena: Arena,
    table: Vec<Entry>,
    firsts: Vec<u32>,
    // For the first grain of each segment a number than which no gap of the segment is longer.
    bounds: GapBounds,
    counts: GrainCounts,
    // For each grain of a condemned segment what a fix asks of it.
    white: Vec<Option<CondemnedSegment>>,
    extents: Extents,
    marks: Marks,
    condemned: Bits,
    summaries: Vec<u64>,
}

impl Model for Segs {
    ghost use Rattle.mps_seg.specs.Segs.{SegsState};
    ghost use Rattle.std.specs.Prelude.{◌+◌};
    ghost use Rattle.mps_seg.specs.Table.{segs_state, segments_in, IsHeld, AreGapsBounded, IsMarked, AreAskedNoted};
    ghost use Rattle.mps_seg.specs.Counting.{IsCounted};

    ghost Value = { SegsState };

    ghost view = { λ s. segs_state s.arena s.table.items s.extents s.marks s.condemned s.summaries.items };

    ghost invariant = { λ s. IsHeld s.arena s.table.items s.extents
        × AreGapsBounded s.arena.held (s.arena.grains + 1) s.firsts.items s.bounds s.extents.covered
        × IsMarked s.arena.grains s.marks s.condemned s.summaries.items
        × IsCounted s.counts (segments_in s.table.items)
        × AreAskedNoted (s.arena.grains + 1) s.firsts.items s.table.items s.condemned s.white.items };
}

impl Segs {
    /// Segments over a new arena of the grains 1 to `grains`, with a commit limit in grains. This is the only call that allocates.
    pub fn new(alloc: Global, grains: u32, limit: u32) -> Result<Segs, AllocError>
        requires nonzero { 0 < grains }
        requires at_most { grains ≤ max_grains }
        ensures { IfOk result (λ segs. segs ≡ new_segments grains limit) }
    {
        let size = grains as usize + 1;
        Ok(Segs {
            table: vec![in alloc; Entry::Free; size]?,
            firsts: vec![in alloc; 0u32; size]?,
            summaries: vec![in alloc; 0u64; size]?,
            white: vec![in alloc; None; size]?,
            counts: GrainCounts::new(alloc)?,
            condemned: Bits::new(alloc, size)?,
            bounds: GapBounds::new(alloc, size)?,
            arena: Arena::new(alloc, grains, limit)?,
            extents: Extents::new(alloc, WORDS_OF_GRAIN * size)?,
            marks: Marks::new(alloc, size)?,
        })
    }

    /// Takes a new segment for `words` words, not condemned and with an empty summary, and returns its base. Refuses as the arena does.
    #[inline(always)]
    pub fn take(
        &mut self,
        trail: &mut Trail,
        pool: u32,
        words: u32,
        generation: u32,
        rank: Rank,
    ) -> Result<Addr, Refusal>
        requires nonzero { 0 < words }
        requires at_most { words ≤ max_block_words }
        requires fits { 0 < trail.old.spare }
        ensures value { result ≡ answer_of_placement (placement_for self.old words) }
        ensures state { self.new ≡ record self.old {
          segments = segments_after (placement_for self.old words) pool generation rank self.old.segments;
          condemned = noted_for (placement_for self.old words) false self.old.condemned;
          summaries = noted_for (placement_for self.old words) 0 self.old.summaries;
        } }
        ensures moves { trail.new ≡ moves_after (placement_for self.old words) pool generation trail.old }
        ensures free { IfOk result (λ base. CanCover self.new (record { from = word_of base.0; count = words })) }
        ensures all_free { IfOk result (λ base.
            CanCover self.new (record { from = word_of base.0; count = words_of_grain * grains_needed words })) }
    {
        let grains = (words + (WORDS_OF_GRAIN as u32 - 1)) / WORDS_OF_GRAIN as u32;
        let base = self.arena.take_run(grains)?;
        let first = (base.0 / BYTES_OF_GRAIN) as usize;
        self.table[first] = Entry::First {
            grains,
            pool,
            generation,
            rank,
        };
        self.bounds.set(first, WORDS_OF_GRAIN as u32 * grains);
        self.condemned.clear(first);
        self.summaries[first] = 0;
        note_grains(&mut self.firsts, first, grains as usize, first as u32);
        self.counts.add(pool, generation, grains);
        trail.push(Move::Seg {
            base,
            grains,
            pool,
            generation,
        });
        Ok(base)
    }

    /// Gives back the segment at `base`, which has no block and no reservation. Its words stay as they are.
    pub fn give(&mut self, trail: &mut Trail, base: Addr)
        requires empty { (s : Segment) × Contains self.old.segments s × IsEmptyAt self.old base.0 s }
        requires fits { 0 < trail.old.spare }
        ensures state { self.new ≡ record self.old { segments = without_segment self.old.segments base.0 } }
        ensures moves { trail.new ≡ with_move trail.old (Move.Unseg base) }
    {
        let grain = (base.0 / BYTES_OF_GRAIN) as usize;
        let Entry::First {
            grains,
            pool,
            generation,
            ..
        } = self.table[grain]
        else {
            unreachable!()
        };
        self.arena.give_run(base, grains);
        self.table[grain] = Entry::Free;
        self.bounds.set(grain, 0);
        note_grains(&mut self.firsts, grain, grains as usize, 0);
        note_grains(&mut self.white, grain, grains as usize, None);
        self.counts.subtract(pool, generation, grains);
        trail.push(Move::Unseg { base });
    }

    /// Whether the segment at `base` has no block and no reservation, so that it may be given back.
    pub fn is_empty(&self, base: Addr) -> bool
        requires { (s : Segment) × Contains self.now.segments s × (s.base ≡ base.0) }
        ensures sound { (s : Segment) → Contains self.now.segments s → s.base ≡ base.0 → result ≡ true → IsEmptyAt self.now base.0 s }
        ensures complete { (s : Segment) → Contains self.now.segments s → s.base ≡ base.0 → result ≡ false → IsUsed self.now s }
    {
        let SegmentInfo { grains, .. } = self.segment(base);
        let low = base.word();
        let high = low + WORDS_OF_GRAIN * grains as usize;
        self.extents.first_covered(low, high).is_none()
    }

    /// Covers `words` words from `at` on, which no block and no reservation covers, by a reservation.
    #[inline(always)]
    pub fn cover(&mut self, at: Addr, words: u32)
        requires nonzero { 0 < words }
        requires free { CanCover self.old (record { from = word_of at.0; count = words }) }
        ensures { self.new ≡ record self.old {
          covered = with_run (record { from = word_of at.0; count = words }) self.old.covered;
          reservations = with_run (record { from = word_of at.0; count = words }) self.old.reservations;
        } }
    {
        self.extents
            .cover((at.0 / BYTES_OF_WORD) as usize, words as usize);
    }

    /// The lowest block of the segment at `base` that begins at or above `from`, an address in that segment.
    pub fn walk(&self, base: Addr, from: Addr) -> Option<Addr>
        requires { (s : Segment) × Contains self.now.segments s × (s.base ≡ base.0) }
        ensures { (s : Segment) → Contains self.now.segments s → s.base ≡ base.0
            → result ≡ option_map at_word (first_run (word_of from.0) (word_of (end_of_segment s)) self.now.blocks) }
    {
        let grain = (base.0 / BYTES_OF_GRAIN) as usize;
        let Entry::First { grains, .. } = self.table[grain] else {
            unreachable!()
        };
        let word = self.extents.first_block(
            (from.0 / BYTES_OF_WORD) as usize,
            WORDS_OF_GRAIN * (grain + grains as usize),
        )?;
        Some(Addr(BYTES_OF_WORD * word as u64))
    }

    /// The base of the segment in which an address lies.
    #[inline(always)]
    pub fn segment_of(&self, at: Addr) -> Option<Addr>
        ensures { result ≡ option_map base_address (segment_over self.now.segments at.0) }
    {
        let _ = &self.table; // each segment begins where a grain does
        let first = self.first_grain(at)?;
        Some(Addr(BYTES_OF_GRAIN * first as u64))
    }

    /// The block that covers the byte at address `n`.
    pub fn block_at(&self, n: u64) -> Option<Addr>
        ensures { result ≡ option_map at_word (run_over self.now.blocks (word_of n)) }
    {
        let word = self.extents.block_over((n / BYTES_OF_WORD) as usize)?;
        Some(Addr(BYTES_OF_WORD * word as u64))
    }

    /// Ends the reservation of `words` words that begins at `at`. A block or a reservation may cover them again.
    pub fn uncover(&mut self, at: Addr, words: u32)
        requires { Contains self.old.reservations (record { from = word_of at.0; count = words }) }
        ensures state { self.new ≡ record self.old {
          covered = without_run (word_of at.0) self.old.covered;
          reservations = without_run (word_of at.0) self.old.reservations;
        } }
        ensures free { CanCover self.new (record { from = word_of at.0; count = words }) }
    {
        self.extents
            .uncover((at.0 / BYTES_OF_WORD) as usize, words as usize);
        allow_any_gap(&self.firsts, &mut self.bounds, at);
    }

    /// Covers `words` words from `at` on, which no block and no reservation covers, by a block.
    #[inline(always)]
    pub fn commit_block(&mut self, at: Addr, words: u32)
        requires nonzero { 0 < words }
        requires free { CanCover self.old (record { from = word_of at.0; count = words }) }
        ensures { self.new ≡ record self.old {
          covered = with_run (record { from = word_of at.0; count = words }) self.old.covered;
          blocks = with_run (record { from = word_of at.0; count = words }) self.old.blocks;
        } }
    {
        self.extents
            .commit_block((at.0 / BYTES_OF_WORD) as usize, words as usize);
    }

    /// The reservation of `words` words that begins at `at` becomes a block. The words stay covered.
    #[inline(always)]
    pub fn commit(&mut self, at: Addr, words: u32)
        requires { Contains self.old.reservations (record { from = word_of at.0; count = words }) }
        ensures { self.new ≡ record self.old {
          blocks = with_run (record { from = word_of at.0; count = words }) self.old.blocks;
          reservations = without_run (word_of at.0) self.old.reservations;
        } }
    {
        self.extents
            .commit((at.0 / BYTES_OF_WORD) as usize, words as usize);
    }

    /// Removes the block of `words` words that begins at `at`, with its marks. Its words stay as they are, and may be covered again.
    #[inline(always)]
    pub fn drop_block(&mut self, at: Addr, words: u32)
        requires { Contains self.old.blocks (record { from = word_of at.0; count = words }) }
        ensures state { self.new ≡ record self.old {
          covered = without_run (word_of at.0) self.old.covered;
          blocks = without_run (word_of at.0) self.old.blocks;
          marks = without_marks (word_of at.0) self.old.marks;
        } }
        ensures free { CanCover self.new (record { from = word_of at.0; count = words }) }
    {
        self.extents
            .drop_block((at.0 / BYTES_OF_WORD) as usize, words as usize);
        self.marks.clear((at.0 / BYTES_OF_WORD) as usize);
        allow_any_gap(&self.firsts, &mut self.bounds, at);
    }

    /// How many words the block has that begins at `at`.
    pub fn block_words(&self, at: Addr) -> u32
        requires { (words : ℕ) × Contains self.now.blocks (record { from = word_of at.0; count = words }) }
        ensures sound { Contains self.now.blocks (record { from = word_of at.0; count = result }) }
        ensures in_arena { word_of at.0 + result ≤ length self.now.words }
    {
        let _ = self.arena.grains(); // it has as many words as there are extents' words
        self.extents.block_words((at.0 / BYTES_OF_WORD) as usize) as u32
    }

    /// How many blocks there are.
    pub fn live_blocks(&self) -> usize
        ensures { result ≡ length self.now.blocks }
    {
        self.extents.live_blocks()
    }

    /// How many words the blocks have together.
    pub fn live_words(&self) -> usize
        ensures { result ≡ total self.now.blocks }
    {
        self.extents.live_words()
    }

    /// How many grains the arena has. Its words are those of these grains and of grain 0, so an address in them is below 2^32.
    pub fn grains(&self) -> u32
        ensures value { result ≡ self.now.grains }
        ensures at_most { self.now.grains ≤ max_grains }
        ensures size { length self.now.words ≡ words_of_grain * (self.now.grains + 1) }
    {
        self.arena.grains()
    }

    /// The tables of marks have a bit for each word, and the others an entry for each grain.
    pub fn tables_are_whole(&self)
        ensures { IsMarked self.now.grains self.now.marks self.now.condemned self.now.summaries }
    {
        let _ = &self.arena;
    }

    /// Does nothing: a caller knows that each segment lies in grains that are held, and that no block and no reservation lies across one of
    /// its ends.
    pub fn segments_are_held(&self)
        ensures held { (t : Segment) → Contains self.now.segments t
            → LiesIn (held_runs self.now) (record { from = word_of t.base; count = words_of_grain * t.grains }) }
        ensures whole { (t : Segment) → Contains self.now.segments t
            → AreWhole (word_of t.base) (word_of (end_of_segment t)) self.now.covered }
    {
        let _ = &self.arena;
    }

    /// Does nothing: a caller knows that a block is among the runs that blocks and reservations cover.
    pub fn blocks_are_covered(&self)
        ensures { (r : Run) → Contains self.now.blocks r → Contains self.now.covered r }
    {
        self.extents.blocks_are_covered();
    }

    /// Does nothing: a caller knows that the blocks are in ascending order, and that each segment lies in the arena.
    pub fn blocks_are_in_order(&self)
        ensures ordered { IsAscending 0 (words_of_grain * (self.now.grains + 1)) self.now.blocks }
        ensures inside { (t : Segment) → Contains self.now.segments t
            → word_of (end_of_segment t) ≤ words_of_grain * (self.now.grains + 1) }
    {
        self.extents.blocks_are_in_order();
    }

    /// Sets the commit limit, in grains. Refuses `BelowCommitted` where more grains than that are held.
    pub fn set_limit(&mut self, limit: u32) -> Result<(), Refusal>
        ensures state { MatchResult result (λ _. self.new ≡ record self.old { limit = limit }) (λ _. self.new ≡ self.old) }
        ensures sound { OnOk result (total (held_runs self.old) ≤ limit) }
        ensures refuses { IfErr result (λ why. (why ≡ Refusal.BelowCommitted) × (limit < total (held_runs self.old))) }
    {
        self.arena.set_limit(limit)
    }

    /// How many grains a generation of a pool holds. No segment is looked at.
    #[inline(always)]
    pub fn grains_held_by(&self, pool: u32, generation: u32) -> u32
        requires pool_numbered { pool < max_pools }
        requires generation_numbered { generation < max_generations }
        ensures { result ≡ grains_held_by pool generation self.now.segments }
    {
        self.counts.at(pool, generation)
    }

    /// How many grains are held.
    pub fn committed(&self) -> u32
        ensures { result ≡ total (held_runs self.now) }
    {
        self.arena.committed()
    }
}
