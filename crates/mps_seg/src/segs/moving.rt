// A block moves.
#![tactic(auto)]

ghost use Rattle.std.specs.Prelude.{◌≡◌, ℕ, ◌+◌, ◌<◌};
ghost use Rattle.mps_base.specs.Address.{word_of};
ghost use Rattle.mps_base.specs.Run.{with_run, without_run};
ghost use Rattle.mps_arena.specs.Arena.{copied_words};
ghost use Rattle.mps_marks.specs.Marks.{without_marks};
ghost use Rattle.mps_seg.specs.Segs.{CanCover, LiesIn, held_runs};
ghost use Rattle.mps_seg.specs.Moving.{IsBlockOf, run_at, moved_to};

use super::Segs;
use crate::entry::allow_any_gap;
use mps_base::Addr;

impl Segs {
    /// Moves the block of `words` words at `at` to words that no block and no reservation covers, where it is grey. No mark of it is
    /// left at `at`, but its words are, until something covers them.
    #[inline(always)]
    pub fn move_block(&mut self, at: Addr, to: Addr, words: u32)
        requires nonzero { 0 < words }
        requires block { IsBlockOf self.old at.0 words }
        requires free { CanCover self.old (run_at to.0 words) }
        ensures state { self.new ≡ record (moved_to self.old at.0 to.0 words) {
          words = copied_words self.old.words (word_of at.0) (word_of to.0) words;
        } }
        ensures held { LiesIn (held_runs self.new) (run_at at.0 words) }
        ensures rest { (rest : ℕ) → 0 < rest → CanCover self.old (run_at to.0 (words + rest))
            → CanCover self.new (record { from = word_of to.0 + words; count = rest }) }
    {
        self.rehouse(at, to, words);
        self.set_grey(to);
    }

    /// The block of `words` words at `at` is at `to` from now on, with its words, where nothing covers words. It has no mark.
    #[inline(always)]
    fn rehouse(&mut self, at: Addr, to: Addr, words: u32)
        requires nonzero { 0 < words }
        requires block { IsBlockOf self.old at.0 words }
        requires free { CanCover self.old (run_at to.0 words) }
        ensures state { self.new ≡ record self.old {
          words = copied_words self.old.words (word_of at.0) (word_of to.0) words;
          covered = with_run (run_at to.0 words) (without_run (word_of at.0) self.old.covered);
          blocks = with_run (run_at to.0 words) (without_run (word_of at.0) self.old.blocks);
          marks = without_marks (word_of at.0) self.old.marks;
        } }
        ensures held { LiesIn (held_runs self.new) (run_at at.0 words) }
    {
        self.extents
            .move_block(at.word(), to.word(), words as usize);
        self.arena.copy_held(at, to, words);
        self.marks.clear(at.word());
        allow_any_gap(&self.firsts, &mut self.bounds, at);
    }
}
