// The blocks of a segment that a collection didn't keep are freed.
#![tactic(auto)]

ghost use Rattle.std.specs.Prelude.{◌≡◌, ℕ, ◌^◌, ◌<◌, ◌≤◌, true, false, Some, length, IfSome, IfNone};
ghost use Rattle.mps_base.specs.Address.{word_of};
ghost use Rattle.mps_base.specs.Run.{runs_within};
ghost use Rattle.mps_base.specs.Segment.{Segment, segment_over};
ghost use Rattle.mps_bits.specs.Table.{bit};
ghost use Rattle.mps_extents.specs.Extents.{is_covered, AreWhole};
ghost use Rattle.mps_extents.specs.Lost.{lost_runs};
ghost use Rattle.mps_marks.specs.Marks.{without_marks};
ghost use Rattle.mps_seg.specs.Reclaiming.{IsSpan, IsNextHole, CanReclaim, freed_in, moves_freed_in};
ghost use Rattle.mps_seg.specs.Unmarking.{unmarked};

use super::Segs;
use crate::SegmentInfo;
use crate::entry::allow_any_gap;
use mps_base::{Addr, BYTES_OF_WORD, Trail, WORDS_OF_GRAIN};
use mps_extents::Extents;
use mps_marks::Marks;

/// A hole between blocks: words that no block has, from `from` on and below `to`. Reservations may have some of them.
#[derive(Clone, Copy)]
pub struct Hole {
    pub from: Addr,
    pub to: Addr,
}

impl Segs {
    /// Frees the blocks of the segment at `base` that the collection didn't keep, in ascending order, each with a Free: 64 words a step.
    pub fn drop_lost(&mut self, trail: &mut Trail, base: Addr)
        requires { CanReclaim self.old base.0 trail.old.spare }
        ensures state { (t : Segment) → segment_over self.old.segments base.0 ≡ Some t → self.new ≡ freed_in self.old t }
        ensures moves { (t : Segment) → segment_over self.old.segments base.0 ≡ Some t
            → trail.new ≡ moves_freed_in self.old t trail.old }
    {
        self.extents.blocks_are_covered();
        self.extents.blocks_are_in_order();
        let SegmentInfo { grains, .. } = self.segment(base);
        let low = base.word();
        let high = low + WORDS_OF_GRAIN * grains as usize;
        if !self.extents.is_any_lost(self.marks.kept(), low, high) {
            return;
        }
        clear_lost(&self.extents, &mut self.marks, low, high);
        allow_any_gap(&self.firsts, &mut self.bounds, base);
        self.extents.drop_lost(self.marks.kept(), low, high, trail);
    }

    /// Whether blocks have all words of the segment at `base`, which ends at `end`. 64 words are one step.
    pub fn is_full(&self, base: Addr, end: Addr) -> bool
        requires { IsSpan self.now base.0 end.0 }
        ensures sound { result ≡ true → (word : ℕ) → word_of base.0 ≤ word → word < word_of end.0
            → is_covered (runs_within (word_of base.0) (word_of end.0) self.now.blocks) word ≡ true }
        ensures complete { ((word : ℕ) → word_of base.0 ≤ word → word < word_of end.0
            → is_covered (runs_within (word_of base.0) (word_of end.0) self.now.blocks) word ≡ true) → result ≡ true }
    {
        self.extents.are_dense(base.word(), end.word())
    }

    /// The lowest hole of the segment at `base` that begins at `from` or above, up to the next block or the segment's end. No block and no
    /// reservation lies across `from`, and none lies across the end of the hole. The segment ends at `end`.
    pub fn next_hole(&self, base: Addr, from: Addr, end: Addr) -> Option<Hole>
        requires span { IsSpan self.now base.0 end.0 }
        requires above { word_of base.0 ≤ word_of from.0 }
        requires below { word_of from.0 ≤ word_of end.0 }
        requires whole { AreWhole (word_of from.0) (word_of end.0) self.now.covered }
        ensures found { IfSome result (λ hole. IsNextHole (word_of from.0) (word_of end.0)
            (runs_within (word_of base.0) (word_of end.0) self.now.blocks) hole) }
        ensures none { IfNone result ((word : ℕ) → word_of from.0 ≤ word → word < word_of end.0
            → is_covered (runs_within (word_of base.0) (word_of end.0) self.now.blocks) word ≡ true) }
        ensures whole { IfSome result (λ hole. AreWhole (word_of hole.to.0) (word_of end.0) self.now.covered) }
    {
        self.extents.blocks_are_covered();
        self.extents.blocks_are_in_order();
        let high = end.word();
        let low = self.extents.first_without_block(from.word(), high)?;
        let next = self.extents.first_block(low, high).unwrap_or(high);
        Some(Hole {
            from: Addr(BYTES_OF_WORD * low as u64),
            to: Addr(BYTES_OF_WORD * next as u64),
        })
    }
}

/// Clears the marks of the blocks from the word `low` on and below `high` that aren't kept. Only grey blocks have such marks.
fn clear_lost(extents: &Extents, marks: &mut Marks, low: usize, high: usize)
    requires in_table { high ≤ extents.now.size }
    requires small { extents.now.size < 2 ^ 32 }
    requires in_kept { high ≤ length marks.old.kept }
    requires in_exact { length marks.old.exact ≡ length marks.old.kept }
    requires in_weak { length marks.old.weak ≡ length marks.old.kept }
    ensures { marks.new ≡ unmarked (lost_runs low high marks.old.kept extents.now.blocks) marks.old }
{
    if !marks.is_any_grey() {
        return;
    }
    clear_each(extents, marks, low, high);
}

/// The same, block by block.
#[cold]
#[inline(never)]
fn clear_each(extents: &Extents, marks: &mut Marks, low: usize, high: usize)
    requires in_table { high ≤ extents.now.size }
    requires small { extents.now.size < 2 ^ 32 }
    requires in_kept { high ≤ length marks.old.kept }
    ensures { marks.new ≡ unmarked (lost_runs low high marks.old.kept extents.now.blocks) marks.old }
{
    let mut from = low;
    while let Some(at) = extents.first_block(from, high) {
        clear_unless_kept(marks, at);
        from = at + 1;
    }
}

/// Clears the marks at a word, unless the block there is kept.
fn clear_unless_kept(marks: &mut Marks, at: usize)
    requires { at < length marks.old.kept }
    ensures kept { bit marks.old.kept at ≡ true → marks.new ≡ marks.old }
    ensures lost { bit marks.old.kept at ≡ false → marks.new ≡ without_marks at marks.old }
{
    if !marks.is_kept(at) {
        marks.clear(at);
    }
}
