// What a collection asks of the segments: condemned segments, kept and grey blocks, and summaries.
#![tactic(auto)]

ghost use Rattle.std.specs.Prelude.{◌≡◌, ℕ, true, false, ◌+◌, ◌*◌, ◌^◌, ◌<◌, ◌≤◌, length, nat_lt, slice_set, Some, IfSome, IfNone, Contains, option_map};
ghost use Rattle.mps_base.specs.Address.{words_of_grain, word_of, grain_of, address_of_grain, max_block_words};
ghost use Rattle.mps_base.specs.Segment.{Segment, segment_over};
ghost use Rattle.mps_base.specs.Run.{runs_within};
ghost use Rattle.mps_base.specs.Zones.{zones_meet};
ghost use Rattle.mps_bits.specs.Table.{bit};
ghost use Rattle.mps_marks.specs.Marks.{grey_of};
ghost use Rattle.mps_seg.specs.Segs.{base_address, segment_from};
ghost use Rattle.mps_seg.specs.Condemned.{IsNextCondemned, NoneLeft};
ghost use Rattle.mps_seg.specs.Moving.{kept_in_place, nailed};
ghost use Rattle.mps_seg.specs.Collecting.{info_of, owner_of, asked_if_condemned, condemned_owner_at, is_condemned_at, lowest_grey_in, first_grain_over, is_white_at, is_kept_at, is_grey_at, rank_at, condemning, collected, keeping, greying, greying_all, all_grey, blackening, summary_at, summarizing, noting};

use super::Segs;
use crate::entry::{CondemnedSegment, Entry, condemned_entry_from, first_entry_from, note_grains};
use crate::{Owner, SegmentInfo};
use mps_base::{Addr, BYTES_OF_GRAIN, BYTES_OF_WORD, Rank, WORDS_OF_GRAIN, ZoneSet};
use mps_extents::Extents;
use mps_marks::Marks;

impl Segs {
    /// The first grain of the segment in which an address lies.
    #[inline(always)]
    pub(super) fn first_grain(&self, at: Addr) -> Option<usize>
        ensures value { result ≡ first_grain_over self.now at.0 }
        ensures in_arena { IfSome result (λ grain. grain ≤ self.now.grains) }
        ensures within { IfSome result (λ grain. word_of at.0 < words_of_grain * (self.now.grains + 1)) }
    {
        let grain = at.grain();
        if grain >= self.firsts.len() {
            return None;
        }
        let first = self.firsts[grain];
        if first == 0 {
            None
        } else {
            Some(first as usize)
        }
    }

    /// The same of an address that lies in one.
    #[inline(always)]
    fn held_grain(&self, at: Addr) -> usize
        requires { (t : Segment) × (segment_over self.now.segments at.0 ≡ Some t) }
        ensures { Some result ≡ first_grain_over self.now at.0 }
    {
        self.firsts[at.grain()] as usize
    }

    /// The pool of the segment in which an address lies.
    #[inline(always)]
    pub fn pool_over(&self, at: Addr) -> u32
        requires held { (t : Segment) × (segment_over self.now.segments at.0 ≡ Some t) }
        ensures pool { (t : Segment) → segment_over self.now.segments at.0 ≡ Some t → result ≡ t.pool }
    {
        let Entry::First { pool, .. } = self.table[self.held_grain(at)] else {
            unreachable!()
        };
        pool
    }

    /// What is known of the segment at `base`.
    #[inline(always)]
    pub fn segment(&self, base: Addr) -> SegmentInfo
        requires { (s : Segment) × Contains self.now.segments s × (s.base ≡ base.0) }
        ensures { (s : Segment) → Contains self.now.segments s → s.base ≡ base.0 → result ≡ info_of self.now s }
    {
        let grain = base.grain();
        let Entry::First {
            grains,
            pool,
            generation,
            rank,
        } = self.table[grain]
        else {
            unreachable!()
        };
        SegmentInfo {
            grains,
            pool,
            generation,
            rank,
            is_condemned: self.condemned.test(grain),
        }
    }

    /// The pool and the generation of the condemned segment in which an address lies; None if it lies in no condemned segment.
    #[inline(always)]
    pub fn policy_at(&self, at: Addr) -> Option<Owner>
        ensures value { result ≡ condemned_owner_at self.now at.0 }
        ensures over { IfSome result (λ owner. (t : Segment) × (segment_over self.now.segments at.0 ≡ Some t) × (owner ≡ owner_of t)) }
        ensures condemned { IfSome result (λ owner. is_condemned_at self.now at.0 ≡ true) }
        ensures none { IfNone result (is_condemned_at self.now at.0 ≡ false) }
    {
        let asked = self.condemned_segment(at)?;
        Some(asked.owner)
    }

    /// What a fix asks of the condemned segment in which an address lies.
    #[inline(always)]
    fn condemned_segment(&self, at: Addr) -> Option<CondemnedSegment>
        ensures { result ≡ asked_if_condemned self.now (segment_over self.now.segments at.0) }
    {
        let grain = at.grain();
        if grain >= self.white.len() {
            return None;
        }
        self.white[grain]
    }

    /// The base of the lowest segment that begins at `from` or above.
    pub fn next_segment(&self, from: Addr) -> Option<Addr>
        ensures { result ≡ option_map base_address (segment_from self.now.segments from.0) }
    {
        let start = grain_from(from);
        let next = first_entry_from(&self.table, start)?;
        Some(Addr(BYTES_OF_GRAIN * next as u64))
    }

    /// The base of the lowest condemned segment that begins at `from` or above. Grains are passed over 64 a step.
    pub fn next_condemned(&self, from: Addr) -> Option<Addr>
        ensures sound { IfSome result (λ base. IsNextCondemned self.now from.0 base.0) }
        ensures complete { IfNone result (NoneLeft self.now from.0) }
    {
        let next = condemned_entry_from(&self.table, &self.condemned, grain_from(from))?;
        Some(Addr(BYTES_OF_GRAIN * next as u64))
    }

    /// The lowest grey block of the segment at `base`.
    pub fn grey_in(&self, base: Addr) -> Option<Addr>
        requires { (s : Segment) × Contains self.now.segments s × (s.base ≡ base.0) }
        ensures { (s : Segment) → Contains self.now.segments s → s.base ≡ base.0 → result ≡ lowest_grey_in self.now s }
    {
        let SegmentInfo { grains, rank, .. } = self.segment(base);
        let low = base.word();
        let word = self
            .marks
            .grey_in(rank, low, low + WORDS_OF_GRAIN * grains as usize)?;
        Some(Addr(BYTES_OF_WORD * word as u64))
    }

    /// The segment at `base` is condemned from now on.
    pub fn condemn(&mut self, base: Addr)
        requires { (s : Segment) × Contains self.old.segments s × (s.base ≡ base.0) }
        ensures { self.new ≡ condemning self.old base.0 }
    {
        let info = self.segment(base);
        let owner = Owner {
            pool: info.pool,
            generation: info.generation,
        };
        let rank = info.rank;
        let asked = CondemnedSegment { owner, rank };
        let grain = base.grain();
        self.condemned.set(grain);
        note_grains(&mut self.white, grain, info.grains as usize, Some(asked));
    }

    /// Ends a collection: no segment is condemned, and no block is kept or grey.
    pub fn end_collection(&mut self)
        ensures { self.new ≡ collected self.old }
    {
        self.condemned.clear_all();
        self.white.fill(None);
        self.marks.clear_all();
    }

    /// Whether a block at `at` is white: it lies in a condemned segment and isn't kept.
    pub fn is_white(&self, at: Addr) -> bool
        ensures { result ≡ is_white_at self.now at.0 }
    {
        match self.first_grain(at) {
            Some(grain) => self.condemned.test(grain) && !self.marks.is_kept(at.word()),
            None => false,
        }
    }

    /// Whether an address lies in one of the arena's grains, or in grain 0.
    pub fn has_word(&self, at: Addr) -> bool
        ensures { result ≡ nat_lt (word_of at.0) (words_of_grain * (self.now.grains + 1)) }
    {
        at.grain() < self.firsts.len()
    }

    /// The collection keeps the block at `at`.
    #[inline(always)]
    pub fn keep(&mut self, at: Addr)
        requires { word_of at.0 < words_of_grain * (self.old.grains + 1) }
        ensures { self.new ≡ keeping self.old at.0 }
    {
        self.marks.keep(at.word());
    }

    /// Whether the collection keeps the block at `at`.
    #[inline(always)]
    pub fn is_kept(&self, at: Addr) -> bool
        requires { word_of at.0 < words_of_grain * (self.now.grains + 1) }
        ensures { result ≡ is_kept_at self.now at.0 }
    {
        self.marks.is_kept(at.word())
    }

    /// Whether the block at `at` is grey: still to be scanned.
    pub fn is_grey(&self, at: Addr) -> bool
        requires { word_of at.0 < words_of_grain * (self.now.grains + 1) }
        ensures { result ≡ is_grey_at self.now at.0 }
    {
        self.marks.is_grey(at.word())
    }

    /// The rank of the segment in which an address lies, `Exact` if it lies in none.
    #[inline(always)]
    fn rank_at(&self, at: Addr) -> Rank
        ensures { result ≡ rank_at self.now at.0 }
    {
        let Some(grain) = self.first_grain(at) else {
            return Rank::Exact;
        };
        match self.table[grain] {
            Entry::First { rank, .. } => rank,
            Entry::Free => Rank::Exact,
        }
    }

    /// The same, in one look-up if the segment is condemned.
    #[inline(always)]
    fn rank_of_white(&self, at: Addr) -> Rank
        ensures { result ≡ rank_at self.now at.0 }
    {
        let Some(asked) = self.condemned_segment(at) else {
            return self.rank_at(at);
        };
        asked.rank
    }

    /// The block at `at` becomes grey.
    #[inline(always)]
    pub fn set_grey(&mut self, at: Addr)
        requires { word_of at.0 < words_of_grain * (self.old.grains + 1) }
        ensures { self.new ≡ greying self.old at.0 }
    {
        let rank = self.rank_at(at);
        self.marks.set_grey(at.word(), rank);
    }

    /// Keeps the block at `at` where it lies. It is grey.
    #[inline(always)]
    pub fn keep_in_place(&mut self, at: Addr)
        requires { word_of at.0 < words_of_grain * (self.old.grains + 1) }
        ensures { self.new ≡ kept_in_place self.old at.0 }
    {
        let rank = self.rank_of_white(at);
        self.marks.keep(at.word());
        self.marks.set_grey(at.word(), rank);
    }

    /// Keeps the block at `at` where it lies. A block that is kept already is left as it is.
    pub fn nail(&mut self, at: Addr)
        requires { word_of at.0 < words_of_grain * (self.old.grains + 1) }
        ensures { self.new ≡ nailed self.old at.0 }
    {
        if !self.is_kept(at) {
            self.keep_in_place(at);
        }
    }

    /// All blocks of the segment at `base` become grey.
    pub fn grey_segment(&mut self, base: Addr)
        requires { (s : Segment) × Contains self.old.segments s × (s.base ≡ base.0) }
        ensures state { (s : Segment) → Contains self.old.segments s → s.base ≡ base.0 → self.new ≡ greying_all self.old s }
    {
        let SegmentInfo { grains, rank, .. } = self.segment(base);
        let low = base.word();
        let high = low + WORDS_OF_GRAIN * grains as usize;
        grey_blocks(&self.extents, &mut self.marks, rank, low, high);
    }

    /// The block at `at` is grey no longer.
    #[inline(always)]
    pub fn blacken(&mut self, at: Addr)
        requires { word_of at.0 < words_of_grain * (self.old.grains + 1) }
        ensures { self.new ≡ blackening self.old at.0 }
    {
        self.marks.blacken(at.word());
    }

    /// The zones to which references in the segment at `base` may lead.
    #[inline(always)]
    pub fn summary(&self, base: Addr) -> ZoneSet
        requires { grain_of base.0 ≤ self.now.grains }
        ensures { result.0 ≡ summary_at self.now base.0 }
    {
        ZoneSet(self.summaries[base.grain()])
    }

    /// Whether references in the segment at `base` may lead to one of these zones.
    pub fn may_lead_to(&self, base: Addr, zones: ZoneSet) -> bool
        requires { (s : Segment) × Contains self.now.segments s × (s.base ≡ base.0) }
        ensures { result ≡ zones_meet (summary_at self.now base.0) zones.0 }
    {
        self.summaries[base.grain()] & zones.0 != 0
    }

    /// Sets the summary of the segment at `base`, as a scan of all its blocks may do that found the zones of all its references.
    pub fn set_summary(&mut self, base: Addr, zones: ZoneSet)
        requires { grain_of base.0 ≤ self.old.grains }
        ensures { self.new ≡ summarizing self.old base.0 zones.0 }
    {
        self.summaries[base.grain()] = zones.0;
    }

    /// Notes that a reference to `target` was stored at `holder`: the summary of the segment over `holder` gains the zone of the target.
    #[inline(always)]
    pub fn note_write(&mut self, holder: Addr, target: Addr)
        ensures { self.new ≡ noting self.old holder.0 target.0 }
    {
        if let Some(grain) = self.first_grain(holder) {
            self.summaries[grain] |= 1 << (target.grain() % 64);
        }
    }

    /// Writes a reference to `target` in a cell of the block at `holder`, a number of words from there, and notes it.
    #[inline(always)]
    pub fn set_reference(&mut self, holder: Addr, cell: u32, word: u64, target: Addr)
        requires held { (t : Segment) × (segment_over self.old.segments holder.0 ≡ Some t) }
        requires at_most { cell < max_block_words }
        requires inside { word_of holder.0 + cell < length self.old.words }
        ensures state { self.new ≡ noting (record self.old {
          words = slice_set self.old.words (word_of holder.0 + cell) word;
        }) holder.0 target.0 }
    {
        let grain = self.held_grain(holder);
        self.summaries[grain] |= 1 << (target.grain() % 64);
        self.arena.set_word_from(holder, cell, word);
    }

    /// A grey block of a segment of a rank; None if there is none. Which one it is is open.
    #[inline(always)]
    pub fn next_grey(&mut self, rank: Rank) -> Option<Addr>
        ensures unchanged { self.new ≡ self.old }
        ensures sound { IfSome result (λ at. bit (grey_of rank self.old.marks) (word_of at.0) ≡ true) }
        ensures complete { IfNone result ((word : ℕ) → bit (grey_of rank self.old.marks) word ≡ false) }
    {
        let word = self.marks.next_grey(rank)?;
        Some(Addr(BYTES_OF_WORD * word as u64))
    }
}

/// The lowest grain that begins at an address or above.
fn grain_from(at: Addr) -> usize
    ensures sound { at.0 ≤ address_of_grain result }
    ensures lowest { address_of_grain result < at.0 + address_of_grain 1 }
{
    let grain = at.grain();
    if at.0 % BYTES_OF_GRAIN == 0 {
        grain
    } else {
        grain + 1
    }
}

/// The blocks that begin from the word `low` on and below `high` become grey, as blocks of a rank.
fn grey_blocks(extents: &Extents, marks: &mut Marks, rank: Rank, low: usize, high: usize)
    requires in_table { high ≤ extents.now.size }
    requires marked { extents.now.size ≤ length marks.old.kept }
    requires at_most { extents.now.size < 2 ^ 32 }
    ensures { marks.new ≡ all_grey rank (runs_within low high extents.now.blocks) marks.old }
{
    let mut from = low;
    while let Some(at) = extents.first_block(from, high) {
        marks.set_grey(at, rank);
        from = at + 1;
    }
}
