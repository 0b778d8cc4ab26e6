// A transform is applied to the references of a pool.
#![tactic(auto)]

ghost use Rattle.std.specs.Prelude.{◌≡◌, ◌≢◌, ◌+◌, ◌%◌, ◌<◌, ◌≤◌, ℕ, false, Some, None, Contains, IfSome, IfNone, IsTrue, length, slice_index};
ghost use Rattle.std.specs.List.{All};
ghost use Rattle.mps_base.specs.Address.{word_of, bytes_of_word};
ghost use Rattle.mps_base.specs.Segment.{Segment, segment_over};
ghost use Rattle.mps_format.specs.Layout.{Layout};
ghost use Rattle.mps_seg.specs.Extents.{first_run};
ghost use Rattle.mps_seg.specs.Collecting.{summary_at};
ghost use Rattle.mps_seg.specs.Segs.{SegsState};
ghost use Rattle.mps_xform.specs.Applying.{CanApply, after_apply, after_apply_below, after_replace, word_after_apply};
ghost use Rattle.mps_xform.specs.Passing.{AreAligned, AreNoneIn, IsAppliedBelow, IsBlockOf, IsSpanOf, LeadsToNone, new_in};
ghost use Rattle.mps_xform.specs.State.{new_address};
ghost use Rattle.mps_xform.specs.Summed.{AreBlocksSummed};

use crate::replacements::Replacements;
use crate::transforms::Transforms;
use mps_base::{Addr, BYTES_OF_GRAIN, BYTES_OF_WORD};
use mps_format::Format;
use mps_seg::Segs;

impl Transforms {
    /// Applies a transform to a pool: in each block of the pool each reference that leads to an old address leads to its new one, and keeps
    /// its tag. Each is judged by the word that it had before, so a pair never acts on what another wrote. Each written cell is noted in
    /// the summary of its segment; no other word changes. A segment whose summary has the zone of no old address is passed over. Needs the
    /// format of the pool, summaries that have the zones of its references, and new addresses that are multiples of 8. A transform can be
    /// applied to any pool after it to which it could be applied before, and the summaries of another pool have the zones that they had.
    pub fn apply<F: Format>(&mut self, transform: u32, format: &F, segs: &mut Segs, pool: u32)
        requires aligned { All (λ p. p.new.0 % bytes_of_word ≡ 0) self.old.pairs }
        requires can { CanApply (F.layout format.now) segs.old pool }
        requires summed { AreBlocksSummed (F.layout format.now) segs.old pool }
        ensures unchanged { self.new ≡ self.old }
        ensures state { segs.new ≡ after_apply (F.layout format.now) (new_address self.old transform) segs.old pool }
        ensures words { (word : ℕ) → slice_index segs.new.words word
            ≡ word_after_apply (F.layout format.now) (new_address self.old transform) segs.old pool word }
        ensures again { (layout : Layout) (other : ℕ) → CanApply layout segs.old other → CanApply layout segs.new other }
        ensures summed { (layout : Layout) (other : ℕ) → other ≢ pool
            → AreBlocksSummed layout segs.old other → AreBlocksSummed layout segs.new other }
    {
        self.replacements.fill(&self.pairs, transform);
        apply_to_pool(&self.replacements, format, segs, pool);
    }
}

// Applies the pairs to the segments of a pool, in ascending order.
fn apply_to_pool<F: Format>(replacements: &Replacements, format: &F, segs: &mut Segs, pool: u32)
    requires aligned { AreAligned replacements.now }
    requires can { CanApply (F.layout format.now) segs.old pool }
    requires summed { AreBlocksSummed (F.layout format.now) segs.old pool }
    ensures { segs.new ≡ after_apply (F.layout format.now) (new_in replacements.now) segs.old pool }
{
    let _ = segs.grains(); // so few that the address of a word fits
    let mut from = Addr(0);
    while let Some(base) = segs.next_segment(from) {
        let segment = segs.segment(base);
        let end = Addr(base.0 + BYTES_OF_GRAIN * u64::from(segment.grains));
        if segment.pool == pool {
            pass_segment(replacements, format, segs, base, end);
        }
        from = end;
    }
}

// Applies the pairs to the segment from `base` to `end`, of which nothing is read if its summary says that none has an effect.
fn pass_segment<F: Format>(
    replacements: &Replacements,
    format: &F,
    segs: &mut Segs,
    base: Addr,
    end: Addr,
)
    requires aligned { AreAligned replacements.now }
    requires begun { (s : SegsState) × (pool : ℕ)
        × IsAppliedBelow (F.layout format.now) (new_in replacements.now) pool s segs.old (word_of base.0)
        × IsSpanOf segs.old.segments pool base.0 end.0 }
    ensures { (s : SegsState) (pool : ℕ) → IsAppliedBelow (F.layout format.now) (new_in replacements.now) pool s segs.old (word_of base.0)
        → IsSpanOf segs.old.segments pool base.0 end.0
        → segs.new ≡ after_apply_below (F.layout format.now) (new_in replacements.now) s pool (word_of end.0) }
{
    if may_refer_to_old(replacements, segs, base) {
        apply_to_segment(replacements, format, segs, base, end);
    }
}

// Whether a reference in the segment at `base` may lead to an old address, by its summary, which has no zone for null.
fn may_refer_to_old(replacements: &Replacements, segs: &Segs, base: Addr) -> bool
    requires { (t : Segment) × Contains segs.now.segments t × (t.base ≡ base.0) }
    ensures none { result ≡ false → AreNoneIn (new_in replacements.now) (summary_at segs.now base.0) }
{
    replacements.may_have(Addr(0)) || segs.may_lead_to(base, replacements.zones())
}

// Applies the pairs to the blocks of the segment from `base` to `end`, in ascending order.
fn apply_to_segment<F: Format>(
    replacements: &Replacements,
    format: &F,
    segs: &mut Segs,
    base: Addr,
    end: Addr,
)
    requires aligned { AreAligned replacements.now }
    requires begun { (s : SegsState) × (pool : ℕ)
        × IsAppliedBelow (F.layout format.now) (new_in replacements.now) pool s segs.old (word_of base.0)
        × IsSpanOf segs.old.segments pool base.0 end.0 }
    ensures { (s : SegsState) (pool : ℕ) → IsAppliedBelow (F.layout format.now) (new_in replacements.now) pool s segs.old (word_of base.0)
        → IsSpanOf segs.old.segments pool base.0 end.0
        → segs.new ≡ after_apply_below (F.layout format.now) (new_in replacements.now) s pool (word_of end.0) }
{
    let _ = segs.grains(); // so few that the address of a word fits
    let mut from = base;
    while let Some(at) = next_block(segs, base, end, from) {
        let head = segs.held_word(at);
        if may_lead_to_old(replacements, format, segs, at, head) {
            apply_to_block(replacements, format, segs, at, head);
        }
        from = Addr(at.0 + BYTES_OF_WORD); // so the search for the next block doesn't wait for this head
    }
}

// The lowest block from `from` on of the segment from `base` to `end`.
#[inline(always)]
fn next_block(segs: &Segs, base: Addr, end: Addr, from: Addr) -> Option<Addr>
    requires { (pool : ℕ) × IsSpanOf segs.now.segments pool base.0 end.0 }
    ensures found { IfSome result (λ at. (first_run (word_of from.0) (word_of end.0) segs.now.blocks ≡ Some (word_of at.0))
        × (at.0 % bytes_of_word ≡ 0)) }
    ensures none { IfNone result (first_run (word_of from.0) (word_of end.0) segs.now.blocks ≡ None) }
{
    segs.walk(base, from)
}

// Whether a reference of the block at `at` with this head may lead to an old address; false only if none does.
#[inline(always)]
fn may_lead_to_old<F: Format>(
    replacements: &Replacements,
    format: &F,
    segs: &Segs,
    at: Addr,
    head: u64,
) -> bool
    requires valid { IsTrue ((F.layout format.now).is_valid head) }
    requires held { (t : Segment) × (segment_over segs.now.segments at.0 ≡ Some t) }
    requires inside { word_of at.0 + (F.layout format.now).size head ≤ length segs.now.words }
    ensures { result ≡ false → LeadsToNone (F.layout format.now) (new_in replacements.now) segs.now (word_of at.0) head
        ((F.layout format.now).size head) }
{
    let words = segs.words_from(at);
    let mut from = 0;
    while let Some(cell) = format.ref_from(head, from) {
        if replacements.may_have(format.target(words[cell as usize])) {
            return true;
        }
        from = cell + 1;
    }
    false
}

// Applies the pairs to the references of the block at `at` with this head, in ascending order.
fn apply_to_block<F: Format>(
    replacements: &Replacements,
    format: &F,
    segs: &mut Segs,
    at: Addr,
    head: u64,
)
    requires aligned { AreAligned replacements.now }
    requires begins { at.0 % bytes_of_word ≡ 0 }
    requires valid { IsTrue ((F.layout format.now).is_valid head) }
    requires inside { word_of at.0 + (F.layout format.now).size head ≤ length segs.old.words }
    ensures { (s : SegsState) (pool : ℕ) → segs.old ≡ after_apply_below (F.layout format.now) (new_in replacements.now) s pool
        (word_of at.0)
        → IsBlockOf (F.layout format.now) s pool (word_of at.0) head
        → segs.new ≡ after_apply_below (F.layout format.now) (new_in replacements.now) s pool
        (word_of at.0 + (F.layout format.now).size head) }
{
    let _ = segs.grains(); // so few that the address of a word fits
    let mut from = 0;
    while let Some(cell) = format.ref_from(head, from) {
        let place = Addr(at.0 + BYTES_OF_WORD * u64::from(cell));
        apply_to_cell(replacements, format, segs, place);
        from = cell + 1;
    }
}

// Applies the pairs to the reference at an address.
#[inline(always)]
fn apply_to_cell<F: Format>(replacements: &Replacements, format: &F, segs: &mut Segs, place: Addr)
    requires aligned { AreAligned replacements.now }
    requires begins { place.0 % bytes_of_word ≡ 0 }
    requires inside { word_of place.0 < length segs.old.words }
    ensures { segs.new ≡ after_replace (F.layout format.now) (word_of place.0) (slice_index segs.old.words (word_of place.0))
        (new_in replacements.now ((F.layout format.now).target (slice_index segs.old.words (word_of place.0)))) segs.old }
{
    let word = segs.word(place);
    if let Some(pair) = replacements.get(format.target(word)) {
        segs.set_word(place, format.retarget(word, pair.new));
        segs.note_write(place, pair.new);
    }
}
