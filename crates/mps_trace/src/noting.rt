// What a copy notes: where the references of the block may lead, in the summary of the segment to which it moved.
#![tactic(auto)]

ghost use Rattle.std.specs.Prelude.{◌≡◌, ℕ, ◌+◌, ◌*◌, ◌%◌, ◌<◌, ◌≤◌, Some, IsTrue, length, slice_index};
ghost use Rattle.mps_base.specs.Address.{word_of, bytes_of_word};
ghost use Rattle.mps_base.specs.Segment.{Segment, segment_over};
ghost use Rattle.mps_amc.specs.Moving.{BlockStands, size_at};
ghost use Rattle.mps_trace.specs.Noting.{zones_of_target, zones_of_block, copy_noted};

use mps_base::{Addr, ZoneSet};
use mps_format::Format;
use mps_seg::Segs;

/// The set of the zone to which an address leads. Null leads to none.
#[inline(always)]
fn zones_of_target(target: Addr) -> u64
    ensures { result ≡ zones_of_target target.0 }
{
    if target.0 == 0 {
        0
    } else {
        1 << (target.grain() % 64)
    }
}

/// The set of the zone to which the reference leads in a cell of the block that these words begin.
#[inline(always)]
fn zones_of_cell<F: Format>(format: &F, block: &[u64], cell: u32) -> u64
    requires { cell < length block.now }
    ensures { result ≡ zones_of_target ((F.layout format.now).target (slice_index block.now cell)) }
{
    zones_of_target(format.target(block[cell as usize]))
}

/// The zones to which the references lead of the block that these words begin.
#[inline(always)]
fn zones_of_words<F: Format>(format: &F, block: &[u64]) -> u64
    requires nonempty { 0 < length block.now }
    requires valid { IsTrue ((F.layout format.now).is_valid (slice_index block.now 0)) }
    requires whole { (F.layout format.now).size (slice_index block.now 0) ≤ length block.now }
    ensures { result ≡ zones_of_block (F.layout format.now) block.now 0 }
{
    let head = block[0];
    let mut zones = 0;
    let mut from = 0;
    while let Some(cell) = format.ref_from(head, from) {
        zones |= zones_of_cell(format, block, cell);
        from = cell + 1;
    }
    zones
}

/// The zones to which the references of the block at `at` lead, which lies in a segment.
#[inline(always)]
fn zones_of_block<F: Format>(segs: &Segs, format: &F, at: Addr) -> u64
    requires held { (t : Segment) × (segment_over segs.now.segments at.0 ≡ Some t) }
    requires stands { BlockStands (F.layout format.now) segs.now.words at.0 (size_at (F.layout format.now) segs.now.words at.0) }
    ensures { result ≡ zones_of_block (F.layout format.now) segs.now.words at.0 }
{
    zones_of_words(format, segs.words_from(at))
}

/// Notes the references of the block at `to`, which was at `from`: unless the summary of the segment over `to` has all zones of that over
/// `from`, it gains the zones to which the block leads. A block that stays is in the same segment, so it notes nothing.
#[tactic(auto, using(crate::proofs::Staying::nothing_noted))]
#[inline(always)]
pub(crate) fn note_copy<F: Format>(segs: &mut Segs, format: &F, from: Addr, to: Addr)
    requires aligned { to.0 % bytes_of_word ≡ 0 }
    requires in_arena { word_of from.0 < length segs.old.words }
    requires stands { BlockStands (F.layout format.now) segs.old.words to.0 (size_at (F.layout format.now) segs.old.words to.0) }
    ensures noted { segs.new ≡ copy_noted (F.layout format.now) segs.old from.0 to.0 }
{
    if from.0 == to.0 {
        return;
    }
    let _ = segs.grains(); // its words are those of the marks
    let Some(old) = segs.segment_of(from) else {
        return;
    };
    let Some(new) = segs.segment_of(to) else {
        return;
    };
    let known = segs.summary(new).0;
    if segs.summary(old).0 | known == known {
        return;
    }
    let zones = zones_of_block(segs, format, to);
    segs.set_summary(new, ZoneSet(known | zones));
}
