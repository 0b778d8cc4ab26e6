// The segment over an address, and where a block lies now.
#![tactic(auto)]

ghost use Rattle.std.specs.Prelude.{◌≡◌, ℕ, ◌+◌, ◌*◌, ◌<◌, true, false, Some, IfSome, IfNone, Contains};
ghost use Rattle.mps_base.specs.Address.{word_of, words_of_grain};
ghost use Rattle.mps_base.specs.Segment.{Segment, segment_over};
ghost use Rattle.mps_seg.specs.Collecting.{is_condemned_at, info_of};
ghost use Rattle.mps_trace.specs.Condemned.{AreInOrder, IsNextCondemned, NoneLeft};
ghost use Rattle.mps_trace.specs.Finding.{FindsIn, kept_at};

use mps_amc::forwarded_from;
use mps_base::Addr;
use mps_format::{Format, Policy};
use mps_seg::{SegmentInfo, Segs};

/// What is known of the segment over an address; None if the address lies in none.
#[inline(always)]
pub(crate) fn segment_at(segs: &Segs, at: Addr) -> Option<SegmentInfo>
    ensures found { (t : Segment) → segment_over segs.now.segments at.0 ≡ Some t → result ≡ Some (info_of segs.now t) }
    ensures over { IfSome result (λ info. (t : Segment) × (segment_over segs.now.segments at.0 ≡ Some t)) }
    ensures condemned { IfSome result (λ info. info.is_condemned ≡ is_condemned_at segs.now at.0) }
    ensures none { IfNone result (is_condemned_at segs.now at.0 ≡ false) }
{
    let base = segs.segment_of(at)?;
    Some(segs.segment(base))
}

/// The base of the lowest condemned segment that begins at `from` or above.
pub(crate) fn next_condemned(segs: &Segs, from: Addr) -> Option<Addr>
    requires { AreInOrder segs.now }
    ensures sound { IfSome result (λ base. IsNextCondemned segs.now from.0 base.0) }
    ensures complete { IfNone result (NoneLeft segs.now from.0) }
{
    segs.next_condemned(from)
}

/// Where the block at `at` lies, which hasn't moved; None if it isn't kept.
#[inline(always)]
fn find_kept(segs: &Segs, at: Addr) -> Option<Addr>
    requires in_arena { word_of at.0 < words_of_grain * (segs.now.grains + 1) }
    ensures { result ≡ kept_at segs.now at }
{
    if segs.is_kept(at) { Some(at) } else { None }
}

/// Where the block lies now that was at `at` in a condemned segment of a pool that moves its blocks; None if it is white.
#[inline(always)]
fn find_moved<F: Format>(segs: &Segs, format: &F, at: Addr) -> Option<Addr>
    requires held { (t : Segment) × (segment_over segs.now.segments at.0 ≡ Some t) }
    requires in_arena { word_of at.0 < words_of_grain * (segs.now.grains + 1) }
    ensures found { FindsIn (F.layout format.now) true segs.now at result }
{
    match forwarded_from(segs, format, at) {
        Some(to) => Some(to),
        None => find_kept(segs, at),
    }
}

/// Where the block lies now that was at `at` in a condemned segment of a pool with this policy; None if it is white.
#[inline(always)]
pub(crate) fn find_in<F: Format>(segs: &Segs, policy: Policy<F>, at: Addr) -> Option<Addr>
    requires held { (t : Segment) × (segment_over segs.now.segments at.0 ≡ Some t) }
    requires in_arena { word_of at.0 < words_of_grain * (segs.now.grains + 1) }
    ensures found { FindsIn (F.layout policy.format) policy.moves segs.now at result }
{
    if policy.moves {
        find_moved(segs, &policy.format, at)
    } else {
        find_kept(segs, at)
    }
}
